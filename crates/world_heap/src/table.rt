//! Tables from names to what stands under them, in the order in which the names were first put.
ghost use Rattle.std.specs.Prelude.{◌≡◌, [], ◌<◌, Some, length, slice_get, OnOk, OnErr, IfOk, IfSome, nat_eq};
ghost use Rattle.std.specs.Cmp.Lexicographic.{pointwise};
ghost use Rattle.std.specs.Option.{option_copied};
ghost use Rattle.std.specs.Map.{keys_of, values_of};
ghost use Rattle.indexmap.specs.IndexMap.{set_value_at};
ghost use Rattle.world_heap.specs.Table.{HasDistinctNames, found_under, put_under, left_without};

use indexmap::IndexMap;
use std::alloc::{AllocError, Global};
use std::marker::Model;
use wl_text::Units;

/// Values under names, seen as the list of both in the order in which the names were first put. No name stands twice.
/// A table that no name was put into takes one word beside its allocator, since most cells have none.
#[derive(Drop)]
pub struct Table<V> {
    alloc: Global,
    // none before the first name
    entries: Option<Box<IndexMap<Units, V>>>,
}

impl<V> Model for Table<V> {
    ghost use Rattle.std.specs.Prelude.{List, ℕ, []};
    ghost use Rattle.std.specs.Coded.{coded_list, coded×, coded_ℕ};

    ghost Value = { List (List ℕ × V) };

    ghost coded = { coded_list (coded× (coded_list coded_ℕ) V.code) };

    ghost use Rattle.std.specs.Option.{option_map_or};

    ghost view = { λ table. option_map_or (λ map. map.value.entries) table.entries [] };
}

// The name at a place of a map.
fn name_in<V>(map: &IndexMap<Units, V>, at: usize) -> &Units
    requires { at < length map.now.entries }
    ensures { slice_get (keys_of map.now.entries) at ≡ Some result.now }
{
    match map.get_index(at) {
        Some((name, _)) => name,
        None => unreachable!(),
    }
}

// Puts a value in the place of another in a map.
fn replace_in<V>(map: &mut IndexMap<Units, V>, at: usize, value: V) -> V
    requires { at < length map.old.entries }
    ensures was { slice_get (values_of map.old.entries) at ≡ Some result }
    ensures is { map.new.entries ≡ set_value_at map.old.entries at value }
{
    match map.get_index_mut(at) {
        Some(place) => std::mem::replace(place, value),
        None => unreachable!(),
    }
}

impl<V> Table<V> {
    /// An empty table. It takes no memory.
    pub fn new(alloc: Global) -> Table<V>
        ensures { result ≡ [] }
    {
        Table {
            alloc,
            entries: None,
        }
    }

    /// How many names there are; no two of them are the same.
    pub fn len(&self) -> usize
        ensures count { result ≡ length self.now }
        ensures distinct { HasDistinctNames self.now }
    {
        match &self.entries {
            Some(map) => map.len(),
            None => 0,
        }
    }

    /// The name at a place, in the order in which the names were first put.
    pub fn name(&self, at: usize) -> &Units
        requires { at < length self.now }
        ensures { slice_get (keys_of self.now) at ≡ Some result.now }
    {
        match &self.entries {
            Some(map) => name_in(map, at),
            None => unreachable!(),
        }
    }

    /// What stands under a name. The cost is constant on average.
    pub fn get(&self, name: &Units) -> Option<&V>
        ensures { option_copied result ≡ found_under self.now name.now }
    {
        match &self.entries {
            Some(map) => map.get(name),
            None => None,
        }
    }
}

impl<V: Drop> Table<V> {
    /// Puts a value under a name: a name that stands keeps its place, and a new one goes last. The cost is constant
    /// on average.
    pub fn put(&mut self, name: Units, value: V) -> Result<(), AllocError>
        ensures ok { OnOk result (self.new ≡ put_under self.old name value) }
        ensures err { OnErr result (self.new ≡ self.old) }
    {
        match &mut self.entries {
            Some(map) => {
                map.insert(name, value)?;
                Ok(())
            }
            None => {
                let mut map = IndexMap::new(self.alloc);
                map.insert(name, value)?;
                self.entries = Some(Box::new(self.alloc, map)?);
                Ok(())
            }
        }
    }

    /// Puts a value in the place of the one under the name at a place, and gives that one back. It takes no memory.
    pub fn replace_at(&mut self, at: usize, value: V) -> V
        requires { at < length self.old }
        ensures was { slice_get (values_of self.old) at ≡ Some result }
        ensures is { self.new ≡ set_value_at self.old at value }
    {
        match &mut self.entries {
            Some(map) => replace_in(map, at, value),
            None => unreachable!(),
        }
    }

    /// Takes a name out; the others keep their order. It takes no memory, and its cost is linear in the names behind.
    pub fn remove(&mut self, name: &Units)
        ensures { self.new ≡ left_without self.old name.now }
    {
        match &mut self.entries {
            Some(map) => {
                let _ = map.shift_remove(name);
            }
            None => {}
        }
    }
}
