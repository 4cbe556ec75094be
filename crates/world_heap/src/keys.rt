//! The own keys of cells.
ghost use Rattle.std.specs.Prelude.{◌≡◌, ◌≤◌, ◌++◌, ◌∷◌, [], Some, OnOk, IfOk, is_none, if◌then◌else◌, option_to_list, map, decimal, codes, nat_eq};
ghost use Rattle.std.specs.Map.{keys_of};
ghost use Rattle.std.specs.Option.{option_map_or};
ghost use Rattle.wl_text.specs.Number.{index_of};
ghost use Rattle.world_heap.specs.Maps.{find};
ghost use Rattle.world_heap.specs.Heaps.{IsCell};
ghost use Rattle.world_heap.specs.Keys.{ascending, indices_of, others_of, ordered_names, index_names, own_keys};

use crate::bodies::body;
use crate::cell::{Body, Cell};
use crate::heap::Heap;
use crate::table::Table;
use crate::value::{Loc, Property};
use std::alloc::{AllocError, Global};
use wl_text::{Units, index_of, number_text};

// The text `length`.
const LENGTH: [u16; 6] = [108, 101, 110, 103, 116, 104];

/// The greatest whole number that a value may be.
const GREATEST: usize = 9_007_199_254_740_991;

// The array indices below a number, as names.
fn names_below(alloc: Global, count: usize) -> Result<Vec<Units>, AllocError>
    requires { count ≤ 9_007_199_254_740_991 }
    ensures { IfOk result (λ names. names.items ≡ index_names count) }
{
    let mut names = Vec::new(alloc);
    'indices: for index in 0..count {
        names.push(number_text(alloc, index as i64)?)?;
    }
    Ok(names)
}

// A name goes to the indices or to the other names.
fn sort_out(
    alloc: Global,
    name: &Units,
    indices: &mut Vec<u32>,
    others: &mut Vec<Units>,
) -> Result<(), AllocError>
    ensures indices { OnOk result (indices.new.items ≡ indices.old.items ++ option_to_list (index_of name.now)) }
    ensures others { OnOk result (others.new.items ≡ others.old.items ++ (if is_none (index_of name.now) then name.now ∷ [] else [])) }
{
    match index_of(name) {
        Some(index) => {
            indices.push(index)?;
            Ok(())
        }
        None => {
            others.push(name.copy(alloc)?)?;
            Ok(())
        }
    }
}

// The names that are indices, ascending, and the other names in their order.
fn sorted_out(alloc: Global, table: &Table<Property>) -> Result<(Vec<u32>, Vec<Units>), AllocError>
    ensures { IfOk result (λ both. (both.0.items ≡ ascending (indices_of (keys_of table.now))) × (both.1.items ≡ others_of (keys_of table.now))) }
{
    let mut indices = Vec::new(alloc);
    let mut others = Vec::new(alloc);
    'names: for at in 0..table.len() {
        sort_out(alloc, table.name(at), &mut indices, &mut others)?;
    }
    indices.sort_unstable();
    Ok((indices, others))
}

// The names of a table: array indices ascending, then the others in their order.
pub(crate) fn ordered(alloc: Global, table: &Table<Property>) -> Result<Vec<Units>, AllocError>
    ensures { IfOk result (λ names. names.items ≡ ordered_names (keys_of table.now)) }
{
    let (indices, mut others) = sorted_out(alloc, table)?;
    let mut names = Vec::new(alloc);
    'indices: for index in &indices {
        names.push(number_text(alloc, i64::from(*index))?)?;
    }
    names.append(&mut others)?;
    Ok(names)
}

// The names of a body, behind others.
fn with_body_names(
    alloc: Global,
    mut names: Vec<Units>,
    body: &Body,
) -> Result<Vec<Units>, AllocError>
    ensures { IfOk result (λ all. all.items ≡ names.items ++ ordered_names (keys_of body.now.properties)) }
{
    let mut more = ordered(alloc, &body.properties)?;
    names.append(&mut more)?;
    Ok(names)
}

// The text `length`.
fn length_name(alloc: Global) -> Result<Units, AllocError>
    ensures { IfOk result (λ name. name ≡ codes "length") }
{
    match Units::of_units(alloc, &LENGTH) {
        Ok(name) => Ok(name),
        Err(_) => Err(AllocError),
    }
}

impl Heap {
    /// The own keys of a cell: array indices ascending, then names in the order of their creation. An array has its
    /// indices and `length`. The cost is that of sorting the indices.
    pub fn keys(&self, alloc: Global, loc: Loc) -> Result<Vec<Units>, AllocError>
        requires { IsCell nat_eq self.now.cells loc }
        ensures { IfOk result (λ names. names.items ≡ option_map_or own_keys (find nat_eq self.now.cells loc) []) }
    {
        cell_keys(alloc, self.cell(loc))
    }
}

// The own keys of a cell.
fn cell_keys(alloc: Global, cell: &Cell) -> Result<Vec<Units>, AllocError>
    ensures { IfOk result (λ names. names.items ≡ own_keys cell.now) }
{
    match cell {
        Cell::Array { items, .. } => {
            let mut names = names_below(alloc, items.len().min(GREATEST))?;
            names.push(length_name(alloc)?)?;
            Ok(names)
        }
        Cell::View { body, length, .. } => {
            let names = names_below(alloc, *length as usize)?;
            with_body_names(alloc, names, body)
        }
        other => match body(other) {
            Some(body) => ordered(alloc, &body.properties),
            None => Ok(Vec::new(alloc)),
        },
    }
}
