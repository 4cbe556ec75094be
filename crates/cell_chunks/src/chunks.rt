//! Slots in chunks of 1,024, each vacant or filled with a value.
ghost use Rattle.std.specs.Prelude.{◌≡◌, ◌↔◌, ◌+◌, ◌*◌, ◌≤◌, ◌<◌, ◌%◌, ◌++◌, [], Some, None, IsTrue, IsErr, OnOk, OnErr, IfOk, IfErr, length, replicate, slice_get, slice_set};
ghost use Rattle.std.specs.Borrow.{sem};
ghost use Rattle.cell_chunks.specs.Slots.{vacancies, IsFilled};

use std::alloc::{AllocError, Global};
use std::marker::Model;

/// How many slots a chunk has.
const CHUNK: usize = 1024;

/// The number of a slot in its store.
#[derive(Debug, Drop, Clone, Copy, PartialEq, Eq, Hash)]
pub struct Slot(pub u32);

/// A store of values, seen as a list of optional values: one place for each slot.
///
/// Slots come in chunks of 1,024, and a value stays in its slot until it is taken. What is left when the store is
/// dropped is dropped with it.
#[derive(Drop)]
pub struct Chunks<T> {
    places: Vec<Option<T>>,
    // the vacant slots; the last of them is filled next
    vacant: Vec<u32>,
}

impl<T> Model for Chunks<T> {
    ghost use Rattle.std.specs.Prelude.{◌≡◌, ◌*◌, ◌%◌, ◌≤◌, List, Option, length, vec_capacity};
    ghost use Rattle.std.specs.Coded.{coded_list, coded_option};
    ghost use Rattle.cell_chunks.specs.Store.{IsStack};

    ghost Value = { List (Option T) };

    ghost coded = { coded_list (coded_option T.code) };

    ghost view = { λ store. store.places.items };

    ghost invariant = { λ store. IsStack store.places.items store.vacant.items
        × (length store.places.items % 1024 ≡ 0)
        × (length store.places.items ≤ 1024 * 4_194_303)
        × (length store.places.items ≤ vec_capacity store.vacant) };
}

impl<T: Drop> Chunks<T> {
    ghost use Rattle.cell_chunks.specs.Lending.{lends_value};

    /// An empty store, without a chunk. It takes no memory.
    pub fn new(alloc: Global) -> Chunks<T>
        ensures { result ≡ [] }
    {
        Chunks {
            places: Vec::new(alloc),
            vacant: Vec::new(alloc),
        }
    }

    /// How many slots there are: 1,024 for each chunk, of which there are at most 4,194,303.
    pub fn len(&self) -> usize
        ensures slots { result ≡ length self.now }
        ensures whole { length self.now % 1024 ≡ 0 }
        ensures bound { length self.now ≤ 1024 * 4_194_303 }
    {
        self.places.len()
    }

    /// Adds a chunk of 1,024 vacant slots behind the others, where at most 4,194,302 chunks stand.
    ///
    /// Where memory runs out the store stays as it was. The cost is that of the chunk, on average.
    pub fn add_chunk(&mut self) -> Result<(), AllocError>
        requires { length self.old ≤ 1024 * 4_194_302 }
        ensures added { OnOk result (self.new ≡ self.old ++ replicate 1024 None) }
        ensures err { OnErr result (self.new ≡ self.old) }
    {
        let count = self.places.len();
        self.places.reserve(CHUNK)?;
        self.vacant.reserve(count + CHUNK)?;
        'slots: for i in 0..CHUNK {
            self.places.push_reserved(None);
            self.vacant.push_reserved((count + i) as u32);
        }
        Ok(())
    }

    /// Fills some vacant slot, or gives the value back exactly where no slot is vacant. It takes no memory.
    pub fn put(&mut self, value: T) -> Result<Slot, T>
        ensures filled { IfOk result (λ slot. (slice_get self.old slot.0 ≡ Some None)
            × (self.new ≡ slice_set self.old slot.0 (Some value))) }
        ensures stands { IfOk result (λ slot. slice_get self.new slot.0 ≡ Some (Some value)) }
        ensures full { IsErr result ↔ (vacancies self.old ≡ 0) }
        ensures back { IfErr result (λ back. (back ≡ value) × (self.new ≡ self.old)) }
    {
        match self.vacant.pop() {
            None => Err(value),
            Some(number) => {
                self.places[number as usize] = Some(value);
                Ok(Slot(number))
            }
        }
    }

    /// The value in a filled slot.
    pub fn get(&self, slot: Slot) -> &T
        requires { IsFilled self.now slot.0 }
        ensures { slice_get self.now slot.0 ≡ Some (Some result.now) }
    {
        match &self.places[slot.0 as usize] {
            Some(value) => value,
            None => unreachable!(),
        }
    }

    /// The value in a filled slot, for writing. No other slot changes.
    pub fn get_mut(&mut self, slot: Slot) -> &mut T
        requires { IsFilled self.old slot.0 }
        ensures* writes_back { sem 𝓛 (lends_value T.row self.entry slot.0 result) }
        ensures value { slice_get self.old slot.0 ≡ Some (Some result.now) }
    {
        self.places[slot.0 as usize].as_mut().unwrap()
    }

    /// Takes the value out of a filled slot, which is vacant then. It takes no memory.
    pub fn take(&mut self, slot: Slot) -> T
        requires { IsFilled self.old slot.0 }
        ensures value { slice_get self.old slot.0 ≡ Some (Some result) }
        ensures vacated { self.new ≡ slice_set self.old slot.0 None }
    {
        self.vacant.push_reserved(slot.0);
        match std::mem::replace(&mut self.places[slot.0 as usize], None) {
            Some(value) => value,
            None => unreachable!(),
        }
    }

    /// How many slots are vacant.
    pub fn vacant(&self) -> usize
        ensures { result ≡ vacancies self.now }
    {
        self.vacant.len()
    }
}
