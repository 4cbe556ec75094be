//! Values of several owners in one store of slots, each owner's in the order in which they came.
ghost use Rattle.std.specs.Prelude.{◌≡◌, ◌↔◌, IsTrue, ℕ, ◌+◌, ◌<◌, ◌≤◌, ◌++◌, [], ◌∷◌, Some, None, false, length, replicate, position, slice_get, slice_index_or, ◌==◌, sum_by, nat_eq, MatchOption, OnOk, OnErr, IfOk};
ghost use Rattle.cell_chunks.specs.Slots.{vacancies};
ghost use Rattle.world_heap.specs.Bodies.{body_of, with_binding, with_body, with_byte};
ghost use Rattle.world_heap.specs.declared.cell.Cell as kept;
ghost use Rattle.world_heap.specs.Maps.{keys, find, put, without, stands, Stands};
ghost use Rattle.world_heap.specs.Shelf.{values_of, IsAmong, Apart};
ghost use Rattle.world_heap.specs.Stored.{owners, IsAt, IsDistinct};

use crate::bodies::{bind, exchange, write};
use crate::cell::{Binding, Body, Cell};
use cell_chunks::{Chunks, Slot};
use sqlite_items::Items;
use std::alloc::{AllocError, Global};
use std::marker::Model;

/// The slots of one owner, in the order in which they were filled.
#[derive(Drop)]
pub struct Region {
    pub owner: u32,
    pub own: Items<u32>,
}

/// Values of several owners, seen as the list of the owners, each with the list of its values and their locations.
#[derive(Drop)]
pub struct Store<T> {
    chunks: Chunks<T>,
    regions: Vec<Region>,
    // the owner of each slot that is filled
    marks: Vec<Option<u32>>,
}

impl<T> Model for Store<T> {
    ghost use Rattle.std.specs.Prelude.{ℕ, List};
    ghost use Rattle.std.specs.Coded.{coded_list, coded×, coded_ℕ};
    ghost use Rattle.world_heap.specs.Stored.{maps, IsStored, IsMarked};

    ghost Value = { List (ℕ × List (ℕ × T)) };

    ghost coded = { coded_list (coded× coded_ℕ (coded_list (coded× coded_ℕ T.code))) };

    ghost view = { λ store. maps store.chunks store.regions.items };

    ghost invariant = { λ store. IsStored store.chunks store.regions.items
        × IsMarked store.chunks store.marks.items store.regions.items };
}

/// Lets a value go. A generic function keeps the cases of its drop out of its callers' proofs.
pub fn discard<T: Drop>(_value: T) {}

// Makes the list of marks so long, where it is shorter.
fn make_marks(marks: &mut Vec<Option<u32>>, count: usize) -> Result<(), AllocError>
    ensures long { OnOk result (count ≤ length marks.new.items) }
    ensures longer { length marks.old.items ≤ length marks.new.items }
    ensures same { (k : ℕ) → slice_index_or marks.new.items k None ≡ slice_index_or marks.old.items k None }
{
    'marks: while marks.len() < count {
        marks.push(None)?;
    }
    Ok(())
}

// Whether a slot is marked with the owner.
fn is_marked(marks: &[Option<u32>], owner: u32, slot: u32) -> bool
    ensures { IsTrue result ↔ (slice_index_or marks.now slot None ≡ Some owner) }
{
    match marks.get(slot as usize) {
        Some(Some(mark)) => *mark == owner,
        _ => false,
    }
}

// A vacant slot, where there is none, by a chunk more, and as many marks as there are slots.
fn make_room<T: Drop>(
    chunks: &mut Chunks<T>,
    marks: &mut Vec<Option<u32>>,
) -> Result<(), AllocError>
    requires { length chunks.old ≤ length marks.old.items }
    ensures room { OnOk result (0 < vacancies chunks.new) }
    ensures more { (n : ℕ) × (chunks.new ≡ chunks.old ++ replicate n None) }
    ensures err { OnErr result (chunks.new ≡ chunks.old) }
    ensures long { length chunks.new ≤ length marks.new.items }
    ensures same { (k : ℕ) → slice_index_or marks.new.items k None ≡ slice_index_or marks.old.items k None }
{
    if chunks.vacant() > 0 {
        return Ok(());
    }
    if chunks.len() > 1024 * 4_194_302 {
        return Err(AllocError);
    }
    make_marks(marks, chunks.len() + 1024)?;
    chunks.add_chunk()?;
    Ok(())
}

// The place of the first region of an owner, where there is one.
fn region_place(regions: &[Region], owner: u32) -> Option<usize>
    ensures { result ≡ position (λ region. region.owner == owner) regions.now }
{
    regions.iter().position(|region| region.owner == owner)
}

// The place of an owner's region.
fn region_at(regions: &[Region], owner: u32) -> usize
    requires { Stands (owners regions.now) owner }
    ensures { IsAt regions.now owner result }
{
    match region_place(regions, owner) {
        Some(at) => at,
        None => unreachable!(),
    }
}

impl<T: Drop> Store<T> {
    /// No owner, and no chunk. It takes no memory.
    pub fn new(alloc: Global) -> Store<T>
        ensures { result ≡ [] }
    {
        Store {
            chunks: Chunks::new(alloc),
            regions: Vec::new(alloc),
            marks: Vec::new(alloc),
        }
    }

    /// Makes an owner without values.
    pub fn open(&mut self, alloc: Global, owner: u32) -> Result<(), AllocError>
        requires { stands nat_eq (keys self.old) owner ≡ false }
        ensures ok { OnOk result (self.new ≡ self.old ++ (owner, []) ∷ []) }
        ensures err { OnErr result (self.new ≡ self.old) }
    {
        self.regions.push(Region {
            owner,
            own: Items::new(alloc),
        })?;
        Ok(())
    }

    /// Adds a value behind the others of an owner, under a location that no owner has.
    pub fn add(&mut self, owner: u32, value: T) -> Result<u32, AllocError>
        requires { Stands (keys self.old) owner }
        ensures added { IfOk result (λ l. self.new ≡ put nat_eq self.old owner (values_of self.old owner ++ (l, value) ∷ [])) }
        ensures apart { IfOk result (λ l. Apart self.old l) }
        ensures err { OnErr result (self.new ≡ self.old) }
    {
        make_room(&mut self.chunks, &mut self.marks)?;
        let at = region_at(self.regions.as_slice(), owner);
        match self.chunks.put(value) {
            Ok(slot) => match self.regions[at].own.push(slot.0) {
                Ok(()) => {
                    self.marks[slot.0 as usize] = Some(owner);
                    Ok(slot.0)
                }
                Err(error) => {
                    discard(self.chunks.take(slot));
                    Err(error)
                }
            },
            Err(_) => unreachable!(),
        }
    }

    /// The value at a location of some owner.
    pub fn value(&self, loc: u32) -> &T
        requires { (owner : ℕ) × IsAmong self.now owner loc }
        ensures { (owner : ℕ) → IsAmong self.now owner loc → find nat_eq (values_of self.now owner) loc ≡ Some result.now }
    {
        self.chunks.get(Slot(loc))
    }

    /// The value of an owner at a location, where it has one. Its cost is constant.
    pub fn get(&self, owner: u32, loc: u32) -> Option<&T>
        ensures { MatchOption result (find nat_eq (values_of self.now owner) loc ≡ None)
            (λ value. find nat_eq (values_of self.now owner) loc ≡ Some value.now) }
    {
        if is_marked(self.marks.as_slice(), owner, loc) {
            return Some(self.chunks.get(Slot(loc)));
        }
        None
    }

    /// Puts a value in the place of another, and gives that one back.
    pub fn replace(&mut self, loc: u32, value: T) -> T
        requires { (owner : ℕ) × IsAmong self.old owner loc }
        ensures was { (owner : ℕ) → IsAmong self.old owner loc → find nat_eq (values_of self.old owner) loc ≡ Some result }
        ensures is { (owner : ℕ) → IsAmong self.old owner loc
            → self.new ≡ put nat_eq self.old owner (put nat_eq (values_of self.old owner) loc value) }
    {
        std::mem::replace(self.chunks.get_mut(Slot(loc)), value)
    }

    /// How many values there are.
    pub fn filled(&self) -> usize
        ensures { result ≡ sum_by (λ m. length m.1) self.now }
    {
        self.chunks.len() - self.chunks.vacant()
    }

    /// The location of one of an owner's values, by its place among them.
    pub fn location(&self, owner: u32, at: usize) -> Option<u32>
        ensures { result ≡ slice_get (keys (values_of self.now owner)) at }
    {
        match region_place(self.regions.as_slice(), owner) {
            Some(place) => self.regions[place].own.get(at).copied(),
            None => None,
        }
    }

    /// No owner has a location twice: a law. It does nothing.
    pub fn distinct(&self)
        ensures { (owner : ℕ) → IsDistinct (keys (values_of self.now owner)) }
    {
        let _ = &self.chunks;
    }

    /// Takes an owner away with all its values. The cost is linear in these.
    pub fn close(&mut self, owner: u32)
        requires { Stands (keys self.old) owner }
        ensures { self.new ≡ without nat_eq self.old owner }
    {
        let at = region_at(self.regions.as_slice(), owner);
        let mut region = self.regions.remove(at);
        'values: while let Some(loc) = region.own.pop() {
            discard(self.chunks.take(Slot(loc)));
            self.marks[loc as usize] = None;
        }
    }
}

impl Store<Cell> {
    /// Puts a body in the place of that of a cell, and gives that one back; a cell without a body stays as it is.
    pub fn replace_body(&mut self, loc: u32, body: Body) -> Option<Body>
        requires { (owner : ℕ) × IsAmong self.old owner loc }
        ensures was { (owner : ℕ) (cell : kept.Cell ℕ) → find nat_eq (values_of self.old owner) loc ≡ Some cell → result ≡ body_of cell }
        ensures is { (owner : ℕ) (cell : kept.Cell ℕ) → find nat_eq (values_of self.old owner) loc ≡ Some cell
            → self.new ≡ put nat_eq self.old owner (put nat_eq (values_of self.old owner) loc (with_body cell body)) }
    {
        exchange(self.chunks.get_mut(Slot(loc)), body)
    }

    /// Puts a byte at a place of a buffer, where it has one; another cell stays as it is.
    pub fn write_byte(&mut self, loc: u32, at: usize, byte: u8)
        requires { (owner : ℕ) × IsAmong self.old owner loc }
        ensures { (owner : ℕ) (cell : kept.Cell ℕ) → find nat_eq (values_of self.old owner) loc ≡ Some cell
            → self.new ≡ put nat_eq self.old owner (put nat_eq (values_of self.old owner) loc (with_byte cell at byte)) }
    {
        write(self.chunks.get_mut(Slot(loc)), at, byte);
    }

    /// Puts a binding in the place of another of an environment, where it has one there; another cell stays as it is.
    pub fn set_binding(&mut self, loc: u32, place: usize, binding: Binding)
        requires { (owner : ℕ) × IsAmong self.old owner loc }
        ensures { (owner : ℕ) (cell : kept.Cell ℕ) → find nat_eq (values_of self.old owner) loc ≡ Some cell
            → self.new ≡ put nat_eq self.old owner (put nat_eq (values_of self.old owner) loc (with_binding cell place binding)) }
    {
        bind(self.chunks.get_mut(Slot(loc)), place, binding);
    }
}
