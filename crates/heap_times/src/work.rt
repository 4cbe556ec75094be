//! The work.
ghost use Rattle.std.specs.Prelude.{◌≡◌, [], IfOk, nat_eq};
ghost use Rattle.world_heap.specs.Over.{OptionOver};
ghost use Rattle.world_heap.specs.Heaps.{IsNoEnv, IsCell};

use crate::asked::{Asked, Kind};
use crate::failure::Failure;
use proto_props::{SetDone, delete, find, set_step};
use std::alloc::{AllocError, Global};
use wl_text::{Units, number_text};
use world_heap::{Body, Cell, Heap, HeapFault, Limits, Loc, Pool, Table, Value, WorldKind};

// The greatest limits that a world may have.
fn limits() -> Limits {
    Limits {
        steps: 1_000_000,
        cells: 250_000,
        places: 1_000_000,
        units: 16_777_216,
        depth: 1_000,
    }
}

// A world in a pool of its own.
fn world(alloc: Global) -> Result<Heap, Failure>
    ensures others { IfOk result (λ heap. heap.others ≡ []) }
    ensures given { IfOk result (λ heap. heap.given ≡ 1) }
{
    Ok(Heap::new(alloc, limits(), WorldKind::Main, Pool::new(alloc))?)
}

// Adds an object without properties.
#[tactic(auto, using(world_heap::specs::Maps::map_laws))]
fn placed(alloc: Global, heap: &mut Heap, proto: Option<Loc>) -> Result<Loc, HeapFault>
    requires { OptionOver (IsNoEnv nat_eq heap.old.cells) proto }
    ensures stands { IfOk result (λ loc. IsCell nat_eq heap.new.cells loc) }
    ensures object { IfOk result (λ loc. IsNoEnv nat_eq heap.new.cells loc) }
{
    let body = Body {
        proto,
        properties: Table::new(alloc),
        extensible: true,
    };
    heap.add(Cell::Object { body })
}

// Adds an object with a chain of so many prototypes.
fn chained(alloc: Global, heap: &mut Heap, count: u32) -> Result<Loc, Failure>
    ensures { IfOk result (λ loc. IsCell nat_eq heap.new.cells loc) }
{
    let mut last = placed(alloc, heap, None)?;
    'objects: for _done in 0..count {
        last = placed(alloc, heap, Some(last))?;
    }
    Ok(last)
}

// Adds so many cells.
fn fill(heap: &mut Heap, count: u32) -> Result<(), HeapFault>
    ensures others { heap.new.others ≡ heap.old.others }
    ensures given { heap.new.given ≡ heap.old.given }
{
    'cells: for _done in 0..count {
        heap.add(Cell::Symbol { text: None })?;
    }
    Ok(())
}

// The key of a number; all that are used have seven units.
fn key_of(alloc: Global, number: u32) -> Result<Units, AllocError> {
    number_text(alloc, 1_000_000 + i64::from(number))
}

// Gives an object so many keys.
fn dress(alloc: Global, heap: &mut Heap, loc: Loc, count: u32) -> Result<(), Failure>
    requires { IsCell nat_eq heap.old.cells loc }
    ensures { IsCell nat_eq heap.new.cells loc }
{
    'keys: for number in 0..count {
        let key = key_of(alloc, number)?;
        if let SetDone::Refused(_) = set_step(alloc, heap, loc, key, Value::Null)? {
            return Ok(());
        }
    }
    Ok(())
}

// Adds cells to a world that has some, and tells how many it has then.
fn add(alloc: Global, size: u32, count: u32) -> Result<u64, Failure> {
    let mut heap = world(alloc)?;
    fill(&mut heap, size)?;
    fill(&mut heap, count)?;
    Ok(heap.len())
}

// How many of so many look-ups of a key find no object.
fn missed(heap: &Heap, loc: Loc, key: &Units, count: u32) -> u64
    requires { IsCell nat_eq heap.now.cells loc }
{
    let mut missed = 0u64;
    'reads: for _done in 0..count {
        if find(heap, loc, key).is_none() {
            missed = missed.wrapping_add(1);
        }
    }
    missed
}

// Reads the cells of a chain of prototypes for a key that none has, and tells how often it wasn't there.
fn read(alloc: Global, size: u32, count: u32) -> Result<u64, Failure> {
    let mut heap = world(alloc)?;
    let loc = chained(alloc, &mut heap, size)?;
    let key = number_text(alloc, 0)?;
    Ok(missed(&heap, loc, &key, count))
}

// How many of so many look-ups of keys below a number find an object.
fn found(alloc: Global, heap: &Heap, loc: Loc, below: u32, count: u32) -> Result<u64, Failure>
    requires { IsCell nat_eq heap.now.cells loc }
{
    let mut found = 0u64;
    'keys: for number in 0..count {
        let key = key_of(alloc, number.checked_rem(below).unwrap_or(0))?;
        if find(heap, loc, &key).is_some() {
            found = found.wrapping_add(1);
        }
    }
    Ok(found)
}

// Looks keys up in an object, and tells how many were found.
fn look_up(alloc: Global, size: u32, count: u32) -> Result<u64, Failure> {
    let mut heap = world(alloc)?;
    let loc = placed(alloc, &mut heap, None)?;
    dress(alloc, &mut heap, loc, size)?;
    found(alloc, &heap, loc, size, count)
}

// Removes the first so many keys of an object, and tells how many are gone.
fn removed(alloc: Global, heap: &mut Heap, loc: Loc, count: u32) -> Result<u64, Failure>
    requires { IsCell nat_eq heap.old.cells loc }
{
    let mut gone = 0u64;
    'keys: for number in 0..count {
        let key = key_of(alloc, number)?;
        if delete(alloc, heap, loc, &key) {
            gone = gone.wrapping_add(1);
        }
    }
    Ok(gone)
}

// Removes the oldest key of an object again and again, and tells how many are gone.
fn remove_oldest(alloc: Global, size: u32, count: u32) -> Result<u64, Failure> {
    let mut heap = world(alloc)?;
    let loc = placed(alloc, &mut heap, None)?;
    dress(alloc, &mut heap, loc, size)?;
    removed(alloc, &mut heap, loc, count)
}

// Ends a world beside another, and tells how many cells are left.
fn end(alloc: Global, size: u32, count: u32) -> Result<u64, Failure> {
    let mut first = world(alloc)?;
    fill(&mut first, size)?;
    let (_seat, pool) = first.part();
    let mut second = Heap::new(alloc, limits(), WorldKind::Page, pool)?;
    fill(&mut second, count)?;
    Ok(second.end().filled())
}

/// Does the work, and tells a number of what was done or is left.
///
/// # Errors
/// Memory ran out, or a count of a heap would pass its limit.
pub(crate) fn work(alloc: Global, asked: Asked) -> Result<u64, Failure> {
    match asked.kind {
        Kind::Add => add(alloc, asked.size, asked.count),
        Kind::Read => read(alloc, asked.size, asked.count),
        Kind::Find => look_up(alloc, asked.size, asked.count),
        Kind::Oldest => remove_oldest(alloc, asked.size, asked.count),
        Kind::End => end(alloc, asked.size, asked.count),
    }
}
