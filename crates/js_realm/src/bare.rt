//! The built-in cells without their members.
ghost use Rattle.std.specs.Prelude.{◌≡◌, ◌+◌, ◌<◌, ◌≤◌, ◌^◌, ◌-◌, [], ◌∷◌, IfOk, OnOk, Some, true, length, nat_eq, slice_index};
ghost use Rattle.world_heap.specs.Bounded.{bounds_of};
ghost use Rattle.world_heap.specs.BuiltIns.{place_of, plain_object};
ghost use Rattle.world_heap.specs.Heaps.{IsNoEnv};
ghost use Rattle.world_heap.specs.Maps.{keys, Stands};
ghost use Rattle.js_realm.specs.Building.{Adds, IsBare, bare_function, contents, later_cells, module_length, numbered};
ghost use Rattle.js_realm.specs.Filling.{are_objects};

use sqlite_items::Items;
use std::alloc::{AllocError, Global};
use world_heap::{Body, BuiltIn, Cell, Heap, Limits, Loc, Pool, Table};
use world_kind::WorldKind;

// The body of a built-in cell without members.
fn bare_body(alloc: Global, proto: Loc) -> Body
    ensures { result ≡ record { proto = Some proto; properties = []; extensible = true } }
{
    Body {
        proto: Some(proto),
        properties: Table::new(alloc),
        extensible: true,
    }
}

// Adds an object.
fn add_object(alloc: Global, heap: &mut Heap, proto: Loc) -> Result<(), AllocError>
    requires room { heap.old.base < 1024 }
    requires proto { IsNoEnv nat_eq heap.old.cells proto }
    ensures { OnOk result (Adds (plain_object (Some proto) ∷ []) heap.old heap.new) }
{
    heap.add_built_in(Cell::Object {
        body: bare_body(alloc, proto),
    })?;
    Ok(())
}

// Adds a function.
fn add_function(alloc: Global, heap: &mut Heap, proto: Loc, id: u16) -> Result<(), AllocError>
    requires room { heap.old.base < 1024 }
    requires proto { IsNoEnv nat_eq heap.old.cells proto }
    ensures { OnOk result (Adds (bare_function proto id ∷ []) heap.old heap.new) }
{
    heap.add_built_in(Cell::Native {
        body: bare_body(alloc, proto),
        id,
        kept: Items::new(alloc),
    })?;
    Ok(())
}

// Adds so many objects.
fn add_objects(alloc: Global, heap: &mut Heap, proto: Loc, count: u64) -> Result<(), AllocError>
    requires room { heap.old.base + count ≤ 1024 }
    requires proto { IsNoEnv nat_eq heap.old.cells proto }
    ensures { OnOk result (Adds (numbered (λ n. plain_object (Some proto)) count) heap.old heap.new) }
{
    'objects: for _done in 0..count {
        add_object(alloc, heap, proto)?;
    }
    Ok(())
}

// Adds the built-in functions, by their numbers.
fn add_functions(alloc: Global, heap: &mut Heap, proto: Loc) -> Result<(), AllocError>
    requires room { heap.old.base + 12 ≤ 1024 }
    requires proto { IsNoEnv nat_eq heap.old.cells proto }
    ensures { OnOk result (Adds (numbered (bare_function proto) 12) heap.old heap.new) }
{
    'functions: for id in 0..12u16 {
        add_function(alloc, heap, proto, id)?;
    }
    Ok(())
}

// How many cells the module of a kind of world has.
fn module_length(kind: WorldKind) -> u64
    ensures is { result ≡ module_length kind }
    ensures few { result ≤ 5 }
{
    match kind {
        WorldKind::Main => 5,
        WorldKind::Preload => 3,
        WorldKind::Page => 0,
    }
}

// The location of a built-in object.
fn built_in_at(heap: &Heap, name: BuiltIn) -> Loc
    requires { place_of name < length heap.now.cells }
    ensures is { result ≡ slice_index (keys heap.now.cells) (place_of name) }
    ensures stands { Stands (keys heap.now.cells) result }
{
    match heap.built_in(name) {
        Some(loc) => loc,
        None => unreachable!(),
    }
}

// Adds the cells behind the global object.
fn add_later(alloc: Global, heap: &mut Heap, kind: WorldKind) -> Result<(), AllocError>
    requires begun { heap.old.base ≡ 17 }
    requires cells { length heap.old.cells ≡ 17 }
    requires objects { are_objects (contents heap.old.cells) ≡ true }
    ensures { OnOk result (Adds (later_cells (slice_index (keys heap.old.cells) 0) (slice_index (keys heap.old.cells) 8) kind) heap.old heap.new) }
{
    let root = built_in_at(heap, BuiltIn::ObjectPrototype);
    let function = built_in_at(heap, BuiltIn::FunctionPrototype);
    add_object(alloc, heap, root)?;
    add_functions(alloc, heap, function)?;
    add_objects(alloc, heap, root, module_length(kind))?;
    Ok(())
}

/// A new heap in the pool with the built-in cells, which have no members yet. Where memory runs out the pool is gone.
///
/// Fewer than 2^32-1 owner numbers were given out, and at most 31 heaps stand in the pool.
pub fn bare_realm(
    alloc: Global,
    limits: Limits,
    kind: WorldKind,
    pool: Pool,
) -> Result<Heap, AllocError>
    requires given { pool.given < 2 ^ 32 - 1 }
    requires room { length pool.maps ≤ 31 }
    ensures { IfOk result (λ heap. IsBare (bounds_of limits) pool kind heap) }
{
    let mut heap = Heap::new(alloc, limits, kind, pool)?;
    add_later(alloc, &mut heap, kind)?;
    Ok(heap)
}
