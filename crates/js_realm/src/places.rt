//! The locations of the cells of a heap.
ghost use Rattle.std.specs.Prelude.{◌≡◌, IfOk};
ghost use Rattle.world_heap.specs.Maps.{keys};
ghost use Rattle.world_heap.specs.Stored.{IsDistinct};

use std::alloc::{AllocError, Global};
use world_heap::{Heap, Loc};

/// The locations of all cells, in the order in which these were added. The cost is linear in the cells.
pub fn cell_places(alloc: Global, heap: &Heap) -> Result<Vec<Loc>, AllocError>
    ensures { IfOk result (λ places. places.items ≡ keys heap.now.cells) }
{
    let mut places = Vec::new(alloc);
    'cells: while let Some(loc) = heap.location(places.len()) {
        places.push(loc)?;
    }
    Ok(places)
}

/// The heap again, whose cells have two locations where they are two: its pool says so. It takes no memory.
pub fn with_distinct_places(heap: Heap) -> Heap
    ensures same { result ≡ heap }
    ensures distinct { IsDistinct (keys result.cells) }
{
    let (seat, pool) = heap.part();
    pool.distinct();
    Heap::join(seat, pool)
}
