//! The state of a machine without its pool.
ghost use Rattle.std.specs.Prelude.{◌≡◌};
ghost use Rattle.world_heap.specs.Views.{IsOwned};
ghost use Rattle.js_machine.specs.Does.{awaits_in};
ghost use Rattle.world_machine.specs.World.{Parts, heap_in, state_over};

use js_machine::{Control, Frame, State};
use js_semantics::Mode;
use std::alloc::Global;
use world_heap::{Heap, Pool, Seat};
use world_kind::WorldKind;
use world_log::Delivery;

/// The state of a machine, with its seat in the place of its heap.
#[derive(Drop)]
pub(crate) struct Machine {
    pub alloc: Global,
    pub seat: Seat,
    pub frames: Vec<Frame>,
    pub control: Control,
    pub steps: u64,
    pub depth: u64,
    pub kind: WorldKind,
    pub loaded: bool,
}

// A machine and its pool apart. It takes no memory.
pub(crate) fn part(state: State) -> (Machine, Pool)
    ensures { Parts state result.0 result.1 }
{
    let State {
        alloc,
        heap,
        frames,
        control,
        steps,
        depth,
        kind,
        loaded,
    } = state;
    let (seat, pool) = heap.part();
    pool.distinct();
    (
        Machine {
            alloc,
            seat,
            frames,
            control,
            steps,
            depth,
            kind,
            loaded,
        },
        pool,
    )
}

impl Machine {
    // The machine in its pool again. It takes no memory.
    pub(crate) fn join(self, pool: Pool) -> State
        requires { IsOwned pool.maps self.seat.owner self.seat.counts self.seat.base }
        ensures { result ≡ state_over self (heap_in self.seat pool) }
    {
        let Machine {
            alloc,
            seat,
            frames,
            control,
            steps,
            depth,
            kind,
            loaded,
        } = self;
        State {
            alloc,
            heap: Heap::join(seat, pool),
            frames,
            control,
            steps,
            depth,
            kind,
            loaded,
        }
    }

    // Whether a delivery may come now.
    pub(crate) fn awaits(&self, delivery: Delivery) -> bool
        ensures { result ≡ awaits_in self.now.control self.now.loaded delivery }
    {
        match (&self.control, delivery) {
            (Control::Wait(Mode::Idle), Delivery::Load) => !self.loaded,
            _ => false,
        }
    }
}
