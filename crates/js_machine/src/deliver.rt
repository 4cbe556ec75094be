//! What a delivery starts, and a new state.
ghost use Rattle.std.specs.Prelude.{◌≡◌, ℕ, List, IfOk, true};
ghost use Rattle.js_tree.specs.declared.node.Node as tree_node;
ghost use Rattle.js_names.specs.Patterns.{nodes_of};
ghost use Rattle.js_semantics.specs.Alone.{alone_by};
ghost use Rattle.js_semantics.specs.Run.{Arrival, load_row, refilled};
ghost use Rattle.js_machine.specs.Closed.{IsClosed, Lasts};
ghost use Rattle.js_machine.specs.Does.{Does, IsFresh, IsRealm, Receives, does_await, is_running, setting_of, to_come};

use crate::frame::Frame;
use crate::state::{Control, Next, State};
use js_semantics::{Mode, StepFault};
use js_tree::{NodeId, Tree};
use std::alloc::Global;
use world_heap::Heap;
use world_kind::WorldKind;
use world_log::Delivery;

impl State {
    /// The state of a world in which nothing has happened, over its heap. It takes no memory. Over the built-in cells of
    /// its kind alone, what is to come is what the world makes alone of its script and its deliveries.
    pub fn new(alloc: Global, heap: Heap, kind: WorldKind) -> State
        ensures fresh { IsFresh kind heap result }
        ensures traces { (nodes : List tree_node.Node) (supply : ℕ → ℕ) (ds : List Arrival) → IsRealm supply kind heap
            → to_come nodes supply result ds ≡ alone_by supply (setting_of nodes kind heap) ds }
    {
        State {
            alloc,
            heap,
            frames: Vec::new(alloc),
            control: Control::Wait(Mode::Idle),
            steps: 0,
            depth: 0,
            kind,
            loaded: false,
        }
    }

    /// Whether there is a step to make.
    pub fn is_running(&self) -> bool
        ensures { result ≡ is_running self.now.control }
    {
        !matches!(self.control, Control::Wait(_) | Control::Stop)
    }

    /// Whether a delivery may come now: the script is loaded once, between tasks.
    pub fn awaits(&self, delivery: Delivery) -> bool
        ensures { result ≡ does_await self.now delivery }
    {
        match (&self.control, delivery) {
            (Control::Wait(Mode::Idle), Delivery::Load) => !self.loaded,
            _ => false,
        }
    }

    // A fresh delivery fills the steps.
    fn refill(&mut self, fresh: bool)
        ensures { (what : _) → self.new ≡ record self.old { steps = refilled self.old.heap.limits (record { fresh = fresh; what = what }) self.old.steps } }
    {
        if fresh {
            self.steps = self.heap.limits().steps;
        }
    }

    // Enters the script, whose root is the last node.
    fn load(&mut self, tree: &Tree) -> Result<Next, StepFault>
        ensures does { IfOk result (λ next. Does (nodes_of tree.now) 2 load_row self.old self.new next) }
        ensures closed { (nodes : List tree_node.Node) → IsClosed nodes self.old → Lasts nodes self.old self.new result }
    {
        self.loaded = true;
        let root = NodeId(tree.len().saturating_sub(1));
        self.enter_script(root)
    }

    /// Takes a delivery, `fresh` where it is the first in its task and fills the steps. It may come.
    pub fn receive(
        &mut self,
        tree: &Tree,
        fresh: bool,
        delivery: Delivery,
    ) -> Result<Next, StepFault>
        requires { does_await self.old delivery ≡ true }
        ensures receives { IfOk result (λ next. Receives (nodes_of tree.now) (record { fresh = fresh; what = delivery }) self.old self.new next) }
        ensures closed { (nodes : List tree_node.Node) → IsClosed nodes self.old → Lasts nodes self.old self.new result }
    {
        self.refill(fresh);
        match delivery {
            Delivery::Load => self.load(tree),
        }
    }
}
