//! What the rows are made of: ending a row, and entering what is below it.
ghost use Rattle.std.specs.Prelude.{◌≡◌, ◌≤◌, ◌++◌, ℕ, List, IfOk, OnOk, Some, None, option_to_list, nat_eq};
ghost use Rattle.js_tree.specs.declared.node.Node as kind;
ghost use Rattle.js_semantics.specs.Prog.{Bind, End, Enter, Member, Native, Node as NodeRequest, Request, Script, done};
ghost use Rattle.js_machine.specs.Frames.{after_rest, rest};
ghost use Rattle.world_heap.specs.Heaps.{IsNoEnv};
ghost use Rattle.world_heap.specs.Over.{ListOver, OptionOver};
ghost use Rattle.js_machine.specs.Does.{Does, IsEntered, StepsDown, under_frame};
ghost use Rattle.js_machine.specs.Closed.{AfterFits, ControlFits, FrameFits, IsClosed, Lasts, OutcomeFits, ScopeFits, ValueFits};

use crate::frame::{AfterFrame, Frame};
use crate::state::{Control, Next, State};
use js_semantics::{Outcome, Scope, StepFault};
use js_tree::NodeId;
use sqlite_items::Items;
use world_heap::{Loc, Value};
use world_log::{Product, Stop};

/// Lets a value go. A generic function keeps the cases of its drop out of its callers' proofs.
#[inline(always)]
pub fn discard<T: Drop>(_value: T) {}

// Lets a value go for which there was no memory. It stands apart from its callers' code, which goes on without it.
#[cold]
#[inline(never)]
fn lose<T: Drop>(_value: T) {}

/// Ends a row without a value, as that of a statement (ECMA-262, 14.5.1).
#[inline(always)]
pub fn done(state: &mut State) -> Result<Next, StepFault>
    ensures does { (nodes : List kind.Node) → IfOk result (λ next. Does nodes 6 done state.old state.new next) }
    ensures closed { (nodes : List kind.Node) → IsClosed nodes state.old → Lasts nodes state.old state.new result }
{
    state.give(Outcome::Normal(Value::Undefined))
}

/// A world stops, for good.
#[inline(always)]
pub fn stopped(stop: Stop) -> Next
    ensures { result ≡ Next.Made (Product.Stopped stop) }
{
    Next::Made(Product::Stopped(stop))
}

impl State {
    /// Ends a row with an outcome.
    #[inline(always)]
    #[tactic(auto, using(crate::proofs::Closing::closed_control))]
    pub fn give(&mut self, outcome: Outcome) -> Result<Next, StepFault>
        ensures few { (nodes : List kind.Node) → IfOk result (λ next. Does nodes 2 (End outcome) self.old self.new next) }
        ensures some { (nodes : List kind.Node) → IfOk result (λ next. Does nodes 4 (End outcome) self.old self.new next) }
        ensures many { (nodes : List kind.Node) → IfOk result (λ next. Does nodes 6 (End outcome) self.old self.new next) }
        ensures closed { (nodes : List kind.Node) → IsClosed nodes self.old → OutcomeFits nodes self.old.heap.cells outcome → Lasts nodes self.old self.new result }
    {
        self.control = Control::Give(outcome);
        Ok(Next::Go)
    }

    // What follows a reading is done with the value, by a frame.
    #[inline(always)]
    fn follow(&mut self, frame: AfterFrame, value: Value) -> Result<Next, StepFault>
        ensures does { (nodes : List kind.Node) → IfOk result (λ next. Does nodes 6 (after_rest nodes frame value) self.old self.new next) }
        ensures closed { (nodes : List kind.Node) → IsClosed nodes self.old → AfterFits nodes self.old.heap.cells frame → ValueFits self.old.heap.cells value → Lasts nodes self.old self.new result }
    {
        self.push(Some(Frame::After(frame)))?;
        self.control = Control::Give(Outcome::Normal(value));
        Ok(Next::Go)
    }

    /// What follows a reading is done with the value: at once, where that only gives a value, and else by a frame.
    #[inline(always)]
    pub fn hand(&mut self, frame: AfterFrame, value: Value) -> Result<Next, StepFault>
        ensures does { (nodes : List kind.Node) → IfOk result (λ next. Does nodes 6 (after_rest nodes frame value) self.old self.new next) }
        ensures closed { (nodes : List kind.Node) → IsClosed nodes self.old → AfterFits nodes self.old.heap.cells frame → ValueFits self.old.heap.cells value → Lasts nodes self.old self.new result }
    {
        match frame {
            AfterFrame::Give => self.give(Outcome::Normal(value)),
            AfterFrame::Result { value: kept } => {
                discard(value);
                self.give(Outcome::Normal(kept))
            }
            frame => self.follow(frame, value),
        }
    }

    /// Puts a frame on the stack, where there is one. For want of memory the frame is lost.
    #[inline(always)]
    pub fn push(&mut self, frame: Option<Frame>) -> Result<(), StepFault>
        ensures frames { OnOk result (self.new.frames.items ≡ self.old.frames.items ++ option_to_list frame) }
        ensures rest { self.new ≡ record self.old { frames = self.new.frames } }
        ensures closed { (nodes : List kind.Node) → IsClosed nodes self.old → OptionOver (FrameFits nodes self.old.heap.cells) frame → Lasts nodes self.old self.new result }
    {
        match frame {
            Some(frame) => match self.frames.reserve(1) {
                Ok(()) => {
                    self.frames.push_reserved(frame);
                    Ok(())
                }
                Err(_) => {
                    lose(frame);
                    Err(StepFault::Memory)
                }
            },
            None => Ok(()),
        }
    }

    /// Says what is next.
    #[inline(always)]
    pub fn turn_to(&mut self, control: Control)
        ensures { self.new ≡ record self.old { control = control } }
    {
        discard(std::mem::replace(&mut self.control, control));
    }

    // Takes a step and goes on with what is entered, over a frame where there is one.
    #[inline(always)]
    fn go(&mut self, frame: Option<Frame>, control: Control) -> Result<Next, StepFault>
        ensures does { (nodes : List kind.Node) (n : ℕ) (r : Request ℕ) → 2 ≤ n → IsEntered control r
            → IfOk result (λ next. Does nodes n (Enter r (λ o. under_frame nodes frame o)) self.old self.new next) }
        ensures closed { (nodes : List kind.Node) → IsClosed nodes self.old → OptionOver (FrameFits nodes self.old.heap.cells) frame → ControlFits nodes self.old.heap.cells control
            → Lasts nodes self.old self.new result }
    {
        if self.steps == 0 {
            self.control = Control::Stop;
            return Ok(stopped(Stop::Fuel));
        }
        self.push(frame)?;
        self.steps -= 1;
        self.turn_to(control);
        Ok(Next::Go)
    }

    /// Enters a node for a step, and leaves a frame for its outcome.
    #[inline(always)]
    pub fn enter(&mut self, frame: Frame, node: NodeId, scope: Scope) -> Result<Next, StepFault>
        ensures few { (nodes : List kind.Node) → IfOk result (λ next. Does nodes 2 (Enter (NodeRequest node scope) (λ o. rest nodes frame o)) self.old self.new next) }
        ensures some { (nodes : List kind.Node) → IfOk result (λ next. Does nodes 4 (Enter (NodeRequest node scope) (λ o. rest nodes frame o)) self.old self.new next) }
        ensures many { (nodes : List kind.Node) → IfOk result (λ next. Does nodes 6 (Enter (NodeRequest node scope) (λ o. rest nodes frame o)) self.old self.new next) }
        ensures closed { (nodes : List kind.Node) → IsClosed nodes self.old → FrameFits nodes self.old.heap.cells frame → ScopeFits nodes self.old.heap.cells scope
            → Lasts nodes self.old self.new result }
    {
        self.go(Some(frame), Control::Node(node, scope))
    }

    /// Enters a node for a step, whose outcome is that of the row.
    #[inline(always)]
    pub fn jump(&mut self, node: NodeId, scope: Scope) -> Result<Next, StepFault>
        ensures few { (nodes : List kind.Node) → IfOk result (λ next. Does nodes 2 (Enter (NodeRequest node scope) (λ o. End o)) self.old self.new next) }
        ensures some { (nodes : List kind.Node) → IfOk result (λ next. Does nodes 4 (Enter (NodeRequest node scope) (λ o. End o)) self.old self.new next) }
        ensures many { (nodes : List kind.Node) → IfOk result (λ next. Does nodes 6 (Enter (NodeRequest node scope) (λ o. End o)) self.old self.new next) }
        ensures closed { (nodes : List kind.Node) → IsClosed nodes self.old → ScopeFits nodes self.old.heap.cells scope → Lasts nodes self.old self.new result }
    {
        self.go(None, Control::Node(node, scope))
    }

    /// Enters a pattern for a step, with the value that is bound to it, and leaves a frame.
    #[inline(always)]
    pub fn bind(
        &mut self,
        frame: Frame,
        node: NodeId,
        value: Value,
        scope: Scope,
    ) -> Result<Next, StepFault>
        ensures few { (nodes : List kind.Node) → IfOk result (λ next. Does nodes 2 (Enter (Bind node value scope) (λ o. rest nodes frame o)) self.old self.new next) }
        ensures some { (nodes : List kind.Node) → IfOk result (λ next. Does nodes 4 (Enter (Bind node value scope) (λ o. rest nodes frame o)) self.old self.new next) }
        ensures many { (nodes : List kind.Node) → IfOk result (λ next. Does nodes 6 (Enter (Bind node value scope) (λ o. rest nodes frame o)) self.old self.new next) }
        ensures closed { (nodes : List kind.Node) → IsClosed nodes self.old → FrameFits nodes self.old.heap.cells frame → ValueFits self.old.heap.cells value → ScopeFits nodes self.old.heap.cells scope
            → Lasts nodes self.old self.new result }
    {
        self.go(Some(frame), Control::Bind(node, value, scope))
    }

    /// Enters a member of an object literal for a step, and leaves a frame.
    pub fn enter_member(
        &mut self,
        frame: Frame,
        node: NodeId,
        object: Loc,
        scope: Scope,
    ) -> Result<Next, StepFault>
        ensures few { (nodes : List kind.Node) → IfOk result (λ next. Does nodes 2 (Enter (Member node object scope) (λ o. rest nodes frame o)) self.old self.new next) }
        ensures many { (nodes : List kind.Node) → IfOk result (λ next. Does nodes 6 (Enter (Member node object scope) (λ o. rest nodes frame o)) self.old self.new next) }
        ensures closed { (nodes : List kind.Node) → IsClosed nodes self.old → FrameFits nodes self.old.heap.cells frame → IsNoEnv nat_eq self.old.heap.cells object → ScopeFits nodes self.old.heap.cells scope
            → Lasts nodes self.old self.new result }
    {
        self.go(Some(frame), Control::Member(node, object, scope))
    }

    /// Enters a call of a built-in function for a step, over a frame where there is one.
    pub fn enter_native(
        &mut self,
        frame: Option<Frame>,
        id: u16,
        receiver: Value,
        arguments: Items<Value>,
    ) -> Result<Next, StepFault>
        ensures few { (nodes : List kind.Node) → IfOk result (λ next. Does nodes 2 (Enter (Native id receiver arguments) (λ o. under_frame nodes frame o)) self.old self.new next) }
        ensures some { (nodes : List kind.Node) → IfOk result (λ next. Does nodes 4 (Enter (Native id receiver arguments) (λ o. under_frame nodes frame o)) self.old self.new next) }
        ensures many { (nodes : List kind.Node) → IfOk result (λ next. Does nodes 6 (Enter (Native id receiver arguments) (λ o. under_frame nodes frame o)) self.old self.new next) }
        ensures closed { (nodes : List kind.Node) → IsClosed nodes self.old → OptionOver (FrameFits nodes self.old.heap.cells) frame → ValueFits self.old.heap.cells receiver → ListOver (ValueFits self.old.heap.cells) arguments
            → Lasts nodes self.old self.new result }
    {
        self.go(frame, Control::Native(id, receiver, arguments))
    }

    /// Enters the script for a step, and leaves its frame.
    pub fn enter_script(&mut self, root: NodeId) -> Result<Next, StepFault>
        ensures does { (nodes : List kind.Node) → IfOk result (λ next. Does nodes 2 (Enter (Script root) (λ o. rest nodes Frame.Script o)) self.old self.new next) }
        ensures closed { (nodes : List kind.Node) → IsClosed nodes self.old → Lasts nodes self.old self.new result }
    {
        self.go(Some(Frame::Script), Control::Script(root))
    }

    /// Takes the step of a node whose parts are evaluated by the row around it, or stops.
    #[inline(always)]
    pub fn step_down(&mut self) -> bool
        ensures { StepsDown self.old self.new result }
    {
        if self.steps == 0 {
            self.control = Control::Stop;
            return false;
        }
        self.steps -= 1;
        true
    }
}
