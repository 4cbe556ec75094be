//! How a row throws an error of the language.
ghost use Rattle.std.specs.Prelude.{◌≡◌, ℕ, List, IfOk, MatchResult};
ghost use Rattle.js_tree.specs.declared.node.Node as kind;
ghost use Rattle.js_semantics.specs.Faults.{message_of};
ghost use Rattle.js_semantics.specs.Prog.{throw};
ghost use Rattle.js_machine.specs.Does.{Does};
ghost use Rattle.js_machine.specs.Closed.{IsClosed, Lasts};

use crate::basic::stopped;
use crate::state::{Next, State};
use js_operators::short_text;
use js_semantics::{Fault, Outcome, StepFault};
use std::alloc::Global;
use wl_text::Units;
use world_heap::Value;

// The message of an error.
fn message(alloc: Global, fault: Fault) -> Result<Units, StepFault>
    ensures { MatchResult result (λ text. text ≡ message_of fault) (λ fault. fault ≡ StepFault.Memory) }
{
    match short_text(alloc, fault.message()) {
        Ok(text) => Ok(text),
        Err(_) => Err(StepFault::Memory),
    }
}

impl State {
    /// Throws an error of the language (ECMA-262, 10.2.4.1 and 20.5): a new error with its message.
    pub fn throw(&mut self, fault: Fault) -> Result<Next, StepFault>
        ensures few { (nodes : List kind.Node) → IfOk result (λ next. Does nodes 2 (throw fault) self.old self.new next) }
        ensures some { (nodes : List kind.Node) → IfOk result (λ next. Does nodes 4 (throw fault) self.old self.new next) }
        ensures many { (nodes : List kind.Node) → IfOk result (λ next. Does nodes 6 (throw fault) self.old self.new next) }
        ensures closed { (nodes : List kind.Node) → IsClosed nodes self.old → Lasts nodes self.old self.new result }
    {
        let message = message(self.alloc, fault)?;
        match self.make_error(fault.kind(), Some(message))? {
            Ok(loc) => self.give(Outcome::Thrown(Value::Ref(loc))),
            Err(stop) => Ok(stopped(stop)),
        }
    }
}
