//! What a delivery comes to, up to the next wait.
ghost use Rattle.std.specs.Prelude.{◌≡◌, ◌++◌, true, IfErr, IfOk, OnOk};
ghost use Rattle.js_names.specs.Patterns.{nodes_of};
ghost use Rattle.js_machine.specs.Closed.{IsClosed, Lasts};
ghost use Rattle.js_machine.specs.Does.{does_await, made};
ghost use Rattle.js_step.specs.Resuming.{BeginsWith, MakesNext, ResumesBehind};

use crate::stepping::step;
use js_machine::{Next, State};
use js_semantics::StepFault;
use js_tree::Tree;
use world_log::{Delivery, Product};

// Puts what a step has made behind the products. For want of memory it is lost, and they stay.
fn put(out: &mut Vec<Product>, next: Next) -> Result<(), StepFault>
    ensures does { OnOk result (out.new.items ≡ out.old.items ++ made next) }
    ensures memory { IfErr result (λ fault. fault ≡ StepFault.Memory) }
{
    match next {
        Next::Go => Ok(()),
        Next::Made(product) => {
            out.push(product)?;
            Ok(())
        }
    }
}

/// Makes turns up to the next product, or up to where the machine waits for a delivery or has stopped (ECMA-262, 9.4).
/// Where a product is made less work is left than before. The cost is that of the turns.
///
/// # Errors
/// `Memory` where there is none; `Dangling` where a location was met that stands nowhere, which is never from a closed
/// state. The state is then that of no world any more.
pub fn advance(state: &mut State, tree: &Tree) -> Result<Option<Product>, StepFault>
    ensures does { IfOk result (λ made. MakesNext (nodes_of tree.now) state.old made state.new) }
    ensures closed { IsClosed (nodes_of tree.now) state.old → Lasts (nodes_of tree.now) state.old state.new result }
{
    'silent: while state.is_running() {
        match step(state, tree)? {
            Next::Go => {}
            Next::Made(product) => return Ok(Some(product)),
        }
    }
    Ok(None)
}

/// Takes a delivery, `fresh` where it is the first in its task, and makes turns up to the first product, or up to where
/// the machine waits for the next delivery or has stopped (ECMA-262, 16.1.6 and 9.5). The cost is that of the turns.
///
/// Condition: the delivery may come.
///
/// # Errors
/// `Memory` where there is none; `Dangling` where a location was met that stands nowhere, which is never from a closed
/// state. The state is then that of no world any more.
pub fn begin(
    state: &mut State,
    tree: &Tree,
    fresh: bool,
    delivery: Delivery,
) -> Result<Option<Product>, StepFault>
    requires { does_await state.old delivery ≡ true }
    ensures does { IfOk result (λ made. BeginsWith (nodes_of tree.now) (record { fresh = fresh; what = delivery }) state.old made state.new) }
    ensures closed { IsClosed (nodes_of tree.now) state.old → Lasts (nodes_of tree.now) state.old state.new result }
{
    match state.receive(tree, fresh, delivery)? {
        Next::Go => advance(state, tree),
        Next::Made(product) => Ok(Some(product)),
    }
}

/// Takes a delivery, `fresh` where it is the first in its task, and makes all turns up to where the world waits for the
/// next one or has stopped (ECMA-262, 16.1.6 and 9.5). What it makes is put behind the products in `out`, in its order.
/// The cost is that of the turns, of which there are at most 32 for each step and place that is left, and some more.
///
/// Condition: the delivery may come.
///
/// # Errors
/// `Memory` where there is none; `Dangling` where a location was met that stands nowhere, which is never from a closed
/// state. The state is then that of no world any more.
pub fn resume(
    state: &mut State,
    tree: &Tree,
    fresh: bool,
    delivery: Delivery,
    out: &mut Vec<Product>,
) -> Result<(), StepFault>
    requires { does_await state.old delivery ≡ true }
    ensures does { OnOk result (ResumesBehind (nodes_of tree.now) (record { fresh = fresh; what = delivery }) state.old out.old.items out.new.items state.new) }
    ensures closed { IsClosed (nodes_of tree.now) state.old → Lasts (nodes_of tree.now) state.old state.new result }
{
    let next = state.receive(tree, fresh, delivery)?;
    put(out, next)?;
    'turns: while state.is_running() {
        let next = step(state, tree)?;
        put(out, next)?;
    }
    Ok(())
}
