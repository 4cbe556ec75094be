//! What is done with a property, once its object and key are evaluated (ECMA-262, 13.3, 13.4 and 13.15).
ghost use Rattle.std.specs.Prelude.{◌≡◌, IfOk, MatchResult};
ghost use Rattle.js_semantics.specs.Access.{delete, get};
ghost use Rattle.js_machine.specs.Closed.{AfterFits, IsClosed, Lasts, ScopeFits, ValueFits};
ghost use Rattle.js_machine.specs.Does.{Does};
ghost use Rattle.js_machine.specs.Frames.{after_rest, key_text, use_rest};
ghost use Rattle.js_names.specs.Patterns.{nodes_of};
ghost use Rattle.js_step_expr.specs.Fitting.{KeyFits};

use crate::assigning::assigned;
use crate::keys::{copy_key, key_units};
use crate::removal::delete;
use js_calls::get;
use js_machine::{AfterFrame, Key, Next, Place, State, Use, discard};
use js_semantics::{Scope, StepFault};
use js_tree::{BinaryOperator, NodeId, Tree, UpdateOperator};
use std::alloc::Global;
use world_heap::Value;

// Reads a property under a key, over what follows.
fn read(
    state: &mut State,
    tree: &Tree,
    base: Value,
    key: &Key,
    frame: AfterFrame,
) -> Result<Next, StepFault>
    ensures does { IfOk result (λ next. Does (nodes_of tree.now) 6 (get base (key_text (nodes_of tree.now) key.now) (λ v. after_rest (nodes_of tree.now) frame v)) state.old state.new next) }
    ensures closed { IsClosed (nodes_of tree.now) state.old → ValueFits state.old.heap.cells base → KeyFits (nodes_of tree.now) state.old.heap.cells key.now → AfterFits (nodes_of tree.now) state.old.heap.cells frame → Lasts (nodes_of tree.now) state.old state.new result }
{
    match key_units(tree, key) {
        Some(text) => get(state, tree, base, text, frame),
        None => {
            discard(base);
            discard(frame);
            Err(StepFault::Dangling)
        }
    }
}

// The property of a value under a key, as a place that may be written.
fn place_of(alloc: Global, base: &Value, key: &Key) -> Result<Place, StepFault>
    ensures { MatchResult result (λ place. place ≡ Place.Property base.now key.now) (λ fault. fault ≡ StepFault.Memory) }
{
    let key = copy_key(alloc, key)?;
    let base = base.copy(alloc)?;
    Ok(Place::Property { base, key })
}

// Removes a property under a key.
fn remove(state: &mut State, tree: &Tree, base: &Value, key: &Key) -> Result<Next, StepFault>
    ensures does { IfOk result (λ next. Does (nodes_of tree.now) 6 (delete base.now (key_text (nodes_of tree.now) key.now)) state.old state.new next) }
    ensures closed { IsClosed (nodes_of tree.now) state.old → ValueFits state.old.heap.cells base.now → KeyFits (nodes_of tree.now) state.old.heap.cells key.now → Lasts (nodes_of tree.now) state.old state.new result }
{
    match key_units(tree, key) {
        Some(text) => delete(state, base, text),
        None => Err(StepFault::Dangling),
    }
}

// Reads a property that is updated.
fn read_for_update(
    state: &mut State,
    tree: &Tree,
    operator: UpdateOperator,
    before: bool,
    base: Value,
    key: Key,
    scope: Scope,
) -> Result<Next, StepFault>
    ensures does { IfOk result (λ next. Does (nodes_of tree.now) 6 (use_rest (nodes_of tree.now) (Use.Update operator before) base key scope) state.old state.new next) }
    ensures closed { IsClosed (nodes_of tree.now) state.old → ValueFits state.old.heap.cells base → KeyFits (nodes_of tree.now) state.old.heap.cells key → ScopeFits (nodes_of tree.now) state.old.heap.cells scope → Lasts (nodes_of tree.now) state.old state.new result }
{
    discard(scope);
    let place = place_of(state.alloc, &base, &key)?;
    let frame = AfterFrame::Update {
        operator,
        before,
        place,
    };
    read(state, tree, base, &key, frame)
}

// Reads a property that is assigned by an operator.
fn read_for_assignment(
    state: &mut State,
    tree: &Tree,
    operator: BinaryOperator,
    value: NodeId,
    base: Value,
    key: Key,
    scope: Scope,
) -> Result<Next, StepFault>
    ensures does { IfOk result (λ next. Does (nodes_of tree.now) 6 (use_rest (nodes_of tree.now) (Use.AssignBy operator value) base key scope) state.old state.new next) }
    ensures closed { IsClosed (nodes_of tree.now) state.old → ValueFits state.old.heap.cells base → KeyFits (nodes_of tree.now) state.old.heap.cells key → ScopeFits (nodes_of tree.now) state.old.heap.cells scope → Lasts (nodes_of tree.now) state.old state.new result }
{
    let place = place_of(state.alloc, &base, &key)?;
    let frame = AfterFrame::AssignBy {
        operator,
        value,
        place,
        scope,
    };
    read(state, tree, base, &key, frame)
}

// Reads a property that is called, with its object as the receiver.
fn read_for_call(
    state: &mut State,
    tree: &Tree,
    node: NodeId,
    base: Value,
    key: Key,
    scope: Scope,
) -> Result<Next, StepFault>
    ensures does { IfOk result (λ next. Does (nodes_of tree.now) 6 (use_rest (nodes_of tree.now) (Use.Call node) base key scope) state.old state.new next) }
    ensures closed { IsClosed (nodes_of tree.now) state.old → ValueFits state.old.heap.cells base → KeyFits (nodes_of tree.now) state.old.heap.cells key → ScopeFits (nodes_of tree.now) state.old.heap.cells scope → Lasts (nodes_of tree.now) state.old state.new result }
{
    let receiver = base.copy(state.alloc)?;
    let frame = AfterFrame::Callee {
        node,
        base: receiver,
        scope,
    };
    read(state, tree, base, &key, frame)
}

/// What is done with a property: it is read or removed, or first the value that is assigned is evaluated in
/// place, or entered.
pub fn use_property(
    state: &mut State,
    tree: &Tree,
    usage: Use,
    base: Value,
    key: Key,
    scope: Scope,
) -> Result<Next, StepFault>
    ensures does { IfOk result (λ next. Does (nodes_of tree.now) 6 (use_rest (nodes_of tree.now) usage base key scope) state.old state.new next) }
    ensures closed { IsClosed (nodes_of tree.now) state.old → ValueFits state.old.heap.cells base → KeyFits (nodes_of tree.now) state.old.heap.cells key → ScopeFits (nodes_of tree.now) state.old.heap.cells scope → Lasts (nodes_of tree.now) state.old state.new result }
{
    match usage {
        Use::Get => {
            discard(scope);
            read(state, tree, base, &key, AfterFrame::Give)
        }
        Use::Update { operator, before } => {
            read_for_update(state, tree, operator, before, base, key, scope)
        }
        Use::Delete => {
            discard(scope);
            remove(state, tree, &base, &key)
        }
        Use::Assign { value } => {
            let place = Place::Property { base, key };
            assigned(state, tree, place, value, scope)
        }
        Use::AssignBy { operator, value } => {
            read_for_assignment(state, tree, operator, value, base, key, scope)
        }
        Use::Call { node } => read_for_call(state, tree, node, base, key, scope),
    }
}
