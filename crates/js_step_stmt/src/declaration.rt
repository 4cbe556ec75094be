//! The rows of `let` and `const` (ECMA-262, 14.3.1).
ghost use Rattle.std.specs.Prelude.{drop, slice_get, IfOk, List};
ghost use Rattle.js_names.specs.Patterns.{nodes_of};
ghost use Rattle.js_tree.specs.declared.node.Node as kind;
ghost use Rattle.js_semantics.specs.Access.{bind_value};
ghost use Rattle.js_semantics.specs.Statements.{declare_pairs};
ghost use Rattle.js_machine.specs.Does.{Does};
ghost use Rattle.js_machine.specs.Parts.{declarators_of};
ghost use Rattle.js_machine.specs.Frames.{statement_rest};
ghost use Rattle.js_machine.specs.Closed.{IsClosed, Lasts, ScopeFits, ValueFits};

use crate::lists::declarators_of;
use crate::simple::statement;
use js_machine::{Next, State, StatementFrame, copy_scope, done, next_of};
use js_semantics::{Scope, StepFault};
use js_tree::{NodeId, Tree};
use world_heap::Value;

/// The bindings of a declaration from a place on: each gets its value, undefined where none is written.
pub fn declare_pairs(
    state: &mut State,
    tree: &Tree,
    node: NodeId,
    at: usize,
    scope: Scope,
) -> Result<Next, StepFault>
    ensures does { IfOk result (λ next. Does (nodes_of tree.now) 6 (declare_pairs (drop at (declarators_of (slice_get (nodes_of tree.now) node.0))) scope) state.old state.new next) }
    ensures closed { IsClosed (nodes_of tree.now) state.old → ScopeFits (nodes_of tree.now) state.old.heap.cells scope → Lasts (nodes_of tree.now) state.old state.new result }
{
    match next_of(declarators_of(tree, node), at) {
        Some((pair, next)) => match pair.value {
            Some(value) => {
                let inner = copy_scope(state.alloc, &scope)?;
                let frame = StatementFrame::DeclaredValue { node, at, scope };
                state.enter(statement(frame), value, inner)
            }
            None => bind_pair(state, pair.bind, node, next, scope, Value::Undefined),
        },
        None => done(state),
    }
}

// Binds the value of a declarator, and leaves those from the next on.
fn bind_pair(
    state: &mut State,
    bind: NodeId,
    node: NodeId,
    next: usize,
    scope: Scope,
    value: Value,
) -> Result<Next, StepFault>
    ensures does { (nodes : List kind.Node) → IfOk result (λ next_step. Does nodes 6 (bind_value bind value scope (declare_pairs (drop next (declarators_of (slice_get nodes node.0))) scope)) state.old state.new next_step) }
    ensures closed { (nodes : List kind.Node) → IsClosed nodes state.old → ScopeFits nodes state.old.heap.cells scope → ValueFits state.old.heap.cells value → Lasts nodes state.old state.new result }
{
    let inner = copy_scope(state.alloc, &scope)?;
    let frame = StatementFrame::Declared { node, next, scope };
    state.bind(statement(frame), bind, value, inner)
}

/// Binds the value that was evaluated for a declarator.
pub fn declared_value(
    state: &mut State,
    tree: &Tree,
    node: NodeId,
    at: usize,
    scope: Scope,
    value: Value,
) -> Result<Next, StepFault>
    ensures does { IfOk result (λ next. Does (nodes_of tree.now) 6 (statement_rest (nodes_of tree.now) (StatementFrame.DeclaredValue node at scope) value) state.old state.new next) }
    ensures closed { IsClosed (nodes_of tree.now) state.old → ScopeFits (nodes_of tree.now) state.old.heap.cells scope → ValueFits state.old.heap.cells value → Lasts (nodes_of tree.now) state.old state.new result }
{
    match next_of(declarators_of(tree, node), at) {
        Some((pair, next)) => bind_pair(state, pair.bind, node, next, scope, value),
        None => done(state),
    }
}
