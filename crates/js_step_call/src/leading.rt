//! The arguments of a call that are evaluated in place (ECMA-262, 13.3.8.1).
ghost use Rattle.std.specs.Prelude.{◌≡◌, IfOk, slice_get};
ghost use Rattle.js_names.specs.Patterns.{nodes_of};
ghost use Rattle.js_machine.specs.Closed.{IsClosed, ScopeFits};
ghost use Rattle.js_step_expr.specs.Fitting.{LastsWith};
ghost use Rattle.js_step_call.specs.Leading.{LeadingFits, Leads, spreads};

use js_machine::{Next, State, discard, items_of, next_of, node_at};
use js_primary::{Taken, take_value};
use js_semantics::{Scope, StepFault};
use js_tree::{Node, NodeId, Tree};
use sqlite_items::Items;
use world_heap::{Loc, Value};

/// What evaluating arguments in place comes to.
#[derive(Drop)]
pub(crate) enum Leading<L = Loc> {
    /// The arguments before the next place have these values.
    Values {
        next: usize,
        before: Items<Value<L>>,
    },
    /// No step was left for one: the world has stopped.
    Ended(Next),
}

// Whether a node is a spread, which is any number of arguments.
#[tactic(auto, unfolding(crate::specs::Leading::spreads))]
fn is_spread(tree: &Tree, node: NodeId) -> bool
    ensures { result ≡ spreads (slice_get (nodes_of tree.now) node.0) }
{
    match node_at(tree, node) {
        Some(node) => matches!(node, Node::Spread(_)),
        None => false,
    }
}

/// Evaluates the arguments of a call or `new` in place, from the first on up to one that isn't evaluated in place, as no
/// spread is. The cost is linear in them, and for each that of `take_value`.
///
/// # Errors
/// Those of `take_value`.
pub(crate) fn leading_arguments(
    state: &mut State,
    tree: &Tree,
    node: NodeId,
    scope: &Scope,
) -> Result<Leading, StepFault>
    ensures does { IfOk result (λ leading. Leads (nodes_of tree.now) node scope.now state.old state.new leading) }
    ensures closed { IsClosed (nodes_of tree.now) state.old → ScopeFits (nodes_of tree.now) state.old.heap.cells scope.now → LastsWith LeadingFits (nodes_of tree.now) state.old state.new result }
{
    let list = items_of(tree, node);
    let mut at = 0;
    let mut before = Items::new(state.alloc);
    'leading: while let Some((argument, next)) = next_of(list, at) {
        if is_spread(tree, argument) {
            return Ok(Leading::Values { next: at, before });
        }
        match take_value(state, tree, argument, scope)? {
            Taken::Value(value) => before.push(value)?,
            Taken::Ended(ended) => return Ok(Leading::Ended(ended)),
            Taken::Nothing => return Ok(Leading::Values { next: at, before }),
        }
        at = next;
    }
    Ok(Leading::Values { next: at, before })
}
