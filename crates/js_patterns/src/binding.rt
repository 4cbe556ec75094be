//! The row of a pattern, by its kind, and the rests of its frames.
ghost use Rattle.std.specs.Prelude.{◌≡◌, slice_get, Some, IfOk};
ghost use Rattle.js_names.specs.Patterns.{nodes_of};
ghost use Rattle.js_semantics.specs.Prog.{Bind};
ghost use Rattle.js_semantics.specs.Rows.{row};
ghost use Rattle.js_semantics.specs.Statements.{pattern_of};
ghost use Rattle.js_machine.specs.declared.frame.Frame.TheVariants.{OnValue};
ghost use Rattle.js_machine.specs.declared.frame.ValueFrame.TheVariants.{Pattern};
ghost use Rattle.js_machine.specs.Closed.{FrameFits, IsClosed, Lasts, ScopeFits, ValueFits};
ghost use Rattle.js_machine.specs.Does.{Does};
ghost use Rattle.js_machine.specs.Frames.{pattern_rest};

use crate::properties::{bind_object, bind_properties, property_defaulted};
use js_machine::{Next, PatternFrame, State, discard, done, node_at};
use js_semantics::{Scope, StepFault};
use js_step_stmt::{bind_array, bind_elements, bind_name, element_defaulted};
use js_tree::{Node, NodeId, Tree};
use world_heap::Value;

// The row of a pattern that stands in the tree.
#[tactic(auto, unfolding(js_semantics::specs::Statements::pattern_of))]
fn bind_kind(
    state: &mut State,
    tree: &Tree,
    node: NodeId,
    here: &Node,
    value: Value,
    scope: Scope,
) -> Result<Next, StepFault>
    ensures does { slice_get (nodes_of tree.now) node.0 ≡ Some here.now
        → IfOk result (λ next. Does (nodes_of tree.now) 6 (pattern_of (Some here.now) value scope) state.old state.new next) }
    ensures closed { IsClosed (nodes_of tree.now) state.old → ValueFits state.old.heap.cells value → ScopeFits (nodes_of tree.now) state.old.heap.cells scope → Lasts (nodes_of tree.now) state.old state.new result }
{
    match here {
        Node::BindName(name) => bind_name(state, name, value, scope),
        Node::BindObject(_) => bind_object(state, tree, node, value, scope),
        Node::BindArray(_) => bind_array(state, tree, node, value, scope),
        _ => {
            discard(value);
            discard(scope);
            done(state)
        }
    }
}

/// The row of a pattern (ECMA-262, 8.6.2: BindingInitialization), with the value that is bound: a name gets it, an array
/// pattern is bound to its elements, an object pattern to its properties. What can't be walked by an array pattern is the
/// error `NotIterable`, and undefined and null are the error `NotAnObject` for an object pattern. The cost is that of
/// `fill_name`, or of reading the first property of the pattern.
#[tactic(auto, unfolding(js_semantics::specs::Statements::pattern_of))]
pub fn bind_pattern(
    state: &mut State,
    tree: &Tree,
    node: NodeId,
    value: Value,
    scope: Scope,
) -> Result<Next, StepFault>
    ensures pattern { IfOk result (λ next. Does (nodes_of tree.now) 6 (pattern_of (slice_get (nodes_of tree.now) node.0) value scope) state.old state.new next) }
    ensures row { IfOk result (λ next. Does (nodes_of tree.now) 6 (row (Bind node value scope)) state.old state.new next) }
    ensures closed { IsClosed (nodes_of tree.now) state.old → ValueFits state.old.heap.cells value → ScopeFits (nodes_of tree.now) state.old.heap.cells scope → Lasts (nodes_of tree.now) state.old state.new result }
{
    match node_at(tree, node) {
        Some(here) => bind_kind(state, tree, node, here, value, scope),
        None => {
            discard(value);
            discard(scope);
            done(state)
        }
    }
}

/// What is left of a pattern, with the value of the default that was evaluated, or once a part was bound.
pub fn pattern_frame(
    state: &mut State,
    tree: &Tree,
    frame: PatternFrame,
    value: Value,
) -> Result<Next, StepFault>
    ensures does { IfOk result (λ next. Does (nodes_of tree.now) 6 (pattern_rest (nodes_of tree.now) frame value) state.old state.new next) }
    ensures closed { IsClosed (nodes_of tree.now) state.old → FrameFits (nodes_of tree.now) state.old.heap.cells (OnValue (Pattern frame)) → ValueFits state.old.heap.cells value → Lasts (nodes_of tree.now) state.old state.new result }
{
    match frame {
        PatternFrame::PropertyDefault {
            node,
            at,
            of,
            scope,
        } => property_defaulted(state, tree, node, at, of, scope, value),
        PatternFrame::PropertyBound {
            node,
            next,
            of,
            scope,
        } => bind_properties(state, tree, node, next, of, scope),
        PatternFrame::ElementDefault {
            node,
            at,
            array,
            scope,
        } => element_defaulted(state, tree, node, at, array, scope, value),
        PatternFrame::ElementBound {
            node,
            next,
            array,
            scope,
        } => bind_elements(state, tree, node, next, array, scope),
    }
}
