//! Evaluating a node in place.
ghost use Rattle.std.specs.Prelude.{◌≡◌, ℕ, List, Some, IfOk, MatchResult, slice_get};
ghost use Rattle.js_tree.specs.declared.node.Node as kind;
ghost use Rattle.world_heap.specs.declared.value.Value as values;
ghost use Rattle.world_heap.specs.Over.{OptionOver};
ghost use Rattle.js_semantics.specs.Prog.{Prog};
ghost use Rattle.js_semantics.specs.Expressions.{apply};
ghost use Rattle.js_names.specs.Patterns.{nodes_of};
ghost use Rattle.js_machine.specs.Closed.{GoesOn, IsClosed, ScopeFits, ValueFits};
ghost use Rattle.js_machine.specs.Does.{world_of};
ghost use Rattle.js_step_expr.specs.Fitting.{LastsWith};
ghost use Rattle.js_primary.specs.AtHand.{at_hand, name_at_hand};
ghost use Rattle.js_primary.specs.Giving.{Comes, IsTaken, StepsTo, TakenFits, Takes, TakesAtHand, TakesBound, TakesGiven};

use crate::at_hand::{name_at_hand, value_at_hand};
use crate::composed::{composed, operands};
use js_machine::{Next, State, discard, node_at, stopped};
use js_semantics::{Scope, StepFault};
use js_step_expr::apply;
use js_tree::{BinaryOperator, Node, NodeId, Tree};
use world_heap::{Loc, Value};
use world_log::Stop;

/// How deep operators and properties are nested at most that are evaluated in place.
const DEEPEST: usize = 4;

/// What evaluating a node in place comes to.
#[derive(Drop)]
pub enum Taken<L = Loc> {
    /// The node's steps are taken, and this is its value.
    Value(Value<L>),
    /// No step was left: the world has stopped.
    Ended(Next),
    /// The node isn't evaluated in place: nothing was done.
    Nothing,
}

// Takes the step of a node whose value is known, or ends the world's run where no step is left.
#[inline(always)]
fn step_to(state: &mut State, value: Value) -> Taken
    ensures does { StepsTo value state.old state.new result }
    ensures closed { (nodes : List kind.Node) → IsClosed nodes state.old → ValueFits state.old.heap.cells value → GoesOn nodes state.old state.new × TakenFits state.new.heap.cells result }
{
    if state.step_down() {
        Taken::Value(value)
    } else {
        discard(value);
        Taken::Ended(stopped(Stop::Fuel))
    }
}

// What a sum comes to, or a text that is joined: it may end the step.
fn settle_sum(state: &mut State, left: &Value, right: &Value) -> Result<Taken, StepFault>
    ensures taken { IfOk result (λ taken. IsTaken taken) }
    ensures does { (nodes : List kind.Node) → IfOk result (λ taken. (k : values.Value ℕ → Prog ℕ) → Comes nodes (apply BinaryOperator.Add left.now right.now k) k state.old state.new taken) }
    ensures closed { (nodes : List kind.Node) → IsClosed nodes state.old → ValueFits state.old.heap.cells left.now → ValueFits state.old.heap.cells right.now → LastsWith TakenFits nodes state.old state.new result }
{
    match apply(state, BinaryOperator::Add, left, right)? {
        Ok(value) => Ok(Taken::Value(value)),
        Err(next) => Ok(Taken::Ended(next)),
    }
}

// Evaluates `left + right` in place, where both are.
fn take_sum(
    state: &mut State,
    tree: &Tree,
    node: NodeId,
    left: NodeId,
    right: NodeId,
    scope: &Scope,
) -> Result<Taken, StepFault>
    requires { slice_get (nodes_of tree.now) node.0 ≡ Some (Node.Binary BinaryOperator.Add left right) }
    ensures does { IfOk result (λ taken. Takes (nodes_of tree.now) node scope.now state.old state.new taken) }
    ensures closed { IsClosed (nodes_of tree.now) state.old → ScopeFits (nodes_of tree.now) state.old.heap.cells scope.now → LastsWith TakenFits (nodes_of tree.now) state.old state.new result }
{
    if state.steps == 0 {
        return Ok(Taken::Nothing);
    }
    let before = state.steps;
    state.steps = before - 1;
    match operands(state, tree, left, right, scope, DEEPEST - 1)? {
        Some((first, second)) => settle_sum(state, &first, &second),
        None => {
            state.steps = before;
            Ok(Taken::Nothing)
        }
    }
}

// Evaluates an operator or a property in place, where nothing of the script runs for it.
fn take_plain(
    state: &mut State,
    tree: &Tree,
    here: &Node,
    node: NodeId,
    scope: &Scope,
) -> Result<Taken, StepFault>
    requires { slice_get (nodes_of tree.now) node.0 ≡ Some here.now }
    ensures does { IfOk result (λ taken. Takes (nodes_of tree.now) node scope.now state.old state.new taken) }
    ensures closed { IsClosed (nodes_of tree.now) state.old → ScopeFits (nodes_of tree.now) state.old.heap.cells scope.now → LastsWith TakenFits (nodes_of tree.now) state.old state.new result }
{
    match composed(state, tree, here, node, scope, DEEPEST)? {
        Some(value) => Ok(Taken::Value(value)),
        None => Ok(Taken::Nothing),
    }
}

// Evaluates a node in place that is composed of others, where it is a property or an operator between two operands.
fn take_composed(
    state: &mut State,
    tree: &Tree,
    here: &Node,
    node: NodeId,
    scope: &Scope,
) -> Result<Taken, StepFault>
    requires { slice_get (nodes_of tree.now) node.0 ≡ Some here.now }
    ensures does { IfOk result (λ taken. Takes (nodes_of tree.now) node scope.now state.old state.new taken) }
    ensures closed { IsClosed (nodes_of tree.now) state.old → ScopeFits (nodes_of tree.now) state.old.heap.cells scope.now → LastsWith TakenFits (nodes_of tree.now) state.old state.new result }
{
    match here {
        Node::Binary {
            operator: BinaryOperator::Add,
            left,
            right,
        } => take_sum(state, tree, node, *left, *right, scope),
        Node::Binary { .. } | Node::Dot { .. } | Node::Index { .. } => {
            take_plain(state, tree, here, node, scope)
        }
        _ => Ok(Taken::Nothing),
    }
}

/// Evaluates a node in place. Where its value is at hand, which it is of literals, `this`, and names whose innermost
/// binding is ready, its step is taken and the value given, or the world's run ends where no step is left. An operator on
/// numbers, `===`, `!==`, `+` or a property whose operands are at hand, or are such themselves to a depth of four, is
/// evaluated with all its steps, where no getter is called and steps enough are left; texts are joined, and errors thrown,
/// by the outermost `+` alone. For any other node nothing is done.
///
/// The cost for a name is linear in the environments around it and their bindings, and in the chain of the global object's
/// prototypes where none binds it; for a property it is that of reading it; a string is shared, not copied.
///
/// # Errors
/// `Memory` where there is none; `Dangling` where the global object stands nowhere, which is never in a closed state.
pub fn take_value(
    state: &mut State,
    tree: &Tree,
    node: NodeId,
    scope: &Scope,
) -> Result<Taken, StepFault>
    ensures is { (supply : ℕ → ℕ) → IfOk result (λ taken. TakesAtHand (at_hand (slice_get (nodes_of tree.now) node.0) scope.now (world_of (nodes_of tree.now) supply state.old)) state.old state.new taken) }
    ensures does { IfOk result (λ taken. Takes (nodes_of tree.now) node scope.now state.old state.new taken) }
    ensures closed { IsClosed (nodes_of tree.now) state.old → ScopeFits (nodes_of tree.now) state.old.heap.cells scope.now → LastsWith TakenFits (nodes_of tree.now) state.old state.new result }
{
    match node_at(tree, node) {
        Some(here) => match value_at_hand(state, here, scope)? {
            Some(value) => Ok(step_to(state, value)),
            None => take_composed(state, tree, here, node, scope),
        },
        None => Ok(Taken::Nothing),
    }
}

// The value of the name with a number, where it has a binding that is ready.
#[tactic(auto, unfolding(crate::specs::AtHand::name_at_hand))]
#[inline(always)]
fn name_found(
    state: &State,
    tree: &Tree,
    node: NodeId,
    env: Loc,
) -> Result<Option<Value>, StepFault>
    ensures is { (supply : ℕ → ℕ) → IfOk result (λ found. found ≡ name_at_hand (slice_get (nodes_of tree.now) node.0) env (world_of (nodes_of tree.now) supply state.now)) }
    ensures closed { IsClosed (nodes_of tree.now) state.now → MatchResult result (λ found. OptionOver (ValueFits state.now.heap.cells) found) (λ fault. fault ≡ StepFault.Memory) }
{
    match node_at(tree, node) {
        Some(here) => name_at_hand(state, here, env),
        None => Ok(None),
    }
}

/// Reads a name that is the target of an assignment, where its innermost binding from an environment on is ready: takes the
/// step of its node, and gives the value, or ends the world's run where no step is left. For any other node nothing is
/// done. The cost is that of `take_value`.
///
/// # Errors
/// Those of `take_value`.
#[inline(always)]
pub fn take_bound(
    state: &mut State,
    tree: &Tree,
    node: NodeId,
    env: Loc,
) -> Result<Taken, StepFault>
    ensures is { (supply : ℕ → ℕ) → IfOk result (λ taken. TakesGiven (name_at_hand (slice_get (nodes_of tree.now) node.0) env (world_of (nodes_of tree.now) supply state.old)) state.old state.new taken) }
    ensures does { IfOk result (λ taken. TakesBound (nodes_of tree.now) node env state.old state.new taken) }
    ensures closed { IsClosed (nodes_of tree.now) state.old → LastsWith TakenFits (nodes_of tree.now) state.old state.new result }
{
    match name_found(state, tree, node, env)? {
        Some(value) => Ok(step_to(state, value)),
        None => Ok(Taken::Nothing),
    }
}
