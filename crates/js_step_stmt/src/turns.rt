//! The environments of a `for` (ECMA-262, 14.7.4): those of its turns, and the one of its declaration.
ghost use Rattle.std.specs.Prelude.{◌≡◌, ◌∷◌, [], List, IfOk, MatchResult, Some, false, not, nat_eq, length, slice_get};
ghost use Rattle.js_tree.specs.declared.node.Node as kind;
ghost use Rattle.js_names.specs.Patterns.{nodes_of};
ghost use Rattle.js_semantics.specs.Environments.{declared_in, env_cell};
ghost use Rattle.js_semantics.specs.Prog.{End, Enter, For, Node as NodeRequest, alloc, on_value};
ghost use Rattle.js_semantics.specs.Statements.{copy_scope, for_from, for_start, inside, row_for, run_next};
ghost use Rattle.js_machine.specs.Does.{Does};
ghost use Rattle.js_machine.specs.Frames.{rest};
ghost use Rattle.js_machine.specs.Closed.{IsClosed, Lasts, OutcomeFits, ScopeFits};
ghost use Rattle.world_heap.specs.Over.{OptionOver};
ghost use Rattle.world_heap.specs.Heaps.{IsCell};
ghost use Rattle.js_step_stmt.specs.Fitting.{BindingsFit};

use crate::environments::{environment_at, inside};
use crate::loops::step_then;
use crate::simple::statement;
use js_machine::{ForLoop, Frame, Next, State, StatementFrame, copy_scope, done, node_at, stopped};
use js_names::declared_in;
use js_semantics::{Outcome, Scope, StepFault};
use js_tree::{Node, NodeId, Tree};
use sqlite_items::Items;
use world_heap::{Binding, Loc};

// Goes on in a new environment.
#[inline(always)]
fn in_copy(
    state: &mut State,
    turn: ForLoop,
    then: Option<NodeId>,
    outer: Option<Loc>,
    bindings: Items<Binding>,
    scope: Scope,
) -> Result<Next, StepFault>
    ensures does { (nodes : List kind.Node) → IfOk result (λ next. Does nodes 6 (alloc (env_cell outer bindings) (λ env. run_next then (inside env scope) (Enter (For turn.copied turn.test turn.next turn.body (inside env scope)) (λ o. End o)))) state.old state.new next) }
    ensures closed { (nodes : List kind.Node) → IsClosed nodes state.old → OptionOver (IsCell nat_eq state.old.heap.cells) outer → BindingsFit state.old.heap.cells bindings → ScopeFits nodes state.old.heap.cells scope → Lasts nodes state.old state.new result }
{
    match state.make_environment(outer, bindings)? {
        Ok(env) => step_then(state, turn, then, inside(env, scope)),
        Err(stop) => Ok(stopped(stop)),
    }
}

// Copies the environment where the loop has one for each turn, and goes on there.
#[inline(always)]
fn copied_turn(
    state: &mut State,
    turn: ForLoop,
    then: Option<NodeId>,
    scope: Scope,
) -> Result<Next, StepFault>
    ensures does { (nodes : List kind.Node) → IfOk result (λ next. Does nodes 6 (copy_scope turn.copied scope (λ env. run_next then env (Enter (For turn.copied turn.test turn.next turn.body env) (λ o. End o)))) state.old state.new next) }
    ensures closed { (nodes : List kind.Node) → IsClosed nodes state.old → ScopeFits nodes state.old.heap.cells scope → Lasts nodes state.old state.new result }
{
    if turn.copied {
        match environment_at(state.alloc, &state.heap, scope.env)? {
            Some(found) => in_copy(state, turn, then, found.0, found.1, scope),
            None => step_then(state, turn, then, scope),
        }
    } else {
        step_then(state, turn, then, scope)
    }
}

/// The first turn of a `for`.
pub fn for_start(state: &mut State, turn: ForLoop, scope: Scope) -> Result<Next, StepFault>
    ensures does { (nodes : List kind.Node) → IfOk result (λ next. Does nodes 6 (for_start turn.copied turn.test turn.next turn.body scope) state.old state.new next) }
    ensures closed { (nodes : List kind.Node) → IsClosed nodes state.old → ScopeFits nodes state.old.heap.cells scope → Lasts nodes state.old state.new result }
{
    copied_turn(state, turn, None, scope)
}

/// What follows the body of a `for`: the copy, what stands third, and the next turn.
pub fn for_body_end(
    state: &mut State,
    turn: ForLoop,
    scope: Scope,
    outcome: Outcome,
) -> Result<Next, StepFault>
    ensures does { (nodes : List kind.Node) → IfOk result (λ next. Does nodes 6 (rest nodes (Frame.ForBody turn scope) outcome) state.old state.new next) }
    ensures closed { (nodes : List kind.Node) → IsClosed nodes state.old → ScopeFits nodes state.old.heap.cells scope → OutcomeFits nodes state.old.heap.cells outcome → Lasts nodes state.old state.new result }
{
    match outcome {
        Outcome::Normal(_) => copied_turn(state, turn, turn.next, scope),
        Outcome::Continue => copied_turn(state, turn, turn.next, scope),
        Outcome::Break => done(state),
        Outcome::Return(value) => state.give(Outcome::Return(value)),
        Outcome::Thrown(value) => state.give(Outcome::Thrown(value)),
    }
}

// What stands first in a `for`, and then the turns.
fn first_of(
    state: &mut State,
    first: NodeId,
    turn: ForLoop,
    scope: Scope,
) -> Result<Next, StepFault>
    ensures does { (nodes : List kind.Node) → IfOk result (λ next. Does nodes 6 (Enter (NodeRequest first scope) (λ o. on_value (λ v. for_start turn.copied turn.test turn.next turn.body scope) o)) state.old state.new next) }
    ensures closed { (nodes : List kind.Node) → IsClosed nodes state.old → ScopeFits nodes state.old.heap.cells scope → Lasts nodes state.old state.new result }
{
    let inner = copy_scope(state.alloc, &scope)?;
    state.enter(
        statement(StatementFrame::ForFirst { turn, scope }),
        first,
        inner,
    )
}

// A declaration that stands first, in an environment with its names.
fn declared_first(
    state: &mut State,
    first: NodeId,
    bindings: Items<Binding>,
    turn: ForLoop,
    scope: Scope,
) -> Result<Next, StepFault>
    ensures does { (nodes : List kind.Node) → IfOk result (λ next. Does nodes 6 (alloc (env_cell (Some scope.env) bindings) (λ env. Enter (NodeRequest first (inside env scope)) (λ o. on_value (λ v. for_start turn.copied turn.test turn.next turn.body (inside env scope)) o))) state.old state.new next) }
    ensures closed { (nodes : List kind.Node) → IsClosed nodes state.old → BindingsFit state.old.heap.cells bindings → ScopeFits nodes state.old.heap.cells scope → Lasts nodes state.old state.new result }
{
    match state.make_environment(Some(scope.env), bindings)? {
        Ok(env) => first_of(state, first, turn, inside(env, scope)),
        Err(stop) => Ok(stopped(stop)),
    }
}

// The bindings of a declaration's names, none of them ready.
fn bindings_of(state: &State, tree: &Tree, first: NodeId) -> Result<Items<Binding>, StepFault>
    ensures { MatchResult result (λ bindings. bindings ≡ declared_in (nodes_of tree.now) (first ∷ [])) (λ fault. fault ≡ StepFault.Memory) }
{
    Ok(declared_in(state.alloc, tree, &[first])?)
}

// Whether there is a binding.
fn declares(bindings: &Items<Binding>) -> bool
    ensures { result ≡ not (nat_eq (length bindings.now) 0) }
{
    bindings.len() != 0
}

// What stands first in a `for`, by its node: only a declaration has an environment, and only that of `let` is copied for
// each turn.
fn for_node(
    state: &mut State,
    tree: &Tree,
    node: &Node,
    first: NodeId,
    turn: ForLoop,
    scope: Scope,
) -> Result<Next, StepFault>
    requires node { slice_get (nodes_of tree.now) first.0 ≡ Some node.now }
    requires turn { turn.copied ≡ false }
    ensures does { IfOk result (λ next. Does (nodes_of tree.now) 6 (for_from (nodes_of tree.now) (Some node.now) first turn.test turn.next turn.body scope) state.old state.new next) }
    ensures closed { IsClosed (nodes_of tree.now) state.old → ScopeFits (nodes_of tree.now) state.old.heap.cells scope → Lasts (nodes_of tree.now) state.old state.new result }
{
    match node {
        Node::Let(_) => {
            let bindings = bindings_of(state, tree, first)?;
            let copied = declares(&bindings);
            declared_first(state, first, bindings, ForLoop { copied, ..turn }, scope)
        }
        Node::Const(_) => {
            let bindings = bindings_of(state, tree, first)?;
            declared_first(state, first, bindings, turn, scope)
        }
        _ => first_of(state, first, turn, scope),
    }
}

// A `for` whose turns are these, from what stands first on.
fn for_from(
    state: &mut State,
    tree: &Tree,
    first: NodeId,
    turn: ForLoop,
    scope: Scope,
) -> Result<Next, StepFault>
    requires { turn.copied ≡ false }
    ensures does { IfOk result (λ next. Does (nodes_of tree.now) 6 (for_from (nodes_of tree.now) (slice_get (nodes_of tree.now) first.0) first turn.test turn.next turn.body scope) state.old state.new next) }
    ensures closed { IsClosed (nodes_of tree.now) state.old → ScopeFits (nodes_of tree.now) state.old.heap.cells scope → Lasts (nodes_of tree.now) state.old state.new result }
{
    match node_at(tree, first) {
        Some(node) => for_node(state, tree, node, first, turn, scope),
        None => first_of(state, first, turn, scope),
    }
}

/// A `for` (ECMA-262, 14.7.4). What stands first in it is done once, in an environment with the names that it declares.
#[tactic(auto, unfolding(js_semantics::specs::Statements::row_for))]
pub fn row_for(
    state: &mut State,
    tree: &Tree,
    first: Option<NodeId>,
    test: Option<NodeId>,
    next: Option<NodeId>,
    body: NodeId,
    scope: Scope,
) -> Result<Next, StepFault>
    ensures does { IfOk result (λ made. Does (nodes_of tree.now) 6 (row_for first test next body scope) state.old state.new made) }
    ensures closed { IsClosed (nodes_of tree.now) state.old → ScopeFits (nodes_of tree.now) state.old.heap.cells scope → Lasts (nodes_of tree.now) state.old state.new result }
{
    let turn = ForLoop {
        copied: false,
        test,
        next,
        body,
    };
    match first {
        Some(first) => for_from(state, tree, first, turn, scope),
        None => for_start(state, turn, scope),
    }
}
