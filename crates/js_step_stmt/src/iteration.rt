//! The turns of a `for` over the items of an array (ECMA-262, 14.7.5).
ghost use Rattle.std.specs.Prelude.{◌≡◌, ◌+◌, nat_eq, List, IfOk, MatchResult, Some};
ghost use Rattle.js_tree.specs.declared.node.Node as kind;
ghost use Rattle.js_names.specs.Patterns.{nodes_of};
ghost use Rattle.js_semantics.specs.Environments.{env_cell};
ghost use Rattle.js_semantics.specs.Prog.{End, Enter, ForOf, alloc};
ghost use Rattle.js_semantics.specs.Statements.{inside, of_turn, row_for_of};
ghost use Rattle.js_machine.specs.Does.{Does};
ghost use Rattle.js_machine.specs.Frames.{rest, statement_rest};
ghost use Rattle.js_machine.specs.Closed.{IsClosed, Lasts, OutcomeFits, ScopeFits, ValueFits};
ghost use Rattle.world_heap.specs.Heaps.{IsNoEnv};
ghost use Rattle.js_step_stmt.specs.Fitting.{BindingsFit};

use crate::environments::{inside, pattern_bindings};
use crate::patterns::item_at;
use crate::simple::statement;
use js_machine::{Frame, Next, State, StatementFrame, copy_scope, done, stopped};
use js_semantics::{Outcome, Scope, StepFault};
use js_tree::{NodeId, Tree};
use sqlite_items::Items;
use world_heap::{Binding, Loc, Value};

/// What stays the same in all turns of a `for` over an array: its parts, and the array.
#[derive(Debug, Drop, Clone, Copy, PartialEq, Eq)]
pub struct Walk {
    pub constant: bool,
    pub bind: NodeId,
    pub body: NodeId,
    pub array: Loc,
}

/// A `for` over a list (ECMA-262, 14.7.5), from its list on.
pub fn row_for_of(
    state: &mut State,
    constant: bool,
    bind: NodeId,
    list: NodeId,
    body: NodeId,
    scope: Scope,
) -> Result<Next, StepFault>
    ensures does { (nodes : List kind.Node) → IfOk result (λ next. Does nodes 6 (row_for_of constant bind list body scope) state.old state.new next) }
    ensures closed { (nodes : List kind.Node) → IsClosed nodes state.old → ScopeFits nodes state.old.heap.cells scope → Lasts nodes state.old state.new result }
{
    let inner = copy_scope(state.alloc, &scope)?;
    let frame = StatementFrame::ForOfList {
        constant,
        bind,
        body,
        scope,
    };
    state.enter(statement(frame), list, inner)
}

// Binds the item of a turn.
fn bind_item(
    state: &mut State,
    walk: Walk,
    place: usize,
    item: Value,
    turn: Scope,
    around: Scope,
) -> Result<Next, StepFault>
    ensures does { (nodes : List kind.Node) → IfOk result (λ next. Does nodes 6 (Enter (ForOf walk.constant walk.bind walk.body walk.array place item turn around) (λ o. End o)) state.old state.new next) }
    ensures closed { (nodes : List kind.Node) → IsClosed nodes state.old → IsNoEnv nat_eq state.old.heap.cells walk.array → ValueFits state.old.heap.cells item → ScopeFits nodes state.old.heap.cells turn → ScopeFits nodes state.old.heap.cells around → Lasts nodes state.old state.new result }
{
    let inner = copy_scope(state.alloc, &turn)?;
    let frame = StatementFrame::ForOfBound {
        constant: walk.constant,
        bind: walk.bind,
        body: walk.body,
        array: walk.array,
        place,
        turn,
        around,
    };
    state.bind(statement(frame), walk.bind, item, inner)
}

// A turn in an environment of its own.
fn turn_in(
    state: &mut State,
    bindings: Items<Binding>,
    walk: Walk,
    place: usize,
    item: Value,
    around: Scope,
) -> Result<Next, StepFault>
    ensures does { (nodes : List kind.Node) → IfOk result (λ next. Does nodes 6 (alloc (env_cell (Some around.env) bindings) (λ env. Enter (ForOf walk.constant walk.bind walk.body walk.array place item (inside env around) around) (λ o. End o))) state.old state.new next) }
    ensures closed { (nodes : List kind.Node) → IsClosed nodes state.old → BindingsFit state.old.heap.cells bindings → IsNoEnv nat_eq state.old.heap.cells walk.array → ValueFits state.old.heap.cells item → ScopeFits nodes state.old.heap.cells around → Lasts nodes state.old state.new result }
{
    let outer = copy_scope(state.alloc, &around)?;
    match state.make_environment(Some(around.env), bindings)? {
        Ok(env) => bind_item(state, walk, place, item, inside(env, around), outer),
        Err(stop) => Ok(stopped(stop)),
    }
}

/// A turn for the item at a place, where the array has it now.
pub fn of_turn(
    state: &mut State,
    tree: &Tree,
    walk: Walk,
    place: usize,
    around: Scope,
) -> Result<Next, StepFault>
    ensures does { IfOk result (λ next. Does (nodes_of tree.now) 6 (of_turn walk.constant walk.bind walk.body walk.array place around) state.old state.new next) }
    ensures closed { IsClosed (nodes_of tree.now) state.old → IsNoEnv nat_eq state.old.heap.cells walk.array → ScopeFits (nodes_of tree.now) state.old.heap.cells around → Lasts (nodes_of tree.now) state.old state.new result }
{
    match item_at(state.alloc, &state.heap, walk.array, place)? {
        Some(item) => {
            let bindings = pattern_bindings(state.alloc, tree, walk.bind, walk.constant)?;
            turn_in(state, bindings, walk, place, item, around)
        }
        None => done(state),
    }
}

/// What follows the binding of an item: the body.
pub fn of_bound(
    state: &mut State,
    walk: Walk,
    place: usize,
    turn: Scope,
    around: Scope,
    value: Value,
) -> Result<Next, StepFault>
    ensures does { (nodes : List kind.Node) → IfOk result (λ next. Does nodes 6 (statement_rest nodes (StatementFrame.ForOfBound walk.constant walk.bind walk.body walk.array place turn around) value) state.old state.new next) }
    ensures closed { (nodes : List kind.Node) → IsClosed nodes state.old → IsNoEnv nat_eq state.old.heap.cells walk.array → ScopeFits nodes state.old.heap.cells turn → ScopeFits nodes state.old.heap.cells around → ValueFits state.old.heap.cells value → Lasts nodes state.old state.new result }
{
    let _ = value;
    let frame = Frame::ForOfBody {
        constant: walk.constant,
        bind: walk.bind,
        body: walk.body,
        array: walk.array,
        place,
        around,
    };
    state.enter(frame, walk.body, turn)
}

// The place behind another. An array with as many items doesn't fit into memory.
fn behind(place: usize) -> Result<usize, StepFault>
    ensures { MatchResult result (λ next. next ≡ place + 1) (λ fault. fault ≡ StepFault.Memory) }
{
    match place.checked_add(1) {
        Some(next) => Ok(next),
        None => Err(StepFault::Memory),
    }
}

/// What follows the body of a turn.
pub fn of_body_end(
    state: &mut State,
    tree: &Tree,
    walk: Walk,
    place: usize,
    around: Scope,
    outcome: Outcome,
) -> Result<Next, StepFault>
    ensures does { IfOk result (λ next. Does (nodes_of tree.now) 6 (rest (nodes_of tree.now) (Frame.ForOfBody walk.constant walk.bind walk.body walk.array place around) outcome) state.old state.new next) }
    ensures closed { IsClosed (nodes_of tree.now) state.old → IsNoEnv nat_eq state.old.heap.cells walk.array → ScopeFits (nodes_of tree.now) state.old.heap.cells around → OutcomeFits (nodes_of tree.now) state.old.heap.cells outcome → Lasts (nodes_of tree.now) state.old state.new result }
{
    match outcome {
        Outcome::Normal(_) | Outcome::Continue => {
            let next = behind(place)?;
            of_turn(state, tree, walk, next, around)
        }
        Outcome::Break => done(state),
        Outcome::Return(value) => state.give(Outcome::Return(value)),
        Outcome::Thrown(value) => state.give(Outcome::Thrown(value)),
    }
}
