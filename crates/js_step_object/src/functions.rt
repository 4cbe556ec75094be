//! Functions (ECMA-262, 10.2.3, 10.2.5 and 15.2 to 15.3).
ghost use Rattle.std.specs.Prelude.{◌≡◌, [], ◌∷◌, List, IfOk, MatchResult, Some, None, false, true, codes, nat_eq};
ghost use Rattle.js_tree.specs.declared.node.Node as kind;
ghost use Rattle.js_semantics.specs.Environments.{bind_in, env_cell, unready};
ghost use Rattle.js_semantics.specs.Objects.{make_closure, make_function, make_object, row_arrow, row_fun};
ghost use Rattle.js_semantics.specs.Prog.{alloc, change, give};
ghost use Rattle.world_heap.specs.Heaps.{IsCell, IsNoEnv};
ghost use Rattle.world_heap.specs.Over.{OptionOver};
ghost use Rattle.js_machine.specs.Closed.{IsClosed, Lasts, ScopeFits, ValueFits};
ghost use Rattle.js_machine.specs.Does.{Does};
ghost use Rattle.js_step_object.specs.Defining.{Defines, Makes};

use crate::defining::define;
use js_machine::{Next, State, discard, stopped};
use js_names::bind_in;
use js_operators::short_text;
use js_semantics::{Outcome, Scope, StepFault};
use js_tree::NodeId;
use sqlite_items::Items;
use std::alloc::Global;
use wl_text::Units;
use world_heap::{Binding, BuiltIn, Loc, Property, Value};

/// What is made: its location; or the row has ended, since the world stops.
pub type Making = Result<Loc, Next>;

/// Makes a closure of a node's function (ECMA-262, 10.2.3).
pub fn closure_of(
    state: &mut State,
    node: NodeId,
    env: Loc,
    receiver: Option<Value>,
) -> Result<Making, StepFault>
    ensures does { (nodes : List kind.Node) → IfOk result (λ made. Makes nodes (λ k. make_closure node env receiver k) state.old state.new made) }
    ensures closed { (nodes : List kind.Node) → IsClosed nodes state.old → IsCell nat_eq state.old.heap.cells env → OptionOver (ValueFits state.old.heap.cells) receiver → Lasts nodes state.old state.new result }
    ensures fits { (nodes : List kind.Node) → IsClosed nodes state.old → IfOk result (λ made. IfOk made (λ loc. IsNoEnv nat_eq state.new.heap.cells loc)) }
{
    match state.make_closure(node, env, receiver)? {
        Ok(loc) => Ok(Ok(loc)),
        Err(stop) => Ok(Err(stopped(stop))),
    }
}

/// Makes an object without properties (ECMA-262, 10.1.12).
pub fn plain_object(state: &mut State) -> Result<Making, StepFault>
    ensures does { (nodes : List kind.Node) → IfOk result (λ made. Makes nodes (λ k. make_object k) state.old state.new made) }
    ensures closed { (nodes : List kind.Node) → IsClosed nodes state.old → Lasts nodes state.old state.new result }
    ensures fits { (nodes : List kind.Node) → IsClosed nodes state.old → IfOk result (λ made. IfOk made (λ loc. IsNoEnv nat_eq state.new.heap.cells loc)) }
{
    let proto = state.built_in(BuiltIn::ObjectPrototype);
    match state.make_object(proto)? {
        Ok(loc) => Ok(Ok(loc)),
        Err(stop) => Ok(Err(stopped(stop))),
    }
}

// Leads from a function to its prototype object, by a property that isn't listed and can't be removed.
fn lead_to(state: &mut State, function: Loc, proto: Loc) -> Result<Option<Next>, StepFault>
    ensures does { (nodes : List kind.Node) → IfOk result (λ ended. Defines nodes function (codes "prototype") (Property.Data (Value.Ref proto) true false false) state.old state.new ended) }
    ensures closed { (nodes : List kind.Node) → IsClosed nodes state.old → IsNoEnv nat_eq state.old.heap.cells proto → Lasts nodes state.old state.new result }
{
    let key = short_text(state.alloc, "prototype")?;
    let property = Property::Data {
        value: Value::Ref(proto),
        writable: true,
        enumerable: false,
        configurable: false,
    };
    define(state, function, key, property)
}

/// Makes a function that can be called with `new` (ECMA-262, 10.2.5: MakeConstructor): the closure, its prototype object,
/// and the property `prototype` that leads to it. The row has ended where the world stops.
pub fn make_function(state: &mut State, node: NodeId, env: Loc) -> Result<Making, StepFault>
    ensures does { (nodes : List kind.Node) → IfOk result (λ made. Makes nodes (λ k. make_function node env k) state.old state.new made) }
    ensures closed { (nodes : List kind.Node) → IsClosed nodes state.old → IsCell nat_eq state.old.heap.cells env → Lasts nodes state.old state.new result }
    ensures fits { (nodes : List kind.Node) → IsClosed nodes state.old → IsCell nat_eq state.old.heap.cells env → IfOk result (λ made. IfOk made (λ loc. IsNoEnv nat_eq state.new.heap.cells loc)) }
{
    let function = match closure_of(state, node, env, None)? {
        Ok(function) => function,
        Err(next) => return Ok(Err(next)),
    };
    let proto = match plain_object(state)? {
        Ok(proto) => proto,
        Err(next) => return Ok(Err(next)),
    };
    match lead_to(state, function, proto)? {
        None => Ok(Ok(function)),
        Some(next) => Ok(Err(next)),
    }
}

/// The row of an arrow function (ECMA-262, 15.3.4), which keeps the receiver of where it stands.
pub fn row_arrow(state: &mut State, node: NodeId, scope: Scope) -> Result<Next, StepFault>
    ensures does { (nodes : List kind.Node) → IfOk result (λ next. Does nodes 6 (row_arrow node scope) state.old state.new next) }
    ensures closed { (nodes : List kind.Node) → IsClosed nodes state.old → ScopeFits nodes state.old.heap.cells scope → Lasts nodes state.old state.new result }
{
    match closure_of(state, node, scope.env, Some(scope.receiver))? {
        Ok(loc) => state.give(Outcome::Normal(Value::Ref(loc))),
        Err(next) => Ok(next),
    }
}

// The name of a function as a binding that can't be written and isn't ready.
fn name_bindings(alloc: Global, name: &Units) -> Result<Items<Binding>, StepFault>
    ensures { MatchResult result (λ bindings. bindings ≡ unready true name.now ∷ []) (λ fault. fault ≡ StepFault.Memory) }
{
    let mut bindings = Items::new(alloc);
    let name = name.copy(alloc)?;
    bindings.push(Binding {
        name,
        value: None,
        fixed: true,
    })?;
    Ok(bindings)
}

// Makes an environment with the name of a function, which can't be written.
fn name_environment(state: &mut State, env: Loc, name: &Units) -> Result<Making, StepFault>
    ensures does { (nodes : List kind.Node) → IfOk result (λ made. Makes nodes (λ k. alloc (env_cell (Some env) (unready true name.now ∷ [])) k) state.old state.new made) }
    ensures closed { (nodes : List kind.Node) → IsClosed nodes state.old → IsCell nat_eq state.old.heap.cells env → Lasts nodes state.old state.new result }
    ensures fits { (nodes : List kind.Node) → IsClosed nodes state.old → IfOk result (λ made. IfOk made (λ loc. IsCell nat_eq state.new.heap.cells loc)) }
{
    let bindings = name_bindings(state.alloc, name)?;
    match state.make_environment(Some(env), bindings)? {
        Ok(loc) => Ok(Ok(loc)),
        Err(stop) => Ok(Err(stopped(stop))),
    }
}

// Gives the name of a function its value, and ends the row with it.
fn give_named(state: &mut State, env: Loc, name: &Units, function: Loc) -> Result<Next, StepFault>
    ensures does { (nodes : List kind.Node) → IfOk result (λ next. Does nodes 6 (change (bind_in env name.now (Value.Ref function)) (give (Value.Ref function))) state.old state.new next) }
    ensures closed { (nodes : List kind.Node) → IsClosed nodes state.old → IsNoEnv nat_eq state.old.heap.cells function → Lasts nodes state.old state.new result }
{
    match bind_in(
        state.alloc,
        &mut state.heap,
        env,
        name,
        Value::Ref(function),
    ) {
        Ok(()) => {}
        Err(fault) => return Err(fault),
    }
    state.give(Outcome::Normal(Value::Ref(function)))
}

// The row of a function without a name of its own.
fn unnamed(state: &mut State, node: NodeId, env: Loc) -> Result<Next, StepFault>
    ensures does { (nodes : List kind.Node) → IfOk result (λ next. Does nodes 6 (make_function node env (λ loc. give (Value.Ref loc))) state.old state.new next) }
    ensures closed { (nodes : List kind.Node) → IsClosed nodes state.old → IsCell nat_eq state.old.heap.cells env → Lasts nodes state.old state.new result }
{
    match make_function(state, node, env)? {
        Ok(loc) => state.give(Outcome::Normal(Value::Ref(loc))),
        Err(next) => Ok(next),
    }
}

// A function in the environment with its name.
fn named_in(state: &mut State, node: NodeId, name: &Units, env: Loc) -> Result<Next, StepFault>
    ensures does { (nodes : List kind.Node) → IfOk result (λ next. Does nodes 6 (make_function node env (λ loc. change (bind_in env name.now (Value.Ref loc)) (give (Value.Ref loc)))) state.old state.new next) }
    ensures closed { (nodes : List kind.Node) → IsClosed nodes state.old → IsCell nat_eq state.old.heap.cells env → Lasts nodes state.old state.new result }
{
    match make_function(state, node, env)? {
        Ok(function) => give_named(state, env, name, function),
        Err(next) => Ok(next),
    }
}

// The row of a function with a name of its own.
fn named(state: &mut State, node: NodeId, name: &Units, env: Loc) -> Result<Next, StepFault>
    ensures does { (nodes : List kind.Node) → IfOk result (λ next. Does nodes 6 (alloc (env_cell (Some env) (unready true name.now ∷ [])) (λ around. make_function node around (λ loc. change (bind_in around name.now (Value.Ref loc)) (give (Value.Ref loc))))) state.old state.new next) }
    ensures closed { (nodes : List kind.Node) → IsClosed nodes state.old → IsCell nat_eq state.old.heap.cells env → Lasts nodes state.old state.new result }
{
    match name_environment(state, env, name)? {
        Ok(around) => named_in(state, node, name, around),
        Err(next) => Ok(next),
    }
}

/// The row of a function expression (ECMA-262, 15.2.5). One with a name of its own has it in an environment around, where
/// it can't be written.
#[tactic(auto, unfolding(js_semantics::specs::Objects::row_fun))]
pub fn row_fun(
    state: &mut State,
    node: NodeId,
    name: &Option<Units>,
    scope: Scope,
) -> Result<Next, StepFault>
    ensures does { (nodes : List kind.Node) → IfOk result (λ next. Does nodes 6 (row_fun node name.now scope) state.old state.new next) }
    ensures closed { (nodes : List kind.Node) → IsClosed nodes state.old → ScopeFits nodes state.old.heap.cells scope → Lasts nodes state.old state.new result }
{
    let env = scope.env;
    discard(scope);
    match name {
        Some(name) => named(state, node, name, env),
        None => unnamed(state, node, env),
    }
}
