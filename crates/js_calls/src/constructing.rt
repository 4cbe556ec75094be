//! Constructing objects with `new` (ECMA-262, 7.3.15: Construct; 10.2.2: closures; 20.5.1.1: errors).
ghost use Rattle.std.specs.Prelude.{◌≡◌, ℕ, List, IfOk, MatchResult, Some, codes, slice_get, nat_eq};
ghost use Rattle.std.specs.Option.{option_copied};
ghost use Rattle.js_tree.specs.declared.node.Node as kind;
ghost use Rattle.world_heap.specs.Heaps.{IsCell, IsNoEnv};
ghost use Rattle.world_heap.specs.Over.{ListOver, OptionOver};
ghost use Rattle.world_heap.specs.Table.{found_under};
ghost use Rattle.js_names.specs.Patterns.{nodes_of};
ghost use Rattle.js_semantics.specs.Natives.{is_error_function};
ghost use Rattle.js_semantics.specs.Objects.{construct, constructed, is_constructor, prototype_in};
ghost use Rattle.js_semantics.specs.Properties.{object_of};
ghost use Rattle.js_semantics.specs.Prog.{give};
ghost use Rattle.js_semantics.specs.World.{World, built_in, cell_of, over};
ghost use Rattle.js_machine.specs.Closed.{IsClosed, Lasts, ValueFits};
ghost use Rattle.js_machine.specs.Does.{Does, world_of};
ghost use Rattle.js_machine.specs.Frames.{after_rest};
ghost use Rattle.js_calls.specs.Closed.{ConstructorFits};
ghost use Rattle.js_calls.specs.Constructing.{closure_maker, construct_by, constructor_in, made_prototype, native_maker};

use crate::calling::{Invocation, invoke};
use crate::functions::is_constructor;
use js_machine::{AfterFrame, Next, State, discard, object_of, stopped};
use js_operators::short_text;
use js_semantics::{Fault, Native, Outcome, StepFault};
use js_tree::{NodeId, Tree};
use sqlite_items::Items;
use world_heap::{Body, BuiltIn, Cell, Heap, Loc, Property, Value};

/// What makes objects with `new` (ECMA-262, 7.2.4: IsConstructor): a closure of a node, or a built-in function.
#[derive(Drop)]
pub enum Constructor<L = Loc> {
    Closure { node: u32, env: L },
    Native { id: u16 },
    Nothing,
}

// The prototype of the objects that a function makes (ECMA-262, 10.1.14: GetPrototypeFromConstructor), from what stands
// under its `prototype`.
fn prototype_of(heap: &Heap, default: &Option<Loc>, found: Option<&Property>) -> Option<Loc>
    ensures { (w : World ℕ) → default.now ≡ built_in BuiltIn.ObjectPrototype (over heap.now w) → result ≡ prototype_in (option_copied found.entry) (over heap.now w) }
{
    match found {
        Some(Property::Data { value, .. }) => match object_of(heap, value) {
            Some(loc) => Some(loc),
            None => *default,
        },
        _ => *default,
    }
}

// The same of a function with this body.
fn prototype_under(state: &State, body: &Body) -> Result<Option<Loc>, StepFault>
    ensures is { (nodes : List kind.Node) (supply : ℕ → ℕ) → IfOk result (λ proto. proto ≡ prototype_in (found_under body.now.properties (codes "prototype")) (world_of nodes supply state.now)) }
    ensures only { MatchResult result (λ proto. Unit {0}) (λ fault. fault ≡ StepFault.Memory) }
{
    let key = short_text(state.alloc, "prototype")?;
    let default = state.built_in(BuiltIn::ObjectPrototype);
    Ok(prototype_of(&state.heap, &default, body.properties.get(&key)))
}

// The same of what a value is.
#[tactic(auto, unfolding(crate::specs::Constructing::made_prototype))]
fn made_prototype(state: &State, callee: &Value) -> Result<Option<Loc>, StepFault>
    ensures is { (nodes : List kind.Node) (supply : ℕ → ℕ) → IfOk result (λ proto. proto ≡ made_prototype (cell_of callee.now (world_of nodes supply state.now)) (world_of nodes supply state.now)) }
    ensures only { MatchResult result (λ proto. Unit {0}) (λ fault. fault ≡ StepFault.Memory) }
{
    match callee {
        Value::Ref(loc) => match state.heap.get(*loc) {
            Some(Cell::Closure { body, .. }) => prototype_under(state, body),
            _ => Ok(None),
        },
        _ => Ok(None),
    }
}

// What the closure of a node makes: methods, getters, setters and arrow functions make nothing.
#[tactic(auto, unfolding(crate::specs::Constructing::closure_maker))]
fn closure_maker(tree: &Tree, node: u32, env: Loc) -> Constructor
    ensures { result ≡ closure_maker (is_constructor (slice_get (nodes_of tree.now) node)) node env }
{
    if is_constructor(tree, NodeId(node)) {
        Constructor::Closure { node, env }
    } else {
        Constructor::Nothing
    }
}

// What a built-in function makes: those of errors make errors.
#[tactic(auto, unfolding(crate::specs::Constructing::native_maker))]
fn native_maker(id: u16) -> Constructor
    ensures { result ≡ native_maker (is_error_function id) id }
{
    match Native::of(id) {
        Some(Native::Error(_)) => Constructor::Native { id },
        _ => Constructor::Nothing,
    }
}

// What a cell makes with `new`.
#[tactic(auto, unfolding(crate::specs::Constructing::constructor_in))]
fn constructor_in(tree: &Tree, cell: &Cell) -> Constructor
    ensures { result ≡ constructor_in (nodes_of tree.now) (Some cell.now) }
{
    match cell {
        Cell::Closure { node, env, .. } => closure_maker(tree, *node, *env),
        Cell::Native { id, .. } => native_maker(*id),
        _ => Constructor::Nothing,
    }
}

// What a value makes with `new`.
#[tactic(auto, unfolding(crate::specs::Constructing::constructor_in))]
fn constructor_of(heap: &Heap, tree: &Tree, callee: &Value) -> Constructor
    ensures is { (w : World ℕ) → result ≡ constructor_in (nodes_of tree.now) (cell_of callee.now (over heap.now w)) }
    ensures closed { ConstructorFits heap.now.cells result }
{
    match callee {
        Value::Ref(loc) => match heap.get(*loc) {
            Some(cell) => constructor_in(tree, cell),
            None => Constructor::Nothing,
        },
        _ => Constructor::Nothing,
    }
}

// Makes the new object, and calls the function of a node on it.
fn construct_on(
    state: &mut State,
    tree: &Tree,
    node: u32,
    env: Loc,
    proto: Option<Loc>,
    arguments: Items<Value>,
) -> Result<Next, StepFault>
    ensures does { IfOk result (λ next. Does (nodes_of tree.now) 4 (construct_by (Constructor.Closure node env) proto arguments (λ v. give v)) state.old state.new next) }
    ensures closed { IsClosed (nodes_of tree.now) state.old → IsCell nat_eq state.old.heap.cells env → OptionOver (IsNoEnv nat_eq state.old.heap.cells) proto → ListOver (ValueFits state.old.heap.cells) arguments → Lasts (nodes_of tree.now) state.old state.new result }
{
    match state.make_object(proto)? {
        Ok(object) => {
            let invocation = Invocation {
                node: NodeId(node),
                env,
                receiver: Value::Ref(object),
                arguments,
            };
            invoke(
                state,
                tree,
                invocation,
                Some(AfterFrame::Constructed { object }),
            )
        }
        Err(stop) => {
            discard(arguments);
            Ok(stopped(stop))
        }
    }
}

// Constructs an object.
fn construct_any(
    state: &mut State,
    tree: &Tree,
    callee: &Value,
    arguments: Items<Value>,
) -> Result<Next, StepFault>
    ensures does { IfOk result (λ next. Does (nodes_of tree.now) 4 (construct callee.now arguments (λ v. give v)) state.old state.new next) }
    ensures closed { IsClosed (nodes_of tree.now) state.old → ListOver (ValueFits state.old.heap.cells) arguments → Lasts (nodes_of tree.now) state.old state.new result }
{
    match constructor_of(&state.heap, tree, callee) {
        Constructor::Closure { node, env } => {
            let proto = made_prototype(state, callee)?;
            construct_on(state, tree, node, env, proto, arguments)
        }
        Constructor::Native { id } => state.enter_native(None, id, Value::Undefined, arguments),
        Constructor::Nothing => {
            discard(arguments);
            state.throw(Fault::NotAConstructor)
        }
    }
}

/// Constructs an object with `new` (ECMA-262, 13.3.5.1.1 and 10.2.2). Of a closure, the new object is made first, with
/// the function's `prototype` as its prototype where that is an object, and the function is called on it; an object that
/// it returns takes its place. A function of errors makes an error. What is no constructor throws, and so does a call
/// above the limit of active calls, once the object is made.
///
/// # Errors
/// `Memory` where there is none; `Dangling` where a location was met that stands nowhere.
pub fn construct(
    state: &mut State,
    tree: &Tree,
    callee: &Value,
    arguments: Items<Value>,
) -> Result<Next, StepFault>
    ensures some { IfOk result (λ next. Does (nodes_of tree.now) 4 (construct callee.now arguments (λ v. give v)) state.old state.new next) }
    ensures many { IfOk result (λ next. Does (nodes_of tree.now) 6 (construct callee.now arguments (λ v. give v)) state.old state.new next) }
    ensures closed { IsClosed (nodes_of tree.now) state.old → ListOver (ValueFits state.old.heap.cells) arguments → Lasts (nodes_of tree.now) state.old state.new result }
{
    construct_any(state, tree, callee, arguments)
}

// What `new` gives of a new object: an object that was returned takes its place.
fn constructed(heap: &Heap, object: Loc, value: &Value) -> Value
    ensures { (w : World ℕ) → result ≡ constructed object value.now (over heap.now w) }
{
    match object_of(heap, value) {
        Some(returned) => Value::Ref(returned),
        None => Value::Ref(object),
    }
}

/// The function that `new` called on a new object has returned a value (ECMA-262, 10.2.2): an object takes the place of
/// the new one, and any other value is let go. It is never a fault.
pub fn after_constructed(state: &mut State, object: Loc, value: Value) -> Result<Next, StepFault>
    ensures does { (nodes : List kind.Node) → IfOk result (λ next. Does nodes 2 (after_rest nodes (AfterFrame.Constructed object) value) state.old state.new next) }
    ensures closed { (nodes : List kind.Node) → IsClosed nodes state.old → IsNoEnv nat_eq state.old.heap.cells object → ValueFits state.old.heap.cells value → Lasts nodes state.old state.new result }
{
    let made = constructed(&state.heap, object, &value);
    discard(value);
    state.give(Outcome::Normal(made))
}
