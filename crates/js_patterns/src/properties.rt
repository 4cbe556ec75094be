//! Object patterns (ECMA-262, 14.3.3.1: PropertyBindingInitialization).
ghost use Rattle.std.specs.Prelude.{◌≡◌, ◌+◌, ◌-◌, ◌^◌, ◌<◌, ◌∷◌, drop, slice_get, List, IfOk, MatchResult, Some};
ghost use Rattle.js_tree.specs.declared.node.Node as kind;
ghost use Rattle.js_names.specs.Patterns.{nodes_of};
ghost use Rattle.js_semantics.specs.Access.{bind_value, or_default};
ghost use Rattle.js_semantics.specs.Statements.{bind_object, bind_properties};
ghost use Rattle.js_machine.specs.Closed.{IsClosed, Lasts, ScopeFits, ValueFits};
ghost use Rattle.js_machine.specs.Does.{Does};
ghost use Rattle.js_machine.specs.Parts.{entries_of};
ghost use Rattle.js_machine.specs.Frames.{after_rest, pattern_rest};
ghost use Rattle.js_patterns.specs.Nullish.{is_nullish};

use crate::entries::entry_at;
use js_calls::get;
use js_machine::{AfterFrame, Next, PatternFrame, State, copy_scope, default_of, discard, done};
use js_semantics::{Fault, Outcome, Scope, StepFault};
use js_step_stmt::pattern;
use js_tree::{BindProperty, NodeId, Tree};
use std::alloc::Global;
use world_heap::Value;

// Whether a value is undefined or null.
fn is_nullish(value: &Value) -> bool
    ensures { result ≡ is_nullish value.now }
{
    matches!(value, Value::Undefined | Value::Null)
}

/// An object pattern: its properties are read one after another, each bound before the next one is read. Undefined and
/// null have no properties: that throws.
pub fn bind_object(
    state: &mut State,
    tree: &Tree,
    node: NodeId,
    value: Value,
    scope: Scope,
) -> Result<Next, StepFault>
    ensures does { IfOk result (λ next. Does (nodes_of tree.now) 6 (bind_object (entries_of (slice_get (nodes_of tree.now) node.0)) value scope) state.old state.new next) }
    ensures closed { IsClosed (nodes_of tree.now) state.old → ValueFits state.old.heap.cells value → ScopeFits (nodes_of tree.now) state.old.heap.cells scope → Lasts (nodes_of tree.now) state.old state.new result }
{
    if is_nullish(&value) {
        discard(value);
        discard(scope);
        return state.throw(Fault::NotAnObject);
    }
    bind_properties(state, tree, node, 0, value, scope)
}

// The frame of the reading of a property, with the value whose property it is.
fn read_frame(
    alloc: Global,
    node: NodeId,
    at: usize,
    of: &Value,
    scope: Scope,
) -> Result<AfterFrame, StepFault>
    ensures { MatchResult result (λ frame. frame ≡ AfterFrame.PropertyRead node at of.now scope) (λ fault. fault ≡ StepFault.Memory) }
{
    let of = of.copy(alloc)?;
    Ok(AfterFrame::PropertyRead {
        node,
        at,
        of,
        scope,
    })
}

// Reads a property of a pattern, over the frame of what is bound to it.
fn read(
    state: &mut State,
    tree: &Tree,
    part: &BindProperty,
    node: NodeId,
    at: usize,
    of: Value,
    scope: Scope,
) -> Result<Next, StepFault>
    ensures does { (rest : List BindProperty) → drop at (entries_of (slice_get (nodes_of tree.now) node.0)) ≡ part.now ∷ rest
        → IfOk result (λ next. Does (nodes_of tree.now) 6 (bind_properties (part.now ∷ rest) of scope) state.old state.new next) }
    ensures closed { IsClosed (nodes_of tree.now) state.old → ValueFits state.old.heap.cells of → ScopeFits (nodes_of tree.now) state.old.heap.cells scope → Lasts (nodes_of tree.now) state.old state.new result }
{
    let frame = read_frame(state.alloc, node, at, &of, scope)?;
    get(state, tree, of, &part.key, frame)
}

/// The properties of an object pattern from a place on. The cost is that of `get` for the first of them; a value that is a
/// string is shared, not copied.
pub fn bind_properties(
    state: &mut State,
    tree: &Tree,
    node: NodeId,
    at: usize,
    of: Value,
    scope: Scope,
) -> Result<Next, StepFault>
    ensures does { IfOk result (λ next. Does (nodes_of tree.now) 6 (bind_properties (drop at (entries_of (slice_get (nodes_of tree.now) node.0))) of scope) state.old state.new next) }
    ensures closed { IsClosed (nodes_of tree.now) state.old → ValueFits state.old.heap.cells of → ScopeFits (nodes_of tree.now) state.old.heap.cells scope → Lasts (nodes_of tree.now) state.old state.new result }
{
    match entry_at(tree, node, at) {
        Some(part) => read(state, tree, part, node, at, of, scope),
        None => {
            discard(of);
            discard(scope);
            done(state)
        }
    }
}

// Binds the value of a property, and leaves those behind it.
fn bind_property(
    state: &mut State,
    bind: NodeId,
    node: NodeId,
    next: usize,
    of: Value,
    scope: Scope,
    value: Value,
) -> Result<Next, StepFault>
    ensures some { (nodes : List kind.Node) → IfOk result (λ made. Does nodes 4 (bind_value bind value scope (bind_properties (drop next (entries_of (slice_get nodes node.0))) of scope)) state.old state.new made) }
    ensures many { (nodes : List kind.Node) → IfOk result (λ made. Does nodes 6 (bind_value bind value scope (bind_properties (drop next (entries_of (slice_get nodes node.0))) of scope)) state.old state.new made) }
    ensures closed { (nodes : List kind.Node) → IsClosed nodes state.old → ValueFits state.old.heap.cells of → ScopeFits nodes state.old.heap.cells scope → ValueFits state.old.heap.cells value → Lasts nodes state.old state.new result }
{
    let inner = copy_scope(state.alloc, &scope)?;
    let frame = PatternFrame::PropertyBound {
        node,
        next,
        of,
        scope,
    };
    state.bind(pattern(frame), bind, value, inner)
}

// Evaluates the default of a property, or binds what was read.
fn bind_or_default(
    state: &mut State,
    part: &BindProperty,
    node: NodeId,
    at: usize,
    of: Value,
    scope: Scope,
    value: Value,
) -> Result<Next, StepFault>
    requires { at < 2 ^ 64 - 1 }
    ensures does { (nodes : List kind.Node) → drop at (entries_of (slice_get nodes node.0)) ≡ part.now ∷ drop (at + 1) (entries_of (slice_get nodes node.0))
        → IfOk result (λ made. Does nodes 4 (or_default part.now.default value scope (λ y. bind_value part.now.bind y scope (bind_properties (drop (at + 1) (entries_of (slice_get nodes node.0))) of scope))) state.old state.new made) }
    ensures closed { (nodes : List kind.Node) → IsClosed nodes state.old → ValueFits state.old.heap.cells of → ScopeFits nodes state.old.heap.cells scope → ValueFits state.old.heap.cells value → Lasts nodes state.old state.new result }
{
    match default_of(&value, part.default) {
        Some(default) => {
            discard(value);
            let inner = copy_scope(state.alloc, &scope)?;
            let frame = PatternFrame::PropertyDefault {
                node,
                at,
                of,
                scope,
            };
            state.enter(pattern(frame), default, inner)
        }
        None => bind_property(state, part.bind, node, at + 1, of, scope, value),
    }
}

/// The property of an object pattern with the number `at` has this value: it is bound, or its default evaluated where it
/// is undefined and the pattern has one.
pub fn after_property_read(
    state: &mut State,
    tree: &Tree,
    node: NodeId,
    at: usize,
    of: Value,
    scope: Scope,
    value: Value,
) -> Result<Next, StepFault>
    ensures does { IfOk result (λ made. Does (nodes_of tree.now) 4 (after_rest (nodes_of tree.now) (AfterFrame.PropertyRead node at of scope) value) state.old state.new made) }
    ensures closed { IsClosed (nodes_of tree.now) state.old → ValueFits state.old.heap.cells of → ScopeFits (nodes_of tree.now) state.old.heap.cells scope → ValueFits state.old.heap.cells value → Lasts (nodes_of tree.now) state.old state.new result }
{
    match entry_at(tree, node, at) {
        Some(part) => bind_or_default(state, part, node, at, of, scope, value),
        None => {
            discard(of);
            discard(scope);
            discard(value);
            state.give(Outcome::Normal(Value::Undefined))
        }
    }
}

/// Binds the default of a property that was undefined.
pub fn property_defaulted(
    state: &mut State,
    tree: &Tree,
    node: NodeId,
    at: usize,
    of: Value,
    scope: Scope,
    value: Value,
) -> Result<Next, StepFault>
    ensures does { IfOk result (λ made. Does (nodes_of tree.now) 6 (pattern_rest (nodes_of tree.now) (PatternFrame.PropertyDefault node at of scope) value) state.old state.new made) }
    ensures closed { IsClosed (nodes_of tree.now) state.old → ValueFits state.old.heap.cells of → ScopeFits (nodes_of tree.now) state.old.heap.cells scope → ValueFits state.old.heap.cells value → Lasts (nodes_of tree.now) state.old state.new result }
{
    match entry_at(tree, node, at) {
        Some(part) => bind_property(state, part.bind, node, at + 1, of, scope, value),
        None => {
            discard(of);
            discard(scope);
            discard(value);
            done(state)
        }
    }
}
