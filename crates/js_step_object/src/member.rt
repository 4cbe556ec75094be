//! The members of object literals (ECMA-262, 13.2.5).
ghost use Rattle.std.specs.Prelude.{◌≡◌, drop, slice_get, true, List, IfOk, MatchResult, Some, None, nat_eq};
ghost use Rattle.std.specs.Option.{option_copied, option_map};
ghost use Rattle.js_tree.specs.declared.node.Node as kind;
ghost use Rattle.world_heap.specs.Heaps.{IsCell, IsNoEnv};
ghost use Rattle.js_names.specs.Patterns.{nodes_of};
ghost use Rattle.js_semantics.specs.Access.{define};
ghost use Rattle.js_semantics.specs.Expressions.{with_key};
ghost use Rattle.js_semantics.specs.Objects.{make_closure, member_key_of, member_of, member_under, members_into, row_object};
ghost use Rattle.js_semantics.specs.Operators.{key_of};
ghost use Rattle.js_semantics.specs.Prog.{done, give};
ghost use Rattle.js_semantics.specs.Properties.{plain};
ghost use Rattle.js_machine.specs.Closed.{IsClosed, Lasts, ScopeFits, ValueFits};
ghost use Rattle.js_machine.specs.Does.{Does};
ghost use Rattle.js_machine.specs.Frames.{property_key};
ghost use Rattle.js_machine.specs.Parts.{items_of, key_part, written};
ghost use Rattle.js_step_object.specs.Defining.{standing};
ghost use Rattle.js_step_object.specs.Members.{computed_by, getter_of, member_in, member_property, setter_of};

use crate::defining::define;
use crate::functions::{closure_of, plain_object};
use js_machine::{
    Frame, LiteralFrame, Next, State, ValueFrame, copy_scope, discard, done, items_of, next_of,
    node_at,
};
use js_operators::{key_of, short_text};
use js_semantics::{Fault, Outcome, Scope, StepFault};
use js_tree::{Node, NodeId, PropertyKey, Tree};
use std::alloc::Global;
use wl_text::Units;
use world_heap::{Heap, Loc, Property, Value, body};

/// What the function of a member is for.
#[derive(Debug, Drop, Clone, Copy, PartialEq, Eq)]
pub enum Part {
    Method,
    Getter,
    Setter,
}

/// What a member defines: a value, a function, or nothing.
#[derive(Debug, Drop, Clone, Copy, PartialEq, Eq)]
pub enum Member {
    Value(NodeId),
    Function(Part),
    Nothing,
}

/// A frame of a literal.
pub fn literal(frame: LiteralFrame) -> Frame
    ensures { result ≡ Frame.OnValue (ValueFrame.Literal frame) }
{
    Frame::OnValue(ValueFrame::Literal(frame))
}

/// The members of an object literal from a place on, one after another, and then the object.
pub fn members_from(
    state: &mut State,
    tree: &Tree,
    node: NodeId,
    at: usize,
    object: Loc,
    scope: Scope,
) -> Result<Next, StepFault>
    ensures does { IfOk result (λ next. Does (nodes_of tree.now) 6 (members_into object (drop at (items_of (slice_get (nodes_of tree.now) node.0))) scope (give (Value.Ref object))) state.old state.new next) }
    ensures closed { IsClosed (nodes_of tree.now) state.old → IsNoEnv nat_eq state.old.heap.cells object → ScopeFits (nodes_of tree.now) state.old.heap.cells scope → Lasts (nodes_of tree.now) state.old state.new result }
{
    match next_of(items_of(tree, node), at) {
        Some((member, next)) => {
            let inner = copy_scope(state.alloc, &scope)?;
            let frame = LiteralFrame::Member {
                node,
                next,
                object,
                scope,
            };
            state.enter_member(literal(frame), member, object, inner)
        }
        None => {
            discard(scope);
            state.give(Outcome::Normal(Value::Ref(object)))
        }
    }
}

/// The row of an object literal (ECMA-262, 13.2.5.4).
pub fn row_object(
    state: &mut State,
    tree: &Tree,
    node: NodeId,
    scope: Scope,
) -> Result<Next, StepFault>
    ensures does { IfOk result (λ next. Does (nodes_of tree.now) 6 (row_object (items_of (slice_get (nodes_of tree.now) node.0)) scope) state.old state.new next) }
    ensures closed { IsClosed (nodes_of tree.now) state.old → ScopeFits (nodes_of tree.now) state.old.heap.cells scope → Lasts (nodes_of tree.now) state.old state.new result }
{
    match plain_object(state)? {
        Ok(object) => members_from(state, tree, node, 0, object, scope),
        Err(next) => {
            discard(scope);
            Ok(next)
        }
    }
}

// Defines a plain property, and ends the row of the member.
fn define_value(state: &mut State, object: Loc, key: Units, value: Value) -> Result<Next, StepFault>
    ensures does { (nodes : List kind.Node) → IfOk result (λ next. Does nodes 6 (define object key (λ old. plain value) done) state.old state.new next) }
    ensures closed { (nodes : List kind.Node) → IsClosed nodes state.old → ValueFits state.old.heap.cells value → Lasts nodes state.old state.new result }
{
    let property = Property::Data {
        value,
        writable: true,
        enumerable: true,
        configurable: true,
    };
    match define(state, object, key, property)? {
        None => done(state),
        Some(next) => Ok(next),
    }
}

/// The rest of a frame of a property's value, which is defined under the written key of the node, or under this text.
pub fn property_value(
    state: &mut State,
    tree: &Tree,
    node: NodeId,
    key: Option<Units>,
    object: Loc,
    value: Value,
) -> Result<Next, StepFault>
    ensures does { IfOk result (λ next. Does (nodes_of tree.now) 6 (define object (property_key (nodes_of tree.now) node key) (λ old. plain value) done) state.old state.new next) }
    ensures closed { IsClosed (nodes_of tree.now) state.old → ValueFits state.old.heap.cells value → Lasts (nodes_of tree.now) state.old state.new result }
{
    match own_key(state.alloc, tree, node, key) {
        Ok(key) => define_value(state, object, key, value),
        Err(fault) => {
            discard(value);
            Err(fault)
        }
    }
}

// The key that is written in a member.
fn written_key(alloc: Global, key: &PropertyKey) -> Result<Units, StepFault>
    ensures { MatchResult result (λ text. text ≡ written key.now) (λ fault. fault ≡ StepFault.Memory) }
{
    match key {
        PropertyKey::Written(text) => Ok(text.copy(alloc)?),
        PropertyKey::Computed(_) => Ok(short_text(alloc, "")?),
    }
}

// The key of a member.
fn key_in(member: &Node) -> Option<&PropertyKey>
    ensures { option_copied result ≡ member_key_of (Some member.now) }
{
    match member {
        Node::Property { key, .. } => Some(key),
        Node::Method { key, .. } => Some(key),
        Node::Getter { key, .. } => Some(key),
        Node::Setter { key, .. } => Some(key),
        _ => None,
    }
}

// The key that is written in a member, or none.
#[tactic(auto, unfolding(js_machine::specs::Parts::key_part))]
fn written_in(alloc: Global, member: &Node) -> Result<Units, StepFault>
    ensures { MatchResult result (λ text. text ≡ key_part (Some member.now)) (λ fault. fault ≡ StepFault.Memory) }
{
    match member {
        Node::Property { key, .. } => written_key(alloc, key),
        Node::Method { key, .. } => written_key(alloc, key),
        Node::Getter { key, .. } => written_key(alloc, key),
        Node::Setter { key, .. } => written_key(alloc, key),
        _ => Ok(short_text(alloc, "")?),
    }
}

// The key that is written in a node, or none.
#[tactic(auto, unfolding(js_machine::specs::Parts::key_part))]
fn key_part(alloc: Global, tree: &Tree, node: NodeId) -> Result<Units, StepFault>
    ensures { MatchResult result (λ text. text ≡ key_part (slice_get (nodes_of tree.now) node.0)) (λ fault. fault ≡ StepFault.Memory) }
{
    match node_at(tree, node) {
        Some(member) => written_in(alloc, member),
        None => Ok(short_text(alloc, "")?),
    }
}

// The key of a member, which is written in it where it isn't this text.
fn own_key(alloc: Global, tree: &Tree, node: NodeId, key: Option<Units>) -> Result<Units, StepFault>
    ensures { MatchResult result (λ text. text ≡ property_key (nodes_of tree.now) node key) (λ fault. fault ≡ StepFault.Memory) }
{
    match key {
        Some(key) => Ok(key),
        None => key_part(alloc, tree, node),
    }
}

// The getter of a property.
fn getter(property: &Property) -> Option<Loc>
    ensures { result ≡ getter_of (Some property.now) }
{
    match property {
        Property::Access { get, .. } => *get,
        Property::Data { .. } => None,
    }
}

// The setter of a property.
fn setter(property: &Property) -> Option<Loc>
    ensures { result ≡ setter_of (Some property.now) }
{
    match property {
        Property::Access { set, .. } => *set,
        Property::Data { .. } => None,
    }
}

// The getter of what stands under a key of an object.
fn getter_at(heap: &Heap, object: Loc, key: &Units) -> Option<Loc>
    ensures { result ≡ getter_of (standing heap.now.cells object key.now) }
{
    match heap.get(object) {
        Some(cell) => match body(cell) {
            Some(body) => match body.properties.get(key) {
                Some(property) => getter(property),
                None => None,
            },
            None => None,
        },
        None => None,
    }
}

// The setter of what stands under a key of an object.
fn setter_at(heap: &Heap, object: Loc, key: &Units) -> Option<Loc>
    ensures { result ≡ setter_of (standing heap.now.cells object key.now) }
{
    match heap.get(object) {
        Some(cell) => match body(cell) {
            Some(body) => match body.properties.get(key) {
                Some(property) => setter(property),
                None => None,
            },
            None => None,
        },
        None => None,
    }
}

// An accessor with these functions.
fn access(get: Option<Loc>, set: Option<Loc>) -> Property
    ensures { result ≡ Property.Access get set true true }
{
    Property::Access {
        get,
        set,
        enumerable: true,
        configurable: true,
    }
}

// The property that has a function, together with what stands under its key.
fn property_of(heap: &Heap, object: Loc, key: &Units, part: Part, function: Loc) -> Property
    ensures { result ≡ member_property part function (standing heap.now.cells object key.now) }
{
    match part {
        Part::Method => Property::Data {
            value: Value::Ref(function),
            writable: true,
            enumerable: true,
            configurable: true,
        },
        Part::Getter => access(Some(function), setter_at(heap, object, key)),
        Part::Setter => access(getter_at(heap, object, key), Some(function)),
    }
}

// Makes the function of a member, which keeps no receiver, and defines the property that has it.
fn define_function(
    state: &mut State,
    node: NodeId,
    object: Loc,
    env: Loc,
    key: Units,
    part: Part,
) -> Result<Next, StepFault>
    ensures does { (nodes : List kind.Node) → IfOk result (λ next. Does nodes 6 (make_closure node env None (λ f. define object key (λ old. member_property part f old) done)) state.old state.new next) }
    ensures closed { (nodes : List kind.Node) → IsClosed nodes state.old → IsCell nat_eq state.old.heap.cells env → Lasts nodes state.old state.new result }
{
    let function = match closure_of(state, node, env, None)? {
        Ok(function) => function,
        Err(next) => {
            discard(key);
            return Ok(next);
        }
    };
    let property = property_of(&state.heap, object, &key, part, function);
    match define(state, object, key, property)? {
        None => done(state),
        Some(next) => Ok(next),
    }
}

// What a node is as a member.
fn member_in(node: &Node) -> Member
    ensures { result ≡ member_in (Some node.now) }
{
    match node {
        Node::Property { value, .. } => Member::Value(*value),
        Node::Method { .. } => Member::Function(Part::Method),
        Node::Getter { .. } => Member::Function(Part::Getter),
        Node::Setter { .. } => Member::Function(Part::Setter),
        _ => Member::Nothing,
    }
}

// What the node with a number is as a member.
fn member_at(tree: &Tree, node: NodeId) -> Member
    ensures { result ≡ member_in (slice_get (nodes_of tree.now) node.0) }
{
    match node_at(tree, node) {
        Some(node) => member_in(node),
        None => Member::Nothing,
    }
}

// Defines a member under the key that is written in it, or under this text.
fn define_member(
    state: &mut State,
    tree: &Tree,
    node: NodeId,
    object: Loc,
    scope: Scope,
    key: Option<Units>,
) -> Result<Next, StepFault>
    ensures does { IfOk result (λ next. Does (nodes_of tree.now) 6 (member_under (slice_get (nodes_of tree.now) node.0) node object scope (property_key (nodes_of tree.now) node key)) state.old state.new next) }
    ensures closed { IsClosed (nodes_of tree.now) state.old → IsNoEnv nat_eq state.old.heap.cells object → ScopeFits (nodes_of tree.now) state.old.heap.cells scope → Lasts (nodes_of tree.now) state.old state.new result }
{
    match member_at(tree, node) {
        Member::Value(value) => {
            let frame = LiteralFrame::PropertyValue { node, key, object };
            state.enter(literal(frame), value, scope)
        }
        Member::Function(part) => {
            let key = own_key(state.alloc, tree, node, key)?;
            let env = scope.env;
            discard(scope);
            define_function(state, node, object, env, key, part)
        }
        Member::Nothing => {
            discard(key);
            discard(scope);
            done(state)
        }
    }
}

/// The rest of a frame of a computed key: what is no string and no number is no key.
pub fn member_keyed(
    state: &mut State,
    tree: &Tree,
    node: NodeId,
    object: Loc,
    scope: Scope,
    value: Value,
) -> Result<Next, StepFault>
    ensures does { IfOk result (λ next. Does (nodes_of tree.now) 6 (with_key (key_of value) (λ text. member_under (slice_get (nodes_of tree.now) node.0) node object scope text)) state.old state.new next) }
    ensures closed { IsClosed (nodes_of tree.now) state.old → IsNoEnv nat_eq state.old.heap.cells object → ScopeFits (nodes_of tree.now) state.old.heap.cells scope → Lasts (nodes_of tree.now) state.old state.new result }
{
    let key = key_of(state.alloc, &value)?;
    discard(value);
    match key {
        Some(key) => define_member(state, tree, node, object, scope, Some(key)),
        None => {
            discard(scope);
            state.throw(Fault::WrongOperand)
        }
    }
}

// The node that computes a key, where one does.
fn computed_by(key: &PropertyKey) -> Option<NodeId>
    ensures { result ≡ computed_by key.now }
{
    match key {
        PropertyKey::Written(_) => None,
        PropertyKey::Computed(node) => Some(*node),
    }
}

// How a member's key is told: not at all, by what is written, or by a node that computes it.
fn key_node(tree: &Tree, node: NodeId) -> Option<Option<NodeId>>
    ensures { result ≡ option_map computed_by (member_key_of (slice_get (nodes_of tree.now) node.0)) }
{
    match node_at(tree, node) {
        Some(member) => match key_in(member) {
            Some(key) => Some(computed_by(key)),
            None => None,
        },
        None => None,
    }
}

/// The row of a member of an object literal (ECMA-262, 13.2.5.5), which defines a property of the object.
pub fn row_member(
    state: &mut State,
    tree: &Tree,
    node: NodeId,
    object: Loc,
    scope: Scope,
) -> Result<Next, StepFault>
    ensures does { IfOk result (λ next. Does (nodes_of tree.now) 6 (member_of (slice_get (nodes_of tree.now) node.0) node object scope) state.old state.new next) }
    ensures closed { IsClosed (nodes_of tree.now) state.old → IsNoEnv nat_eq state.old.heap.cells object → ScopeFits (nodes_of tree.now) state.old.heap.cells scope → Lasts (nodes_of tree.now) state.old state.new result }
{
    match key_node(tree, node) {
        Some(Some(key)) => {
            let inner = copy_scope(state.alloc, &scope)?;
            let frame = LiteralFrame::MemberKey {
                node,
                object,
                scope,
            };
            state.enter(literal(frame), key, inner)
        }
        Some(None) => define_member(state, tree, node, object, scope, None),
        None => {
            discard(scope);
            done(state)
        }
    }
}
