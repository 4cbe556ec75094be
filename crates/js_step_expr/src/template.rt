//! Template literals (ECMA-262, 13.2.8).
ghost use Rattle.std.specs.Prelude.{◌≡◌, ◌++◌, [], drop, slice_get, List, IfOk, IfErr};
ghost use Rattle.js_tree.specs.declared.node.Node as kind;
ghost use Rattle.js_names.specs.Patterns.{nodes_of};
ghost use Rattle.js_semantics.specs.Prog.{give, make_text};
ghost use Rattle.js_semantics.specs.Expressions.{first_text, row_template, template_from};
ghost use Rattle.js_machine.specs.Parts.{parts_of, texts_of};
ghost use Rattle.js_machine.specs.Does.{Does};
ghost use Rattle.js_machine.specs.Frames.{operand_rest};
ghost use Rattle.js_machine.specs.Closed.{IsClosed, Lasts, ScopeFits, ValueFits};

use crate::entering::enter_operand;
use crate::settling::finish;
use js_machine::{Next, OperandFrame, State, copy_scope, node_at};
use js_operators::{Answer, primitive_text};
use js_semantics::{Fault, Scope, StepFault};
use js_tree::{Node, NodeId, Tree};
use sqlite_items::{Items, at};
use std::alloc::Global;
use wl_text::{TextFault, Units};
use world_heap::Value;

// The texts in a node.
#[tactic(auto, unfolding(js_machine::specs::Parts::texts_of))]
fn texts_in(node: &Node) -> &[Units]
    ensures { result.now ≡ texts_of (Some node.now) }
{
    match node {
        Node::Template { texts, .. } => texts.as_slice(),
        _ => &[],
    }
}

// The texts of a template.
#[tactic(auto, unfolding(js_machine::specs::Parts::texts_of))]
fn texts_of(tree: &Tree, node: NodeId) -> &[Units]
    ensures { result.now ≡ texts_of (slice_get (nodes_of tree.now) node.0) }
{
    match node_at(tree, node) {
        Some(node) => texts_in(node),
        None => &[],
    }
}

// The parts in a node.
#[tactic(auto, unfolding(js_machine::specs::Parts::parts_of))]
fn parts_in(node: &Node) -> &[NodeId]
    ensures { result.now ≡ parts_of (Some node.now) }
{
    match node {
        Node::Template { parts, .. } => parts.as_slice(),
        _ => &[],
    }
}

// The parts of a template.
#[tactic(auto, unfolding(js_machine::specs::Parts::parts_of))]
fn parts_of(tree: &Tree, node: NodeId) -> &[NodeId]
    ensures { result.now ≡ parts_of (slice_get (nodes_of tree.now) node.0) }
{
    match node_at(tree, node) {
        Some(node) => parts_in(node),
        None => &[],
    }
}

// What is joined, with a text behind it.
fn joined(alloc: Global, before: Items<u16>, text: &Units) -> Result<Items<u16>, StepFault>
    ensures is { IfOk result (λ joined. joined ≡ before ++ text.now) }
    ensures closed { IfErr result (λ fault. fault ≡ StepFault.Memory) }
{
    let mut joined = before;
    joined.append(Items::from_slice(alloc, text.as_slice())?)?;
    Ok(joined)
}

// What is joined, with the text at a place behind it.
fn with_text(
    alloc: Global,
    before: Items<u16>,
    texts: &[Units],
    place: usize,
) -> Result<Items<u16>, StepFault>
    ensures is { IfOk result (λ joined. joined ≡ before ++ first_text (drop place texts.now)) }
    ensures closed { IfErr result (λ fault. fault ≡ StepFault.Memory) }
{
    match at(texts, place) {
        Some(text) => joined(alloc, before, text),
        None => Ok(before),
    }
}

// Gives the text of a template.
#[tactic(auto, unfolding(js_semantics::specs::Prog::make_text, js_semantics::specs::Expressions::compute))]
fn give_text(state: &mut State, units: &[u16]) -> Result<Next, StepFault>
    ensures does { (nodes : List kind.Node) → IfOk result (λ next. Does nodes 6 (make_text units.now (λ v. give v)) state.old state.new next) }
    ensures closed { (nodes : List kind.Node) → IsClosed nodes state.old → Lasts nodes state.old state.new result }
{
    match Units::of_units(state.alloc, units) {
        Ok(text) => finish(state, Answer::Makes(text)),
        Err(TextFault::TooLong) => state.throw(Fault::TooLong),
        Err(TextFault::Memory) => Err(StepFault::Memory),
    }
}

// The texts and parts of a template from a place on, behind what is joined already.
fn template_from(
    state: &mut State,
    tree: &Tree,
    node: NodeId,
    place: usize,
    before: Items<u16>,
    scope: Scope,
) -> Result<Next, StepFault>
    ensures does { IfOk result (λ next. Does (nodes_of tree.now) 6 (template_from before (drop place (texts_of (slice_get (nodes_of tree.now) node.0))) (drop place (parts_of (slice_get (nodes_of tree.now) node.0))) scope) state.old state.new next) }
    ensures closed { IsClosed (nodes_of tree.now) state.old → ScopeFits (nodes_of tree.now) state.old.heap.cells scope → Lasts (nodes_of tree.now) state.old state.new result }
{
    let before = with_text(state.alloc, before, texts_of(tree, node), place)?;
    match at(parts_of(tree, node), place) {
        Some(part) => {
            let inner = copy_scope(state.alloc, &scope)?;
            let frame = OperandFrame::TemplatePart {
                node,
                next: place + 1,
                before,
                scope,
            };
            enter_operand(state, frame, *part, inner)
        }
        None => give_text(state, before.as_slice()),
    }
}

/// A template literal (ECMA-262, 13.2.8.6): enters its first part, or gives its text.
#[tactic(auto, unfolding(js_semantics::specs::Expressions::row_template))]
pub fn row_template(
    state: &mut State,
    tree: &Tree,
    node: NodeId,
    scope: Scope,
) -> Result<Next, StepFault>
    ensures does { IfOk result (λ next. Does (nodes_of tree.now) 6 (row_template (texts_of (slice_get (nodes_of tree.now) node.0)) (parts_of (slice_get (nodes_of tree.now) node.0)) scope) state.old state.new next) }
    ensures closed { IsClosed (nodes_of tree.now) state.old → ScopeFits (nodes_of tree.now) state.old.heap.cells scope → Lasts (nodes_of tree.now) state.old state.new result }
{
    template_from(state, tree, node, 0, Items::new(state.alloc), scope)
}

/// A template literal with the value of a part, whose text goes behind what is joined already: enters the next part, or
/// gives the text. A value that has no text is the error `WrongOperand`. The cost is linear in what is joined.
pub fn template_part(
    state: &mut State,
    tree: &Tree,
    node: NodeId,
    place: usize,
    before: Items<u16>,
    scope: Scope,
    value: Value,
) -> Result<Next, StepFault>
    ensures does { IfOk result (λ next. Does (nodes_of tree.now) 6 (operand_rest (nodes_of tree.now) (OperandFrame.TemplatePart node place before scope) value) state.old state.new next) }
    ensures closed { IsClosed (nodes_of tree.now) state.old → ScopeFits (nodes_of tree.now) state.old.heap.cells scope → ValueFits state.old.heap.cells value → Lasts (nodes_of tree.now) state.old state.new result }
{
    match primitive_text(state.alloc, &value)? {
        Some(text) => {
            let joined = joined(state.alloc, before, &text)?;
            template_from(state, tree, node, place, joined, scope)
        }
        None => state.throw(Fault::WrongOperand),
    }
}
