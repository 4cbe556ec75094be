//! How a row enters the nodes of its operands.
ghost use Rattle.std.specs.Prelude.{List, IfOk};
ghost use Rattle.js_tree.specs.declared.node.Node as kind;
ghost use Rattle.js_semantics.specs.Prog.{eval, give};
ghost use Rattle.js_machine.specs.Does.{Does};
ghost use Rattle.js_machine.specs.Frames.{operand_rest};
ghost use Rattle.js_machine.specs.Closed.{FrameFits, IsClosed, Lasts, ScopeFits};

use js_machine::{Frame, Next, OperandFrame, State, ValueFrame};
use js_semantics::{Scope, StepFault};
use js_tree::NodeId;

/// Enters the node of an operand, and leaves a frame for its value.
pub fn enter_operand(
    state: &mut State,
    frame: OperandFrame,
    node: NodeId,
    scope: Scope,
) -> Result<Next, StepFault>
    ensures does { (nodes : List kind.Node) → IfOk result (λ next. Does nodes 6 (eval node scope (λ v. operand_rest nodes frame v)) state.old state.new next) }
    ensures closed { (nodes : List kind.Node) → IsClosed nodes state.old → FrameFits nodes state.old.heap.cells (Frame.OnValue (ValueFrame.Operand frame)) → ScopeFits nodes state.old.heap.cells scope → Lasts nodes state.old state.new result }
{
    state.enter(Frame::OnValue(ValueFrame::Operand(frame)), node, scope)
}

/// Enters a node whose value is that of the row.
pub fn pass(state: &mut State, node: NodeId, scope: Scope) -> Result<Next, StepFault>
    ensures does { (nodes : List kind.Node) → IfOk result (λ next. Does nodes 6 (eval node scope (λ v. give v)) state.old state.new next) }
    ensures closed { (nodes : List kind.Node) → IsClosed nodes state.old → ScopeFits nodes state.old.heap.cells scope → Lasts nodes state.old state.new result }
{
    state.jump(node, scope)
}
