//! The values of literals, of `this`, and of names that are bound (ECMA-262, 13.1 and 13.2).
ghost use Rattle.std.specs.Prelude.{◌≡◌, ℕ, List, Some, IfOk, MatchResult};
ghost use Rattle.js_tree.specs.declared.node.Node as kind;
ghost use Rattle.world_heap.specs.Over.{OptionOver};
ghost use Rattle.js_semantics.specs.Environments.{binding_of};
ghost use Rattle.js_semantics.specs.Operators.{literal_number};
ghost use Rattle.js_machine.specs.Closed.{IsClosed, ScopeFits, ValueFits};
ghost use Rattle.js_machine.specs.Does.{world_of};
ghost use Rattle.js_primary.specs.AtHand.{at_hand, held, name_at_hand, ready};

use js_calls::{Named, meaning_of};
use js_machine::{State, discard};
use js_semantics::{Scope, StepFault};
use js_tree::Node;
use std::alloc::Global;
use wl_text::Units;
use world_heap::{Loc, Value};

/// The greatest whole number that a value may be.
const GREATEST: i64 = 9_007_199_254_740_991;

/// The value of a number's literal (ECMA-262, 12.9.3): one that no script may have, which no text spells, counts as 0.
pub fn number_value(number: &i64) -> Value
    ensures { result ≡ Value.Num (literal_number number.now) }
{
    let value = *number;
    if -GREATEST <= value && value <= GREATEST {
        Value::Num(value)
    } else {
        Value::Num(0)
    }
}

// The same value again.
#[inline(always)]
fn copied(alloc: Global, value: &Value) -> Result<Option<Value>, StepFault>
    ensures { MatchResult result (λ copy. copy ≡ Some value.now) (λ fault. fault ≡ StepFault.Memory) }
{
    Ok(Some(value.copy(alloc)?))
}

// The value of a string literal.
fn text_value(alloc: Global, text: &Units) -> Result<Option<Value>, StepFault>
    ensures { MatchResult result (λ value. value ≡ Some (Value.Str text.now)) (λ fault. fault ≡ StepFault.Memory) }
{
    Ok(Some(Value::Str(text.copy(alloc)?)))
}

// The value that a name stands for as a binding.
#[inline(always)]
#[tactic(auto, unfolding(crate::specs::AtHand::held))]
fn held(meant: Named) -> Option<Value>
    ensures { result ≡ held meant }
{
    match meant {
        Named::Held(value) => Some(value),
        other => {
            discard(other);
            None
        }
    }
}

// The value of a name's innermost binding, where it is ready.
#[inline(always)]
fn bound(state: &State, env: Loc, name: &Units) -> Result<Option<Value>, StepFault>
    ensures is { (nodes : List kind.Node) (supply : ℕ → ℕ) → IfOk result (λ found. found ≡ ready (binding_of env name.now (world_of nodes supply state.now))) }
    ensures closed { (nodes : List kind.Node) → IsClosed nodes state.now → MatchResult result (λ found. OptionOver (ValueFits state.now.heap.cells) found) (λ fault. fault ≡ StepFault.Memory) }
{
    let meant = meaning_of(state, env, name)?;
    Ok(held(meant))
}

/// The value of a node that is a name, where its innermost binding from an environment on is ready; `None` for any other
/// node. The cost is that of `meaning_of`.
///
/// # Errors
/// Those of `meaning_of`.
#[tactic(auto, unfolding(crate::specs::AtHand::name_at_hand))]
pub(crate) fn name_at_hand(state: &State, node: &Node, env: Loc) -> Result<Option<Value>, StepFault>
    ensures is { (nodes : List kind.Node) (supply : ℕ → ℕ) → IfOk result (λ found. found ≡ name_at_hand (Some node.now) env (world_of nodes supply state.now)) }
    ensures closed { (nodes : List kind.Node) → IsClosed nodes state.now → MatchResult result (λ found. OptionOver (ValueFits state.now.heap.cells) found) (λ fault. fault ≡ StepFault.Memory) }
{
    match node {
        Node::Name(name) => bound(state, env, name),
        _ => Ok(None),
    }
}

/// The value of a node, where it is at hand: that of a literal, of `this`, or of a name with a binding that is ready. `None`
/// for any other node, and for a name that is no binding's or isn't ready. The cost for a name is linear in the
/// environments around it and their bindings, and in the chain of the global object's prototypes where none binds it; a
/// string is shared, not copied.
///
/// # Errors
/// `Memory` where there is none; `Dangling` where the global object stands nowhere, which is never in a closed state.
#[inline(always)]
#[tactic(auto, unfolding(crate::specs::AtHand::at_hand))]
pub(crate) fn value_at_hand(
    state: &State,
    node: &Node,
    scope: &Scope,
) -> Result<Option<Value>, StepFault>
    ensures is { (nodes : List kind.Node) (supply : ℕ → ℕ) → IfOk result (λ found. found ≡ at_hand (Some node.now) scope.now (world_of nodes supply state.now)) }
    ensures closed { (nodes : List kind.Node) → IsClosed nodes state.now → ScopeFits nodes state.now.heap.cells scope.now → MatchResult result (λ found. OptionOver (ValueFits state.now.heap.cells) found) (λ fault. fault ≡ StepFault.Memory) }
{
    match node {
        Node::Name(name) => bound(state, scope.env, name),
        Node::Num(number) => Ok(Some(number_value(number))),
        Node::Str(text) => text_value(state.alloc, text),
        Node::Bool(truth) => Ok(Some(Value::Bool(*truth))),
        Node::Null => Ok(Some(Value::Null)),
        Node::This => copied(state.alloc, &scope.receiver),
        _ => Ok(None),
    }
}
