//! Reading a name: of a binding, or of the global object (ECMA-262, 9.1.1.1.6 and 9.4.2).
ghost use Rattle.std.specs.Prelude.{◌≡◌, ℕ, List, IfOk, MatchResult, nat_eq};
ghost use Rattle.world_heap.specs.Heaps.{IsCell};
ghost use Rattle.world_heap.specs.declared.cell.Cell as kept;
ghost use Rattle.world_heap.specs.Over.{OptionOver};
ghost use Rattle.js_tree.specs.declared.node.Node as kind;
ghost use Rattle.js_names.specs.Patterns.{nodes_of};
ghost use Rattle.js_semantics.specs.Prog.{throw};
ghost use Rattle.js_semantics.specs.Access.{global_holder, read_name};
ghost use Rattle.js_semantics.specs.Environments.{binding_of};
ghost use Rattle.js_machine.specs.Closed.{AfterFits, IsClosed, Lasts, ValueFits};
ghost use Rattle.js_machine.specs.Does.{Does, world_of};
ghost use Rattle.js_machine.specs.Frames.{after_rest};
ghost use Rattle.js_calls.specs.Closed.{NamedFits};
ghost use Rattle.js_calls.specs.Naming.{named, read_by, value_named};

use crate::property::get;
use js_machine::{AfterFrame, Next, State, discard, is_cell};
use js_names::binding_of;
use js_semantics::{Fault, StepFault};
use js_tree::Tree;
use proto_props::find;
use std::alloc::Global;
use wl_text::Units;
use world_heap::{Binding, BuiltIn, Loc, Value};

/// What a name stands for where it is read: the value of a binding, a binding that isn't ready, a property of this global
/// object, or nothing.
#[derive(Drop)]
pub enum Named<L = Loc> {
    Held(Value<L>),
    Unready,
    Global(Value<L>),
    Nowhere,
}

// What a binding holds.
#[tactic(auto, unfolding(crate::specs::Naming::value_named))]
fn held(alloc: Global, binding: &Binding) -> Result<Named, StepFault>
    ensures is { IfOk result (λ is. is ≡ value_named binding.now.value) }
    ensures closed { (cells : List (ℕ × kept.Cell ℕ)) → OptionOver (ValueFits cells) binding.now.value → MatchResult result (λ is. NamedFits cells is) (λ fault. fault ≡ StepFault.Memory) }
{
    match &binding.value {
        Some(value) => Ok(Named::Held(value.copy(alloc)?)),
        None => Ok(Named::Unready),
    }
}

/// The global object, where it has a property of this name. The cost is linear in its chain of prototypes.
///
/// # Errors
/// `Dangling` where the global object stands nowhere.
pub fn global_holder(state: &State, name: &Units) -> Result<Option<Value>, StepFault>
    ensures is { (nodes : List kind.Node) (supply : ℕ → ℕ) → IfOk result (λ holder. holder ≡ global_holder name.now (world_of nodes supply state.now)) }
    ensures closed { (nodes : List kind.Node) → IsClosed nodes state.now → MatchResult result (λ holder. OptionOver (ValueFits state.now.heap.cells) holder) (λ fault. fault ≡ StepFault.Memory) }
{
    match state.built_in(BuiltIn::Global) {
        Some(global) => {
            if !is_cell(&state.heap, global) {
                return Err(StepFault::Dangling);
            }
            match find(&state.heap, global, name) {
                Some(_) => Ok(Some(Value::Ref(global))),
                None => Ok(None),
            }
        }
        None => Ok(None),
    }
}

/// What a name stands for in an environment: its innermost binding, else the global object's property. The cost is linear
/// in the environments around it and their bindings; a string is shared, not copied.
///
/// # Errors
/// `Memory` where there is none; `Dangling` where the global object stands nowhere.
#[inline(always)]
pub fn meaning_of(state: &State, env: Loc, name: &Units) -> Result<Named, StepFault>
    ensures is { (nodes : List kind.Node) (supply : ℕ → ℕ) → IfOk result (λ is. is ≡ named (binding_of env name.now (world_of nodes supply state.now)) (global_holder name.now (world_of nodes supply state.now))) }
    ensures closed { (nodes : List kind.Node) → IsClosed nodes state.now → MatchResult result (λ is. NamedFits state.now.heap.cells is) (λ fault. fault ≡ StepFault.Memory) }
{
    match binding_of(&state.heap, env, name) {
        Some((_, binding)) => held(state.alloc, binding),
        None => match global_holder(state, name)? {
            Some(global) => Ok(Named::Global(global)),
            None => Ok(Named::Nowhere),
        },
    }
}

// Goes on with what a name stands for.
#[tactic(auto, unfolding(crate::specs::Naming::read_by))]
fn read(
    state: &mut State,
    tree: &Tree,
    meant: Named,
    name: &Units,
    frame: AfterFrame,
) -> Result<Next, StepFault>
    ensures does { IfOk result (λ next. Does (nodes_of tree.now) 6 (read_by meant name.now (throw Fault.NotDefined) (λ v. after_rest (nodes_of tree.now) frame v)) state.old state.new next) }
    ensures closed { IsClosed (nodes_of tree.now) state.old → NamedFits state.old.heap.cells meant → AfterFits (nodes_of tree.now) state.old.heap.cells frame → Lasts (nodes_of tree.now) state.old state.new result }
{
    match meant {
        Named::Held(value) => state.hand(frame, value),
        Named::Unready => {
            discard(frame);
            state.throw(Fault::NotReady)
        }
        Named::Global(global) => get(state, tree, global, name, frame),
        Named::Nowhere => {
            discard(frame);
            state.throw(Fault::NotDefined)
        }
    }
}

/// Reads a name, over the frame of what is done with its value: its innermost binding, else the global object's property,
/// whose getter may be called. A binding that isn't ready, and a name that stands nowhere, throw. The cost is that of
/// `meaning_of`, and of `get` for a property.
///
/// # Errors
/// `Memory` where there is none; `Dangling` where a location was met that stands nowhere.
pub fn read_name(
    state: &mut State,
    tree: &Tree,
    env: Loc,
    name: &Units,
    frame: AfterFrame,
) -> Result<Next, StepFault>
    ensures does { IfOk result (λ next. Does (nodes_of tree.now) 6 (read_name env name.now (throw Fault.NotDefined) (λ v. after_rest (nodes_of tree.now) frame v)) state.old state.new next) }
    ensures closed { IsClosed (nodes_of tree.now) state.old → IsCell nat_eq state.old.heap.cells env → AfterFits (nodes_of tree.now) state.old.heap.cells frame → Lasts (nodes_of tree.now) state.old state.new result }
{
    let meant = meaning_of(state, env, name)?;
    read(state, tree, meant, name, frame)
}
