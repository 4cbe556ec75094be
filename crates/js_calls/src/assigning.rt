//! Writing a name: a binding, or a property of the global object (ECMA-262, 6.2.5.6: PutValue; 9.1.1.1.5).
ghost use Rattle.std.specs.Prelude.{◌≡◌, ℕ, List, IfOk, MatchResult};
ghost use Rattle.js_tree.specs.declared.node.Node as kind;
ghost use Rattle.js_names.specs.Patterns.{nodes_of};
ghost use Rattle.js_semantics.specs.Prog.{change, give, throw};
ghost use Rattle.js_semantics.specs.Access.{global_holder, write_name};
ghost use Rattle.js_semantics.specs.Environments.{bind_in, binding_of};
ghost use Rattle.js_machine.specs.Closed.{IsClosed, Lasts, ValueFits};
ghost use Rattle.js_machine.specs.Does.{Does, world_of};
ghost use Rattle.js_calls.specs.Assigning.{binding_target, target_of, write_by};
ghost use Rattle.js_calls.specs.Closed.{TargetFits};

use crate::naming::global_holder;
use crate::setting::set;
use js_machine::{Next, State, discard};
use js_names::{bind_in, binding_of};
use js_semantics::{Fault, Outcome, StepFault};
use js_tree::Tree;
use wl_text::Units;
use world_heap::{Binding, Loc, Value};

/// What a name stands for where it is written: a binding of this environment, which can be written or isn't ready or is
/// fixed; a property of this global object; or nothing.
#[derive(Drop)]
pub enum Target<L = Loc> {
    Open(L),
    Unready,
    Fixed,
    Global(Value<L>),
    Nowhere,
}

// What a binding of an environment is where it is written.
#[tactic(auto, unfolding(crate::specs::Assigning::binding_target))]
fn binding_target(env: Loc, binding: &Binding) -> Target
    ensures { result ≡ binding_target env binding.now.value binding.now.fixed }
{
    match binding.value {
        Some(_) => {
            if binding.fixed {
                Target::Fixed
            } else {
                Target::Open(env)
            }
        }
        None => Target::Unready,
    }
}

// What a name stands for where it is written.
#[tactic(auto, unfolding(crate::specs::Assigning::target_of))]
#[inline(always)]
fn target_of(state: &State, env: Loc, name: &Units) -> Result<Target, StepFault>
    ensures is { (nodes : List kind.Node) (supply : ℕ → ℕ) → IfOk result (λ target. target ≡ target_of (binding_of env name.now (world_of nodes supply state.now)) (global_holder name.now (world_of nodes supply state.now))) }
    ensures closed { (nodes : List kind.Node) → IsClosed nodes state.now → MatchResult result (λ target. TargetFits state.now.heap.cells target) (λ fault. fault ≡ StepFault.Memory) }
{
    match binding_of(&state.heap, env, name) {
        Some(found) => Ok(binding_target(found.0, found.1)),
        None => match global_holder(state, name)? {
            Some(global) => Ok(Target::Global(global)),
            None => Ok(Target::Nowhere),
        },
    }
}

// Gives a binding a value, and ends the row with another.
fn rebind(
    state: &mut State,
    env: Loc,
    name: &Units,
    value: Value,
    result_value: Value,
) -> Result<Next, StepFault>
    ensures does { (nodes : List kind.Node) → IfOk result (λ next. Does nodes 4 (change (bind_in env name.now value) (give result_value)) state.old state.new next) }
    ensures closed { (nodes : List kind.Node) → IsClosed nodes state.old → ValueFits state.old.heap.cells value → ValueFits state.old.heap.cells result_value → Lasts nodes state.old state.new result }
{
    bind_in(state.alloc, &mut state.heap, env, name, value)?;
    state.give(Outcome::Normal(result_value))
}

// Throws, and writes nothing.
fn refuse(
    state: &mut State,
    fault: Fault,
    value: Value,
    result_value: Value,
) -> Result<Next, StepFault>
    ensures does { (nodes : List kind.Node) → IfOk result (λ next. Does nodes 4 (throw fault) state.old state.new next) }
    ensures closed { (nodes : List kind.Node) → IsClosed nodes state.old → Lasts nodes state.old state.new result }
{
    discard(value);
    discard(result_value);
    state.throw(fault)
}

// Writes what a name stands for.
#[tactic(auto, unfolding(crate::specs::Assigning::write_by))]
#[inline(always)]
fn write(
    state: &mut State,
    tree: &Tree,
    target: Target,
    name: &Units,
    value: Value,
    result_value: Value,
) -> Result<Next, StepFault>
    ensures does { IfOk result (λ next. Does (nodes_of tree.now) 4 (write_by target name.now value (give result_value)) state.old state.new next) }
    ensures closed { IsClosed (nodes_of tree.now) state.old → TargetFits state.old.heap.cells target → ValueFits state.old.heap.cells value → ValueFits state.old.heap.cells result_value → Lasts (nodes_of tree.now) state.old state.new result }
{
    match target {
        Target::Open(env) => rebind(state, env, name, value, result_value),
        Target::Unready => refuse(state, Fault::NotReady, value, result_value),
        Target::Fixed => refuse(state, Fault::ReadOnly, value, result_value),
        Target::Global(global) => {
            let key = name.copy(state.alloc)?;
            set(state, tree, global, key, value, result_value)
        }
        Target::Nowhere => refuse(state, Fault::NotDefined, value, result_value),
    }
}

/// Writes a name, and then gives another value as that of the row: its innermost binding, else the global object's
/// property, whose setter may be called. A binding that isn't ready or is fixed, and a name that stands nowhere, throw.
/// The cost is linear in the environments around and their bindings, and that of `set` for a property.
///
/// # Errors
/// `Memory` where there is none; `Dangling` where a location was met that stands nowhere.
#[inline(always)]
pub fn write_name(
    state: &mut State,
    tree: &Tree,
    env: Loc,
    name: &Units,
    value: Value,
    result_value: Value,
) -> Result<Next, StepFault>
    ensures does { IfOk result (λ next. Does (nodes_of tree.now) 4 (write_name env name.now value (give result_value)) state.old state.new next) }
    ensures closed { IsClosed (nodes_of tree.now) state.old → ValueFits state.old.heap.cells value → ValueFits state.old.heap.cells result_value → Lasts (nodes_of tree.now) state.old state.new result }
{
    let target = target_of(state, env, name)?;
    write(state, tree, target, name, value, result_value)
}
