//! Names of environments that get values (ECMA-262, 9.1.1.1.4 and 9.1.1.1.5).
ghost use Rattle.std.specs.Prelude.{◌≡◌, ℕ, IsTrue, MatchResult, OnOk, OnErr, nat_eq};
ghost use Rattle.world_heap.specs.Over.{ValueOver};
ghost use Rattle.world_heap.specs.Heaps.{IsNoEnv};
ghost use Rattle.js_semantics.specs.World.{World, over};
ghost use Rattle.js_semantics.specs.Environments.{bind_in, fill_name};
ghost use Rattle.js_names.specs.Growing.{Grows};

use crate::place::{binding_of, place_at};
use js_semantics::StepFault;
use std::alloc::Global;
use wl_text::Units;
use world_heap::{Binding, Cell, Heap, Loc, Value};

/// The greatest whole number that a value may be.
const GREATEST: i64 = 9_007_199_254_740_991;

// Lets a value go. A generic function keeps the cases of its drop out of its callers' proofs.
fn discard<T: Drop>(_value: T) {}

// Whether a location is that of a cell that is no environment.
fn is_object(heap: &Heap, loc: Loc) -> bool
    ensures fits { IsTrue result → IsNoEnv nat_eq heap.now.cells loc }
    ensures only { IsNoEnv nat_eq heap.now.cells loc → IsTrue result }
{
    match heap.get(loc) {
        Some(cell) => !matches!(cell, Cell::Env { .. }),
        None => false,
    }
}

// Whether a value may stand in a cell of the heap: its number is in range, and its location is that of an object.
fn may_stand(heap: &Heap, value: &Value) -> bool
    ensures fits { IsTrue result → ValueOver (IsNoEnv nat_eq heap.now.cells) value.now }
    ensures only { ValueOver (IsNoEnv nat_eq heap.now.cells) value.now → IsTrue result }
{
    match value {
        Value::Num(n) => -GREATEST <= *n && *n <= GREATEST,
        Value::Ref(loc) => is_object(heap, *loc),
        _ => true,
    }
}

/// Gives a name of an environment a value (ECMA-262, 9.1.1.1.4: InitializeBinding, and 9.1.1.1.5: SetMutableBinding,
/// whose tests the caller makes). Where the location is no environment, or the environment doesn't bind the name,
/// nothing changes.
///
/// Errors, after which the heap is as it was: `Dangling` where the value's location is no object's, or its number isn't
/// from -(2^53-1) to 2^53-1; `Memory` where memory runs out: the name is copied. The cost is linear in the
/// environment's bindings.
#[inline(always)]
pub fn bind_in(
    alloc: Global,
    heap: &mut Heap,
    env: Loc,
    name: &Units,
    value: Value,
) -> Result<(), StepFault>
    ensures is { OnOk result ((w : World ℕ) → over heap.new w ≡ bind_in env name.now value (over heap.old w)) }
    ensures rest { heap.new ≡ record heap.old { cells = heap.new.cells } }
    ensures err { OnErr result (heap.new ≡ heap.old) }
    ensures closed { ValueOver (IsNoEnv nat_eq heap.old.cells) value → MatchResult result (λ done. Grows heap.old.cells heap.new.cells) (λ fault. fault ≡ StepFault.Memory) }
{
    if !may_stand(heap, &value) {
        discard(value);
        return Err(StepFault::Dangling);
    }
    match place_at(heap, env, name) {
        Some((place, fixed)) => {
            let name = match name.copy(alloc) {
                Ok(name) => name,
                Err(_) => {
                    discard(value);
                    return Err(StepFault::Memory);
                }
            };
            let value = Some(value);
            heap.set_binding(env, place, Binding { name, value, fixed });
            Ok(())
        }
        None => {
            discard(value);
            Ok(())
        }
    }
}

/// Gives the innermost binding of a name a value; where no environment from this one on binds it, nothing changes.
///
/// Errors as those of `bind_in`. The cost is linear in the bindings of the environments that are searched.
pub fn fill_name(
    alloc: Global,
    heap: &mut Heap,
    env: Loc,
    name: &Units,
    value: Value,
) -> Result<(), StepFault>
    ensures is { OnOk result ((w : World ℕ) → over heap.new w ≡ fill_name env name.now value (over heap.old w)) }
    ensures rest { heap.new ≡ record heap.old { cells = heap.new.cells } }
    ensures err { OnErr result (heap.new ≡ heap.old) }
    ensures closed { ValueOver (IsNoEnv nat_eq heap.old.cells) value → MatchResult result (λ done. Grows heap.old.cells heap.new.cells) (λ fault. fault ≡ StepFault.Memory) }
{
    let at = match binding_of(heap, env, name) {
        Some(found) => found.0,
        None => {
            discard(value);
            return Ok(());
        }
    };
    bind_in(alloc, heap, at, name, value)?;
    Ok(())
}
