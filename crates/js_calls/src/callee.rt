//! What is called.
ghost use Rattle.std.specs.Prelude.{◌≡◌, ℕ, IfOk, MatchResult, Some};
ghost use Rattle.js_semantics.specs.World.{World, cell_of, over};
ghost use Rattle.js_calls.specs.Callees.{callee_in};
ghost use Rattle.js_calls.specs.Closed.{CalleeFits};

use js_semantics::StepFault;
use std::alloc::Global;
use world_heap::{Cell, Heap, Loc, Value};

/// A function that can be called (ECMA-262, 7.2.3: IsCallable): a closure of a node, with the receiver that an arrow
/// function keeps, or a built-in function.
#[derive(Drop)]
pub enum Callee<L = Loc> {
    Closure {
        node: u32,
        env: L,
        receiver: Option<Value<L>>,
    },
    Native {
        id: u16,
    },
    Other,
}

// The same value again, where there is one.
fn copy_kept(alloc: Global, value: &Option<Value>) -> Result<Option<Value>, StepFault>
    ensures { MatchResult result (λ copy. copy ≡ value.now) (λ fault. fault ≡ StepFault.Memory) }
{
    match value {
        Some(value) => Ok(Some(value.copy(alloc)?)),
        None => Ok(None),
    }
}

// The function that a cell is.
#[tactic(auto, unfolding(crate::specs::Callees::callee_in))]
fn cell_callee(alloc: Global, cell: &Cell) -> Result<Callee, StepFault>
    ensures { MatchResult result (λ callee. callee ≡ callee_in (Some cell.now)) (λ fault. fault ≡ StepFault.Memory) }
{
    match cell {
        Cell::Closure {
            node,
            env,
            receiver,
            ..
        } => {
            let receiver = copy_kept(alloc, receiver)?;
            Ok(Callee::Closure {
                node: *node,
                env: *env,
                receiver,
            })
        }
        Cell::Native { id, .. } => Ok(Callee::Native { id: *id }),
        _ => Ok(Callee::Other),
    }
}

/// The function that a value is. The cost is constant, but where an arrow function keeps a string linear in its units.
///
/// # Errors
/// `Memory` where there is none.
#[tactic(auto, unfolding(crate::specs::Callees::callee_in))]
pub fn callee_of(alloc: Global, heap: &Heap, value: &Value) -> Result<Callee, StepFault>
    ensures is { (w : World ℕ) → IfOk result (λ callee. callee ≡ callee_in (cell_of value.now (over heap.now w))) }
    ensures closed { MatchResult result (λ callee. CalleeFits heap.now.cells callee) (λ fault. fault ≡ StepFault.Memory) }
{
    match value {
        Value::Ref(loc) => match heap.get(*loc) {
            Some(cell) => cell_callee(alloc, cell),
            None => Ok(Callee::Other),
        },
        _ => Ok(Callee::Other),
    }
}
