//! Scopes and values once more.
ghost use Rattle.std.specs.Prelude.{◌≡◌, MatchResult};

use js_semantics::{Scope, StepFault};
use sqlite_items::Items;
use std::alloc::Global;
use world_heap::Value;

/// The same scope again. The cost is constant, but where its receiver is a string linear in the units.
///
/// # Errors
/// `Memory` where there is none.
pub fn copy_scope(alloc: Global, scope: &Scope) -> Result<Scope, StepFault>
    ensures { MatchResult result (λ copy. copy ≡ scope.now) (λ fault. fault ≡ StepFault.Memory) }
{
    let receiver = scope.receiver.copy(alloc)?;
    Ok(Scope {
        env: scope.env,
        receiver,
    })
}

/// The same values again. The cost is linear in the values, and in the units of strings among them.
///
/// # Errors
/// `Memory` where there is none.
pub fn copy_values(alloc: Global, values: &[Value]) -> Result<Items<Value>, StepFault>
    ensures { MatchResult result (λ copies. copies ≡ values.now) (λ fault. fault ≡ StepFault.Memory) }
{
    let mut copies = Items::new(alloc);
    'values: for value in values {
        let copy = value.copy(alloc)?;
        copies.push(copy)?;
    }
    Ok(copies)
}
