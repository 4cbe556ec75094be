//! Environments that rows make: for turns of loops, and for the names of patterns (ECMA-262, 9.1).
ghost use Rattle.std.specs.Prelude.{◌≡◌, map, nat_eq, MatchResult, Some};
ghost use Rattle.world_heap.specs.Maps.{find};
ghost use Rattle.js_names.specs.Patterns.{nodes_of};
ghost use Rattle.js_semantics.specs.Environments.{bindings_at, names_of, unready};
ghost use Rattle.js_semantics.specs.Statements.{inside};

use js_names::declare_pattern;
use js_semantics::{Scope, StepFault};
use js_tree::{NodeId, Tree};
use sqlite_items::Items;
use std::alloc::Global;
use world_heap::{Binding, Cell, Heap, Loc, Value};

/// The same receiver in another environment.
pub fn inside(env: Loc, scope: Scope) -> Scope
    ensures { result ≡ inside env scope }
{
    Scope {
        env,
        receiver: scope.receiver,
    }
}

// The same value again, where there is one.
fn copy_value(alloc: Global, value: &Option<Value>) -> Result<Option<Value>, StepFault>
    ensures { MatchResult result (λ copy. copy ≡ value.now) (λ fault. fault ≡ StepFault.Memory) }
{
    match value {
        Some(value) => Ok(Some(value.copy(alloc)?)),
        None => Ok(None),
    }
}

// The same binding again.
fn copy_binding(alloc: Global, binding: &Binding) -> Result<Binding, StepFault>
    ensures { MatchResult result (λ copy. copy ≡ binding.now) (λ fault. fault ≡ StepFault.Memory) }
{
    let name = binding.name.copy(alloc)?;
    let value = copy_value(alloc, &binding.value)?;
    Ok(Binding {
        name,
        value,
        fixed: binding.fixed,
    })
}

// The same bindings again.
fn copy_bindings(alloc: Global, bindings: &[Binding]) -> Result<Items<Binding>, StepFault>
    ensures { MatchResult result (λ copies. copies ≡ bindings.now) (λ fault. fault ≡ StepFault.Memory) }
{
    let mut copies = Items::new(alloc);
    'bindings: for binding in bindings {
        let copy = copy_binding(alloc, binding)?;
        copies.push(copy)?;
    }
    Ok(copies)
}

/// The environment around an environment, and its bindings.
pub type Found = Option<(Option<Loc>, Items<Binding>)>;

// What a cell has as an environment.
fn environment_in(alloc: Global, cell: &Cell) -> Result<Found, StepFault>
    ensures { MatchResult result (λ found. found ≡ bindings_at (Some cell.now)) (λ fault. fault ≡ StepFault.Memory) }
{
    match cell {
        Cell::Env { outer, bindings } => {
            let bindings = copy_bindings(alloc, bindings.as_slice())?;
            Ok(Some((*outer, bindings)))
        }
        _ => Ok(None),
    }
}

/// Copies an environment's bindings; `None` where no environment stands. The cost is linear in them.
pub fn environment_at(alloc: Global, heap: &Heap, env: Loc) -> Result<Found, StepFault>
    ensures { MatchResult result (λ found. found ≡ bindings_at (find nat_eq heap.now.cells env)) (λ fault. fault ≡ StepFault.Memory) }
{
    match heap.get(env) {
        Some(cell) => environment_in(alloc, cell),
        None => Ok(None),
    }
}

/// The bindings of a pattern's names, none of them ready.
pub fn pattern_bindings(
    alloc: Global,
    tree: &Tree,
    pattern: NodeId,
    fixed: bool,
) -> Result<Items<Binding>, StepFault>
    ensures { MatchResult result (λ bindings. bindings ≡ map (unready fixed) (names_of (nodes_of tree.now) pattern)) (λ fault. fault ≡ StepFault.Memory) }
{
    let mut bindings = Items::new(alloc);
    declare_pattern(alloc, tree, pattern, fixed, &mut bindings)?;
    Ok(bindings)
}
