//! Whether values may stand in a cell of a heap. That they always do isn't proved yet, so it is tested.
ghost use Rattle.std.specs.Prelude.{◌≡◌, true, nat_eq};
ghost use Rattle.world_heap.specs.Heaps.{IsCell, IsNoEnv, is_env};
ghost use Rattle.world_heap.specs.Over.{ListOver, OptionOver, ValueOver};

use world_heap::{Binding, Cell, Heap, Loc, Value};

// Whether a cell is an environment.
fn is_environment(cell: &Cell) -> bool
    ensures { result ≡ is_env cell.now }
{
    matches!(cell, Cell::Env { .. })
}

/// Whether a location is that of a cell that is no environment.
pub fn is_object(heap: &Heap, loc: Loc) -> bool
    ensures fits { result ≡ true → IsNoEnv nat_eq heap.now.cells loc }
    ensures only { IsNoEnv nat_eq heap.now.cells loc → result ≡ true }
{
    match heap.get(loc) {
        Some(cell) => !is_environment(cell),
        None => false,
    }
}

/// Whether a location is that of a cell.
pub fn is_cell(heap: &Heap, loc: Loc) -> bool
    ensures fits { result ≡ true → IsCell nat_eq heap.now.cells loc }
    ensures only { IsCell nat_eq heap.now.cells loc → result ≡ true }
{
    match heap.get(loc) {
        Some(_) => true,
        None => false,
    }
}

/// Whether a prototype is there and is no environment, where there is one.
pub fn is_prototype(heap: &Heap, proto: &Option<Loc>) -> bool
    ensures fits { result ≡ true → OptionOver (IsNoEnv nat_eq heap.now.cells) proto.now }
    ensures only { OptionOver (IsNoEnv nat_eq heap.now.cells) proto.now → result ≡ true }
{
    match proto {
        Some(loc) => is_object(heap, *loc),
        None => true,
    }
}

/// Whether an outer environment is there, where there is one.
pub fn is_outer(heap: &Heap, outer: &Option<Loc>) -> bool
    ensures fits { result ≡ true → OptionOver (IsCell nat_eq heap.now.cells) outer.now }
    ensures only { OptionOver (IsCell nat_eq heap.now.cells) outer.now → result ≡ true }
{
    match outer {
        Some(loc) => is_cell(heap, *loc),
        None => true,
    }
}

/// Whether a value may stand in a cell: its number is in range, or its location is that of an object or a symbol.
pub fn is_fit(heap: &Heap, value: &Value) -> bool
    ensures fits { result ≡ true → ValueOver (IsNoEnv nat_eq heap.now.cells) value.now }
    ensures only { ValueOver (IsNoEnv nat_eq heap.now.cells) value.now → result ≡ true }
{
    match value {
        Value::Num(number) => {
            *number >= -9_007_199_254_740_991 && *number <= 9_007_199_254_740_991
        }
        Value::Ref(loc) => is_object(heap, *loc),
        Value::Undefined | Value::Null | Value::Bool(_) | Value::Str(_) => true,
    }
}

/// Whether an optional value may stand in a cell.
pub fn is_fit_option(heap: &Heap, value: &Option<Value>) -> bool
    ensures fits { result ≡ true → OptionOver (ValueOver (IsNoEnv nat_eq heap.now.cells)) value.now }
    ensures only { OptionOver (ValueOver (IsNoEnv nat_eq heap.now.cells)) value.now → result ≡ true }
{
    match value {
        Some(value) => is_fit(heap, value),
        None => true,
    }
}

/// Whether all these values may stand in a cell. The cost is linear in them.
pub fn are_fit(heap: &Heap, values: &[Value]) -> bool
    ensures fits { result ≡ true → ListOver (ValueOver (IsNoEnv nat_eq heap.now.cells)) values.now }
    ensures only { ListOver (ValueOver (IsNoEnv nat_eq heap.now.cells)) values.now → result ≡ true }
{
    'values: for value in values {
        if !is_fit(heap, value) {
            return false;
        }
    }
    true
}

/// Whether all values of bindings may stand in a cell. The cost is linear in the bindings.
pub fn are_fit_bindings(heap: &Heap, bindings: &[Binding]) -> bool
    ensures fits { result ≡ true → ListOver (λ b. OptionOver (ValueOver (IsNoEnv nat_eq heap.now.cells)) b.value) bindings.now }
    ensures only { ListOver (λ b. OptionOver (ValueOver (IsNoEnv nat_eq heap.now.cells)) b.value) bindings.now → result ≡ true }
{
    'bindings: for binding in bindings {
        if !is_fit_option(heap, &binding.value) {
            return false;
        }
    }
    true
}
