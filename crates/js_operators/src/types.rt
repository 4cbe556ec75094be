//! What kind of thing a value is.
ghost use Rattle.std.specs.Prelude.{◌≡◌, ℕ, Some};
ghost use Rattle.std.specs.Option.{option_copied};
ghost use Rattle.js_semantics.specs.World.{World, cell_of, over};
ghost use Rattle.js_semantics.specs.Expressions.{is_callable, object_type, type_word};

use world_heap::{Cell, Heap, Value};

/// Whether a cell can be called (ECMA-262, 7.2.3: IsCallable).
pub fn is_callable(cell: Option<&Cell>) -> bool
    ensures { result ≡ is_callable (option_copied cell.entry) }
{
    match cell {
        Some(Cell::Closure { .. }) => true,
        Some(Cell::Native { .. }) => true,
        Some(Cell::Far { .. }) => true,
        _ => false,
    }
}

/// Whether a value can be called. It takes no memory, and its cost is constant.
pub fn is_callable_value(heap: &Heap, value: &Value) -> bool
    ensures { (w : World ℕ) → result ≡ is_callable (cell_of value.now (over heap.now w)) }
{
    match value {
        Value::Ref(loc) => match heap.get(*loc) {
            Some(cell) => is_callable(Some(cell)),
            None => false,
        },
        _ => false,
    }
}

// The word for the type of an object or a symbol.
fn object_word(cell: &Cell) -> &'static str
    ensures { result.now ≡ object_type (Some cell.now) }
{
    match cell {
        Cell::Closure { .. } => "function",
        Cell::Native { .. } => "function",
        Cell::Far { .. } => "function",
        Cell::Symbol { .. } => "symbol",
        _ => "object",
    }
}

/// The word that `typeof` gives for a value (ECMA-262, 13.5.3). It takes no memory, and its cost is constant.
pub fn type_word(heap: &Heap, value: &Value) -> &'static str
    ensures { (w : World ℕ) → result.now ≡ type_word value.now (over heap.now w) }
{
    match value {
        Value::Undefined => "undefined",
        Value::Null => "object",
        Value::Bool(_) => "boolean",
        Value::Num(_) => "number",
        Value::Str(_) => "string",
        Value::Ref(loc) => match heap.get(*loc) {
            Some(cell) => object_word(cell),
            None => "object",
        },
    }
}
