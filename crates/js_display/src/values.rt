//! What is shown of values inside an argument.
ghost use Rattle.std.specs.Prelude.{◌≡◌, ℕ, suc, OnOk, IfOk, IsTrue, Some, None, ◌∷◌, true, codes, nat_eq, length, MatchOption};
ghost use Rattle.std.specs.Map.{keys_of};
ghost use Rattle.world_heap.specs.declared.cell.Cell.TheVariants.{Object};
ghost use Rattle.world_heap.specs.declared.value.Value.TheVariants.{Ref};
ghost use Rattle.world_heap.specs.Maps.{find, stands};
ghost use Rattle.world_heap.specs.Keys.{ordered_names};
ghost use Rattle.js_semantics.specs.World.{World, over};
ghost use Rattle.js_semantics.specs.Display.{shown_value, shown_one, shown_array, shown_object, shown_items, shown_property, shown_properties, is_listed, listed, separator, between};
ghost use Rattle.js_display.specs.Line.{showing};
ghost use Rattle.js_display.specs.Levels.{opened, closed, listed_at, listed_under, is_any, dots};
ghost use Rattle.std.specs.Option.{option_copied};

use crate::cells::put_cell;
use crate::line::Line;
use std::alloc::{AllocError, Global};
use wl_text::Units;
use world_heap::{Body, Cell, Heap, Loc, Property, Table, Value};

// Whether a location is among these.
fn is_among(locs: &[Loc], loc: Loc) -> bool
    ensures { result ≡ stands nat_eq locs.now loc }
{
    'locs: for other in locs {
        if other.number() == loc.number() {
            return true;
        }
    }
    false
}

// A location before others.
fn with_first(alloc: Global, loc: Loc, locs: &[Loc]) -> Result<Vec<Loc>, AllocError>
    ensures { IfOk result (λ all. all.items ≡ loc ∷ locs.now) }
{
    let mut all = Vec::new(alloc);
    all.push(loc)?;
    all.extend_from_slice(locs)?;
    Ok(all)
}

// What stands before an element or a property.
fn separator(first: bool) -> &'static str
    ensures { result.now ≡ separator first }
{
    if first { "" } else { ", " }
}

// What stands for those that may not be shown.
fn dots(first: bool) -> &'static str
    ensures { result.now ≡ dots first }
{
    if first { "..." } else { ", ..." }
}

// Whether a property is listed.
fn is_listed(property: &Property) -> bool
    ensures { result ≡ is_listed property.now }
{
    match property {
        Property::Data { enumerable, .. } => *enumerable,
        Property::Access { enumerable, .. } => *enumerable,
    }
}

// The property under a name, where it is listed.
fn listed_at<'a>(properties: &'a Table<Property>, name: &Units) -> Option<&'a Property>
    ensures { option_copied result ≡ listed_at properties.now name.now }
{
    match properties.get(name) {
        None => None,
        Some(property) => {
            if is_listed(property) {
                Some(property)
            } else {
                None
            }
        }
    }
}

// Whether a property is listed under one of the names.
fn has_listed(names: &[Units], properties: &Table<Property>) -> bool
    ensures { result ≡ is_any (listed_under properties.now names.now) }
{
    'names: for name in names {
        if let Some(_) = listed_at(properties, name) {
            return true;
        }
    }
    false
}

// The names of the properties of an object, in the order of their keys.
fn names_of(alloc: Global, heap: &Heap, loc: Loc, body: &Body) -> Result<Vec<Units>, AllocError>
    requires { find nat_eq heap.now.cells loc ≡ Some (Object body.now) }
    ensures { IfOk result (λ names. names.items ≡ ordered_names (keys_of body.now.properties)) }
{
    heap.keys(alloc, loc)
}

/// Shows a value that stands in the objects at these locations, the innermost first; so many levels are opened.
///
/// The cost is linear in what is shown, but for the keys of each object that is met, which are sorted.
#[cycle(levels)]
pub(crate) fn show_value(
    alloc: Global,
    heap: &Heap,
    around: &[Loc],
    depth: u32,
    value: &Value,
    line: &mut Line,
) -> Result<(), AllocError>
    ensures { (w : World ℕ) → OnOk result (line.new ≡ showing (shown_value (over heap.now w) depth around.now value.now line.old.left) line.old) }
{
    match value {
        Value::Undefined => line.put_word("undefined"),
        Value::Null => line.put_word("null"),
        Value::Bool(true) => line.put_word("true"),
        Value::Bool(false) => line.put_word("false"),
        Value::Num(number) => line.put_number(alloc, *number),
        Value::Str(text) => line.put_quoted(text),
        Value::Ref(loc) => show_location(alloc, heap, around, depth, *loc, line),
    }
}

// Shows what stands at a location.
#[cycle(levels)]
fn show_location(
    alloc: Global,
    heap: &Heap,
    around: &[Loc],
    depth: u32,
    loc: Loc,
    line: &mut Line,
) -> Result<(), AllocError>
    ensures { (w : World ℕ) → OnOk result (line.new ≡ showing (shown_one (over heap.now w) (opened (over heap.now w) depth around.now) around.now (Ref loc) line.old.left) line.old) }
{
    if is_among(around, loc) {
        return line.put_word("[Circular]");
    }
    match heap.get(loc) {
        None => line.put_word(""),
        Some(Cell::Array { items, .. }) => {
            show_array(alloc, heap, around, depth, loc, items.as_slice(), line)
        }
        Some(Cell::Object { body }) => show_object(alloc, heap, around, depth, loc, body, line),
        Some(cell) => put_cell(alloc, line, cell),
    }
}

// Shows an array, which is opened where a level is left.
#[cycle(levels)]
fn show_array(
    alloc: Global,
    heap: &Heap,
    around: &[Loc],
    depth: u32,
    loc: Loc,
    items: &[Value],
    line: &mut Line,
) -> Result<(), AllocError>
    ensures { (w : World ℕ) → OnOk result (line.new ≡ showing (shown_array (over heap.now w) (opened (over heap.now w) depth around.now loc) items.now line.old.left) line.old) }
{
    if items.is_empty() {
        return line.put_word("[]");
    }
    if depth == 0 {
        return line.put_word("[Array]");
    }
    let around = with_first(alloc, loc, around)?;
    line.put_word("[")?;
    show_items(alloc, heap, around.as_slice(), depth - 1, items, line)
}

// Shows elements, and the bracket behind them.
#[cycle(levels)]
fn show_items(
    alloc: Global,
    heap: &Heap,
    around: &[Loc],
    depth: u32,
    items: &[Value],
    line: &mut Line,
) -> Result<(), AllocError>
    ensures { (w : World ℕ) → OnOk result (line.new ≡ showing (closed (codes "]") (shown_items (over heap.now w) (shown_value (over heap.now w) depth around.now) true items.now line.old.left)) line.old) }
{
    let mut first = true;
    'items: for item in items {
        if !line.spend() {
            line.put_word(dots(first))?;
            return line.put_word("]");
        }
        line.put_word(separator(first))?;
        show_value(alloc, heap, around, depth, item, line)?;
        first = false;
    }
    line.put_word("]")
}

// Shows an object, which is opened where a level is left.
#[cycle(levels)]
fn show_object(
    alloc: Global,
    heap: &Heap,
    around: &[Loc],
    depth: u32,
    loc: Loc,
    body: &Body,
    line: &mut Line,
) -> Result<(), AllocError>
    requires { find nat_eq heap.now.cells loc ≡ Some (Object body.now) }
    ensures { (w : World ℕ) → OnOk result (line.new ≡ showing (shown_object (over heap.now w) (opened (over heap.now w) depth around.now loc) (listed body.now) line.old.left) line.old) }
{
    let names = names_of(alloc, heap, loc, body)?;
    if !has_listed(names.as_slice(), &body.properties) {
        return line.put_word("{}");
    }
    if depth == 0 {
        return line.put_word("[Object]");
    }
    let around = with_first(alloc, loc, around)?;
    line.put_word("{")?;
    show_properties(
        alloc,
        heap,
        around.as_slice(),
        depth - 1,
        names.as_slice(),
        &body.properties,
        line,
    )
}

// Shows the listed properties under these names, and the brace behind them.
#[cycle(levels)]
fn show_properties(
    alloc: Global,
    heap: &Heap,
    around: &[Loc],
    depth: u32,
    names: &[Units],
    properties: &Table<Property>,
    line: &mut Line,
) -> Result<(), AllocError>
    ensures { (w : World ℕ) → OnOk result (line.new ≡ showing (closed (codes "}") (shown_properties (over heap.now w) (shown_value (over heap.now w) depth around.now) true (listed_under properties.now names.now) line.old.left)) line.old) }
{
    let mut first = true;
    'names: for name in names {
        let Some(property) = listed_at(properties, name) else {
            continue;
        };
        if !line.spend() {
            line.put_word(dots(first))?;
            return line.put_word("}");
        }
        line.put_word(separator(first))?;
        line.put_key(name)?;
        line.put_word(": ")?;
        show_property(alloc, heap, around, depth, property, line)?;
        first = false;
    }
    line.put_word("}")
}

// Shows a property.
#[cycle(levels)]
fn show_property(
    alloc: Global,
    heap: &Heap,
    around: &[Loc],
    depth: u32,
    property: &Property,
    line: &mut Line,
) -> Result<(), AllocError>
    ensures { (w : World ℕ) → OnOk result (line.new ≡ showing (shown_property (over heap.now w) (shown_value (over heap.now w) depth around.now) property.now line.old.left) line.old) }
{
    match property {
        Property::Data { value, .. } => show_value(alloc, heap, around, depth, value, line),
        Property::Access { .. } => line.put_word("[Accessor]"),
    }
}
