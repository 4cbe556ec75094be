//! The parcel of a JSON value.
ghost use Rattle.std.specs.Prelude.{◌≡◌, ◌<◌, ◌≤◌, ◌+◌, IfOk, IsTrue, length, option_map, string_bytes};
ghost use Rattle.serde_json.specs.View.{view, number_view, items_view, members_view};
ghost use Rattle.serde_json.specs.Find.{as_i64};
ghost use Rattle.parcel.specs.Checked.{IsChecked};
ghost use Rattle.parcel.specs.Plain.{IsPlain, ports_below};
ghost use Rattle.wire_input.specs.Input.{text_of, value_placed, member_placed, items_placed, class_placed, classes_placed, node_placed, parcel_of_value, parcel_of};
ghost use Rattle.wire_input.specs.Answer.{Answers, Places, TextAnswers};

use crate::InputFault;
use crate::key::{NAMES, class_of};
use parcel::{Item, PNode, Parcel, check};
use serde_json::{Map, Number, Value};
use sqlite_items::Items;
use std::alloc::Global;
use wl_text::{TextFault, Units};

/// The greatest number of nodes in a copy.
const NODES: usize = 100_000;

/// The parcel of a JSON text: strings are their UTF-16 units, an object's keys are array indices ascending and then the
/// others in byte order of their UTF-8, and of a key that stands twice the last value counts. The parcel is checked, and
/// has no functions, promises and ports.
///
/// The fault is `Json` exactly where `serde_json` doesn't read the bytes for another cause than memory. It is `Shape`
/// exactly where they are read, and a number isn't whole (as `serde_json` gives an i64 or u64) or not in range, or the
/// value is over the limits of a copy or of one string.
pub fn parcel_of_json(alloc: Global, bytes: &[u8]) -> Result<Parcel, InputFault>
    ensures exact { Answers result (parcel_of bytes.now) }
    ensures checked { IfOk result IsChecked }
    ensures plain { IfOk result IsPlain }
    ensures ports { IfOk result (λ parcel. IsTrue (ports_below 0 parcel)) }
{
    match Value::from_slice(alloc, bytes) {
        Ok(value) => parcel_of_value(alloc, &value),
        Err(error) => {
            if error.is_memory() {
                return Err(InputFault::Memory);
            }
            Err(InputFault::Json)
        }
    }
}

// The parcel of a value that was read.
fn parcel_of_value(alloc: Global, value: &Value) -> Result<Parcel, InputFault>
    ensures exact { Answers result (parcel_of_value (view value.now)) }
    ensures checked { IfOk result IsChecked }
    ensures plain { IfOk result IsPlain }
    ensures ports { IfOk result (λ parcel. IsTrue (ports_below 0 parcel)) }
{
    let mut nodes = Items::new(alloc);
    let root = match place(alloc, value, &mut nodes) {
        Ok(root) => root,
        Err(fault) => return Err(fault),
    };
    let parcel = Parcel { root, nodes };
    if !check(&parcel) {
        return Err(InputFault::Shape);
    }
    Ok(parcel)
}

// A value as an item, its nodes behind those that stand.
#[cycle(place)]
fn place(alloc: Global, value: &Value, nodes: &mut Items<PNode>) -> Result<Item, InputFault>
    ensures { Places result nodes.old nodes.new (value_placed (view value.now) (length nodes.old)) }
{
    match value {
        Value::Null => Ok(Item::Null),
        Value::Bool(b) => Ok(Item::Bool(*b)),
        Value::Number(n) => match whole_number(n) {
            Some(item) => Ok(item),
            None => Err(InputFault::Shape),
        },
        Value::String(text) => match text_of(alloc, text.as_str()) {
            Ok(units) => Ok(Item::Str(units)),
            Err(fault) => Err(fault),
        },
        Value::Array(values) => place_array(alloc, values, nodes),
        Value::Object(members) => place_object(alloc, members, nodes),
    }
}

// An array: its node takes the next number.
#[cycle(place)]
fn place_array(
    alloc: Global,
    values: &Vec<Value>,
    nodes: &mut Items<PNode>,
) -> Result<Item, InputFault>
    ensures { Places result nodes.old nodes.new (node_placed (λ items. PNode.Array items) (items_placed (items_view values.now.items)) (length nodes.old)) }
{
    let number = nodes.len();
    if number >= NODES {
        return Err(InputFault::Shape);
    }
    nodes.push(PNode::Port(0))?;
    match place_items(alloc, values, nodes) {
        Ok(items) => {
            nodes.set(number, PNode::Array(items));
            Ok(Item::Node(number as u32))
        }
        Err(fault) => Err(fault),
    }
}

// The items of an array.
#[cycle(place)]
fn place_items(
    alloc: Global,
    values: &Vec<Value>,
    nodes: &mut Items<PNode>,
) -> Result<Items<Item>, InputFault>
    ensures { Places result nodes.old nodes.new (items_placed (items_view values.now.items) (length nodes.old)) }
{
    let mut items = Items::new(alloc);
    'values: for value in values {
        match place(alloc, value, nodes) {
            Ok(item) => items.push(item)?,
            Err(fault) => return Err(fault),
        }
    }
    Ok(items)
}

// An object: its node takes the next number.
#[cycle(place)]
fn place_object(
    alloc: Global,
    members: &Map<String, Value>,
    nodes: &mut Items<PNode>,
) -> Result<Item, InputFault>
    ensures { Places result nodes.old nodes.new (node_placed (λ properties. PNode.Object properties)
        (classes_placed (class_placed (members_view members.now.entries)) 11 1) (length nodes.old)) }
{
    let number = nodes.len();
    if number >= NODES {
        return Err(InputFault::Shape);
    }
    nodes.push(PNode::Port(0))?;
    match place_classes(alloc, members, nodes) {
        Ok(properties) => {
            nodes.set(number, PNode::Object(properties));
            Ok(Item::Node(number as u32))
        }
        Err(fault) => Err(fault),
    }
}

// The properties of an object, class by class.
#[cycle(place)]
fn place_classes(
    alloc: Global,
    members: &Map<String, Value>,
    nodes: &mut Items<PNode>,
) -> Result<Items<(Units, Item)>, InputFault>
    ensures { Places result nodes.old nodes.new (classes_placed (class_placed (members_view members.now.entries)) 11 1 (length nodes.old)) }
{
    let mut properties = Items::new(alloc);
    'classes: for class in 1..NAMES + 1 {
        match place_class(alloc, members, class, nodes) {
            Ok(more) => properties.append(more)?,
            Err(fault) => return Err(fault),
        }
    }
    Ok(properties)
}

// The properties of one class.
#[cycle(place)]
fn place_class(
    alloc: Global,
    members: &Map<String, Value>,
    class: usize,
    nodes: &mut Items<PNode>,
) -> Result<Items<(Units, Item)>, InputFault>
    ensures { Places result nodes.old nodes.new (class_placed (members_view members.now.entries) class (length nodes.old)) }
{
    let mut properties = Items::new(alloc);
    'members: for (key, value) in members.iter() {
        if class_of(key.as_bytes()) != class {
            continue;
        }
        match place_member(alloc, key, value, nodes) {
            Ok(property) => properties.push(property)?,
            Err(fault) => return Err(fault),
        }
    }
    Ok(properties)
}

// A member as a property.
#[cycle(place)]
fn place_member(
    alloc: Global,
    key: &String,
    value: &Value,
    nodes: &mut Items<PNode>,
) -> Result<(Units, Item), InputFault>
    ensures { Places result nodes.old nodes.new (member_placed (string_bytes key.now) (view value.now) (length nodes.old)) }
{
    let key = match text_of(alloc, key.as_str()) {
        Ok(key) => key,
        Err(fault) => return Err(fault),
    };
    match place(alloc, value, nodes) {
        Ok(item) => Ok((key, item)),
        Err(fault) => Err(fault),
    }
}

// A whole number as an item.
fn whole_number(n: &Number) -> Option<Item>
    ensures { result ≡ option_map (λ z. Item.Num z) (as_i64 (number_view n.now)) }
{
    match n.as_i64() {
        Some(z) => Some(Item::Num(z)),
        None => None,
    }
}

// The units of a text, where there aren't too many.
fn text_of(alloc: Global, text: &str) -> Result<Units, InputFault>
    ensures { TextAnswers result (text_of text.now) }
{
    match Units::of_text(alloc, text) {
        Ok(units) => Ok(units),
        Err(TextFault::TooLong) => Err(InputFault::Shape),
        Err(TextFault::Memory) => Err(InputFault::Memory),
    }
}
