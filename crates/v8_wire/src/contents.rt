//! Items, and nodes with items.
ghost use Rattle.std.specs.Prelude.{◌≡◌, ◌+◌, ◌<◌, ◌≤◌, ◌≤ℤ◌, pos, negsuc, [], ◌∷◌, length, IfOk, OnOk};
ghost use Rattle.v8_wire.specs.Faults.{Gives};
ghost use Rattle.v8_wire.specs.Contents.{is_index, may_be_next, opened_at, object_turn, array_turn, sparse_turn, map_turn, set_turn, turn_with, turn_at, contents_at};
ghost use Rattle.v8_wire.specs.Item.{composite_at, entered_at, item_at};

use crate::fault::{Stop, fault_at};
use crate::key::{count_of, key_of, new_key_of};
use crate::kind::WireKind;
use crate::leaf::{is_composite, is_number, leaf_of, refusal, skip_padding};
use crate::met::Met;
use crate::number::{number_of, varint_of};
use crate::open::{Open, Turn};
use crate::properties::Properties;
use crate::view::{refused_of, viewed_of};
use parcel::{Item, PNode, Tally};
use sqlite_items::Items;
use std::alloc::Global;

// What a node with items begins with, behind its tag.
#[tactic(auto, unfolding(crate::specs::Contents::opened_at))]
fn opened_of(alloc: Global, tag: u8, bytes: &[u8]) -> Result<(Open, &[u8]), Stop>
    ensures exact { Gives (λ x. (x.0, x.1.now)) result (opened_at tag bytes.now) }
    ensures shorter { IfOk result (λ x. length x.1.now ≤ length bytes.now) }
{
    if tag == b'o' {
        return Ok((Open::Object(Properties::new(alloc), Some(0)), bytes));
    }
    if tag == b';' {
        return Ok((Open::Map(Items::new(alloc)), bytes));
    }
    if tag == b'\'' {
        return Ok((Open::Set(Items::new(alloc)), bytes));
    }
    let (size, rest) = varint_of(bytes)?;
    if tag == b'A' {
        return Ok((Open::Array(size, Items::new(alloc)), rest));
    }
    Ok((Open::Sparse(size, Items::new(alloc)), rest))
}

// One turn over an object, behind a tag at which `left` bytes are left.
#[cycle(item)]
#[tactic(auto, unfolding(crate::specs::Contents::object_turn))]
fn object_turn_of<'a>(
    alloc: Global,
    depth: u32,
    properties: Properties,
    least: Option<u32>,
    met: &mut Met,
    tag: u8,
    left: usize,
    bytes: &'a [u8],
) -> Result<(Turn, &'a [u8]), Stop>
    ensures exact { Gives (λ x. (x.0, met.new, x.1.now)) result (object_turn (item_at depth) properties least met.old tag left bytes.now) }
    ensures grows { OnOk result (length met.old.nodes ≤ length met.new.nodes) }
    ensures shorter { IfOk result (λ x. length x.1.now ≤ length bytes.now) }
{
    if tag == b'{' {
        let rest = count_of(properties.len(), left, bytes)?;
        return Ok((Turn::End(PNode::Object(properties.into_items())), rest));
    }
    let ((key, least), rest) = key_of(alloc, least, tag, met, left, bytes)?;
    new_key_of(&properties, met, left, &key)?;
    let (value, rest) = item_of(alloc, depth, met, rest)?;
    let properties = properties.with(alloc, key, value)?;
    Ok((Turn::More(Open::Object(properties, least)), rest))
}

// One turn over an array: its tag and what follows it, at which `left` bytes are left.
#[cycle(item)]
#[tactic(auto, unfolding(crate::specs::Contents::array_turn))]
fn array_turn_of<'a>(
    alloc: Global,
    depth: u32,
    size: u32,
    mut items: Items<Item>,
    met: &mut Met,
    bytes: &'a [u8],
    tag: u8,
    after: &'a [u8],
) -> Result<(Turn, &'a [u8]), Stop>
    requires { bytes.now ≡ tag ∷ after.now }
    ensures exact { Gives (λ x. (x.0, met.new, x.1.now)) result (array_turn (item_at depth) size items met.old tag (length bytes.now) after.now) }
    ensures grows { OnOk result (length met.old.nodes ≤ length met.new.nodes) }
    ensures shorter { IfOk result (λ x. length x.1.now < length bytes.now) }
{
    let left = bytes.len();
    if tag == b'-' {
        return Err(fault_at(left, WireKind::Hole));
    }
    if items.len() < size as usize {
        let (item, rest) = item_of(alloc, depth, met, bytes)?;
        items.push(item)?;
        return Ok((Turn::More(Open::Array(size, items)), rest));
    }
    if tag == b'$' {
        let rest = count_of(0, left, after)?;
        let rest = count_of(size as usize, left, rest)?;
        return Ok((Turn::End(PNode::Array(items)), rest));
    }
    Err(refusal(alloc, WireKind::Key, tag, met, left, after))
}

// One turn over an array with indices, behind a tag at which `left` bytes are left.
#[cycle(item)]
#[tactic(auto, unfolding(crate::specs::Contents::sparse_turn))]
fn sparse_turn_of<'a>(
    alloc: Global,
    depth: u32,
    size: u32,
    mut items: Items<Item>,
    met: &mut Met,
    tag: u8,
    left: usize,
    bytes: &'a [u8],
) -> Result<(Turn, &'a [u8]), Stop>
    ensures exact { Gives (λ x. (x.0, met.new, x.1.now)) result (sparse_turn (item_at depth) size items met.old tag left bytes.now) }
    ensures grows { OnOk result (length met.old.nodes ≤ length met.new.nodes) }
    ensures shorter { IfOk result (λ x. length x.1.now ≤ length bytes.now) }
{
    if tag == b'-' {
        return Err(fault_at(left, WireKind::Hole));
    }
    if tag == b'@' {
        if items.len() < size as usize {
            return Err(fault_at(left, WireKind::Tag));
        }
        let rest = count_of(size as usize, left, bytes)?;
        let rest = count_of(size as usize, left, rest)?;
        return Ok((Turn::End(PNode::Array(items)), rest));
    }
    if may_be_next_of(tag, size, &items) {
        let (number, rest) = number_of(tag, left, bytes)?;
        if !is_index_of(number, items.len()) {
            return Err(fault_at(left, WireKind::Hole));
        }
        let (item, rest) = item_of(alloc, depth, met, rest)?;
        items.push(item)?;
        return Ok((Turn::More(Open::Sparse(size, items)), rest));
    }
    Err(refusal(alloc, WireKind::Hole, tag, met, left, bytes))
}

// One turn over a Map: its tag and what follows it.
#[cycle(item)]
#[tactic(auto, unfolding(crate::specs::Contents::map_turn))]
fn map_turn_of<'a>(
    alloc: Global,
    depth: u32,
    mut entries: Items<(Item, Item)>,
    met: &mut Met,
    bytes: &'a [u8],
    tag: u8,
    after: &'a [u8],
) -> Result<(Turn, &'a [u8]), Stop>
    requires { bytes.now ≡ tag ∷ after.now }
    ensures exact { Gives (λ x. (x.0, met.new, x.1.now)) result (map_turn (item_at depth) entries met.old tag (length bytes.now) after.now) }
    ensures grows { OnOk result (length met.old.nodes ≤ length met.new.nodes) }
    ensures shorter { IfOk result (λ x. length x.1.now < length bytes.now) }
{
    if tag == b':' {
        let rest = count_of(2 * entries.len(), bytes.len(), after)?;
        return Ok((Turn::End(PNode::Map(entries)), rest));
    }
    let (key, rest) = item_of(alloc, depth, met, bytes)?;
    let (value, rest) = item_of(alloc, depth, met, rest)?;
    entries.push((key, value))?;
    Ok((Turn::More(Open::Map(entries)), rest))
}

// One turn over a Set: its tag and what follows it.
#[cycle(item)]
#[tactic(auto, unfolding(crate::specs::Contents::set_turn))]
fn set_turn_of<'a>(
    alloc: Global,
    depth: u32,
    mut items: Items<Item>,
    met: &mut Met,
    bytes: &'a [u8],
    tag: u8,
    after: &'a [u8],
) -> Result<(Turn, &'a [u8]), Stop>
    requires { bytes.now ≡ tag ∷ after.now }
    ensures exact { Gives (λ x. (x.0, met.new, x.1.now)) result (set_turn (item_at depth) items met.old tag (length bytes.now) after.now) }
    ensures grows { OnOk result (length met.old.nodes ≤ length met.new.nodes) }
    ensures shorter { IfOk result (λ x. length x.1.now < length bytes.now) }
{
    if tag == b',' {
        let rest = count_of(items.len(), bytes.len(), after)?;
        return Ok((Turn::End(PNode::Set(items)), rest));
    }
    let (item, rest) = item_of(alloc, depth, met, bytes)?;
    items.push(item)?;
    Ok((Turn::More(Open::Set(items)), rest))
}

// One turn over a node with items.
#[cycle(item)]
#[tactic(auto, unfolding(crate::specs::Contents::turn_at, crate::specs::Contents::turn_with))]
fn turn_of<'a>(
    alloc: Global,
    depth: u32,
    begun: Open,
    met: &mut Met,
    bytes: &'a [u8],
) -> Result<(Turn, &'a [u8]), Stop>
    ensures exact { Gives (λ x. (x.0, met.new, x.1.now)) result (turn_at (item_at depth) begun met.old bytes.now) }
    ensures grows { OnOk result (length met.old.nodes ≤ length met.new.nodes) }
    ensures shorter { IfOk result (λ x. length x.1.now < length bytes.now) }
{
    let bytes = skip_padding(bytes);
    let left = bytes.len();
    let (tag, after) = match bytes.split_first() {
        None => return Err(fault_at(0, WireKind::Cut)),
        Some((tag, after)) => (*tag, after),
    };
    match begun {
        Open::Object(properties, least) => {
            let (turn, rest) = object_turn_of(
                alloc, depth, properties, least, met, tag, left, after,
            )?;
            Ok((turn, rest))
        }
        Open::Array(size, items) => {
            let (turn, rest) = array_turn_of(alloc, depth, size, items, met, bytes, tag, after)?;
            Ok((turn, rest))
        }
        Open::Sparse(size, items) => {
            let (turn, rest) = sparse_turn_of(alloc, depth, size, items, met, tag, left, after)?;
            Ok((turn, rest))
        }
        Open::Map(entries) => {
            let (turn, rest) = map_turn_of(alloc, depth, entries, met, bytes, tag, after)?;
            Ok((turn, rest))
        }
        Open::Set(items) => {
            let (turn, rest) = set_turn_of(alloc, depth, items, met, bytes, tag, after)?;
            Ok((turn, rest))
        }
    }
}

// What of a node with items is still to be read.
#[cycle(item)]
fn contents_of<'a>(
    alloc: Global,
    depth: u32,
    begun: Open,
    met: &mut Met,
    bytes: &'a [u8],
) -> Result<(PNode, &'a [u8]), Stop>
    ensures exact { Gives (λ x. (x.0, met.new, x.1.now)) result (contents_at (item_at depth) (length bytes.now) begun met.old bytes.now) }
    ensures grows { OnOk result (length met.old.nodes ≤ length met.new.nodes) }
    ensures shorter { IfOk result (λ x. length x.1.now < length bytes.now) }
{
    let mut begun = begun;
    let mut rest = bytes;
    'turns: loop {
        let (turn, after) = match turn_of(alloc, depth, begun, met, rest) {
            Ok(found) => found,
            Err(stop) => return Err(stop),
        };
        match turn {
            Turn::More(more) => begun = more,
            Turn::End(node) => return Ok((node, after)),
        }
        rest = after;
    }
}

// A node with items behind its tag, at which `left` bytes are left.
#[cycle(item)]
#[tactic(auto, unfolding(crate::specs::Item::composite_at))]
fn composite_of<'a>(
    alloc: Global,
    depth: u32,
    tag: u8,
    met: &mut Met,
    left: usize,
    bytes: &'a [u8],
) -> Result<(Item, &'a [u8]), Stop>
    ensures exact { Gives (λ x. (x.0, met.new, x.1.now)) result (composite_at (item_at depth) tag met.old left bytes.now) }
    ensures grows { OnOk result (length met.old.nodes ≤ length met.new.nodes) }
    ensures shorter { IfOk result (λ x. length x.1.now ≤ length bytes.now) }
{
    let number = met.add_node(left, PNode::Port(0))?;
    let (begun, rest) = opened_of(alloc, tag, bytes)?;
    let (node, rest) = contents_of(alloc, depth, begun, met, rest)?;
    met.nodes.set(number as usize, node);
    Ok((Item::Node(number), rest))
}

/// The item in front, where so many levels are left, its own among them (V8's ReadObject).
#[cycle(item)]
#[tactic(auto, unfolding(crate::specs::Item::item_at, crate::specs::Item::entered_at))]
pub(crate) fn item_of<'a>(
    alloc: Global,
    depth: u32,
    met: &mut Met,
    bytes: &'a [u8],
) -> Result<(Item, &'a [u8]), Stop>
    ensures exact { Gives (λ x. (x.0, met.new, x.1.now)) result (item_at depth met.old bytes.now) }
    ensures grows { OnOk result (length met.old.nodes ≤ length met.new.nodes) }
    ensures shorter { IfOk result (λ x. length x.1.now < length bytes.now) }
{
    let bytes = skip_padding(bytes);
    if depth == 0 || met.items >= Tally::ITEMS {
        return Err(refused_of(alloc, met, bytes));
    }
    met.items += 1;
    let (tag, after) = match bytes.split_first() {
        None => return Err(fault_at(0, WireKind::Cut)),
        Some((tag, after)) => (*tag, after),
    };
    if is_composite(tag) {
        let (item, rest) = composite_of(alloc, depth - 1, tag, met, bytes.len(), after)?;
        return Ok((item, rest));
    }
    let (item, rest) = leaf_of(alloc, tag, met, bytes.len(), after)?;
    let (item, rest) = viewed_of(item, met, rest)?;
    Ok((item, rest))
}

// Whether the tag is that of a number, where an element is still missing.
#[tactic(auto, unfolding(crate::specs::Contents::may_be_next))]
fn may_be_next_of(tag: u8, size: u32, items: &Items<Item>) -> bool
    ensures { result ≡ may_be_next tag size items.now }
{
    is_number(tag) && items.len() < size as usize
}

// Whether the number is this index.
fn is_index_of(number: i64, index: usize) -> bool
    ensures { result ≡ is_index number index }
{
    0 <= number && number as usize == index
}
