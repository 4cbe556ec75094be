//! The bodies of cells, and the parts of them that are written in place.
ghost use Rattle.std.specs.Prelude.{◌≡◌, slice_set};
ghost use Rattle.std.specs.Option.{option_copied};
ghost use Rattle.world_heap.specs.Bodies.{body_of, with_binding, with_body, with_byte};

use crate::cell::{Binding, Body, Cell};
use crate::store::discard;
use sqlite_items::Items;

/// The body of a cell; arrays, symbols and environments have none.
pub fn body(cell: &Cell) -> Option<&Body>
    ensures { option_copied result ≡ body_of cell.now }
{
    match cell {
        Cell::Object { body } => Some(body),
        Cell::Closure { body, .. } => Some(body),
        Cell::Native { body, .. } => Some(body),
        Cell::Far { body, .. } => Some(body),
        Cell::Error { body, .. } => Some(body),
        Cell::Map { body, .. } => Some(body),
        Cell::Set { body, .. } => Some(body),
        Cell::Promise { body, .. } => Some(body),
        Cell::Port { body, .. } => Some(body),
        Cell::Buffer { body, .. } => Some(body),
        Cell::View { body, .. } => Some(body),
        Cell::Array { .. } => None,
        Cell::Symbol { .. } => None,
        Cell::Env { .. } => None,
    }
}

// Puts a body in the place of that of a cell, and gives that one back. A cell without a body stays as it is.
pub(crate) fn exchange(cell: &mut Cell, new: Body) -> Option<Body>
    ensures cell { cell.new ≡ with_body cell.old new }
    ensures body { result ≡ body_of cell.old }
{
    match cell {
        Cell::Object { body } => Some(std::mem::replace(body, new)),
        Cell::Closure { body, .. } => Some(std::mem::replace(body, new)),
        Cell::Native { body, .. } => Some(std::mem::replace(body, new)),
        Cell::Far { body, .. } => Some(std::mem::replace(body, new)),
        Cell::Error { body, .. } => Some(std::mem::replace(body, new)),
        Cell::Map { body, .. } => Some(std::mem::replace(body, new)),
        Cell::Set { body, .. } => Some(std::mem::replace(body, new)),
        Cell::Promise { body, .. } => Some(std::mem::replace(body, new)),
        Cell::Port { body, .. } => Some(std::mem::replace(body, new)),
        Cell::Buffer { body, .. } => Some(std::mem::replace(body, new)),
        Cell::View { body, .. } => Some(std::mem::replace(body, new)),
        Cell::Array { .. } | Cell::Symbol { .. } | Cell::Env { .. } => {
            discard(new);
            None
        }
    }
}

// Puts another byte at a place of a buffer; any other cell stays as it is.
pub(crate) fn write(cell: &mut Cell, at: usize, byte: u8)
    ensures { cell.new ≡ with_byte cell.old at byte }
{
    match cell {
        Cell::Buffer { bytes, .. } => put_byte(bytes, at, byte),
        _ => {}
    }
}

// Another byte at a place, where there is one.
fn put_byte(bytes: &mut Items<u8>, at: usize, byte: u8)
    ensures { bytes.new ≡ slice_set bytes.old at byte }
{
    if at < bytes.len() {
        bytes.set(at, byte);
    }
}

// Puts a binding in the place of another of an environment, where it has one there; another cell stays as it is.
pub(crate) fn bind(cell: &mut Cell, at: usize, binding: Binding)
    ensures { cell.new ≡ with_binding cell.old at binding }
{
    match cell {
        Cell::Env { bindings, .. } => put_binding(bindings, at, binding),
        _ => discard(binding),
    }
}

// Another binding at a place, where there is one.
fn put_binding(bindings: &mut Items<Binding>, at: usize, binding: Binding)
    ensures { bindings.new ≡ slice_set bindings.old at binding }
{
    if at < bindings.len() {
        bindings.set(at, binding);
    } else {
        discard(binding);
    }
}
