//! Where a name is bound (ECMA-262, 9.1.1.1 and 9.1.2.1).
ghost use Rattle.std.specs.Prelude.{◌≡◌, ℕ, Some, None, IfSome, MatchOption, option_map, nat_eq};
ghost use Rattle.world_heap.specs.Maps.{find};
ghost use Rattle.world_heap.specs.declared.cell.Binding as kept;
ghost use Rattle.js_semantics.specs.World.{World, over};
ghost use Rattle.js_semantics.specs.Environments.{binding_of};
ghost use Rattle.js_names.specs.Places.{place_in, seen_in, place_under, binding_under};

use wl_text::Units;
use world_heap::{Binding, Cell, Heap, Loc};

/// What is seen of a name in a cell: its place among the bindings, the environment around, or nothing.
#[derive(Drop)]
pub enum Seen<L = Loc> {
    Here(usize),
    Outer(L),
    Nowhere,
}

// The place of a name among bindings.
fn place_among(bindings: &[Binding], name: &Units) -> Option<usize>
    ensures { result ≡ place_in bindings.now name.now }
{
    bindings.iter().position(|binding| binding.name == *name)
}

// What is seen of a name in a cell.
#[inline(always)]
fn look(cell: &Cell, name: &Units) -> Seen
    ensures { result ≡ seen_in cell.now name.now }
{
    match cell {
        Cell::Env { outer, bindings } => match place_among(bindings.as_slice(), name) {
            Some(place) => Seen::Here(place),
            None => match outer {
                Some(outer) => Seen::Outer(*outer),
                None => Seen::Nowhere,
            },
        },
        _ => Seen::Nowhere,
    }
}

// The place of a name among the bindings of a cell, and whether the binding there is fixed.
fn place_in(cell: &Cell, name: &Units) -> Option<(usize, bool)>
    ensures place { option_map (λ found. found.0) result ≡ place_under (Some cell.now) name.now }
    ensures fixed { IfSome result (λ found. (binding : kept.Binding ℕ) × (binding_under (Some cell.now) found.0 ≡ Some binding) × (binding.fixed ≡ found.1)) }
{
    match cell {
        Cell::Env { bindings, .. } => {
            let bindings = bindings.as_slice();
            let place = place_among(bindings, name)?;
            Some((place, bindings[place].fixed))
        }
        _ => None,
    }
}

/// The place of a name among the bindings of an environment record (ECMA-262, 9.1.1), and whether the binding there is
/// fixed; none where the location is that of no environment, or the environment doesn't bind the name. The cost is linear
/// in the environment's bindings.
#[inline(always)]
pub fn place_at(heap: &Heap, env: Loc, name: &Units) -> Option<(usize, bool)>
    ensures place { option_map (λ found. found.0) result ≡ place_under (find nat_eq heap.now.cells env) name.now }
    ensures fixed { IfSome result (λ found. (binding : kept.Binding ℕ) × (binding_under (find nat_eq heap.now.cells env) found.0 ≡ Some binding) × (binding.fixed ≡ found.1)) }
{
    match heap.get(env) {
        Some(cell) => place_in(cell, name),
        None => None,
    }
}

// The binding at a place of a cell.
fn binding_in(cell: &Cell, place: usize) -> Option<&Binding>
    ensures { MatchOption result (binding_under (Some cell.now) place ≡ None) (λ binding. binding_under (Some cell.now) place ≡ Some binding.now) }
{
    match cell {
        Cell::Env { bindings, .. } => bindings.get(place),
        _ => None,
    }
}

/// The innermost binding of a name, with its environment; nothing, where no environment from this one on binds it
/// (ECMA-262, 9.1.2.1: GetIdentifierReference).
///
/// It takes no memory. The cost is linear in the bindings of the environments that are searched.
#[inline(always)]
pub fn binding_of<'a>(heap: &'a Heap, env: Loc, name: &Units) -> Option<(Loc, &'a Binding)>
    ensures { (w : World ℕ) → option_map (λ found. (found.0, found.1.now)) result ≡ binding_of env name.now (over heap.now w) }
{
    let mut at = env;
    let mut left = heap.len();
    'environments: while left > 0 {
        left -= 1;
        let cell = heap.get(at)?;
        match look(cell, name) {
            Seen::Here(place) => return Some((at, binding_in(cell, place)?)),
            Seen::Outer(outer) => at = outer,
            Seen::Nowhere => return None,
        }
    }
    None
}
