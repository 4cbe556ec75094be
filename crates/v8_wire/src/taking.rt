//! A parcel, from its bytes.
ghost use Rattle.std.specs.Prelude.{◌≡◌, ◌-◌, ◌<◌, ◌≤◌, ◌^◌, length, IfOk, IsTrue};
ghost use Rattle.parcel.specs.Checked.{IsChecked};
ghost use Rattle.parcel.specs.Plain.{IsPlain, ports_below};
ghost use Rattle.v8_wire.specs.Faults.{Gives};
ghost use Rattle.v8_wire.specs.Item.{alone, root_at, version_at, parcel_at};
ghost use Rattle.v8_wire.specs.Takes.{Takes};

use crate::contents::item_of;
use crate::fault::{Stop, fault_at};
use crate::kind::{WireFault, WireKind};
use crate::met::Met;
use parcel::{Item, Parcel};
use sqlite_items::Items;
use std::alloc::Global;

// How deep values may nest, with the root's own level.
const LEVELS: u32 = 1_001;

// The parcel of a root that is the last in the bytes.
#[tactic(auto, unfolding(crate::specs::Item::alone))]
fn parcel_alone(root: Item, met: Met, rest: &[u8]) -> Result<Parcel, Stop>
    ensures { Gives (λ x. x) result (alone root met rest.now) }
{
    if !rest.is_empty() {
        return Err(fault_at(rest.len(), WireKind::Trailing));
    }
    let Met {
        ports: _,
        flags: _,
        nodes,
        items: _,
        units: _,
    } = met;
    Ok(Parcel { root, nodes })
}

// The parcel behind the version.
#[tactic(auto, unfolding(crate::specs::Item::root_at))]
fn root_of(alloc: Global, ports: u32, flags: bool, bytes: &[u8]) -> Result<Parcel, Stop>
    ensures { Gives (λ x. x) result (root_at ports flags bytes.now) }
{
    let mut met = Met {
        ports,
        flags,
        nodes: Items::new(alloc),
        items: 0,
        units: 0,
    };
    let (root, rest) = item_of(alloc, LEVELS, &mut met, bytes)?;
    let parcel = parcel_alone(root, met, rest)?;
    Ok(parcel)
}

// The parcel that the bytes spell.
#[tactic(auto, unfolding(crate::specs::Item::parcel_at, crate::specs::Item::version_at))]
fn parcel_of(alloc: Global, bytes: &[u8], ports: u32) -> Result<Parcel, Stop>
    ensures { Gives (λ x. x) result (parcel_at ports bytes.now) }
{
    let rest = match bytes {
        [] => return Err(fault_at(0, WireKind::Cut)),
        [255, rest @ ..] => rest,
        _ => return Err(fault_at(bytes.len(), WireKind::Header)),
    };
    let (version, after) = match rest.split_first() {
        None => return Err(fault_at(0, WireKind::Cut)),
        Some((version, after)) => (*version, after),
    };
    if version != 13 && version != 14 && version != 15 {
        return Err(fault_at(rest.len(), WireKind::Version));
    }
    let parcel = root_of(alloc, ports, 14 <= version, after)?;
    Ok(parcel)
}

/// The parcel that the bytes spell where so many ports came along, in V8's format of version 13, 14 or 15.
///
/// Any spelling that V8 reads is taken, within the limits of a copy: 100,000 nodes, 1,000,000 items, 16,777,216 units of
/// text (a buffer's bytes counted as units), nesting 1,000, 1,048,576 units in one string. `WireFault::At` comes exactly
/// where the bytes spell no parcel, with the place and the kind of the first fault from the left; `WireFault::Memory`
/// where memory ran out. The parcel is checked, has no functions and promises, and its ports' places are below `ports`.
/// The cost is linear in the bytes, and nothing is reserved by a length that was read but what the
/// bytes behind it fill.
pub fn take(alloc: Global, bytes: &[u8], ports: u32) -> Result<Parcel, WireFault>
    ensures exact { Takes (length bytes.now) result (parcel_at ports bytes.now) }
    ensures checked { IfOk result IsChecked }
    ensures plain { IfOk result IsPlain }
    ensures ports { IfOk result (λ parcel. IsTrue (ports_below ports parcel)) }
{
    match parcel_of(alloc, bytes, ports) {
        Ok(parcel) => Ok(parcel),
        Err(Stop::Memory) => Err(WireFault::Memory),
        Err(Stop::At(fault)) => {
            let place = bytes.len().saturating_sub(fault.left) as u64;
            Err(WireFault::At {
                place,
                kind: fault.kind,
            })
        }
    }
}
