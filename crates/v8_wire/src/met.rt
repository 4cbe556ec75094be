//! What a reader has met, within the limits of a copy.
ghost use Rattle.std.specs.Prelude.{◌≡◌, ◌<◌, ◌≤◌, length, IfOk};
ghost use Rattle.v8_wire.specs.Faults.{Gives};
ghost use Rattle.v8_wire.specs.Met.{with_units, with_node, are_full};

use crate::fault::{Fault, Stop};
use crate::kind::WireKind;
use parcel::{PNode, Tally};
use sqlite_items::Items;

/// What a reader has met: the nodes by their numbers, where one whose contents are still read stands as a port; items;
/// and units of text. Beside them what it was told: the count of ports, and whether views have flags.
#[derive(Drop)]
pub(crate) struct Met {
    pub ports: u32,
    pub flags: bool,
    pub nodes: Items<PNode>,
    pub items: u32,
    pub units: u32,
}

impl Met {
    /// Whether no node more is taken.
    pub fn is_full(&self) -> bool
        ensures { result ≡ are_full self.now.nodes }
    {
        self.nodes.len() >= Tally::NODES as usize
    }

    /// Counts so many units of text, at whose tag `left` bytes are left.
    pub fn count_units(&mut self, left: usize, more: usize) -> Result<(), Stop>
        ensures exact { Gives (λ _. self.new) result (with_units left more self.old) }
        ensures nodes { self.new.nodes ≡ self.old.nodes }
    {
        let limit = Tally::UNITS as usize;
        let units = self.units as usize;
        if units > limit || more > limit - units {
            return Err(Stop::At(Fault {
                left,
                kind: WireKind::TooLarge,
            }));
        }
        self.units = (units + more) as u32;
        Ok(())
    }

    /// Takes a node, whose tag has `left` bytes, and gives its number.
    pub fn add_node(&mut self, left: usize, node: PNode) -> Result<u32, Stop>
        ensures exact { Gives (λ number. (number, self.new)) result (with_node left node self.old) }
        ensures grows { IfOk result (λ number. number < length self.new.nodes) }
        ensures keeps { length self.old.nodes ≤ length self.new.nodes }
    {
        if self.is_full() {
            return Err(Stop::At(Fault {
                left,
                kind: WireKind::TooLarge,
            }));
        }
        let number = self.nodes.len() as u32;
        self.nodes.push(node)?;
        Ok(number)
    }
}
