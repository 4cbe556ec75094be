//! What a walk over a parcel has met, within the limits of a copy.
ghost use Rattle.std.specs.Prelude.{◌≡◌};
ghost use Rattle.parcel.specs.Checked.{nothing_met, with_node, with_item, with_units};

/// What a walk has met: nodes (the next number that one takes), items, and units of text.
#[derive(Debug, Drop, Clone, Copy, PartialEq, Eq)]
pub struct Tally {
    pub nodes: u32,
    pub items: u32,
    pub units: u32,
}

impl Tally {
    /// The greatest number of nodes in a copy.
    pub const NODES: u32 = 100_000;
    /// The greatest number of items in a copy.
    pub const ITEMS: u32 = 1_000_000;
    /// The greatest number of units of text in a copy, the bytes of its buffers counted as units.
    pub const UNITS: u32 = 16_777_216;

    /// Nothing met yet.
    pub fn new() -> Tally
        ensures { result ≡ nothing_met }
    {
        Tally {
            nodes: 0,
            items: 0,
            units: 0,
        }
    }

    /// One node more; none where the limit is passed.
    pub fn with_node(self) -> Option<Tally>
        ensures { result ≡ with_node self }
    {
        if self.nodes >= Tally::NODES {
            return None;
        }
        Some(Tally {
            nodes: self.nodes + 1,
            ..self
        })
    }

    /// One item more; none where the limit is passed.
    pub fn with_item(self) -> Option<Tally>
        ensures { result ≡ with_item self }
    {
        if self.items >= Tally::ITEMS {
            return None;
        }
        Some(Tally {
            items: self.items + 1,
            ..self
        })
    }

    /// So many units of text more; none where the limit is passed.
    pub fn with_units(self, more: usize) -> Option<Tally>
        ensures { result ≡ with_units more self }
    {
        let limit = Tally::UNITS as usize;
        let units = self.units as usize;
        if units > limit || more > limit - units {
            return None;
        }
        Some(Tally {
            units: (units + more) as u32,
            ..self
        })
    }
}
