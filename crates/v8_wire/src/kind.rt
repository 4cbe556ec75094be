//! Why bytes are refused.

/// What is wrong with the bytes at a place. Of two kinds at one place the one that stands earlier here is told, but
/// Count, Hole, Key and Trailing are told before Tag.
#[derive(Debug, Drop, Clone, Copy, PartialEq, Eq)]
pub enum WireKind {
    /// The first byte isn't FF.
    Header,
    /// The second byte is no version that is read: 13, 14 or 15.
    Version,
    /// The bytes end inside the text.
    Cut,
    /// A byte is no tag that may stand there.
    Tag,
    /// A variable-length number has more than five bytes, or is above 2^32-1.
    Varint,
    /// A node isn't given yet, or a port isn't among the ports that came along.
    Reference,
    /// A count or length at an end tag isn't what was read.
    Count,
    /// A double isn't a whole number from -(2^53-1) to 2^53-1.
    Number,
    /// Text that isn't UTF-8, or 16-bit text of an odd number of bytes.
    Text,
    /// An array has a hole.
    Hole,
    /// What stands in the place of a key is none, or none that may stand there.
    Key,
    /// Bytes stand after the value.
    Trailing,
    /// A limit of a copy, or of one string, is passed.
    TooLarge,
    /// A view isn't one of bytes, or doesn't lie within its buffer, or has flags.
    View,
}

/// Why bytes are not read.
#[derive(Debug, Drop, Clone, Copy, PartialEq, Eq)]
pub enum WireFault {
    /// The first fault, and its place from the start of the bytes.
    At { place: u64, kind: WireKind },
    /// Memory ran out.
    Memory,
}
