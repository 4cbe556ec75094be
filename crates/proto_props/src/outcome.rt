//! What writing or defining a property answers.
use world_heap::Loc;

/// Why a property is neither written nor defined. Of several that fit the first in this order is told.
#[derive(Debug, Drop, Clone, Copy, PartialEq, Eq)]
pub enum Refusal {
    /// A value that is no number is written at an index of a view.
    Operand,
    /// The property that is found is read-only or an accessor without setter; or the object's own property isn't
    /// configurable and forbids the definition; or an element or the length of an array is defined with attributes that
    /// it can't have, or an index of a view is defined.
    ReadOnly,
    /// The key is new, and the object can't be extended.
    NotExtensible,
    /// An array would get a hole: its element is behind the next one, or its length is set to what is no number from 0 to
    /// its length.
    Hole,
    /// The key is a new one of an array and neither an index nor `length`, or a new one of a buffer or a view.
    Named,
}

/// What writing or defining a property answers: it is done; or this setter is to be called with the object and the value;
/// or a refusal.
#[derive(Debug, Drop, Clone, Copy, PartialEq, Eq)]
pub enum SetDone<L = Loc> {
    Done,
    CallSetter(L),
    Refused(Refusal),
}
