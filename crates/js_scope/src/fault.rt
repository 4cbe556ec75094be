//! Why a script is refused.
ghost use Rattle.std.specs.Prelude.{◌≡◌};
ghost use Rattle.js_scope.specs.declared.fault.ScopeFault.TheVariants.{Memory};

use js_tree::NodeId;
use std::alloc::{AllocError, AllocFailed};

/// The rules that a script may break, in the order in which they are told of one node.
#[derive(Debug, Drop, Clone, Copy, PartialEq, Eq)]
pub enum ScopeKind {
    /// A name is declared twice in one scope, stands twice in one list of parameters, or is declared at the top of a
    /// body whose parameter or whose `catch` binding it is. The node is the one by which the name comes again.
    Twice,
    /// `return` outside a function.
    Return,
    /// `break` or `continue` outside a loop of the same function.
    Loop,
    /// An assignment, `++` or `--` whose target is no name and no member.
    Target,
    /// `delete` of a name.
    Delete,
    /// `eval` or `arguments` as a name.
    Name,
    /// A property with the written key `__proto__`.
    Proto,
}

/// A script has an early error, or memory ran out.
#[derive(Debug, Drop, Clone, Copy, PartialEq, Eq)]
pub enum ScopeFault {
    /// The first node in source order that breaks a rule, and the first rule that it breaks.
    At { node: NodeId, kind: ScopeKind },
    /// Memory ran out.
    Memory,
}

impl From<AllocError> for ScopeFault {
    ghost from_gives = { λ _ e. e ≡ Memory };

    fn from(_error: AllocError) -> ScopeFault {
        ScopeFault::Memory
    }
}

impl<T: Drop> From<AllocFailed<T>> for ScopeFault {
    ghost from_gives = { λ _ e. e ≡ Memory };

    fn from(_error: AllocFailed<T>) -> ScopeFault {
        ScopeFault::Memory
    }
}
