//! Rows of targets of assignments and of `delete`.
use crate::ScopeKind;
use crate::test_trees::{Part, Row};

/// Rows of targets of assignments and of `delete`.
pub const TARGETS: [Row; 9] = [
    Row {
        what: "targets",
        parts: &[
            Part::Name("a"),
            Part::Num,
            Part::Assign,
            Part::Statement,
            Part::Name("a"),
            Part::Dot("b"),
            Part::Num,
            Part::AddAssign,
            Part::Statement,
            Part::Name("a"),
            Part::Num,
            Part::Index,
            Part::Increment,
            Part::Statement,
            Part::Script(3),
        ],
        want: None,
    },
    Row {
        what: "a number as target",
        parts: &[
            Part::Num,
            Part::Num,
            Part::Assign,
            Part::Statement,
            Part::Script(1),
        ],
        want: Some((2, ScopeKind::Target)),
    },
    Row {
        what: "an object as target",
        parts: &[
            Part::Object(0),
            Part::Num,
            Part::AddAssign,
            Part::Statement,
            Part::Script(1),
        ],
        want: Some((2, ScopeKind::Target)),
    },
    Row {
        what: "an assignment as target",
        parts: &[
            Part::Name("a"),
            Part::Num,
            Part::Assign,
            Part::Increment,
            Part::Statement,
            Part::Script(1),
        ],
        want: Some((3, ScopeKind::Target)),
    },
    Row {
        what: "the outer of two targets",
        parts: &[
            Part::Num,
            Part::Num,
            Part::Assign,
            Part::Num,
            Part::Assign,
            Part::Statement,
            Part::Script(1),
        ],
        want: Some((4, ScopeKind::Target)),
    },
    Row {
        what: "the outer target before the name in it",
        parts: &[
            Part::Name("eval"),
            Part::Num,
            Part::Assign,
            Part::Num,
            Part::Assign,
            Part::Statement,
            Part::Script(1),
        ],
        want: Some((4, ScopeKind::Target)),
    },
    Row {
        what: "delete of a name",
        parts: &[
            Part::Name("a"),
            Part::Delete,
            Part::Statement,
            Part::Script(1),
        ],
        want: Some((1, ScopeKind::Delete)),
    },
    Row {
        what: "delete of eval",
        parts: &[
            Part::Name("eval"),
            Part::Delete,
            Part::Statement,
            Part::Script(1),
        ],
        want: Some((1, ScopeKind::Delete)),
    },
    Row {
        what: "delete of members and numbers",
        parts: &[
            Part::Name("a"),
            Part::Dot("b"),
            Part::Delete,
            Part::Statement,
            Part::Num,
            Part::Delete,
            Part::Statement,
            Part::Script(2),
        ],
        want: None,
    },
];
