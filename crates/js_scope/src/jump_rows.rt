//! Rows of `return`, `break` and `continue` at their edges.
use crate::ScopeKind;
use crate::test_trees::{Part, Row};

/// Rows of `return`, `break` and `continue` at their edges.
pub const JUMPS: [Row; 10] = [
    Row {
        what: "return at the top",
        parts: &[Part::Return, Part::Script(1)],
        want: Some((0, ScopeKind::Return)),
    },
    Row {
        what: "return in a block at the top",
        parts: &[Part::Return, Part::Block(1), Part::Script(1)],
        want: Some((0, ScopeKind::Return)),
    },
    Row {
        what: "return in functions",
        parts: &[
            Part::Return,
            Part::Block(1),
            Part::Block(1),
            Part::FunDecl("f", 0),
            Part::Return,
            Part::Block(1),
            Part::Arrow(0),
            Part::Statement,
            Part::Return,
            Part::Block(1),
            Part::Method("m", 0),
            Part::Object(1),
            Part::Statement,
            Part::Script(3),
        ],
        want: None,
    },
    Row {
        what: "return after a function",
        parts: &[
            Part::Return,
            Part::Block(1),
            Part::FunDecl("f", 0),
            Part::Return,
            Part::Script(2),
        ],
        want: Some((3, ScopeKind::Return)),
    },
    Row {
        what: "break at the top",
        parts: &[Part::Break, Part::Script(1)],
        want: Some((0, ScopeKind::Loop)),
    },
    Row {
        what: "continue in a function",
        parts: &[
            Part::Continue,
            Part::Block(1),
            Part::FunDecl("f", 0),
            Part::Script(1),
        ],
        want: Some((0, ScopeKind::Loop)),
    },
    Row {
        what: "break and continue in loops",
        parts: &[
            Part::Num,
            Part::Break,
            Part::While,
            Part::Bind("a"),
            Part::Let,
            Part::Continue,
            Part::Block(1),
            Part::For,
            Part::Bind("b"),
            Part::Num,
            Part::Break,
            Part::ForOf,
            Part::Script(3),
        ],
        want: None,
    },
    Row {
        what: "break in a function in a loop",
        parts: &[
            Part::Num,
            Part::Break,
            Part::Block(1),
            Part::Arrow(0),
            Part::Statement,
            Part::Block(1),
            Part::While,
            Part::Script(1),
        ],
        want: Some((1, ScopeKind::Loop)),
    },
    Row {
        what: "a loop in a function in a loop",
        parts: &[
            Part::Num,
            Part::Num,
            Part::Break,
            Part::While,
            Part::Block(1),
            Part::Arrow(0),
            Part::Statement,
            Part::Block(1),
            Part::While,
            Part::Script(1),
        ],
        want: None,
    },
    Row {
        what: "break after a loop",
        parts: &[
            Part::Num,
            Part::Block(0),
            Part::While,
            Part::Break,
            Part::Script(2),
        ],
        want: Some((3, ScopeKind::Loop)),
    },
];
