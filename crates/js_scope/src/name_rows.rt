//! Rows of names and keys that may not stand, and of several faults in one script.
use crate::ScopeKind;
use crate::test_trees::{Part, Row};

/// Rows of names and keys that may not stand, and of several faults in one script.
pub const NAMES: [Row; 15] = [
    Row {
        what: "eval as a name",
        parts: &[Part::Name("eval"), Part::Statement, Part::Script(1)],
        want: Some((0, ScopeKind::Name)),
    },
    Row {
        what: "arguments as a target",
        parts: &[
            Part::Name("arguments"),
            Part::Num,
            Part::Assign,
            Part::Statement,
            Part::Script(1),
        ],
        want: Some((0, ScopeKind::Name)),
    },
    Row {
        what: "arguments as a binding",
        parts: &[Part::Bind("arguments"), Part::Let, Part::Script(1)],
        want: Some((0, ScopeKind::Name)),
    },
    Row {
        what: "eval as a parameter",
        parts: &[
            Part::Bind("eval"),
            Part::Block(0),
            Part::Arrow(1),
            Part::Statement,
            Part::Script(1),
        ],
        want: Some((0, ScopeKind::Name)),
    },
    Row {
        what: "eval as a function",
        parts: &[Part::Block(0), Part::FunDecl("eval", 0), Part::Script(1)],
        want: Some((1, ScopeKind::Name)),
    },
    Row {
        what: "arguments as a function expression",
        parts: &[
            Part::Block(0),
            Part::Fun(Some("arguments"), 0),
            Part::Statement,
            Part::Script(1),
        ],
        want: Some((1, ScopeKind::Name)),
    },
    Row {
        what: "a function without a name",
        parts: &[
            Part::Block(0),
            Part::Fun(None, 0),
            Part::Statement,
            Part::Script(1),
        ],
        want: None,
    },
    Row {
        what: "eval and arguments as keys",
        parts: &[
            Part::Block(0),
            Part::Method("eval", 0),
            Part::Num,
            Part::Property("arguments"),
            Part::Object(2),
            Part::Dot("eval"),
            Part::Statement,
            Part::Script(1),
        ],
        want: None,
    },
    Row {
        what: "names that begin so",
        parts: &[
            Part::Name("eva"),
            Part::Name("evals"),
            Part::Assign,
            Part::Statement,
            Part::Script(1),
        ],
        want: None,
    },
    Row {
        what: "__proto__ as a written key",
        parts: &[
            Part::Num,
            Part::Property("__proto__"),
            Part::Object(1),
            Part::Statement,
            Part::Script(1),
        ],
        want: Some((1, ScopeKind::Proto)),
    },
    Row {
        what: "__proto__ as a shorthand",
        parts: &[
            Part::Name("__proto__"),
            Part::Property("__proto__"),
            Part::Object(1),
            Part::Statement,
            Part::Script(1),
        ],
        want: Some((1, ScopeKind::Proto)),
    },
    Row {
        what: "__proto__ elsewhere",
        parts: &[
            Part::Name("__proto__"),
            Part::Num,
            Part::ComputedProperty,
            Part::Block(0),
            Part::Method("__proto__", 0),
            Part::Object(2),
            Part::Dot("__proto__"),
            Part::Statement,
            Part::Script(1),
        ],
        want: None,
    },
    Row {
        what: "the first of several",
        parts: &[
            Part::Bind("a"),
            Part::Let,
            Part::Break,
            Part::Bind("a"),
            Part::Let,
            Part::Script(3),
        ],
        want: Some((2, ScopeKind::Loop)),
    },
    Row {
        what: "the second comes first",
        parts: &[
            Part::Bind("a"),
            Part::Let,
            Part::Bind("a"),
            Part::Let,
            Part::Return,
            Part::Script(3),
        ],
        want: Some((2, ScopeKind::Twice)),
    },
    Row {
        what: "a parameter before the body",
        parts: &[
            Part::Bind("eval"),
            Part::Break,
            Part::Block(1),
            Part::FunDecl("f", 1),
            Part::Script(1),
        ],
        want: Some((0, ScopeKind::Name)),
    },
];
