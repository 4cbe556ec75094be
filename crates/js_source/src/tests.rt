//! Texts, each with the size of its tree or its first fault.
use crate::{SourceFault, SourceKind, read_source};
use std::alloc::Global;
use std::test::Fail;

/// What a text is.
#[derive(Debug, Drop, Clone, Copy, PartialEq, Eq)]
enum Answer {
    /// A script whose tree has so many nodes.
    Nodes(u32),
    /// No script, for what stands at the place.
    Fault(u32, SourceKind),
    /// Not known, for want of memory.
    Memory,
}

struct Row {
    text: &'static str,
    answer: Answer,
}

const ROWS: [Row; 31] = [
    Row {
        text: "",
        answer: Answer::Nodes(1),
    },
    Row {
        text: "a + b * c;",
        answer: Answer::Nodes(7),
    },
    Row {
        text: "let a; { let a; }",
        answer: Answer::Nodes(6),
    },
    Row {
        text: "const f = (x) => x; // end",
        answer: Answer::Nodes(6),
    },
    Row {
        text: "console.log(`n ${a} m`);",
        answer: Answer::Nodes(7),
    },
    Row {
        text: "new a.b()();",
        answer: Answer::Nodes(6),
    },
    Row {
        text: "({['__proto__']: 1});",
        answer: Answer::Nodes(6),
    },
    // Faults of tokens.
    Row {
        text: "\u{feff}let a;",
        answer: Answer::Fault(0, SourceKind::Text),
    },
    Row {
        text: "/*",
        answer: Answer::Fault(0, SourceKind::Comment),
    },
    Row {
        text: "let x = 1.5;",
        answer: Answer::Fault(8, SourceKind::Number),
    },
    Row {
        text: "f('\\1');",
        answer: Answer::Fault(3, SourceKind::Escape),
    },
    Row {
        text: "'a",
        answer: Answer::Fault(0, SourceKind::String),
    },
    Row {
        text: "`a${b",
        answer: Answer::Fault(0, SourceKind::Template),
    },
    Row {
        text: "let a = #;",
        answer: Answer::Fault(8, SourceKind::Char),
    },
    // Faults of the grammar.
    Row {
        text: "f(;",
        answer: Answer::Fault(2, SourceKind::Token),
    },
    Row {
        text: "let a",
        answer: Answer::Fault(5, SourceKind::Token),
    },
    Row {
        text: "a + b = c;",
        answer: Answer::Fault(6, SourceKind::Token),
    },
    Row {
        text: "x \n ++ y;",
        answer: Answer::Fault(4, SourceKind::Token),
    },
    Row {
        text: "await;",
        answer: Answer::Fault(0, SourceKind::Token),
    },
    // Early errors.
    Row {
        text: "let a; let a;",
        answer: Answer::Fault(11, SourceKind::Twice),
    },
    Row {
        text: "function f(a, ...a) {}",
        answer: Answer::Fault(17, SourceKind::Twice),
    },
    Row {
        text: "try {} catch (e) { let e; }",
        answer: Answer::Fault(23, SourceKind::Twice),
    },
    Row {
        text: "return 1;",
        answer: Answer::Fault(0, SourceKind::Return),
    },
    Row {
        text: "while (a) { () => { break; }; }",
        answer: Answer::Fault(20, SourceKind::Loop),
    },
    Row {
        text: "f(); 1 = 2;",
        answer: Answer::Fault(5, SourceKind::Target),
    },
    Row {
        text: "delete (x);",
        answer: Answer::Fault(0, SourceKind::Delete),
    },
    Row {
        text: "x = eval;",
        answer: Answer::Fault(4, SourceKind::Name),
    },
    Row {
        text: "f({'__proto__': 1});",
        answer: Answer::Fault(3, SourceKind::Proto),
    },
    // Tokens come before the grammar, and that before early errors, of which the first in the text is told.
    Row {
        text: "f(; 'a",
        answer: Answer::Fault(4, SourceKind::String),
    },
    Row {
        text: "let a; let a; )",
        answer: Answer::Fault(14, SourceKind::Token),
    },
    Row {
        text: "delete x; let a; let a;",
        answer: Answer::Fault(0, SourceKind::Delete),
    },
];

/// What some bytes are, at most as many as may be read.
fn answer_to(alloc: Global, bytes: &[u8]) -> Result<Answer, Fail> {
    if bytes.len() > 262_144 {
        return Err(Fail::new("the text is too long"));
    }
    Ok(match read_source(alloc, bytes) {
        Ok(source) => Answer::Nodes(source.tree.len()),
        Err(SourceFault::At { place, kind }) => Answer::Fault(place, kind),
        Err(SourceFault::Memory) => Answer::Memory,
    })
}

/// So many parentheses that open, and nothing behind them.
fn parentheses(alloc: Global, count: u32) -> Result<Vec<u8>, Fail> {
    let mut bytes = Vec::new(alloc);
    for _ in 0..count {
        bytes.push(b'(')?;
    }
    Ok(bytes)
}

#[test]
fn texts_are_scripts_or_have_a_first_fault(rt: HostRuntime) -> Result<(), Fail> {
    for row in &ROWS {
        let text = row.text;
        let answer = answer_to(rt.alloc(), text.as_bytes())?;
        assert_eq!(rt; answer, row.answer, "the answer to {text}");
    }
    let broken = answer_to(rt.alloc(), &[b'a', 0xFF])?;
    assert_eq!(rt;
        broken,
        Answer::Fault(1, SourceKind::Text),
        "bytes that are no text"
    );
    let deep = parentheses(rt.alloc(), 201)?;
    let answer = answer_to(rt.alloc(), deep.as_slice())?;
    assert_eq!(rt; answer, Answer::Fault(200, SourceKind::Deep), "level 201");
    let level = parentheses(rt.alloc(), 200)?;
    let answer = answer_to(rt.alloc(), level.as_slice())?;
    assert_eq!(rt;
        answer,
        Answer::Fault(200, SourceKind::Token),
        "the end within level 200"
    );
    assert_eq!(rt; SourceKind::Twice.word(), "twice");
    Ok(())
}
