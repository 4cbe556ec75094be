//! Texts with their tokens and faults, as the language has them.
use super::*;
use std::alloc::Global;
use std::process::Abort;
use std::test::Fail;
use wl_text::Units;

// A token's kind with a text.
fn with_text(alloc: Global, kind: &str, text: &Units) -> Result<String, Fail> {
    let quoted = text.quoted(alloc)?;
    let quoted = str::from_utf8(quoted.as_slice())?;
    Ok(format!(in alloc; "{kind} {quoted}")?)
}

// A token's kind with what it holds.
fn shown_kind(alloc: Global, kind: &TokenKind) -> Result<String, Fail> {
    match kind {
        TokenKind::Name(text) => with_text(alloc, "name", text),
        TokenKind::Word(text) => with_text(alloc, "word", text),
        TokenKind::Text(text) => with_text(alloc, "text", text),
        TokenKind::Number(number) => Ok(format!(in alloc; "number {number}")?),
        TokenKind::Mark(number) => Ok(format!(in alloc; "mark {number}")?),
        TokenKind::End => Ok(String::from_str(alloc, "end")?),
        TokenKind::Piece { text, first, last } => {
            let piece = with_text(alloc, "piece", text)?;
            let first = if *first { " first" } else { "" };
            let last = if *last { " last" } else { "" };
            Ok(format!(in alloc; "{piece}{first}{last}")?)
        }
    }
}

// A token's place, with a `!` where it is broken, and its kind.
fn shown_token(alloc: Global, token: &Token) -> Result<String, Fail> {
    let kind = shown_kind(alloc, &token.kind)?;
    let place = token.place;
    let broken = if token.broken { "!" } else { "" };
    Ok(format!(in alloc; "{place}{broken} {kind}")?)
}

// The tokens of a text, or its fault.
fn shown(rt: &impl Abort, alloc: Global, text: &[u8]) -> Result<String, Fail> {
    assert!(rt; text.len() <= 262_144);
    let list = match tokens(alloc, text) {
        Ok(list) => list,
        Err(LexFault::At { place, kind }) => return Ok(format!(in alloc;
            "{place} fault {kind:?}"
        )?),
        Err(LexFault::Memory) => return Ok(String::from_str(alloc, "memory")?),
    };
    let mut out = String::new(alloc);
    for token in &list {
        if !out.is_empty() {
            out.push_str("; ")?;
        }
        let token = shown_token(alloc, token)?;
        out.push_str(token.as_str())?;
    }
    Ok(out)
}

// Texts with their tokens: names and words, numbers, strings, templates, blanks and comments, marks.
const ROWS: [(&str, &str); 61] = [
    ("", "0 end"),
    ("a", "0 name \"a\"; 1 end"),
    (
        "$_a1 lets let",
        "0 name \"$_a1\"; 5 name \"lets\"; 10 word \"let\"; 13 end",
    ),
    (
        "await of async",
        "0 word \"await\"; 6 name \"of\"; 9 name \"async\"; 14 end",
    ),
    ("é𝒳1", "0 name \"\\u00e9\\ud835\\udcb31\"; 7 end"),
    (
        "0 7 10 9007199254740991",
        "0 number 0; 2 number 7; 4 number 10; 7 number 9007199254740991; 23 end",
    ),
    (
        "0x1F 0xff 0x1fffffffffffff",
        "0 number 31; 5 number 255; 10 number 9007199254740991; 26 end",
    ),
    ("1 .5", "0 number 1; 2 mark 8; 3 number 5; 4 end"),
    ("1+2", "0 number 1; 1 mark 16; 2 number 2; 3 end"),
    ("'a' \"b\"", "0 text \"a\"; 4 text \"b\"; 7 end"),
    ("'\"' \"'\"", "0 text \"\\\"\"; 4 text \"'\"; 7 end"),
    ("'\u{2028}'", "0 text \"\\u2028\"; 5 end"),
    (
        "'\\n\\t\\r\\b\\f\\v\\0'",
        "0 text \"\\u000a\\u0009\\u000d\\u0008\\u000c\\u000b\\u0000\"; 16 end",
    ),
    (
        "'\\x41\\u0042\\u{43}\\u{1F600}'",
        "0 text \"ABC\\ud83d\\ude00\"; 27 end",
    ),
    (
        "'\\u{10FFFF}\\u{0000000041}\\uD800'",
        "0 text \"\\udbff\\udfffA\\ud800\"; 32 end",
    ),
    ("'\\0a'", "0 text \"\\u0000a\"; 5 end"),
    ("'\\'\\\\\\q\\$'", "0 text \"'\\\\q$\"; 10 end"),
    (
        "'a\\\nb\\\r\nc\\\rd\\\u{2028}e'",
        "0 text \"abcde\"; 18 end",
    ),
    ("``", "0 piece \"\" first last; 2 end"),
    ("`a`", "0 piece \"a\" first last; 3 end"),
    (
        "`a${b}c`",
        "0 piece \"a\" first; 4 name \"b\"; 5 piece \"c\" last; 8 end",
    ),
    (
        "`${a}${b}`",
        "0 piece \"\" first; 3 name \"a\"; 4 piece \"\"; 7 name \"b\"; 8 piece \"\" last; 10 end",
    ),
    (
        "`a${`b${c}d`}e`",
        "0 piece \"a\" first; 4 piece \"b\" first; 8 name \"c\"; 9 piece \"d\" last; 12 piece \"e\" last; 15 end",
    ),
    (
        "`${ {a:{}} }`",
        "0 piece \"\" first; 4 mark 0; 5 name \"a\"; 6 mark 33; 7 mark 0; 8 mark 1; 9 mark 1; 11 piece \"\" last; 13 end",
    ),
    (
        "}`${}`{}",
        "0 mark 1; 1 piece \"\" first; 4 piece \"\" last; 6 mark 0; 7 mark 1; 8 end",
    ),
    (
        "`a\r\nb\rc\nd$e$`",
        "0 piece \"a\\u000ab\\u000ac\\u000ad$e$\" first last; 13 end",
    ),
    ("`\\``", "0 piece \"`\" first last; 4 end"),
    ("`\\${a}`", "0 piece \"${a}\" first last; 7 end"),
    ("`\\\r\nb`", "0 piece \"b\" first last; 6 end"),
    ("a\n b", "0 name \"a\"; 3! name \"b\"; 4 end"),
    (
        "a\rb\u{2028}c\u{2029}d",
        "0 name \"a\"; 2! name \"b\"; 6! name \"c\"; 10! name \"d\"; 11 end",
    ),
    (
        "a\t\u{B}\u{C} \u{A0}\u{FEFF}b",
        "0 name \"a\"; 10 name \"b\"; 11 end",
    ),
    ("a/**/b", "0 name \"a\"; 5 name \"b\"; 6 end"),
    ("a/*\n*/b", "0 name \"a\"; 6! name \"b\"; 7 end"),
    ("a/*\u{2029}*/b", "0 name \"a\"; 8! name \"b\"; 9 end"),
    ("a//x\nb", "0 name \"a\"; 5! name \"b\"; 6 end"),
    ("a//x\u{2028}b", "0 name \"a\"; 7! name \"b\"; 8 end"),
    ("a//x", "0 name \"a\"; 4 end"),
    ("/***/", "5 end"),
    ("/* * / */a", "9 name \"a\"; 10 end"),
    ("a\n", "0 name \"a\"; 2! end"),
    ("\n\na", "2! name \"a\"; 3 end"),
    ("a\nb c", "0 name \"a\"; 2! name \"b\"; 4 name \"c\"; 5 end"),
    ("a/b", "0 name \"a\"; 1 mark 19; 2 name \"b\"; 3 end"),
    ("==", "0 mark 34; 1 mark 34; 2 end"),
    ("!=", "0 mark 27; 1 mark 34; 2 end"),
    ("**", "0 mark 18; 1 mark 18; 2 end"),
    ("?.", "0 mark 32; 1 mark 8; 2 end"),
    (">>>=", "0 mark 23; 3 mark 34; 4 end"),
    ("..", "0 mark 8; 1 mark 8; 2 end"),
    ("....", "0 mark 9; 3 mark 8; 4 end"),
    ("<!--", "0 mark 10; 1 mark 27; 2 mark 41; 4 end"),
    ("=>=", "0 mark 42; 2 mark 34; 3 end"),
    ("&&&", "0 mark 29; 2 mark 24; 3 end"),
    ("||=", "0 mark 30; 2 mark 34; 3 end"),
    ("===>", "0 mark 14; 3 mark 11; 4 end"),
    (
        "x=>{}",
        "0 name \"x\"; 1 mark 42; 3 mark 0; 4 mark 1; 5 end",
    ),
    ("f(;", "0 name \"f\"; 1 mark 2; 2 mark 6; 3 end"),
    (
        "let a; let a;",
        "0 word \"let\"; 4 name \"a\"; 5 mark 6; 7 word \"let\"; 11 name \"a\"; 12 mark 6; 13 end",
    ),
    (
        "return 1;",
        "0 word \"return\"; 7 number 1; 8 mark 6; 9 end",
    ),
    ("\u{FEFF}", "0 fault Text"),
];

// Texts that have no tokens, with their first fault.
const FAULTS: [(&str, &str); 50] = [
    ("\\u0061", "0 fault Char"),
    ("#", "0 fault Char"),
    ("a @", "2 fault Char"),
    ("\u{200B}", "0 fault Char"),
    ("9007199254740992", "0 fault Number"),
    (
        "99999999999999999999999999999999999999999",
        "0 fault Number",
    ),
    ("0x20000000000000", "0 fault Number"),
    ("0x", "0 fault Number"),
    ("0xg", "0 fault Number"),
    ("0x1g", "0 fault Number"),
    ("0X1", "0 fault Number"),
    ("01", "0 fault Number"),
    ("1.5", "0 fault Number"),
    ("1.", "0 fault Number"),
    ("a 1a", "2 fault Number"),
    ("1n", "0 fault Number"),
    ("1_0", "0 fault Number"),
    ("1$", "0 fault Number"),
    ("1é", "0 fault Number"),
    ("'a", "0 fault String"),
    ("a 'b\"", "2 fault String"),
    ("'a\n'", "0 fault String"),
    ("\"a\r\"", "0 fault String"),
    ("'\\u{110000}'", "1 fault Escape"),
    ("'\\u{}'", "1 fault Escape"),
    ("'\\u{41'", "1 fault Escape"),
    ("'\\u{4g}'", "1 fault Escape"),
    ("'\\x4'", "1 fault Escape"),
    ("'\\xg4'", "1 fault Escape"),
    ("'\\u004'", "1 fault Escape"),
    ("'\\u'", "1 fault Escape"),
    ("'\\1'", "1 fault Escape"),
    ("'\\9'", "1 fault Escape"),
    ("'\\01'", "1 fault Escape"),
    ("'a\\8", "2 fault Escape"),
    ("'a\\", "2 fault Escape"),
    ("`\\1`", "1 fault Escape"),
    ("`a", "0 fault Template"),
    ("a `b${c", "2 fault Template"),
    ("`a${`b", "0 fault Template"),
    ("`a${`b${c", "0 fault Template"),
    ("`a${b}` `c${`d", "8 fault Template"),
    ("`a${{`b", "0 fault Template"),
    ("`${a}", "0 fault Template"),
    ("`${'a", "3 fault String"),
    ("`${/*", "3 fault Comment"),
    ("`${`\\1", "4 fault Escape"),
    ("/*", "0 fault Comment"),
    ("a/*/", "1 fault Comment"),
    ("'a\n/*", "0 fault String"),
];

#[test]
fn texts_have_their_tokens(rt: HostRuntime) -> Result<(), Fail> {
    for (text, wanted) in ROWS.iter().chain(FAULTS.iter()) {
        let found = shown(&rt, rt.alloc(), text.as_bytes())?;
        assert_eq!(rt; found.as_str(), *wanted, "at {text}");
    }
    Ok(())
}

// Bytes that are no text.
const BYTES: [(&[u8], &str); 4] = [
    (b"\xEF\xBB\xBFa", "0 fault Text"),
    (b"a \xFF", "2 fault Text"),
    (b"'a\xE2\x82", "2 fault Text"),
    (b"\xEF\xBB", "0 fault Text"),
];

#[test]
fn bytes_that_are_no_text_are_at_fault(rt: HostRuntime) -> Result<(), Fail> {
    for (bytes, wanted) in &BYTES {
        let found = shown(&rt, rt.alloc(), bytes)?;
        assert_eq!(rt; found.as_str(), *wanted);
    }
    Ok(())
}

// The marks in the order of their numbers.
const MARKS: [&str; 43] = [
    "{", "}", "(", ")", "[", "]", ";", ",", ".", "...", "<", ">", "<=", ">=", "===", "!==", "+",
    "-", "*", "/", "%", "<<", ">>", ">>>", "&", "|", "^", "!", "~", "&&", "||", "??", "?", ":",
    "=", "+=", "-=", "*=", "/=", "%=", "++", "--", "=>",
];

// The reserved words.
const WORDS: [&str; 46] = [
    "await",
    "break",
    "case",
    "catch",
    "class",
    "const",
    "continue",
    "debugger",
    "default",
    "delete",
    "do",
    "else",
    "enum",
    "export",
    "extends",
    "false",
    "finally",
    "for",
    "function",
    "if",
    "implements",
    "import",
    "in",
    "instanceof",
    "interface",
    "let",
    "new",
    "null",
    "package",
    "private",
    "protected",
    "public",
    "return",
    "static",
    "super",
    "switch",
    "this",
    "throw",
    "true",
    "try",
    "typeof",
    "var",
    "void",
    "while",
    "with",
    "yield",
];

#[test]
fn each_mark_and_word_is_one_token(rt: HostRuntime) -> Result<(), Fail> {
    let alloc = rt.alloc();
    for (number, mark) in MARKS.iter().enumerate() {
        let found = shown(&rt, alloc, mark.as_bytes())?;
        let end = mark.len();
        let wanted = format!(in alloc; "0 mark {number}; {end} end")?;
        assert_eq!(rt; found, wanted);
    }
    for word in &WORDS {
        let found = shown(&rt, alloc, word.as_bytes())?;
        let end = word.len();
        let wanted = format!(in alloc; "0 word \"{word}\"; {end} end")?;
        assert_eq!(rt; found, wanted);
        assert!(rt; !is_name(&Units::of_text(alloc, word)?));
    }
    Ok(())
}

// Texts, and whether they are names.
const NAMES: [(&str, bool); 12] = [
    ("a", true),
    ("$", true),
    ("_", true),
    ("é", true),
    ("𝒳", true),
    ("lets", true),
    ("of", true),
    ("", false),
    ("let", false),
    ("1a", false),
    ("a b", false),
    ("a-b", false),
];

#[test]
fn names_are_names(rt: HostRuntime) -> Result<(), Fail> {
    let alloc = rt.alloc();
    for (text, wanted) in &NAMES {
        let text = Units::of_text(alloc, text)?;
        assert_eq!(rt; is_name(&text), *wanted);
    }
    assert!(rt; !is_name(&Units::of_units(alloc, &[0xD835])?));
    assert!(rt; !is_name(&Units::of_units(alloc, &[0x61, 0xDCB3])?));
    assert!(rt; !is_name(&Units::of_units(alloc, &[0x61, 0xDCB3, 0xD835])?));
    assert!(rt; is_name(&Units::of_units(alloc, &[0x61, 0xD835, 0xDCB3])?));
    Ok(())
}
