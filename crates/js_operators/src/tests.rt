//! Operators as rows use them. The expected answers are those of ECMA-262, where a result that is no whole number from
//! -(2^53-1) to 2^53-1 is an error.
use crate::{
    Answer, byte_of, is_callable_value, is_truthy, key_of, made_text, moved, of_operands,
    point_end, primitive_text, strictly_equal, type_word, unary_of,
};
use js_tree::{BinaryOperator, UnaryOperator, UpdateOperator};
use std::alloc::{AllocError, Global};
use std::test::Fail;
use wl_text::Units;
use world_heap::{Heap, Limits, Loc, Pool, Value, WorldKind};

/// A value that stands in a table.
#[derive(Clone, Copy)]
enum Operand {
    Undefined,
    Null,
    Bool(bool),
    Num(i64),
    Text(&'static str),
    Object,
}

// A text of a table.
fn text(alloc: Global, letters: &str) -> Result<Units, AllocError> {
    match Units::of_text(alloc, letters) {
        Ok(text) => Ok(text),
        Err(_) => Err(AllocError),
    }
}

fn value(alloc: Global, operand: Operand) -> Result<Value, AllocError> {
    Ok(match operand {
        Operand::Undefined => Value::Undefined,
        Operand::Null => Value::Null,
        Operand::Bool(truth) => Value::Bool(truth),
        Operand::Num(number) => Value::Num(number),
        Operand::Text(letters) => Value::Str(text(alloc, letters)?),
        Operand::Object => Value::Ref(Loc::of(3)),
    })
}

// An answer in words: a number, a boolean, `makes` and a text in quotes, or the message of an error.
fn shown(alloc: Global, answer: &Answer) -> Result<String, AllocError> {
    match answer {
        Answer::Is(Value::Num(number)) => number.to_string(alloc),
        Answer::Is(Value::Bool(truth)) => truth.to_string(alloc),
        Answer::Is(_) => format!(in alloc; "another value"),
        Answer::Makes(text) => {
            let mut out = format!(in alloc; "makes ")?;
            for byte in &text.quoted(alloc)? {
                out.push(char::from(*byte))?;
            }
            Ok(out)
        }
        Answer::Fails(fault) => format!(in alloc; "{}", fault.message()),
    }
}

/// An operator between two operands, and its answer.
struct Row {
    operator: BinaryOperator,
    left: Operand,
    right: Operand,
    gives: &'static str,
}

const ROWS: [Row; 50] = [
    Row {
        operator: BinaryOperator::Add,
        left: Operand::Num(9_007_199_254_740_990),
        right: Operand::Num(1),
        gives: "9007199254740991",
    },
    Row {
        operator: BinaryOperator::Add,
        left: Operand::Num(9_007_199_254_740_991),
        right: Operand::Num(1),
        gives: "not a whole number",
    },
    Row {
        operator: BinaryOperator::Subtract,
        left: Operand::Num(-9_007_199_254_740_991),
        right: Operand::Num(1),
        gives: "not a whole number",
    },
    Row {
        operator: BinaryOperator::Add,
        left: Operand::Num(i64::MAX),
        right: Operand::Num(i64::MIN),
        gives: "-1",
    },
    Row {
        operator: BinaryOperator::Multiply,
        left: Operand::Num(94_906_267),
        right: Operand::Num(94_906_267),
        gives: "not a whole number",
    },
    Row {
        operator: BinaryOperator::Multiply,
        left: Operand::Num(-94_906_265),
        right: Operand::Num(94_906_265),
        gives: "-9007199136250225",
    },
    Row {
        operator: BinaryOperator::Multiply,
        left: Operand::Num(i64::MIN),
        right: Operand::Num(-1),
        gives: "not a whole number",
    },
    Row {
        operator: BinaryOperator::Multiply,
        left: Operand::Num(-5),
        right: Operand::Num(0),
        gives: "0",
    },
    Row {
        operator: BinaryOperator::Divide,
        left: Operand::Num(-12),
        right: Operand::Num(4),
        gives: "-3",
    },
    Row {
        operator: BinaryOperator::Divide,
        left: Operand::Num(7),
        right: Operand::Num(2),
        gives: "not a whole number",
    },
    Row {
        operator: BinaryOperator::Divide,
        left: Operand::Num(7),
        right: Operand::Num(0),
        gives: "not a whole number",
    },
    Row {
        operator: BinaryOperator::Divide,
        left: Operand::Num(i64::MIN),
        right: Operand::Num(-1),
        gives: "not a whole number",
    },
    Row {
        operator: BinaryOperator::Remainder,
        left: Operand::Num(-7),
        right: Operand::Num(3),
        gives: "-1",
    },
    Row {
        operator: BinaryOperator::Remainder,
        left: Operand::Num(7),
        right: Operand::Num(-3),
        gives: "1",
    },
    Row {
        operator: BinaryOperator::Remainder,
        left: Operand::Num(i64::MIN),
        right: Operand::Num(-1),
        gives: "0",
    },
    Row {
        operator: BinaryOperator::Remainder,
        left: Operand::Num(7),
        right: Operand::Num(0),
        gives: "not a whole number",
    },
    Row {
        operator: BinaryOperator::Less,
        left: Operand::Num(2),
        right: Operand::Num(2),
        gives: "false",
    },
    Row {
        operator: BinaryOperator::LessOrEqual,
        left: Operand::Num(2),
        right: Operand::Num(2),
        gives: "true",
    },
    Row {
        operator: BinaryOperator::Greater,
        left: Operand::Num(2),
        right: Operand::Num(2),
        gives: "false",
    },
    Row {
        operator: BinaryOperator::GreaterOrEqual,
        left: Operand::Num(2),
        right: Operand::Num(2),
        gives: "true",
    },
    Row {
        operator: BinaryOperator::GreaterOrEqual,
        left: Operand::Num(-3),
        right: Operand::Num(2),
        gives: "false",
    },
    Row {
        operator: BinaryOperator::BitAnd,
        left: Operand::Num(-1),
        right: Operand::Num(4_294_967_295),
        gives: "-1",
    },
    Row {
        operator: BinaryOperator::BitOr,
        left: Operand::Num(2_147_483_648),
        right: Operand::Num(0),
        gives: "-2147483648",
    },
    Row {
        operator: BinaryOperator::BitXor,
        left: Operand::Num(9_007_199_254_740_991),
        right: Operand::Num(1),
        gives: "-2",
    },
    Row {
        operator: BinaryOperator::ShiftLeft,
        left: Operand::Num(1),
        right: Operand::Num(31),
        gives: "-2147483648",
    },
    Row {
        operator: BinaryOperator::ShiftLeft,
        left: Operand::Num(1),
        right: Operand::Num(32),
        gives: "1",
    },
    Row {
        operator: BinaryOperator::ShiftLeft,
        left: Operand::Num(3),
        right: Operand::Num(0),
        gives: "3",
    },
    Row {
        operator: BinaryOperator::ShiftLeft,
        left: Operand::Num(1),
        right: Operand::Num(-1),
        gives: "-2147483648",
    },
    Row {
        operator: BinaryOperator::ShiftRight,
        left: Operand::Num(-5),
        right: Operand::Num(1),
        gives: "-3",
    },
    Row {
        operator: BinaryOperator::ShiftRight,
        left: Operand::Num(-5),
        right: Operand::Num(31),
        gives: "-1",
    },
    Row {
        operator: BinaryOperator::ShiftRight,
        left: Operand::Num(2_147_483_648),
        right: Operand::Num(0),
        gives: "-2147483648",
    },
    Row {
        operator: BinaryOperator::ShiftRightUnsigned,
        left: Operand::Num(-1),
        right: Operand::Num(0),
        gives: "4294967295",
    },
    Row {
        operator: BinaryOperator::ShiftRightUnsigned,
        left: Operand::Num(-1),
        right: Operand::Num(28),
        gives: "15",
    },
    Row {
        operator: BinaryOperator::ShiftRightUnsigned,
        left: Operand::Num(-1),
        right: Operand::Num(32),
        gives: "4294967295",
    },
    Row {
        operator: BinaryOperator::In,
        left: Operand::Num(1),
        right: Operand::Num(1),
        gives: "wrong operand",
    },
    Row {
        operator: BinaryOperator::Add,
        left: Operand::Text("a"),
        right: Operand::Text("b"),
        gives: "makes \"ab\"",
    },
    Row {
        operator: BinaryOperator::Subtract,
        left: Operand::Text("a"),
        right: Operand::Text("b"),
        gives: "wrong operand",
    },
    Row {
        operator: BinaryOperator::Less,
        left: Operand::Text("a"),
        right: Operand::Text("ab"),
        gives: "true",
    },
    Row {
        operator: BinaryOperator::Less,
        left: Operand::Text("B"),
        right: Operand::Text("a"),
        gives: "true",
    },
    Row {
        operator: BinaryOperator::Greater,
        left: Operand::Text("10"),
        right: Operand::Text("9"),
        gives: "false",
    },
    Row {
        operator: BinaryOperator::LessOrEqual,
        left: Operand::Text("a"),
        right: Operand::Text("a"),
        gives: "true",
    },
    Row {
        operator: BinaryOperator::GreaterOrEqual,
        left: Operand::Text("a"),
        right: Operand::Text("b"),
        gives: "false",
    },
    Row {
        operator: BinaryOperator::Add,
        left: Operand::Text("n"),
        right: Operand::Num(-7),
        gives: "makes \"n-7\"",
    },
    Row {
        operator: BinaryOperator::Add,
        left: Operand::Bool(true),
        right: Operand::Text("!"),
        gives: "makes \"true!\"",
    },
    Row {
        operator: BinaryOperator::Add,
        left: Operand::Undefined,
        right: Operand::Text(""),
        gives: "makes \"undefined\"",
    },
    Row {
        operator: BinaryOperator::Add,
        left: Operand::Text(""),
        right: Operand::Null,
        gives: "makes \"null\"",
    },
    Row {
        operator: BinaryOperator::Add,
        left: Operand::Text("o"),
        right: Operand::Object,
        gives: "wrong operand",
    },
    Row {
        operator: BinaryOperator::Less,
        left: Operand::Text("1"),
        right: Operand::Num(2),
        gives: "wrong operand",
    },
    Row {
        operator: BinaryOperator::Add,
        left: Operand::Num(1),
        right: Operand::Bool(true),
        gives: "wrong operand",
    },
    Row {
        operator: BinaryOperator::Add,
        left: Operand::Undefined,
        right: Operand::Undefined,
        gives: "wrong operand",
    },
];

#[test]
fn operators_between_two_operands(rt: HostRuntime) -> Result<(), Fail> {
    let alloc = rt.alloc();
    for row in &ROWS {
        let (left, right) = (value(alloc, row.left)?, value(alloc, row.right)?);
        let answer = of_operands(alloc, row.operator, &left, &right)?;
        let given = shown(alloc, &answer)?;
        assert_eq!(rt;
            given.as_str(),
            row.gives,
            "{:?} for {}",
            row.operator,
            row.gives
        );
    }
    Ok(())
}

/// A value, the word of its type, and what it is as a truth, as a text and as a key; `-` where it is none.
struct Conversion {
    of: Operand,
    word: &'static str,
    truth: bool,
    text: &'static str,
    key: &'static str,
}

const CONVERSIONS: [Conversion; 8] = [
    Conversion {
        of: Operand::Undefined,
        word: "undefined",
        truth: false,
        text: "undefined",
        key: "-",
    },
    Conversion {
        of: Operand::Null,
        word: "object",
        truth: false,
        text: "null",
        key: "-",
    },
    Conversion {
        of: Operand::Bool(false),
        word: "boolean",
        truth: false,
        text: "false",
        key: "-",
    },
    Conversion {
        of: Operand::Num(0),
        word: "number",
        truth: false,
        text: "0",
        key: "0",
    },
    Conversion {
        of: Operand::Num(-3),
        word: "number",
        truth: true,
        text: "-3",
        key: "-3",
    },
    Conversion {
        of: Operand::Text(""),
        word: "string",
        truth: false,
        text: "",
        key: "",
    },
    Conversion {
        of: Operand::Text("0"),
        word: "string",
        truth: true,
        text: "0",
        key: "0",
    },
    Conversion {
        of: Operand::Object,
        word: "object",
        truth: true,
        text: "-",
        key: "-",
    },
];

// Whether a text is the letters, or none where they are `-`.
fn is_written(alloc: Global, text_of: Option<Units>, letters: &str) -> Result<bool, AllocError> {
    match text_of {
        Some(found) => Ok(found == text(alloc, letters)?),
        None => Ok(letters == "-"),
    }
}

// Whether the value is converted as the table says, and the same as itself alone.
fn is_converted(alloc: Global, heap: &Heap, row: &Conversion) -> Result<bool, AllocError> {
    let (of, same) = (value(alloc, row.of)?, value(alloc, row.of)?);
    let word = type_word(heap, &of);
    Ok(
        word.as_bytes() == row.word.as_bytes()
            && is_truthy(&of) == row.truth
            && is_written(alloc, primitive_text(alloc, &of)?, row.text)?
            && is_written(alloc, key_of(alloc, &of)?, row.key)?
            && strictly_equal(&of, &same)
            && !strictly_equal(&of, &Value::Num(1))
            && !is_callable_value(heap, &of),
    )
}

#[test]
fn conversions_and_operators_of_one_operand(rt: HostRuntime) -> Result<(), Fail> {
    let alloc = rt.alloc();
    let limits = Limits {
        steps: 1,
        cells: 10,
        places: 10,
        units: 10,
        depth: 1,
    };
    let heap = Heap::new(alloc, limits, WorldKind::Main, Pool::new(alloc))?;
    for row in &CONVERSIONS {
        assert!(rt;
            is_converted(alloc, &heap, row)?,
            "{} {}",
            row.word,
            row.text
        );
    }
    let five = Value::Num(5);
    assert!(rt;
        matches!(
            unary_of(UnaryOperator::Minus, &five),
            Some(Answer::Is(Value::Num(-5)))
        )
    );
    assert!(rt;
        matches!(
            unary_of(UnaryOperator::BitNot, &five),
            Some(Answer::Is(Value::Num(-6)))
        )
    );
    assert!(rt; unary_of(UnaryOperator::Minus, &Value::Num(i64::MIN)).is_none());
    assert!(rt;
        matches!(
            moved(UpdateOperator::Decrement, 0),
            Answer::Is(Value::Num(-1))
        )
    );
    assert!(rt;
        matches!(
            moved(UpdateOperator::Increment, 9_007_199_254_740_991),
            Answer::Fails(_)
        )
    );
    assert_eq!(rt; (byte_of(-1), byte_of(257), byte_of(i64::MIN)), (255, 1, 0));
    Ok(())
}

// Whether a text is made of so many units and one more.
fn is_made(alloc: Global, count: usize) -> Result<bool, AllocError> {
    let long = vec![in alloc; 98u16; count]?;
    let Ok(long) = Units::of_units(alloc, long.as_slice()) else {
        return Ok(false);
    };
    let parts = [long, text(alloc, "a")?];
    Ok(matches!(made_text(alloc, &parts)?, Answer::Makes(_)))
}

#[test]
fn texts_are_made_of_parts_and_walked_by_points(rt: HostRuntime) -> Result<(), Fail> {
    let alloc = rt.alloc();
    let pair = Units::of_units(alloc, &[97, 0xd83d, 0xde00, 0xde00, 0xd83d])?;
    let ends = (
        point_end(&pair, 0),
        point_end(&pair, 1),
        point_end(&pair, 3),
    );
    assert_eq!(rt; ends, (1, 3, 4));
    assert_eq!(rt; point_end(&pair, 4), 5);
    assert!(rt; is_made(alloc, 1_048_575)?);
    assert!(rt; !is_made(alloc, 1_048_576)?);
    Ok(())
}
