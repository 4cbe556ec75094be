//! The calls on texts, by example.
use crate::{TextFault, Units, index_of, number_text, read_number};
use std::test::Fail;

/// A text, and what it is as a number and as an array index.
struct Row {
    text: &'static str,
    number: Option<i64>,
    index: Option<u32>,
}

const ROWS: [Row; 16] = [
    Row {
        text: "",
        number: None,
        index: None,
    },
    Row {
        text: "0",
        number: Some(0),
        index: Some(0),
    },
    Row {
        text: "-0",
        number: Some(0),
        index: None,
    },
    Row {
        text: "7",
        number: Some(7),
        index: Some(7),
    },
    Row {
        text: "007",
        number: Some(7),
        index: None,
    },
    Row {
        text: "00",
        number: Some(0),
        index: None,
    },
    Row {
        text: "-5",
        number: Some(-5),
        index: None,
    },
    Row {
        text: "-",
        number: None,
        index: None,
    },
    Row {
        text: "+1",
        number: None,
        index: None,
    },
    Row {
        text: "1.5",
        number: None,
        index: None,
    },
    Row {
        text: "1 ",
        number: None,
        index: None,
    },
    Row {
        text: "4294967294",
        number: Some(4_294_967_294),
        index: Some(4_294_967_294),
    },
    Row {
        text: "4294967295",
        number: Some(4_294_967_295),
        index: None,
    },
    Row {
        text: "9007199254740991",
        number: Some(9_007_199_254_740_991),
        index: None,
    },
    Row {
        text: "-9007199254740991",
        number: Some(-9_007_199_254_740_991),
        index: None,
    },
    Row {
        text: "9007199254740992",
        number: None,
        index: None,
    },
];

#[test]
fn numbers_are_read_from_texts(rt: HostRuntime) -> Result<(), Fail> {
    for row in &ROWS {
        let text = Units::of_text(rt.alloc(), row.text)?;
        assert_eq!(rt; read_number(&text), row.number, "{}", row.text);
        assert_eq!(rt; index_of(&text), row.index, "{}", row.text);
    }
    Ok(())
}

#[test]
fn texts_are_made_joined_cut_and_quoted(rt: HostRuntime) -> Result<(), Fail> {
    let alloc = rt.alloc();
    let a = Units::of_text(alloc, "a")?;
    let both = a.join(alloc, &Units::of_units(alloc, &[98])?)?;
    assert!(rt; both.as_slice() == [97, 98].as_slice());
    assert_eq!(rt; both.len(), 2);
    let b = both.part(alloc, 1, 2)?.copy(alloc)?;
    assert!(rt; a.before(&b) && !b.before(&a) && !b.before(&b) && b.same(&b) && !a.same(&b));
    assert!(rt; b.quoted(alloc)?.as_slice() == b"\"b\"".as_slice());
    let minus_five = number_text(alloc, -5)?;
    assert!(rt; minus_five.quoted(alloc)?.as_slice() == b"\"-5\"".as_slice());
    let odd = Units::of_text(alloc, "\"\\\u{7f}\u{1F600}\n")?;
    assert!(rt;
        odd.quoted(alloc)?.as_slice() == b"\"\\\"\\\\\\u007f\\ud83d\\ude00\\u000a\"".as_slice()
    );
    let most = vec![in alloc; 97u16; 1_048_576]?;
    let most = Units::of_units(alloc, most.as_slice())?;
    assert!(rt; matches!(most.join(alloc, &a), Err(TextFault::TooLong)));
    Ok(())
}
