use crate::{InputFault, parcel_of_json};
use parcel::show;
use std::alloc::{AllocError, Global};

// A JSON text, and the text of its parcel or the fault.
struct Row {
    json: &'static str,
    told: Result<&'static str, InputFault>,
}

const ROWS: [Row; 24] = [
    Row {
        json: "{\"ab\":\"\u{100}\"}",
        told: Ok("#0={\"ab\":\"\\u0100\"}"),
    },
    Row {
        json: "[-1,2147483647,2147483648,9007199254740991]",
        told: Ok("#0=[-1,2147483647,2147483648,9007199254740991]"),
    },
    Row {
        json: "[0.5]",
        told: Err(InputFault::Shape),
    },
    Row {
        json: "[1.0]",
        told: Err(InputFault::Shape),
    },
    Row {
        json: "[-0]",
        told: Err(InputFault::Shape),
    },
    Row {
        json: "[1e2]",
        told: Err(InputFault::Shape),
    },
    Row {
        json: "-9007199254740991",
        told: Ok("-9007199254740991"),
    },
    Row {
        json: "9007199254740992",
        told: Err(InputFault::Shape),
    },
    Row {
        json: "-9007199254740992",
        told: Err(InputFault::Shape),
    },
    Row {
        json: "18446744073709551615",
        told: Err(InputFault::Shape),
    },
    Row {
        json: "18446744073709551616",
        told: Err(InputFault::Shape),
    },
    Row {
        json: " [ null , true , false , \"\" ] ",
        told: Ok("#0=[null,true,false,\"\"]"),
    },
    Row {
        json: "\"\\u00e9\u{1f600}\"",
        told: Ok("\"\\u00e9\\ud83d\\ude00\""),
    },
    // of a key that stands twice the last value counts
    Row {
        json: "{\"a\":1,\"b\":2,\"a\":[3]}",
        told: Ok("#0={\"a\":#1=[3],\"b\":2}"),
    },
    // indices ascending, then names in byte order of UTF-8, numbered as they are visited
    Row {
        json: "{\"b\":[],\"10\":{},\"9\":[[]],\"01\":1,\"a\":2,\"4294967294\":3,\"4294967295\":4,\"0\":5,\"\":6,\"-1\":7}",
        told: Ok(
            "#0={\"0\":5,\"9\":#1=[#2=[]],\"10\":#3={},\"4294967294\":3,\"\":6,\"-1\":7,\"01\":1,\"4294967295\":4,\"a\":2,\"b\":#4=[]}",
        ),
    },
    Row {
        json: "{\"\u{1f600}\":1,\"\u{ffff}\":2}",
        told: Ok("#0={\"\\uffff\":2,\"\\ud83d\\ude00\":1}"),
    },
    Row {
        json: "{}",
        told: Ok("#0={}"),
    },
    Row {
        json: "",
        told: Err(InputFault::Json),
    },
    Row {
        json: "[1,]",
        told: Err(InputFault::Json),
    },
    Row {
        json: "{\"a\":1} x",
        told: Err(InputFault::Json),
    },
    Row {
        json: "\"\\ud83d\"",
        told: Err(InputFault::Json),
    },
    Row {
        json: "01",
        told: Err(InputFault::Json),
    },
    Row {
        json: "undefined",
        told: Err(InputFault::Json),
    },
    Row {
        json: "[",
        told: Err(InputFault::Json),
    },
];

#[test]
fn json_is_read_as_parcels(rt: HostRuntime) {
    for row in &ROWS {
        let json = row.json;
        match parcel_of_json(rt.alloc(), json.as_bytes()) {
            Ok(parcel) => {
                let shown = show(rt.alloc(), &parcel).expect(&rt, "memory");
                assert_eq!(rt;
                    str::from_utf8(shown.as_slice()).ok(),
                    row.told.ok(),
                    "parcel of {json}"
                );
            }
            Err(fault) => assert_eq!(rt; Some(fault), row.told.err(), "fault of {json}"),
        }
    }
}

// So many times the same bytes, between two others.
fn repeated(
    alloc: Global,
    front: &[u8],
    middle: &[u8],
    count: usize,
    back: &[u8],
) -> Result<Vec<u8>, AllocError> {
    let mut text = Vec::new(alloc);
    text.extend_from_slice(front)?;
    for _ in 0..count {
        text.extend_from_slice(middle)?;
    }
    text.extend_from_slice(back)?;
    Ok(text)
}

// A JSON text with a part that is repeated, and why it gives no parcel.
struct LongRow {
    front: &'static [u8],
    middle: &'static [u8],
    count: usize,
    back: &'static [u8],
    fault: Option<InputFault>,
}

const LONG_ROWS: [LongRow; 7] = [
    LongRow {
        front: b"[",
        middle: b"[],",
        count: 99_998,
        back: b"[]]",
        fault: None,
    },
    LongRow {
        front: b"[",
        middle: b"[],",
        count: 99_999,
        back: b"[]]",
        fault: Some(InputFault::Shape),
    },
    LongRow {
        front: b"\"",
        middle: b"a",
        count: 1_048_576,
        back: b"\"",
        fault: None,
    },
    LongRow {
        front: b"\"",
        middle: b"a",
        count: 1_048_577,
        back: b"\"",
        fault: Some(InputFault::Shape),
    },
    LongRow {
        front: b"{\"",
        middle: b"a",
        count: 1_048_577,
        back: b"\":0}",
        fault: Some(InputFault::Shape),
    },
    LongRow {
        front: b"",
        middle: b"[",
        count: 128,
        back: b"",
        fault: Some(InputFault::Json),
    },
    LongRow {
        front: b"\"",
        middle: &[255],
        count: 1,
        back: b"\"",
        fault: Some(InputFault::Json),
    },
];

#[test]
fn limits_are_met_and_missed(rt: HostRuntime) {
    for (number, row) in LONG_ROWS.iter().enumerate() {
        let text = repeated(rt.alloc(), row.front, row.middle, row.count, row.back).expect(
            &rt, "memory",
        );
        let fault = parcel_of_json(rt.alloc(), text.as_slice()).err();
        assert_eq!(rt; fault, row.fault, "fault of long row {number}");
    }
}
