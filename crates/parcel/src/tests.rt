use crate::*;
use sqlite_items::Items;
use std::alloc::{AllocError, Global};
use wl_text::{TextFault, Units};

// An item of a test's parcel.
#[derive(Clone, Copy)]
enum I {
    Undefined,
    Num(i64),
    Str(&'static str),
    Node(u32),
    Fn(Side, u32),
    Prom(Side, u32),
}

// A node of a test's parcel.
#[derive(Clone, Copy)]
enum N {
    Object(&'static [(&'static str, I)]),
    Array(&'static [I]),
    Error(ErrorKind, Option<&'static str>),
    Map(&'static [(I, I)]),
    Set(&'static [I]),
    Port(u32),
    Buffer(&'static [u8]),
    View(u32, u32, u32),
}

// A parcel: its root and its nodes, whether it is checked, and its text where it is.
struct Row {
    root: I,
    nodes: &'static [N],
    text: Option<&'static str>,
}

const ROWS: [Row; 34] = [
    // primitive values, functions and promises
    Row {
        root: I::Undefined,
        nodes: &[],
        text: Some("undefined"),
    },
    Row {
        root: I::Num(-12),
        nodes: &[],
        text: Some("-12"),
    },
    Row {
        root: I::Str("a\"\\\u{e9}"),
        nodes: &[],
        text: Some("\"a\\\"\\\\\\u00e9\""),
    },
    Row {
        root: I::Fn(Side::Far, 0),
        nodes: &[],
        text: Some("far0"),
    },
    Row {
        root: I::Prom(Side::Own, 3),
        nodes: &[],
        text: Some("ownp3"),
    },
    // the greatest and the least number
    Row {
        root: I::Num(9_007_199_254_740_991),
        nodes: &[],
        text: Some("9007199254740991"),
    },
    Row {
        root: I::Num(9_007_199_254_740_992),
        nodes: &[],
        text: None,
    },
    Row {
        root: I::Num(-9_007_199_254_740_991),
        nodes: &[],
        text: Some("-9007199254740991"),
    },
    Row {
        root: I::Num(-9_007_199_254_740_992),
        nodes: &[],
        text: None,
    },
    // a shared child and a cycle
    Row {
        root: I::Node(0),
        nodes: &[
            N::Array(&[I::Node(1)]),
            N::Object(&[("x", I::Node(2)), ("y", I::Node(2)), ("me", I::Node(1))]),
            N::Object(&[("n", I::Num(1))]),
        ],
        text: Some("#0=[#1={\"x\":#2={\"n\":1},\"y\":#2,\"me\":#1}]"),
    },
    // the same child copied, and numbered as if it weren't
    Row {
        root: I::Node(0),
        nodes: &[
            N::Array(&[I::Node(2), I::Node(1)]),
            N::Array(&[]),
            N::Array(&[]),
        ],
        text: None,
    },
    // all nodes must be reached, and stand
    Row {
        root: I::Num(1),
        nodes: &[N::Array(&[])],
        text: None,
    },
    Row {
        root: I::Node(0),
        nodes: &[N::Array(&[I::Node(1)])],
        text: None,
    },
    Row {
        root: I::Node(1),
        nodes: &[N::Array(&[]), N::Array(&[])],
        text: None,
    },
    // a Map's key before its value
    Row {
        root: I::Node(0),
        nodes: &[
            N::Map(&[(I::Node(1), I::Node(2)), (I::Num(1), I::Node(1))]),
            N::Set(&[I::Num(2)]),
            N::Set(&[]),
        ],
        text: Some("#0=map[#1=set[2]=>#2=set[],1=>#1]"),
    },
    Row {
        root: I::Node(0),
        nodes: &[
            N::Map(&[(I::Node(2), I::Node(1))]),
            N::Set(&[]),
            N::Set(&[]),
        ],
        text: None,
    },
    // errors and ports
    Row {
        root: I::Node(0),
        nodes: &[N::Error(ErrorKind::Error, None)],
        text: Some("#0=!Error()"),
    },
    Row {
        root: I::Node(0),
        nodes: &[N::Error(ErrorKind::RangeError, Some("out of range"))],
        text: Some("#0=!RangeError(\"out of range\")"),
    },
    Row {
        root: I::Node(0),
        nodes: &[N::Set(&[I::Node(1)]), N::Port(2)],
        text: Some("#0=set[#1=port(2)]"),
    },
    // keys: indices ascending, then names, none of them twice
    Row {
        root: I::Node(0),
        nodes: &[N::Object(&[
            ("0", I::Num(1)),
            ("10", I::Num(2)),
            ("b", I::Num(3)),
            ("a", I::Num(4)),
        ])],
        text: Some("#0={\"0\":1,\"10\":2,\"b\":3,\"a\":4}"),
    },
    Row {
        root: I::Node(0),
        nodes: &[N::Object(&[("10", I::Num(1)), ("9", I::Num(2))])],
        text: None,
    },
    Row {
        root: I::Node(0),
        nodes: &[N::Object(&[("a", I::Num(1)), ("0", I::Num(2))])],
        text: None,
    },
    Row {
        root: I::Node(0),
        nodes: &[N::Object(&[("a", I::Num(1)), ("a", I::Num(2))])],
        text: None,
    },
    Row {
        root: I::Node(0),
        nodes: &[N::Object(&[("7", I::Num(1)), ("7", I::Num(2))])],
        text: None,
    },
    // `01` and 2^32 - 1 are names, 2^32 - 2 is an index
    Row {
        root: I::Node(0),
        nodes: &[N::Object(&[("01", I::Num(1)), ("4294967295", I::Num(2))])],
        text: Some("#0={\"01\":1,\"4294967295\":2}"),
    },
    Row {
        root: I::Node(0),
        nodes: &[N::Object(&[("01", I::Num(1)), ("4294967294", I::Num(2))])],
        text: None,
    },
    // buffers and views
    Row {
        root: I::Node(0),
        nodes: &[N::Buffer(&[1, 2, 171])],
        text: Some("#0=bytes(0102AB)"),
    },
    Row {
        root: I::Node(1),
        nodes: &[N::Buffer(&[1, 2]), N::View(0, 0, 2)],
        text: Some("#1=view(#0=bytes(0102),0,2)"),
    },
    Row {
        root: I::Node(0),
        nodes: &[
            N::Object(&[("a", I::Node(2)), ("b", I::Node(1)), ("c", I::Node(3))]),
            N::Buffer(&[]),
            N::View(1, 0, 0),
            N::View(1, 0, 0),
        ],
        text: Some("#0={\"a\":#2=view(#1=bytes(),0,0),\"b\":#1,\"c\":#3=view(#1,0,0)}"),
    },
    // a view past its buffer, on something else, before its buffer
    Row {
        root: I::Node(1),
        nodes: &[N::Buffer(&[1, 2]), N::View(0, 1, 2)],
        text: None,
    },
    Row {
        root: I::Node(1),
        nodes: &[N::Array(&[]), N::View(0, 0, 0)],
        text: None,
    },
    Row {
        root: I::Node(0),
        nodes: &[N::View(1, 0, 0), N::Buffer(&[])],
        text: None,
    },
    Row {
        root: I::Node(0),
        nodes: &[
            N::Array(&[I::Node(1), I::Node(2)]),
            N::View(2, 0, 0),
            N::Buffer(&[]),
        ],
        text: None,
    },
    Row {
        root: I::Node(0),
        nodes: &[N::View(0, 0, 0)],
        text: None,
    },
];

fn item_of(alloc: Global, item: &I) -> Result<Item, TextFault> {
    Ok(match item {
        I::Undefined => Item::Undefined,
        I::Num(n) => Item::Num(*n),
        I::Str(text) => Item::Str(Units::of_text(alloc, *text)?),
        I::Node(number) => Item::Node(*number),
        I::Fn(side, number) => Item::Fn(*side, *number),
        I::Prom(side, number) => Item::Prom(*side, *number),
    })
}

fn items_of(alloc: Global, items: &[I]) -> Result<Items<Item>, TextFault> {
    let mut made = Items::new(alloc);
    for item in items {
        made.push(item_of(alloc, item)?)?;
    }
    Ok(made)
}

fn node_of(alloc: Global, node: &N) -> Result<PNode, TextFault> {
    match node {
        N::Object(properties) => {
            let mut made = Items::new(alloc);
            for (key, value) in *properties {
                let key = Units::of_text(alloc, *key)?;
                made.push((key, item_of(alloc, value)?))?;
            }
            Ok(PNode::Object(made))
        }
        N::Array(items) => Ok(PNode::Array(items_of(alloc, *items)?)),
        N::Error(kind, None) => Ok(PNode::Error(*kind, None)),
        N::Error(kind, Some(message)) => Ok(PNode::Error(
            *kind,
            Some(Units::of_text(alloc, *message)?),
        )),
        N::Map(entries) => {
            let mut made = Items::new(alloc);
            for (key, value) in *entries {
                let key = item_of(alloc, key)?;
                made.push((key, item_of(alloc, value)?))?;
            }
            Ok(PNode::Map(made))
        }
        N::Set(items) => Ok(PNode::Set(items_of(alloc, *items)?)),
        N::Port(place) => Ok(PNode::Port(*place)),
        N::Buffer(bytes) => Ok(PNode::Buffer(Items::from_slice(alloc, *bytes)?)),
        N::View(buffer, offset, length) => Ok(PNode::View {
            buffer: *buffer,
            offset: *offset,
            length: *length,
        }),
    }
}

fn parcel_of(alloc: Global, root: &I, nodes: &[N]) -> Result<Parcel, TextFault> {
    let mut made = Items::new(alloc);
    for node in nodes {
        made.push(node_of(alloc, node)?)?;
    }
    Ok(Parcel {
        root: item_of(alloc, root)?,
        nodes: made,
    })
}

#[test]
fn parcels_are_checked_and_shown(rt: HostRuntime) {
    for (number, row) in ROWS.iter().enumerate() {
        let parcel = parcel_of(rt.alloc(), &row.root, row.nodes).expect(&rt, "memory");
        assert_eq!(rt; check(&parcel), row.text.is_some(), "check of row {number}");
        if let Some(text) = row.text {
            let shown = show(rt.alloc(), &parcel).expect(&rt, "memory");
            assert_eq!(rt;
                str::from_utf8(shown.as_slice()).ok(),
                Some(text),
                "text of row {number}"
            );
        }
    }
}

#[test]
fn sides_are_exchanged(rt: HostRuntime) {
    let own = Parcel {
        root: Item::Fn(Side::Own, 0),
        nodes: Items::new(rt.alloc()),
    };
    let far = swap_sides(rt.alloc(), &own).expect(&rt, "memory");
    assert!(rt; matches!(&far.root, Item::Fn(Side::Far, 0)));
    let copied = copy(rt.alloc(), &far).expect(&rt, "memory");
    let shown = show(rt.alloc(), &copied).expect(&rt, "memory");
    assert_eq!(rt; shown.as_slice(), b"far0".as_slice());
}

// A chain of arrays, each in the one before; the last is empty.
fn chain(alloc: Global, count: u32) -> Result<Parcel, AllocError> {
    let mut nodes = Items::new(alloc);
    for number in 1..count {
        let mut items = Items::new(alloc);
        items.push(Item::Node(number))?;
        nodes.push(PNode::Array(items))?;
    }
    nodes.push(PNode::Array(Items::new(alloc)))?;
    Ok(Parcel {
        root: Item::Node(0),
        nodes,
    })
}

// An array of so many empty arrays, or of one of them so many times.
fn fan(alloc: Global, count: u32, shared: bool) -> Result<Parcel, AllocError> {
    let mut items = Items::new(alloc);
    let mut nodes = Items::new(alloc);
    for number in 0..count {
        items.push(Item::Node(if shared { 1 } else { number + 1 }))?;
    }
    nodes.push(PNode::Array(items))?;
    for number in 0..count {
        if number == 0 || !shared {
            nodes.push(PNode::Array(Items::new(alloc)))?;
        }
    }
    Ok(Parcel {
        root: Item::Node(0),
        nodes,
    })
}

// Whether a parcel that was made is checked.
fn is_checked(made: Result<Parcel, AllocError>) -> Option<bool> {
    match made {
        Ok(parcel) => Some(check(&parcel)),
        Err(_) => None,
    }
}

#[test]
fn limits_are_met_and_missed(rt: HostRuntime) {
    let alloc = rt.alloc();
    assert_eq!(rt; is_checked(chain(alloc, 1_001)), Some(true));
    assert_eq!(rt; is_checked(chain(alloc, 1_002)), Some(false));
    assert_eq!(rt; is_checked(fan(alloc, 99_999, false)), Some(true));
    assert_eq!(rt; is_checked(fan(alloc, 100_000, false)), Some(false));
    assert_eq!(rt; is_checked(fan(alloc, 999_999, true)), Some(true));
    assert_eq!(rt; is_checked(fan(alloc, 1_000_000, true)), Some(false));
}
