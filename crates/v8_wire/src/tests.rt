//! Rows of bytes, and what they are.
use super::*;
use parcel::check;
use std::alloc::{AllocError, Global};
use std::test::*;

/// Bytes in hexadecimal that two ports came along with, and the one spelling of the same parcel.
struct Spelling {
    bytes: &'static str,
    written: &'static str,
}

/// Bytes in hexadecimal that so many ports came along with, and their first fault.
struct Refusal {
    bytes: &'static str,
    ports: u32,
    place: u64,
    kind: WireKind,
}

const SPELLINGS: [Spelling; 47] = [
    Spelling {
        bytes: "FF0F5F",
        written: "FF0F5F",
    },
    Spelling {
        bytes: "FF0F30",
        written: "FF0F30",
    },
    Spelling {
        bytes: "FF0F54",
        written: "FF0F54",
    },
    Spelling {
        bytes: "FF0F46",
        written: "FF0F46",
    },
    Spelling {
        bytes: "FF0F4900",
        written: "FF0F4900",
    },
    Spelling {
        bytes: "FF0F49C801",
        written: "FF0F49C801",
    },
    Spelling {
        bytes: "FF0F6F2202616200630200017B01",
        written: "FF0F6F2202616200630200017B01",
    },
    Spelling {
        bytes: "FF0F4104490149FEFFFFFF0F4E000000000000E0414EFFFFFFFFFFFF3F43240004",
        written: "FF0F4104490149FEFFFFFF0F4E000000000000E0414EFFFFFFFFFFFF3F43240004",
    },
    Spelling {
        bytes: "FF0F4EFFFFFFFFFFFF3FC3",
        written: "FF0F4EFFFFFFFFFFFF3FC3",
    },
    Spelling {
        bytes: "FF0F49FFFFFFFF0F",
        written: "FF0F49FFFFFFFF0F",
    },
    Spelling {
        bytes: "FF0F4E000000200000E0C1",
        written: "FF0F4E000000200000E0C1",
    },
    Spelling {
        bytes: "FF0F63020001",
        written: "FF0F63020001",
    },
    Spelling {
        bytes: "FF0F6F2201615E007B01",
        written: "FF0F6F2201615E007B01",
    },
    Spelling {
        bytes: "FF0F72546D22036261642E",
        written: "FF0F72546D22036261642E",
    },
    Spelling {
        bytes: "FF0F722E",
        written: "FF0F722E",
    },
    Spelling {
        bytes: "FF0F72452E",
        written: "FF0F72452E",
    },
    Spelling {
        bytes: "FF0F3B49022201613A02",
        written: "FF0F3B49022201613A02",
    },
    Spelling {
        bytes: "FF0F274902302C02",
        written: "FF0F274902302C02",
    },
    Spelling {
        bytes: "FF0F420201025642000200",
        written: "FF0F420201025642000200",
    },
    Spelling {
        bytes: "FF0F41024201075E015642000100240002",
        written: "FF0F41024201075E015642000100240002",
    },
    Spelling {
        bytes: "FF0F41024201075E01240002",
        written: "FF0F41024201075E01240002",
    },
    Spelling {
        bytes: "FF0F6F490430220161307B02",
        written: "FF0F6F490430220161307B02",
    },
    Spelling {
        bytes: "FF0F6F4E0000C0FFFFFFEF41307B01",
        written: "FF0F6F4E0000C0FFFFFFEF41307B01",
    },
    Spelling {
        bytes: "FF0F5C4D00",
        written: "FF0F5C4D00",
    },
    Spelling {
        bytes: "FF0F41025C4D015E00240002",
        written: "FF0F41025C4D015E00240002",
    },
    Spelling {
        bytes: "FF0F41026302000163020001240002",
        written: "FF0F41026302000163020001240002",
    },
    Spelling {
        bytes: "FF0F41025F0063020001240002",
        written: "FF0F41025F0063020001240002",
    },
    Spelling {
        bytes: "FF0F6F0063020001307B01",
        written: "FF0F6F0063020001307B01",
    },
    Spelling {
        bytes: "FF0F6F2200307B01",
        written: "FF0F6F2200307B01",
    },
    Spelling {
        bytes: "FF0F005564",
        written: "FF0F49C801",
    },
    Spelling {
        bytes: "FF0F610149004906400101",
        written: "FF0F41014906240001",
    },
    Spelling {
        bytes: "FF0F4E0000000000000080",
        written: "FF0F4900",
    },
    Spelling {
        bytes: "FF0F4E000000000000F03F",
        written: "FF0F4902",
    },
    Spelling {
        bytes: "FF0F5302C480",
        written: "FF0F63020001",
    },
    Spelling {
        bytes: "FF0F63026100",
        written: "FF0F220161",
    },
    Spelling {
        bytes: "FF0F00220161",
        written: "FF0F220161",
    },
    Spelling {
        bytes: "FF0F498000",
        written: "FF0F4900",
    },
    Spelling {
        bytes: "FF0F55FFFFFFFF0F",
        written: "FF0F4E0000E0FFFFFFEF41",
    },
    Spelling {
        bytes: "FF0F72546D2203626164732201782E",
        written: "FF0F72546D22036261642E",
    },
    Spelling {
        bytes: "FF0F72732201782E",
        written: "FF0F722E",
    },
    Spelling {
        bytes: "FF0F726D002201787300005301782E",
        written: "FF0F726D2201782E",
    },
    Spelling {
        bytes: "FF0D4202010256420002",
        written: "FF0F420201025642000200",
    },
    Spelling {
        bytes: "FF0E4202010200005642000200",
        written: "FF0F420201025642000200",
    },
    Spelling {
        bytes: "FF0F6F63020001307B01",
        written: "FF0F6F0063020001307B01",
    },
    Spelling {
        bytes: "FF0F6F5304C480C48130007B01",
        written: "FF0F6F00630400010101307B01",
    },
    Spelling {
        bytes: "FF0F6100400000",
        written: "FF0F4100240000",
    },
    Spelling {
        bytes: "FF0F61025500304E000000000000F03F4600400202",
        written: "FF0F41023046240002",
    },
];

const REFUSALS: [Refusal; 70] = [
    Refusal {
        bytes: "",
        ports: 0,
        place: 0,
        kind: WireKind::Cut,
    },
    Refusal {
        bytes: "FF",
        ports: 0,
        place: 1,
        kind: WireKind::Cut,
    },
    Refusal {
        bytes: "FE0F30",
        ports: 0,
        place: 0,
        kind: WireKind::Header,
    },
    Refusal {
        bytes: "FF0C30",
        ports: 0,
        place: 1,
        kind: WireKind::Version,
    },
    Refusal {
        bytes: "FF1030",
        ports: 0,
        place: 1,
        kind: WireKind::Version,
    },
    Refusal {
        bytes: "FF0F",
        ports: 0,
        place: 2,
        kind: WireKind::Cut,
    },
    Refusal {
        bytes: "FF0F00",
        ports: 0,
        place: 3,
        kind: WireKind::Cut,
    },
    Refusal {
        bytes: "FF0F3030",
        ports: 0,
        place: 3,
        kind: WireKind::Trailing,
    },
    Refusal {
        bytes: "FF0F3056",
        ports: 0,
        place: 3,
        kind: WireKind::Trailing,
    },
    Refusal {
        bytes: "FF0F00556400",
        ports: 0,
        place: 5,
        kind: WireKind::Trailing,
    },
    Refusal {
        bytes: "FF0F6303",
        ports: 0,
        place: 2,
        kind: WireKind::Text,
    },
    Refusal {
        bytes: "FF0F5302C4",
        ports: 0,
        place: 5,
        kind: WireKind::Cut,
    },
    Refusal {
        bytes: "FF0F5301C4",
        ports: 0,
        place: 2,
        kind: WireKind::Text,
    },
    Refusal {
        bytes: "FF0F5C4D00",
        ports: 0,
        place: 2,
        kind: WireKind::Reference,
    },
    Refusal {
        bytes: "FF0F5C4D02",
        ports: 2,
        place: 2,
        kind: WireKind::Reference,
    },
    Refusal {
        bytes: "FF0F5C4E00",
        ports: 1,
        place: 3,
        kind: WireKind::Tag,
    },
    Refusal {
        bytes: "FF0F6F2201615E017B01",
        ports: 0,
        place: 6,
        kind: WireKind::Reference,
    },
    Refusal {
        bytes: "FF0F41FFFFFFFF0F",
        ports: 0,
        place: 8,
        kind: WireKind::Cut,
    },
    Refusal {
        bytes: "FF0F22FFFFFFFF0F",
        ports: 0,
        place: 2,
        kind: WireKind::TooLarge,
    },
    Refusal {
        bytes: "FF0F63FEFFFFFF0F",
        ports: 0,
        place: 2,
        kind: WireKind::TooLarge,
    },
    Refusal {
        bytes: "FF0F2205616263",
        ports: 0,
        place: 7,
        kind: WireKind::Cut,
    },
    Refusal {
        bytes: "FF0F55FFFFFFFFFF01",
        ports: 0,
        place: 3,
        kind: WireKind::Varint,
    },
    Refusal {
        bytes: "FF0F558080808010",
        ports: 0,
        place: 3,
        kind: WireKind::Varint,
    },
    Refusal {
        bytes: "FF0F55808080",
        ports: 0,
        place: 6,
        kind: WireKind::Cut,
    },
    Refusal {
        bytes: "FF0F6F220161490222016149047B02",
        ports: 0,
        place: 8,
        kind: WireKind::Key,
    },
    Refusal {
        bytes: "FF0F6F220161307B02",
        ports: 0,
        place: 7,
        kind: WireKind::Count,
    },
    Refusal {
        bytes: "FF0F57",
        ports: 0,
        place: 2,
        kind: WireKind::Tag,
    },
    Refusal {
        bytes: "FF0F4101240001",
        ports: 0,
        place: 4,
        kind: WireKind::Tag,
    },
    Refusal {
        bytes: "FF0F4100240100",
        ports: 0,
        place: 4,
        kind: WireKind::Count,
    },
    Refusal {
        bytes: "FF0F4100240001",
        ports: 0,
        place: 4,
        kind: WireKind::Count,
    },
    Refusal {
        bytes: "FF0F41012D",
        ports: 0,
        place: 4,
        kind: WireKind::Hole,
    },
    Refusal {
        bytes: "FF0F41002D",
        ports: 0,
        place: 4,
        kind: WireKind::Hole,
    },
    Refusal {
        bytes: "FF0F410030",
        ports: 0,
        place: 4,
        kind: WireKind::Key,
    },
    Refusal {
        bytes: "FF0F41006F",
        ports: 0,
        place: 4,
        kind: WireKind::Key,
    },
    Refusal {
        bytes: "FF0F41005E09",
        ports: 0,
        place: 4,
        kind: WireKind::Reference,
    },
    Refusal {
        bytes: "FF0F410057",
        ports: 0,
        place: 4,
        kind: WireKind::Tag,
    },
    Refusal {
        bytes: "FF0F61014902",
        ports: 0,
        place: 4,
        kind: WireKind::Hole,
    },
    Refusal {
        bytes: "FF0F610030",
        ports: 0,
        place: 4,
        kind: WireKind::Hole,
    },
    Refusal {
        bytes: "FF0F6101400101",
        ports: 0,
        place: 4,
        kind: WireKind::Tag,
    },
    Refusal {
        bytes: "FF0F6100400100",
        ports: 0,
        place: 4,
        kind: WireKind::Count,
    },
    Refusal {
        bytes: "FF0F610157",
        ports: 0,
        place: 4,
        kind: WireKind::Tag,
    },
    Refusal {
        bytes: "FF0F4E000000000000E03F",
        ports: 0,
        place: 2,
        kind: WireKind::Number,
    },
    Refusal {
        bytes: "FF0F4E0000000000004043",
        ports: 0,
        place: 2,
        kind: WireKind::Number,
    },
    Refusal {
        bytes: "FF0F4E00000000000040",
        ports: 0,
        place: 10,
        kind: WireKind::Cut,
    },
    Refusal {
        bytes: "FF0F6F30",
        ports: 0,
        place: 3,
        kind: WireKind::Key,
    },
    Refusal {
        bytes: "FF0F6F220135",
        ports: 0,
        place: 3,
        kind: WireKind::Key,
    },
    Refusal {
        bytes: "FF0F6F4902304902",
        ports: 0,
        place: 6,
        kind: WireKind::Key,
    },
    Refusal {
        bytes: "FF0F6F220161304902",
        ports: 0,
        place: 7,
        kind: WireKind::Key,
    },
    Refusal {
        bytes: "FF0F6F4901",
        ports: 0,
        place: 3,
        kind: WireKind::Key,
    },
    Refusal {
        bytes: "FF0F6F4EFFFFFFFFFFFFEF41",
        ports: 0,
        place: 3,
        kind: WireKind::Number,
    },
    Refusal {
        bytes: "FF0F6F55FFFFFFFF0F",
        ports: 0,
        place: 3,
        kind: WireKind::Key,
    },
    Refusal {
        bytes: "FF0F6F2D",
        ports: 0,
        place: 3,
        kind: WireKind::Tag,
    },
    Refusal {
        bytes: "FF0F6F5E00",
        ports: 0,
        place: 3,
        kind: WireKind::Key,
    },
    Refusal {
        bytes: "FF0F6F5E01",
        ports: 0,
        place: 3,
        kind: WireKind::Reference,
    },
    Refusal {
        bytes: "FF0F27302C02",
        ports: 0,
        place: 4,
        kind: WireKind::Count,
    },
    Refusal {
        bytes: "FF0F3B303A",
        ports: 0,
        place: 4,
        kind: WireKind::Tag,
    },
    Refusal {
        bytes: "FF0F3B30303A01",
        ports: 0,
        place: 5,
        kind: WireKind::Count,
    },
    Refusal {
        bytes: "FF0F7299",
        ports: 0,
        place: 3,
        kind: WireKind::Tag,
    },
    Refusal {
        bytes: "FF0F72546D30",
        ports: 0,
        place: 5,
        kind: WireKind::Tag,
    },
    Refusal {
        bytes: "FF0F72542E30",
        ports: 0,
        place: 5,
        kind: WireKind::Trailing,
    },
    Refusal {
        bytes: "FF0F7254002E",
        ports: 0,
        place: 4,
        kind: WireKind::Tag,
    },
    Refusal {
        bytes: "FF0F410156",
        ports: 0,
        place: 4,
        kind: WireKind::Tag,
    },
    Refusal {
        bytes: "FF0F420000",
        ports: 0,
        place: 4,
        kind: WireKind::Trailing,
    },
    Refusal {
        bytes: "FF0F42005641",
        ports: 0,
        place: 4,
        kind: WireKind::View,
    },
    Refusal {
        bytes: "FF0F42005642000001",
        ports: 0,
        place: 4,
        kind: WireKind::View,
    },
    Refusal {
        bytes: "FF0E420201025642000300",
        ports: 0,
        place: 6,
        kind: WireKind::View,
    },
    Refusal {
        bytes: "FF0F42020102564202",
        ports: 0,
        place: 9,
        kind: WireKind::Cut,
    },
    Refusal {
        bytes: "FF0D420201025642000200",
        ports: 0,
        place: 10,
        kind: WireKind::Trailing,
    },
    Refusal {
        bytes: "FF0F4281808001",
        ports: 0,
        place: 2,
        kind: WireKind::TooLarge,
    },
    Refusal {
        bytes: "FF0F4201",
        ports: 0,
        place: 4,
        kind: WireKind::Cut,
    },
];

fn again(alloc: Global, bytes: &[u8]) -> Result<Vec<u8>, WireFault> {
    let parcel = take(alloc, bytes, 2)?;
    if !check(&parcel) {
        return Err(WireFault::At {
            place: 0,
            kind: WireKind::Trailing,
        });
    }
    match put(alloc, &parcel) {
        Ok(bytes) => Ok(bytes),
        Err(_) => Err(WireFault::Memory),
    }
}

#[test]
fn each_accepted_spelling_is_written_in_the_one_form(rt: HostRuntime) -> Result<(), Fail> {
    for row in &SPELLINGS {
        let bytes = hex::decode(rt.alloc(), row.bytes)
            .ok()
            .ok_or("hexadecimal")?;
        let wanted = hex::decode(rt.alloc(), row.written)
            .ok()
            .ok_or("hexadecimal")?;
        let text = row.bytes;
        let written = again(rt.alloc(), &bytes);
        assert!(rt;
            matches!(&written, Ok(written) if written.as_slice() == wanted.as_slice()),
            "{text}"
        );
    }
    Ok(())
}

#[test]
fn the_first_fault_is_told(rt: HostRuntime) -> Result<(), Fail> {
    for row in &REFUSALS {
        let bytes = hex::decode(rt.alloc(), row.bytes)
            .ok()
            .ok_or("hexadecimal")?;
        let text = row.bytes;
        let told = take(rt.alloc(), &bytes, row.ports).err();
        let wanted = WireFault::At {
            place: row.place,
            kind: row.kind,
        };
        assert_eq!(rt; told, Some(wanted), "{text}");
    }
    Ok(())
}

// The bytes of an item below so many arrays of one element.
fn nested(alloc: Global, levels: u32, inner: &[u8]) -> Result<Vec<u8>, AllocError> {
    let mut bytes = Vec::new(alloc);
    bytes.extend_from_slice(&[0xFF, 0x0F])?;
    for _ in 0..levels {
        bytes.extend_from_slice(&[0x41, 1])?;
    }
    bytes.extend_from_slice(inner)?;
    for _ in 0..levels {
        bytes.extend_from_slice(&[0x24, 0, 1])?;
    }
    Ok(bytes)
}

// An array of so many items, its length in three bytes.
fn many(alloc: Global, count: u32, item: &[u8]) -> Result<Vec<u8>, AllocError> {
    let length = [
        (count % 128 + 128) as u8,
        (count / 128 % 128 + 128) as u8,
        (count / 16_384 % 128) as u8,
    ];
    let mut bytes = Vec::new(alloc);
    bytes.extend_from_slice(&[0xFF, 0x0F, 0x41])?;
    bytes.extend_from_slice(&length)?;
    for _ in 0..count {
        bytes.extend_from_slice(item)?;
    }
    bytes.extend_from_slice(&[0x24, 0])?;
    bytes.extend_from_slice(&length)?;
    Ok(bytes)
}

#[test]
fn the_limits_are_met_exactly(rt: HostRuntime) -> Result<(), Fail> {
    let alloc = rt.alloc();
    // Nesting 1,000, and one more.
    let deepest = nested(alloc, 1_000, &[0x30])?;
    assert!(rt;
        matches!(again(alloc, &deepest), Ok(written) if written.as_slice() == deepest.as_slice())
    );
    let deeper = nested(alloc, 1_001, &[0x30])?;
    let told = take(alloc, &deeper, 0).err();
    assert_eq!(rt;
        told,
        Some(WireFault::At {
            place: 2004,
            kind: WireKind::TooLarge
        })
    );
    // 100,000 nodes, and one more.
    let most = many(alloc, 99_999, &[0x6F, 0x7B, 0])?;
    assert!(rt;
        matches!(again(alloc, &most), Ok(written) if written.as_slice() == most.as_slice())
    );
    let more = many(alloc, 100_000, &[0x6F, 0x7B, 0])?;
    let told = take(alloc, &more, 0).err();
    assert_eq!(rt;
        told,
        Some(WireFault::At {
            place: 300_003,
            kind: WireKind::TooLarge
        })
    );
    // 1,000,000 items, and one more.
    let most = many(alloc, 999_999, &[0x30])?;
    assert!(rt; take(alloc, &most, 0).is_ok());
    let more = many(alloc, 1_000_000, &[0x30])?;
    let told = take(alloc, &more, 0).err();
    assert_eq!(rt;
        told,
        Some(WireFault::At {
            place: 1_000_005,
            kind: WireKind::TooLarge
        })
    );
    Ok(())
}
