//! Conversions between JSON and the bytes of V8's messages.
use crate::command::worlds;
use crate::tests::{room, words_of};
use std::alloc::Global;
use std::test::Fail;
use wl_causes::MemFolder;

/// A conversion of a file `f`: the word, the file's bytes, the status and the text wanted.
#[derive(Drop, Clone, Copy)]
struct Converted {
    word: &'static str,
    bytes: &'static [u8],
    status: u8,
    text: &'static [u8],
}

/// JSON values as messages.
const WIRED: [Converted; 7] = [
    Converted {
        word: "wire",
        bytes: b"{\"ab\":\"\xc4\x80\"}",
        status: 0,
        text: b"FF0F6F2202616200630200017B01\n",
    },
    Converted {
        word: "wire",
        bytes: b"[-1,2147483647,2147483648,9007199254740991]",
        status: 0,
        text: b"FF0F4104490149FEFFFFFF0F4E000000000000E0414EFFFFFFFFFFFF3F43240004\n",
    },
    Converted {
        word: "wire",
        bytes: b"{\"b\":1,\"2\":null,\"10\":true}",
        status: 0,
        text: b"FF0F6F49043049145422016249027B03\n",
    },
    Converted {
        word: "wire",
        bytes: b"[0.5]",
        status: 5,
        text: b"! shape f .\n",
    },
    Converted {
        word: "wire",
        bytes: b"9007199254740992",
        status: 5,
        text: b"! shape f .\n",
    },
    Converted {
        word: "wire",
        bytes: b"[1,]",
        status: 5,
        text: b"! json f\n",
    },
    Converted {
        word: "wire",
        bytes: b"\xff",
        status: 5,
        text: b"! json f\n",
    },
];

/// Messages that spell a parcel.
const UNWIRED: [Converted; 7] = [
    Converted {
        word: "unwire",
        bytes: b"\xff\x0f\x6f\x22\x01\x61\x5e\x00\x7b\x01",
        status: 0,
        text: b"#0={\"a\":#0}\n",
    },
    Converted {
        word: "unwire",
        bytes: b"\xff\x0f\x72\x54\x6d\x22\x03\x62\x61\x64\x73\x22\x01\x78\x2e",
        status: 0,
        text: b"#0=!TypeError(\"bad\")\n",
    },
    Converted {
        word: "unwire",
        bytes: b"\xff\x0f\x00\x55\x64",
        status: 0,
        text: b"100\n",
    },
    Converted {
        word: "unwire",
        bytes: b"\xff\x0f\x61\x01\x49\x00\x49\x06\x40\x01\x01",
        status: 0,
        text: b"#0=[3]\n",
    },
    Converted {
        word: "unwire",
        bytes: b"\xff\x0f\x63\x02\x00\x01",
        status: 0,
        text: b"\"\\u0100\"\n",
    },
    Converted {
        word: "unwire",
        bytes: b"\xff\x0f\x42\x02\x01\x02\x56\x42\x00\x02\x00",
        status: 0,
        text: b"#1=view(#0=bytes(0102),0,2)\n",
    },
    Converted {
        word: "unwire",
        bytes: b"\xff\x0d\x42\x02\x01\x02\x56\x42\x00\x02",
        status: 0,
        text: b"#1=view(#0=bytes(0102),0,2)\n",
    },
];

/// Messages with a fault, and its place.
const FAULTY: [Converted; 13] = [
    Converted {
        word: "unwire",
        bytes: b"\xff\x0f\x6f\x22\x01\x61\x5e\x01\x7b\x01",
        status: 9,
        text: b"! wire 6 reference\n",
    },
    Converted {
        word: "unwire",
        bytes: b"\xff\x0f",
        status: 9,
        text: b"! wire 2 cut\n",
    },
    Converted {
        word: "unwire",
        bytes: b"\xff\x0f\x30\x30",
        status: 9,
        text: b"! wire 3 trailing\n",
    },
    Converted {
        word: "unwire",
        bytes: b"",
        status: 9,
        text: b"! wire 0 cut\n",
    },
    Converted {
        word: "unwire",
        bytes: b"\x00",
        status: 9,
        text: b"! wire 0 header\n",
    },
    Converted {
        word: "unwire",
        bytes: b"\xff\x0c\x30",
        status: 9,
        text: b"! wire 1 version\n",
    },
    Converted {
        word: "unwire",
        bytes: b"\xff\x0f\x63\x03",
        status: 9,
        text: b"! wire 2 text\n",
    },
    Converted {
        word: "unwire",
        bytes: b"\xff\x0f\x5c\x4d\x00",
        status: 9,
        text: b"! wire 2 reference\n",
    },
    Converted {
        word: "unwire",
        bytes: b"\xff\x0e\x42\x02\x01\x02\x56\x42\x00\x03\x00",
        status: 9,
        text: b"! wire 6 view\n",
    },
    Converted {
        word: "unwire",
        bytes: b"\xff\x0f\x41\xff\xff\xff\xff\x0f",
        status: 9,
        text: b"! wire 8 cut\n",
    },
    Converted {
        word: "unwire",
        bytes: b"\xff\x0f\x22\xff\xff\xff\xff\x0f",
        status: 9,
        text: b"! wire 2 toolarge\n",
    },
    Converted {
        word: "unwire",
        bytes: b"\xff\x0f\x55\xff\xff\xff\xff\xff\x01",
        status: 9,
        text: b"! wire 3 varint\n",
    },
    Converted {
        word: "unwire",
        bytes: b"\xff\x0f\x6f\x22\x01\x61\x49\x02\x22\x01\x61\x49\x04\x7b\x02",
        status: 9,
        text: b"! wire 8 key\n",
    },
];

// Whether a conversion has the row's status and text.
fn converts(alloc: Global, row: &Converted) -> Result<bool, Fail> {
    let words = words_of(alloc, &[row.word, "f"])?;
    let mut folder = MemFolder::new(alloc);
    folder.put_file("f", row.bytes)?;
    let mut sink = room(alloc)?;
    let status = worlds(alloc, words.as_slice(), &mut folder, &mut sink);
    Ok(status.code() == row.status && sink.taken() == row.text)
}

#[test]
fn values_are_spelt(rt: HostRuntime) -> Result<(), Fail> {
    for row in &WIRED {
        assert!(rt; converts(rt.alloc(), row)?);
    }
    Ok(())
}

#[test]
fn messages_are_read(rt: HostRuntime) -> Result<(), Fail> {
    for row in &UNWIRED {
        assert!(rt; converts(rt.alloc(), row)?);
    }
    Ok(())
}

#[test]
fn faults_of_messages_are_told(rt: HostRuntime) -> Result<(), Fail> {
    for row in &FAULTY {
        assert!(rt; converts(rt.alloc(), row)?);
    }
    Ok(())
}
