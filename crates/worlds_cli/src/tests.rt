//! Runs of the command over files in memory.
use crate::command::worlds;
use crate::status::Status;
use std::alloc::Global;
use std::test::Fail;
use wl_causes::{MemFolder, MemSink};

/// A run of `run a e`: the files that stand, the status and the text wanted.
#[derive(Drop, Clone, Copy)]
pub(crate) struct Row {
    pub manifest: Option<&'static [u8]>,
    pub main: Option<&'static [u8]>,
    pub preload: Option<&'static [u8]>,
    pub page: Option<&'static [u8]>,
    pub events: Option<&'static [u8]>,
    pub status: u8,
    pub text: &'static [u8],
}

pub(crate) const EMPTY: Row = Row {
    manifest: None,
    main: Some(b""),
    preload: None,
    page: None,
    events: Some(b""),
    status: 0,
    text: b"main << load\nmain > rest 0\n",
};

/// Manifests and files that are refused.
const MANIFESTS: [Row; 12] = [
    Row {
        main: None,
        status: 4,
        text: b"! absent a/main.js\n",
        ..EMPTY
    },
    Row {
        manifest: Some(b"{}"),
        main: None,
        status: 4,
        text: b"! absent a/main.js\n",
        ..EMPTY
    },
    Row {
        manifest: Some(b"{\"main\":\"x/y.js\"}"),
        status: 4,
        text: b"! absent a/x/y.js\n",
        ..EMPTY
    },
    Row {
        events: None,
        status: 4,
        text: b"! absent e\n",
        ..EMPTY
    },
    Row {
        manifest: Some(b"{"),
        main: None,
        status: 5,
        text: b"! json a/worlds.json\n",
        ..EMPTY
    },
    Row {
        manifest: Some(b"{\"windows\":[{}]}"),
        main: None,
        status: 5,
        text: b"! shape a/worlds.json windows[0].page\n",
        ..EMPTY
    },
    Row {
        manifest: Some(b"{\"limits\":{\"steps\":0}}"),
        status: 5,
        text: b"! shape a/worlds.json limits.steps\n",
        ..EMPTY
    },
    Row {
        manifest: Some(b"{\"title\":1}"),
        status: 5,
        text: b"! shape a/worlds.json title\n",
        ..EMPTY
    },
    Row {
        manifest: Some(b"[]"),
        status: 5,
        text: b"! shape a/worlds.json .\n",
        ..EMPTY
    },
    Row {
        main: None,
        events: None,
        status: 4,
        text: b"! absent a/main.js\n",
        ..EMPTY
    },
    Row {
        main: Some(b"x"),
        events: None,
        status: 6,
        text: b"! script a/main.js 1 token\n",
        ..EMPTY
    },
    Row {
        main: Some(b"f();"),
        events: None,
        status: 4,
        text: b"! absent e\n",
        ..EMPTY
    },
];

/// Event scripts that are refused.
const EVENTS: [Row; 7] = [
    Row {
        events: Some(b"step 0"),
        status: 7,
        text: b"! line e 1\n",
        ..EMPTY
    },
    Row {
        events: Some(b"# a\n\nstep 1\nstep 01"),
        status: 7,
        text: b"! line e 4\n",
        ..EMPTY
    },
    Row {
        main: Some(b"f();"),
        events: Some(b"step 0"),
        status: 7,
        text: b"! line e 1\n",
        ..EMPTY
    },
    Row {
        manifest: Some(b"{\"windows\":[{\"page\":\"main.js\"}]}"),
        events: Some(b"step 0"),
        status: 7,
        text: b"! line e 1\n",
        ..EMPTY
    },
    Row {
        manifest: Some(b"{\"limits\":{\"depth\":999}}"),
        main: Some(b"f();"),
        events: Some(b"step main"),
        status: 6,
        text: b"! script e 0 notbuilt\n",
        ..EMPTY
    },
    Row {
        main: Some(b"f();"),
        events: Some(b"step main"),
        status: 6,
        text: b"! script e 0 notbuilt\n",
        ..EMPTY
    },
    Row {
        events: Some(b"step main"),
        status: 6,
        text: b"! script e 0 notbuilt\n",
        ..EMPTY
    },
];

/// Scripts with a fault, and its place.
const FAULTS: [Row; 6] = [
    Row {
        main: Some(b"let x = 1.5;"),
        status: 6,
        text: b"! script a/main.js 8 number\n",
        ..EMPTY
    },
    Row {
        main: Some(b"console.log(\"a\""),
        status: 6,
        text: b"! script a/main.js 15 token\n",
        ..EMPTY
    },
    Row {
        main: Some(b"console.log(07);"),
        status: 6,
        text: b"! script a/main.js 12 number\n",
        ..EMPTY
    },
    Row {
        main: Some(b"console.log(9007199254740992);"),
        status: 6,
        text: b"! script a/main.js 12 number\n",
        ..EMPTY
    },
    Row {
        main: Some(b"let a; let a;"),
        status: 6,
        text: b"! script a/main.js 11 twice\n",
        ..EMPTY
    },
    Row {
        main: Some(b"return 1;"),
        status: 6,
        text: b"! script a/main.js 0 return\n",
        ..EMPTY
    },
];

fn folder_of(alloc: Global, row: &Row) -> Result<MemFolder, Fail> {
    let mut folder = MemFolder::new(alloc);
    put(&mut folder, "a/worlds.json", row.manifest)?;
    put(&mut folder, "a/main.js", row.main)?;
    put(&mut folder, "a/preload.js", row.preload)?;
    put(&mut folder, "a/page.js", row.page)?;
    put(&mut folder, "e", row.events)?;
    Ok(folder)
}

fn put(folder: &mut MemFolder, name: &str, bytes: Option<&'static [u8]>) -> Result<(), Fail> {
    if let Some(bytes) = bytes {
        folder.put_file(name, bytes)?;
    }
    Ok(())
}

pub(crate) fn words_of(alloc: Global, words: &[&'static str]) -> Result<Vec<String>, Fail> {
    let mut list = Vec::new(alloc);
    for word in words {
        list.push(String::from_str(alloc, word)?)?;
    }
    Ok(list)
}

pub(crate) fn room(alloc: Global) -> Result<MemSink, Fail> {
    let mut sink = MemSink::new(alloc);
    sink.reserve(4096)?;
    Ok(sink)
}

// Whether a run has the row's status and text.
pub(crate) fn holds(alloc: Global, row: &Row) -> Result<bool, Fail> {
    let words = words_of(alloc, &["run", "a", "e"])?;
    let mut folder = folder_of(alloc, row)?;
    let mut sink = room(alloc)?;
    let status = worlds(alloc, words.as_slice(), &mut folder, &mut sink);
    Ok(status.code() == row.status && sink.taken() == row.text)
}

#[test]
fn manifests_and_files_are_refused(rt: HostRuntime) -> Result<(), Fail> {
    for row in &MANIFESTS {
        assert!(rt; holds(rt.alloc(), row)?);
    }
    Ok(())
}

#[test]
fn event_scripts_are_refused(rt: HostRuntime) -> Result<(), Fail> {
    for row in &EVENTS {
        assert!(rt; holds(rt.alloc(), row)?);
    }
    Ok(())
}

#[test]
fn faults_of_scripts_are_told(rt: HostRuntime) -> Result<(), Fail> {
    for row in &FAULTS {
        assert!(rt; holds(rt.alloc(), row)?);
    }
    Ok(())
}

/// Words that fit no command.
#[derive(Drop, Clone, Copy)]
struct Words {
    words: &'static [&'static str],
}

const NO_COMMANDS: [Words; 7] = [
    Words { words: &[] },
    Words {
        words: &["run", "a"],
    },
    Words {
        words: &["walk", "a", "e"],
    },
    Words {
        words: &["run", "a", "e", "x"],
    },
    Words { words: &["wire"] },
    Words {
        words: &["unwire", "f", "g"],
    },
    Words { words: &["--help"] },
];

#[test]
fn words_that_fit_no_command_are_told(rt: HostRuntime) -> Result<(), Fail> {
    let alloc = rt.alloc();
    for row in &NO_COMMANDS {
        let words = words_of(alloc, row.words)?;
        let mut folder = MemFolder::new(alloc);
        let mut sink = room(alloc)?;
        let status = worlds(alloc, words.as_slice(), &mut folder, &mut sink);
        assert_eq!(rt; status.code(), 2);
        assert!(rt; sink.taken() == b"! words\n".as_slice());
    }
    Ok(())
}

#[test]
fn a_file_over_its_limit_is_told(rt: HostRuntime) -> Result<(), Fail> {
    let alloc = rt.alloc();
    let words = words_of(alloc, &["run", "a", "e"])?;
    for (extra, code, text) in [
        (0, 0, EMPTY.text),
        (1, 11, b"! long a/main.js 262144\n".as_slice()),
    ] {
        let mut folder = folder_of(alloc, &EMPTY)?;
        let blanks = vec![in alloc; b' '; 262_144 + extra]?;
        folder.put_file("a/main.js", blanks.as_slice())?;
        let mut sink = room(alloc)?;
        let status = worlds(alloc, words.as_slice(), &mut folder, &mut sink);
        assert_eq!(rt; status.code(), code);
        assert!(rt; sink.taken() == text);
    }
    Ok(())
}

#[test]
fn failing_calls_are_told_with_their_file_and_leave_a_front(rt: HostRuntime) -> Result<(), Fail> {
    let alloc = rt.alloc();
    let words = words_of(alloc, &["run", "a", "e"])?;
    for (call, text) in [
        (0, b"! read a/worlds.json\n".as_slice()),
        (1, b"! read a/main.js\n"),
        (2, b"! read e\n"),
    ] {
        let mut folder = folder_of(alloc, &EMPTY)?;
        folder.fail_calls(&[call])?;
        let mut sink = room(alloc)?;
        let status = worlds(alloc, words.as_slice(), &mut folder, &mut sink);
        assert!(rt; matches!(status, Status::FolderFault { .. }) && sink.taken() == text);
    }
    for (call, text) in [(0, b"".as_slice()), (1, b"main << load\n")] {
        let mut sink = room(alloc)?;
        sink.fail_calls(&[call])?;
        let status = worlds(
            alloc,
            words.as_slice(),
            &mut folder_of(alloc, &EMPTY)?,
            &mut sink,
        );
        assert!(rt; matches!(status, Status::SinkFault) && sink.taken() == text);
    }
    Ok(())
}
