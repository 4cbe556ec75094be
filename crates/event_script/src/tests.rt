//! Every form of line, right and wrong.
use crate::{Line, LineFault, LineKind, read_script};
use std::alloc::Global;
use std::test::Fail;
use wl_text::Units;
use world_kind::WorldKind;

/// What a line does, in texts.
enum What {
    Step(u32),
    Drain(u32),
    Event(WorldKind, u32, &'static str, &'static str),
    Reload(u32),
    Close(u32),
}

/// A script, and its lines with an effect.
struct Right {
    script: &'static str,
    lines: &'static [(u32, What)],
}

const RIGHT: [Right; 17] = [
    Right {
        script: "",
        lines: &[],
    },
    Right {
        script: "\n",
        lines: &[],
    },
    Right {
        script: "\n\n# comment\n#\n#step 9",
        lines: &[],
    },
    Right {
        script: "\r\n",
        lines: &[],
    },
    Right {
        script: "step main",
        lines: &[(1, What::Step(0))],
    },
    Right {
        script: "step 1\nstep 8\n",
        lines: &[(1, What::Step(1)), (2, What::Step(8))],
    },
    Right {
        script: "# a\n\nstep 2\n",
        lines: &[(3, What::Step(2))],
    },
    Right {
        script: "step 1\r\ndrain 5\r\n",
        lines: &[(1, What::Step(1)), (2, What::Drain(5))],
    },
    Right {
        script: "drain 0\ndrain 10000",
        lines: &[(1, What::Drain(0)), (2, What::Drain(10_000))],
    },
    Right {
        script: "reload 3\nclose 4\n",
        lines: &[(1, What::Reload(3)), (2, What::Close(4))],
    },
    Right {
        script: "event main a",
        lines: &[(1, What::Event(WorldKind::Main, 0, "a", ""))],
    },
    Right {
        script: "event main a ",
        lines: &[(1, What::Event(WorldKind::Main, 0, "a", ""))],
    },
    Right {
        script: "event preload1 a  b c",
        lines: &[(1, What::Event(WorldKind::Preload, 1, "a", " b c"))],
    },
    Right {
        script: "event page8 a-0 #é€😀",
        lines: &[(1, What::Event(WorldKind::Page, 8, "a-0", "#é€😀"))],
    },
    Right {
        script: "event page2 zzzzzzzzzzzzzzzzzzzzzzzzzzzzzzzz x",
        lines: &[(
            1,
            What::Event(WorldKind::Page, 2, "zzzzzzzzzzzzzzzzzzzzzzzzzzzzzzzz", "x"),
        )],
    },
    Right {
        script: "event main messages x\nevent main - message",
        lines: &[
            (1, What::Event(WorldKind::Main, 0, "messages", "x")),
            (2, What::Event(WorldKind::Main, 0, "-", "message")),
        ],
    },
    Right {
        script: "event main a b\r\nevent main a b\r\r\nevent main a b\r",
        lines: &[
            (1, What::Event(WorldKind::Main, 0, "a", "b")),
            (2, What::Event(WorldKind::Main, 0, "a", "b\r")),
            (3, What::Event(WorldKind::Main, 0, "a", "b\r")),
        ],
    },
];

const WRONG: [(&str, u32); 54] = [
    ("step 01", 1),
    ("step 0", 1),
    ("step 9", 1),
    ("step", 1),
    ("step ", 1),
    ("step 1 ", 1),
    ("step  1", 1),
    (" step 1", 1),
    ("step\t1", 1),
    ("step 1 2", 1),
    ("Step 1", 1),
    ("step mainx", 1),
    ("step 10", 1),
    ("steps 1", 1),
    ("drain 10001", 1),
    ("drain 00", 1),
    ("drain 01", 1),
    ("drain -1", 1),
    ("drain +1", 1),
    ("drain ", 1),
    ("drain 99999999999999999999", 1),
    ("drain main", 1),
    ("event", 1),
    ("event main", 1),
    ("event main ", 1),
    ("event  main a", 1),
    ("event main  a", 1),
    ("event preload0 a", 1),
    ("event preload9 a", 1),
    ("event page a", 1),
    ("event page10 a", 1),
    ("event preload a", 1),
    ("event Main a", 1),
    ("event main8 a", 1),
    ("event main message", 1),
    ("event main message x", 1),
    ("event main A", 1),
    ("event main a_b", 1),
    ("event main zzzzzzzzzzzzzzzzzzzzzzzzzzzzzzzzz", 1),
    ("event main é", 1),
    ("reload main", 1),
    ("reload 0", 1),
    ("reload 01", 1),
    ("close 9", 1),
    ("close", 1),
    ("step 1\r", 1),
    ("\r", 1),
    (" ", 1),
    (" # comment", 1),
    ("nothing", 1),
    ("# a\n\nstep 9\n", 3),
    ("step 1\nwrong\nstep 9", 2),
    ("step 1\n\n# a\r\nstep 1 \n", 4),
    ("step 9\nstep 01", 1),
];

fn kind_of(alloc: Global, what: &What) -> Result<LineKind, Fail> {
    match what {
        What::Step(process) => Ok(LineKind::Step(*process)),
        What::Drain(count) => Ok(LineKind::Drain(*count)),
        What::Event(kind, window, name, text) => Ok(LineKind::Event {
            kind: *kind,
            window: *window,
            name: Units::of_text(alloc, name)?,
            text: Units::of_text(alloc, text)?,
        }),
        What::Reload(window) => Ok(LineKind::Reload(*window)),
        What::Close(window) => Ok(LineKind::Close(*window)),
    }
}

// How many of the lines are as they are wanted, where there are as many.
fn count_alike(alloc: Global, lines: &[Line], want: &[(u32, What)]) -> Result<usize, Fail> {
    let mut alike = 0;
    for (line, (number, what)) in lines.iter().zip(want) {
        if line.number == *number && line.what == kind_of(alloc, what)? && alike < usize::MAX {
            alike += 1;
        }
    }
    Ok(alike)
}

// The lines of a script of the tests, or the number of the first wrong one.
fn read(alloc: Global, script: &[u8]) -> Result<Result<Vec<Line>, u32>, Fail> {
    if script.len() > 1_048_576 {
        return Err(Fail::new("too long"));
    }
    match read_script(alloc, script) {
        Ok(lines) => Ok(Ok(lines)),
        Err(LineFault::At { number }) => Ok(Err(number)),
        Err(LineFault::Memory) => Err(Fail::new("memory ran out")),
    }
}

#[test]
fn right_scripts_give_their_lines(rt: HostRuntime) -> Result<(), Fail> {
    for row in &RIGHT {
        let script = row.script;
        match read(rt.alloc(), script.as_bytes())? {
            Ok(lines) => {
                assert_eq!(rt; lines.len(), row.lines.len(), "in {script:?}");
                let alike = count_alike(rt.alloc(), &lines, row.lines)?;
                assert_eq!(rt; alike, row.lines.len(), "in {script:?}");
            }
            Err(number) => assert_eq!(rt; number, 0, "in {script:?}"),
        }
    }
    Ok(())
}

#[test]
fn the_first_wrong_line_is_told(rt: HostRuntime) -> Result<(), Fail> {
    for (script, number) in &WRONG {
        let found = read(rt.alloc(), script.as_bytes())?.err();
        assert_eq!(rt; found, Some(*number), "in {script:?}");
    }
    // bytes that are no UTF-8, in a comment, in a line with an effect, and after a wrong line
    let comment = [b'\n', b'#', 0xff, b'\n'];
    assert_eq!(rt; read(rt.alloc(), &comment)?.err(), Some(2));
    let line = *b"step 1\nevent main a \xc3(\nstep 1";
    assert_eq!(rt; read(rt.alloc(), &line)?.err(), Some(2));
    let both = *b"step\n\xff";
    assert_eq!(rt; read(rt.alloc(), &both)?.err(), Some(1));
    Ok(())
}

#[test]
fn a_script_may_have_1048576_bytes(rt: HostRuntime) -> Result<(), Fail> {
    let mut script = vec![in rt.alloc(); b'\n'; 1_048_576]?;
    script[1_048_575] = b'!';
    assert_eq!(rt; read(rt.alloc(), &script)?.err(), Some(1_048_576));
    let mut script = Vec::new(rt.alloc());
    for _ in 0..130_000 {
        script.extend_from_slice(b"close 1\n")?;
    }
    let count = read(rt.alloc(), &script)?.map_or(0, |lines| lines.len());
    assert_eq!(rt; count, 130_000);
    Ok(())
}
