//! Runs of applications, and their logs.
use crate::tests::{EMPTY, Row, holds};
use std::test::Fail;

/// Applications that are read, with an empty main script where none is given.
const READ: [Row; 6] = [
    EMPTY,
    Row {
        manifest: Some(b"{}"),
        ..EMPTY
    },
    Row {
        manifest: Some(b"{\"windows\":[],\"limits\":{\"steps\":1000000,\"depth\":1000}}"),
        ..EMPTY
    },
    Row {
        manifest: Some(b"{\"main\":\"main.js\"}"),
        events: Some(b"# nothing\n\n#"),
        ..EMPTY
    },
    Row {
        manifest: Some(b"{\"windows\":[{\"page\":\"main.js\"}]}"),
        text: b"main << load\nmain > rest 0\npreload1.1 << load\npreload1.1 > rest 0\npage1.1 << load\npage1.1 > rest 0\n",
        ..EMPTY
    },
    Row {
        manifest: Some(b"{\"limits\":{\"steps\":7}}"),
        ..EMPTY
    },
];

/// What the console shows.
const CONSOLE: [Row; 6] = [
    Row {
        main: Some(b"console.log(\"hi\", 7);"),
        text: b"main << load\nmain > console log \"hi 7\"\nmain > rest 0\n",
        ..EMPTY
    },
    Row {
        main: Some(b" \nconsole.log(0);\n\n console.log(9007199254740991); "),
        text: b"main << load\nmain > console log \"0\"\nmain > console log \"9007199254740991\"\nmain > rest 0\n",
        ..EMPTY
    },
    Row {
        main: Some(b"console.log(\"it's\", \"\");"),
        text: b"main << load\nmain > console log \"it's \"\nmain > rest 0\n",
        ..EMPTY
    },
    Row {
        main: Some(b"console.log();"),
        text: b"main << load\nmain > console log \"\"\nmain > rest 0\n",
        ..EMPTY
    },
    Row {
        main: Some(b"console.log(\"\\n\");"),
        text: b"main << load\nmain > console log \"\\u000a\"\nmain > rest 0\n",
        ..EMPTY
    },
    Row {
        main: Some(b"console.log(1,2);"),
        text: b"main << load\nmain > console log \"1 2\"\nmain > rest 0\n",
        ..EMPTY
    },
];

/// Expressions and prototypes.
const EXPRESSIONS: [Row; 5] = [
    Row {
        main: Some(
            b"const o = {n: 1, get m() { return this.n + 1; }}; o.n = 5; console.log(o.m, typeof o, [1, 2].length);",
        ),
        text: b"main << load\nmain > console log \"6 object 2\"\nmain > rest 0\n",
        ..EMPTY
    },
    Row {
        main: Some(
            b"function P(x) { this.x = x; } P.prototype.get = function () { return this.x; }; console.log(new P(3).get());",
        ),
        text: b"main << load\nmain > console log \"3\"\nmain > rest 0\n",
        ..EMPTY
    },
    Row {
        main: Some(b"console.log(1 / 2);"),
        text: b"main << load\nmain > uncaught \"RangeError: not a whole number\"\nmain > rest 0\n",
        ..EMPTY
    },
    Row {
        manifest: Some(b"{\"limits\":{\"steps\":9}}"),
        main: Some(b"console.log(1 + 2);"),
        text: b"main << load\nmain > console log \"3\"\nmain > rest 0\n",
        ..EMPTY
    },
    Row {
        manifest: Some(b"{\"limits\":{\"steps\":8}}"),
        main: Some(b"console.log(1 + 2);"),
        text: b"main << load\nmain > stopped fuel\n",
        ..EMPTY
    },
];

/// Statements and exceptions.
const STATEMENTS: [Row; 6] = [
    Row {
        main: Some(
            b"const fs = [0, 0, 0]; for (let i = 0; i < 3; i++) { fs[i] = () => i; } console.log(fs[0](), fs[2]());",
        ),
        text: b"main << load\nmain > console log \"0 2\"\nmain > rest 0\n",
        ..EMPTY
    },
    Row {
        main: Some(
            b"const f = () => { try { throw new TypeError(\"x\"); } finally { console.log(\"f\"); } }; try { f(); } catch (e) { console.log(e.name, e.message); }",
        ),
        text: b"main << load\nmain > console log \"f\"\nmain > console log \"TypeError x\"\nmain > rest 0\n",
        ..EMPTY
    },
    Row {
        main: Some(b"try { while (true) {} } finally { console.log(\"no\"); }"),
        text: b"main << load\nmain > stopped fuel\n",
        ..EMPTY
    },
    Row {
        manifest: Some(b"{\"limits\":{\"steps\":1000}}"),
        main: Some(b"while (true) {}"),
        text: b"main << load\nmain > stopped fuel\n",
        ..EMPTY
    },
    Row {
        manifest: Some(b"{\"limits\":{\"steps\":8}}"),
        main: Some(b"console.log(\"hi\", 7);"),
        text: b"main << load\nmain > console log \"hi 7\"\nmain > rest 0\n",
        ..EMPTY
    },
    Row {
        manifest: Some(b"{\"limits\":{\"steps\":7}}"),
        main: Some(b"console.log(\"hi\", 7);"),
        text: b"main << load\nmain > stopped fuel\n",
        ..EMPTY
    },
];

/// Windows whose scripts print, throw and stop.
const WINDOWS: [Row; 3] = [
    Row {
        manifest: Some(
            b"{\"windows\":[{\"page\":\"page.js\"},{\"preload\":\"preload.js\",\"page\":\"main.js\"}],\"limits\":{\"steps\":1000}}",
        ),
        main: Some(b"throw new TypeError(\"t\");"),
        preload: Some(b"console.log(1);"),
        page: Some(b"while (true) {}"),
        text: b"main << load\nmain > uncaught \"TypeError: t\"\nmain > rest 0\npreload1.1 << load\npreload1.1 > rest 0\npage1.1 << load\npage1.1 > stopped fuel\npreload2.1 << load\npreload2.1 > console log \"1\"\npreload2.1 > rest 0\npage2.1 << load\npage2.1 > uncaught \"TypeError: t\"\npage2.1 > rest 0\n",
        ..EMPTY
    },
    Row {
        manifest: Some(
            b"{\"windows\":[{\"preload\":\"page.js\",\"page\":\"preload.js\"},{\"preload\":\"preload.js\",\"page\":\"preload.js\"}],\"limits\":{\"steps\":1000}}",
        ),
        preload: Some(b"const n = 2; console.info(n);"),
        page: Some(b"while (true) {}"),
        text: b"main << load\nmain > rest 0\npreload1.1 << load\npreload1.1 > stopped fuel\npreload2.1 << load\npreload2.1 > console info \"2\"\npreload2.1 > rest 0\npage2.1 << load\npage2.1 > console info \"2\"\npage2.1 > rest 0\n",
        ..EMPTY
    },
    Row {
        manifest: Some(b"{\"windows\":[{\"page\":\"page.js\"}],\"limits\":{\"steps\":1000}}"),
        main: Some(b"while (true) {}"),
        page: Some(b"console.log(typeof require, typeof window);"),
        text: b"main << load\nmain > stopped fuel\npreload1.1 << load\npreload1.1 > rest 0\npage1.1 << load\npage1.1 > console log \"undefined object\"\npage1.1 > rest 0\n",
        ..EMPTY
    },
];

#[test]
fn applications_are_read(rt: HostRuntime) -> Result<(), Fail> {
    for row in &READ {
        assert!(rt; holds(rt.alloc(), row)?);
    }
    Ok(())
}

#[test]
fn the_console_shows_values(rt: HostRuntime) -> Result<(), Fail> {
    for row in &CONSOLE {
        assert!(rt; holds(rt.alloc(), row)?);
    }
    Ok(())
}

#[test]
fn expressions_are_evaluated(rt: HostRuntime) -> Result<(), Fail> {
    for row in &EXPRESSIONS {
        assert!(rt; holds(rt.alloc(), row)?);
    }
    Ok(())
}

#[test]
fn statements_are_run_within_the_limits(rt: HostRuntime) -> Result<(), Fail> {
    for row in &STATEMENTS {
        assert!(rt; holds(rt.alloc(), row)?);
    }
    Ok(())
}

#[test]
fn windows_print_and_throw_and_stop(rt: HostRuntime) -> Result<(), Fail> {
    for row in &WINDOWS {
        assert!(rt; holds(rt.alloc(), row)?);
    }
    Ok(())
}
