//! What scripts make.
use crate::expressions::EXPRESSIONS;
use crate::faults::FAULTS;
use crate::functions::FUNCTIONS;
use crate::row::Row;
use crate::running::log_of;
use crate::statements::STATEMENTS;
use std::alloc::{AllocError, Global};
use std::test::Fail;

// The first lines of a log as they are printed, and then one more.
fn lines(alloc: Global, log: &str, count: usize, last: Option<&str>) -> Result<String, AllocError> {
    let mut printed = String::new(alloc);
    for line in log.lines().take(count) {
        printed.push_str("main > ")?;
        printed.push_str(line)?;
        printed.push_str("\n")?;
    }
    if let Some(line) = last {
        printed.push_str("main > ")?;
        printed.push_str(line)?;
        printed.push_str("\n")?;
    }
    Ok(printed)
}

// The limits with one less of one of them.
fn one_less(limits: [u64; 4], at: usize) -> [u64; 4] {
    let mut fewer = limits;
    if at < 4 && 0 < fewer[at] {
        fewer[at] -= 1;
    }
    fewer
}

const STOPS: [&str; 4] = [
    "stopped fuel",
    "stopped cells",
    "stopped places",
    "stopped units",
];

// Whether a script makes its log, and stops where its limits say.
fn holds(alloc: Global, row: &Row) -> Result<bool, Fail> {
    let log = log_of(alloc, row.kind, row.text, row.limits)?;
    if log.as_slice() != lines(alloc, row.log, usize::MAX, None)?.as_bytes() {
        return Ok(false);
    }
    for at in 0..4 {
        if let Some(count) = row.told[at] {
            let log = log_of(alloc, row.kind, row.text, one_less(row.limits, at))?;
            if log.as_slice() != lines(alloc, row.log, count, Some(STOPS[at]))?.as_bytes() {
                return Ok(false);
            }
        }
    }
    Ok(true)
}

#[test]
fn statements_make_their_logs(rt: HostRuntime) -> Result<(), Fail> {
    for row in &STATEMENTS {
        let text = row.text;
        assert!(rt; holds(rt.alloc(), row)?, "{text}");
    }
    Ok(())
}

#[test]
fn functions_make_their_logs(rt: HostRuntime) -> Result<(), Fail> {
    for row in &FUNCTIONS {
        let text = row.text;
        assert!(rt; holds(rt.alloc(), row)?, "{text}");
    }
    Ok(())
}

#[test]
fn expressions_make_their_logs(rt: HostRuntime) -> Result<(), Fail> {
    for row in &EXPRESSIONS {
        let text = row.text;
        assert!(rt; holds(rt.alloc(), row)?, "{text}");
    }
    Ok(())
}

#[test]
fn faults_and_limits_end_scripts(rt: HostRuntime) -> Result<(), Fail> {
    for row in &FAULTS {
        let text = row.text;
        assert!(rt; holds(rt.alloc(), row)?, "{text}");
    }
    Ok(())
}
