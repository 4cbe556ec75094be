//! Calls of built-in functions, by their numbers.
use crate::native;
use js_machine::{Control, Next, State};
use js_semantics::{Outcome, StepFault};
use std::alloc::{AllocError, Global};
use wl_text::Units;
use world_heap::{Heap, Limits, Pool, Value};
use world_kind::WorldKind;
use world_log::Product;

// The state of a world whose units are limited.
fn state_of(alloc: Global) -> Result<State, AllocError> {
    let limits = Limits {
        steps: 1,
        cells: 1,
        places: 2,
        units: 22,
        depth: 1,
    };
    let heap = Heap::new(alloc, limits, WorldKind::Main, Pool::new(alloc))?;
    Ok(State::new(alloc, heap, WorldKind::Main))
}

// A text of units.
fn text_of(alloc: Global, text: &str) -> Result<Value, AllocError> {
    match Units::of_text(alloc, text) {
        Ok(units) => Ok(Value::Str(units)),
        Err(_) => Err(AllocError),
    }
}

// A word for how a row goes on.
fn control_word(control: &Control) -> &'static str {
    match control {
        Control::Give(Outcome::Normal(Value::Ref(_))) => "object",
        Control::Give(Outcome::Thrown(_)) => "thrown",
        _ => "other",
    }
}

// What a call does: a line in quotes, or a word.
fn shown(alloc: Global, state: &State, next: Next) -> Result<Vec<u8>, AllocError> {
    match next {
        Next::Made(Product::Console(_, text)) => text.quoted(alloc),
        Next::Made(_) => Vec::from_slice(alloc, b"stopped"),
        Next::Go => Vec::from_slice(alloc, control_word(&state.control).as_bytes()),
    }
}

// What a call with a text does in a new world.
fn called(alloc: Global, id: u16, text: &str) -> Result<Vec<u8>, AllocError> {
    let mut state = state_of(alloc)?;
    let argument = text_of(alloc, text)?;
    match native(&mut state, id, &Value::Undefined, &[argument]) {
        Ok(next) => shown(alloc, &state, next),
        Err(StepFault::Memory) => Err(AllocError),
        Err(StepFault::Dangling) => Vec::from_slice(alloc, b"dangling"),
    }
}

struct Row {
    id: u16,
    text: &'static str,
    does: &'static str,
}

const ROWS: [Row; 7] = [
    Row {
        id: 0,
        text: "a b",
        does: "\"a b\"",
    },
    Row {
        id: 3,
        text: "twenty-two units stand",
        does: "\"twenty-two units stand\"",
    },
    Row {
        id: 3,
        text: "twenty-three units stop",
        does: "stopped",
    },
    Row {
        id: 5,
        text: "an error",
        does: "object",
    },
    Row {
        id: 11,
        text: "x",
        does: "thrown",
    },
    Row {
        id: 11,
        text: "electron",
        does: "stopped",
    },
    Row {
        id: 12,
        text: "no function",
        does: "thrown",
    },
];

#[test]
fn calls_do_what_their_numbers_say(rt: HostRuntime) {
    let alloc = rt.alloc();
    for row in &ROWS {
        match called(alloc, row.id, row.text) {
            Ok(does) => assert!(rt; does.as_slice() == row.does.as_bytes()),
            Err(_) => assert!(rt; false),
        }
    }
}
