//! The built-in objects of each kind of world, by the names that lead to them from the global object or the module.
use crate::new_realm;
use std::alloc::{AllocError, Global};
use wl_text::Units;
use world_heap::{Cell, Heap, Limits, Loc, Pool, Property, Value, body};
use world_kind::WorldKind;

// The realm of a kind of world.
fn realm_of(alloc: Global, kind: WorldKind) -> Result<Heap, AllocError> {
    let limits = Limits {
        steps: 1,
        cells: 1,
        places: 1,
        units: 1,
        depth: 1,
    };
    new_realm(alloc, limits, kind, Pool::new(alloc))
}

// A text of units.
fn text_of(alloc: Global, text: &str) -> Result<Units, AllocError> {
    match Units::of_text(alloc, text) {
        Ok(units) => Ok(units),
        Err(_) => Err(AllocError),
    }
}

// The property of the object at a location under a name.
fn property_at<'a>(heap: &'a Heap, loc: Loc, name: &Units) -> Option<&'a Property> {
    match heap.get(loc) {
        Some(cell) => match body(cell) {
            Some(body) => body.properties.get(name),
            None => None,
        },
        None => None,
    }
}

// A word for the cell at a location.
fn cell_word(heap: &Heap, loc: Loc) -> &'static [u8] {
    match heap.get(loc) {
        Some(Cell::Object { .. }) => b"object",
        Some(Cell::Native { .. }) => b"function",
        _ => b"other",
    }
}

// What a value is: its text in quotes, or a word.
fn value_word(alloc: Global, heap: &Heap, value: &Value) -> Result<Vec<u8>, AllocError> {
    match value {
        Value::Undefined => Vec::from_slice(alloc, b"undefined"),
        Value::Str(text) => text.quoted(alloc),
        Value::Ref(loc) => Vec::from_slice(alloc, cell_word(heap, *loc)),
        _ => Vec::from_slice(alloc, b"other"),
    }
}

// What stands under a name: nothing, an accessor, or a value.
fn property_word(
    alloc: Global,
    heap: &Heap,
    property: Option<&Property>,
) -> Result<Vec<u8>, AllocError> {
    match property {
        Some(Property::Data { value, .. }) => value_word(alloc, heap, value),
        Some(Property::Access { .. }) => Vec::from_slice(alloc, b"accessor"),
        None => Vec::from_slice(alloc, b"nothing"),
    }
}

// The location of the object that a property holds.
fn object_in(property: Option<&Property>) -> Option<Loc> {
    match property {
        Some(
            Property::Data {
                value: Value::Ref(loc),
                ..
            },
        ) => Some(*loc),
        _ => None,
    }
}

// What the names lead to from the object at a place on.
fn led_to(alloc: Global, heap: &Heap, place: usize, names: &[&str]) -> Result<Vec<u8>, AllocError> {
    let mut at = heap.location(place);
    let mut word = Vec::from_slice(alloc, b"object")?;
    for name in names {
        let name = text_of(alloc, name)?;
        let property = match at {
            Some(loc) => property_at(heap, loc, &name),
            None => None,
        };
        at = object_in(property);
        word = property_word(alloc, heap, property)?;
    }
    Ok(word)
}

struct Row {
    place: usize,
    names: &'static [&'static str],
    main: &'static str,
    preload: &'static str,
    page: &'static str,
}

/// The places of the global object and of the module.
const GLOBAL: usize = 16;

const MODULE: usize = 30;

const ROWS: [Row; 10] = [
    Row {
        place: GLOBAL,
        names: &["globalThis", "globalThis"],
        main: "object",
        preload: "object",
        page: "object",
    },
    Row {
        place: GLOBAL,
        names: &["undefined"],
        main: "undefined",
        preload: "undefined",
        page: "undefined",
    },
    Row {
        place: GLOBAL,
        names: &["console", "log"],
        main: "function",
        preload: "function",
        page: "function",
    },
    Row {
        place: GLOBAL,
        names: &["TypeError", "prototype", "name"],
        main: "\"TypeError\"",
        preload: "\"TypeError\"",
        page: "\"TypeError\"",
    },
    Row {
        place: GLOBAL,
        names: &["Error", "prototype", "message"],
        main: "\"\"",
        preload: "\"\"",
        page: "\"\"",
    },
    Row {
        place: GLOBAL,
        names: &["require"],
        main: "function",
        preload: "function",
        page: "nothing",
    },
    Row {
        place: GLOBAL,
        names: &["window", "console", "error"],
        main: "nothing",
        preload: "function",
        page: "function",
    },
    Row {
        place: GLOBAL,
        names: &["console", "table"],
        main: "nothing",
        preload: "nothing",
        page: "nothing",
    },
    Row {
        place: MODULE,
        names: &["app"],
        main: "object",
        preload: "nothing",
        page: "nothing",
    },
    Row {
        place: MODULE,
        names: &["ipcRenderer"],
        main: "nothing",
        preload: "object",
        page: "nothing",
    },
];

#[test]
fn names_lead_to_built_in_objects(rt: HostRuntime) -> Result<(), AllocError> {
    let alloc = rt.alloc();
    let main = realm_of(alloc, WorldKind::Main)?;
    let preload = realm_of(alloc, WorldKind::Preload)?;
    let page = realm_of(alloc, WorldKind::Page)?;
    for row in &ROWS {
        let found = led_to(alloc, &main, row.place, row.names)?;
        assert!(rt; found.as_slice() == row.main.as_bytes());
        let found = led_to(alloc, &preload, row.place, row.names)?;
        assert!(rt; found.as_slice() == row.preload.as_bytes());
        let found = led_to(alloc, &page, row.place, row.names)?;
        assert!(rt; found.as_slice() == row.page.as_bytes());
    }
    Ok(())
}

#[test]
fn each_kind_has_so_many_cells(rt: HostRuntime) -> Result<(), AllocError> {
    let alloc = rt.alloc();
    assert_eq!(rt; realm_of(alloc, WorldKind::Main)?.len(), 35);
    assert_eq!(rt; realm_of(alloc, WorldKind::Preload)?.len(), 33);
    assert_eq!(rt; realm_of(alloc, WorldKind::Page)?.len(), 30);
    Ok(())
}
