//! A script, run in a new world.
use js_machine::State;
use js_realm::first_state;
use js_source::{Source, read_source};
use js_step::resume;
use js_tree::Tree;
use std::alloc::Global;
use std::test::Fail;
use world_heap::{Limits, Pool};
use world_kind::WorldKind;
use world_log::{Delivery, Entry, LogItem, Product, WorldName, print};

// Limits with so many steps, cells, places and units, where they are in range. Five calls may be active.
fn limits_of(counts: [u64; 4]) -> Option<Limits> {
    let [steps, cells, places, units] = counts;
    if steps < 1 || 1_000_000 < steps {
        return None;
    }
    if cells < 1 || 250_000 < cells {
        return None;
    }
    if places < 1 || 1_000_000 < places {
        return None;
    }
    if units < 1 || 16_777_216 < units {
        return None;
    }
    Some(Limits {
        steps,
        cells,
        places,
        units,
        depth: 5,
    })
}

// The script that a text is.
fn source_of(alloc: Global, text: &str) -> Result<Source, Fail> {
    if text.len() > 262_144 {
        let none: Option<Source> = None;
        return Ok(none.ok_or("the text is too long")?);
    }
    Ok(read_source(alloc, text.as_bytes())?)
}

// What a state makes of its script.
fn products_of(alloc: Global, state: &mut State, tree: &Tree) -> Result<Vec<Product>, Fail> {
    let mut products = Vec::new(alloc);
    if state.awaits(Delivery::Load) {
        resume(state, tree, true, Delivery::Load, &mut products)?;
    }
    Ok(products)
}

/// What a new world makes of a script with so many steps, cells, places and units, as it is printed.
pub(crate) fn log_of(
    alloc: Global,
    kind: WorldKind,
    text: &str,
    counts: [u64; 4],
) -> Result<Vec<u8>, Fail> {
    let limits = limits_of(counts).ok_or("the limits are out of range")?;
    let source = source_of(alloc, text)?;
    let mut state = first_state(alloc, limits, kind, Pool::new(alloc))?;
    let products = products_of(alloc, &mut state, &source.tree)?;
    let mut log = Vec::new(alloc);
    for product in products {
        let item = LogItem::World(WorldName::MAIN, Entry::Product(product));
        log.extend_from_slice(print(alloc, &item)?.as_slice())?;
    }
    Ok(log)
}
