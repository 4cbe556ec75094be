//! Worlds of small scripts, from their beginning to their end.
use crate::{World, Yield};
use js_source::{Source, read_source};
use std::alloc::{AllocError, Global};
use std::test::Fail;
use world_heap::{Limits, Pool};
use world_kind::WorldKind;
use world_log::{Delivery, Entry, LogItem, Product, Stop, WorldName, print};

/// A script, and what a world makes of it.
struct Row {
    text: &'static str,
    log: &'static str,
    ends: Yield,
}

const ROWS: [Row; 4] = [
    Row {
        text: "",
        log: "main > rest 0\n",
        ends: Yield::Rest(0),
    },
    Row {
        text: "console.log('a', 7); throw 1;",
        log: "main > console log \"a 7\"\nmain > uncaught \"1\"\nmain > rest 0\n",
        ends: Yield::Rest(0),
    },
    Row {
        text: "console.log(1); while (true) {}",
        log: "main > console log \"1\"\nmain > stopped fuel\n",
        ends: Yield::Stopped(Stop::Fuel),
    },
    Row {
        text: "const a = []; while (true) { a[a.length] = {}; }",
        log: "main > stopped cells\n",
        ends: Yield::Stopped(Stop::Cells),
    },
];

// What is seen of a world.
#[derive(Drop)]
struct Seen {
    log: Vec<u8>,
    ends: Yield,
    // whether its script may be loaded once more
    again: bool,
    // how many slots are filled while it stands, and after its end
    filled: u64,
    left: u64,
}

// The products as they are printed.
fn printed(alloc: Global, products: Vec<Product>) -> Result<Vec<u8>, AllocError> {
    let mut log = Vec::new(alloc);
    for product in products {
        let item = LogItem::World(WorldName::MAIN, Entry::Product(product));
        log.extend_from_slice(print(alloc, &item)?.as_slice())?;
    }
    Ok(log)
}

// The script that a text is.
fn source_of(alloc: Global, text: &str) -> Result<Source, Fail> {
    if text.len() > 262_144 {
        let none: Option<Source> = None;
        return Ok(none.ok_or("the text is too long")?);
    }
    Ok(read_source(alloc, text.as_bytes())?)
}

// A world of a script, which takes its load and is ended.
fn seen_of(alloc: Global, text: &str) -> Result<Seen, Fail> {
    let limits = Limits {
        steps: 1_000,
        cells: 40,
        places: 1_000,
        units: 1_000,
        depth: 5,
    };
    let source = source_of(alloc, text)?;
    let pool = Pool::new(alloc);
    let (mut world, pool) = World::new(alloc, WorldKind::Main, limits, source.tree, pool)?;
    if !world.awaits(Delivery::Load) {
        let none: Option<Seen> = None;
        return Ok(none.ok_or("the script can't be loaded")?);
    }
    let mut products = Vec::new(alloc);
    let (ends, pool) = world.resume(pool, true, Delivery::Load, &mut products)?;
    let again = world.awaits(Delivery::Load);
    let filled = pool.filled();
    let pool = world.end(pool);
    Ok(Seen {
        log: printed(alloc, products)?,
        ends,
        again,
        filled,
        left: pool.filled(),
    })
}

#[test]
fn worlds_run_and_leave_their_pool(rt: HostRuntime) -> Result<(), Fail> {
    for row in &ROWS {
        let text = row.text;
        let seen = seen_of(rt.alloc(), text)?;
        assert!(rt; seen.log.as_slice() == row.log.as_bytes(), "{text}");
        assert!(rt; seen.ends == row.ends, "{text}");
        assert!(rt; !seen.again, "{text}");
        assert!(rt; seen.filled >= 35, "{text}");
        assert_eq!(rt; seen.left, 0, "{text}");
    }
    Ok(())
}
