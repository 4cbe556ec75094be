//! Heaps as their callers use them.
ghost use Rattle.std.specs.Prelude.{◌≡◌, [], ◌∷◌, Some, None, true, IfOk, nat_eq};
ghost use Rattle.world_heap.specs.declared.cell.Cell.TheVariants.{Symbol, Buffer};
ghost use Rattle.world_heap.specs.Maps.{find};
ghost use Rattle.world_heap.specs.Heaps.{IsCell, Fits};

use crate::keys::ordered;
use crate::{
    Body, BuiltIn, Cell, Counts, Full, Heap, HeapFault, Limits, Loc, Pool, Property, Table, Value,
    WorldKind,
};
use sqlite_items::Items;
use std::alloc::{AllocError, Global};
use wl_text::Units;

// What the calls below answer, in order.
#[derive(Debug, Drop, Clone, Copy, PartialEq, Eq)]
enum Told {
    Done,
    Cells,
    Places,
    Units,
    Memory,
}

fn symbol() -> Cell
    ensures { result ≡ Symbol None }
{
    Cell::Symbol { text: None }
}

// What adding a symbol answers.
fn added(heap: &mut Heap) -> Told {
    match heap.add(symbol()) {
        Ok(_) => Told::Done,
        Err(HeapFault::Cells) => Told::Cells,
        Err(HeapFault::Places) => Told::Places,
        Err(HeapFault::Units) => Told::Units,
        Err(HeapFault::Memory) => Told::Memory,
    }
}

// What counting places and units answers.
fn grown(heap: &mut Heap, places: u64, units: u64) -> Told {
    match heap.grow(places, units) {
        Ok(()) => Told::Done,
        Err(Full::Places) => Told::Places,
        Err(Full::Units) => Told::Units,
    }
}

// A heap with these limits in a pool of its own, without and with a cell more.
fn of_one_cell(alloc: Global) -> Result<Heap, AllocError> {
    let limits = Limits {
        steps: 1,
        cells: 1,
        places: 3,
        units: 2,
        depth: 1,
    };
    Heap::new(alloc, limits, WorldKind::Main, Pool::new(alloc))
}

// A heap with room for two cells, of a place each.
fn of_two_places(alloc: Global) -> Result<Heap, AllocError> {
    let limits = Limits {
        steps: 1,
        cells: 3,
        places: 2,
        units: 1,
        depth: 1,
    };
    Heap::new(alloc, limits, WorldKind::Page, Pool::new(alloc))
}

#[test]
fn each_limit_is_met_exactly(rt: HostRuntime) {
    match of_one_cell(rt.alloc()) {
        Err(_) => assert!(rt; false),
        Ok(mut heap) => {
            assert_eq!(rt; heap.base(), 17);
            assert_eq!(rt; added(&mut heap), Told::Done);
            assert_eq!(rt; added(&mut heap), Told::Cells);
            assert_eq!(rt; heap.would_pass(2, 2), None);
            assert_eq!(rt; heap.would_pass(3, 3), Some(Full::Places));
            assert_eq!(rt; heap.would_pass(2, 3), Some(Full::Units));
            assert_eq!(rt; grown(&mut heap, 3, 3), Told::Places);
            assert_eq!(rt; grown(&mut heap, 2, 3), Told::Units);
            assert_eq!(rt; grown(&mut heap, 2, 2), Told::Done);
            assert_eq!(rt; grown(&mut heap, 1, 0), Told::Places);
            assert_eq!(rt; grown(&mut heap, 0, 1), Told::Units);
            assert_eq!(rt; grown(&mut heap, 0, 0), Told::Done);
            assert_eq!(rt;
                heap.count(),
                Counts {
                    cells: 1,
                    places: 3,
                    units: 2
                }
            );
        }
    }
    match of_two_places(rt.alloc()) {
        Err(_) => assert!(rt; false),
        Ok(mut heap) => {
            assert_eq!(rt; added(&mut heap), Told::Done);
            assert_eq!(rt; added(&mut heap), Told::Done);
            assert_eq!(rt; added(&mut heap), Told::Places);
        }
    }
}

// What is told of two worlds in one pool.
#[derive(Debug, Drop, Clone, Copy, PartialEq, Eq)]
struct Seen {
    both: u64,
    alone: u64,
    again: bool,
    after: u64,
}

fn limits() -> Limits {
    Limits {
        steps: 1_000_000,
        cells: 250_000,
        places: 1_000_000,
        units: 16_777_216,
        depth: 1_000,
    }
}

// A world beside another: how many slots both fill, and how many the first alone when the other has ended. A third
// world then gets the slots of the one that ended.
fn side_by_side(alloc: Global) -> Result<Seen, AllocError> {
    let first = Heap::new(alloc, limits(), WorldKind::Main, Pool::new(alloc))?;
    let (seat, pool) = first.part();
    let second = Heap::new(alloc, limits(), WorldKind::Page, pool)?;
    let was = second.built_in(BuiltIn::ObjectPrototype);
    let (other, pool) = second.part();
    let both = pool.filled();
    let pool = Heap::join(other, pool).end();
    let alone = pool.filled();
    let third = Heap::new(alloc, limits(), WorldKind::Page, pool)?;
    let again = was.is_some() && third.built_in(BuiltIn::ObjectPrototype) == was;
    let first = Heap::join(seat, third.end());
    Ok(Seen {
        both,
        alone,
        again,
        after: first.end().filled(),
    })
}

#[test]
fn a_world_ends_beside_another(rt: HostRuntime) {
    match side_by_side(rt.alloc()) {
        Err(_) => assert!(rt; false),
        Ok(seen) => assert_eq!(rt;
            seen,
            Seen {
                both: 34,
                alone: 17,
                again: true,
                after: 0
            }
        ),
    }
}

// Puts a property under a name.
fn put(alloc: Global, table: &mut Table<Property>, name: &str) -> bool {
    match Units::of_text(alloc, name) {
        Err(_) => false,
        Ok(name) => table
            .put(
                name,
                Property::Data {
                    value: Value::Null,
                    writable: true,
                    enumerable: true,
                    configurable: true,
                },
            )
            .is_ok(),
    }
}

// Takes a name out.
fn taken_out(alloc: Global, table: &mut Table<Property>, name: &str) -> bool {
    match Units::of_text(alloc, name) {
        Err(_) => false,
        Ok(name) => {
            table.remove(&name);
            true
        }
    }
}

// The names of a table in the order of keys, each in quotes.
fn listed(alloc: Global, table: &Table<Property>) -> Result<Vec<u8>, AllocError> {
    let names = ordered(alloc, table)?;
    let mut all = Vec::new(alloc);
    for name in &names {
        let quoted = name.quoted(alloc)?;
        all.extend_from_slice(quoted.as_slice())?;
    }
    Ok(all)
}

#[test]
fn keys_come_in_order(rt: HostRuntime) {
    let mut table = Table::new(rt.alloc());
    for name in ["b", "10", "a", "9", "01", "4294967294", "4294967295", "-1"] {
        assert!(rt; put(rt.alloc(), &mut table, name));
    }
    assert!(rt; taken_out(rt.alloc(), &mut table, "b"));
    assert!(rt; put(rt.alloc(), &mut table, "b"));
    assert!(rt; put(rt.alloc(), &mut table, "a"));
    match listed(rt.alloc(), &table) {
        Err(_) => assert!(rt; false),
        Ok(all) => {
            let want = b"\"9\"\"10\"\"4294967294\"\"a\"\"01\"\"4294967295\"\"-1\"\"b\"";
            assert!(rt; all.as_slice() == want.as_slice());
        }
    }
    match of_one_cell(rt.alloc()) {
        Err(_) => assert!(rt; false),
        Ok(heap) => assert_eq!(rt; heap.len(), 17),
    }
}

// Adds a cell that holds no location.
#[tactic(auto, using(crate::specs::Maps::map_laws))]
fn placed(heap: &mut Heap, cell: Cell) -> Result<Loc, AllocError>
    requires { Fits nat_eq heap.old.cells cell }
    ensures found { IfOk result (λ loc. find nat_eq heap.new.cells loc ≡ Some cell) }
    ensures stands { IfOk result (λ loc. IsCell nat_eq heap.new.cells loc) }
{
    match heap.add(cell) {
        Ok(loc) => Ok(loc),
        Err(_) => Err(AllocError),
    }
}

// Puts a symbol in the place of a symbol, and gives that one back.
fn exchanged(heap: &mut Heap, loc: Loc, text: Option<Units>) -> Cell
    requires { find nat_eq heap.old.cells loc ≡ Some (Symbol None) }
    ensures { IsCell nat_eq heap.new.cells loc }
{
    heap.replace(loc, Cell::Symbol { text })
}

// A symbol without a text is read, and one with a text takes its place.
fn read_and_replaced(alloc: Global) -> Result<bool, AllocError> {
    let mut heap = of_two_places(alloc)?;
    let loc = placed(&mut heap, symbol())?;
    let before = matches!(heap.cell(loc), Cell::Symbol { text: None });
    let was = exchanged(&mut heap, loc, Units::of_text(alloc, "s").ok());
    let given = matches!(was, Cell::Symbol { text: None });
    let after = matches!(heap.cell(loc), Cell::Symbol { text: Some(_) });
    Ok(before && given && after)
}

// A buffer of two bytes.
fn bytes(alloc: Global) -> Result<Cell, AllocError>
    ensures { IfOk result (λ cell. cell ≡ Buffer (record { proto = None; properties = []; extensible = true }) (1 ∷ 2 ∷ [])) }
{
    Ok(Cell::Buffer {
        body: Body {
            proto: None,
            properties: Table::new(alloc),
            extensible: true,
        },
        bytes: Items::from_slice(alloc, &[1, 2])?,
    })
}

// The byte of a buffer at a place.
fn byte(heap: &Heap, loc: Loc, at: usize) -> Option<u8>
    requires { IsCell nat_eq heap.now.cells loc }
{
    match heap.cell(loc) {
        Cell::Buffer { bytes, .. } => bytes.get(at).copied(),
        _ => None,
    }
}

// Writes a byte.
fn write(heap: &mut Heap, loc: Loc, at: usize, byte: u8)
    requires { IsCell nat_eq heap.old.cells loc }
    ensures { IsCell nat_eq heap.new.cells loc }
{
    heap.write_byte(loc, at, byte);
}

// A byte is written where the buffer has one, and nowhere else.
fn written_and_read(alloc: Global) -> Result<[Option<u8>; 3], AllocError> {
    let mut heap = Heap::new(alloc, limits(), WorldKind::Main, Pool::new(alloc))?;
    let loc = placed(&mut heap, bytes(alloc)?)?;
    write(&mut heap, loc, 1, 9);
    write(&mut heap, loc, 2, 8);
    Ok([
        byte(&heap, loc, 0),
        byte(&heap, loc, 1),
        byte(&heap, loc, 2),
    ])
}

#[test]
fn cells_are_read_and_replaced(rt: HostRuntime) {
    assert_eq!(rt; read_and_replaced(rt.alloc()), Ok(true));
    assert_eq!(rt; written_and_read(rt.alloc()), Ok([Some(1), Some(9), None]));
}
