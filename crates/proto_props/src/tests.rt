//! Properties as their callers use them.
ghost use Rattle.std.specs.Prelude.{◌≡◌, ◌≤◌, ℕ, pos, [], ◌∷◌, ◌++◌, Some, None, true, false, IfOk, nat_eq};
ghost use Rattle.world_heap.specs.declared.cell.Cell.TheVariants.{Object, Array, Buffer, View};
ghost use Rattle.world_heap.specs.declared.value.Value.TheVariants.{Num};
ghost use Rattle.world_heap.specs.declared.value.Property.TheVariants.{Data, Access};
ghost use Rattle.world_heap.specs.Over.{IsSafe, ValueOver, PropertyOver};
ghost use Rattle.world_heap.specs.Maps.{find};
ghost use Rattle.world_heap.specs.Heaps.{IsNoEnv, IsCell, Fits};
ghost use Rattle.proto_props.specs.Freezes.{IsFreezable};

use crate::{Got, Refusal, SetDone, define, delete, find, freeze, get_step, set_step};
use sqlite_items::Items;
use std::alloc::{AllocError, Global};
use wl_text::Units;
use world_heap::{
    Body, Cell, Heap, HeapFault, Limits, Loc, Pool, Property, Table, Value, WorldKind,
};

// A key of a text.
fn key(alloc: Global, name: &str) -> Result<Units, AllocError> {
    match Units::of_text(alloc, name) {
        Ok(key) => Ok(key),
        Err(_) => Err(AllocError),
    }
}

fn heap_of(alloc: Global) -> Result<Heap, AllocError> {
    let limits = Limits {
        steps: 1,
        cells: 10,
        places: 10,
        units: 10,
        depth: 1,
    };
    Heap::new(alloc, limits, WorldKind::Main, Pool::new(alloc))
}

fn is_text(bytes: &Vec<u8>, text: &str) -> bool {
    bytes.as_slice() == text.as_bytes()
}

// What a property gives, as a text: a number, a text in quotes, or a word.
fn shown(alloc: Global, heap: &Heap, of: &Value, name: &str) -> Result<Vec<u8>, AllocError>
    requires { ValueOver (IsCell nat_eq heap.now.cells) of.now }
{
    match get_step(alloc, heap, of, &key(alloc, name)?)? {
        Got::Value(Value::Num(number)) => {
            let text = number.to_string(alloc)?;
            Vec::from_slice(alloc, text.as_bytes())
        }
        Got::Value(Value::Str(text)) => text.quoted(alloc),
        Got::Value(_) => Vec::from_slice(alloc, b"value"),
        Got::CallGetter(_) => Vec::from_slice(alloc, b"getter"),
        Got::Absent => Vec::from_slice(alloc, b"absent"),
        Got::Refused => Vec::from_slice(alloc, b"refused"),
    }
}

// What a property of a text gives.
fn shown_of_text(alloc: Global, heap: &Heap, of: &str, name: &str) -> Result<Vec<u8>, AllocError> {
    let of = Value::Str(key(alloc, of)?);
    shown(alloc, heap, &of, name)
}

struct Row {
    of: &'static str,
    name: &'static str,
    gives: &'static str,
}

const ROWS: [Row; 7] = [
    Row {
        of: "abc",
        name: "length",
        gives: "3",
    },
    Row {
        of: "abc",
        name: "0",
        gives: "\"a\"",
    },
    Row {
        of: "abc",
        name: "2",
        gives: "\"c\"",
    },
    Row {
        of: "abc",
        name: "3",
        gives: "absent",
    },
    Row {
        of: "abc",
        name: "02",
        gives: "absent",
    },
    Row {
        of: "",
        name: "length",
        gives: "0",
    },
    Row {
        of: "abc",
        name: "slice",
        gives: "absent",
    },
];

#[test]
fn properties_of_texts_are_read(rt: HostRuntime) {
    match heap_of(rt.alloc()) {
        Err(_) => assert!(rt; false),
        Ok(heap) => {
            for row in &ROWS {
                match shown_of_text(rt.alloc(), &heap, row.of, row.name) {
                    Ok(text) => assert!(rt; text.as_slice() == row.gives.as_bytes()),
                    Err(_) => assert!(rt; false),
                }
            }
        }
    }
}

// A new object with a property `a`, which is 1.
#[tactic(auto, using(world_heap::specs::Maps::map_laws))]
fn object(alloc: Global, heap: &mut Heap) -> Result<Loc, AllocError>
    ensures stands { IfOk result (λ loc. IsCell nat_eq heap.new.cells loc) }
    ensures freezable { IfOk result (λ loc. IsFreezable (find nat_eq heap.new.cells loc)) }
{
    let mut properties = Table::new(alloc);
    properties.put(
        key(alloc, "a")?,
        Property::Data {
            value: Value::Num(1),
            writable: true,
            enumerable: true,
            configurable: true,
        },
    )?;
    let body = Body {
        proto: None,
        properties,
        extensible: true,
    };
    match heap.add(Cell::Object { body }) {
        Ok(loc) => Ok(loc),
        Err(_) => Err(AllocError),
    }
}

// A property is found and deleted, and isn't found then.
fn found_and_deleted(alloc: Global) -> Result<bool, AllocError> {
    let mut heap = heap_of(alloc)?;
    let loc = object(alloc, &mut heap)?;
    let name = key(alloc, "a")?;
    let before = find(&heap, loc, &name) == Some(loc);
    let gone = delete(alloc, &mut heap, loc, &name);
    let again = delete(alloc, &mut heap, loc, &name);
    Ok(before && gone && again && find(&heap, loc, &name).is_none())
}

// A property of a frozen object can't be deleted.
fn frozen_stays(alloc: Global) -> Result<bool, AllocError> {
    let mut heap = heap_of(alloc)?;
    let loc = object(alloc, &mut heap)?;
    let name = key(alloc, "a")?;
    freeze(alloc, &mut heap, loc);
    let gone = delete(alloc, &mut heap, loc, &name);
    Ok(!gone && find(&heap, loc, &name) == Some(loc))
}

#[test]
fn properties_are_found_deleted_and_frozen(rt: HostRuntime) {
    match found_and_deleted(rt.alloc()) {
        Ok(right) => assert!(rt; right),
        Err(_) => assert!(rt; false),
    }
    match frozen_stays(rt.alloc()) {
        Ok(right) => assert!(rt; right),
        Err(_) => assert!(rt; false),
    }
}

// What writing or defining a property answers.
#[derive(Debug, Drop, Clone, Copy, PartialEq, Eq)]
enum Told {
    Done,
    Setter,
    Refused(Refusal),
    Full(HeapFault),
}

fn in_short(answer: Result<SetDone, HeapFault>) -> Told {
    match answer {
        Ok(SetDone::Done) => Told::Done,
        Ok(SetDone::CallSetter(_)) => Told::Setter,
        Ok(SetDone::Refused(refusal)) => Told::Refused(refusal),
        Err(fault) => Told::Full(fault),
    }
}

// The object that is changed. Each but the first two has the first as its prototype, which has the properties of
// `dressed`.
#[derive(Debug, Drop, Clone, Copy, PartialEq, Eq)]
enum Target {
    Plain,
    Child,
    Sealed,
    List,
    FrozenList,
    Bytes,
    SealedBytes,
    Window,
}

// What is done under the key.
#[derive(Debug, Drop, Clone, Copy, PartialEq, Eq)]
enum Act {
    Set(u8),
    SetBelow,
    SetNull,
    Define(u8),
    DefineFixed(u8),
    DefineHidden(u8),
    DefineAccessor,
}

// The value of an act.
fn value_for(act: Act) -> Value
    ensures { ValueOver (λ l. ⊥) result }
{
    match act {
        Act::Set(number) => Value::Num(i64::from(number)),
        Act::SetBelow => Value::Num(-1),
        _ => Value::Null,
    }
}

#[derive(Drop)]
struct Case {
    target: Target,
    key: &'static str,
    act: Act,
    told: Told,
}

// An empty object.
fn empty(alloc: Global, proto: Option<Loc>, extensible: bool) -> Cell
    ensures { result ≡ Object (record { proto = proto; properties = []; extensible = extensible }) }
{
    Cell::Object {
        body: Body {
            proto,
            properties: Table::new(alloc),
            extensible,
        },
    }
}

// Adds a cell.
#[tactic(auto, using(world_heap::specs::Maps::map_laws))]
fn added(heap: &mut Heap, cell: Cell) -> Result<Loc, AllocError>
    requires { Fits nat_eq heap.old.cells cell }
    ensures is { IfOk result (λ loc. heap.new.cells ≡ heap.old.cells ++ (loc, cell) ∷ []) }
    ensures found { IfOk result (λ loc. find nat_eq heap.new.cells loc ≡ Some cell) }
    ensures stands { IfOk result (λ loc. IsCell nat_eq heap.new.cells loc) }
    ensures kept { (l : ℕ) → IsNoEnv nat_eq heap.old.cells l → IsNoEnv nat_eq heap.new.cells l }
    ensures keys { (l : ℕ) → IsCell nat_eq heap.old.cells l → IsCell nat_eq heap.new.cells l }
{
    match heap.add(cell) {
        Ok(loc) => Ok(loc),
        Err(_) => Err(AllocError),
    }
}

// A property that holds a number.
fn number(number: u8, writable: bool, enumerable: bool, configurable: bool) -> Property
    ensures is { result ≡ Data (Num (pos number)) writable enumerable configurable }
    ensures safe { IsSafe (pos number) }
{
    Property::Data {
        value: Value::Num(i64::from(number)),
        writable,
        enumerable,
        configurable,
    }
}

// An accessor.
fn accessor(get: Option<Loc>, set: Option<Loc>) -> Property
    ensures { result ≡ Access get set true true }
{
    Property::Access {
        get,
        set,
        enumerable: true,
        configurable: true,
    }
}

// Defines a property under a name.
fn defined(
    alloc: Global,
    heap: &mut Heap,
    loc: Loc,
    name: &str,
    property: Property,
) -> Result<Told, AllocError>
    requires stands { IsCell nat_eq heap.old.cells loc }
    requires fits { PropertyOver (IsNoEnv nat_eq heap.old.cells) property }
    ensures { (l : ℕ) → IsCell nat_eq heap.old.cells l → IsCell nat_eq heap.new.cells l }
{
    let name = key(alloc, name)?;
    Ok(in_short(define(alloc, heap, loc, name, property)))
}

// Gives an object a property `a` like those that scripts make, one `r` that is read-only and can't change, one `s` with a
// setter, and one `g` that is an accessor without one.
fn dressed(alloc: Global, heap: &mut Heap, loc: Loc, setter: Loc) -> Result<(), AllocError>
    requires stands { IsCell nat_eq heap.old.cells loc }
    requires setter { IsNoEnv nat_eq heap.old.cells setter }
    ensures { (l : ℕ) → IsCell nat_eq heap.old.cells l → IsCell nat_eq heap.new.cells l }
{
    defined(alloc, heap, loc, "s", accessor(None, Some(setter)))?;
    defined(alloc, heap, loc, "g", accessor(None, None))?;
    defined(alloc, heap, loc, "a", number(1, true, true, true))?;
    defined(alloc, heap, loc, "r", number(2, false, false, false))?;
    Ok(())
}

// An array of one number.
fn list(alloc: Global, proto: Loc, frozen: bool) -> Result<Cell, AllocError>
    ensures { IfOk result (λ cell. cell ≡ Array (Some proto) (Num (pos 7) ∷ []) frozen) }
{
    let mut items = Items::new(alloc);
    items.push(Value::Num(7))?;
    Ok(Cell::Array {
        proto: Some(proto),
        items,
        frozen,
    })
}

// An array of one number, without a prototype.
fn numbers(alloc: Global) -> Result<Cell, AllocError>
    ensures { IfOk result (λ cell. cell ≡ Array None (Num (pos 7) ∷ []) false) }
{
    let mut items = Items::new(alloc);
    items.push(Value::Num(7))?;
    Ok(Cell::Array {
        proto: None,
        items,
        frozen: false,
    })
}

// A buffer of four bytes.
fn buffer(alloc: Global, proto: Loc, extensible: bool) -> Result<Cell, AllocError>
    ensures { IfOk result (λ cell. cell ≡ Buffer (record { proto = Some proto; properties = []; extensible = extensible }) (1 ∷ 2 ∷ 3 ∷ 4 ∷ [])) }
{
    Ok(Cell::Buffer {
        body: Body {
            proto: Some(proto),
            properties: Table::new(alloc),
            extensible,
        },
        bytes: Items::from_slice(alloc, &[1, 2, 3, 4])?,
    })
}

// A view of two bytes of a buffer, from its second on.
fn window(alloc: Global, proto: Loc, buffer: Loc) -> Cell
    ensures { result ≡ View (record { proto = Some proto; properties = []; extensible = true }) buffer 1 2 }
{
    Cell::View {
        body: Body {
            proto: Some(proto),
            properties: Table::new(alloc),
            extensible: true,
        },
        buffer,
        offset: 1,
        length: 2,
    }
}

// The target, whose prototype is the given object.
fn made(alloc: Global, heap: &mut Heap, proto: Loc, target: Target) -> Result<Loc, AllocError>
    requires { IsNoEnv nat_eq heap.old.cells proto }
    ensures stands { IfOk result (λ loc. IsCell nat_eq heap.new.cells loc) }
    ensures kept { (l : ℕ) → IsNoEnv nat_eq heap.old.cells l → IsNoEnv nat_eq heap.new.cells l }
    ensures keys { (l : ℕ) → IsCell nat_eq heap.old.cells l → IsCell nat_eq heap.new.cells l }
{
    match target {
        Target::Plain => Ok(proto),
        Target::Child => added(heap, empty(alloc, Some(proto), true)),
        Target::Sealed => added(heap, empty(alloc, Some(proto), false)),
        Target::List => added(heap, list(alloc, proto, false)?),
        Target::FrozenList => added(heap, list(alloc, proto, true)?),
        Target::Bytes => added(heap, buffer(alloc, proto, true)?),
        Target::SealedBytes => added(heap, buffer(alloc, proto, false)?),
        Target::Window => {
            let bytes = added(heap, buffer(alloc, proto, true)?)?;
            added(heap, window(alloc, proto, bytes))
        }
    }
}

// What the act answers at the location.
fn acted(alloc: Global, heap: &mut Heap, loc: Loc, name: &str, act: Act) -> Result<Told, AllocError>
    requires { IsCell nat_eq heap.old.cells loc }
    ensures { (l : ℕ) → IsCell nat_eq heap.old.cells l → IsCell nat_eq heap.new.cells l }
{
    match act {
        Act::Define(value) => defined(alloc, heap, loc, name, number(value, true, true, true)),
        Act::DefineFixed(value) => {
            defined(alloc, heap, loc, name, number(value, false, false, false))
        }
        Act::DefineHidden(value) => defined(
            alloc,
            heap,
            loc,
            name,
            number(value, true, false, true),
        ),
        Act::DefineAccessor => defined(alloc, heap, loc, name, accessor(None, None)),
        _ => {
            let name = key(alloc, name)?;
            Ok(in_short(set_step(alloc, heap, loc, name, value_for(act))))
        }
    }
}

// A heap for a row, its target, and what the act answers there.
fn answered(alloc: Global, row: &Case) -> Result<Told, AllocError> {
    let mut heap = heap_of(alloc)?;
    let setter = added(&mut heap, empty(alloc, None, true))?;
    let proto = added(&mut heap, empty(alloc, None, true))?;
    let loc = made(alloc, &mut heap, proto, row.target)?;
    dressed(alloc, &mut heap, proto, setter)?;
    acted(alloc, &mut heap, loc, row.key, row.act)
}

fn doing(target: Target, key: &'static str, act: Act, told: Told) -> Case {
    Case {
        target,
        key,
        act,
        told,
    }
}

// The first row whose act answers something else, as a target and a key.
fn first_wrong(alloc: Global, rows: &[Case]) -> Result<Option<(Target, &'static str)>, AllocError> {
    for row in rows {
        if answered(alloc, row)? != row.told {
            return Ok(Some((row.target, row.key)));
        }
    }
    Ok(None)
}

const DONE: Told = Told::Done;

const OPERAND: Told = Told::Refused(Refusal::Operand);

const READ_ONLY: Told = Told::Refused(Refusal::ReadOnly);

const NOT_EXTENSIBLE: Told = Told::Refused(Refusal::NotExtensible);

const HOLE: Told = Told::Refused(Refusal::Hole);

const NAMED: Told = Told::Refused(Refusal::Named);

#[test]
fn properties_are_written(rt: HostRuntime) {
    let rows = [
        // objects: an own property, a new one, and those of the chain
        doing(Target::Plain, "a", Act::Set(3), DONE),
        doing(Target::Plain, "n", Act::Set(3), DONE),
        doing(Target::Plain, "s", Act::Set(3), Told::Setter),
        doing(Target::Plain, "g", Act::Set(3), READ_ONLY),
        doing(Target::Plain, "r", Act::Set(3), READ_ONLY),
        doing(Target::Child, "a", Act::Set(3), DONE),
        doing(Target::Child, "s", Act::Set(3), Told::Setter),
        doing(Target::Child, "g", Act::Set(3), READ_ONLY),
        doing(Target::Child, "r", Act::Set(3), READ_ONLY),
        doing(Target::Sealed, "r", Act::Set(3), READ_ONLY),
        doing(Target::Sealed, "s", Act::Set(3), Told::Setter),
        doing(Target::Sealed, "a", Act::Set(3), NOT_EXTENSIBLE),
        doing(Target::Sealed, "n", Act::Set(3), NOT_EXTENSIBLE),
        // arrays
        doing(Target::List, "0", Act::Set(3), DONE),
        doing(Target::List, "1", Act::Set(3), DONE),
        doing(Target::List, "2", Act::Set(3), HOLE),
        doing(Target::List, "n", Act::Set(3), NAMED),
        doing(Target::List, "01", Act::Set(3), NAMED),
        doing(Target::List, "r", Act::Set(3), READ_ONLY),
        doing(Target::List, "s", Act::Set(3), Told::Setter),
        doing(Target::List, "length", Act::Set(0), DONE),
        doing(Target::List, "length", Act::Set(1), DONE),
        doing(Target::List, "length", Act::Set(2), HOLE),
        doing(Target::List, "length", Act::SetBelow, HOLE),
        doing(Target::List, "length", Act::SetNull, HOLE),
        doing(Target::FrozenList, "0", Act::Set(7), READ_ONLY),
        doing(Target::FrozenList, "length", Act::Set(1), READ_ONLY),
        doing(Target::FrozenList, "1", Act::Set(3), NOT_EXTENSIBLE),
        doing(Target::FrozenList, "2", Act::Set(3), NOT_EXTENSIBLE),
        doing(Target::FrozenList, "n", Act::Set(3), NOT_EXTENSIBLE),
        // buffers and views
        doing(Target::Bytes, "n", Act::Set(3), NAMED),
        doing(Target::Bytes, "0", Act::Set(3), NAMED),
        doing(Target::Bytes, "r", Act::Set(3), READ_ONLY),
        doing(Target::SealedBytes, "n", Act::Set(3), NOT_EXTENSIBLE),
        doing(Target::Window, "1", Act::Set(3), DONE),
        doing(Target::Window, "2", Act::Set(3), DONE),
        doing(Target::Window, "0", Act::SetNull, OPERAND),
        doing(Target::Window, "2", Act::SetNull, OPERAND),
        doing(Target::Window, "n", Act::Set(3), NAMED),
        doing(Target::Window, "s", Act::Set(3), Told::Setter),
    ];
    assert_eq!(rt; first_wrong(rt.alloc(), &rows), Ok(None));
}

#[test]
fn properties_are_defined(rt: HostRuntime) {
    let rows = [
        // objects: what can change, what can't, and a new one
        doing(Target::Plain, "a", Act::DefineAccessor, DONE),
        doing(Target::Plain, "s", Act::Define(3), DONE),
        doing(Target::Plain, "n", Act::DefineFixed(3), DONE),
        doing(Target::Plain, "r", Act::DefineFixed(2), DONE),
        doing(Target::Plain, "r", Act::DefineFixed(3), READ_ONLY),
        doing(Target::Plain, "r", Act::Define(2), READ_ONLY),
        doing(Target::Plain, "r", Act::DefineAccessor, READ_ONLY),
        doing(Target::Child, "r", Act::Define(3), DONE),
        doing(Target::Child, "s", Act::Define(3), DONE),
        doing(Target::Sealed, "r", Act::Define(3), NOT_EXTENSIBLE),
        doing(Target::Sealed, "n", Act::Define(3), NOT_EXTENSIBLE),
        // arrays, whose elements have the attributes of the array
        doing(Target::List, "0", Act::Define(3), DONE),
        doing(Target::List, "0", Act::DefineHidden(7), READ_ONLY),
        doing(Target::List, "0", Act::DefineAccessor, READ_ONLY),
        doing(Target::List, "1", Act::Define(3), DONE),
        doing(Target::List, "1", Act::DefineHidden(3), READ_ONLY),
        doing(Target::List, "2", Act::Define(3), HOLE),
        doing(Target::List, "n", Act::Define(3), NAMED),
        doing(Target::List, "length", Act::Define(1), READ_ONLY),
        doing(Target::FrozenList, "0", Act::Define(7), READ_ONLY),
        doing(Target::FrozenList, "length", Act::DefineFixed(1), DONE),
        doing(Target::FrozenList, "length", Act::DefineFixed(0), READ_ONLY),
        doing(Target::FrozenList, "1", Act::Define(3), NOT_EXTENSIBLE),
        doing(Target::FrozenList, "n", Act::Define(3), NOT_EXTENSIBLE),
        // buffers and views
        doing(Target::Bytes, "n", Act::Define(3), NAMED),
        doing(Target::SealedBytes, "n", Act::Define(3), NOT_EXTENSIBLE),
        doing(Target::Window, "0", Act::Define(3), READ_ONLY),
        doing(Target::Window, "2", Act::Define(3), READ_ONLY),
        doing(Target::Window, "n", Act::Define(3), NAMED),
    ];
    assert_eq!(rt; first_wrong(rt.alloc(), &rows), Ok(None));
}

// The own keys of an object, each in quotes.
fn listed(alloc: Global, heap: &Heap, loc: Loc) -> Result<Vec<u8>, AllocError>
    requires { IsCell nat_eq heap.now.cells loc }
{
    let names = heap.keys(alloc, loc)?;
    let mut all = Vec::new(alloc);
    for name in &names {
        let quoted = name.quoted(alloc)?;
        all.extend_from_slice(quoted.as_slice())?;
    }
    Ok(all)
}

// A property is defined and written; it is the only key, and has the value.
fn defined_and_written(alloc: Global) -> Result<bool, AllocError> {
    let mut heap = heap_of(alloc)?;
    let loc = added(&mut heap, empty(alloc, None, true))?;
    let first = acted(alloc, &mut heap, loc, "a", Act::Define(1))?;
    let second = acted(alloc, &mut heap, loc, "a", Act::Set(2))?;
    let keys = listed(alloc, &heap, loc)?;
    let value = shown(alloc, &heap, &Value::Ref(loc), "a")?;
    Ok(first == DONE && second == DONE && is_text(&keys, "\"a\"") && is_text(&value, "2"))
}

// A key that was deleted goes last when it comes again, and indices go first.
fn deleted_and_written_again(alloc: Global) -> Result<bool, AllocError> {
    let mut heap = heap_of(alloc)?;
    let loc = added(&mut heap, empty(alloc, None, true))?;
    acted(alloc, &mut heap, loc, "b", Act::Set(1))?;
    acted(alloc, &mut heap, loc, "a", Act::Set(2))?;
    acted(alloc, &mut heap, loc, "1", Act::Set(3))?;
    let gone = delete(alloc, &mut heap, loc, &key(alloc, "b")?);
    acted(alloc, &mut heap, loc, "b", Act::Set(4))?;
    acted(alloc, &mut heap, loc, "a", Act::Set(5))?;
    let keys = listed(alloc, &heap, loc)?;
    Ok(gone && is_text(&keys, "\"1\"\"a\"\"b\""))
}

// Bytes are written and read through a view, modulo 256, and not past its end.
fn written_through_a_view(alloc: Global) -> Result<bool, AllocError> {
    let mut heap = heap_of(alloc)?;
    let proto = added(&mut heap, empty(alloc, None, true))?;
    let loc = made(alloc, &mut heap, proto, Target::Window)?;
    let before = shown(alloc, &heap, &Value::Ref(loc), "0")?;
    acted(alloc, &mut heap, loc, "0", Act::SetBelow)?;
    acted(alloc, &mut heap, loc, "2", Act::Set(9))?;
    let after = shown(alloc, &heap, &Value::Ref(loc), "0")?;
    let past = shown(alloc, &heap, &Value::Ref(loc), "2")?;
    Ok(is_text(&before, "2") && is_text(&after, "255") && is_text(&past, "absent"))
}

#[test]
fn properties_are_written_and_read(rt: HostRuntime) {
    assert_eq!(rt; defined_and_written(rt.alloc()), Ok(true));
    assert_eq!(rt; deleted_and_written_again(rt.alloc()), Ok(true));
    assert_eq!(rt; written_through_a_view(rt.alloc()), Ok(true));
}

// A heap with room for three places.
fn heap_of_three(alloc: Global) -> Result<Heap, AllocError> {
    let limits = Limits {
        steps: 1,
        cells: 10,
        places: 3,
        units: 1,
        depth: 1,
    };
    Heap::new(alloc, limits, WorldKind::Page, Pool::new(alloc))
}

const PLACES: Told = Told::Full(HeapFault::Places);

// The object and its first two properties take three places. A third is refused, and what is refused for another reason
// is told first. A place that was taken stays taken.
fn object_at_the_limit(alloc: Global) -> Result<bool, AllocError> {
    let mut heap = heap_of_three(alloc)?;
    let loc = added(&mut heap, empty(alloc, None, true))?;
    let first = acted(alloc, &mut heap, loc, "r", Act::DefineFixed(1))?;
    let second = acted(alloc, &mut heap, loc, "a", Act::Set(1))?;
    let third = acted(alloc, &mut heap, loc, "b", Act::Set(1))?;
    let defined = acted(alloc, &mut heap, loc, "b", Act::Define(1))?;
    let fixed = acted(alloc, &mut heap, loc, "r", Act::Set(1))?;
    let again = acted(alloc, &mut heap, loc, "a", Act::Set(2))?;
    let gone = delete(alloc, &mut heap, loc, &key(alloc, "a")?);
    let last = acted(alloc, &mut heap, loc, "a", Act::Set(3))?;
    let keys = listed(alloc, &heap, loc)?;
    let answers = [first, second, third, defined, fixed, again, last];
    Ok(
        answers == [DONE, DONE, PLACES, PLACES, READ_ONLY, DONE, PLACES]
            && gone
            && heap.count().places == 3
            && is_text(&keys, "\"r\""),
    )
}

// An array of one element and the next one take three places.
fn array_at_the_limit(alloc: Global) -> Result<bool, AllocError> {
    let mut heap = heap_of_three(alloc)?;
    let loc = added(&mut heap, numbers(alloc)?)?;
    let next = acted(alloc, &mut heap, loc, "1", Act::Set(1))?;
    let full = acted(alloc, &mut heap, loc, "2", Act::Set(1))?;
    let hole = acted(alloc, &mut heap, loc, "3", Act::Set(1))?;
    let cut = acted(alloc, &mut heap, loc, "length", Act::Set(0))?;
    let again = acted(alloc, &mut heap, loc, "0", Act::Set(1))?;
    let keys = listed(alloc, &heap, loc)?;
    Ok(
        [next, full, hole, cut, again] == [DONE, PLACES, HOLE, DONE, PLACES]
            && heap.count().places == 3
            && is_text(&keys, "\"length\""),
    )
}

#[test]
fn the_limit_of_places_is_met_exactly(rt: HostRuntime) {
    assert_eq!(rt; object_at_the_limit(rt.alloc()), Ok(true));
    assert_eq!(rt; array_at_the_limit(rt.alloc()), Ok(true));
}
