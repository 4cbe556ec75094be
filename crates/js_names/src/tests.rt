//! Names and environments as their callers use them.
ghost use Rattle.std.specs.Prelude.{◌≡◌, ◌≤ℤ◌, pos, None, IfSome, nat_eq};
ghost use Rattle.world_heap.specs.Over.{OptionOver};
ghost use Rattle.world_heap.specs.Heaps.{IsCell};

use crate::{binding_of, declared_in, fill_name, parameters_of};
use js_tree::{BindElement, BindProperty, Declarator, Function, Node, NodeId, Tree};
use sqlite_items::Items;
use std::alloc::Global;
use wl_text::Units;
use world_heap::{Binding, Cell, Heap, Limits, Loc, Pool, Value, WorldKind};

fn text(alloc: Global, name: &str) -> Option<Units> {
    Units::of_text(alloc, name).ok()
}

fn name(alloc: Global, name: &str) -> Option<(Node, u32)> {
    Some((Node::BindName(text(alloc, name)?), 0))
}

fn list<T: Drop>(alloc: Global, first: T, second: Option<T>) -> Option<Items<T>> {
    let mut list = Items::new(alloc);
    list.push(first).ok()?;
    if let Some(second) = second {
        list.push(second).ok()?;
    }
    Some(list)
}

fn element(id: u32) -> BindElement {
    BindElement {
        bind: NodeId(id),
        default: None,
    }
}

fn property(alloc: Global, id: u32) -> Option<BindProperty> {
    Some(BindProperty {
        key: text(alloc, "k")?,
        bind: NodeId(id),
        default: None,
    })
}

fn pair(id: u32) -> Declarator {
    Declarator {
        bind: NodeId(id),
        value: None,
    }
}

// The function of `(y, ...z) => ..`, whose body is node 7.
fn function(alloc: Global) -> Option<Function> {
    Some(Function {
        parameters: list(alloc, element(1), None)?,
        rest: Some(NodeId(2)),
        body: NodeId(7),
    })
}

// The patterns `x`, `y`, `z`, `[x, y]` and `{k: [x, y], k: z}`, and the items `let` of the last, `const x`, a block and
// `function f(y, ...z)`.
fn tree(alloc: Global) -> Option<Tree> {
    let object = list(alloc, property(alloc, 3)?, Some(property(alloc, 2)?))?;
    let mut nodes = Vec::new(alloc);
    nodes.push(name(alloc, "x")?).ok()?;
    nodes.push(name(alloc, "y")?).ok()?;
    nodes.push(name(alloc, "z")?).ok()?;
    nodes
        .push((
            Node::BindArray(list(alloc, element(0), Some(element(1)))?),
            0,
        ))
        .ok()?;
    nodes.push((Node::BindObject(object), 0)).ok()?;
    nodes
        .push((Node::Let(list(alloc, pair(4), None)?), 0))
        .ok()?;
    nodes
        .push((Node::Const(list(alloc, pair(0), None)?), 0))
        .ok()?;
    nodes.push((Node::Block(Items::new(alloc)), 0)).ok()?;
    let (f, function) = (text(alloc, "f")?, function(alloc)?);
    nodes.push((Node::FunDecl { name: f, function }, 0)).ok()?;
    Tree::from_nodes(nodes)
}

// The names of bindings, each with a semicolon behind it, and before that a mark where the binding is fixed.
fn spelled(alloc: Global, bindings: &[Binding]) -> Option<Units> {
    let mut whole = text(alloc, "")?;
    for binding in bindings {
        let mark = text(alloc, if binding.fixed { "!;" } else { ";" })?;
        whole = whole
            .join(alloc, &binding.name)
            .ok()?
            .join(alloc, &mark)
            .ok()?;
    }
    Some(whole)
}

fn is_spelled(alloc: Global, bindings: &[Binding], names: &str) -> Option<bool> {
    Some(spelled(alloc, bindings)?.same(&text(alloc, names)?))
}

fn items_declare(alloc: Global, items: &[NodeId], names: &str) -> Option<bool> {
    let tree = tree(alloc)?;
    let bindings = declared_in(alloc, &tree, items).ok()?;
    is_spelled(alloc, bindings.as_slice(), names)
}

fn parameters_declare(alloc: Global, names: &str) -> Option<bool> {
    let tree = tree(alloc)?;
    let bindings = parameters_of(alloc, &tree, &function(alloc)?).ok()?;
    is_spelled(alloc, bindings.as_slice(), names)
}

#[test]
fn names_are_declared_in_the_order_of_the_text(rt: HostRuntime) {
    let alloc = rt.alloc();
    let all = [NodeId(5), NodeId(6), NodeId(7), NodeId(8), NodeId(99)];
    assert!(rt; items_declare(alloc, &all, "x;y;z;x!;f;") == Some(true));
    assert!(rt; items_declare(alloc, &all[1..2], "x!;") == Some(true));
    assert!(rt; items_declare(alloc, &all[2..3], "") == Some(true));
    assert!(rt; parameters_declare(alloc, "y;z;") == Some(true));
}

// A binding without a value.
fn unready(alloc: Global, name: &str, fixed: bool) -> Option<Binding>
    ensures { IfSome result (λ binding. binding.value ≡ None) }
{
    let name = text(alloc, name)?;
    Some(Binding {
        name,
        value: None,
        fixed,
    })
}

// An environment that binds two names, of which the second is fixed.
fn add_env(
    alloc: Global,
    heap: &mut Heap,
    outer: Option<Loc>,
    first: &str,
    second: &str,
) -> Option<Loc>
    requires { OptionOver (IsCell nat_eq heap.old.cells) outer }
    ensures { IfSome result (λ loc. IsCell nat_eq heap.new.cells loc) }
{
    let first = unready(alloc, first, false)?;
    let second = unready(alloc, second, true)?;
    let mut bindings = Items::new(alloc);
    match bindings.push(first) {
        Ok(()) => {}
        Err(_) => return None,
    }
    match bindings.push(second) {
        Ok(()) => {}
        Err(_) => return None,
    }
    match heap.add(Cell::Env { outer, bindings }) {
        Ok(loc) => Some(loc),
        Err(_) => None,
    }
}

// A number from 1 to 9, and 0 for anything else.
fn number(value: &Option<Value>) -> i64
    ensures low { pos 0 ≤ℤ result }
    ensures high { result ≤ℤ pos 9 }
{
    match value {
        Some(Value::Num(n)) => if *n < 10 && *n > 0 { *n } else { 0 },
        _ => 0,
    }
}

// What a name is bound to: 10 for the outer environment or 20 for the inner one, 100 more for a fixed binding, and its
// value, 0 where it has none.
fn told(alloc: Global, heap: &Heap, outer: Loc, env: Loc, name: &str) -> Option<i64> {
    let name = text(alloc, name)?;
    match binding_of(heap, env, &name) {
        Some(found) => {
            let place = if found.0 == outer { 10 } else { 20 };
            let fixed = if found.1.fixed { 100 } else { 0 };
            Some(place + fixed + number(&found.1.value))
        }
        None => None,
    }
}

fn new_heap(alloc: Global) -> Option<Heap> {
    let limits = Limits {
        steps: 1,
        cells: 2,
        places: 6,
        units: 1,
        depth: 1,
    };
    Heap::new(alloc, limits, WorldKind::Main, Pool::new(alloc)).ok()
}

// What five names are bound to, where the outer environment binds `a` and `b`, the inner one `b` and `c`, and `a` and
// `b` were filled from the inner one.
fn bound(alloc: Global) -> Option<[Option<i64>; 5]> {
    let mut heap = new_heap(alloc)?;
    let outer = add_env(alloc, &mut heap, None, "a", "b")?;
    let inner = add_env(alloc, &mut heap, Some(outer), "b", "c")?;
    fill_name(alloc, &mut heap, inner, &text(alloc, "a")?, Value::Num(1)).ok()?;
    fill_name(alloc, &mut heap, inner, &text(alloc, "b")?, Value::Num(2)).ok()?;
    Some([
        told(alloc, &heap, outer, inner, "a"),
        told(alloc, &heap, outer, inner, "b"),
        told(alloc, &heap, outer, inner, "c"),
        told(alloc, &heap, outer, outer, "b"),
        told(alloc, &heap, outer, inner, "d"),
    ])
}

#[test]
fn the_innermost_binding_of_a_name_is_found_and_filled(rt: HostRuntime) {
    match bound(rt.alloc()) {
        Some(found) => assert!(rt; found == [Some(11), Some(22), Some(120), Some(110), None]),
        None => assert!(rt; false),
    }
}
