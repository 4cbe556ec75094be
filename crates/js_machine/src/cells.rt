//! How a row makes cells, and counts units.
ghost use Rattle.std.specs.Prelude.{◌≡◌, ℕ, [], true, false, List, MatchResult, Some, None, codes, nat_eq};
ghost use Rattle.js_tree.specs.declared.node.Node as kind;
ghost use Rattle.world_heap.specs.Heaps.{Fits, units_of};
ghost use Rattle.js_semantics.specs.Prog.{error_cell};
ghost use Rattle.js_semantics.specs.Faults.{kind_number, prototype_of_kind};
ghost use Rattle.js_semantics.specs.Objects.{bare};
ghost use Rattle.js_semantics.specs.World.{built_in};
ghost use Rattle.js_machine.specs.Does.{Allocates, CountsUnits, world_of};
ghost use Rattle.js_machine.specs.Parts.{message_entry};

use crate::basic::discard;
use crate::fitting::{are_fit, are_fit_bindings, is_cell, is_fit_option, is_outer, is_prototype};
use crate::state::{Control, State};
use js_semantics::StepFault;
use js_tree::NodeId;
use parcel::ErrorKind;
use sqlite_items::Items;
use std::alloc::Global;
use wl_text::Units;
use world_heap::{Binding, Body, BuiltIn, Cell, HeapFault, Loc, Property, Table, Value};
use world_log::Stop;

impl State {
    // Makes a cell, or stops.
    #[inline(always)]
    fn make(&mut self, cell: Cell) -> Result<Result<Loc, Stop>, StepFault>
        requires { Fits nat_eq self.old.heap.cells cell }
        ensures { MatchResult result (λ got. Allocates cell self.old self.new got) (λ fault. units_of cell ≡ 0 → fault ≡ StepFault.Memory) }
    {
        self.heap.base();
        self.heap.count();
        match self.heap.add(cell) {
            Ok(loc) => Ok(Ok(loc)),
            Err(HeapFault::Cells) => {
                self.control = Control::Stop;
                Ok(Err(Stop::Cells))
            }
            Err(HeapFault::Places) => {
                self.control = Control::Stop;
                Ok(Err(Stop::Places))
            }
            // A cell without bytes takes no units.
            Err(HeapFault::Units) => Err(StepFault::Dangling),
            Err(HeapFault::Memory) => Err(StepFault::Memory),
        }
    }

    /// Makes an environment (ECMA-262, 9.1), or stops.
    #[inline(always)]
    pub fn make_environment(
        &mut self,
        outer: Option<Loc>,
        bindings: Items<Binding>,
    ) -> Result<Result<Loc, Stop>, StepFault>
        ensures { MatchResult result (λ got. Allocates (Cell.Env outer bindings) self.old self.new got) (λ fault. Fits nat_eq self.old.heap.cells (Cell.Env outer bindings) → fault ≡ StepFault.Memory) }
    {
        if is_outer(&self.heap, &outer) && are_fit_bindings(&self.heap, bindings.as_slice()) {
            self.make(environment(outer, bindings))
        } else {
            discard(bindings);
            Err(StepFault::Dangling)
        }
    }

    /// Makes an object without properties, or stops.
    pub fn make_object(&mut self, proto: Option<Loc>) -> Result<Result<Loc, Stop>, StepFault>
        ensures { MatchResult result (λ got. Allocates (Cell.Object (record { proto = proto; properties = []; extensible = true })) self.old self.new got)
            (λ fault. Fits nat_eq self.old.heap.cells (Cell.Object (record { proto = proto; properties = []; extensible = true })) → fault ≡ StepFault.Memory) }
    {
        if is_prototype(&self.heap, &proto) {
            let cell = object(self.alloc, proto);
            self.make(cell)
        } else {
            Err(StepFault::Dangling)
        }
    }

    /// The location of a built-in object.
    pub fn built_in(&self, name: BuiltIn) -> Option<Loc>
        ensures { (nodes : List kind.Node) (supply : ℕ → ℕ) → result ≡ built_in name (world_of nodes supply self.now) }
    {
        self.heap.built_in(name)
    }

    /// Makes an array of these values, or stops.
    pub fn make_array(&mut self, items: Items<Value>) -> Result<Result<Loc, Stop>, StepFault>
        ensures { (nodes : List kind.Node) (supply : ℕ → ℕ) → MatchResult result (λ got. Allocates (Cell.Array (built_in BuiltIn.ArrayPrototype (world_of nodes supply self.old)) items false) self.old self.new got)
            (λ fault. Fits nat_eq self.old.heap.cells (Cell.Array (built_in BuiltIn.ArrayPrototype (world_of nodes supply self.old)) items false) → fault ≡ StepFault.Memory) }
    {
        let proto = self.built_in(BuiltIn::ArrayPrototype);
        if is_prototype(&self.heap, &proto) && are_fit(&self.heap, items.as_slice()) {
            self.make(array(proto, items))
        } else {
            discard(items);
            Err(StepFault::Dangling)
        }
    }

    /// Makes a closure of a node's function (ECMA-262, 10.2.3), or stops.
    pub fn make_closure(
        &mut self,
        node: NodeId,
        env: Loc,
        receiver: Option<Value>,
    ) -> Result<Result<Loc, Stop>, StepFault>
        ensures { (nodes : List kind.Node) (supply : ℕ → ℕ) → MatchResult result (λ got. Allocates (Cell.Closure (bare BuiltIn.FunctionPrototype (world_of nodes supply self.old)) node.0 env receiver) self.old self.new got)
            (λ fault. Fits nat_eq self.old.heap.cells (Cell.Closure (bare BuiltIn.FunctionPrototype (world_of nodes supply self.old)) node.0 env receiver) → fault ≡ StepFault.Memory) }
    {
        let proto = self.built_in(BuiltIn::FunctionPrototype);
        if is_prototype(&self.heap, &proto)
            && is_cell(&self.heap, env)
            && is_fit_option(&self.heap, &receiver)
        {
            let cell = closure(self.alloc, proto, node, env, receiver);
            self.make(cell)
        } else {
            discard(receiver);
            Err(StepFault::Dangling)
        }
    }

    /// Counts units, or stops where they would pass the limit.
    pub fn count_units(&mut self, units: usize) -> bool
        ensures { CountsUnits units self.old self.new result }
    {
        self.heap.count();
        match self.heap.grow(0, units as u64) {
            Ok(()) => true,
            Err(_) => {
                self.control = Control::Stop;
                false
            }
        }
    }

    /// Makes an error with its message (ECMA-262, 20.5.1.1), or stops.
    pub fn make_error(
        &mut self,
        error: ErrorKind,
        message: Option<Units>,
    ) -> Result<Result<Loc, Stop>, StepFault>
        ensures { (nodes : List kind.Node) (supply : ℕ → ℕ) → MatchResult result (λ got. Allocates (error_cell error message (world_of nodes supply self.old)) self.old self.new got)
            (λ fault. Fits nat_eq self.old.heap.cells (error_cell error message (world_of nodes supply self.old)) → fault ≡ StepFault.Memory) }
    {
        let proto = self.built_in(error_prototype(error));
        let properties = message_table(self.alloc, message)?;
        if is_prototype(&self.heap, &proto) {
            self.make(error_of(proto, properties, error_number(error)))
        } else {
            discard(properties);
            Err(StepFault::Dangling)
        }
    }
}

// The prototype of the errors of a kind.
fn error_prototype(kind: ErrorKind) -> BuiltIn
    ensures { result ≡ prototype_of_kind kind }
{
    match kind {
        ErrorKind::Error => BuiltIn::ErrorPrototype,
        ErrorKind::EvalError => BuiltIn::EvalErrorPrototype,
        ErrorKind::RangeError => BuiltIn::RangeErrorPrototype,
        ErrorKind::ReferenceError => BuiltIn::ReferenceErrorPrototype,
        ErrorKind::SyntaxError => BuiltIn::SyntaxErrorPrototype,
        ErrorKind::TypeError => BuiltIn::TypeErrorPrototype,
        ErrorKind::URIError => BuiltIn::URIErrorPrototype,
    }
}

// The place of a kind among the seven kinds of error.
fn error_number(kind: ErrorKind) -> u8
    ensures { result ≡ kind_number kind }
{
    match kind {
        ErrorKind::Error => 0,
        ErrorKind::EvalError => 1,
        ErrorKind::RangeError => 2,
        ErrorKind::ReferenceError => 3,
        ErrorKind::SyntaxError => 4,
        ErrorKind::TypeError => 5,
        ErrorKind::URIError => 6,
    }
}

/// The text `message`.
const MESSAGE: [u16; 7] = [109, 101, 115, 115, 97, 103, 101];

// The text `message`, as a key.
fn message_key(alloc: Global) -> Result<Units, StepFault>
    ensures { MatchResult result (λ key. key ≡ codes "message") (λ fault. fault ≡ StepFault.Memory) }
{
    match Units::of_units(alloc, MESSAGE.as_slice()) {
        Ok(key) => Ok(key),
        Err(_) => Err(StepFault::Memory),
    }
}

// The properties of an error with a message, which isn't enumerable.
fn message_table(alloc: Global, message: Option<Units>) -> Result<Table<Property>, StepFault>
    ensures { MatchResult result (λ table. table ≡ message_entry message) (λ fault. fault ≡ StepFault.Memory) }
{
    let mut properties = Table::new(alloc);
    match message {
        Some(message) => {
            let property = Property::Data {
                value: Value::Str(message),
                writable: true,
                enumerable: false,
                configurable: true,
            };
            properties.put(message_key(alloc)?, property)?;
            Ok(properties)
        }
        None => Ok(properties),
    }
}

// An environment.
fn environment(outer: Option<Loc>, bindings: Items<Binding>) -> Cell
    ensures { result ≡ Cell.Env outer bindings }
{
    Cell::Env { outer, bindings }
}

// An array.
fn array(proto: Option<Loc>, items: Items<Value>) -> Cell
    ensures { result ≡ Cell.Array proto items false }
{
    Cell::Array {
        proto,
        items,
        frozen: false,
    }
}

// A body with these properties.
fn body(proto: Option<Loc>, properties: Table<Property>) -> Body
    ensures { result ≡ record { proto = proto; properties = properties; extensible = true } }
{
    Body {
        proto,
        properties,
        extensible: true,
    }
}

// An object without properties.
fn object(alloc: Global, proto: Option<Loc>) -> Cell
    ensures { result ≡ Cell.Object (record { proto = proto; properties = []; extensible = true }) }
{
    let body = body(proto, Table::new(alloc));
    Cell::Object { body }
}

// A closure without properties.
fn closure(
    alloc: Global,
    proto: Option<Loc>,
    node: NodeId,
    env: Loc,
    receiver: Option<Value>,
) -> Cell
    ensures { result ≡ Cell.Closure (record { proto = proto; properties = []; extensible = true }) node.0 env receiver }
{
    let body = body(proto, Table::new(alloc));
    Cell::Closure {
        body,
        node: node.0,
        env,
        receiver,
    }
}

// An error of the kind with this number.
fn error_of(proto: Option<Loc>, properties: Table<Property>, kind: u8) -> Cell
    ensures { result ≡ Cell.Error (record { proto = proto; properties = properties; extensible = true }) kind }
{
    let body = body(proto, properties);
    Cell::Error { body, kind }
}
