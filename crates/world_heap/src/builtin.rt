//! The cells that every heap has from the start.
ghost use Rattle.std.specs.Prelude.{◌≡◌};
ghost use Rattle.world_heap.specs.BuiltIns.{place_of};

/// A built-in cell, by its name in ECMA-262; they stand in this order before all other cells of a heap.
#[derive(Debug, Drop, Clone, Copy, PartialEq, Eq)]
pub enum BuiltIn {
    ObjectPrototype,
    ErrorPrototype,
    EvalErrorPrototype,
    RangeErrorPrototype,
    ReferenceErrorPrototype,
    SyntaxErrorPrototype,
    TypeErrorPrototype,
    URIErrorPrototype,
    FunctionPrototype,
    ArrayPrototype,
    StringPrototype,
    MapPrototype,
    SetPrototype,
    PromisePrototype,
    ArrayBufferPrototype,
    Uint8ArrayPrototype,
    Global,
}

/// The place of a built-in cell among the cells of a heap, from 0.
pub fn place_number(built_in: BuiltIn) -> usize
    ensures { result ≡ place_of built_in }
{
    match built_in {
        BuiltIn::ObjectPrototype => 0,
        BuiltIn::ErrorPrototype => 1,
        BuiltIn::EvalErrorPrototype => 2,
        BuiltIn::RangeErrorPrototype => 3,
        BuiltIn::ReferenceErrorPrototype => 4,
        BuiltIn::SyntaxErrorPrototype => 5,
        BuiltIn::TypeErrorPrototype => 6,
        BuiltIn::URIErrorPrototype => 7,
        BuiltIn::FunctionPrototype => 8,
        BuiltIn::ArrayPrototype => 9,
        BuiltIn::StringPrototype => 10,
        BuiltIn::MapPrototype => 11,
        BuiltIn::SetPrototype => 12,
        BuiltIn::PromisePrototype => 13,
        BuiltIn::ArrayBufferPrototype => 14,
        BuiltIn::Uint8ArrayPrototype => 15,
        BuiltIn::Global => 16,
    }
}
