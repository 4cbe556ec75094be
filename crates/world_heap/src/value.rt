//! Values and properties, over any type of locations.
ghost use Rattle.std.specs.Prelude.{◌≡◌, IfOk};

use std::alloc::{AllocError, Global};
use std::marker::Model;
use wl_text::Units;

/// The location of a cell.
#[derive(Debug, Drop, Clone, Copy, PartialEq, Eq, Hash)]
pub struct Loc {
    number: u32,
}

impl Model for Loc {
    ghost use Rattle.std.specs.Prelude.{ℕ};

    ghost Value = { ℕ };

    ghost view = { λ loc. loc.number };

    ghost inverse = { λ number. record { number = number } };
}

impl Loc {
    /// The location with this number.
    pub fn of(number: u32) -> Loc
        ensures { result ≡ number }
    {
        Loc { number }
    }

    /// The number of the location.
    pub fn number(self) -> u32
        ensures { result ≡ self }
    {
        self.number
    }
}

/// A value of the language (ECMA-262, 6.1). An object or a symbol is the location of its cell, and a number is whole
/// and from -(2^53-1) to 2^53-1.
#[derive(Drop)]
pub enum Value<L = Loc> {
    Undefined,
    Null,
    Bool(bool),
    Num(i64),
    Str(Units),
    Ref(L),
}

impl<L: Copy> Value<L> {
    /// The same value again.
    pub fn copy(&self, alloc: Global) -> Result<Value<L>, AllocError>
        ensures { IfOk result (λ value. value ≡ self.now) }
    {
        Ok(match self {
            Value::Undefined => Value::Undefined,
            Value::Null => Value::Null,
            Value::Bool(truth) => Value::Bool(*truth),
            Value::Num(number) => Value::Num(*number),
            Value::Str(text) => Value::Str(text.copy(alloc)?),
            Value::Ref(loc) => Value::Ref(*loc),
        })
    }
}

/// A property with its attributes (ECMA-262, 6.1.7.1): a value, or the functions that get and set it.
#[derive(Drop)]
pub enum Property<L = Loc> {
    Data {
        value: Value<L>,
        writable: bool,
        enumerable: bool,
        configurable: bool,
    },
    Access {
        get: Option<L>,
        set: Option<L>,
        enumerable: bool,
        configurable: bool,
    },
}
