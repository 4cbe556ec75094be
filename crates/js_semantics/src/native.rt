//! The built-in functions.
ghost use Rattle.std.specs.Prelude.{◌≡◌};
ghost use Rattle.js_semantics.specs.Natives.{native_at};

use parcel::ErrorKind;
use world_log::Level;

/// A built-in function.
#[derive(Debug, Drop, Clone, Copy, PartialEq, Eq)]
pub enum Native {
    /// `console.log` and its kin.
    Console(Level),
    /// `Error` and its kinds.
    Error(ErrorKind),
    /// `require`.
    Require,
}

impl Native {
    /// The built-in function with this number, `None` where there is none.
    pub fn of(number: u16) -> Option<Native>
        ensures { result ≡ native_at number }
    {
        match number {
            0 => Some(Native::Console(Level::Log)),
            1 => Some(Native::Console(Level::Info)),
            2 => Some(Native::Console(Level::Warn)),
            3 => Some(Native::Console(Level::Error)),
            4 => Some(Native::Error(ErrorKind::Error)),
            5 => Some(Native::Error(ErrorKind::EvalError)),
            6 => Some(Native::Error(ErrorKind::RangeError)),
            7 => Some(Native::Error(ErrorKind::ReferenceError)),
            8 => Some(Native::Error(ErrorKind::SyntaxError)),
            9 => Some(Native::Error(ErrorKind::TypeError)),
            10 => Some(Native::Error(ErrorKind::URIError)),
            11 => Some(Native::Require),
            _ => None,
        }
    }
}
