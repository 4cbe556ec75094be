//! The characters of a script with their places (ECMA-262, 12.2 and 12.3).
ghost use Rattle.std.specs.Prelude.{◌≡◌, ◌≤◌, length, IsTrue, IfOk};
ghost use Rattle.std.specs.Str.{chars};
ghost use Rattle.js_token.specs.Characters.{with_places, is_next, is_line_break, is_blank, is_digit, is_hex_digit};

use std::alloc::{AllocError, Global};

/// A character and the offset of its first byte.
#[derive(Drop, Clone, Copy)]
pub(crate) struct Placed {
    pub(crate) place: u32,
    pub(crate) symbol: char,
}

/// The characters of the text.
pub(crate) fn with_places(alloc: Global, text: &str) -> Result<Vec<Placed>, AllocError>
    requires { length text.now ≤ 262_144 }
    ensures value { IfOk result (λ list. list.items ≡ with_places 0 (chars text.now)) }
    ensures size { IfOk result (λ list. length list.items ≤ length text.now) }
{
    let mut list = Vec::new(alloc);
    let mut place = 0;
    'text: for symbol in text.chars() {
        list.push(Placed { place, symbol })?;
        place += symbol.len_utf8() as u32;
    }
    Ok(list)
}

/// Whether the first character is this one.
pub(crate) fn is_next(chars: &[Placed], symbol: char) -> bool
    ensures value { result ≡ is_next symbol chars.now }
    ensures some { IsTrue result → 1 ≤ length chars.now }
{
    match chars.split_first() {
        None => false,
        Some((first, _)) => first.symbol == symbol,
    }
}

/// Whether the character breaks a line.
#[tactic(auto, unfolding(crate::specs::Characters::is_line_break))]
pub(crate) fn is_line_break(c: char) -> bool
    ensures { result ≡ is_line_break c }
{
    c == '\n' || c == '\r' || c == '\u{2028}' || c == '\u{2029}'
}

/// Whether the character is white space or a line break.
#[tactic(auto, unfolding(crate::specs::Characters::is_blank))]
pub(crate) fn is_blank(c: char) -> bool
    ensures { result ≡ is_blank c }
{
    c == '\t'
        || c == '\u{B}'
        || c == '\u{C}'
        || c == ' '
        || c == '\u{A0}'
        || c == '\u{FEFF}'
        || is_line_break(c)
}

/// Whether the character is a decimal digit.
pub(crate) fn is_digit(c: char) -> bool
    ensures { result ≡ is_digit c }
{
    c.to_digit(10).is_some()
}

/// Whether the character is a hexadecimal digit.
pub(crate) fn is_hex_digit(c: char) -> bool
    ensures { result ≡ is_hex_digit c }
{
    c.to_digit(16).is_some()
}
