//! What a token is, and why a text has none at a place.
ghost use Rattle.js_token.specs.declared.token.LexFault.TheVariants.{Memory};
ghost use Rattle.std.specs.Prelude.{◌≡◌};

use std::alloc::{AllocError, AllocFailed};
use wl_text::Units;

/// What a token is (ECMA-262, 12). A mark is named by its place, from 0, in the list of marks.
#[derive(Drop, PartialEq, Eq)]
pub enum TokenKind {
    /// An identifier that is no reserved word.
    Name(Units),
    /// A reserved word.
    Word(Units),
    /// A number literal, from 0 to 2^53 - 1.
    Number(i64),
    /// A string literal, with its escapes replaced.
    Text(Units),
    /// A stretch of a template's text; `first` after the opening backquote, `last` before the closing one. It begins
    /// at the backquote, or at the `}` of the part before it.
    Piece {
        text: Units,
        first: bool,
        last: bool,
    },
    /// A punctuator.
    Mark(u8),
    /// The end of the text.
    End,
}

/// A token with the byte offset at which it begins. It is `broken` where a line break stands between it and the
/// token before.
#[derive(Drop, PartialEq, Eq)]
pub struct Token {
    /// The byte offset at which it begins.
    pub place: u32,
    /// Whether a line break stands before it, behind the token before.
    pub broken: bool,
    /// What it is.
    pub kind: TokenKind,
}

/// Why a text has no token at a place.
#[derive(Debug, Drop, Clone, Copy, PartialEq, Eq)]
pub enum LexKind {
    /// The text is not UTF-8, or begins with a byte order mark.
    Text,
    /// A block comment is not ended.
    Comment,
    /// A number is too large, or goes on in a way in which no number does.
    Number,
    /// A string or a template has a wrong escape.
    Escape,
    /// A string is not ended on its line.
    String,
    /// A template is not ended.
    Template,
    /// A character begins no token.
    Char,
}

/// The first place at which a text has no token, or want of memory.
#[derive(Debug, Drop, Clone, Copy, PartialEq, Eq)]
pub enum LexFault {
    /// There is no token at the byte offset.
    At { place: u32, kind: LexKind },
    /// Memory ran out.
    Memory,
}

impl From<AllocError> for LexFault {
    ghost from_gives = { λ _ fault. fault ≡ Memory };

    fn from(_error: AllocError) -> LexFault {
        LexFault::Memory
    }
}

impl<T: Drop> From<AllocFailed<T>> for LexFault {
    ghost from_gives = { λ _ fault. fault ≡ Memory };

    fn from(_error: AllocFailed<T>) -> LexFault {
        LexFault::Memory
    }
}
