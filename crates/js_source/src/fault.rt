//! Why a text is no script.
ghost use Rattle.std.specs.Prelude.{◌≡◌};
ghost use Rattle.js_source.specs.Kinds.{lexical, early, word_of};
ghost use Rattle.js_source.specs.Source.{token_fault, grammar_fault};

use js_parse::ParseFault;
use js_scope::ScopeKind;
use js_token::{LexFault, LexKind};

/// Why a text is no script at a place.
#[derive(Debug, Drop, Clone, Copy, PartialEq, Eq)]
pub enum SourceKind {
    /// The text is not UTF-8, or begins with a byte order mark.
    Text,
    /// A block comment is not ended.
    Comment,
    /// A number is too large, or goes on in a way in which no number does.
    Number,
    /// A string or a template has a wrong escape.
    Escape,
    /// A string is not ended on its line.
    String,
    /// A template is not ended.
    Template,
    /// A character begins no token.
    Char,
    /// No script has this token behind the tokens before it.
    Token,
    /// The token begins a level of nesting above 200.
    Deep,
    /// A name is declared twice in one scope, or stands twice in one list of parameters.
    Twice,
    /// `return` outside a function.
    Return,
    /// `break` or `continue` outside a loop of the same function.
    Loop,
    /// An assignment, `++` or `--` whose target is no name and no member.
    Target,
    /// `delete` of a name.
    Delete,
    /// `eval` or `arguments` as a name.
    Name,
    /// A property with the written key `__proto__`.
    Proto,
}

impl SourceKind {
    /// The word by which the kind is told to a user: its name in small letters.
    pub fn word(self) -> &'static str
        ensures { result.now ≡ word_of self }
    {
        match self {
            SourceKind::Text => "text",
            SourceKind::Comment => "comment",
            SourceKind::Number => "number",
            SourceKind::Escape => "escape",
            SourceKind::String => "string",
            SourceKind::Template => "template",
            SourceKind::Char => "char",
            SourceKind::Token => "token",
            SourceKind::Deep => "deep",
            SourceKind::Twice => "twice",
            SourceKind::Return => "return",
            SourceKind::Loop => "loop",
            SourceKind::Target => "target",
            SourceKind::Delete => "delete",
            SourceKind::Name => "name",
            SourceKind::Proto => "proto",
        }
    }
}

// The kind of a fault of tokens.
fn lexical(kind: LexKind) -> SourceKind
    ensures { result ≡ lexical kind }
{
    match kind {
        LexKind::Text => SourceKind::Text,
        LexKind::Comment => SourceKind::Comment,
        LexKind::Number => SourceKind::Number,
        LexKind::Escape => SourceKind::Escape,
        LexKind::String => SourceKind::String,
        LexKind::Template => SourceKind::Template,
        LexKind::Char => SourceKind::Char,
    }
}

/// The kind of an early error.
pub(crate) fn early(kind: ScopeKind) -> SourceKind
    ensures { result ≡ early kind }
{
    match kind {
        ScopeKind::Twice => SourceKind::Twice,
        ScopeKind::Return => SourceKind::Return,
        ScopeKind::Loop => SourceKind::Loop,
        ScopeKind::Target => SourceKind::Target,
        ScopeKind::Delete => SourceKind::Delete,
        ScopeKind::Name => SourceKind::Name,
        ScopeKind::Proto => SourceKind::Proto,
    }
}

/// The first fault of a text, or want of memory.
#[derive(Debug, Drop, Clone, Copy, PartialEq, Eq)]
pub enum SourceFault {
    /// The text is no script, for what stands at the byte offset.
    At { place: u32, kind: SourceKind },
    /// Memory ran out.
    Memory,
}

impl From<LexFault> for SourceFault {
    ghost from_gives = { λ fault told. told ≡ token_fault fault };

    fn from(fault: LexFault) -> SourceFault {
        match fault {
            LexFault::At { place, kind } => SourceFault::At {
                place,
                kind: lexical(kind),
            },
            LexFault::Memory => SourceFault::Memory,
        }
    }
}

impl From<ParseFault> for SourceFault {
    ghost from_gives = { λ fault told. told ≡ grammar_fault fault };

    fn from(fault: ParseFault) -> SourceFault {
        match fault {
            ParseFault::Token { place } => SourceFault::At {
                place,
                kind: SourceKind::Token,
            },
            ParseFault::Deep { place } => SourceFault::At {
                place,
                kind: SourceKind::Deep,
            },
            ParseFault::Memory => SourceFault::Memory,
        }
    }
}
