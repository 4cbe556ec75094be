//! The limit of nesting, and scripts as a whole.
ghost use Rattle.std.specs.Prelude.{◌≡◌};
ghost use Rattle.js_parse.specs.Nesting as spec;

use crate::fault::Fault;
use crate::operators::is_prefix;
use crate::part::Part;
use crate::reader::Reader;
use crate::symbol::{Symbol, is_name, same};

fn begins_primary(symbol: Symbol) -> bool
    ensures { result ≡ spec.begins_primary symbol }
{
    match symbol {
        Symbol::This
        | Symbol::Null
        | Symbol::True
        | Symbol::False
        | Symbol::Number
        | Symbol::Text
        | Symbol::Template
        | Symbol::TemplateHead
        | Symbol::OpenBracket
        | Symbol::OpenBrace
        | Symbol::OpenParen
        | Symbol::Function
        | Symbol::New => true,
        _ => is_name(symbol),
    }
}

// Whether an assignment expression may begin so.
#[tactic(auto, unfolding(crate::specs::Nesting::begins_assign))]
fn begins_assign(symbol: Symbol) -> bool
    ensures { result ≡ spec.begins_assign symbol }
{
    if is_prefix(symbol) {
        return true;
    }
    begins_primary(symbol)
}

// Whether a statement may begin so.
#[tactic(auto, unfolding(crate::specs::Nesting::begins_statement))]
fn begins_statement(symbol: Symbol) -> bool
    ensures { result ≡ spec.begins_statement symbol }
{
    match symbol {
        Symbol::OpenBrace
        | Symbol::Semicolon
        | Symbol::If
        | Symbol::While
        | Symbol::Do
        | Symbol::For
        | Symbol::Return
        | Symbol::Break
        | Symbol::Continue
        | Symbol::Throw
        | Symbol::Try => true,
        Symbol::Function => false,
        _ => begins_assign(symbol),
    }
}

fn begins_pattern(symbol: Symbol) -> bool
    ensures { result ≡ spec.begins_pattern symbol }
{
    matches!(symbol, Symbol::OpenBrace | Symbol::OpenBracket)
}

// Whether the next token may begin the part.
#[tactic(auto, unfolding(crate::specs::Nesting::opens))]
fn opens(part: Part, reader: &Reader<'_>) -> bool
    ensures { result ≡ spec.opens part reader.now }
{
    match part {
        Part::Right { .. } => begins_assign(reader.symbol()),
        Part::Group => same(reader.symbol(), Symbol::OpenParen),
        Part::Arguments => same(reader.symbol(), Symbol::OpenParen),
        Part::Index => same(reader.symbol(), Symbol::OpenBracket),
        Part::ComputedKey => same(reader.symbol(), Symbol::OpenBracket),
        Part::Array => same(reader.symbol(), Symbol::OpenBracket),
        Part::Object => same(reader.symbol(), Symbol::OpenBrace),
        Part::Template => same(reader.symbol(), Symbol::TemplateHead),
        Part::FunctionExpression => same(reader.symbol(), Symbol::Function),
        Part::FunctionDeclaration => same(reader.symbol(), Symbol::Function),
        Part::Method => same(reader.symbol(), Symbol::OpenParen),
        Part::Getter => same(reader.symbol(), Symbol::OpenParen),
        Part::Setter => same(reader.symbol(), Symbol::OpenParen),
        Part::ArrowBody { .. } => reader.is_arrow(),
        Part::Parameters => same(reader.symbol(), Symbol::OpenParen),
        Part::NoParameters => same(reader.symbol(), Symbol::OpenParen),
        Part::OneParameter => same(reader.symbol(), Symbol::OpenParen),
        Part::Block => same(reader.symbol(), Symbol::OpenBrace),
        Part::Body => begins_statement(reader.symbol()),
        Part::Unary => is_prefix(reader.symbol()),
        Part::New => same(reader.symbol(), Symbol::New),
        Part::Pattern => begins_pattern(reader.symbol()),
        Part::ForHead => same(reader.symbol(), Symbol::OpenParen),
        Part::CatchBind => same(reader.symbol(), Symbol::OpenParen),
    }
}

/// The fault where no level is left for a part: of nesting where the part begins, else of a token.
#[tactic(auto, unfolding(crate::specs::Nesting::too_deep))]
pub fn too_deep(part: Part, reader: &Reader<'_>) -> Fault
    ensures { result ≡ spec.too_deep part reader.now }
{
    if opens(part, reader) {
        return Fault::Deep {
            place: reader.place(),
        };
    }
    reader.refuse()
}
