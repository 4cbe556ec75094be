//! Terminal symbols of the grammar (ECMA-262, 12).
ghost use Rattle.std.specs.Prelude.{◌≡◌, nat_eq};
ghost use Rattle.std.specs.Cmp.Lexicographic.{pointwise};
ghost use Rattle.js_parse.specs.Symbols as spec;

use js_token::TokenKind;
use wl_text::Units;

/// What a token is to the grammar.
#[derive(Clone, Copy, Debug, PartialEq, Eq)]
pub enum Symbol {
    /// The end of the text.
    End,
    /// An identifier other than the three that follow.
    Name,
    /// The identifier `of`.
    Of,
    /// The identifier `get`.
    Get,
    /// The identifier `set`.
    Set,
    /// A number.
    Number,
    /// A string.
    Text,
    /// A whole template.
    Template,
    /// The first stretch of a template with parts.
    TemplateHead,
    /// A stretch between two parts.
    TemplateMiddle,
    /// The last stretch.
    TemplateTail,
    /// `{`
    OpenBrace,
    /// `}`
    CloseBrace,
    /// `(`
    OpenParen,
    /// `)`
    CloseParen,
    /// `[`
    OpenBracket,
    /// `]`
    CloseBracket,
    /// `;`
    Semicolon,
    /// `,`
    Comma,
    /// `.`
    Dot,
    /// `...`
    Ellipsis,
    /// `<`
    Less,
    /// `>`
    Greater,
    /// `<=`
    LessEqual,
    /// `>=`
    GreaterEqual,
    /// `===`
    StrictEqual,
    /// `!==`
    StrictNotEqual,
    /// `+`
    Plus,
    /// `-`
    Minus,
    /// `*`
    Star,
    /// `/`
    Slash,
    /// `%`
    Percent,
    /// `<<`
    ShiftLeft,
    /// `>>`
    ShiftRight,
    /// `>>>`
    ShiftRightUnsigned,
    /// `&`
    BitAnd,
    /// `|`
    BitOr,
    /// `^`
    BitXor,
    /// `!`
    Not,
    /// `~`
    BitNot,
    /// `&&`
    And,
    /// `||`
    Or,
    /// `??`
    Coalesce,
    /// `?`
    Question,
    /// `:`
    Colon,
    /// `=`
    Assign,
    /// `+=`
    AddAssign,
    /// `-=`
    SubtractAssign,
    /// `*=`
    MultiplyAssign,
    /// `/=`
    DivideAssign,
    /// `%=`
    RemainderAssign,
    /// `++`
    Increment,
    /// `--`
    Decrement,
    /// `=>`
    Arrow,
    /// `break`
    Break,
    /// `catch`
    Catch,
    /// `const`
    Const,
    /// `continue`
    Continue,
    /// `delete`
    Delete,
    /// `do`
    Do,
    /// `else`
    Else,
    /// `false`
    False,
    /// `finally`
    Finally,
    /// `for`
    For,
    /// `function`
    Function,
    /// `if`
    If,
    /// `in`
    In,
    /// `instanceof`
    InstanceOf,
    /// `let`
    Let,
    /// `new`
    New,
    /// `null`
    Null,
    /// `return`
    Return,
    /// `this`
    This,
    /// `throw`
    Throw,
    /// `true`
    True,
    /// `try`
    Try,
    /// `typeof`
    Typeof,
    /// `void`
    Void,
    /// `while`
    While,
    /// A reserved word that no script has as itself.
    Reserved,
}

/// The symbols of the marks, in the order of their numbers.
const MARKS: [Symbol; 43] = [
    Symbol::OpenBrace,
    Symbol::CloseBrace,
    Symbol::OpenParen,
    Symbol::CloseParen,
    Symbol::OpenBracket,
    Symbol::CloseBracket,
    Symbol::Semicolon,
    Symbol::Comma,
    Symbol::Dot,
    Symbol::Ellipsis,
    Symbol::Less,
    Symbol::Greater,
    Symbol::LessEqual,
    Symbol::GreaterEqual,
    Symbol::StrictEqual,
    Symbol::StrictNotEqual,
    Symbol::Plus,
    Symbol::Minus,
    Symbol::Star,
    Symbol::Slash,
    Symbol::Percent,
    Symbol::ShiftLeft,
    Symbol::ShiftRight,
    Symbol::ShiftRightUnsigned,
    Symbol::BitAnd,
    Symbol::BitOr,
    Symbol::BitXor,
    Symbol::Not,
    Symbol::BitNot,
    Symbol::And,
    Symbol::Or,
    Symbol::Coalesce,
    Symbol::Question,
    Symbol::Colon,
    Symbol::Assign,
    Symbol::AddAssign,
    Symbol::SubtractAssign,
    Symbol::MultiplyAssign,
    Symbol::DivideAssign,
    Symbol::RemainderAssign,
    Symbol::Increment,
    Symbol::Decrement,
    Symbol::Arrow,
];

/// `==` on symbols.
pub fn same(a: Symbol, b: Symbol) -> bool
    ensures { result ≡ spec.same a b }
{
    a == b
}

/// Whether the units are those of the word.
fn is_spelled(word: &str, units: &[u16]) -> bool
    ensures { result ≡ pointwise nat_eq word.now units.now }
{
    let mut letters = word.as_bytes();
    let mut rest = units;
    'letters: while let Some((letter, more_letters)) = letters.split_first() {
        let Some((unit, more)) = rest.split_first() else {
            return false;
        };
        if u16::from(*letter) != *unit {
            return false;
        }
        letters = more_letters;
        rest = more;
    }
    rest.is_empty()
}

// The symbol of a word that ends a statement or goes with an exception.
#[tactic(auto, unfolding(crate::specs::Symbols::jump_word))]
fn jump_word(units: &[u16]) -> Option<Symbol>
    ensures { result ≡ spec.jump_word units.now }
{
    if is_spelled("break", units) {
        return Some(Symbol::Break);
    }
    if is_spelled("continue", units) {
        return Some(Symbol::Continue);
    }
    if is_spelled("return", units) {
        return Some(Symbol::Return);
    }
    if is_spelled("throw", units) {
        return Some(Symbol::Throw);
    }
    if is_spelled("try", units) {
        return Some(Symbol::Try);
    }
    if is_spelled("catch", units) {
        return Some(Symbol::Catch);
    }
    if is_spelled("finally", units) {
        return Some(Symbol::Finally);
    }
    None
}

// The symbol of a word of a branch, a loop or a declaration.
#[tactic(auto, unfolding(crate::specs::Symbols::control_word))]
fn control_word(units: &[u16]) -> Option<Symbol>
    ensures { result ≡ spec.control_word units.now }
{
    if is_spelled("if", units) {
        return Some(Symbol::If);
    }
    if is_spelled("else", units) {
        return Some(Symbol::Else);
    }
    if is_spelled("while", units) {
        return Some(Symbol::While);
    }
    if is_spelled("do", units) {
        return Some(Symbol::Do);
    }
    if is_spelled("for", units) {
        return Some(Symbol::For);
    }
    if is_spelled("let", units) {
        return Some(Symbol::Let);
    }
    if is_spelled("const", units) {
        return Some(Symbol::Const);
    }
    if is_spelled("function", units) {
        return Some(Symbol::Function);
    }
    None
}

// The symbol of a word of a value.
#[tactic(auto, unfolding(crate::specs::Symbols::value_word))]
fn value_word(units: &[u16]) -> Option<Symbol>
    ensures { result ≡ spec.value_word units.now }
{
    if is_spelled("this", units) {
        return Some(Symbol::This);
    }
    if is_spelled("null", units) {
        return Some(Symbol::Null);
    }
    if is_spelled("true", units) {
        return Some(Symbol::True);
    }
    if is_spelled("false", units) {
        return Some(Symbol::False);
    }
    None
}

// The symbol of a word of an operator.
#[tactic(auto, unfolding(crate::specs::Symbols::operator_word))]
fn operator_word(units: &[u16]) -> Option<Symbol>
    ensures { result ≡ spec.operator_word units.now }
{
    if is_spelled("new", units) {
        return Some(Symbol::New);
    }
    if is_spelled("delete", units) {
        return Some(Symbol::Delete);
    }
    if is_spelled("typeof", units) {
        return Some(Symbol::Typeof);
    }
    if is_spelled("void", units) {
        return Some(Symbol::Void);
    }
    if is_spelled("in", units) {
        return Some(Symbol::In);
    }
    if is_spelled("instanceof", units) {
        return Some(Symbol::InstanceOf);
    }
    None
}

/// What a reserved word is to the grammar.
#[tactic(auto, unfolding(crate::specs::Symbols::of_word))]
fn of_word(word: &Units) -> Symbol
    ensures { result ≡ spec.of_word word.now }
{
    let units = word.as_slice();
    if let Some(symbol) = jump_word(units) {
        return symbol;
    }
    if let Some(symbol) = control_word(units) {
        return symbol;
    }
    if let Some(symbol) = value_word(units) {
        return symbol;
    }
    if let Some(symbol) = operator_word(units) {
        return symbol;
    }
    Symbol::Reserved
}

/// What an identifier is to the grammar.
#[tactic(auto, unfolding(crate::specs::Symbols::of_name))]
fn of_name(name: &Units) -> Symbol
    ensures { result ≡ spec.of_name name.now }
{
    let units = name.as_slice();
    if is_spelled("of", units) {
        return Symbol::Of;
    }
    if is_spelled("get", units) {
        return Symbol::Get;
    }
    if is_spelled("set", units) {
        return Symbol::Set;
    }
    Symbol::Name
}

/// What a mark is to the grammar.
#[tactic(auto, unfolding(crate::specs::Symbols::of_mark))]
fn of_mark(mark: u8) -> Symbol
    ensures { result ≡ spec.of_mark mark }
{
    if usize::from(mark) < 43 {
        return MARKS[usize::from(mark)];
    }
    Symbol::End
}

/// What a stretch of a template is to the grammar.
fn of_piece(first: bool, last: bool) -> Symbol
    ensures { result ≡ spec.of_piece first last }
{
    match (first, last) {
        (true, true) => Symbol::Template,
        (true, false) => Symbol::TemplateHead,
        (false, false) => Symbol::TemplateMiddle,
        (false, true) => Symbol::TemplateTail,
    }
}

/// What a kind of token is to the grammar.
#[tactic(auto, unfolding(crate::specs::Symbols::of_kind))]
pub fn of_kind(kind: &TokenKind) -> Symbol
    ensures { result ≡ spec.of_kind kind.now }
{
    match kind {
        TokenKind::Name(name) => of_name(name),
        TokenKind::Word(word) => of_word(word),
        TokenKind::Number(_) => Symbol::Number,
        TokenKind::Text(_) => Symbol::Text,
        TokenKind::Piece { first, last, .. } => of_piece(*first, *last),
        TokenKind::Mark(mark) => of_mark(*mark),
        TokenKind::End => Symbol::End,
    }
}

/// Whether the symbol is an identifier.
pub fn is_name(symbol: Symbol) -> bool
    ensures { result ≡ spec.is_name symbol }
{
    matches!(
        symbol,
        Symbol::Name | Symbol::Of | Symbol::Get | Symbol::Set
    )
}

/// Whether the symbol is a reserved word.
pub fn is_word(symbol: Symbol) -> bool
    ensures { result ≡ spec.is_word symbol }
{
    matches!(
        symbol,
        Symbol::Break
            | Symbol::Catch
            | Symbol::Const
            | Symbol::Continue
            | Symbol::Delete
            | Symbol::Do
            | Symbol::Else
            | Symbol::False
            | Symbol::Finally
            | Symbol::For
            | Symbol::Function
            | Symbol::If
            | Symbol::In
            | Symbol::InstanceOf
            | Symbol::Let
            | Symbol::New
            | Symbol::Null
            | Symbol::Return
            | Symbol::This
            | Symbol::Throw
            | Symbol::True
            | Symbol::Try
            | Symbol::Typeof
            | Symbol::Void
            | Symbol::While
            | Symbol::Reserved
    )
}

/// Whether the symbol is an identifier or a reserved word.
pub fn is_any_name(symbol: Symbol) -> bool
    ensures { result ≡ spec.is_any_name symbol }
{
    is_name(symbol) || is_word(symbol)
}
