//! A cursor over tokens, with the nodes that were made so far.
ghost use Rattle.std.specs.Prelude.{◌≡◌, ◌<◌, ◌^◌, [], length};
ghost use Rattle.js_parse.specs.Ready.{symbol_of};
ghost use Rattle.js_parse.specs.Input as spec;
ghost use Rattle.js_parse.specs.Input.{Makes, Reads};

use crate::fault::Fault;
use crate::symbol::{Symbol, is_any_name, is_name, of_kind, same};
use js_token::{Token, TokenKind};
use js_tree::{Node, NodeId};
use std::alloc::Global;
use std::marker::Model;
use wl_text::Units;

/// The numbers of two marks.
const OPEN_PAREN: u8 = 2;

const CLOSE_PAREN: u8 = 3;

/// The tokens that are left, and the nodes that were made so far. What the next token is to the grammar is kept ready.
#[derive(Drop)]
pub struct Reader<'t> {
    tokens: &'t [Token],
    symbol: Symbol,
    nodes: Vec<(Node, u32)>,
}

impl<'t> Model for Reader<'t> {
    ghost use Rattle.std.specs.Prelude.{◌≡◌, ◌<◌, ◌^◌, List, ℕ, length};
    ghost use Rattle.js_token.specs.declared.token.Token.{Token};
    ghost use Rattle.js_tree.specs.declared.node.Node.{Node};
    ghost use Rattle.js_parse.specs.Ready.{symbol_of};

    ghost Value = { List Token × List (Node × ℕ) };

    ghost view = { λ reader. (reader.tokens.now, reader.nodes.items) };

    ghost invariant = { λ reader. reader.symbol ≡ symbol_of reader.tokens.now };
}

/// What the first of the tokens is to the grammar.
fn first_symbol(tokens: &[Token]) -> Symbol
    ensures { result ≡ symbol_of tokens.now }
{
    match tokens.split_first() {
        None => Symbol::End,
        Some((first, _)) => of_kind(&first.kind),
    }
}

/// Whether the first of the tokens is `=>` with no line break before it.
fn is_arrow(tokens: &[Token]) -> bool
    ensures { result ≡ spec.arrow_at tokens.now }
{
    match tokens.split_first() {
        None => false,
        Some((first, _)) => {
            if first.broken {
                return false;
            }
            same(of_kind(&first.kind), Symbol::Arrow)
        }
    }
}

/// How many parentheses are open behind a token.
fn opened_by(kind: &TokenKind, depth: usize) -> usize
    requires { depth < 2 ^ 63 }
    ensures { result ≡ spec.opened_by kind.now depth }
{
    match kind {
        TokenKind::Mark(mark) => {
            if *mark == OPEN_PAREN {
                return depth + 1;
            }
            if *mark == CLOSE_PAREN {
                return depth.saturating_sub(1);
            }
            depth
        }
        _ => depth,
    }
}

/// Whether `=>` with no line break before it stands behind the parenthesis that closes the last open one.
fn is_arrow_behind(tokens: &[Token]) -> bool
    ensures { result ≡ spec.arrow_behind 1 tokens.now }
{
    let mut depth = 1;
    let mut rest = tokens;
    'tokens: while let Some((first, more)) = rest.split_first() {
        if depth == 0 {
            return is_arrow(rest);
        }
        depth = opened_by(&first.kind, depth);
        rest = more;
    }
    false
}

impl<'t> Reader<'t> {
    /// A reader at the first of the tokens.
    pub fn new(alloc: Global, tokens: &'t [Token]) -> Reader<'t>
        ensures { result ≡ (tokens.now, []) }
    {
        Reader {
            tokens,
            symbol: first_symbol(tokens),
            nodes: Vec::new(alloc),
        }
    }

    /// What the next token is to the grammar.
    #[tactic(auto, unfolding(crate::specs::Input::symbol))]
    pub fn symbol(&self) -> Symbol
        ensures { result ≡ spec.symbol self.now }
    {
        self.symbol
    }

    /// How many tokens are left.
    pub fn left(&self) -> usize
        ensures { result ≡ length self.now.0 }
    {
        self.tokens.len()
    }

    /// The byte offset of the next token.
    #[tactic(auto, unfolding(crate::specs::Input::place))]
    pub fn place(&self) -> u32
        ensures { result ≡ spec.place self.now }
    {
        match self.tokens.split_first() {
            None => 0,
            Some((first, _)) => first.place,
        }
    }

    /// Whether a line break stands before the next token.
    #[tactic(auto, unfolding(crate::specs::Input::is_broken))]
    pub fn is_broken(&self) -> bool
        ensures { result ≡ spec.is_broken self.now }
    {
        match self.tokens.split_first() {
            None => false,
            Some((first, _)) => first.broken,
        }
    }

    /// Whether `=>` comes next, with no line break before it.
    #[tactic(auto, unfolding(crate::specs::Input::is_arrow))]
    pub fn is_arrow(&self) -> bool
        ensures { result ≡ spec.is_arrow self.now }
    {
        is_arrow(self.tokens)
    }

    /// Whether `=>` stands behind the next token, with no line break before it.
    #[tactic(auto, unfolding(crate::specs::Input::is_arrow_next))]
    pub fn is_arrow_next(&self) -> bool
        ensures { result ≡ spec.is_arrow_next self.now }
    {
        match self.tokens.split_first() {
            None => false,
            Some((_, more)) => is_arrow(more),
        }
    }

    /// Whether `=>` stands behind the parenthesis that closes the next token, with no line break before it. It takes
    /// time in proportion to the tokens in between.
    #[tactic(auto, unfolding(crate::specs::Input::is_arrow_ahead))]
    pub fn is_arrow_ahead(&self) -> bool
        ensures { result ≡ spec.is_arrow_ahead self.now }
    {
        match self.tokens.split_first() {
            None => false,
            Some((_, more)) => is_arrow_behind(more),
        }
    }

    /// The fault that no rule reads the next token.
    #[tactic(auto, unfolding(crate::specs::Input::refusal))]
    pub fn refuse(&self) -> Fault
        ensures { result ≡ spec.refusal self.now }
    {
        Fault::Token {
            place: self.place(),
            sure: false,
        }
    }

    /// Whether the next token is this symbol.
    #[tactic(auto, unfolding(crate::specs::Input::sees))]
    pub fn sees(&self, symbol: Symbol) -> bool
        ensures { result ≡ spec.sees symbol self.now }
    {
        same(self.symbol(), symbol)
    }

    /// Goes past the next token.
    #[tactic(auto, unfolding(crate::specs::Input::next))]
    pub fn advance(&mut self)
        ensures { self.new ≡ spec.next self.old }
    {
        if let Some((_, more)) = self.tokens.split_first() {
            self.symbol = first_symbol(more);
            self.tokens = more;
        }
    }

    /// Takes a token of this symbol, if it comes next.
    #[tactic(auto, unfolding(crate::specs::Input::after))]
    pub fn eat(&mut self, symbol: Symbol) -> bool
        ensures found { result ≡ spec.sees symbol self.old }
        ensures after { self.new ≡ spec.after symbol self.old }
    {
        let found = self.sees(symbol);
        if found {
            self.advance();
        }
        found
    }

    /// Takes a token of this symbol.
    #[tactic(auto, unfolding(crate::specs::Input::expect))]
    pub fn expect(&mut self, symbol: Symbol) -> Result<(), Fault>
        ensures { Reads (spec.expect symbol self.old) result self.new }
    {
        if self.sees(symbol) {
            self.advance();
            Ok(())
        } else {
            Err(self.refuse())
        }
    }

    /// Takes `=>` with no line break before it.
    #[tactic(auto, unfolding(crate::specs::Input::arrow))]
    pub fn arrow(&mut self) -> Result<(), Fault>
        ensures { Reads (spec.arrow self.old) result self.new }
    {
        if self.is_arrow() {
            self.advance();
            Ok(())
        } else {
            Err(self.refuse())
        }
    }

    /// The text of the next token, past which it goes.
    #[tactic(auto, unfolding(crate::specs::Input::text))]
    pub fn take_text(&mut self, alloc: Global) -> Result<Units, Fault>
        ensures { Reads (spec.take_text self.old) result self.new }
    {
        let text = text_at(alloc, self.tokens)?;
        self.advance();
        Ok(text)
    }

    /// The value of the next token, a number, past which it goes.
    #[tactic(auto, unfolding(crate::specs::Input::number))]
    pub fn take_number(&mut self) -> i64
        ensures value { result ≡ spec.number self.old }
        ensures next { self.new ≡ spec.next self.old }
    {
        let number = number_at(self.tokens);
        self.advance();
        number
    }

    /// Takes an identifier.
    #[tactic(auto, unfolding(crate::specs::Input::name))]
    pub fn name(&mut self, alloc: Global) -> Result<Units, Fault>
        ensures { Reads (spec.name self.old) result self.new }
    {
        if is_name(self.symbol()) {
            self.take_text(alloc)
        } else {
            Err(self.refuse())
        }
    }

    /// Takes an identifier or a reserved word.
    #[tactic(auto, unfolding(crate::specs::Input::any_name))]
    pub fn any_name(&mut self, alloc: Global) -> Result<Units, Fault>
        ensures { Reads (spec.any_name self.old) result self.new }
    {
        if is_any_name(self.symbol()) {
            self.take_text(alloc)
        } else {
            Err(self.refuse())
        }
    }

    /// Puts a node behind those so far, and gives its number.
    #[tactic(auto, unfolding(crate::specs::Input::add))]
    pub fn add(&mut self, node: Node, place: u32) -> Result<NodeId, Fault>
        ensures { Reads (spec.add node place self.old) result self.new }
    {
        let count = self.nodes.len();
        if count >= u32::MAX as usize {
            return Err(Fault::Memory);
        }
        self.nodes.push((node, place))?;
        Ok(NodeId(count as u32))
    }

    /// Takes a token that is a node by itself.
    #[tactic(auto, unfolding(crate::specs::Input::leaf))]
    pub fn leaf(&mut self, node: Node) -> Result<NodeId, Fault>
        ensures { Reads (spec.leaf node self.old) result self.new }
    {
        let place = self.place();
        self.advance();
        self.add(node, place)
    }

    /// Another reader at the same token, without nodes.
    pub fn again(&self, alloc: Global) -> Reader<'t>
        ensures { result ≡ (self.now.0, []) }
    {
        Reader {
            tokens: self.tokens,
            symbol: self.symbol,
            nodes: Vec::new(alloc),
        }
    }

    /// The nodes that were made.
    pub fn into_nodes(self) -> Vec<(Node, u32)>
        ensures { result.items ≡ self.entry.1 }
    {
        let Reader { nodes, .. } = self;
        nodes
    }
}

/// The text of the first of the tokens.
fn text_at(alloc: Global, tokens: &[Token]) -> Result<Units, Fault>
    ensures { Makes result (spec.text_at tokens.now) }
{
    match tokens.split_first() {
        None => no_text(alloc),
        Some((first, _)) => text_of(alloc, &first.kind),
    }
}

fn no_text(alloc: Global) -> Result<Units, Fault>
    ensures { Makes result [] }
{
    match Units::of_units(alloc, &[]) {
        Ok(text) => Ok(text),
        Err(_) => Err(Fault::Memory),
    }
}

/// The text that the token has.
fn text_of(alloc: Global, kind: &TokenKind) -> Result<Units, Fault>
    ensures { Makes result (spec.text_of kind.now) }
{
    match kind {
        TokenKind::Name(text) => Ok(text.copy(alloc)?),
        TokenKind::Word(text) => Ok(text.copy(alloc)?),
        TokenKind::Text(text) => Ok(text.copy(alloc)?),
        TokenKind::Piece { text, .. } => Ok(text.copy(alloc)?),
        _ => no_text(alloc),
    }
}

/// The value of the first of the tokens, if it is a number, else 0.
fn number_at(tokens: &[Token]) -> i64
    ensures { result ≡ spec.number_at tokens.now }
{
    match tokens.split_first() {
        None => 0,
        Some((first, _)) => match &first.kind {
            TokenKind::Number(value) => *value,
            _ => 0,
        },
    }
}
