//! Primary expressions, and what stands in brackets (ECMA-262, 13.2).
ghost use Rattle.std.specs.Prelude.{◌≡◌, [], ◌∷◌};
ghost use Rattle.js_parse.specs.Grammar as spec;
ghost use Rattle.js_parse.specs.Input.{Makes, Reads};
ghost use Rattle.js_parse.specs.Nesting.{Nests, part_at};

use crate::fault::Fault;
use crate::grammar::{Grammar, comma_or};
use crate::part::{Found, Part};
use crate::reader::Reader;
use crate::symbol::{Symbol, is_any_name};
use js_tree::{Node, NodeId, PropertyKey};
use sqlite_items::Items;
use std::alloc::Global;
use wl_text::{Units, number_text};

/// The largest number of a token, 2^53 - 1.
const LARGEST: i64 = 9_007_199_254_740_991;

// The decimal text of a number. No token has a number out of range.
fn key_of_number(alloc: Global, number: i64) -> Result<PropertyKey, Fault>
    ensures { Makes result (spec.number_key number) }
{
    if number < -LARGEST || LARGEST < number {
        return Err(Fault::Memory);
    }
    let text = number_text(alloc, number)?;
    Ok(PropertyKey::Written(text))
}

// A name as an expression.
#[tactic(auto, unfolding(crate::specs::Grammar::named_leaf))]
fn named_leaf(alloc: Global, reader: &mut Reader<'_>) -> Result<NodeId, Fault>
    ensures { Reads (spec.named_leaf reader.old) result reader.new }
{
    let place = reader.place();
    let text = reader.take_text(alloc)?;
    reader.add(Node::Name(text), place)
}

#[tactic(auto, unfolding(crate::specs::Grammar::number_leaf))]
fn number_leaf(reader: &mut Reader<'_>) -> Result<NodeId, Fault>
    ensures { Reads (spec.number_leaf reader.old) result reader.new }
{
    let place = reader.place();
    let value = reader.take_number();
    reader.add(Node::Num(value), place)
}

#[tactic(auto, unfolding(crate::specs::Grammar::text_leaf))]
fn text_leaf(alloc: Global, reader: &mut Reader<'_>) -> Result<NodeId, Fault>
    ensures { Reads (spec.text_leaf reader.old) result reader.new }
{
    let place = reader.place();
    let text = reader.take_text(alloc)?;
    reader.add(Node::Str(text), place)
}

fn one_text(alloc: Global, text: Units) -> Result<Items<Units>, Fault>
    ensures { Makes result (text ∷ []) }
{
    let mut texts = Items::new(alloc);
    texts.push(text)?;
    Ok(texts)
}

// A template without parts.
#[tactic(auto, unfolding(crate::specs::Grammar::template_leaf))]
fn template_leaf(alloc: Global, reader: &mut Reader<'_>) -> Result<NodeId, Fault>
    ensures { Reads (spec.template_leaf reader.old) result reader.new }
{
    let place = reader.place();
    let text = reader.take_text(alloc)?;
    let texts = one_text(alloc, text)?;
    let parts = Items::new(alloc);
    reader.add(Node::Template { texts, parts }, place)
}

// Whether a key may begin with the symbol.
#[tactic(auto, unfolding(crate::specs::Grammar::starts_key))]
fn starts_key(symbol: Symbol) -> bool
    ensures { result ≡ spec.starts_key symbol }
{
    match symbol {
        Symbol::OpenBracket | Symbol::Text | Symbol::Number => true,
        _ => is_any_name(symbol),
    }
}

impl<F: Fn(Global, &mut Reader<'_>, u32, Part) -> Result<Found, Fault>> Grammar<F> {
    /// A primary expression, or `new` with what it takes.
    #[tactic(auto, unfolding(crate::specs::Grammar::primary))]
    pub fn primary(&self, reader: &mut Reader<'_>) -> Result<NodeId, Fault>
        requires { Nests self.now.depth (F.pre self.now.part) (F.post self.now.part) }
        ensures { Reads (spec.primary (part_at self.now.depth) reader.old) result reader.new }
    {
        match reader.symbol() {
            Symbol::Name => named_leaf(self.alloc, reader),
            Symbol::Of => named_leaf(self.alloc, reader),
            Symbol::Get => named_leaf(self.alloc, reader),
            Symbol::Set => named_leaf(self.alloc, reader),
            Symbol::This => reader.leaf(Node::This),
            Symbol::Null => reader.leaf(Node::Null),
            Symbol::True => reader.leaf(Node::Bool(true)),
            Symbol::False => reader.leaf(Node::Bool(false)),
            Symbol::Number => number_leaf(reader),
            Symbol::Text => text_leaf(self.alloc, reader),
            Symbol::Template => template_leaf(self.alloc, reader),
            Symbol::TemplateHead => self.node(reader, Part::Template),
            Symbol::OpenBracket => self.node(reader, Part::Array),
            Symbol::OpenBrace => self.node(reader, Part::Object),
            Symbol::Function => self.node(reader, Part::FunctionExpression),
            Symbol::OpenParen => self.node(reader, Part::Group),
            Symbol::New => self.node(reader, Part::New),
            _ => Err(reader.refuse()),
        }
    }

    /// An expression in parentheses.
    #[tactic(auto, unfolding(crate::specs::Grammar::group))]
    pub fn group(&self, reader: &mut Reader<'_>) -> Result<NodeId, Fault>
        requires { Nests self.now.depth (F.pre self.now.part) (F.post self.now.part) }
        ensures { Reads (spec.group (part_at self.now.depth) reader.old) result reader.new }
    {
        reader.expect(Symbol::OpenParen)?;
        let inner = self.expression(reader, true)?;
        reader.expect(Symbol::CloseParen)?;
        Ok(inner)
    }

    /// The key of a member, in brackets behind its object.
    #[tactic(auto, unfolding(crate::specs::Grammar::index))]
    pub fn index(&self, reader: &mut Reader<'_>) -> Result<NodeId, Fault>
        requires { Nests self.now.depth (F.pre self.now.part) (F.post self.now.part) }
        ensures { Reads (spec.index (part_at self.now.depth) reader.old) result reader.new }
    {
        reader.expect(Symbol::OpenBracket)?;
        let inner = self.expression(reader, true)?;
        reader.expect(Symbol::CloseBracket)?;
        Ok(inner)
    }

    /// A computed key of an object literal.
    #[tactic(auto, unfolding(crate::specs::Grammar::computed_key))]
    pub fn computed_key(&self, reader: &mut Reader<'_>) -> Result<NodeId, Fault>
        requires { Nests self.now.depth (F.pre self.now.part) (F.post self.now.part) }
        ensures { Reads (spec.computed_key (part_at self.now.depth) reader.old) result reader.new }
    {
        reader.expect(Symbol::OpenBracket)?;
        let inner = self.assign(reader, true)?;
        reader.expect(Symbol::CloseBracket)?;
        Ok(inner)
    }

    // An element of an array or an argument, maybe spread.
    #[tactic(auto, unfolding(crate::specs::Grammar::element))]
    fn element(&self, reader: &mut Reader<'_>) -> Result<NodeId, Fault>
        requires { Nests self.now.depth (F.pre self.now.part) (F.post self.now.part) }
        ensures { Reads (spec.element (part_at self.now.depth) reader.old) result reader.new }
    {
        let place = reader.place();
        if reader.eat(Symbol::Ellipsis) {
            let list = self.assign(reader, true)?;
            return reader.add(Node::Spread(list), place);
        }
        self.assign(reader, true)
    }

    // Elements up to what closes them.
    #[tactic(auto, unfolding(crate::specs::Grammar::elements))]
    fn elements(&self, reader: &mut Reader<'_>, close: Symbol) -> Result<Items<NodeId>, Fault>
        requires { Nests self.now.depth (F.pre self.now.part) (F.post self.now.part) }
        ensures { Reads (spec.elements (part_at self.now.depth) close reader.old) result reader.new }
    {
        let mut found = Items::new(self.alloc);
        'members: for _turn in 0..reader.left() {
            if reader.eat(close) {
                return Ok(found);
            }
            let item = self.element(reader)?;
            found.push(item)?;
            if !comma_or(reader, close)? {
                return Ok(found);
            }
        }
        Err(reader.refuse())
    }

    /// The arguments of a call, in their parentheses.
    #[tactic(auto, unfolding(crate::specs::Grammar::arguments))]
    pub fn arguments(&self, reader: &mut Reader<'_>) -> Result<Items<NodeId>, Fault>
        requires { Nests self.now.depth (F.pre self.now.part) (F.post self.now.part) }
        ensures { Reads (spec.arguments (part_at self.now.depth) reader.old) result reader.new }
    {
        reader.expect(Symbol::OpenParen)?;
        self.elements(reader, Symbol::CloseParen)
    }

    /// An array literal.
    #[tactic(auto, unfolding(crate::specs::Grammar::array))]
    pub fn array(&self, reader: &mut Reader<'_>) -> Result<NodeId, Fault>
        requires { Nests self.now.depth (F.pre self.now.part) (F.post self.now.part) }
        ensures { Reads (spec.array (part_at self.now.depth) reader.old) result reader.new }
    {
        let place = reader.place();
        reader.expect(Symbol::OpenBracket)?;
        let items = self.elements(reader, Symbol::CloseBracket)?;
        reader.add(Node::ArrayLit(items), place)
    }

    // The parts of a template and the texts around them, behind the first text.
    #[tactic(auto, unfolding(crate::specs::Grammar::template_parts))]
    fn template_parts(
        &self,
        reader: &mut Reader<'_>,
        first: Units,
    ) -> Result<(Items<Units>, Items<NodeId>), Fault>
        requires { Nests self.now.depth (F.pre self.now.part) (F.post self.now.part) }
        ensures { Reads (spec.template_parts (part_at self.now.depth) first reader.old) result reader.new }
    {
        let mut texts = one_text(self.alloc, first)?;
        let mut parts = Items::new(self.alloc);
        'parts: for _turn in 0..reader.left() {
            let value = self.expression(reader, true)?;
            parts.push(value)?;
            if reader.sees(Symbol::TemplateTail) {
                let text = reader.take_text(self.alloc)?;
                texts.push(text)?;
                return Ok((texts, parts));
            }
            if !reader.sees(Symbol::TemplateMiddle) {
                return Err(reader.refuse());
            }
            let text = reader.take_text(self.alloc)?;
            texts.push(text)?;
        }
        Err(reader.refuse())
    }

    /// A template with parts.
    #[tactic(auto, unfolding(crate::specs::Grammar::template))]
    pub fn template(&self, reader: &mut Reader<'_>) -> Result<NodeId, Fault>
        requires { Nests self.now.depth (F.pre self.now.part) (F.post self.now.part) }
        ensures { Reads (spec.template (part_at self.now.depth) reader.old) result reader.new }
    {
        let place = reader.place();
        let first = reader.take_text(self.alloc)?;
        let (texts, parts) = self.template_parts(reader, first)?;
        reader.add(Node::Template { texts, parts }, place)
    }

    // The key of a member of an object literal.
    #[tactic(auto, unfolding(crate::specs::Grammar::property_key))]
    fn property_key(&self, reader: &mut Reader<'_>) -> Result<PropertyKey, Fault>
        requires { Nests self.now.depth (F.pre self.now.part) (F.post self.now.part) }
        ensures { Reads (spec.property_key (part_at self.now.depth) reader.old) result reader.new }
    {
        match reader.symbol() {
            Symbol::OpenBracket => {
                let id = self.node(reader, Part::ComputedKey)?;
                Ok(PropertyKey::Computed(id))
            }
            Symbol::Text => {
                let text = reader.take_text(self.alloc)?;
                Ok(PropertyKey::Written(text))
            }
            Symbol::Number => {
                let number = reader.take_number();
                key_of_number(self.alloc, number)
            }
            _ => {
                let text = reader.any_name(self.alloc)?;
                Ok(PropertyKey::Written(text))
            }
        }
    }

    // What stands behind a key: a value, or the rest of a method.
    #[tactic(auto, unfolding(crate::specs::Grammar::member_under))]
    fn member_under(
        &self,
        reader: &mut Reader<'_>,
        key: PropertyKey,
        place: u32,
    ) -> Result<NodeId, Fault>
        requires { Nests self.now.depth (F.pre self.now.part) (F.post self.now.part) }
        ensures { Reads (spec.member_under (part_at self.now.depth) key place reader.old) result reader.new }
    {
        if reader.eat(Symbol::Colon) {
            let value = self.assign(reader, true)?;
            return reader.add(Node::Property { key, value }, place);
        }
        let function = self.body_of(reader, Part::Method)?;
        reader.add(Node::Method { key, function }, place)
    }

    // A name that is both key and value.
    #[tactic(auto, unfolding(crate::specs::Grammar::shorthand))]
    fn shorthand(&self, reader: &mut Reader<'_>, text: Units, place: u32) -> Result<NodeId, Fault>
        requires { Nests self.now.depth (F.pre self.now.part) (F.post self.now.part) }
        ensures { Reads (spec.shorthand (part_at self.now.depth) text place reader.old) result reader.new }
    {
        let name = text.copy(self.alloc)?;
        let value = reader.add(Node::Name(name), place)?;
        let key = PropertyKey::Written(text);
        reader.add(Node::Property { key, value }, place)
    }

    // What stands behind a name: what stands behind a key, or nothing.
    #[tactic(auto, unfolding(crate::specs::Grammar::named_member))]
    fn named_member(
        &self,
        reader: &mut Reader<'_>,
        text: Units,
        place: u32,
    ) -> Result<NodeId, Fault>
        requires { Nests self.now.depth (F.pre self.now.part) (F.post self.now.part) }
        ensures { Reads (spec.named_member (part_at self.now.depth) text place reader.old) result reader.new }
    {
        match reader.symbol() {
            Symbol::Colon => self.member_under(reader, PropertyKey::Written(text), place),
            Symbol::OpenParen => self.member_under(reader, PropertyKey::Written(text), place),
            _ => self.shorthand(reader, text, place),
        }
    }

    // What stands behind `get`: a getter, or what stands behind a name.
    #[tactic(auto, unfolding(crate::specs::Grammar::getter))]
    fn getter(&self, reader: &mut Reader<'_>, text: Units, place: u32) -> Result<NodeId, Fault>
        requires { Nests self.now.depth (F.pre self.now.part) (F.post self.now.part) }
        ensures { Reads (spec.getter (part_at self.now.depth) text place reader.old) result reader.new }
    {
        if !starts_key(reader.symbol()) {
            return self.named_member(reader, text, place);
        }
        let key = self.property_key(reader)?;
        let function = self.body_of(reader, Part::Getter)?;
        reader.add(Node::Getter { key, function }, place)
    }

    // What stands behind `set`: a setter, or what stands behind a name.
    #[tactic(auto, unfolding(crate::specs::Grammar::setter))]
    fn setter(&self, reader: &mut Reader<'_>, text: Units, place: u32) -> Result<NodeId, Fault>
        requires { Nests self.now.depth (F.pre self.now.part) (F.post self.now.part) }
        ensures { Reads (spec.setter (part_at self.now.depth) text place reader.old) result reader.new }
    {
        if !starts_key(reader.symbol()) {
            return self.named_member(reader, text, place);
        }
        let key = self.property_key(reader)?;
        let function = self.body_of(reader, Part::Setter)?;
        reader.add(Node::Setter { key, function }, place)
    }

    // A member of an object literal.
    #[tactic(auto, unfolding(crate::specs::Grammar::member))]
    fn member(&self, reader: &mut Reader<'_>) -> Result<NodeId, Fault>
        requires { Nests self.now.depth (F.pre self.now.part) (F.post self.now.part) }
        ensures { Reads (spec.member (part_at self.now.depth) reader.old) result reader.new }
    {
        let place = reader.place();
        match reader.symbol() {
            Symbol::Get => {
                let text = reader.take_text(self.alloc)?;
                self.getter(reader, text, place)
            }
            Symbol::Set => {
                let text = reader.take_text(self.alloc)?;
                self.setter(reader, text, place)
            }
            Symbol::Name => {
                let text = reader.take_text(self.alloc)?;
                self.named_member(reader, text, place)
            }
            Symbol::Of => {
                let text = reader.take_text(self.alloc)?;
                self.named_member(reader, text, place)
            }
            _ => {
                let key = self.property_key(reader)?;
                self.member_under(reader, key, place)
            }
        }
    }

    #[tactic(auto, unfolding(crate::specs::Grammar::members))]
    fn members(&self, reader: &mut Reader<'_>) -> Result<Items<NodeId>, Fault>
        requires { Nests self.now.depth (F.pre self.now.part) (F.post self.now.part) }
        ensures { Reads (spec.members (part_at self.now.depth) reader.old) result reader.new }
    {
        let mut found = Items::new(self.alloc);
        'members: for _turn in 0..reader.left() {
            if reader.eat(Symbol::CloseBrace) {
                return Ok(found);
            }
            let item = self.member(reader)?;
            found.push(item)?;
            if !comma_or(reader, Symbol::CloseBrace)? {
                return Ok(found);
            }
        }
        Err(reader.refuse())
    }

    /// An object literal.
    #[tactic(auto, unfolding(crate::specs::Grammar::object))]
    pub fn object(&self, reader: &mut Reader<'_>) -> Result<NodeId, Fault>
        requires { Nests self.now.depth (F.pre self.now.part) (F.post self.now.part) }
        ensures { Reads (spec.object (part_at self.now.depth) reader.old) result reader.new }
    {
        let place = reader.place();
        reader.expect(Symbol::OpenBrace)?;
        let found = self.members(reader)?;
        reader.add(Node::ObjectLit(found), place)
    }
}
