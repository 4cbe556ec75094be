//! Names and patterns that bind (ECMA-262, 14.3.3), and the parameters of functions (15.1).
ghost use Rattle.std.specs.Prelude.{◌≡◌};
ghost use Rattle.js_parse.specs.Grammar as spec;
ghost use Rattle.js_parse.specs.Input.{Makes, Reads};
ghost use Rattle.js_parse.specs.Nesting.{Nests, part_at};

use crate::fault::Fault;
use crate::grammar::{Grammar, comma_or};
use crate::part::{Found, Parameters, Part};
use crate::reader::Reader;
use crate::symbol::{Symbol, is_name};
use js_tree::{BindElement, BindProperty, Node, NodeId};
use sqlite_items::Items;
use std::alloc::Global;
use wl_text::Units;

/// A name that binds.
#[tactic(auto, unfolding(crate::specs::Grammar::bind_name))]
pub fn bind_name(alloc: Global, reader: &mut Reader<'_>) -> Result<NodeId, Fault>
    ensures { Reads (spec.bind_name reader.old) result reader.new }
{
    let place = reader.place();
    let text = reader.name(alloc)?;
    reader.add(Node::BindName(text), place)
}

/// The parameters of a function that has this one alone.
pub fn one_parameter(alloc: Global, bind: NodeId) -> Result<Parameters, Fault>
    ensures { Makes result (spec.one_parameter bind) }
{
    let mut list = Items::new(alloc);
    list.push(BindElement {
        bind,
        default: None,
    })?;
    Ok(Parameters { list, rest: None })
}

// A key of a pattern: a name, a word or a string.
fn pattern_key(alloc: Global, reader: &mut Reader<'_>, first: Symbol) -> Result<Units, Fault>
    ensures { Reads (spec.pattern_key first reader.old) result reader.new }
{
    match first {
        Symbol::Text => reader.take_text(alloc),
        _ => reader.any_name(alloc),
    }
}

impl<F: Fn(Global, &mut Reader<'_>, u32, Part) -> Result<Found, Fault>> Grammar<F> {
    /// What binds: a name or a pattern.
    #[tactic(auto, unfolding(crate::specs::Grammar::bind))]
    pub fn bind(&self, reader: &mut Reader<'_>) -> Result<NodeId, Fault>
        requires { Nests self.now.depth (F.pre self.now.part) (F.post self.now.part) }
        ensures { Reads (spec.bind (part_at self.now.depth) reader.old) result reader.new }
    {
        match reader.symbol() {
            Symbol::OpenBrace => self.node(reader, Part::Pattern),
            Symbol::OpenBracket => self.node(reader, Part::Pattern),
            _ => bind_name(self.alloc, reader),
        }
    }

    // A default, if one stands.
    #[tactic(auto, unfolding(crate::specs::Grammar::default_value))]
    fn default_value(&self, reader: &mut Reader<'_>) -> Result<Option<NodeId>, Fault>
        requires { Nests self.now.depth (F.pre self.now.part) (F.post self.now.part) }
        ensures { Reads (spec.default_value (part_at self.now.depth) reader.old) result reader.new }
    {
        if reader.eat(Symbol::Assign) {
            let value = self.node(reader, Part::Right { allow_in: true })?;
            return Ok(Some(value));
        }
        Ok(None)
    }

    // A parameter, or an element of an array pattern.
    #[tactic(auto, unfolding(crate::specs::Grammar::bind_element))]
    fn bind_element(&self, reader: &mut Reader<'_>) -> Result<BindElement, Fault>
        requires { Nests self.now.depth (F.pre self.now.part) (F.post self.now.part) }
        ensures { Reads (spec.bind_element (part_at self.now.depth) reader.old) result reader.new }
    {
        let bind = self.bind(reader)?;
        let default = self.default_value(reader)?;
        Ok(BindElement { bind, default })
    }

    // What a key of a pattern binds: by itself only if it is a name.
    #[tactic(auto, unfolding(crate::specs::Grammar::bind_under))]
    fn bind_under(
        &self,
        reader: &mut Reader<'_>,
        named: bool,
        text: &Units,
        place: u32,
    ) -> Result<NodeId, Fault>
        requires { Nests self.now.depth (F.pre self.now.part) (F.post self.now.part) }
        ensures { Reads (spec.bind_under (part_at self.now.depth) named text.now place reader.old) result reader.new }
    {
        if reader.eat(Symbol::Colon) {
            return self.bind(reader);
        }
        if !named {
            return Err(reader.refuse());
        }
        let text = text.copy(self.alloc)?;
        reader.add(Node::BindName(text), place)
    }

    #[tactic(auto, unfolding(crate::specs::Grammar::bind_property))]
    fn bind_property(&self, reader: &mut Reader<'_>) -> Result<BindProperty, Fault>
        requires { Nests self.now.depth (F.pre self.now.part) (F.post self.now.part) }
        ensures { Reads (spec.bind_property (part_at self.now.depth) reader.old) result reader.new }
    {
        let place = reader.place();
        let first = reader.symbol();
        let key = pattern_key(self.alloc, reader, first)?;
        let bind = self.bind_under(reader, is_name(first), &key, place)?;
        let default = self.default_value(reader)?;
        Ok(BindProperty { key, bind, default })
    }

    #[tactic(auto, unfolding(crate::specs::Grammar::bind_properties))]
    fn bind_properties(&self, reader: &mut Reader<'_>) -> Result<Items<BindProperty>, Fault>
        requires { Nests self.now.depth (F.pre self.now.part) (F.post self.now.part) }
        ensures { Reads (spec.bind_properties (part_at self.now.depth) reader.old) result reader.new }
    {
        let mut found = Items::new(self.alloc);
        'members: for _turn in 0..reader.left() {
            if reader.eat(Symbol::CloseBrace) {
                return Ok(found);
            }
            let item = self.bind_property(reader)?;
            found.push(item)?;
            if !comma_or(reader, Symbol::CloseBrace)? {
                return Ok(found);
            }
        }
        Err(reader.refuse())
    }

    #[tactic(auto, unfolding(crate::specs::Grammar::bind_elements))]
    fn bind_elements(&self, reader: &mut Reader<'_>) -> Result<Items<BindElement>, Fault>
        requires { Nests self.now.depth (F.pre self.now.part) (F.post self.now.part) }
        ensures { Reads (spec.bind_elements (part_at self.now.depth) reader.old) result reader.new }
    {
        let mut found = Items::new(self.alloc);
        'members: for _turn in 0..reader.left() {
            if reader.eat(Symbol::CloseBracket) {
                return Ok(found);
            }
            let item = self.bind_element(reader)?;
            found.push(item)?;
            if !comma_or(reader, Symbol::CloseBracket)? {
                return Ok(found);
            }
        }
        Err(reader.refuse())
    }

    #[tactic(auto, unfolding(crate::specs::Grammar::object_pattern))]
    fn object_pattern(&self, reader: &mut Reader<'_>) -> Result<NodeId, Fault>
        requires { Nests self.now.depth (F.pre self.now.part) (F.post self.now.part) }
        ensures { Reads (spec.object_pattern (part_at self.now.depth) reader.old) result reader.new }
    {
        let place = reader.place();
        reader.advance();
        let parts = self.bind_properties(reader)?;
        reader.add(Node::BindObject(parts), place)
    }

    #[tactic(auto, unfolding(crate::specs::Grammar::array_pattern))]
    fn array_pattern(&self, reader: &mut Reader<'_>) -> Result<NodeId, Fault>
        requires { Nests self.now.depth (F.pre self.now.part) (F.post self.now.part) }
        ensures { Reads (spec.array_pattern (part_at self.now.depth) reader.old) result reader.new }
    {
        let place = reader.place();
        reader.advance();
        let parts = self.bind_elements(reader)?;
        reader.add(Node::BindArray(parts), place)
    }

    /// An object or array pattern.
    #[tactic(auto, unfolding(crate::specs::Grammar::pattern))]
    pub fn pattern(&self, reader: &mut Reader<'_>) -> Result<NodeId, Fault>
        requires { Nests self.now.depth (F.pre self.now.part) (F.post self.now.part) }
        ensures { Reads (spec.pattern (part_at self.now.depth) reader.old) result reader.new }
    {
        match reader.symbol() {
            Symbol::OpenBrace => self.object_pattern(reader),
            Symbol::OpenBracket => self.array_pattern(reader),
            _ => Err(reader.refuse()),
        }
    }

    // A rest parameter, with what closes the list.
    #[tactic(auto, unfolding(crate::specs::Grammar::rest_parameter))]
    fn rest_parameter(&self, reader: &mut Reader<'_>) -> Result<NodeId, Fault>
        requires { Nests self.now.depth (F.pre self.now.part) (F.post self.now.part) }
        ensures { Reads (spec.rest_parameter (part_at self.now.depth) reader.old) result reader.new }
    {
        let bind = bind_name(self.alloc, reader)?;
        reader.expect(Symbol::CloseParen)?;
        Ok(bind)
    }

    // The parameters behind the opening parenthesis.
    #[tactic(auto, unfolding(crate::specs::Grammar::parameter_list))]
    fn parameter_list(&self, reader: &mut Reader<'_>) -> Result<Parameters, Fault>
        requires { Nests self.now.depth (F.pre self.now.part) (F.post self.now.part) }
        ensures { Reads (spec.parameter_list (part_at self.now.depth) reader.old) result reader.new }
    {
        let mut list = Items::new(self.alloc);
        'members: for _turn in 0..reader.left() {
            if reader.eat(Symbol::CloseParen) {
                return Ok(Parameters { list, rest: None });
            }
            if reader.eat(Symbol::Ellipsis) {
                let rest = self.rest_parameter(reader)?;
                return Ok(Parameters {
                    list,
                    rest: Some(rest),
                });
            }
            let item = self.bind_element(reader)?;
            list.push(item)?;
            if !comma_or(reader, Symbol::CloseParen)? {
                return Ok(Parameters { list, rest: None });
            }
        }
        Err(reader.refuse())
    }

    /// The parameters of a function, in their parentheses.
    #[tactic(auto, unfolding(crate::specs::Grammar::parameters))]
    pub fn parameters(&self, reader: &mut Reader<'_>) -> Result<Parameters, Fault>
        requires { Nests self.now.depth (F.pre self.now.part) (F.post self.now.part) }
        ensures { Reads (spec.parameters (part_at self.now.depth) reader.old) result reader.new }
    {
        reader.expect(Symbol::OpenParen)?;
        self.parameter_list(reader)
    }

    /// The parentheses of a getter.
    #[tactic(auto, unfolding(crate::specs::Grammar::no_parameters))]
    pub fn no_parameters(&self, reader: &mut Reader<'_>) -> Result<Parameters, Fault>
        requires { Nests self.now.depth (F.pre self.now.part) (F.post self.now.part) }
        ensures { Reads (spec.no_parameters (part_at self.now.depth) reader.old) result reader.new }
    {
        reader.expect(Symbol::OpenParen)?;
        reader.expect(Symbol::CloseParen)?;
        Ok(Parameters {
            list: Items::new(self.alloc),
            rest: None,
        })
    }

    /// The one parameter of a setter, in its parentheses.
    #[tactic(auto, unfolding(crate::specs::Grammar::setter_parameter))]
    pub fn setter_parameter(&self, reader: &mut Reader<'_>) -> Result<Parameters, Fault>
        requires { Nests self.now.depth (F.pre self.now.part) (F.post self.now.part) }
        ensures { Reads (spec.setter_parameter (part_at self.now.depth) reader.old) result reader.new }
    {
        reader.expect(Symbol::OpenParen)?;
        let bind = self.bind(reader)?;
        reader.expect(Symbol::CloseParen)?;
        one_parameter(self.alloc, bind)
    }

    /// What `catch` binds, in its parentheses.
    #[tactic(auto, unfolding(crate::specs::Grammar::catch_bind))]
    pub fn catch_bind(&self, reader: &mut Reader<'_>) -> Result<NodeId, Fault>
        requires { Nests self.now.depth (F.pre self.now.part) (F.post self.now.part) }
        ensures { Reads (spec.catch_bind (part_at self.now.depth) reader.old) result reader.new }
    {
        reader.expect(Symbol::OpenParen)?;
        let bind = self.bind(reader)?;
        reader.expect(Symbol::CloseParen)?;
        Ok(bind)
    }
}
