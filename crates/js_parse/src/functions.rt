//! Functions (ECMA-262, 15) and declarations (14.3.1).
ghost use Rattle.std.specs.Prelude.{◌≡◌};
ghost use Rattle.js_parse.specs.Statements as spec;
ghost use Rattle.js_parse.specs.Input.{Reads};
ghost use Rattle.js_parse.specs.Nesting.{Nests, part_at};

use crate::expressions::function_of;
use crate::fault::Fault;
use crate::grammar::Grammar;
use crate::part::{Found, Part};
use crate::reader::Reader;
use crate::symbol::{Symbol, is_name};
use js_tree::{Declarator, Function, Node, NodeId};
use sqlite_items::Items;
use std::alloc::Global;
use wl_text::Units;

// The name of a function expression, if it has one.
#[tactic(auto, unfolding(crate::specs::Statements::function_name))]
fn function_name(alloc: Global, reader: &mut Reader<'_>) -> Result<Option<Units>, Fault>
    ensures { Reads (spec.function_name reader.old) result reader.new }
{
    if is_name(reader.symbol()) {
        let text = reader.take_text(alloc)?;
        return Ok(Some(text));
    }
    Ok(None)
}

/// The node of a declaration.
pub fn declaration_node(constant: bool, pairs: Items<Declarator>) -> Node
    ensures { result ≡ spec.declaration_node constant pairs }
{
    if constant {
        Node::Const(pairs)
    } else {
        Node::Let(pairs)
    }
}

impl<F: Fn(Global, &mut Reader<'_>, u32, Part) -> Result<Found, Fault>> Grammar<F> {
    /// Parameters and a body.
    #[tactic(auto, unfolding(crate::specs::Statements::function_rest))]
    pub fn function_rest(&self, reader: &mut Reader<'_>, how: Part) -> Result<Function, Fault>
        requires { Nests self.now.depth (F.pre self.now.part) (F.post self.now.part) }
        ensures { Reads (spec.function_rest (part_at self.now.depth) how reader.old) result reader.new }
    {
        let parameters = self.parameters_of(reader, how)?;
        let body = self.node(reader, Part::Block)?;
        Ok(function_of(parameters, body))
    }

    /// A function as an expression.
    #[tactic(auto, unfolding(crate::specs::Statements::function_expression))]
    pub fn function_expression(&self, reader: &mut Reader<'_>) -> Result<NodeId, Fault>
        requires { Nests self.now.depth (F.pre self.now.part) (F.post self.now.part) }
        ensures { Reads (spec.function_expression (part_at self.now.depth) reader.old) result reader.new }
    {
        let place = reader.place();
        reader.expect(Symbol::Function)?;
        let name = function_name(self.alloc, reader)?;
        let function = self.function_rest(reader, Part::Parameters)?;
        reader.add(Node::Fun { name, function }, place)
    }

    /// A function as a declaration.
    #[tactic(auto, unfolding(crate::specs::Statements::function_declaration))]
    pub fn function_declaration(&self, reader: &mut Reader<'_>) -> Result<NodeId, Fault>
        requires { Nests self.now.depth (F.pre self.now.part) (F.post self.now.part) }
        ensures { Reads (spec.function_declaration (part_at self.now.depth) reader.old) result reader.new }
    {
        let place = reader.place();
        reader.expect(Symbol::Function)?;
        let name = reader.name(self.alloc)?;
        let function = self.function_rest(reader, Part::Parameters)?;
        reader.add(Node::FunDecl { name, function }, place)
    }

    /// An initial value, which may have to stand.
    #[tactic(auto, unfolding(crate::specs::Statements::initial))]
    pub fn initial(
        &self,
        reader: &mut Reader<'_>,
        allow_in: bool,
        required: bool,
    ) -> Result<Option<NodeId>, Fault>
        requires { Nests self.now.depth (F.pre self.now.part) (F.post self.now.part) }
        ensures { Reads (spec.initial (part_at self.now.depth) allow_in required reader.old) result reader.new }
    {
        if reader.eat(Symbol::Assign) {
            let value = self.assign(reader, allow_in)?;
            return Ok(Some(value));
        }
        if required {
            return Err(reader.refuse());
        }
        Ok(None)
    }

    // One binding of a declaration.
    #[tactic(auto, unfolding(crate::specs::Statements::declarator))]
    fn declarator(
        &self,
        reader: &mut Reader<'_>,
        constant: bool,
        allow_in: bool,
    ) -> Result<Declarator, Fault>
        requires { Nests self.now.depth (F.pre self.now.part) (F.post self.now.part) }
        ensures { Reads (spec.declarator (part_at self.now.depth) constant allow_in reader.old) result reader.new }
    {
        let named = is_name(reader.symbol());
        let bind = self.bind(reader)?;
        let value = self.initial(reader, allow_in, constant || !named)?;
        Ok(Declarator { bind, value })
    }

    /// The bindings of a declaration, behind the first.
    #[tactic(auto, unfolding(crate::specs::Statements::declarators))]
    pub fn declarators(
        &self,
        reader: &mut Reader<'_>,
        constant: bool,
        allow_in: bool,
        first: Declarator,
    ) -> Result<Items<Declarator>, Fault>
        requires { Nests self.now.depth (F.pre self.now.part) (F.post self.now.part) }
        ensures { Reads (spec.declarators (part_at self.now.depth) constant allow_in first reader.old) result reader.new }
    {
        let mut found = Items::new(self.alloc);
        found.push(first)?;
        'pairs: for _turn in 0..reader.left() {
            if !reader.eat(Symbol::Comma) {
                return Ok(found);
            }
            let item = self.declarator(reader, constant, allow_in)?;
            found.push(item)?;
        }
        Ok(found)
    }

    // A declaration behind its word.
    #[tactic(auto, unfolding(crate::specs::Statements::declaration))]
    fn declaration(
        &self,
        reader: &mut Reader<'_>,
        constant: bool,
        place: u32,
    ) -> Result<NodeId, Fault>
        requires { Nests self.now.depth (F.pre self.now.part) (F.post self.now.part) }
        ensures { Reads (spec.declaration (part_at self.now.depth) constant place reader.old) result reader.new }
    {
        let first = self.declarator(reader, constant, true)?;
        let pairs = self.declarators(reader, constant, true, first)?;
        reader.add(declaration_node(constant, pairs), place)
    }

    /// A declaration with the semicolon behind it.
    #[tactic(auto, unfolding(crate::specs::Statements::declaration_statement))]
    pub fn declaration_statement(
        &self,
        reader: &mut Reader<'_>,
        constant: bool,
    ) -> Result<NodeId, Fault>
        requires { Nests self.now.depth (F.pre self.now.part) (F.post self.now.part) }
        ensures { Reads (spec.declaration_statement (part_at self.now.depth) constant reader.old) result reader.new }
    {
        let place = reader.place();
        reader.advance();
        let id = self.declaration(reader, constant, place)?;
        reader.expect(Symbol::Semicolon)?;
        Ok(id)
    }
}
