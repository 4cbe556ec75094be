//! The rules of the grammar take the reader of nested parts as a parameter, so that each rule is proved by itself.
ghost use Rattle.js_parse.specs.Grammar as spec;
ghost use Rattle.js_parse.specs.Input.{Reads};
ghost use Rattle.js_parse.specs.Nesting.{Nests, part_at};
ghost use Rattle.js_parse.specs.Statements.{level};

use crate::fault::Fault;
use crate::nesting::too_deep;
use crate::part::{Found, Head, Parameters, Part};
use crate::reader::Reader;
use crate::symbol::Symbol;
use js_tree::{Function, NodeId};
use sqlite_items::Items;
use std::alloc::Global;

/// The rules of the grammar, where `part` reads what counts as a level of nesting.
#[derive(Clone, Copy)]
pub struct Grammar<F> {
    pub alloc: Global,
    /// How many more levels may nest in a part.
    pub depth: u32,
    pub part: F,
}

/// A part with its level of nesting, in which at most `depth` levels nest, its own among them.
pub fn part_of(
    alloc: Global,
    reader: &mut Reader<'_>,
    depth: u32,
    part: Part,
) -> Result<Found, Fault>
    ensures { Reads (part_at depth part reader.old) result reader.new }
{
    if depth == 0 {
        return Err(too_deep(part, reader));
    }
    Grammar {
        alloc,
        depth: depth - 1,
        part: part_of,
    }
    .level(reader, part)
}

/// Behind a member of a list: whether a comma comes, or what closes the list.
#[tactic(auto, unfolding(crate::specs::Grammar::comma_or))]
pub fn comma_or(reader: &mut Reader<'_>, close: Symbol) -> Result<bool, Fault>
    ensures { Reads (spec.comma_or close reader.old) result reader.new }
{
    if reader.eat(Symbol::Comma) {
        return Ok(true);
    }
    reader.expect(close)?;
    Ok(false)
}

impl<F: Fn(Global, &mut Reader<'_>, u32, Part) -> Result<Found, Fault>> Grammar<F> {
    fn read(&self, reader: &mut Reader<'_>, part: Part) -> Result<Found, Fault>
        requires { Nests self.now.depth (F.pre self.now.part) (F.post self.now.part) }
        ensures { Reads (part_at self.now.depth part reader.old) result reader.new }
    {
        (self.part)(self.alloc, reader, self.depth, part)
    }

    /// A part that is a node.
    #[tactic(auto, unfolding(crate::specs::Grammar::node_of))]
    pub fn node(&self, reader: &mut Reader<'_>, part: Part) -> Result<NodeId, Fault>
        requires { Nests self.now.depth (F.pre self.now.part) (F.post self.now.part) }
        ensures { Reads (spec.node_of (part_at self.now.depth) part reader.old) result reader.new }
    {
        match self.read(reader, part)? {
            Found::Node(id) => Ok(id),
            _ => Err(reader.refuse()),
        }
    }

    /// A part that is a list of nodes.
    #[tactic(auto, unfolding(crate::specs::Grammar::nodes_of))]
    pub fn nodes(&self, reader: &mut Reader<'_>, part: Part) -> Result<Items<NodeId>, Fault>
        requires { Nests self.now.depth (F.pre self.now.part) (F.post self.now.part) }
        ensures { Reads (spec.nodes_of (part_at self.now.depth) part reader.old) result reader.new }
    {
        match self.read(reader, part)? {
            Found::Nodes(ids) => Ok(ids),
            _ => Err(reader.refuse()),
        }
    }

    /// A part that is the parameters of a function.
    #[tactic(auto, unfolding(crate::specs::Grammar::parameters_of))]
    pub fn parameters_of(&self, reader: &mut Reader<'_>, part: Part) -> Result<Parameters, Fault>
        requires { Nests self.now.depth (F.pre self.now.part) (F.post self.now.part) }
        ensures { Reads (spec.parameters_of (part_at self.now.depth) part reader.old) result reader.new }
    {
        match self.read(reader, part)? {
            Found::Parameters(parameters) => Ok(parameters),
            _ => Err(reader.refuse()),
        }
    }

    /// A part that is the parameters and the body of a function.
    #[tactic(auto, unfolding(crate::specs::Grammar::body_of))]
    pub fn body_of(&self, reader: &mut Reader<'_>, part: Part) -> Result<Function, Fault>
        requires { Nests self.now.depth (F.pre self.now.part) (F.post self.now.part) }
        ensures { Reads (spec.body_of (part_at self.now.depth) part reader.old) result reader.new }
    {
        match self.read(reader, part)? {
            Found::Function(function) => Ok(function),
            _ => Err(reader.refuse()),
        }
    }

    /// A part that is what stands behind `for`.
    #[tactic(auto, unfolding(crate::specs::Grammar::head_of))]
    pub fn head_of(&self, reader: &mut Reader<'_>, part: Part) -> Result<Head, Fault>
        requires { Nests self.now.depth (F.pre self.now.part) (F.post self.now.part) }
        ensures { Reads (spec.head_of (part_at self.now.depth) part reader.old) result reader.new }
    {
        match self.read(reader, part)? {
            Found::Head(head) => Ok(head),
            _ => Err(reader.refuse()),
        }
    }

    /// A part, whose level is counted already.
    #[tactic(auto, unfolding(crate::specs::Statements::level))]
    fn level(&self, reader: &mut Reader<'_>, part: Part) -> Result<Found, Fault>
        requires { Nests self.now.depth (F.pre self.now.part) (F.post self.now.part) }
        ensures { Reads (level (part_at self.now.depth) part reader.old) result reader.new }
    {
        match part {
            Part::Right { allow_in } => Ok(Found::Node(self.assign(reader, allow_in)?)),
            Part::Group => Ok(Found::Node(self.group(reader)?)),
            Part::Arguments => Ok(Found::Nodes(self.arguments(reader)?)),
            Part::Index => Ok(Found::Node(self.index(reader)?)),
            Part::ComputedKey => Ok(Found::Node(self.computed_key(reader)?)),
            Part::Array => Ok(Found::Node(self.array(reader)?)),
            Part::Object => Ok(Found::Node(self.object(reader)?)),
            Part::Template => Ok(Found::Node(self.template(reader)?)),
            Part::FunctionExpression => Ok(Found::Node(self.function_expression(reader)?)),
            Part::FunctionDeclaration => Ok(Found::Node(self.function_declaration(reader)?)),
            Part::Method => Ok(Found::Function(self.function_rest(reader, Part::Parameters)?)),
            Part::Getter => Ok(Found::Function(self.function_rest(reader, Part::NoParameters)?)),
            Part::Setter => Ok(Found::Function(self.function_rest(reader, Part::OneParameter)?)),
            Part::ArrowBody { allow_in } => Ok(Found::Node(self.arrow_body(reader, allow_in)?)),
            Part::Parameters => Ok(Found::Parameters(self.parameters(reader)?)),
            Part::NoParameters => Ok(Found::Parameters(self.no_parameters(reader)?)),
            Part::OneParameter => Ok(Found::Parameters(self.setter_parameter(reader)?)),
            Part::Block => Ok(Found::Node(self.block(reader)?)),
            Part::Body => Ok(Found::Node(self.statement(reader)?)),
            Part::Unary => Ok(Found::Node(self.prefix(reader)?)),
            Part::New => Ok(Found::Node(self.new_call(reader)?)),
            Part::Pattern => Ok(Found::Node(self.pattern(reader)?)),
            Part::ForHead => Ok(Found::Head(self.for_head(reader)?)),
            Part::CatchBind => Ok(Found::Node(self.catch_bind(reader)?)),
        }
    }
}
