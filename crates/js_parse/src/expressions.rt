//! Expressions (ECMA-262, 13).
ghost use Rattle.std.specs.Prelude.{◌≡◌, ◌≤◌, ◌<◌};
ghost use Rattle.js_parse.specs.Grammar as spec;
ghost use Rattle.js_parse.specs.Input.{Reads};
ghost use Rattle.js_parse.specs.Nesting.{Nests, part_at};

use crate::bindings::{bind_name, one_parameter};
use crate::fault::Fault;
use crate::fork::{fault_of, later};
use crate::grammar::Grammar;
use crate::operators::{
    assign_node, assign_operator, infix_at, infix_node, is_prefix, postfix_node, prefix_node,
};
use crate::part::{Found, Parameters, Part};
use crate::reader::Reader;
use crate::symbol::{Symbol, is_name};
use js_tree::{BinaryOperator, Function, Node, NodeId};
use sqlite_items::Items;
use std::alloc::Global;

/// A function with these parameters and this body.
pub fn function_of(parameters: Parameters, body: NodeId) -> Function
    ensures { result ≡ spec.function_of parameters body }
{
    let Parameters { list, rest } = parameters;
    Function {
        parameters: list,
        rest,
        body,
    }
}

impl<F: Fn(Global, &mut Reader<'_>, u32, Part) -> Result<Found, Fault>> Grammar<F> {
    // What goes on behind an object or a callee, if anything does.
    #[tactic(auto, unfolding(crate::specs::Grammar::suffix))]
    fn suffix(
        &self,
        reader: &mut Reader<'_>,
        calls: bool,
        place: u32,
        left: NodeId,
    ) -> Result<Option<NodeId>, Fault>
        requires { Nests self.now.depth (F.pre self.now.part) (F.post self.now.part) }
        ensures { Reads (spec.suffix (part_at self.now.depth) calls place left reader.old) result reader.new }
    {
        match reader.symbol() {
            Symbol::Dot => {
                reader.advance();
                let name = reader.any_name(self.alloc)?;
                let id = reader.add(Node::Dot { object: left, name }, place)?;
                Ok(Some(id))
            }
            Symbol::OpenBracket => {
                let key = self.node(reader, Part::Index)?;
                let id = reader.add(Node::Index { object: left, key }, place)?;
                Ok(Some(id))
            }
            Symbol::OpenParen => {
                if !calls {
                    return Ok(None);
                }
                let arguments = self.nodes(reader, Part::Arguments)?;
                let call = Node::Call {
                    callee: left,
                    arguments,
                };
                let id = reader.add(call, place)?;
                Ok(Some(id))
            }
            _ => Ok(None),
        }
    }

    // All that goes on behind an object or a callee.
    #[tactic(auto, unfolding(crate::specs::Grammar::suffixes))]
    fn suffixes(
        &self,
        reader: &mut Reader<'_>,
        calls: bool,
        place: u32,
        first: NodeId,
    ) -> Result<NodeId, Fault>
        requires { Nests self.now.depth (F.pre self.now.part) (F.post self.now.part) }
        ensures { Reads (spec.suffixes (part_at self.now.depth) calls place first reader.old) result reader.new }
    {
        let mut left = first;
        'suffixes: for _turn in 0..reader.left() {
            match self.suffix(reader, calls, place, left)? {
                None => return Ok(left),
                Some(longer) => left = longer,
            }
        }
        Ok(left)
    }

    // A primary expression with its members and calls.
    #[tactic(auto, unfolding(crate::specs::Grammar::left_side))]
    fn left_side(&self, reader: &mut Reader<'_>) -> Result<NodeId, Fault>
        requires { Nests self.now.depth (F.pre self.now.part) (F.post self.now.part) }
        ensures { Reads (spec.left_side (part_at self.now.depth) reader.old) result reader.new }
    {
        let place = reader.place();
        let first = self.primary(reader)?;
        self.suffixes(reader, true, place, first)
    }

    // The arguments of `new`, if they stand.
    #[tactic(auto, unfolding(crate::specs::Grammar::new_arguments))]
    fn arguments_if(&self, reader: &mut Reader<'_>) -> Result<Items<NodeId>, Fault>
        requires { Nests self.now.depth (F.pre self.now.part) (F.post self.now.part) }
        ensures { Reads (spec.new_arguments (part_at self.now.depth) reader.old) result reader.new }
    {
        if reader.sees(Symbol::OpenParen) {
            return self.nodes(reader, Part::Arguments);
        }
        Ok(Items::new(self.alloc))
    }

    /// `new` with its callee and its arguments.
    #[tactic(auto, unfolding(crate::specs::Grammar::new_call))]
    pub fn new_call(&self, reader: &mut Reader<'_>) -> Result<NodeId, Fault>
        requires { Nests self.now.depth (F.pre self.now.part) (F.post self.now.part) }
        ensures { Reads (spec.new_call (part_at self.now.depth) reader.old) result reader.new }
    {
        let place = reader.place();
        reader.expect(Symbol::New)?;
        let inner = reader.place();
        let first = self.primary(reader)?;
        let callee = self.suffixes(reader, false, inner, first)?;
        let arguments = self.arguments_if(reader)?;
        reader.add(Node::New { callee, arguments }, place)
    }

    // A left side, maybe with `++` or `--` behind it, and whether it is a left side alone.
    #[tactic(auto, unfolding(crate::specs::Grammar::postfix))]
    fn postfix(&self, reader: &mut Reader<'_>) -> Result<(NodeId, bool), Fault>
        requires { Nests self.now.depth (F.pre self.now.part) (F.post self.now.part) }
        ensures { Reads (spec.postfix (part_at self.now.depth) reader.old) result reader.new }
    {
        let place = reader.place();
        let left = self.left_side(reader)?;
        if reader.is_broken() {
            return Ok((left, true));
        }
        match postfix_node(reader.symbol(), left) {
            None => Ok((left, true)),
            Some(update) => {
                reader.advance();
                let id = reader.add(update, place)?;
                Ok((id, false))
            }
        }
    }

    // An operand, and whether it is a left side alone.
    #[tactic(auto, unfolding(crate::specs::Grammar::unary))]
    fn unary(&self, reader: &mut Reader<'_>) -> Result<(NodeId, bool), Fault>
        requires { Nests self.now.depth (F.pre self.now.part) (F.post self.now.part) }
        ensures { Reads (spec.unary (part_at self.now.depth) reader.old) result reader.new }
    {
        if is_prefix(reader.symbol()) {
            let id = self.node(reader, Part::Unary)?;
            return Ok((id, false));
        }
        self.postfix(reader)
    }

    /// An operator before its operand.
    #[tactic(auto, unfolding(crate::specs::Grammar::prefix))]
    pub fn prefix(&self, reader: &mut Reader<'_>) -> Result<NodeId, Fault>
        requires { Nests self.now.depth (F.pre self.now.part) (F.post self.now.part) }
        ensures { Reads (spec.prefix (part_at self.now.depth) reader.old) result reader.new }
    {
        let place = reader.place();
        let symbol = reader.symbol();
        reader.advance();
        let operand = self.unary(reader)?;
        match prefix_node(symbol, operand.0) {
            None => Err(reader.refuse()),
            Some(operation) => reader.add(operation, place),
        }
    }

    // Operators of one level, with their right operands.
    #[cycle(operators)]
    fn chain(
        &self,
        reader: &mut Reader<'_>,
        level: u8,
        allow_in: bool,
        place: u32,
        first: NodeId,
    ) -> Result<NodeId, Fault>
        requires nests { Nests self.now.depth (F.pre self.now.part) (F.post self.now.part) }
        requires level { (1 ≤ level) × (level ≤ 11) }
        ensures { Reads (spec.chain (spec.operand (part_at self.now.depth) allow_in (spec.below level)) level allow_in place first reader.old) result reader.new }
    {
        let mut left = first;
        'operators: for _turn in 0..reader.left() {
            match infix_at(level, allow_in, reader.symbol()) {
                None => return Ok(left),
                Some(operator) => {
                    reader.advance();
                    let right = self.operand(reader, below(level), allow_in)?;
                    left = reader.add(infix_node(operator, left, right), place)?;
                }
            }
        }
        Ok(left)
    }

    // The operators up to a level, behind a first operand.
    #[cycle(operators)]
    fn operations(
        &self,
        reader: &mut Reader<'_>,
        level: u8,
        allow_in: bool,
        place: u32,
        first: NodeId,
    ) -> Result<NodeId, Fault>
        requires nests { Nests self.now.depth (F.pre self.now.part) (F.post self.now.part) }
        requires level { level ≤ 9 }
        ensures { Reads (spec.operations (part_at self.now.depth) allow_in level place first reader.old) result reader.new }
    {
        if level == 0 {
            return Ok(first);
        }
        let left = self.operations(reader, level - 1, allow_in, place, first)?;
        self.chain(reader, level, allow_in, place, left)
    }

    // An operand of operators above a level.
    #[cycle(operators)]
    fn operand(&self, reader: &mut Reader<'_>, level: u8, allow_in: bool) -> Result<NodeId, Fault>
        requires nests { Nests self.now.depth (F.pre self.now.part) (F.post self.now.part) }
        requires level { level ≤ 9 }
        ensures { Reads (spec.operand (part_at self.now.depth) allow_in level reader.old) result reader.new }
    {
        let place = reader.place();
        let first = self.unary(reader)?;
        self.operations(reader, level, allow_in, place, first.0)
    }

    // `||` and `&&`, or `??`, behind a first operand.
    #[tactic(auto, unfolding(crate::specs::Grammar::short, crate::specs::Grammar::below))]
    fn short(
        &self,
        reader: &mut Reader<'_>,
        allow_in: bool,
        place: u32,
        first: NodeId,
    ) -> Result<NodeId, Fault>
        requires { Nests self.now.depth (F.pre self.now.part) (F.post self.now.part) }
        ensures { Reads (spec.short (part_at self.now.depth) allow_in place first reader.old) result reader.new }
    {
        let left = self.operations(reader, 8, allow_in, place, first)?;
        if reader.sees(Symbol::Coalesce) {
            return self.chain(reader, 11, allow_in, place, left);
        }
        let both = self.chain(reader, 9, allow_in, place, left)?;
        self.chain(reader, 10, allow_in, place, both)
    }

    // `? :` behind a test, if it stands.
    #[tactic(auto, unfolding(crate::specs::Grammar::conditional))]
    fn conditional(
        &self,
        reader: &mut Reader<'_>,
        allow_in: bool,
        place: u32,
        test: NodeId,
    ) -> Result<NodeId, Fault>
        requires { Nests self.now.depth (F.pre self.now.part) (F.post self.now.part) }
        ensures { Reads (spec.conditional (part_at self.now.depth) allow_in place test reader.old) result reader.new }
    {
        if !reader.eat(Symbol::Question) {
            return Ok(test);
        }
        let yes = self.node(reader, Part::Right { allow_in })?;
        reader.expect(Symbol::Colon)?;
        let no = self.node(reader, Part::Right { allow_in })?;
        reader.add(Node::Cond { test, yes, no }, place)
    }

    // What goes on behind a first operand: an assignment, or operators.
    #[tactic(auto, unfolding(crate::specs::Grammar::behind_operand))]
    fn assigned(
        &self,
        reader: &mut Reader<'_>,
        allow_in: bool,
        place: u32,
        first: NodeId,
        operator: Option<Option<BinaryOperator>>,
    ) -> Result<NodeId, Fault>
        requires { Nests self.now.depth (F.pre self.now.part) (F.post self.now.part) }
        ensures { Reads (spec.behind_operand (part_at self.now.depth) allow_in place first operator reader.old) result reader.new }
    {
        match operator {
            None => {
                let left = self.short(reader, allow_in, place, first)?;
                self.conditional(reader, allow_in, place, left)
            }
            Some(operator) => {
                reader.advance();
                let value = self.node(reader, Part::Right { allow_in })?;
                reader.add(assign_node(operator, first, value), place)
            }
        }
    }

    // An assignment or a conditional expression.
    #[tactic(auto, unfolding(crate::specs::Grammar::unparenthesized))]
    fn unparenthesized(&self, reader: &mut Reader<'_>, allow_in: bool) -> Result<NodeId, Fault>
        requires { Nests self.now.depth (F.pre self.now.part) (F.post self.now.part) }
        ensures { Reads (spec.unparenthesized (part_at self.now.depth) allow_in reader.old) result reader.new }
    {
        let place = reader.place();
        let first = self.unary(reader)?;
        if !first.1 {
            return self.assigned(reader, allow_in, place, first.0, None);
        }
        let operator = assign_operator(reader.symbol());
        self.assigned(reader, allow_in, place, first.0, operator)
    }

    // An arrow with one name before it.
    #[tactic(auto, unfolding(crate::specs::Grammar::arrow_of_name))]
    fn arrow_of_name(&self, reader: &mut Reader<'_>, allow_in: bool) -> Result<NodeId, Fault>
        requires { Nests self.now.depth (F.pre self.now.part) (F.post self.now.part) }
        ensures { Reads (spec.arrow_of_name (part_at self.now.depth) allow_in reader.old) result reader.new }
    {
        let place = reader.place();
        let bind = bind_name(self.alloc, reader)?;
        let body = self.node(reader, Part::ArrowBody { allow_in })?;
        let parameters = one_parameter(self.alloc, bind)?;
        reader.add(Node::Arrow(function_of(parameters, body)), place)
    }

    // An arrow with parameters in parentheses before it.
    #[tactic(auto, unfolding(crate::specs::Grammar::arrow_of_list))]
    fn arrow_of_list(&self, reader: &mut Reader<'_>, allow_in: bool) -> Result<NodeId, Fault>
        requires { Nests self.now.depth (F.pre self.now.part) (F.post self.now.part) }
        ensures { Reads (spec.arrow_of_list (part_at self.now.depth) allow_in reader.old) result reader.new }
    {
        let place = reader.place();
        let parameters = self.parameters_of(reader, Part::Parameters)?;
        let body = self.node(reader, Part::ArrowBody { allow_in })?;
        reader.add(Node::Arrow(function_of(parameters, body)), place)
    }

    /// What begins an assignment expression: all but a comma.
    #[tactic(auto, unfolding(crate::specs::Grammar::assign))]
    pub fn assign(&self, reader: &mut Reader<'_>, allow_in: bool) -> Result<NodeId, Fault>
        requires { Nests self.now.depth (F.pre self.now.part) (F.post self.now.part) }
        ensures { Reads (spec.assign (part_at self.now.depth) allow_in reader.old) result reader.new }
    {
        if reader.sees(Symbol::OpenParen) {
            return self.parenthesized(reader, allow_in);
        }
        if !is_name(reader.symbol()) {
            return self.unparenthesized(reader, allow_in);
        }
        self.named(reader, allow_in)
    }

    // What begins with a name.
    #[tactic(auto, unfolding(crate::specs::Grammar::named))]
    fn named(&self, reader: &mut Reader<'_>, allow_in: bool) -> Result<NodeId, Fault>
        requires { Nests self.now.depth (F.pre self.now.part) (F.post self.now.part) }
        ensures { Reads (spec.named (part_at self.now.depth) allow_in reader.old) result reader.new }
    {
        if reader.is_arrow_next() {
            return self.arrow_of_name(reader, allow_in);
        }
        self.unparenthesized(reader, allow_in)
    }

    // What begins with `(`: the parameters of an arrow, or an expression in parentheses. Where the one that looks right
    // has a fault, the other may go further.
    #[tactic(auto, unfolding(crate::specs::Grammar::parenthesized))]
    fn parenthesized(&self, reader: &mut Reader<'_>, allow_in: bool) -> Result<NodeId, Fault>
        requires { Nests self.now.depth (F.pre self.now.part) (F.post self.now.part) }
        ensures { Reads (spec.parenthesized (part_at self.now.depth) allow_in reader.old) result reader.new }
    {
        if reader.is_arrow_ahead() {
            return self.arrow_first(reader, allow_in);
        }
        self.group_first(reader, allow_in)
    }

    #[tactic(auto, unfolding(crate::specs::Grammar::arrow_first, crate::specs::Input::fork))]
    fn arrow_first(&self, reader: &mut Reader<'_>, allow_in: bool) -> Result<NodeId, Fault>
        requires { Nests self.now.depth (F.pre self.now.part) (F.post self.now.part) }
        ensures { Reads (spec.arrow_first (part_at self.now.depth) allow_in reader.old) result reader.new }
    {
        let mut again = reader.again(self.alloc);
        match self.arrow_of_list(reader, allow_in) {
            Ok(id) => Ok(id),
            Err(Fault::Token { place, sure: false }) => {
                let other = self.unparenthesized(&mut again, allow_in);
                Err(later(place, fault_of(other, &again)))
            }
            Err(fault) => Err(fault),
        }
    }

    #[tactic(auto, unfolding(crate::specs::Grammar::group_first, crate::specs::Input::fork))]
    fn group_first(&self, reader: &mut Reader<'_>, allow_in: bool) -> Result<NodeId, Fault>
        requires { Nests self.now.depth (F.pre self.now.part) (F.post self.now.part) }
        ensures { Reads (spec.group_first (part_at self.now.depth) allow_in reader.old) result reader.new }
    {
        let mut again = reader.again(self.alloc);
        match self.unparenthesized(reader, allow_in) {
            Ok(id) => Ok(id),
            Err(Fault::Token { place, sure: false }) => {
                let other = self.arrow_of_list(&mut again, allow_in);
                Err(later(place, fault_of(other, &again)))
            }
            Err(fault) => Err(fault),
        }
    }

    /// Expressions with commas between.
    #[tactic(auto, unfolding(crate::specs::Grammar::expression))]
    pub fn expression(&self, reader: &mut Reader<'_>, allow_in: bool) -> Result<NodeId, Fault>
        requires { Nests self.now.depth (F.pre self.now.part) (F.post self.now.part) }
        ensures { Reads (spec.expression (part_at self.now.depth) allow_in reader.old) result reader.new }
    {
        let place = reader.place();
        let first = self.assign(reader, allow_in)?;
        self.sequence(reader, allow_in, place, first)
    }

    // What goes on behind a first expression with commas.
    #[tactic(auto, unfolding(crate::specs::Grammar::sequence))]
    fn sequence(
        &self,
        reader: &mut Reader<'_>,
        allow_in: bool,
        place: u32,
        first: NodeId,
    ) -> Result<NodeId, Fault>
        requires { Nests self.now.depth (F.pre self.now.part) (F.post self.now.part) }
        ensures { Reads (spec.sequence (part_at self.now.depth) allow_in place first reader.old) result reader.new }
    {
        let mut left = first;
        'commas: for _turn in 0..reader.left() {
            if !reader.eat(Symbol::Comma) {
                return Ok(left);
            }
            let second = self.assign(reader, allow_in)?;
            left = reader.add(
                Node::Seq {
                    first: left,
                    second,
                },
                place,
            )?;
        }
        Ok(left)
    }

    /// `=>` and the body of an arrow.
    #[tactic(auto, unfolding(crate::specs::Grammar::arrow_body))]
    pub fn arrow_body(&self, reader: &mut Reader<'_>, allow_in: bool) -> Result<NodeId, Fault>
        requires { Nests self.now.depth (F.pre self.now.part) (F.post self.now.part) }
        ensures { Reads (spec.arrow_body (part_at self.now.depth) allow_in reader.old) result reader.new }
    {
        reader.arrow()?;
        if reader.sees(Symbol::OpenBrace) {
            return self.node(reader, Part::Block);
        }
        self.assign(reader, allow_in)
    }
}

// The level below one: that of the operands.
#[tactic(auto, unfolding(crate::specs::Grammar::below))]
fn below(level: u8) -> u8
    requires { (1 ≤ level) × (level ≤ 11) }
    ensures value { result ≡ spec.below level }
    ensures less { result < level }
    ensures few { result ≤ 9 }
{
    if level == 11 {
        return 8;
    }
    level - 1
}
