//! Statements (ECMA-262, 14) and scripts (16.1).
ghost use Rattle.std.specs.Prelude.{◌≡◌};
ghost use Rattle.js_parse.specs.Statements as spec;
ghost use Rattle.js_parse.specs.Input.{Reads};
ghost use Rattle.js_parse.specs.Nesting.{Nests, part_at};

use crate::fault::Fault;
use crate::functions::declaration_node;
use crate::grammar::Grammar;
use crate::part::{Found, Head, Part};
use crate::reader::Reader;
use crate::symbol::{Symbol, is_name};
use js_tree::{Declarator, Node, NodeId};
use sqlite_items::Items;
use std::alloc::Global;

// The node of a loop by its head.
fn for_node(head: Head, body: NodeId) -> Node
    ensures { result ≡ spec.for_node head body }
{
    match head {
        Head::Loop { first, test, next } => Node::For {
            first,
            test,
            next,
            body,
        },
        Head::Of {
            constant,
            bind,
            list,
        } => Node::ForOf {
            constant,
            bind,
            list,
            body,
        },
    }
}

// `break` or `continue`.
#[tactic(auto, unfolding(crate::specs::Statements::jump))]
fn jump(reader: &mut Reader<'_>, statement: Node) -> Result<NodeId, Fault>
    ensures { Reads (spec.jump statement reader.old) result reader.new }
{
    let place = reader.place();
    reader.advance();
    reader.expect(Symbol::Semicolon)?;
    reader.add(statement, place)
}

impl<F: Fn(Global, &mut Reader<'_>, u32, Part) -> Result<Found, Fault>> Grammar<F> {
    // The other branch, if it stands.
    #[tactic(auto, unfolding(crate::specs::Statements::else_clause))]
    fn else_part(&self, reader: &mut Reader<'_>) -> Result<Option<NodeId>, Fault>
        requires { Nests self.now.depth (F.pre self.now.part) (F.post self.now.part) }
        ensures { Reads (spec.else_clause (part_at self.now.depth) reader.old) result reader.new }
    {
        if reader.eat(Symbol::Else) {
            let id = self.node(reader, Part::Body)?;
            return Ok(Some(id));
        }
        Ok(None)
    }

    #[tactic(auto, unfolding(crate::specs::Statements::if_statement))]
    fn if_statement(&self, reader: &mut Reader<'_>) -> Result<NodeId, Fault>
        requires { Nests self.now.depth (F.pre self.now.part) (F.post self.now.part) }
        ensures { Reads (spec.if_statement (part_at self.now.depth) reader.old) result reader.new }
    {
        let place = reader.place();
        reader.advance();
        let test = self.node(reader, Part::Group)?;
        let yes = self.node(reader, Part::Body)?;
        let no = self.else_part(reader)?;
        reader.add(Node::If { test, yes, no }, place)
    }

    #[tactic(auto, unfolding(crate::specs::Statements::while_statement))]
    fn while_statement(&self, reader: &mut Reader<'_>) -> Result<NodeId, Fault>
        requires { Nests self.now.depth (F.pre self.now.part) (F.post self.now.part) }
        ensures { Reads (spec.while_statement (part_at self.now.depth) reader.old) result reader.new }
    {
        let place = reader.place();
        reader.advance();
        let test = self.node(reader, Part::Group)?;
        let body = self.node(reader, Part::Body)?;
        reader.add(Node::While { test, body }, place)
    }

    #[tactic(auto, unfolding(crate::specs::Statements::do_statement))]
    fn do_statement(&self, reader: &mut Reader<'_>) -> Result<NodeId, Fault>
        requires { Nests self.now.depth (F.pre self.now.part) (F.post self.now.part) }
        ensures { Reads (spec.do_statement (part_at self.now.depth) reader.old) result reader.new }
    {
        let place = reader.place();
        reader.advance();
        let body = self.node(reader, Part::Body)?;
        reader.expect(Symbol::While)?;
        let test = self.node(reader, Part::Group)?;
        reader.expect(Symbol::Semicolon)?;
        reader.add(Node::DoWhile { body, test }, place)
    }

    #[tactic(auto, unfolding(crate::specs::Statements::for_statement))]
    fn for_statement(&self, reader: &mut Reader<'_>) -> Result<NodeId, Fault>
        requires { Nests self.now.depth (F.pre self.now.part) (F.post self.now.part) }
        ensures { Reads (spec.for_statement (part_at self.now.depth) reader.old) result reader.new }
    {
        let place = reader.place();
        reader.advance();
        let head = self.head_of(reader, Part::ForHead)?;
        let body = self.node(reader, Part::Body)?;
        reader.add(for_node(head, body), place)
    }

    // The value of `return`, on its line.
    #[tactic(auto, unfolding(crate::specs::Statements::return_value))]
    fn return_value(&self, reader: &mut Reader<'_>) -> Result<Option<NodeId>, Fault>
        requires { Nests self.now.depth (F.pre self.now.part) (F.post self.now.part) }
        ensures { Reads (spec.return_value (part_at self.now.depth) reader.old) result reader.new }
    {
        if reader.is_broken() {
            return Ok(None);
        }
        if reader.sees(Symbol::Semicolon) {
            return Ok(None);
        }
        let value = self.expression(reader, true)?;
        Ok(Some(value))
    }

    #[tactic(auto, unfolding(crate::specs::Statements::return_statement))]
    fn return_statement(&self, reader: &mut Reader<'_>) -> Result<NodeId, Fault>
        requires { Nests self.now.depth (F.pre self.now.part) (F.post self.now.part) }
        ensures { Reads (spec.return_statement (part_at self.now.depth) reader.old) result reader.new }
    {
        let place = reader.place();
        reader.advance();
        let value = self.return_value(reader)?;
        reader.expect(Symbol::Semicolon)?;
        reader.add(Node::Return(value), place)
    }

    #[tactic(auto, unfolding(crate::specs::Statements::throw_statement))]
    fn throw_statement(&self, reader: &mut Reader<'_>) -> Result<NodeId, Fault>
        requires { Nests self.now.depth (F.pre self.now.part) (F.post self.now.part) }
        ensures { Reads (spec.throw_statement (part_at self.now.depth) reader.old) result reader.new }
    {
        let place = reader.place();
        reader.advance();
        if reader.is_broken() {
            return Err(reader.refuse());
        }
        let value = self.expression(reader, true)?;
        reader.expect(Symbol::Semicolon)?;
        reader.add(Node::Throw(value), place)
    }

    // What `catch` binds, if anything.
    #[tactic(auto, unfolding(crate::specs::Statements::catch_parameter))]
    fn catch_parameter(&self, reader: &mut Reader<'_>) -> Result<Option<NodeId>, Fault>
        requires { Nests self.now.depth (F.pre self.now.part) (F.post self.now.part) }
        ensures { Reads (spec.catch_parameter (part_at self.now.depth) reader.old) result reader.new }
    {
        if reader.sees(Symbol::OpenParen) {
            let bind = self.node(reader, Part::CatchBind)?;
            return Ok(Some(bind));
        }
        Ok(None)
    }

    // `catch` with what it binds and its block, if it stands.
    #[tactic(auto, unfolding(crate::specs::Statements::catch_clause))]
    fn catch_clause(
        &self,
        reader: &mut Reader<'_>,
    ) -> Result<(Option<NodeId>, Option<NodeId>), Fault>
        requires { Nests self.now.depth (F.pre self.now.part) (F.post self.now.part) }
        ensures { Reads (spec.catch_clause (part_at self.now.depth) reader.old) result reader.new }
    {
        if !reader.eat(Symbol::Catch) {
            return Ok((None, None));
        }
        let bind = self.catch_parameter(reader)?;
        let handler = self.node(reader, Part::Block)?;
        Ok((bind, Some(handler)))
    }

    // `finally` with its block, which may have to stand.
    #[tactic(auto, unfolding(crate::specs::Statements::finally_clause))]
    fn finally_clause(
        &self,
        reader: &mut Reader<'_>,
        required: bool,
    ) -> Result<Option<NodeId>, Fault>
        requires { Nests self.now.depth (F.pre self.now.part) (F.post self.now.part) }
        ensures { Reads (spec.finally_clause (part_at self.now.depth) required reader.old) result reader.new }
    {
        if reader.eat(Symbol::Finally) {
            let block = self.node(reader, Part::Block)?;
            return Ok(Some(block));
        }
        if required {
            return Err(reader.refuse());
        }
        Ok(None)
    }

    #[tactic(auto, unfolding(crate::specs::Statements::try_statement))]
    fn try_statement(&self, reader: &mut Reader<'_>) -> Result<NodeId, Fault>
        requires { Nests self.now.depth (F.pre self.now.part) (F.post self.now.part) }
        ensures { Reads (spec.try_statement (part_at self.now.depth) reader.old) result reader.new }
    {
        let place = reader.place();
        reader.advance();
        let block = self.node(reader, Part::Block)?;
        let (bind, handler) = self.catch_clause(reader)?;
        let last = self.finally_clause(reader, handler.is_none())?;
        let statement = Node::Try {
            block,
            bind,
            handler,
            last,
        };
        reader.add(statement, place)
    }

    #[tactic(auto, unfolding(crate::specs::Statements::expression_statement))]
    fn expression_statement(&self, reader: &mut Reader<'_>) -> Result<NodeId, Fault>
        requires { Nests self.now.depth (F.pre self.now.part) (F.post self.now.part) }
        ensures { Reads (spec.expression_statement (part_at self.now.depth) reader.old) result reader.new }
    {
        let place = reader.place();
        let value = self.expression(reader, true)?;
        reader.expect(Symbol::Semicolon)?;
        reader.add(Node::ExprStmt(value), place)
    }

    /// A statement.
    #[tactic(auto, unfolding(crate::specs::Statements::statement))]
    pub fn statement(&self, reader: &mut Reader<'_>) -> Result<NodeId, Fault>
        requires { Nests self.now.depth (F.pre self.now.part) (F.post self.now.part) }
        ensures { Reads (spec.statement (part_at self.now.depth) reader.old) result reader.new }
    {
        match reader.symbol() {
            Symbol::OpenBrace => self.node(reader, Part::Block),
            Symbol::Semicolon => reader.leaf(Node::Empty),
            Symbol::If => self.if_statement(reader),
            Symbol::While => self.while_statement(reader),
            Symbol::Do => self.do_statement(reader),
            Symbol::For => self.for_statement(reader),
            Symbol::Return => self.return_statement(reader),
            Symbol::Break => jump(reader, Node::Break),
            Symbol::Continue => jump(reader, Node::Continue),
            Symbol::Throw => self.throw_statement(reader),
            Symbol::Try => self.try_statement(reader),
            Symbol::Function => Err(reader.refuse()),
            _ => self.expression_statement(reader),
        }
    }

    // A declaration or a statement.
    #[tactic(auto, unfolding(crate::specs::Statements::item))]
    fn item(&self, reader: &mut Reader<'_>) -> Result<NodeId, Fault>
        requires { Nests self.now.depth (F.pre self.now.part) (F.post self.now.part) }
        ensures { Reads (spec.item (part_at self.now.depth) reader.old) result reader.new }
    {
        match reader.symbol() {
            Symbol::Let => self.declaration_statement(reader, false),
            Symbol::Const => self.declaration_statement(reader, true),
            Symbol::Function => self.node(reader, Part::FunctionDeclaration),
            _ => self.statement(reader),
        }
    }

    // Declarations and statements before what closes them.
    #[tactic(auto, unfolding(crate::specs::Statements::items))]
    fn items(&self, reader: &mut Reader<'_>, close: Symbol) -> Result<Items<NodeId>, Fault>
        requires { Nests self.now.depth (F.pre self.now.part) (F.post self.now.part) }
        ensures { Reads (spec.items (part_at self.now.depth) close reader.old) result reader.new }
    {
        let mut found = Items::new(self.alloc);
        'items: for _turn in 0..reader.left() {
            if reader.sees(close) {
                return Ok(found);
            }
            let item = self.item(reader)?;
            found.push(item)?;
        }
        Err(reader.refuse())
    }

    /// A block.
    #[tactic(auto, unfolding(crate::specs::Statements::block))]
    pub fn block(&self, reader: &mut Reader<'_>) -> Result<NodeId, Fault>
        requires { Nests self.now.depth (F.pre self.now.part) (F.post self.now.part) }
        ensures { Reads (spec.block (part_at self.now.depth) reader.old) result reader.new }
    {
        let place = reader.place();
        reader.expect(Symbol::OpenBrace)?;
        let found = self.items(reader, Symbol::CloseBrace)?;
        reader.advance();
        reader.add(Node::Block(found), place)
    }

    /// A script, up to the end of the tokens.
    #[tactic(auto, unfolding(crate::specs::Statements::script))]
    pub fn script(&self, reader: &mut Reader<'_>) -> Result<NodeId, Fault>
        requires { Nests self.now.depth (F.pre self.now.part) (F.post self.now.part) }
        ensures { Reads (spec.script (part_at self.now.depth) reader.old) result reader.new }
    {
        let place = reader.place();
        let found = self.items(reader, Symbol::End)?;
        reader.add(Node::Script(found), place)
    }

    // An expression, unless what closes it comes.
    #[tactic(auto, unfolding(crate::specs::Statements::optional))]
    fn optional(&self, reader: &mut Reader<'_>, close: Symbol) -> Result<Option<NodeId>, Fault>
        requires { Nests self.now.depth (F.pre self.now.part) (F.post self.now.part) }
        ensures { Reads (spec.optional (part_at self.now.depth) close reader.old) result reader.new }
    {
        if reader.sees(close) {
            return Ok(None);
        }
        let value = self.expression(reader, true)?;
        Ok(Some(value))
    }

    // The head of a `for` behind its first part.
    #[tactic(auto, unfolding(crate::specs::Statements::loop_head))]
    fn loop_head(&self, reader: &mut Reader<'_>, first: Option<NodeId>) -> Result<Head, Fault>
        requires { Nests self.now.depth (F.pre self.now.part) (F.post self.now.part) }
        ensures { Reads (spec.loop_head (part_at self.now.depth) first reader.old) result reader.new }
    {
        reader.expect(Symbol::Semicolon)?;
        let test = self.optional(reader, Symbol::Semicolon)?;
        reader.expect(Symbol::Semicolon)?;
        let next = self.optional(reader, Symbol::CloseParen)?;
        reader.expect(Symbol::CloseParen)?;
        Ok(Head::Loop { first, test, next })
    }

    // The head of a `for` behind `of`.
    #[tactic(auto, unfolding(crate::specs::Statements::of_head))]
    fn of_head(&self, reader: &mut Reader<'_>, constant: bool, bind: NodeId) -> Result<Head, Fault>
        requires { Nests self.now.depth (F.pre self.now.part) (F.post self.now.part) }
        ensures { Reads (spec.of_head (part_at self.now.depth) constant bind reader.old) result reader.new }
    {
        let list = self.assign(reader, true)?;
        reader.expect(Symbol::CloseParen)?;
        Ok(Head::Of {
            constant,
            bind,
            list,
        })
    }

    // The head of a `for` behind the first thing that a declaration in it binds.
    #[tactic(auto, unfolding(crate::specs::Statements::declared_head))]
    fn declared_head(
        &self,
        reader: &mut Reader<'_>,
        constant: bool,
        place: u32,
        named: bool,
        bind: NodeId,
    ) -> Result<Head, Fault>
        requires { Nests self.now.depth (F.pre self.now.part) (F.post self.now.part) }
        ensures { Reads (spec.declared_head (part_at self.now.depth) constant place named bind reader.old) result reader.new }
    {
        let value = self.initial(reader, false, constant || !named)?;
        let first = Declarator { bind, value };
        let pairs = self.declarators(reader, constant, false, first)?;
        let id = reader.add(declaration_node(constant, pairs), place)?;
        self.loop_head(reader, Some(id))
    }

    // The head of a `for` that begins with `let` or `const`.
    #[tactic(auto, unfolding(crate::specs::Statements::declared))]
    fn declared(&self, reader: &mut Reader<'_>, constant: bool) -> Result<Head, Fault>
        requires { Nests self.now.depth (F.pre self.now.part) (F.post self.now.part) }
        ensures { Reads (spec.declared (part_at self.now.depth) constant reader.old) result reader.new }
    {
        let place = reader.place();
        reader.advance();
        let named = is_name(reader.symbol());
        let bind = self.bind(reader)?;
        if reader.eat(Symbol::Of) {
            return self.of_head(reader, constant, bind);
        }
        self.declared_head(reader, constant, place, named, bind)
    }

    /// What stands behind `for`, in its parentheses.
    #[tactic(auto, unfolding(crate::specs::Statements::for_head))]
    pub fn for_head(&self, reader: &mut Reader<'_>) -> Result<Head, Fault>
        requires { Nests self.now.depth (F.pre self.now.part) (F.post self.now.part) }
        ensures { Reads (spec.for_head (part_at self.now.depth) reader.old) result reader.new }
    {
        reader.expect(Symbol::OpenParen)?;
        match reader.symbol() {
            Symbol::Let => self.declared(reader, false),
            Symbol::Const => self.declared(reader, true),
            Symbol::Semicolon => self.loop_head(reader, None),
            _ => {
                let first = self.expression(reader, false)?;
                self.loop_head(reader, Some(first))
            }
        }
    }
}
