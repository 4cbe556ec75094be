//! Parsing of scripts.
ghost use Rattle.js_parse.specs.Parsing.{parsed, Parses};

use crate::fault::{Fault, ParseFault};
use crate::grammar::{Grammar, part_of};
use crate::reader::Reader;
use js_token::Token;
use js_tree::Tree;
use std::alloc::Global;

/// How many levels may nest.
const LIMIT: u32 = 200;

/// The tree of the script that the tokens spell (ECMA-262, 16.1), in the profile of the language that docs tell: its
/// nodes in source order, each child before its parent, the `Script` last. The tokens are those of a text, `End` last.
///
/// A fault is `Token` with the byte offset of the first token at which no rule of the grammar goes on, where two
/// readings of a parenthesis are possible the later one; `Deep` with the byte offset of the token that begins a level
/// of nesting above 200, if that comes first; or `Memory`.
///
/// It takes time in proportion to the tokens, times the levels that nest round a parenthesis.
#[tactic(auto, unfolding(crate::specs::Parsing::parsed))]
pub fn parse(alloc: Global, tokens: &[Token]) -> Result<Tree, ParseFault>
    ensures { Parses (parsed tokens.now) result }
{
    let mut reader = Reader::new(alloc, tokens);
    let rules = Grammar {
        alloc,
        depth: LIMIT,
        part: part_of,
    };
    match rules.script(&mut reader) {
        Ok(_) => {}
        Err(Fault::Token { place, .. }) => return Err(ParseFault::Token { place }),
        Err(Fault::Deep { place }) => return Err(ParseFault::Deep { place }),
        Err(Fault::Memory) => return Err(ParseFault::Memory),
    }
    match Tree::from_nodes(reader.into_nodes()) {
        Some(tree) => Ok(tree),
        None => Err(ParseFault::Memory),
    }
}
