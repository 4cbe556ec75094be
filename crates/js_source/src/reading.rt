//! Reading of scripts.
ghost use Rattle.std.specs.Prelude.{◌≡◌, ◌≤◌, length, IfOk};
ghost use Rattle.js_source.specs.Source.{source_of, checked, Answers, Passes, HasRoot};

use crate::fault::{SourceFault, early};
use js_parse::parse;
use js_scope::{ScopeFault, check_scope};
use js_token::tokens;
use js_tree::Tree;
use std::alloc::Global;

/// A script that was read and has no early error.
#[derive(Drop)]
pub struct Source {
    /// Its syntax tree, the `Script` as root.
    pub tree: Tree,
}

// Whether the script that a tree stands for has no early error, with the place of the first.
#[tactic(auto, unfolding(crate::specs::Source::checked))]
fn refuse_early(alloc: Global, tree: &Tree) -> Result<(), SourceFault>
    ensures { Passes tree.now result }
{
    match check_scope(alloc, tree) {
        Ok(()) => {}
        Err(ScopeFault::At { node, kind }) => {
            return Err(SourceFault::At {
                place: tree.place(node),
                kind: early(kind),
            });
        }
        Err(ScopeFault::Memory) => return Err(SourceFault::Memory),
    }
    Ok(())
}

/// The syntax tree of the script that the bytes are (ECMA-262, 12, 16.1 and 17, for the part of the language that is
/// read here), or its first fault: that of its tokens, which are all scanned first; else that of the grammar; else
/// the first early error in source order. The root of the tree, its last node, is the `Script`.
///
/// There are at most 262,144 bytes. Tokens and early errors take time in proportion to the text, the grammar in
/// proportion to the text times the levels that nest round a parenthesis.
///
/// # Errors
///
/// `At` with the byte offset of the fault, exactly where the bytes are no such script: of a fault of tokens where
/// `tokens` tells it, of a fault of the grammar the offset of the token that no script has behind the tokens before
/// it, or that begins level 201 of nesting, and of an early error the offset of the first token of the node that
/// breaks a rule. `Memory` where memory runs out.
#[tactic(auto, unfolding(crate::specs::Source::source_of))]
pub fn read_source(alloc: Global, bytes: &[u8]) -> Result<Source, SourceFault>
    requires { length bytes.now ≤ 262_144 }
    ensures exact { Answers result (source_of bytes.now) }
    ensures root { IfOk result (λ source. HasRoot source.tree) }
{
    let tokens = match tokens(alloc, bytes) {
        Ok(tokens) => tokens,
        Err(fault) => return Err(SourceFault::from(fault)),
    };
    let tree = match parse(alloc, tokens.as_slice()) {
        Ok(tree) => tree,
        Err(fault) => return Err(SourceFault::from(fault)),
    };
    match refuse_early(alloc, &tree) {
        Ok(()) => {}
        Err(fault) => return Err(fault),
    }
    Ok(Source { tree })
}
