//! The early errors of a script.
ghost use Rattle.std.specs.Prelude.{◌≡◌};
ghost use Rattle.js_scope.specs.Faults.{faults, Checked};

use crate::fault::ScopeFault;
use crate::names::repeated;
use crate::place::Place;
use crate::rules::{broken_by, push_parts};
use js_tree::Tree;
use std::alloc::Global;

/// Whether the script that a tree stands for has no early error (ECMA-262, 17, for the part of the language that is
/// read here): no node breaks one of the rules of `ScopeKind`.
///
/// The parts of a node come after it and in the order of the text. So of two nodes with one first token the outer
/// one is told, and of the rules that one node breaks the first in the order of `ScopeKind`. It takes time in
/// proportion to the tree, whatever its depth, and no stack for it.
///
/// # Errors
/// `At` with the first node in source order that breaks a rule, exactly where there is one; `Memory` where memory
/// ran out.
pub fn check_scope(alloc: Global, tree: &Tree) -> Result<(), ScopeFault>
    ensures { Checked result (faults tree.now) }
{
    tree.ordered();
    let Some(root) = tree.root() else {
        return Ok(());
    };
    let again = repeated(alloc, tree)?;
    let mut waiting = Vec::new(alloc);
    waiting.push(Place {
        node: root,
        in_function: false,
        in_loop: false,
    })?;
    'places: while let Some(place) = waiting.pop() {
        let node = tree.node(place.node);
        if let Some(kind) = broken_by(tree, &again, place, node) {
            return Err(ScopeFault::At {
                node: place.node,
                kind,
            });
        }
        push_parts(alloc, &mut waiting, tree, place)?;
    }
    Ok(())
}
