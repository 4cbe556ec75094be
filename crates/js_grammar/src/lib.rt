//! The grammar of scripts as data: the first token that no script has after the tokens before it, and the one tree.
//!
//! `specs/Kinds` has the kinds of tokens, `specs/Script` the rules, line by line, and `specs/Scripts` what is promised.
#![tactic(auto)]

ghost use Rattle.js_grammar.specs.Scripts.{ReadsScripts, ReadsToTheEnd, HasOneTree, IsExact, FaultsAtTokens};

/// What is read is a script, and what is a script is read.
pub fn scripts_are_read()
    ensures { ReadsScripts }
{}

/// Where a text's tokens are read, nothing is left of them.
pub fn scripts_are_read_to_the_end()
    ensures { ReadsToTheEnd }
{}

/// A script has one tree.
pub fn one_tree()
    ensures { HasOneTree }
{}

/// A fault is at the first token that no script has after the tokens before it, or that begins what nests too deep.
pub fn exact_place()
    ensures { IsExact }
{}

/// A fault of a text's tokens is at one of them, the end if need be.
pub fn faults_are_at_tokens()
    ensures { FaultsAtTokens }
{}
