//! The laws that join the parser to the grammar of scripts.
//!
//! `specs/Trees` has the list of nodes that a derivation stands for, `specs/Kinds` the kinds of tokens by their symbols,
//! and `specs/Agreement` what is promised. In `proofs/`, each rule of the parser is compared with that of the grammar,
//! depth by depth, as an equation of answers: what is read, its nodes and its faults. `proofs/Scripts` has what is derived,
//! `proofs/Texts` the tokens of texts, and `proofs/Exact` the places of their faults; `proofs/Rows` and
//! `proofs/NestedRows` have whole scripts as rows.
#![tactic(auto)]

ghost use Rattle.parse_laws.specs.Agreement.{HasOneList, ParsesDerived, ParsesScripts, ParsesTexts, FaultsExactly};

/// What the parser reads has a derivation, and the tree's nodes are those of that derivation (ECMA-262, 16.1): the items
/// of the script, up to the end of the text, by the grammar's rules, with parts nested at most to the limit.
pub fn what_is_parsed_is_derived()
    ensures { ParsesDerived }
{}

/// A script has one list of nodes, by whichever derivation (ECMA-262, 5.1.4).
pub fn one_list_of_nodes()
    ensures { HasOneList }
{}

/// What is a script by the grammar's rules, with parts nested at most to the limit, is parsed, and the tree's nodes are
/// those of its derivation (ECMA-262, 16.1).
pub fn what_is_derived_is_parsed()
    ensures { ParsesScripts }
{}

/// What is parsed of a text's tokens is a script by the grammar's rules, and the tree's nodes are those of its
/// derivation (ECMA-262, 16.1).
pub fn what_is_parsed_of_a_text_is_derived()
    ensures { ParsesTexts }
{}

/// The place of a text's fault is exact: the tokens before it begin some script, and no script goes on with its token; of
/// a fault of nesting, no script in which parts nest at most to the limit, and some deeper script does.
pub fn faults_are_exact()
    ensures { FaultsExactly }
{}
