//! Grammars given as data: what they derive, how they are read, and the exact places of faults.
//!
//! The definitions stand in `specs/`: `Grammar` (forms of right sides, what they derive), `Reading` (reading from the
//! front, the next token telling what to do), `Tests` (what is tested of a grammar's rules), `Promises` (the laws
//! below), `Steps` (what code answers). `proofs/Steps.antt` has a lemma for each step of code that reads by a grammar.
#![tactic(auto)]

ghost use Rattle.grammar.specs.Promises.{IsSound, IsComplete, HasOneTree, IsLocal, IsExact, HasForksApart};

/// What is read is derived, by every grammar with tokens of any type.
pub fn what_is_read_is_derived<Token>()
    ensures { IsSound Token }
{}

/// What is derived is read, by every grammar whose rules pass the tests and whose forks exclude each other.
pub fn what_is_derived_is_read<Token>()
    ensures { IsComplete Token }
{}

/// There is one tree of what is derived, in every such grammar.
pub fn one_tree<Token>()
    ensures { HasOneTree Token }
{}

/// A fault stays where it is, and of nesting or not, whatever stands behind its token.
pub fn faults_are_local<Token>()
    ensures { IsLocal Token }
{}

/// The place of a fault is exact: some script begins with what stands before it, no script that nests within the
/// limit has the fault's token there, and no script at all where the fault is not one of nesting.
pub fn exact_place<Token>()
    ensures { IsExact Token }
{}

/// The two readings of each fork exclude each other, where the rules pass tests of their brackets, which compute.
pub fn forks_exclude<Token>()
    ensures { HasForksApart Token }
{}
