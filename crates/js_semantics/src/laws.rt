//! The laws of transcripts, as the contracts of functions that do nothing.
ghost use Rattle.js_semantics.specs.Alone.{IsContinued, IsDetermined, IsRecursive, IsRenamed};
ghost use Rattle.js_semantics.specs.Renamed.{IsAgreeing};

/// A world's transcript is the same for every supply of distinct locations: of its script and its deliveries it makes the
/// same entries as with the locations 0, 1, 2, whatever distinct locations its cells get.
pub fn renaming()
    ensures { IsRenamed }
{}

/// There is one transcript for each kind of world, limits, script and list of deliveries: two runs whose cells get
/// different locations make equal entries.
pub fn determined()
    ensures { IsDetermined }
{}

/// The transcript of a longer list of deliveries begins with the transcript of the shorter one.
pub fn continued()
    ensures { IsContinued }
{}

/// Evaluation is by recursion: what a world makes where a node is entered with a step left is what the node's row makes
/// with one step less, and then what follows the outcome.
pub fn recursive()
    ensures { IsRecursive }
{}

/// States that agree under a one-to-one map of their locations go to states that agree, with equal entries and outcomes
/// that agree: whatever node, call or turn of a loop is entered, and whatever deliveries follow.
pub fn agreeing()
    ensures { IsAgreeing }
{}
