//! The laws of logs, as the contracts of functions that do nothing.
ghost use Rattle.app_engine.specs.Laws.{IsCausal, IsOnlyLog, IsYielding};

/// What a world makes of more deliveries only adds at the end, from the next delivery on; and where all deliveries are
/// taken, so are the first ones.
pub fn causal()
    ensures { IsCausal }
{}

/// A world that is loaded makes products up to one yield, which is the last: a rest with no job that waits, or a stop.
pub fn yielding()
    ensures { IsYielding }
{}

/// A log is lawful exactly where it is the log by recursion: so each application has one lawful log and no other.
pub fn one_log()
    ensures { IsOnlyLog }
{}
