//! The laws, as the contracts of functions that do nothing.
ghost use Rattle.alone_laws.specs.Fitting.{IsFitting};
ghost use Rattle.alone_laws.specs.Sizes.{IsOneSize};
ghost use Rattle.alone_laws.specs.Turns.{IsYielding};

/// A world makes of each delivery products up to one yield: a rest, behind which the next delivery may come, or a stop,
/// behind which nothing comes (ECMA-262, 9.5: a script or job runs to its end before another starts).
pub fn yielding()
    ensures { IsYielding }
{}

/// A world takes a further delivery exactly where it has taken all before it and this one fits the transcript so far: no
/// stop stands in it, the world is between two turns, and it gets such a delivery, as a load once (ECMA-262, 9.5 and
/// 16.1.6). Then the delivery stands behind that transcript, and behind it products alone; else nothing more comes.
pub fn fitting()
    ensures { IsFitting }
{}

/// A world makes so many cells of its script and its deliveries, whatever distinct locations they get.
pub fn one_size()
    ensures { IsOneSize }
{}
