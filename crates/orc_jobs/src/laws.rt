//! The laws of one outcome, each the contract of a function that does nothing.

ghost use Rattle.orc_jobs.specs.Drawn.{OneDrawn};
ghost use Rattle.orc_jobs.specs.World.{OnePlay};

/// A schedule leads from a world to one world, with one first trap. So `play` tells the only one.
pub fn one_play()
    ensures { OnePlay }
{}

/// Turns that a seed draws have one end. So `play_drawn` tells the only one.
pub fn one_drawn()
    ensures { OneDrawn }
{}
