//! What holds of all spellings.

ghost use Rattle.x86_encode.specs.Sizes.{SpellingSizes};

/// The law of sizes: each spelling has at least one byte and at most ten, so none passes the manual's limit of 15.
pub fn spelling_sizes()
    ensures { SpellingSizes }
{}
