//! Instructions without jumps.

ghost use Rattle.std.specs.Prelude.{All, IsTrue};
ghost use Rattle.x86_ins.specs.Spelling.{has_spelling};

use x86_ins::InsList;

/// Instructions without jumps.
#[derive(Drop)]
pub struct Block {
    /// The instructions, in their order. Each has a spelling.
    pub list: InsList,
    ghost spelled: { All (λ i. IsTrue (has_spelling i)) list },
}
