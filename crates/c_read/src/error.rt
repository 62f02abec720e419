//! Why bytes are not read.

ghost use Rattle.std.specs.Prelude.{◌≡◌};
ghost use Rattle.c_read.specs.declared.error.CError.TheVariants.{Memory};

use std::alloc::AllocError;

/// Why bytes are not read as a C text.
#[derive(Clone, Copy, Debug, PartialEq, Eq)]
pub enum CError {
    /// They are no text of the grammar.
    Syntax {
        /// The length of the longest prefix that some text of the grammar begins with.
        at: usize,
    },
    /// Memory is wanting.
    Memory,
}

impl From<AllocError> for CError {
    ghost from_gives = { λ _ e. e ≡ Memory };

    fn from(_error: AllocError) -> Self {
        CError::Memory
    }
}
