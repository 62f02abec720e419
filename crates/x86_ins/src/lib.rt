//! The instructions of the machine: their spellings (Decode), what they do (Effect) and runs of code (Run), a subset of the Intel 64 SDM, volume 2.
#![tactic(auto)]

pub mod ins;
pub mod laws;
pub mod renaming;
pub mod state;

pub use ins::{
    Addr, AluOp, Cond, Gpr, Ins, InsList, MoveOp, ShiftOp, ShuffleOp, VecImmOp, VecOp, Xmm, allowed,
};
pub use laws::{renaming_keeps, vectors_lead};
pub use renaming::rename;
pub use state::{Bytes, Flags, State, Trap, Why};
