//! The frame of a function's code: the 2,048 bytes below RSP at the entry.
//!
//! [`layout`] gives each number of a function its slot there. [`prologue`] gives the code that lowers RSP, saves registers, fills the
//! patterns and clears the running sums; [`epilogue`] gives the code that stores each accumulator's word, restores registers and raises
//! RSP. [`pattern_at`] and its like read a layout, and [`base_word`] and its like tell where the argument block has a call's words.
//! `specs/Frame` says what both do from every core, and `specs/GoodCall` what a good call of a function's code is.
#![tactic(auto)]

mod displacements;
mod frame;
mod lists;
mod pushes;
mod slots;
mod words;

pub use displacements::{
    block_at, index_at, left_at, pattern_at, row_at, rows_at, spill_slot_at, sum_at, work_at,
};
pub use frame::Layout;
pub use lists::{epilogue, prologue};
pub use pushes::{BLOCK, STACK, slot};
pub use slots::{FRAME_SIZE, layout};
pub use words::{
    BLOCK_SIZE, ELEMENTS_WORD, ROWS_WORD, base_word, param_word, stride_word, sum_word,
};
