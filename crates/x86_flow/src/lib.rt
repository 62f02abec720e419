//! Structured code: what lists and trees of instructions do, and the bytes that they are.
#![tactic(auto)]

mod block;
mod placing;
mod transfer;
pub mod tree;

pub use block::Block;
pub use placing::{opposite, put, put_choice, put_list, put_loop};
pub use transfer::{
    SCRATCH, away, push_aligned_store, push_load, push_load_far, push_store, push_store_far,
};
