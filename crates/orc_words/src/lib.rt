//! Lines of a text, words of a line, the words that notes can have, and names in an order.
#![tactic(auto)]

mod names;
mod notes;
mod scan;
mod words;

pub use names::Names;
pub use notes::{
    ends_in_align, ends_in_count_word, has_bad_align, has_bad_count, has_strange, is_number,
};
pub use scan::{content, has_bad_byte, next_line, next_word};
pub use words::{
    after, has_exactly, has_fewer, looks_like_number, prefix_of, size_of, starts_with_dot, word,
};
