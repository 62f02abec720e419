//! Typed programs of the language, and what they mean.
//!
//! A [`Function`] keeps that it is typed right. [`new_function`] makes one, and [`declare`], [`set_two_d`], [`set_n`], [`set_m`],
//! [`set_backup`] and [`add_insn`] make it grow. What these need can be asked by [`find_var`], [`count_of`] with [`most_of`],
//! [`is_size_for`], [`is_shaped`] and [`check_insn`]; [`is_bad_prefix`], [`check_result`], [`check_source`] and [`is_too_many`] are the
//! parts of [`check_insn`]. A [`Program`] is made by [`new_program`], [`set_init`] and [`add_function`].
//! [`result_count`], [`source_count`], [`result_size`], [`source_size`] and [`is_count`] say what operands an opcode has.
//! [`patterns`] lists the numbers that a function uses. [`has_far`] says whether it has a far load, and [`far_line`] and [`first_far_line`]
//! where the first one stands. [`variables`] has what stands at a place of a function's list, slots of arrays, and
//! what operands stand for. [`facts`] has what `.n`, `.m` and `align` state of every call, and [`words`] reads number words.
//!
//! `specs/` defines the faults of instructions (`Checks`), what the types keep (`Kept`), what a program does on a memory (`Meaning`), good
//! arrays (`Good`), what is stated of calls (`Facts`), and need and steps (`Need`). The laws of `Laws` are proved as contracts:
//! [`one_more`], [`ends_where_good`], [`changes_only_dests`], [`cells_meet`] and [`lists_first_uses`].
#![tactic(auto)]

mod build;
mod call;
mod checks;
mod far;
mod fault;
mod known;
mod laws;
mod lookup;
mod name;
mod operands;
mod program;
mod rect;
mod stated;
mod uses;
pub mod variables;
pub mod words;

pub use build::{
    add_function, add_insn, declare, new_function, new_program, set_backup, set_init, set_m, set_n,
    set_two_d,
};
pub use call::{Call, Params, Place, Places};
pub use checks::{MOST_INSNS, check_insn, check_result, check_source, is_bad_prefix, is_too_many};
pub use far::{far_line, first_far_line, has_far, is_far};
pub use fault::Fault;
pub use known::{CountFacts, Facts};
pub use laws::{
    cells_meet, changes_only_dests, ends_where_good, lists_first_uses, one_more, parts_add_up,
};
pub use lookup::{
    MOST_FUNCTIONS, count_of, find_var, has_function, insn_count, is_size_for, most_of,
};
pub use name::{Name, is_name};
pub use operands::{is_count, is_shaped, result_count, result_size, source_count, source_size};
pub use program::{
    Function, Functions, Insn, Insns, Notes, Operand, Pattern, Program, Var, VarKind, Vars, Word,
    Words,
};
pub use rect::Rect;
pub use stated::{MOST_COUNT, facts, free_facts, is_free, least_multiple};
pub use uses::{Patterns, patterns};

#[cfg(test)]
mod tests;
