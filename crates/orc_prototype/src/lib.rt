//! Prototypes of C: the arguments of a function's prototype, and the header of a text.
//!
//! [`argument_list`] lists the arguments of a function's [`Shape`] in order, and [`dest_argument`] .. [`rows_argument`] are their numbers in
//! that list. [`long_params`] says which parameters a text declares by `.longparam`, and [`header`] makes the header of a program.
//!
//! `specs/` defines the arguments (`Arguments`), what is said by `.longparam` (`Longs`) and the header's text (`Header`). The laws of `Laws`
//! are proved as contracts: [`are_counted`] and [`are_numbered`].
#![tactic(auto)]

mod arguments;
mod laws;
mod longs;
mod printing;

pub use arguments::{
    Argument, Class, Shape, argument_count, argument_list, class_of, dest_argument,
    elements_argument, param_argument, rows_argument, shape_of, source_argument, sum_argument,
};
pub use laws::{are_counted, are_numbered};
pub use longs::long_params;
pub use printing::header;

#[cfg(test)]
mod tests;
