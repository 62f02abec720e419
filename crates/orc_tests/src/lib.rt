//! Tests of the libraries' public calls. They stand in a crate of their own, over the libraries, so that each library is proved
//! once and not once more with its tests.
#![tactic(auto)]

#[cfg(test)]
mod tests;
