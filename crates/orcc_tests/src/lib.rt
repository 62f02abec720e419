//! Tests of the top call, in a crate of their own as those of the libraries.
#![tactic(auto)]

#[cfg(test)]
mod tests;
