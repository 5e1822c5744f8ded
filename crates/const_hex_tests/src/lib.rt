//! The tests of the libraries that a table of test vectors cannot state, and [`examples`], which are small verified
//! callers. Expected values come from the codec's documented rules, and from the standard library.
#![tactic(auto)]

pub mod examples;
pub mod testing;
#[cfg(test)]
mod tests;
