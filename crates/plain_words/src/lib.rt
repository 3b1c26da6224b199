// The plain lock's words, and what each move of a slot does to them.
#![tactic(auto)]

pub mod places;
pub mod words;

pub use places::{Label, Standing};
pub use words::Words;

#[cfg(test)]
mod tests;
