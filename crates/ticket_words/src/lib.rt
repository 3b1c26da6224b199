// The ticket lock's words, and what each access of a slot does to them.
#![tactic(auto)]

pub mod counting;
pub mod place;
pub mod standing;
pub mod words;

pub use place::Place;
pub use standing::{Label, Standing};
pub use words::Words;

#[cfg(test)]
mod tests;
