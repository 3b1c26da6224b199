// A stretch of consecutive places of a book.
#![tactic(auto)]

pub mod stretch;

pub use stretch::Range;
pub use stretch::making::{COUNT, PLACES};

#[cfg(test)]
mod tests;
