// Runs a sheet: reads it line by line, does what each line asks, and prints an answer to each.
#![tactic(auto)]

pub mod run;
pub mod state;

pub use run::{LONGEST, run_sheet};
pub use state::Sheet;

#[cfg(test)]
mod tests;
