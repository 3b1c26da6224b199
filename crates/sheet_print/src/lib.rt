// What a sheet's run prints: an answer for each line, put into an output that the caller hands over.
#![tactic(auto)]

pub mod answer;
mod front;
mod put;

pub use answer::Answer;
pub use put::{ROOM, print};
