// Entry kinds: what a place of the book holds, what a job may give it, and how the two join.
#![tactic(auto)]

pub mod kind;
pub mod leg;
pub mod station;

pub use kind::Kind;
pub use leg::{Leg, LegKind};
pub use station::{Station, StationKind};

#[cfg(test)]
mod tests;
