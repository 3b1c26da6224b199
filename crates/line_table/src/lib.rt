// The line of an ordered lock, as a plain table.
#![tactic(auto)]

pub mod table;

pub use table::Line;
