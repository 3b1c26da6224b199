// Runs a lock by the lines of a script, with what is printed of each, or by a driver in which the slots take turns.
#![tactic(auto)]

pub mod act;
pub mod drive;
pub mod line;
pub mod mix;
pub mod plain;
pub mod queue;
pub mod script;
pub mod shown;
pub mod ticket;
pub mod trace;
