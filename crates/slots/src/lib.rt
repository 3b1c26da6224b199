// The slots: which there are, and a table with a row for each.
#![tactic(auto)]

pub mod slot;
pub mod slots;
pub mod table;

pub use slot::{MOST, Slot};
pub use slots::Slots;
pub use table::Table;
