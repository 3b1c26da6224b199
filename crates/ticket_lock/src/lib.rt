// The ticket lock: the fair lock of two counted words.
#![tactic(auto)]

pub mod fair;
pub mod ticket;

pub use ticket::{Ticket, TicketLock};
