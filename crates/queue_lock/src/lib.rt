// The queue lock: the fair lock in which each slot waits at a record of its own.
#![tactic(auto)]

pub mod queue;

pub use queue::{Queue, QueueLock};
