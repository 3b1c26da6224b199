// The plain lock: readers go before writers, and nobody waits in line.
#![tactic(auto)]

pub mod plain;

pub use plain::PlainLock;
