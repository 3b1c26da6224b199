// What a reader-writer lock is, known by its meaning alone.
#![tactic(auto)]

pub mod fair;
pub mod meaning;
pub mod ordered;
pub mod words;

pub use fair::FairLock;
pub use meaning::Lock;
pub use ordered::OrderedLock;
pub use words::{Class, Phase};
