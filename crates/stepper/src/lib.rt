// A book, a lock over it, and jobs that run one memory access at a time.
#![tactic(auto)]

pub mod bare;
pub mod claim;
mod job;
mod limits;
mod lists;
pub mod open;

pub use bare::BareBook;
pub use claim::Claim;
pub use open::OpenBook;
