// The queue lock's words, and what each access of a slot does to them.
#![tactic(auto)]

pub mod late_wake;
pub mod record;
pub mod standing;
pub mod words;

pub use standing::Label;
pub use words::Words;
