// Why a call is refused, and the number that a caller is shown for it.
#![tactic(auto)]

mod number;
pub mod reason;

pub use reason::Refusal;
