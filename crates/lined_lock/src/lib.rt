// A lock whose words stand beside its line, whatever the words are.
#![tactic(auto)]

pub mod fair;
pub mod lined;
pub mod words;

pub use fair::FairProcedures;
pub use lined::LinedLock;
pub use words::Procedures;
