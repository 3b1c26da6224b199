// The reader of one line of a sheet: the line's bytes, cut into parts, and the form that the parts make.
#![tactic(auto)]

mod cursor;
pub mod form;
mod read;
mod scan;
mod token;

pub use form::{Form, KindName, LockName};
pub use read::read_line;
