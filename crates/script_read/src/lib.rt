//! Reading the lines of a script: JSON (RFC 8259) to the request that it makes, with the first place that breaks the form.
#![tactic(auto)]

mod edits;
pub mod request;

pub use request::read_request;
