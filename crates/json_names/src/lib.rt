//! Reading names, lists of names, truth values and counts from JSON (RFC 8259), with the first place that breaks the form.
#![tactic(auto)]

pub mod names;
pub mod values;
