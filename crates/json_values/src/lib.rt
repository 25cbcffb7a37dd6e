//! Reading attribute values, attributes, positions and paths from JSON (RFC 8259), with the first place that breaks the form.
#![tactic(auto)]

pub mod examples;
pub mod laws;
pub mod places;
pub mod values;
