//! Reading a form from JSON (RFC 8259): the fields of objects, lists and positions, with the first place that breaks the form.
#![tactic(auto)]

pub mod examples;
pub mod fault;
pub mod forms;
