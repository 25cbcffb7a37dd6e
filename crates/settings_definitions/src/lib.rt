//! What a settings file says: its grammar and that of its schema and its fixers, with the first place that breaks it, and why settings are refused.
//! It has no program code, but where a type is made and where a worked example is computed.
#![tactic(auto)]

mod examples;
pub mod fault;
mod fixer_examples;
pub mod laws;
pub mod parts;
