//! The converters of a settings file: their grammar, with the first place that breaks it. It has no program code, but where a type is made and
//! where a worked example is computed.
#![tactic(auto)]

mod examples;
pub mod parts;
