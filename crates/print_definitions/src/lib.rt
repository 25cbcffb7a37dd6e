//! The printed texts of a model and of a view, as definitions in `specs/`. It has no program code: each function here is a worked example,
//! which its clauses state.
#![tactic(auto)]

pub mod examples;
pub mod laws;
