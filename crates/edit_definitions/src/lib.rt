//! What each edit does to a document, as definitions in `specs/`. It has no program code but the type of edits: each function here is a
//! law or a worked example, which its clauses state.
#![tactic(auto)]

pub mod edit;
pub mod examples;
pub mod laws;
