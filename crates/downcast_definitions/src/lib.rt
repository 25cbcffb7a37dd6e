//! The view of a whole document, where positions are seen in it, and which positions its places mean, as definitions in `specs/`, and the law
//! that ties the last two. It has no program code: each function here is a law or a worked example, which its clauses state.
#![tactic(auto)]

mod examples;
pub mod laws;
