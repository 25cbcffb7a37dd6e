//! The lines of a script, the escapes of printed texts, and the printed texts of refusals, as definitions in `specs/`. It has no program code:
//! each function here is a worked example, which its clauses state.
#![tactic(auto)]

pub mod examples;
