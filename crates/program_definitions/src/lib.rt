//! What the program means, as definitions in `specs/`: what settings convert by, the machine that answers the lines of a script, what the words
//! of the command line ask for, and the whole output. It has no program code: each function here is a worked example, which its clauses
//! state.
#![tactic(auto)]

pub mod examples;
pub mod laws;
