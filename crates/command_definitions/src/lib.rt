//! What the commands of an editor say of a document and do to it, as definitions in `specs/`, with the types of commands. (After the commands of
//! CKEditor 5's features; which commands there are, when each is enabled, and of which edits it is made, is this engine's own rule.) It has no
//! program code but these types: each function here is a worked example or a law, which its clauses state.
#![tactic(auto)]

pub mod command;
mod deletion_examples;
mod examples;
pub mod laws;
