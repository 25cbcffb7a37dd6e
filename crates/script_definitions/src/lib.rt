//! What a script line asks for, as definitions in `specs/`. It has no program code but the type of requests.
#![tactic(auto)]

pub mod examples;
pub mod laws;
pub mod request;
