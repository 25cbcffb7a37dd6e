//! Which records the edits of a change leave, as definitions in `specs/`. It has no program code: `laws` has what holds of all of them.
#![tactic(auto)]

pub mod laws;
