//! Texts as they are printed, with their escapes.
#![tactic(auto)]

pub mod escapes;
