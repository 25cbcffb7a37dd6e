//! Reading the converters of a settings file, exactly as their grammar says, and which of their names are unknown.
#![tactic(auto)]

pub mod converters;
pub mod indexed;
mod patterns;
pub mod plan_names;
mod priorities;
mod shapes;
mod views;
