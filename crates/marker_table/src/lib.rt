//! The markers of a document, by name.
#![tactic(auto)]

pub mod markers;
mod table;

pub use markers::{MarkerFault, Markers};
