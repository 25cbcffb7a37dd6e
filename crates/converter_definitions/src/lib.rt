//! What converters are: the facts of an element that they look at, the shapes and layers that they give, and the converters that a settings
//! file can list.
#![tactic(auto)]

mod examples;
pub mod facts;
mod fitting;
pub mod kind;
pub mod laws;
pub mod layer_laws;
pub mod part;
pub mod pattern;
pub mod plan;
pub mod shape;
pub mod stock;
