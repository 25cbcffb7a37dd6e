//! The document tree: a list of items as a persistent tree of nodes, in which neighbouring characters of equal attributes are one text.
//! (After the model's nodes of CKEditor 5.)
#![tactic(auto)]

mod changes;
pub mod fault;
pub mod id;
pub mod items;
mod levels;
mod moves;
mod paths;
pub mod reading;
mod sizes;
pub mod text;
pub mod tree;
