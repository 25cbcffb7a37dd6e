//! The operations by which a document changes, what they do to the tree and the cells, and their reversals. (After the operations of
//! CKEditor 5's model; its graveyard is here a list of numbered cells.)
#![tactic(auto)]

pub mod apply;
pub mod cells;
pub mod counts;
pub mod fault;
pub mod operation;
mod plans;
pub mod reversal;
