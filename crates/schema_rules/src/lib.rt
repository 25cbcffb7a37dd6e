//! The compiled schema: tables that answer what may stand where, which attributes an item may have, and what an item is; and the first
//! item of a document that breaks it. (After `Schema` of CKEditor 5's engine; that a document is tested is this project's own.)
#![tactic(auto)]

mod above;
pub mod breaches;
mod checks;
mod chosen;
pub mod compile;
mod flags;
mod graph;
mod known;
mod marks;
mod numbering;
mod predefined;
mod refusals;
pub mod schema;
mod steps;
mod tables;
mod walk;
