//! Edits made on a document. (After `Writer` of CKEditor 5's model.)
#![tactic(auto)]

mod attributes;
mod elements;
mod inserting;
mod marking;
mod moving;
mod numbering;
pub mod performing;
mod places;
mod planning;
mod runs;
mod wrapping;

pub use model_doc::Batch;
pub use performing::perform;
