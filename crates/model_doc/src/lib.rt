//! The document: a tree with markers, a selection and the id for the next element, changed by operations of which each leaves a record that
//! takes it back. (After `Model`, `Document` and `Batch` of CKEditor 5's model.)
#![tactic(auto)]

pub mod batch;
mod body;
mod carrying;
pub mod document;
pub mod record;

pub use batch::Batch;
pub use document::Document;
pub use record::Record;
