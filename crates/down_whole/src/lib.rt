//! The whole view of a document. (After the downcast conversion of CKEditor 5.)
#![tactic(auto)]

mod between;
pub mod caret;
mod content;
mod fill;
mod maker;
mod row;
mod scene;
pub mod whole;
