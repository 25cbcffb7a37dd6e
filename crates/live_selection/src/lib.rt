//! The selection of a document. (After `DocumentSelection` of CKEditor 5's model.)
#![tactic(auto)]

mod bounds;
pub mod examples;
mod natural;
pub mod overrides;
pub mod selection;

pub use overrides::Overrides;
pub use selection::Selection;
