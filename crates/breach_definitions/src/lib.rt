//! Which items of a document break a schema, as definitions in `specs/`, and a law that holds of them. (After `Schema.checkChild` and
//! `Schema.checkAttribute` of CKEditor 5's engine; that the whole document is tested is this project's own.) It has no program code.
#![tactic(auto)]

mod examples;
pub mod laws;
pub mod spot;
