//! How a view is read into the model, as definitions in `specs/`: which rules act on an element of the view, where what it becomes is placed, and how
//! the elements that are made stand round what is in them. (After `UpcastDispatcher`, `UpcastConversionApi` and `UpcastHelpers` of CKEditor 5.) It has
//! no program code but the types of rules and of the view: each other function here is a law or a worked example, which its clauses state.
#![tactic(auto)]

mod examples;
pub mod laws;
pub mod rule;
pub mod view;
