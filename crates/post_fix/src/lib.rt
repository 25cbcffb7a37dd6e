//! Post-fixers at work: each plans edits on a document, and a document is brought to rest by the plan of the first that wants something, round by
//! round. (After `Model.document.registerPostFixer()` of CKEditor 5, but that a fixer hands out a plan and changes nothing itself.)
#![tactic(auto)]

mod asking;
mod dropping;
pub mod fixer;
pub mod list;
mod names;
pub mod performing;
mod placing;
mod planning;
pub mod settling;
mod stock;
mod walk;

pub use performing::perform_all;
pub use settling::settle;
