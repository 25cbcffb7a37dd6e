//! The tree of a view: containers, attribute elements, empty and UI elements, and texts, in place. (After the view document of CKEditor
//! 5.)
#![tactic(auto)]

pub mod kind;
mod lists;
pub mod node;
pub mod path;
pub mod view;
