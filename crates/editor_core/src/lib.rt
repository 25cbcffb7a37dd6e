//! The editor: a document with its schema, its fixers, its converters and its view, changed as a whole or not at all.
#![tactic(auto)]

mod changing;
pub mod editor;
pub mod extensions;
mod fixing;
mod listing;
mod naming;
mod selecting;
pub mod terms;

pub use editor::{Editor, OpenFault, Parts};
pub use extensions::{Extensions, Named};
