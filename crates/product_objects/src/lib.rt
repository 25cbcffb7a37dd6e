//! The objects of this product, which an editor is opened with: converters of mentions of users, of boxes that are checked or not, and of headings with
//! an anchor; and a fixer of the indents of list items.
#![tactic(auto)]

pub mod checkbox;
pub mod heading_anchor;
pub mod list_indent;
pub mod mention;
mod turns;
pub mod words;

pub use checkbox::Checkbox;
pub use heading_anchor::HeadingAnchor;
pub use list_indent::ListIndent;
pub use mention::Mention;
pub use words::name_of;
