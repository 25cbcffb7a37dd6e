//! Undo and redo over whole documents. (After the undo feature of CKEditor 5, `UndoEditing`; that the last change alone is taken back, and
//! that whole documents come back, is this engine's own rule.)
//!
//! The code keeps the batches of the changes. Undo reverts the records of the last one, and redo makes its operations anew. What this means
//! is said over documents: the stacks with their document are a history of earlier and undone documents (`specs/History`), whatever cells are
//! left.
#![tactic(auto)]

pub mod examples;
pub mod fault;
pub mod laws;
mod replay;
pub mod stacks;

pub use fault::StackFault;
pub use stacks::Stacks;
