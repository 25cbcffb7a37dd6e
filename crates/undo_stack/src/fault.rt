//! Why an undo or a redo doesn't come about.

/// Why an undo or a redo doesn't come about.
#[derive(Drop)]
pub enum StackFault {
    /// The stack that it takes from is empty.
    Nothing,
    /// Memory ran out.
    NoMemory,
}
