//! The faults of the tree's calls.

use crate::items::Items;

/// Why a place of the tree can't be used.
#[derive(Clone, Copy, Debug, PartialEq, Eq)]
pub enum TreeFault {
    /// The parent, offset, run or element isn't there.
    NoPlace,
    /// Memory ran out.
    NoMemory,
}

/// Items that could not be put in, handed back.
#[derive(Debug, Drop)]
pub struct NotPlaced {
    /// Why they could not.
    pub fault: TreeFault,
    /// The items.
    pub items: Items,
}
