//! How the tree changes, as far as positions and ranges have to know. (After the transformations of `Position` and `Range` by
//! operations in CKEditor 5's model.)
use crate::places::Position;
use ck_base::path::Path;

/// Where a position goes that has content put in at it.
#[derive(Debug, Clone, Copy, PartialEq, Eq, Drop)]
pub enum Stick {
    /// With the next item, so behind the content.
    ToNext,
    /// With the previous item, so before the content.
    ToPrevious,
}

/// A change of the tree.
#[derive(Debug, Drop)]
pub enum Shift {
    /// Every item stays where it is.
    Stay,
    /// Some items come in at a position.
    Insert {
        /// Where they come in.
        at: Position,
        /// How many there are, without those in them.
        count: u32,
    },
    /// Some items behind a position go.
    Remove {
        /// Where the first one stands.
        at: Position,
        /// How many there are, without those in them.
        count: u32,
    },
    /// Some items behind a position go to another place.
    Move {
        /// Where the first one stands.
        from: Position,
        /// How many there are, without those in them.
        count: u32,
        /// Where they go, as it is before they go.
        to: Position,
    },
    /// What is behind a position in its parent goes into a new element directly behind the parent.
    Split {
        /// Where the parent is split.
        at: Position,
    },
    /// The items of an element go to the end of the one directly before it.
    Merge {
        /// The path of the element that is emptied.
        right: Path,
        /// The end of the element before it.
        target: Position,
    },
}
