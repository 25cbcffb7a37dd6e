//! Why an operation is refused.

use ck_base::name::Name;
use ck_base::value::Value;

/// What an operation finds where it names something else.
#[derive(Debug, Drop)]
pub enum Found {
    /// The value of a key, or none.
    Value(Option<Value>),
    /// The name of an element.
    Name(Name),
}

/// Why an operation is refused.
#[derive(Debug, Drop)]
pub enum OpFault {
    /// A position, run, element or range isn't there.
    NoPlace,
    /// The two ends of a range have two parents.
    NotFlat,
    /// A run would go into itself.
    IntoItself,
    /// The old value or name is another one.
    OldDiffers(Found),
    /// The element has no element before it that ends at the target.
    NotNeighbours,
    /// The cell of this number isn't as it has to be.
    CellState(u64),
    /// The tree would have this many items, which are too many.
    TooLarge(u64),
    /// The tree would have this many levels of items, which are too many.
    TooDeep(u32),
    /// Memory ran out.
    NoMemory,
}
