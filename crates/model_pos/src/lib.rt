//! Positions and ranges in the document tree, the minimal flat ranges of a range, and how positions and ranges are carried when the
//! tree changes.
#![tactic(auto)]

pub mod carried;
mod carrying;
pub mod parts;
pub mod places;
mod runs;
pub mod shifts;

pub use carried::{carry, carry_range};
pub use parts::{Counts, flat_parts};
pub use places::{Position, Range, is_flat, order};
pub use runs::is_in_run;
pub use shifts::{Shift, Stick};
