//! Positions and ranges in a run of items that is moved.
ghost use Rattle.std.specs.Prelude.{◌≡◌, ◌&&◌, ◌<◌, ◌≤◌, ◌+◌, ◌∷◌, []};
ghost use Rattle.item_definitions.specs.Position.{not_after, is_before};
ghost use Rattle.item_definitions.specs.Shift as meant;
ghost use Rattle.item_definitions.specs.Shift.{IsWithinLimits, forward};

use crate::carrying::parted;
use crate::places::{Position, Range, order};

/// Whether a position that its parent sees as a number and a path is not behind an offset there.
fn stands_by(number: u32, path: &[u32], last: u64) -> bool
    ensures { result ≡ not_after (number ∷ path.now) (last ∷ []) }
{
    if path.is_empty() {
        return u64::from(number) <= last;
    }
    u64::from(number) < last
}

/// Whether a position that its parent sees as a number and a path is before an offset there.
fn stands_before(number: u32, _path: &[u32], last: u64) -> bool
    ensures { result ≡ is_before (number ∷ _path.now) (last ∷ []) }
{
    u64::from(number) < last
}

/// Whether a position is not behind the end of the run of `count` items behind another one.
fn ends_in_run(position: &Position, from: &Position, count: u32) -> bool
    ensures { result ≡ not_after position.now (forward count from.now) }
{
    let (parent, offset) = from.split();
    match parted(parent, position) {
        Some((number, path)) => stands_by(number, path, u64::from(offset) + u64::from(count)),
        None => order(position, from).is_le(),
    }
}

/// Whether a position is before the end of the run of `count` items behind another one.
fn is_before_run_end(position: &Position, from: &Position, count: u32) -> bool
    ensures { result ≡ is_before position.now (forward count from.now) }
{
    let (parent, offset) = from.split();
    match parted(parent, position) {
        Some((number, path)) => stands_before(number, path, u64::from(offset) + u64::from(count)),
        None => order(from, position).is_gt(),
    }
}

/// Whether a range lies in the run of `count` items behind a position.
pub fn lies_in_run(from: &Position, count: u32, range: &Range) -> bool
    ensures { result ≡ meant.lies_in_run from.now count range.now }
{
    let (start, end) = (range.start(), range.end());
    if order(end, start).is_gt() {
        order(from, start).is_le() && ends_in_run(end, from, count)
    } else {
        order(start, from).is_gt() && is_before_run_end(end, from, count)
    }
}

/// Where a position of a run goes, whose first position goes to another one.
pub fn with_run(position: &Position, from: &Position, to: &Position) -> Position
    requires { IsWithinLimits (meant.with_run from.now to.now position.now) }
    ensures { result ≡ meant.with_run from.now to.now position.now }
{
    let (parent, offset) = from.split();
    let Some((number, path)) = parted(parent, position) else {
        return position.copy();
    };
    let (target, first) = to.split();
    position.with_numbers(target, &[first + number.saturating_sub(offset)], path)
}

/// Whether a position is in the run of `count` items behind another one, or at an end of the run. It takes no memory.
pub fn is_in_run(from: &Position, count: u32, position: &Position) -> bool
    ensures { result ≡ (not_after from.now position.now && not_after position.now (forward count from.now)) }
{
    order(from, position).is_le() && ends_in_run(position, from, count)
}
