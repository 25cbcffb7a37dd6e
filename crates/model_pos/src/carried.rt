//! Where positions and ranges go when the tree changes. (After `Position.getTransformedByOperation` and
//! `Range.getTransformedByOperation` of CKEditor 5's model.)
ghost use Rattle.std.specs.Prelude.{◌≡◌, ◌<◌, ◌≤◌, ◌+◌};
ghost use Rattle.item_definitions.specs.Position.{between};
ghost use Rattle.item_definitions.specs.Shift as meant;
ghost use Rattle.item_definitions.specs.Shift.{IsWithinLimits, IsShift, to_next, to_previous};
ghost use Rattle.model_pos.specs.Shifts.{stick_of, shift_of};

use crate::carrying::{by_insert, by_merge, by_remove, by_split};
use crate::places::{Position, Range, order};
use crate::runs::{lies_in_run, with_run};
use crate::shifts::{Shift, Stick};

/// Where a position goes. It takes no memory.
///
/// Its conditions: the position that it answers is within the limits, which are 65 numbers below 2^32; a split is of an element other
/// than the root; a merge is of an element that has another one directly before it, in which the target is.
#[tactic(auto, using(item_definitions::proofs::Paths::paths))]
pub fn carry(position: &Position, stick: Stick, shift: &Shift) -> Position
    requires limits { IsWithinLimits (meant.carry (stick_of stick) (shift_of shift.now) position.now) }
    requires shift { IsShift (shift_of shift.now) }
    ensures { result ≡ meant.carry (stick_of stick) (shift_of shift.now) position.now }
{
    match shift {
        Shift::Stay => position.copy(),
        Shift::Insert { at, count } => {
            let (parent, offset) = at.split();
            by_insert(position, parent, offset, *count, stick)
        }
        Shift::Remove { at, count } => {
            let (parent, offset) = at.split();
            by_remove(position, parent, offset, *count)
        }
        Shift::Move { from, count, to } => by_move(position, from, *count, to, stick),
        Shift::Split { at } => {
            let (element, offset) = at.split();
            match element.split_last() {
                Some((index, parent)) => by_split(position, parent, *index, offset, stick),
                None => unreachable!(),
            }
        }
        Shift::Merge { right, target } => match right.as_slice().split_last() {
            Some((index, parent)) => by_merge(position, parent, *index, target.offset()),
            None => unreachable!(),
        },
    }
}

/// A position after `count` items behind another one moved to a third one.
fn by_move(
    position: &Position,
    from: &Position,
    count: u32,
    to: &Position,
    stick: Stick,
) -> Position
    requires { IsWithinLimits (meant.carry (stick_of stick) (meant.move from.now count to.now) position.now) }
    ensures { result ≡ meant.carry (stick_of stick) (meant.move from.now count to.now) position.now }
{
    let (parent, offset) = from.split();
    let target = by_remove(to, parent, offset, count);
    let left = by_remove(position, parent, offset, count);
    let (parent, offset) = target.split();
    by_insert(&left, parent, offset, count, stick)
}

/// Where a range goes: a start sticks to the next item and an end to the previous one, and a range that lies in a moved run goes with
/// it whole. An end that would come before its start becomes the start. It takes no memory.
///
/// Its conditions are those of `carry`, for both ends.
pub fn carry_range(range: &Range, shift: &Shift) -> Range
    requires start { IsWithinLimits (meant.carried_ends (shift_of shift.now) range.now).start }
    requires end { IsWithinLimits (meant.carried_ends (shift_of shift.now) range.now).end }
    requires shift { IsShift (shift_of shift.now) }
    ensures { result ≡ meant.carry_range (shift_of shift.now) range.now }
{
    let (start, end) = carried_ends(range, shift);
    if order(&start, &end).is_le() {
        return Range::new(start, end);
    }
    Range::collapsed(start)
}

/// Where the ends of a range go.
fn carried_ends(range: &Range, shift: &Shift) -> (Position, Position)
    requires start { IsWithinLimits (meant.carried_ends (shift_of shift.now) range.now).start }
    requires end { IsWithinLimits (meant.carried_ends (shift_of shift.now) range.now).end }
    requires shift { IsShift (shift_of shift.now) }
    ensures { between result.0 result.1 ≡ meant.carried_ends (shift_of shift.now) range.now }
{
    let (start, end) = (range.start(), range.end());
    if let Shift::Move { from, count, to } = shift
        && lies_in_run(from, *count, range)
    {
        let (parent, offset) = from.split();
        let target = by_remove(to, parent, offset, *count);
        return (with_run(start, from, &target), with_run(end, from, &target));
    }
    (
        carry(start, Stick::ToNext, shift),
        carry(end, Stick::ToPrevious, shift),
    )
}
