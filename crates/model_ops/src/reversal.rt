//! The reversal of an operation.
ghost use Rattle.std.specs.Prelude.{◌≡◌, ◌<◌, ◌≤◌, ◌^◌, length, IfOk};
ghost use Rattle.item_definitions.specs.Children.{parent_of};
ghost use Rattle.item_definitions.specs.Position.{behind};
ghost use Rattle.item_definitions.specs.Shift.{IsWithinLimits};
ghost use Rattle.operation_definitions.specs.Back.{back, moved_to, moved_from, source_cell};
ghost use Rattle.model_ops.specs.Meant.{operation_of, place_of, source_of};
ghost use Rattle.model_ops.specs.Limits.{IsWithin, IsPlaceWithin, SplitsElement};

use crate::operation::{Operation, Place, Source, attribute, marker, rename};
use ck_base::NoMemory;
use ck_base::path::Path;
use model_pos::{Position, Shift, Stick, carry};
use std::alloc::Global;

/// The operation that takes another one back, with a cell for what it may have to put away. It answers `NoMemory` alone beside Ok.
pub fn reverse(alloc: Global, op: &Operation, cell: u64) -> Result<Operation, NoMemory>
    requires split { SplitsElement (operation_of op.now) }
    requires limits { IsWithin (back (operation_of op.now) cell) }
    ensures { IfOk result (λ made. operation_of made ≡ back (operation_of op.now) cell) }
{
    match op {
        Operation::Insert { at, items } => Ok(Operation::Move {
            from: Place::Tree(at.copy()),
            count: items.len() as u32,
            to: Place::Cell(cell),
        }),
        Operation::Move { from, count, to } => Ok(Operation::Move {
            from: moved_to(from, *count, to),
            count: *count,
            to: moved_from(from, *count, to),
        }),
        Operation::Attribute {
            range,
            key,
            old,
            new,
        } => attribute(range, key, new, old),
        Operation::Rename { path, old, new } => rename(path, new, old),
        Operation::Split { at, source } => Ok(Operation::Merge {
            right: behind_parent(alloc, at),
            target: at.copy(),
            cell: source_cell(source, cell),
        }),
        Operation::Merge { target, cell, .. } => Ok(Operation::Split {
            at: target.copy(),
            source: Source::Cell(*cell),
        }),
        Operation::Marker { name, old, new } => marker(name, new, old),
    }
}

/// The cell that a merge back fills: the one that the second element came from, or the given one.
fn source_cell(source: &Source, cell: u64) -> u64
    ensures { result ≡ source_cell (source_of source.now) cell }
{
    match source {
        Source::Fresh(_) => cell,
        Source::Cell(number) => *number,
    }
}

/// Where the items of a move stand then: at the target, as the taking out leaves that.
fn moved_to(from: &Place, count: u32, to: &Place) -> Place
    requires { IsPlaceWithin (moved_to (place_of from.now) count (place_of to.now)) }
    ensures { place_of result ≡ moved_to (place_of from.now) count (place_of to.now) }
{
    match (from, to) {
        (Place::Tree(from), Place::Tree(to)) => {
            let shift = Shift::Remove {
                at: from.copy(),
                count,
            };
            Place::Tree(carry(to, Stick::ToNext, &shift))
        }
        _ => to.copy(),
    }
}

/// Where they have to go back: to the old start, as the putting in leaves that.
fn moved_from(from: &Place, count: u32, to: &Place) -> Place
    requires to { IsPlaceWithin (moved_to (place_of from.now) count (place_of to.now)) }
    requires from { IsPlaceWithin (moved_from (place_of from.now) count (place_of to.now)) }
    ensures { place_of result ≡ moved_from (place_of from.now) count (place_of to.now) }
{
    match (from, to) {
        (Place::Tree(from), Place::Tree(to)) => {
            let removal = Shift::Remove {
                at: from.copy(),
                count,
            };
            let target = carry(to, Stick::ToNext, &removal);
            let insertion = Shift::Insert { at: target, count };
            Place::Tree(carry(from, Stick::ToNext, &insertion))
        }
        _ => from.copy(),
    }
}

/// The path of the item directly behind the parent of a position.
fn behind_parent(alloc: Global, at: &Position) -> Path
    requires long { 2 ≤ length at.now }
    requires limits { IsWithinLimits (behind (parent_of at.now)) }
    ensures { result ≡ behind (parent_of at.now) }
{
    let (parent, _) = at.split();
    match parent.split_last() {
        Some((index, above)) => match Path::from_slice(alloc, above) {
            Some(mut path) => {
                path.push(*index + 1);
                path
            }
            None => unreachable!(),
        },
        None => unreachable!(),
    }
}
