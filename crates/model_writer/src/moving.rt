//! Moves of items, removals among them.
ghost use Rattle.std.specs.Prelude.{◌≡◌, ◌∷◌, [], ℕ, List, Bool, IsTrue, IfOk, IfSome, ◌+◌, Ok};
ghost use Rattle.item_definitions.specs.Children.{child_count};
ghost use Rattle.item_definitions.specs.Position.{between, not_after};
ghost use Rattle.item_definitions.specs.FlatParts.{flat_parts};
ghost use Rattle.operation_definitions.specs.Operation.{in_tree, in_cell, move};
ghost use Rattle.model_ops.specs.Meant.{operation_of};
ghost use Rattle.document_definitions.specs.Selection.{same_position};
ghost use Rattle.edit_definitions.specs.declared.edit.Edit.TheVariants.{Remove, Move};
ghost use Rattle.edit_definitions.specs.Planned.{operations_of, moved_run, removals, count_in};
ghost use Rattle.model_writer.specs.Plans.{Plans};

use crate::inserting::{alloc_of, one, push};
use crate::places::{
    are_in_one, bad_position, bad_range, bad_target, is_between, is_range, is_there,
};
use ck_base::NoMemory;
use ck_base::faults::EditFault;
use model_doc::Document;
use model_ops::counts::TreeCounts;
use model_ops::operation::{Operation, Place};
use model_pos::{Position, Range, flat_parts};
use model_tree::tree::Tree;
use std::alloc::Global;

/// Whether two positions are one.
pub(crate) fn is_same(position: &Position, other: &Position) -> bool
    ensures { result ≡ same_position position.now other.now }
{
    position.as_slice() == other.as_slice()
}

/// How many items a flat range has.
pub(crate) fn count_in(start: &Position, end: &Position) -> u32
    ensures { result ≡ count_in start.now end.now }
{
    end.offset().saturating_sub(start.offset())
}

/// The items of a flat range go to a position.
fn moved_run(
    alloc: Global,
    start: &Position,
    end: &Position,
    to: &Position,
) -> Result<Vec<Operation>, EditFault>
    ensures { Plans (Ok (moved_run start.now end.now to.now)) result }
{
    if is_same(start, end) || is_same(to, start) || is_same(to, end) {
        return Ok(Vec::new(alloc));
    }
    one(
        alloc,
        Operation::Move {
            from: Place::Tree(start.copy()),
            count: count_in(start, end),
            to: Place::Tree(to.copy()),
        },
    )
}

/// The plan of a flat range that goes to a position.
pub(crate) fn move_range(
    document: &Document,
    number: u64,
    start: &Position,
    end: &Position,
    to: &Position,
) -> Result<Vec<Operation>, EditFault>
    ensures { (registered : List ℕ → Bool) → Plans (operations_of registered number (Move start.now end.now to.now) document.now.state) result }
{
    let tree = document.tree();
    if !is_there(tree, to) {
        return Err(bad_position(number, to));
    }
    if !(is_range(tree, start, end) && are_in_one(start, end)) {
        return Err(bad_range(number, start, end));
    }
    if is_between(start, end, to) {
        return Err(bad_target(number, to.path()));
    }
    moved_run(alloc_of(document), start, end, to)
}

/// The items of a flat range go into a cell.
fn removal(part: &Range, cell: u64) -> Operation
    ensures { operation_of result ≡ move (in_tree part.now.start) (count_in part.now.start part.now.end) (in_cell cell) }
{
    Operation::Move {
        from: Place::Tree(part.start().copy()),
        count: count_in(part.start(), part.end()),
        to: Place::Cell(cell),
    }
}

/// The number that is so many behind another one, if there is one.
fn number_behind(number: u64, count: u64) -> Option<u64>
    ensures { IfSome result (λ sum. sum ≡ number + count) }
{
    number.checked_add(count)
}

/// The items of flat ranges go into new cells, in this order, the first of which has this number.
fn removals(alloc: Global, cell: u64, parts: &[Range]) -> Result<Vec<Operation>, EditFault>
    ensures { Plans (Ok (removals cell parts.now)) result }
{
    let mut operations = Vec::new(alloc);
    for (index, part) in parts.iter().enumerate() {
        let Some(number) = number_behind(cell, index as u64) else {
            return Err(EditFault::NoMemory);
        };
        push(&mut operations, removal(part, number))?;
    }
    Ok(operations)
}

/// The flat ranges of a range.
pub(crate) fn parts_between(
    alloc: Global,
    tree: &Tree,
    start: &Position,
    end: &Position,
) -> Result<Vec<Range>, NoMemory>
    requires { IsTrue (not_after start.now end.now) }
    ensures { IfOk result (λ parts. parts.items ≡ flat_parts (child_count tree.now) (between start.now end.now)) }
{
    let range = Range::new(start.copy(), end.copy());
    flat_parts(alloc, &range, &TreeCounts(tree))
}

/// The plan of a range whose items go.
pub(crate) fn remove(
    document: &Document,
    number: u64,
    start: &Position,
    end: &Position,
) -> Result<Vec<Operation>, EditFault>
    ensures { (registered : List ℕ → Bool) → Plans (operations_of registered number (Remove start.now end.now) document.now.state) result }
{
    let tree = document.tree();
    if !is_range(tree, start, end) {
        return Err(bad_range(number, start, end));
    }
    let alloc = alloc_of(document);
    let Ok(mut parts) = parts_between(alloc, tree, start, end) else {
        return Err(EditFault::NoMemory);
    };
    parts.reverse();
    removals(alloc, document.cell_count(), parts.as_slice())
}
