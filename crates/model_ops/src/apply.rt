//! Doing an operation.
ghost use Rattle.std.specs.Prelude.{◌≡◌, ◌≢◌, List, Ok, Some, OnOk, OnErr, IfErr, IsErr};
ghost use Rattle.item_definitions.specs.Item.{Item};
ghost use Rattle.operation_definitions.specs.After.{after, effect, limited};
ghost use Rattle.model_tree.specs.Limits.{IsTree};
ghost use Rattle.model_ops.specs.Meant.{operation_of, place_of, source_of};
ghost use Rattle.operation_definitions.specs.Operation.{move, split};
ghost use Rattle.model_ops.specs.Effects.{Plans, CanFill, filled, refusal};

use crate::cells::Cells;
use crate::fault::OpFault;
use crate::operation::{Operation, Place, Source};
use crate::plans::{self, Change, Filled};
use ck_base::NoMemory;
use model_pos::Position;
use model_tree::items::Items;
use model_tree::tree::Tree;

/// How many items a tree may have, at all depths.
const MOST_ITEMS: u64 = 1_000_000;

/// How many levels of items a tree may have.
const MOST_LEVELS: u32 = 64;

/// Does an operation to the items of a tree and the cells. An operation on a marker changes neither.
///
/// It answers Ok exactly where all premises of the operation hold and the tree then keeps to the limits: at most 1,000,000 items, at
/// most 64 levels deep. Any other answer is that of the first premise that fails, in the order that the definition of an operation's
/// effect gives; `TooLarge` and then `TooDeep` come after these premises, with the number of items or levels that the tree would have.
/// `NoMemory` may come at any time. After each refusal tree and cells are what they were.
pub fn apply(tree: &mut Tree, cells: &mut Cells, operation: &Operation) -> Result<(), OpFault>
    ensures ok { OnOk result (after tree.old cells.old (operation_of operation.now) ≡ Ok (tree.new, cells.new)) }
    ensures refused { IfErr result (λ fault. fault ≢ OpFault.NoMemory → refusal (after tree.old cells.old (operation_of operation.now)) ≡ Some fault) }
    ensures tree { OnErr result (tree.new ≡ tree.old) }
    ensures cells { OnErr result (cells.new ≡ cells.old) }
{
    match planned(tree, cells, operation) {
        Ok(change) => put(tree, cells, change),
        Err(fault) => Err(fault),
    }
}

/// What an operation makes of a tree and cells, within the limits on the tree.
#[tactic(auto, using(crate::proofs::Limiting::then_limits, crate::proofs::Limiting::then_fault))]
fn planned(tree: &Tree, cells: &Cells, operation: &Operation) -> Result<Change, OpFault>
    ensures { Plans (after tree.now cells.now (operation_of operation.now)) cells.now result }
{
    match plan(tree, cells, operation) {
        Ok(change) => within_limits(change),
        Err(fault) => Err(fault),
    }
}

/// What an operation makes of a tree and cells, whatever the limits on the tree.
fn plan(tree: &Tree, cells: &Cells, operation: &Operation) -> Result<Change, OpFault>
    ensures { Plans (effect tree.now cells.now (operation_of operation.now)) cells.now result }
{
    match operation {
        Operation::Insert { at, items } => plans::insert(tree.items(), at, items),
        Operation::Move { from, count, to } => plan_move(tree.items(), cells, from, *count, to),
        Operation::Attribute {
            range,
            key,
            old,
            new,
        } => plans::attribute(tree.items(), range, key, old, new),
        Operation::Rename { path, old, new } => plans::rename(tree, path, old, new),
        Operation::Split { at, source } => plan_split(tree, cells, at, source),
        Operation::Merge {
            right,
            target,
            cell,
        } => plans::merge(tree.items(), cells, right, target, *cell),
        Operation::Marker { .. } => plans::nothing(tree.items()),
    }
}

/// What a move makes of items and cells.
fn plan_move(
    items: &Items,
    cells: &Cells,
    from: &Place,
    count: u32,
    to: &Place,
) -> Result<Change, OpFault>
    ensures { Plans (effect items.now cells.now (move (place_of from.now) count (place_of to.now))) cells.now result }
{
    match (from, to) {
        (Place::Tree(from), Place::Tree(to)) => plans::move_in_tree(items, from, count, to),
        (Place::Tree(from), Place::Cell(number)) => {
            plans::move_to_cell(items, cells, from, count, *number)
        }
        (Place::Cell(number), Place::Tree(to)) => {
            plans::move_from_cell(items, cells, *number, count, to)
        }
        (Place::Cell(_), Place::Cell(_)) => Err(OpFault::NoPlace),
    }
}

/// What a split makes of a tree and cells.
fn plan_split(tree: &Tree, cells: &Cells, at: &Position, source: &Source) -> Result<Change, OpFault>
    ensures { Plans (effect tree.now cells.now (split at.now (source_of source.now))) cells.now result }
{
    match source {
        Source::Fresh(id) => plans::split_fresh(tree, at, *id),
        Source::Cell(number) => plans::split_from_cell(tree.items(), cells, at, *number),
    }
}

/// A planned change, if it leaves the tree within the limits.
#[tactic(auto, using(crate::proofs::Limiting::too_many, crate::proofs::Limiting::too_low, crate::proofs::Limiting::in_limits))]
fn within_limits(change: Change) -> Result<Change, OpFault>
    ensures { (cells : List (List Item)) → CanFill change.cell cells → Plans (limited (change.items, filled change.cell cells)) cells result }
{
    let count = change.items.count();
    if count > MOST_ITEMS {
        return Err(OpFault::TooLarge(count));
    }
    let depth = change.items.depth();
    if depth > MOST_LEVELS {
        return Err(OpFault::TooDeep(depth));
    }
    Ok(change)
}

/// Puts a planned change in place. It answers `NoMemory` alone beside Ok, and then nothing has changed.
fn put(tree: &mut Tree, cells: &mut Cells, change: Change) -> Result<(), OpFault>
    requires limits { IsTree change.items }
    requires room { CanFill change.cell cells.old }
    ensures items { OnOk result (tree.new ≡ change.items) }
    ensures filled { OnOk result (cells.new ≡ filled change.cell cells.old) }
    ensures tree { OnErr result (tree.new ≡ tree.old) }
    ensures cells { OnErr result (cells.new ≡ cells.old) }
    ensures memory { IfErr result (λ fault. fault ≡ OpFault.NoMemory) }
{
    let next = Tree::from_items(change.items);
    match fill(cells, change.cell) {
        Ok(()) => {
            *tree = next;
            Ok(())
        }
        Err(_) => Err(OpFault::NoMemory),
    }
}

/// Fills the cell of a change, if it has one.
fn fill(cells: &mut Cells, cell: Option<Filled>) -> Result<(), NoMemory>
    requires { CanFill cell cells.old }
    ensures ok { OnOk result (cells.new ≡ filled cell cells.old) }
    ensures err { OnErr result (cells.new ≡ cells.old) }
{
    match cell {
        Some(cell) => cells.fill(cell.number, cell.items),
        None => Ok(()),
    }
}
