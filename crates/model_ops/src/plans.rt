//! What an operation makes of the tree and the cells, before anything is changed.
ghost use Rattle.std.specs.Prelude.{◌≡◌, ◌↔◌, IsTrue, ◌≢◌, ◌∷◌, [], ◌++◌, ℕ, List, Option, Ok, Some, None, is_some, option_copied, MatchResult, IfOk};
ghost use Rattle.item_definitions.specs.Item.{Item, element, none};
ghost use Rattle.item_definitions.specs.Children.{at};
ghost use Rattle.operation_definitions.specs.Level.{take_out, give};
ghost use Rattle.operation_definitions.specs.Operation.{in_tree, in_cell, insert, move, attribute, rename, split, fresh, from_cell, merge};
ghost use Rattle.operation_definitions.specs.After.{effect, shell_of, room_at};
ghost use Rattle.model_tree.specs.Places.{Gives};
ghost use Rattle.model_ops.specs.Effects.{Plans, IsLeftEnd, fault_of, given_if, placed};

use crate::cells::Cells;
use crate::fault::{Found, OpFault};
use ck_base::NoMemory;
use ck_base::attributes::Attrs;
use ck_base::name::Name;
use ck_base::path::Path;
use ck_base::value::Value;
use model_pos::{Position, Range, is_flat, is_in_run};
use model_tree::fault::TreeFault;
use model_tree::id::ElementId;
use model_tree::items::Items;
use model_tree::reading::ItemRef;
use model_tree::tree::Tree;
use std::alloc::Global;

/// A cell with what it is filled with, which may be nothing.
#[derive(Debug, Drop)]
pub(crate) struct Filled {
    pub(crate) number: u64,
    pub(crate) items: Items,
}

/// The items of the tree, and the cell that is filled, if one is.
#[derive(Debug, Drop)]
pub(crate) struct Change {
    pub(crate) items: Items,
    pub(crate) cell: Option<Filled>,
}

/// A fault of the tree as one of an operation.
fn op_fault(fault: TreeFault) -> OpFault
    ensures { result ≡ fault_of fault }
{
    match fault {
        TreeFault::NoPlace => OpFault::NoPlace,
        TreeFault::NoMemory => OpFault::NoMemory,
    }
}

/// A change of the tree alone.
#[tactic(auto, using(crate::proofs::Planned::kept_made, crate::proofs::Planned::kept_fault))]
fn kept(made: Result<Items, TreeFault>) -> Result<Change, OpFault>
    ensures { (wanted : Option (List Item)) (cells : List (List Item)) → Gives wanted made → Plans (placed wanted cells) cells result }
{
    match made {
        Ok(items) => Ok(Change { items, cell: None }),
        Err(fault) => Err(op_fault(fault)),
    }
}

/// Whether `count` items are behind an offset in the element at a path.
#[tactic(auto, using(model_tree::proofs::Puts::out_nowhere, model_tree::proofs::Puts::out_short, model_tree::proofs::Puts::out_there))]
fn has_run(items: &Items, parent: &[u32], offset: u32, count: u32) -> bool
    ensures { result ≡ is_some (at parent.now (take_out offset count) items.now) }
{
    match items.list_at(parent) {
        Some(level) => level.has_run(offset, count),
        None => false,
    }
}

/// Whether a position is there.
#[tactic(auto, using(model_tree::proofs::Removed::place_there, model_tree::proofs::Removed::place_nowhere, model_tree::proofs::Removed::place_short))]
fn has_place(items: &Items, parent: &[u32], offset: u32) -> bool
    ensures { result ≡ is_some (room_at items.now (parent.now ++ offset ∷ [])) }
{
    match items.list_at(parent) {
        Some(level) => level.has_run(offset, 0),
        None => false,
    }
}

/// Items come in at a position.
#[tactic(auto, using(crate::proofs::Planned::insert_plans))]
pub(crate) fn insert(items: &Items, at: &Position, new: &Items) -> Result<Change, OpFault>
    ensures { (cells : List (List Item)) → Plans (effect items.now cells (insert at.now new.now)) cells result }
{
    let (parent, offset) = at.split();
    kept(items.put_in_at(parent, offset, new))
}

/// A run moves to a position of the tree.
pub(crate) fn move_in_tree(
    items: &Items,
    from: &Position,
    count: u32,
    to: &Position,
) -> Result<Change, OpFault>
    ensures { (cells : List (List Item)) → Plans (effect items.now cells (move (in_tree from.now) count (in_tree to.now))) cells result }
{
    let (parent, offset) = from.split();
    let (above, last) = to.split();
    if !has_run(items, parent, offset, count) {
        return Err(OpFault::NoPlace);
    }
    if !has_place(items, above, last) {
        return Err(OpFault::NoPlace);
    }
    if is_in_run(from, count, to) {
        return Err(OpFault::IntoItself);
    }
    kept(items.moved(parent, offset, count, above, last))
}

/// A run goes into a cell.
pub(crate) fn move_to_cell(
    items: &Items,
    cells: &Cells,
    from: &Position,
    count: u32,
    number: u64,
) -> Result<Change, OpFault>
    ensures { Plans (effect items.now cells.now (move (in_tree from.now) count (in_cell number))) cells.now result }
{
    let (parent, offset) = from.split();
    let (rest, run) = match items.take_out_at(parent, offset, count) {
        Ok(both) => both,
        Err(fault) => return Err(op_fault(fault)),
    };
    if !cells.is_free(number) {
        return Err(OpFault::CellState(number));
    }
    Ok(Change {
        items: rest,
        cell: Some(Filled { number, items: run }),
    })
}

/// The items of a cell go to a position.
pub(crate) fn move_from_cell(
    items: &Items,
    cells: &Cells,
    number: u64,
    count: u32,
    to: &Position,
) -> Result<Change, OpFault>
    ensures { Plans (effect items.now cells.now (move (in_cell number) count (in_tree to.now))) cells.now result }
{
    if !cells.holds_count(number, count) {
        return Err(OpFault::CellState(number));
    }
    let Some(run) = cells.get(number) else {
        unreachable!();
    };
    let (parent, offset) = to.split();
    let made = match items.put_in_at(parent, offset, run) {
        Ok(made) => made,
        Err(fault) => return Err(op_fault(fault)),
    };
    let Ok(none) = Items::new(items.allocator()) else {
        return Err(OpFault::NoMemory);
    };
    Ok(Change {
        items: made,
        cell: Some(Filled {
            number,
            items: none,
        }),
    })
}

/// The refusal of a run in which a value is another one.
fn value_differs(found: Option<&Value>) -> Result<Change, OpFault>
    ensures { MatchResult result (λ _. ⊥) (λ fault. fault ≢ OpFault.NoMemory → fault ≡ OpFault.OldDiffers (Found.Value (option_copied found.entry))) }
{
    match found {
        Some(value) => match value.copy() {
            Ok(value) => Err(OpFault::OldDiffers(Found::Value(Some(value)))),
            Err(_) => Err(OpFault::NoMemory),
        },
        None => Err(OpFault::OldDiffers(Found::Value(None))),
    }
}

/// The items of a range get another value of a key.
#[tactic(auto, using(crate::proofs::Given::not_flat_here, crate::proofs::Given::flat_plans))]
pub(crate) fn attribute(
    items: &Items,
    range: &Range,
    key: &Name,
    old: &Option<Value>,
    new: &Option<Value>,
) -> Result<Change, OpFault>
    ensures { (cells : List (List Item)) → Plans (effect items.now cells (attribute range.now key.now old.now new.now)) cells result }
{
    if !is_flat(range) {
        return Err(OpFault::NotFlat);
    }
    let (parent, start) = range.start().split();
    let count = range.end().offset().saturating_sub(start);
    give(items, parent, start, count, key, old.as_ref(), new.as_ref())
}

/// A run gets another value of a key, if each of its items has the old one.
fn give(
    items: &Items,
    parent: &[u32],
    start: u32,
    count: u32,
    key: &Name,
    old: Option<&Value>,
    new: Option<&Value>,
) -> Result<Change, OpFault>
    ensures { (cells : List (List Item))
        → Plans (given_if (option_copied old.entry) key.now (at parent.now (give start count key.now (option_copied new.entry)) items.now) cells) cells result }
{
    let Some(level) = items.list_at(parent) else {
        return Err(OpFault::NoPlace);
    };
    let end = start as u64 + count as u64;
    let long = level.len();
    if long < end {
        return Err(OpFault::NoPlace);
    }
    let Ok(run) = level.range(start as usize, count as usize) else {
        return Err(OpFault::NoMemory);
    };
    match run.other_value(key, old) {
        Some(found) => value_differs(found),
        None => kept(items.give_at(parent, start, count, key, new)),
    }
}

/// The element at a path gets another name.
pub(crate) fn rename(tree: &Tree, path: &Path, old: &Name, new: &Name) -> Result<Change, OpFault>
    ensures { (cells : List (List Item)) → Plans (effect tree.now cells (rename path.now old.now new.now)) cells result }
{
    let Some(item) = tree.item_at(path) else {
        return Err(OpFault::NoPlace);
    };
    match item {
        ItemRef::Character { .. } => Err(OpFault::NoPlace),
        ItemRef::Element { name, .. } => {
            if *name == *old {
                return kept(tree.items().renamed_at(path.as_slice(), new));
            }
            match name.copy() {
                Ok(name) => Err(OpFault::OldDiffers(Found::Name(name))),
                Err(_) => Err(OpFault::NoMemory),
            }
        }
    }
}

/// An element without children with this id, and the name and attributes of another one.
fn shell_like(alloc: Global, id: ElementId, name: &Name, attrs: &Attrs) -> Result<Items, NoMemory>
    ensures { IfOk result (λ shell. shell ≡ element id name.now attrs.now none ∷ []) }
{
    let name = name.copy()?;
    let attrs = attrs.copy()?;
    let children = Items::new(alloc)?;
    Items::element(alloc, id, name, attrs, children)
}

/// The parent of a position is split, with a new element of this id for what is behind.
pub(crate) fn split_fresh(tree: &Tree, at: &Position, id: ElementId) -> Result<Change, OpFault>
    ensures { (cells : List (List Item)) → Plans (effect tree.now cells (split at.now (fresh id))) cells result }
{
    let path = at.parent();
    let offset = at.offset();
    let Some(item) = tree.item_at(&path) else {
        return Err(OpFault::NoPlace);
    };
    match item {
        ItemRef::Character { .. } => Err(OpFault::NoPlace),
        ItemRef::Element { name, attrs, .. } => {
            let Ok(shell) = shell_like(tree.items().allocator(), id, name, attrs) else {
                return Err(OpFault::NoMemory);
            };
            kept(tree.items().split_with(path.as_slice(), offset, &shell))
        }
    }
}

/// Whether a list of items is one element without children.
#[tactic(auto, using(crate::proofs::Parting::shell_none, crate::proofs::Parting::shell_long, crate::proofs::Parting::shell_one))]
fn is_shell(items: &Items) -> bool
    ensures { result ≡ is_some (shell_of items.now) }
{
    if items.len() != 1 {
        return false;
    }
    match items.list_at(&[0]) {
        Some(children) => children.len() == 0,
        None => false,
    }
}

/// The parent of a position is split, with the element that is in a cell for what is behind.
pub(crate) fn split_from_cell(
    items: &Items,
    cells: &Cells,
    at: &Position,
    number: u64,
) -> Result<Change, OpFault>
    ensures { Plans (effect items.now cells.now (split at.now (from_cell number))) cells.now result }
{
    let (path, offset) = at.split();
    if path.is_empty() {
        return Err(OpFault::NoPlace);
    }
    if !has_place(items, path, offset) {
        return Err(OpFault::NoPlace);
    }
    let Some(shell) = cells.get(number) else {
        return Err(OpFault::CellState(number));
    };
    if !is_shell(shell) {
        return Err(OpFault::CellState(number));
    }
    let made = match items.split_with(path, offset, shell) {
        Ok(made) => made,
        Err(fault) => return Err(op_fault(fault)),
    };
    let Ok(none) = Items::new(items.allocator()) else {
        return Err(OpFault::NoMemory);
    };
    Ok(Change {
        items: made,
        cell: Some(Filled {
            number,
            items: none,
        }),
    })
}

/// Whether a position is behind the items of the element before the one at a path.
fn is_left_end(items: &Items, right: &Path, target: &Position) -> bool
    ensures { IsTrue result ↔ IsLeftEnd right.now target.now items.now }
{
    let (left, count) = target.split();
    let Some((before, above)) = left.split_last() else {
        return false;
    };
    let Some((index, parent)) = right.as_slice().split_last() else {
        return false;
    };
    if above != parent {
        return false;
    }
    if *before as u64 + 1 != *index as u64 {
        return false;
    }
    match items.list_at(left) {
        Some(level) => level.len() == count as u64,
        None => false,
    }
}

/// The element at a path is merged into the one before it, whose end is the target, and goes into a cell.
pub(crate) fn merge(
    items: &Items,
    cells: &Cells,
    right: &Path,
    target: &Position,
    number: u64,
) -> Result<Change, OpFault>
    ensures { Plans (effect items.now cells.now (merge right.now target.now number)) cells.now result }
{
    if !is_left_end(items, right, target) {
        return Err(OpFault::NotNeighbours);
    }
    let (rest, emptied) = match items.merged_at(right.as_slice()) {
        Ok(both) => both,
        Err(TreeFault::NoPlace) => return Err(OpFault::NotNeighbours),
        Err(TreeFault::NoMemory) => return Err(OpFault::NoMemory),
    };
    if !cells.is_free(number) {
        return Err(OpFault::CellState(number));
    }
    Ok(Change {
        items: rest,
        cell: Some(Filled {
            number,
            items: emptied,
        }),
    })
}

/// Nothing changes.
pub(crate) fn nothing(items: &Items) -> Result<Change, OpFault>
    ensures { (cells : List (List Item)) → Plans (Ok (items.now, cells)) cells result }
{
    match items.copy() {
        Ok(items) => Ok(Change { items, cell: None }),
        Err(_) => Err(OpFault::NoMemory),
    }
}
