//! A new element round the items of a range, and the items of an element in its place.
ghost use Rattle.std.specs.Prelude.{◌≡◌, ◌≢◌, ◌∷◌, [], ◌++◌, ◌+◌, ◌<◌, ℕ, List, Bool, false, IsTrue, Ok, length};
ghost use Rattle.item_definitions.specs.Children.{offset_of};
ghost use Rattle.item_definitions.specs.Position.{behind};
ghost use Rattle.model_ops.specs.Meant.{operation_of};
ghost use Rattle.document_definitions.specs.Selection.{same_position};
ghost use Rattle.schema_definitions.specs.Allowed.{is_registered};
ghost use Rattle.edit_definitions.specs.declared.edit.Edit.TheVariants.{Wrap, Unwrap};
ghost use Rattle.edit_definitions.specs.Places.{is_element, is_range, are_in_one};
ghost use Rattle.edit_definitions.specs.Planned.{operations_of};
ghost use Rattle.model_writer.specs.Plans.{Plans};

use crate::elements::{at_offset, count_at, place_in};
use crate::inserting::{alloc_of, empty_element, has_ids, one, out_of_memory, push};
use crate::moving::{count_in, is_same};
use crate::places::{
    are_in_one, bad_range, bad_target, is_element, is_known, is_range, not_registered,
};
use ck_base::attributes::Attrs;
use ck_base::faults::EditFault;
use ck_base::name::Name;
use ck_base::path::Path;
use model_doc::Document;
use model_ops::operation::{Operation, Place};
use model_pos::Position;
use model_tree::tree::Tree;
use schema_rules::schema::Schema;
use std::alloc::Global;

/// Two operations, one after the other.
fn two(alloc: Global, first: Operation, second: Operation) -> Result<Vec<Operation>, EditFault>
    ensures { Plans (Ok (operation_of first ∷ operation_of second ∷ [])) result }
{
    let mut operations = match one(alloc, first) {
        Ok(operations) => operations,
        Err(_) => return Err(out_of_memory(second)),
    };
    push(&mut operations, second)?;
    Ok(operations)
}

/// The position at the start of the item that is put in at the end of a range that has items.
#[tactic(auto, using(crate::proofs::Depths::end_short))]
fn start_of_new(tree: &Tree, start: &Position, end: &Position) -> Position
    requires range { IsTrue (is_range tree.now start.now end.now) }
    requires flat { IsTrue (are_in_one start.now end.now) }
    requires some { same_position start.now end.now ≡ false }
    ensures { result ≡ end.now ++ 0 ∷ [] }
{
    let items = tree.items();
    at_offset(items.allocator(), end.as_slice(), 0)
}

/// The plan of a new element round the items of a flat range.
pub(crate) fn wrap(
    document: &Document,
    schema: &Schema,
    number: u64,
    start: &Position,
    end: &Position,
    name: &Name,
    attributes: &Attrs,
) -> Result<Vec<Operation>, EditFault>
    ensures { Plans (operations_of (is_registered schema.now) number (Wrap start.now end.now name.now attributes.now) document.now.state) result }
{
    let tree = document.tree();
    if !is_known(schema, name) {
        return Err(not_registered(number, name));
    }
    if !(is_range(tree, start, end) && are_in_one(start, end)) {
        return Err(bad_range(number, start, end));
    }
    if !has_ids(document, 1) {
        return Err(EditFault::IdsSpent { edit: number });
    }
    let alloc = alloc_of(document);
    let Ok(items) = empty_element(alloc, document.next_id(), name, attributes) else {
        return Err(EditFault::NoMemory);
    };
    let element = Operation::Insert {
        at: end.copy(),
        items,
    };
    if is_same(start, end) {
        return one(alloc, element);
    }
    let run = Operation::Move {
        from: Place::Tree(start.copy()),
        count: count_in(start, end),
        to: Place::Tree(start_of_new(tree, start, end)),
    };
    two(alloc, element, run)
}

/// The position before the item at a path that isn't empty.
fn before(alloc: Global, path: &Path) -> Position
    requires { path.now ≢ [] }
    ensures { result ≡ path.now }
{
    match Position::new(alloc, path.copy()) {
        Some(position) => position,
        None => unreachable!(),
    }
}

/// The position behind the item at a path that isn't empty.
#[tactic(auto, using(crate::proofs::Depths::behind_last, item_definitions::proofs::Paths::paths))]
fn behind(alloc: Global, path: &Path) -> Position
    requires item { path.now ≢ [] }
    requires limit { offset_of path.now < 4294967295 }
    ensures { result ≡ behind path.now }
{
    match path.as_slice().split_last() {
        Some((index, parent)) => at_offset(alloc, parent, *index + 1),
        None => unreachable!(),
    }
}

/// The places before and behind an element.
#[tactic(auto, using(crate::proofs::Depths::element_some, crate::proofs::Depths::element_small))]
pub(crate) fn around(tree: &Tree, path: &Path) -> (Position, Position)
    requires { IsTrue (is_element tree.now path.now) }
    ensures before { result.0 ≡ path.now }
    ensures behind { result.1 ≡ behind path.now }
{
    let items = tree.items();
    let alloc = items.allocator();
    (before(alloc, path), behind(alloc, path))
}

/// The plan of an element whose items take its place.
pub(crate) fn unwrap(
    document: &Document,
    number: u64,
    path: &Path,
) -> Result<Vec<Operation>, EditFault>
    ensures { (registered : List ℕ → Bool) → Plans (operations_of registered number (Unwrap path.now) document.now.state) result }
{
    let tree = document.tree();
    if !is_element(tree, path) {
        return Err(bad_target(number, path));
    }
    let alloc = alloc_of(document);
    let (before, behind) = around(tree, path);
    let element = Operation::Move {
        from: Place::Tree(before),
        count: 1,
        to: Place::Cell(document.cell_count()),
    };
    let count = count_at(tree, path);
    if count == 0 {
        return one(alloc, element);
    }
    let items = Operation::Move {
        from: Place::Tree(place_in(tree, path, 0)),
        count,
        to: Place::Tree(behind),
    };
    two(alloc, items, element)
}
