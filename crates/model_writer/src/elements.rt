//! Edits of one element: its name, a split of it, and a merge with the one before it.
ghost use Rattle.std.specs.Prelude.{◌≡◌, ◌∷◌, [], ◌++◌, ◌<◌, ℕ, List, Bool, IsTrue, Ok, unwrap_or, length};
ghost use Rattle.item_definitions.specs.Children.{child_count};
ghost use Rattle.operation_definitions.specs.Operation as meant;
ghost use Rattle.schema_definitions.specs.Allowed.{is_registered};
ghost use Rattle.edit_definitions.specs.declared.edit.Edit.TheVariants.{Rename, Split, Merge};
ghost use Rattle.edit_definitions.specs.Places.{is_element};
ghost use Rattle.item_definitions.specs.Position.{path_before};
ghost use Rattle.edit_definitions.specs.Planned.{operations_of, renaming};
ghost use Rattle.model_writer.specs.Plans.{Plans};

use crate::inserting::{alloc_of, has_ids, one};
use crate::places::{bad_position, bad_target, is_element, is_known, is_there, not_registered};
use ck_base::faults::EditFault;
use ck_base::name::Name;
use ck_base::path::Path;
use model_doc::Document;
use model_ops::operation::{Operation, Source};
use model_pos::Position;
use model_tree::id::ElementId;
use model_tree::reading::ItemRef;
use model_tree::tree::Tree;
use schema_rules::schema::Schema;
use std::alloc::Global;

/// The element at a path gets another name.
#[tactic(auto, using(crate::proofs::Named::other_name, crate::proofs::Named::same_name))]
fn renaming(alloc: Global, path: &Path, old: &Name, new: &Name) -> Result<Vec<Operation>, EditFault>
    ensures { Plans (Ok (renaming path.now old.now new.now)) result }
{
    if *old == *new {
        return Ok(Vec::new(alloc));
    }
    match (old.copy(), new.copy()) {
        (Ok(old), Ok(new)) => one(
            alloc,
            Operation::Rename {
                path: path.copy(),
                old,
                new,
            },
        ),
        _ => Err(EditFault::NoMemory),
    }
}

/// The plan of an element that gets another name.
#[tactic(auto, using(crate::proofs::Named::name_there, crate::proofs::Named::name_character, crate::proofs::Named::name_nowhere))]
pub(crate) fn rename(
    document: &Document,
    schema: &Schema,
    number: u64,
    path: &Path,
    name: &Name,
) -> Result<Vec<Operation>, EditFault>
    ensures { Plans (operations_of (is_registered schema.now) number (Rename path.now name.now) document.now.state) result }
{
    if !is_known(schema, name) {
        return Err(not_registered(number, name));
    }
    let Some(item) = document.tree().item_at(path) else {
        return Err(bad_target(number, path));
    };
    match item {
        ItemRef::Character { .. } => Err(bad_target(number, path)),
        ItemRef::Element { name: old, .. } => renaming(alloc_of(document), path, old, name),
    }
}

/// The plan of an element that is split.
pub(crate) fn split(
    document: &Document,
    number: u64,
    at: &Position,
) -> Result<Vec<Operation>, EditFault>
    ensures { (registered : List ℕ → Bool) → Plans (operations_of registered number (Split at.now) document.now.state) result }
{
    if !is_there(document.tree(), at) {
        return Err(bad_position(number, at));
    }
    if at.as_slice().len() < 2 {
        return Err(bad_target(number, at.path()));
    }
    if !has_ids(document, 1) {
        return Err(EditFault::IdsSpent { edit: number });
    }
    let id = ElementId::new(document.next_id());
    one(
        alloc_of(document),
        Operation::Split {
            at: at.copy(),
            source: Source::Fresh(id),
        },
    )
}

/// The path of the item directly before a position, or, at the start of a parent, of the first item there.
#[tactic(auto, using(item_definitions::proofs::Paths::paths))]
fn path_before(position: &Position) -> Path
    ensures { result ≡ path_before position.now }
{
    let mut path = position.parent();
    path.push(position.offset().saturating_sub(1));
    path
}

/// The position at an offset behind these numbers.
pub(crate) fn at_offset(alloc: Global, parent: &[u32], offset: u32) -> Position
    requires { length parent.now < 65 }
    ensures { result ≡ parent.now ++ offset ∷ [] }
{
    let Some(mut place) = Path::from_slice(alloc, parent) else {
        unreachable!();
    };
    place.push(offset);
    match Position::new(alloc, place) {
        Some(position) => position,
        None => unreachable!(),
    }
}

/// The position at an offset in the element at a path.
#[tactic(auto, using(crate::proofs::Depths::element_short))]
pub(crate) fn place_in(tree: &Tree, path: &Path, offset: u32) -> Position
    requires { IsTrue (is_element tree.now path.now) }
    ensures { result ≡ path.now ++ offset ∷ [] }
{
    let items = tree.items();
    at_offset(items.allocator(), path.as_slice(), offset)
}

/// How many items the element at a path has: none where no element stands there.
pub(crate) fn count_at(tree: &Tree, path: &Path) -> u32
    ensures { result ≡ unwrap_or (child_count tree.now path.now) 0 }
{
    tree.child_count(path).unwrap_or(0)
}

/// The plan of an element that is merged into the one before it.
pub(crate) fn merge(
    document: &Document,
    number: u64,
    at: &Position,
) -> Result<Vec<Operation>, EditFault>
    ensures { (registered : List ℕ → Bool) → Plans (operations_of registered number (Merge at.now) document.now.state) result }
{
    let tree = document.tree();
    if !is_there(tree, at) {
        return Err(bad_position(number, at));
    }
    let alloc = alloc_of(document);
    let before = path_before(at);
    if !(0 < at.offset() && is_element(tree, &before) && is_element(tree, at.path())) {
        return Err(bad_target(number, at.path()));
    }
    let target = place_in(tree, &before, count_at(tree, &before));
    one(
        alloc,
        Operation::Merge {
            right: at.path().copy(),
            target,
            cell: document.cell_count(),
        },
    )
}
