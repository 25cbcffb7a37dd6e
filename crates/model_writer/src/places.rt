//! The tests of an edit's places and names, and the faults that they lead to.
ghost use Rattle.std.specs.Prelude.{◌≡◌, ◌≢◌, ◌∷◌, [], ◌&&◌, IsTrue};
ghost use Rattle.item_definitions.specs.Position.{not_after};
ghost use Rattle.ck_base.specs.declared.faults.EditFault.TheVariants.{NotRegistered, BadPosition, BadRange, BadTarget, NoMemory as OutOfMemory};
ghost use Rattle.schema_definitions.specs.Allowed.{is_registered};
ghost use Rattle.edit_definitions.specs.Places.{is_there, is_range, are_in_one, is_element, is_between, is_known};
ghost use Rattle.ck_base.specs.Name.{is_generic};

use ck_base::faults::EditFault;
use ck_base::name::Name;
use ck_base::path::Path;
use model_pos::{Position, order};
use model_tree::reading::ItemRef;
use model_tree::tree::Tree;
use schema_rules::schema::Schema;

/// Whether a position is in the tree.
#[tactic(auto, using(crate::proofs::PlaceTests::there_counted, crate::proofs::PlaceTests::there_nowhere))]
pub(crate) fn is_there(tree: &Tree, at: &Position) -> bool
    ensures { result ≡ is_there tree.now at.now }
{
    let (parent, offset) = at.split();
    match tree.items().list_at(parent) {
        Some(level) => u64::from(offset) <= level.len(),
        None => false,
    }
}

/// Whether two positions are in the tree, and the first doesn't come behind the second.
pub(crate) fn is_range(tree: &Tree, start: &Position, end: &Position) -> bool
    ensures range { result ≡ is_range tree.now start.now end.now }
    ensures ordered { IsTrue result → IsTrue (not_after start.now end.now) }
{
    is_there(tree, start) && is_there(tree, end) && order(start, end).is_le()
}

/// Whether two positions have one parent.
pub(crate) fn are_in_one(start: &Position, end: &Position) -> bool
    ensures { result ≡ are_in_one start.now end.now }
{
    start.split().0 == end.split().0
}

/// Whether an element stands at a path.
#[tactic(auto, using(crate::proofs::PlaceTests::element_there, crate::proofs::PlaceTests::element_character, crate::proofs::PlaceTests::element_nowhere))]
pub(crate) fn is_element(tree: &Tree, path: &Path) -> bool
    ensures { result ≡ is_element tree.now path.now }
{
    let Some(item) = tree.item_at(path) else {
        return false;
    };
    match item {
        ItemRef::Character { .. } => false,
        ItemRef::Element { .. } => true,
    }
}

/// Whether a position is strictly between two others, or in an item between them.
pub(crate) fn is_between(start: &Position, end: &Position, position: &Position) -> bool
    ensures { result ≡ is_between start.now end.now position.now }
{
    order(position, start).is_gt() && order(end, position).is_gt()
}

/// Whether a name begins with `$`.
fn is_generic(name: &Name) -> bool
    ensures { result ≡ is_generic name.now }
{
    match name.as_str().as_bytes().split_first() {
        Some((first, _)) => *first == b'$',
        None => false,
    }
}

/// Whether a name is that of an element that may be made.
pub(crate) fn is_known(schema: &Schema, name: &Name) -> bool
    ensures { result ≡ is_known (is_registered schema.now) name.now }
{
    schema.is_registered(name) && !is_generic(name)
}

/// That no element of this name may be made.
pub(crate) fn not_registered(edit: u64, name: &Name) -> EditFault
    ensures { result ≢ OutOfMemory → result ≡ NotRegistered edit name.now }
{
    match name.copy() {
        Ok(name) => EditFault::NotRegistered { edit, name },
        Err(_) => EditFault::NoMemory,
    }
}

/// That a position isn't in the document.
pub(crate) fn bad_position(edit: u64, at: &Position) -> EditFault
    ensures { result ≡ BadPosition edit at.now }
{
    EditFault::BadPosition {
        edit,
        path: at.path().copy(),
    }
}

/// That a range isn't in the document, or the edit can't act on it.
pub(crate) fn bad_range(edit: u64, start: &Position, end: &Position) -> EditFault
    ensures { result ≡ BadRange edit start.now end.now }
{
    EditFault::BadRange {
        edit,
        start: start.path().copy(),
        end: end.path().copy(),
    }
}

/// That the edit can't act at a path.
pub(crate) fn bad_target(edit: u64, path: &Path) -> EditFault
    ensures { result ≡ BadTarget edit path.now }
{
    EditFault::BadTarget {
        edit,
        path: path.copy(),
    }
}
