//! Edits of markers.
ghost use Rattle.std.specs.Prelude.{◌≡◌, ◌≢◌, ◌∷◌, [], ℕ, List, Bool, Ok, Some, None, IsTrue};
ghost use Rattle.ck_base.specs.declared.faults.EditFault.TheVariants.{MarkerExists, MarkerUnknown, NoMemory as OutOfMemory};
ghost use Rattle.item_definitions.specs.Position.{between, not_after};
ghost use Rattle.operation_definitions.specs.Operation as meant;
ghost use Rattle.document_definitions.specs.Selection.{same_range};
ghost use Rattle.edit_definitions.specs.declared.edit.Edit.TheVariants.{AddMarker, UpdateMarker, RemoveMarker};
ghost use Rattle.edit_definitions.specs.Planned.{operations_of};
ghost use Rattle.model_writer.specs.Plans.{Plans};

use crate::inserting::{alloc_of, one};
use crate::moving::is_same;
use crate::places::{bad_range, is_range};
use ck_base::faults::EditFault;
use ck_base::name::Name;
use model_doc::Document;
use model_ops::operation::Operation;
use model_pos::{Position, Range};
use std::alloc::Global;

/// A marker gets another range.
fn marked(
    alloc: Global,
    name: &Name,
    old: Option<Range>,
    new: Option<Range>,
) -> Result<Vec<Operation>, EditFault>
    ensures { Plans (Ok (meant.marker name.now old new ∷ [])) result }
{
    match name.copy() {
        Ok(name) => one(alloc, Operation::Marker { name, old, new }),
        Err(_) => Err(EditFault::NoMemory),
    }
}

/// That a marker of this name is there already.
fn marker_exists(edit: u64, name: &Name) -> EditFault
    ensures { result ≢ OutOfMemory → result ≡ MarkerExists edit name.now }
{
    match name.copy() {
        Ok(name) => EditFault::MarkerExists { edit, name },
        Err(_) => EditFault::NoMemory,
    }
}

/// That no marker has this name.
fn marker_unknown(edit: u64, name: &Name) -> EditFault
    ensures { result ≢ OutOfMemory → result ≡ MarkerUnknown edit name.now }
{
    match name.copy() {
        Ok(name) => EditFault::MarkerUnknown { edit, name },
        Err(_) => EditFault::NoMemory,
    }
}

/// The range between two positions of the tree.
fn range_of(start: &Position, end: &Position) -> Range
    requires { IsTrue (not_after start.now end.now) }
    ensures { result ≡ between start.now end.now }
{
    Range::new(start.copy(), end.copy())
}

/// Whether two ranges are one.
fn is_same_range(range: &Range, start: &Position, end: &Position) -> bool
    ensures { result ≡ same_range range.now (between start.now end.now) }
{
    is_same(range.start(), start) && is_same(range.end(), end)
}

/// The plan of a new marker.
pub(crate) fn add_marker(
    document: &Document,
    number: u64,
    name: &Name,
    start: &Position,
    end: &Position,
) -> Result<Vec<Operation>, EditFault>
    ensures { (registered : List ℕ → Bool) → Plans (operations_of registered number (AddMarker name.now start.now end.now) document.now.state) result }
{
    if !is_range(document.tree(), start, end) {
        return Err(bad_range(number, start, end));
    }
    match document.markers().get(name) {
        Some(_) => Err(marker_exists(number, name)),
        None => marked(alloc_of(document), name, None, Some(range_of(start, end))),
    }
}

/// The plan of a marker that gets another range.
pub(crate) fn update_marker(
    document: &Document,
    number: u64,
    name: &Name,
    start: &Position,
    end: &Position,
) -> Result<Vec<Operation>, EditFault>
    ensures { (registered : List ℕ → Bool) → Plans (operations_of registered number (UpdateMarker name.now start.now end.now) document.now.state) result }
{
    if !is_range(document.tree(), start, end) {
        return Err(bad_range(number, start, end));
    }
    let alloc = alloc_of(document);
    let Some(old) = document.markers().get(name) else {
        return Err(marker_unknown(number, name));
    };
    if is_same_range(old, start, end) {
        return Ok(Vec::new(alloc));
    }
    marked(alloc, name, Some(old.copy()), Some(range_of(start, end)))
}

/// The plan of a marker that goes.
pub(crate) fn remove_marker(
    document: &Document,
    number: u64,
    name: &Name,
) -> Result<Vec<Operation>, EditFault>
    ensures { (registered : List ℕ → Bool) → Plans (operations_of registered number (RemoveMarker name.now) document.now.state) result }
{
    match document.markers().get(name) {
        Some(old) => marked(alloc_of(document), name, Some(old.copy()), None),
        None => Err(marker_unknown(number, name)),
    }
}
