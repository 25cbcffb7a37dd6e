//! The operations that an edit is made of.
ghost use Rattle.std.specs.Prelude.{◌≡◌, IfOk};
ghost use Rattle.schema_definitions.specs.Allowed.{is_registered};
ghost use Rattle.edit_definitions.specs.Planned.{operations_of};
ghost use Rattle.model_doc.specs.Conditions.{AreWelcome};
ghost use Rattle.model_writer.specs.Plans.{Plans, IsPlain, operations_in};

use crate::attributes::give_to;
use crate::elements::{merge, rename, split};
use crate::inserting::{insert_element, insert_text};
use crate::marking::{add_marker, remove_marker, update_marker};
use crate::moving::{move_range, remove};
use crate::numbering::insert_items;
use crate::wrapping::{unwrap, wrap};
use ck_base::faults::EditFault;
use edit_definitions::edit::Edit;
use model_doc::Document;
use model_ops::operation::Operation;
use schema_rules::schema::Schema;

/// The operations of an edit, which has this number in its change, or why it can't be made: its first fault in the order of `EditFault`, or
/// `NoMemory`. It is an edit of the tree or the markers.
fn planned(
    document: &Document,
    schema: &Schema,
    edit: &Edit,
    number: u64,
) -> Result<Vec<Operation>, EditFault>
    requires { IsPlain edit.now }
    ensures { Plans (operations_of (is_registered schema.now) number edit.now document.now.state) result }
{
    match edit {
        Edit::InsertText {
            at,
            text,
            attributes,
        } => insert_text(document, number, at, text, attributes),
        Edit::InsertElement {
            at,
            name,
            attributes,
        } => insert_element(document, schema, number, at, name, attributes),
        Edit::Remove { start, end } => remove(document, number, start, end),
        Edit::Move { start, end, to } => move_range(document, number, start, end, to),
        Edit::SetAttribute { target, key, value } => {
            give_to(document, number, target, key, Some(value))
        }
        Edit::RemoveAttribute { target, key } => give_to(document, number, target, key, None),
        Edit::Rename { path, name } => rename(document, schema, number, path, name),
        Edit::Split { at } => split(document, number, at),
        Edit::Merge { at } => merge(document, number, at),
        Edit::Wrap {
            start,
            end,
            name,
            attributes,
        } => wrap(document, schema, number, start, end, name, attributes),
        Edit::Unwrap { path } => unwrap(document, number, path),
        Edit::AddMarker { name, start, end } => add_marker(document, number, name, start, end),
        Edit::UpdateMarker { name, start, end } => {
            update_marker(document, number, name, start, end)
        }
        Edit::RemoveMarker { name } => remove_marker(document, number, name),
        Edit::InsertItems { at, items } => insert_items(document, schema, number, at, items),
        Edit::Select { .. } | Edit::SelectionAttribute { .. } => unreachable!(),
    }
}

/// The same, and that the operations bring new ids alone, and ranges of markers that are in the tree.
#[tactic(auto, using(crate::proofs::Welcome::planned_welcome))]
pub(crate) fn plan(
    document: &Document,
    schema: &Schema,
    edit: &Edit,
    number: u64,
) -> Result<Vec<Operation>, EditFault>
    requires { IsPlain edit.now }
    ensures plans { Plans (operations_of (is_registered schema.now) number edit.now document.now.state) result }
    ensures welcome { IfOk result (λ operations. AreWelcome (operations_in operations) document.now.state) }
{
    let _sound = document.tree();
    let operations = planned(document, schema, edit, number)?;
    Ok(operations)
}
