//! Readers of edits. Each answers what the definition of its name reads, `BadField` with the first place that breaks the form, or
//! `NoMemory`; a path leads to the edit.
ghost use Rattle.std.specs.Prelude.{◌≡◌, false, unwrap_or};
ghost use Rattle.serde_json.specs.View.{view};
ghost use Rattle.json_forms.specs.Form.{Reads};
ghost use Rattle.script_definitions.specs.Edits.{insert_text_at, insert_element_at, remove_at, move_at, range_target_at, element_target_at, target_at};
ghost use Rattle.script_definitions.specs.Edits.{set_attribute_at, remove_attribute_at, rename_at, split_at, merge_at, wrap_at, unwrap_at, add_marker_at};
ghost use Rattle.script_definitions.specs.Edits.{update_marker_at, remove_marker_at, end_or, select_at, selection_attribute_at, beside_edit_of};
ghost use Rattle.script_definitions.specs.Edits.{element_edit_of, edit_of, edit_at};

use ck_base::faults::FieldPath;
use ck_base::text::ViewText;
use edit_definitions::edit::{Edit, Target};
use json_forms::fault::FormFault;
use json_forms::forms::{bad_field, object_at, only_fields, text_field};
use json_names::names::name_field;
use json_names::values::optional_truth;
use json_values::places::{model_position_field, path_field};
use json_values::values::{attributes_field, nullable_field, value_field};
use model_pos::Position;
use serde_json::Value;
use std::alloc::Global;

/// An edit that inserts a text.
#[tactic(auto, unfolding(script_definitions::specs::Edits::insert_text_at))]
fn insert_text_at(alloc: Global, path: &FieldPath, value: &Value) -> Result<Edit, FormFault>
    ensures { Reads (λ edit. edit) result (insert_text_at path.now (view value.now)) }
{
    let at = model_position_field(alloc, path, "at", value)?;
    let text = text_field(path, "text", value)?;
    let attributes = attributes_field(alloc, path, "attributes", value)?;
    only_fields(path, &["edit", "at", "text", "attributes"], value)?;
    let text = ViewText::read(alloc, text)?;
    Ok(Edit::InsertText {
        at,
        text,
        attributes,
    })
}

/// An edit that inserts an element.
#[tactic(auto, unfolding(script_definitions::specs::Edits::insert_element_at))]
fn insert_element_at(alloc: Global, path: &FieldPath, value: &Value) -> Result<Edit, FormFault>
    ensures { Reads (λ edit. edit) result (insert_element_at path.now (view value.now)) }
{
    let at = model_position_field(alloc, path, "at", value)?;
    let name = name_field(alloc, path, "name", value)?;
    let attributes = attributes_field(alloc, path, "attributes", value)?;
    only_fields(path, &["edit", "at", "name", "attributes"], value)?;
    Ok(Edit::InsertElement {
        at,
        name,
        attributes,
    })
}

/// An edit that removes the items of a range.
#[tactic(auto, unfolding(script_definitions::specs::Edits::remove_at))]
fn remove_at(alloc: Global, path: &FieldPath, value: &Value) -> Result<Edit, FormFault>
    ensures { Reads (λ edit. edit) result (remove_at path.now (view value.now)) }
{
    let start = model_position_field(alloc, path, "start", value)?;
    let end = model_position_field(alloc, path, "end", value)?;
    only_fields(path, &["edit", "start", "end"], value)?;
    Ok(Edit::Remove { start, end })
}

/// An edit that moves the items of a range.
#[tactic(auto, unfolding(script_definitions::specs::Edits::move_at))]
fn move_at(alloc: Global, path: &FieldPath, value: &Value) -> Result<Edit, FormFault>
    ensures { Reads (λ edit. edit) result (move_at path.now (view value.now)) }
{
    let start = model_position_field(alloc, path, "start", value)?;
    let end = model_position_field(alloc, path, "end", value)?;
    let to = model_position_field(alloc, path, "to", value)?;
    only_fields(path, &["edit", "start", "end", "to"], value)?;
    Ok(Edit::Move { start, end, to })
}

/// The ends of a range.
#[tactic(auto, unfolding(script_definitions::specs::Edits::range_target_at))]
fn range_target_at(alloc: Global, path: &FieldPath, value: &Value) -> Result<Target, FormFault>
    ensures { Reads (λ target. target) result (range_target_at path.now (view value.now)) }
{
    let start = model_position_field(alloc, path, "start", value)?;
    let end = model_position_field(alloc, path, "end", value)?;
    Ok(Target::Range { start, end })
}

/// The path of an element, beside which no end of a range may stand.
#[tactic(auto, unfolding(script_definitions::specs::Edits::element_target_at))]
fn element_target_at(alloc: Global, path: &FieldPath, value: &Value) -> Result<Target, FormFault>
    ensures { Reads (λ target. target) result (element_target_at path.now (view value.now)) }
{
    if value.get("start").is_some() || value.get("end").is_some() {
        return Err(bad_field(path, "path"));
    }
    let element = path_field(alloc, path, "path", value)?;
    Ok(Target::Element(element))
}

/// An element by its path where that is there, else a range by its ends.
#[tactic(auto, unfolding(script_definitions::specs::Edits::target_at))]
fn target_at(alloc: Global, path: &FieldPath, value: &Value) -> Result<Target, FormFault>
    ensures { Reads (λ target. target) result (target_at path.now (view value.now)) }
{
    if value.get("path").is_some() {
        return element_target_at(alloc, path, value);
    }
    range_target_at(alloc, path, value)
}

/// An edit that gives items a value of a key.
#[tactic(auto, unfolding(script_definitions::specs::Edits::set_attribute_at))]
fn set_attribute_at(alloc: Global, path: &FieldPath, value: &Value) -> Result<Edit, FormFault>
    ensures { Reads (λ edit. edit) result (set_attribute_at path.now (view value.now)) }
{
    let target = target_at(alloc, path, value)?;
    let key = name_field(alloc, path, "key", value)?;
    let found = value_field(alloc, path, "value", value)?;
    only_fields(
        path,
        &["edit", "start", "end", "path", "key", "value"],
        value,
    )?;
    Ok(Edit::SetAttribute {
        target,
        key,
        value: found,
    })
}

/// An edit that takes a value of a key away from items.
#[tactic(auto, unfolding(script_definitions::specs::Edits::remove_attribute_at))]
fn remove_attribute_at(alloc: Global, path: &FieldPath, value: &Value) -> Result<Edit, FormFault>
    ensures { Reads (λ edit. edit) result (remove_attribute_at path.now (view value.now)) }
{
    let target = target_at(alloc, path, value)?;
    let key = name_field(alloc, path, "key", value)?;
    only_fields(path, &["edit", "start", "end", "path", "key"], value)?;
    Ok(Edit::RemoveAttribute { target, key })
}

/// An edit that gives an element another name.
#[tactic(auto, unfolding(script_definitions::specs::Edits::rename_at))]
fn rename_at(alloc: Global, path: &FieldPath, value: &Value) -> Result<Edit, FormFault>
    ensures { Reads (λ edit. edit) result (rename_at path.now (view value.now)) }
{
    let element = path_field(alloc, path, "path", value)?;
    let name = name_field(alloc, path, "name", value)?;
    only_fields(path, &["edit", "path", "name"], value)?;
    Ok(Edit::Rename {
        path: element,
        name,
    })
}

/// An edit that splits an element.
#[tactic(auto, unfolding(script_definitions::specs::Edits::split_at))]
fn split_at(alloc: Global, path: &FieldPath, value: &Value) -> Result<Edit, FormFault>
    ensures { Reads (λ edit. edit) result (split_at path.now (view value.now)) }
{
    let at = model_position_field(alloc, path, "at", value)?;
    only_fields(path, &["edit", "at"], value)?;
    Ok(Edit::Split { at })
}

/// An edit that merges an element into the one before it.
#[tactic(auto, unfolding(script_definitions::specs::Edits::merge_at))]
fn merge_at(alloc: Global, path: &FieldPath, value: &Value) -> Result<Edit, FormFault>
    ensures { Reads (λ edit. edit) result (merge_at path.now (view value.now)) }
{
    let at = model_position_field(alloc, path, "at", value)?;
    only_fields(path, &["edit", "at"], value)?;
    Ok(Edit::Merge { at })
}

/// An edit that puts the items of a range into a new element.
#[tactic(auto, unfolding(script_definitions::specs::Edits::wrap_at))]
fn wrap_at(alloc: Global, path: &FieldPath, value: &Value) -> Result<Edit, FormFault>
    ensures { Reads (λ edit. edit) result (wrap_at path.now (view value.now)) }
{
    let start = model_position_field(alloc, path, "start", value)?;
    let end = model_position_field(alloc, path, "end", value)?;
    let name = name_field(alloc, path, "name", value)?;
    let attributes = attributes_field(alloc, path, "attributes", value)?;
    only_fields(path, &["edit", "start", "end", "name", "attributes"], value)?;
    Ok(Edit::Wrap {
        start,
        end,
        name,
        attributes,
    })
}

/// An edit that puts the items of an element in its place.
#[tactic(auto, unfolding(script_definitions::specs::Edits::unwrap_at))]
fn unwrap_at(alloc: Global, path: &FieldPath, value: &Value) -> Result<Edit, FormFault>
    ensures { Reads (λ edit. edit) result (unwrap_at path.now (view value.now)) }
{
    let element = path_field(alloc, path, "path", value)?;
    only_fields(path, &["edit", "path"], value)?;
    Ok(Edit::Unwrap { path: element })
}

/// An edit that adds a marker.
#[tactic(auto, unfolding(script_definitions::specs::Edits::add_marker_at))]
fn add_marker_at(alloc: Global, path: &FieldPath, value: &Value) -> Result<Edit, FormFault>
    ensures { Reads (λ edit. edit) result (add_marker_at path.now (view value.now)) }
{
    let name = name_field(alloc, path, "name", value)?;
    let start = model_position_field(alloc, path, "start", value)?;
    let end = model_position_field(alloc, path, "end", value)?;
    only_fields(path, &["edit", "name", "start", "end"], value)?;
    Ok(Edit::AddMarker { name, start, end })
}

/// An edit that gives a marker another range.
#[tactic(auto, unfolding(script_definitions::specs::Edits::update_marker_at))]
fn update_marker_at(alloc: Global, path: &FieldPath, value: &Value) -> Result<Edit, FormFault>
    ensures { Reads (λ edit. edit) result (update_marker_at path.now (view value.now)) }
{
    let name = name_field(alloc, path, "name", value)?;
    let start = model_position_field(alloc, path, "start", value)?;
    let end = model_position_field(alloc, path, "end", value)?;
    only_fields(path, &["edit", "name", "start", "end"], value)?;
    Ok(Edit::UpdateMarker { name, start, end })
}

/// An edit that takes a marker away.
#[tactic(auto, unfolding(script_definitions::specs::Edits::remove_marker_at))]
fn remove_marker_at(alloc: Global, path: &FieldPath, value: &Value) -> Result<Edit, FormFault>
    ensures { Reads (λ edit. edit) result (remove_marker_at path.now (view value.now)) }
{
    let name = name_field(alloc, path, "name", value)?;
    only_fields(path, &["edit", "name"], value)?;
    Ok(Edit::RemoveMarker { name })
}

/// The end of a selection: where it isn't there, the start.
#[tactic(auto, unfolding(script_definitions::specs::Edits::end_or))]
fn end_or(
    alloc: Global,
    path: &FieldPath,
    start: &Position,
    value: &Value,
) -> Result<Position, FormFault>
    ensures { Reads (λ end. end) result (end_or path.now start.now (view value.now)) }
{
    if value.get("end").is_some() {
        return model_position_field(alloc, path, "end", value);
    }
    Ok(start.copy())
}

/// An edit that selects a range.
#[tactic(auto, unfolding(script_definitions::specs::Edits::select_at))]
fn select_at(alloc: Global, path: &FieldPath, value: &Value) -> Result<Edit, FormFault>
    ensures { Reads (λ edit. edit) result (select_at path.now (view value.now)) }
{
    let start = model_position_field(alloc, path, "start", value)?;
    let end = end_or(alloc, path, &start, value)?;
    let backward = optional_truth(path, "backward", value)?;
    only_fields(path, &["edit", "start", "end", "backward"], value)?;
    Ok(Edit::Select {
        start,
        end,
        backward: backward.unwrap_or(false),
    })
}

/// An edit that overrides an attribute of the selection.
#[tactic(auto, unfolding(script_definitions::specs::Edits::selection_attribute_at))]
fn selection_attribute_at(alloc: Global, path: &FieldPath, value: &Value) -> Result<Edit, FormFault>
    ensures { Reads (λ edit. edit) result (selection_attribute_at path.now (view value.now)) }
{
    let key = name_field(alloc, path, "key", value)?;
    let found = nullable_field(alloc, path, "value", value)?;
    only_fields(path, &["edit", "key", "value"], value)?;
    Ok(Edit::SelectionAttribute { key, value: found })
}

/// An edit of a marker or of the selection, by its name.
#[tactic(auto, unfolding(script_definitions::specs::Edits::beside_edit_of))]
fn beside_edit_of(
    alloc: Global,
    kind: &str,
    path: &FieldPath,
    value: &Value,
) -> Result<Edit, FormFault>
    ensures { Reads (λ edit. edit) result (beside_edit_of kind.now path.now (view value.now)) }
{
    match kind {
        "addMarker" => add_marker_at(alloc, path, value),
        "updateMarker" => update_marker_at(alloc, path, value),
        "removeMarker" => remove_marker_at(alloc, path, value),
        "select" => select_at(alloc, path, value),
        "selectionAttribute" => selection_attribute_at(alloc, path, value),
        _ => Err(bad_field(path, "edit")),
    }
}

/// An edit of an element, or one of those above.
#[tactic(auto, unfolding(script_definitions::specs::Edits::element_edit_of))]
fn element_edit_of(
    alloc: Global,
    kind: &str,
    path: &FieldPath,
    value: &Value,
) -> Result<Edit, FormFault>
    ensures { Reads (λ edit. edit) result (element_edit_of kind.now path.now (view value.now)) }
{
    match kind {
        "rename" => rename_at(alloc, path, value),
        "split" => split_at(alloc, path, value),
        "merge" => merge_at(alloc, path, value),
        "wrap" => wrap_at(alloc, path, value),
        "unwrap" => unwrap_at(alloc, path, value),
        _ => beside_edit_of(alloc, kind, path, value),
    }
}

/// An edit by its name.
#[tactic(auto, unfolding(script_definitions::specs::Edits::edit_of))]
fn edit_of(alloc: Global, kind: &str, path: &FieldPath, value: &Value) -> Result<Edit, FormFault>
    ensures { Reads (λ edit. edit) result (edit_of kind.now path.now (view value.now)) }
{
    match kind {
        "insertText" => insert_text_at(alloc, path, value),
        "insertElement" => insert_element_at(alloc, path, value),
        "remove" => remove_at(alloc, path, value),
        "move" => move_at(alloc, path, value),
        "setAttribute" => set_attribute_at(alloc, path, value),
        "removeAttribute" => remove_attribute_at(alloc, path, value),
        _ => element_edit_of(alloc, kind, path, value),
    }
}

/// An edit at this place.
#[tactic(auto, unfolding(script_definitions::specs::Edits::edit_at))]
pub(crate) fn edit_at(alloc: Global, path: &FieldPath, value: &Value) -> Result<Edit, FormFault>
    ensures { Reads (λ edit. edit) result (edit_at path.now (view value.now)) }
{
    object_at(path, value)?;
    let kind = text_field(path, "edit", value)?;
    edit_of(alloc, kind, path, value)
}
