//! From a script line to the request that it makes.
ghost use Rattle.std.specs.Prelude.{◌≡◌, Some};
ghost use Rattle.serde_json.specs.View.{view, items_view};
ghost use Rattle.json_forms.specs.Form.{Reads};
ghost use Rattle.script_definitions.specs.Edits.{edits_at};
ghost use Rattle.script_definitions.specs.Places.{numbers_at, place_of, place_field};
ghost use Rattle.script_definitions.specs.Request.{change_of, select_view_of, show_of, form_of, request_of};

use crate::edits::edit_at;
use ck_base::faults::FieldPath;
use edit_definitions::edit::Edit;
use json_forms::fault::FormFault;
use json_forms::forms::{bad_field, json_of, object_at, only_fields, text_field};
use json_names::values::optional_truth;
use script_definitions::request::{Edits, Request};
use serde_json::Value;
use std::alloc::Global;
use view_tree::path::{ViewPath, ViewPlace};

/// The edits of a list.
#[tactic(auto, using(json_names::proofs::Fronts::with_front_more), unfolding(script_definitions::specs::Edits::edits_at))]
fn edits_at(alloc: Global, path: &FieldPath, items: &Vec<Value>) -> Result<Vec<Edit>, FormFault>
    ensures { Reads (λ edits. edits.items) result (edits_at path.now 0 (items_view items.now.items)) }
{
    let mut edits = Vec::with_capacity(alloc, items.len())?;
    for (index, item) in items.iter().enumerate() {
        let place = path.index(index)?;
        edits.push(edit_at(alloc, &place, item)?)?;
    }
    Ok(edits)
}

/// A change, which may have no edit.
#[tactic(auto, unfolding(script_definitions::specs::Request::change_of))]
fn change_of(alloc: Global, value: &Value) -> Result<Request, FormFault>
    ensures { Reads (λ request. request) result (change_of (view value.now)) }
{
    let root = FieldPath::new(alloc);
    let Some(items) = value.get("edits").and_then(Value::as_array) else {
        return Err(bad_field(&root, "edits"));
    };
    let path = root.field("edits")?;
    let edits = edits_at(alloc, &path, items)?;
    only_fields(&root, &["do", "edits"], value)?;
    Ok(Request::Change(Edits::new(edits)))
}

/// The numbers of a list, of 64 bits each.
#[tactic(auto, using(json_forms::proofs::Offsets::with_front_more), unfolding(script_definitions::specs::Places::numbers_at))]
fn numbers_at(alloc: Global, path: &FieldPath, items: &Vec<Value>) -> Result<Vec<u64>, FormFault>
    ensures { Reads (λ numbers. numbers.items) result (numbers_at path.now 0 (items_view items.now.items)) }
{
    let mut numbers = Vec::with_capacity(alloc, items.len())?;
    for (index, item) in items.iter().enumerate() {
        match item.as_u64() {
            Some(number) => numbers.push(number)?,
            None => {
                return Err(FormFault::BadField {
                    path: path.index(index)?,
                });
            }
        }
    }
    Ok(numbers)
}

/// The place of these numbers: the last is its offset. None exactly where there is no number.
#[tactic(auto, using(crate::proofs::Ends::place_last, crate::proofs::Ends::place_nowhere))]
fn place_of(numbers: Vec<u64>) -> Option<ViewPlace>
    ensures { result ≡ place_of numbers.items }
{
    let mut numbers = numbers;
    match numbers.pop() {
        Some(offset) => Some(ViewPlace {
            path: ViewPath::new(numbers),
            offset,
        }),
        None => None,
    }
}

/// A field that is a place of the view.
#[tactic(auto, unfolding(script_definitions::specs::Places::place_field))]
fn place_field(
    alloc: Global,
    path: &FieldPath,
    name: &str,
    value: &Value,
) -> Result<ViewPlace, FormFault>
    ensures { Reads (λ place. place) result (place_field path.now name.now (view value.now)) }
{
    let Some(items) = value.get(name).and_then(Value::as_array) else {
        return Err(bad_field(path, name));
    };
    let at = path.field(name)?;
    let numbers = numbers_at(alloc, &at, items)?;
    match place_of(numbers) {
        Some(place) => Ok(place),
        None => Err(bad_field(path, name)),
    }
}

/// A selection by two places of the view.
#[tactic(auto, unfolding(script_definitions::specs::Request::select_view_of))]
fn select_view_of(alloc: Global, value: &Value) -> Result<Request, FormFault>
    ensures { Reads (λ request. request) result (select_view_of (view value.now)) }
{
    let root = FieldPath::new(alloc);
    let anchor = place_field(alloc, &root, "anchor", value)?;
    let focus = place_field(alloc, &root, "focus", value)?;
    only_fields(&root, &["do", "anchor", "focus"], value)?;
    Ok(Request::SelectView { anchor, focus })
}

/// A show, with the selection or without: with it where the field isn't there.
#[tactic(auto, unfolding(script_definitions::specs::Request::show_of))]
fn show_of(alloc: Global, value: &Value) -> Result<Request, FormFault>
    ensures { Reads (λ request. request) result (show_of (view value.now)) }
{
    let root = FieldPath::new(alloc);
    let selection = optional_truth(&root, "selection", value)?;
    only_fields(&root, &["do", "selection"], value)?;
    Ok(Request::Show {
        selection: selection.unwrap_or(true),
    })
}

/// The request of the form that the field `do` names.
#[tactic(auto, unfolding(script_definitions::specs::Request::form_of))]
fn form_of(alloc: Global, kind: &str, value: &Value) -> Result<Request, FormFault>
    ensures { Reads (λ request. request) result (form_of kind.now (view value.now)) }
{
    match kind {
        "change" => change_of(alloc, value),
        "selectView" => select_view_of(alloc, value),
        "show" => show_of(alloc, value),
        _ => Err(bad_field(&FieldPath::new(alloc), "do")),
    }
}

/// The request of a script line. It answers `NotJson` where the line has no JSON value, `BadField` with the first place that breaks the
/// form of a request, and `NoMemory`.
#[tactic(auto, unfolding(script_definitions::specs::Request::request_of))]
pub fn read_request(alloc: Global, line: &[u8]) -> Result<Request, FormFault>
    ensures { Reads (λ request. request) result (request_of line.now) }
{
    let value = json_of(alloc, line)?;
    let root = FieldPath::new(alloc);
    object_at(&root, &value)?;
    let kind = text_field(&root, "do", &value)?;
    form_of(alloc, kind, &value)
}
