//! Readers of truth values and counts. Each answers what the definition of its name reads, `BadField` with the first place that
//! breaks the form, or `NoMemory`; a path leads to the value that is read.
ghost use Rattle.std.specs.Prelude.{◌≡◌, ◌≤◌, IfOk, IfSome};
ghost use Rattle.serde_json.specs.View.{view};
ghost use Rattle.json_forms.specs.Form.{Reads};
ghost use Rattle.json_names.specs.Names.{truth_field, optional_truth, count_field, optional_count};

use ck_base::faults::FieldPath;
use json_forms::fault::FormFault;
use json_forms::forms::bad_field;
use serde_json::Value;

/// A field that is a truth value.
#[tactic(auto, unfolding(crate::specs::Names::truth_field))]
pub fn truth_field(path: &FieldPath, name: &str, value: &Value) -> Result<bool, FormFault>
    ensures { Reads (λ truth. truth) result (truth_field path.now name.now (view value.now)) }
{
    match value.get(name).and_then(Value::as_bool) {
        Some(truth) => Ok(truth),
        None => Err(bad_field(path, name)),
    }
}

/// A field that may be there, and is a truth value.
#[tactic(auto, unfolding(crate::specs::Names::optional_truth))]
pub fn optional_truth(
    path: &FieldPath,
    name: &str,
    value: &Value,
) -> Result<Option<bool>, FormFault>
    ensures { Reads (λ truth. truth) result (optional_truth path.now name.now (view value.now)) }
{
    let Some(found) = value.get(name) else {
        return Ok(None);
    };
    match found.as_bool() {
        Some(truth) => Ok(Some(truth)),
        None => Err(bad_field(path, name)),
    }
}

/// A field that is a whole number between two bounds.
#[tactic(auto, unfolding(crate::specs::Names::count_field))]
pub fn count_field(
    path: &FieldPath,
    name: &str,
    least: u64,
    most: u64,
    value: &Value,
) -> Result<u64, FormFault>
    ensures reads { Reads (λ count. count) result (count_field path.now name.now least most (view value.now)) }
    ensures bounded { IfOk result (λ count. count ≤ most) }
{
    match value.get(name).and_then(Value::as_u64) {
        Some(count) if least <= count && count <= most => Ok(count),
        _ => Err(bad_field(path, name)),
    }
}

/// A field that may be there, and is a whole number between two bounds.
#[tactic(auto, unfolding(crate::specs::Names::optional_count))]
pub fn optional_count(
    path: &FieldPath,
    name: &str,
    least: u64,
    most: u64,
    value: &Value,
) -> Result<Option<u64>, FormFault>
    ensures reads { Reads (λ count. count) result (optional_count path.now name.now least most (view value.now)) }
    ensures bounded { IfOk result (λ count. IfSome count (λ number. number ≤ most)) }
{
    let Some(found) = value.get(name) else {
        return Ok(None);
    };
    match found.as_u64() {
        Some(count) if least <= count && count <= most => Ok(Some(count)),
        _ => Err(bad_field(path, name)),
    }
}
