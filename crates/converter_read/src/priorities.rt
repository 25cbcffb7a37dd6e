//! Readers of priorities. Each answers what the definition of its name reads, `BadField` with the place of the priority, or `NoMemory`.
ghost use Rattle.std.specs.Prelude.{◌≡◌, pos, option_and_then};
ghost use Rattle.serde_json.specs.View.{view};
ghost use Rattle.json_forms.specs.Form.{Reads};
ghost use Rattle.converter_forms.specs.PriorityForm.{level_of, priority_of, priority_field, layer_priority_field};

use ck_base::faults::FieldPath;
use ck_base::priority::Priority;
use json_forms::fault::FormFault;
use json_forms::forms::bad_field;
use serde_json::Value;

/// A whole number of the range.
fn level_of(value: &Value) -> Option<Priority>
    ensures { result ≡ level_of (view value.now) }
{
    match value.as_i64() {
        Some(level) => Priority::new(level),
        None => None,
    }
}

/// A word or a whole number of the range.
fn priority_of(value: &Value) -> Option<Priority>
    ensures { result ≡ priority_of (view value.now) }
{
    match value {
        Value::String(word) => Priority::from_word(word.as_str()),
        _ => level_of(value),
    }
}

/// The priority that the word `normal` means.
fn normal() -> Priority
    ensures { result ≡ pos 0 }
{
    match Priority::new(0) {
        Some(priority) => priority,
        None => unreachable!(),
    }
}

/// The priority of a converter.
#[tactic(auto, unfolding(converter_forms::specs::PriorityForm::priority_field))]
pub(crate) fn priority_field(path: &FieldPath, value: &Value) -> Result<Priority, FormFault>
    ensures { Reads (λ priority. priority) result (priority_field path.now (view value.now)) }
{
    let Some(found) = value.get("priority") else {
        return Ok(normal());
    };
    match priority_of(found) {
        Some(priority) => Ok(priority),
        None => Err(bad_field(path, "priority")),
    }
}

/// The priority of a layer.
#[tactic(auto, unfolding(converter_forms::specs::PriorityForm::layer_priority_field))]
pub(crate) fn layer_priority_field(path: &FieldPath, value: &Value) -> Result<i32, FormFault>
    ensures { Reads (λ level. level) result (layer_priority_field path.now (view value.now)) }
{
    let Some(found) = value.get("priority") else {
        return Ok(10);
    };
    match level_of(found) {
        Some(priority) => Ok(priority.level()),
        None => Err(bad_field(path, "priority")),
    }
}
