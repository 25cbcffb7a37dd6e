//! Readers of positions and paths.
ghost use Rattle.std.specs.Prelude.{◌≡◌, option_and_then};
ghost use Rattle.serde_json.specs.Find.{get, as_array};
ghost use Rattle.serde_json.specs.View.{view};
ghost use Rattle.json_forms.specs.Form.{Reads, position_field};
ghost use Rattle.json_values.specs.Values.{is_empty_list, path_field};

use ck_base::faults::FieldPath;
use ck_base::path::Path;
use json_forms::fault::FormFault;
use json_forms::forms::{bad_field, position_field};
use model_pos::Position;
use serde_json::Value;
use std::alloc::Global;

/// A field that is a position.
#[tactic(auto, using(crate::proofs::Positions::position_some))]
pub fn model_position_field(
    alloc: Global,
    path: &FieldPath,
    name: &str,
    value: &Value,
) -> Result<Position, FormFault>
    ensures { Reads (λ position. position) result (position_field path.now name.now (view value.now)) }
{
    let numbers = position_field(path, name, value)?;
    match Position::new(alloc, numbers) {
        Some(position) => Ok(position),
        None => Err(bad_field(path, name)),
    }
}

/// A field that is a path: a list of at most 65 numbers from 0 to 4294967295.
#[tactic(auto, unfolding(crate::specs::Values::path_field))]
pub fn path_field(
    alloc: Global,
    path: &FieldPath,
    name: &str,
    value: &Value,
) -> Result<Path, FormFault>
    ensures { Reads (λ path. path) result (path_field path.now name.now (view value.now)) }
{
    if is_empty_list(name, value) {
        return Ok(Path::new(alloc));
    }
    position_field(path, name, value)
}

/// Whether a field is a list without members.
#[tactic(auto, using(crate::proofs::Positions::empty_view, crate::proofs::Positions::full_view))]
fn is_empty_list(name: &str, value: &Value) -> bool
    ensures { result ≡ is_empty_list (option_and_then as_array (get name.now (view value.now))) }
{
    match value.get(name).and_then(Value::as_array) {
        Some(items) => items.is_empty(),
        None => false,
    }
}
