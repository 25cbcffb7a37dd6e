//! Readers of the parts of a form. Each answers what the definition of its name reads, `BadField` with the first place that breaks
//! the form, or `NoMemory`; a path leads to the value that is read.
ghost use Rattle.std.specs.Prelude.{◌≡◌, ◌≢◌, Option, Some, None, map, string_bytes, option_map, option_and_then};
ghost use Rattle.std.specs.Option.{option_copied};
ghost use Rattle.std.specs.List.{find};
ghost use Rattle.std.specs.BTreeMap.{keys};
ghost use Rattle.serde_json.specs.Data.{Data};
ghost use Rattle.serde_json.specs.Find.{get, as_array};
ghost use Rattle.serde_json.specs.View.{view, items_view, members_view};
ghost use Rattle.json_forms.specs.Form.{Reads, json_of, object_at, text_field, offsets_at, position_length_at, position_field, first_other, only_fields};
ghost use Rattle.json_forms.specs.Form.{word_field, field_path, index_path};
ghost use Rattle.json_forms.specs.OtherFields.{is_other};

use crate::fault::FormFault;
use ck_base::faults::FieldPath;
use ck_base::path::Path;
use serde_json::{Map, Value};
use std::alloc::Global;

/// The JSON value of a line: `NotJson` where the line is not UTF-8, has no JSON value or nests deeper than 127.
#[tactic(auto, using(crate::proofs::Json::json_found, crate::proofs::Json::json_absent))]
pub fn json_of(alloc: Global, line: &[u8]) -> Result<Value, FormFault>
    ensures { Reads view result (json_of line.now) }
{
    match Value::from_slice(alloc, line) {
        Ok(value) => Ok(value),
        Err(fault) if fault.is_memory() => Err(FormFault::NoMemory),
        Err(_) => Err(FormFault::NotJson),
    }
}

/// The fault of a whole value: `BadField` with its path, or `NoMemory`.
pub fn bad_value(path: &FieldPath) -> FormFault
    ensures { result ≢ FormFault.NoMemory → result ≡ FormFault.BadField path.now }
{
    match path.copy() {
        Ok(path) => FormFault::BadField { path },
        Err(_) => FormFault::NoMemory,
    }
}

/// The fault of a field: `BadField` with its path, or `NoMemory`.
pub fn bad_field(path: &FieldPath, name: &str) -> FormFault
    ensures { result ≢ FormFault.NoMemory → result ≡ FormFault.BadField (field_path path.now name.now) }
{
    match path.field(name) {
        Ok(path) => FormFault::BadField { path },
        Err(_) => FormFault::NoMemory,
    }
}

/// The fault of a member of a list in a field: `BadField` with its path, or `NoMemory`.
pub fn bad_member(path: &FieldPath, name: &str, index: usize) -> FormFault
    ensures { result ≢ FormFault.NoMemory
        → result ≡ FormFault.BadField (index_path (field_path path.now name.now) index) }
{
    match path.field(name) {
        Ok(field) => match field.index(index) {
            Ok(path) => FormFault::BadField { path },
            Err(_) => FormFault::NoMemory,
        },
        Err(_) => FormFault::NoMemory,
    }
}

/// Tests that a value is an object.
#[tactic(auto, unfolding(crate::specs::Form::object_at))]
pub fn object_at(path: &FieldPath, value: &Value) -> Result<(), FormFault>
    ensures { Reads (λ _. tt) result (object_at path.now (view value.now)) }
{
    match value {
        Value::Object(_) => Ok(()),
        _ => Err(bad_value(path)),
    }
}

/// A field that is a text.
#[tactic(auto, unfolding(crate::specs::Form::text_field))]
pub fn text_field<'a>(path: &FieldPath, name: &str, value: &'a Value) -> Result<&'a str, FormFault>
    ensures { Reads (λ text. text.now) result (text_field path.now name.now (view value.now)) }
{
    match value.get(name).and_then(Value::as_str) {
        Some(text) => Ok(text),
        None => Err(bad_field(path, name)),
    }
}

/// The numbers of a list in a field, from 0 to 4294967295 each.
#[tactic(auto, using(crate::proofs::Offsets::with_front_more), unfolding(crate::specs::Form::offsets_at))]
fn offsets_of(path: &FieldPath, name: &str, items: &Vec<Value>) -> Result<Vec<u32>, FormFault>
    ensures { Reads (λ numbers. numbers.items) result
        (offsets_at (field_path path.now name.now) 0 (items_view items.now.items)) }
{
    let mut numbers = Vec::with_capacity(*items.allocator(), items.len())?;
    for (index, item) in items.iter().enumerate() {
        match item.as_u64() {
            Some(number) if number <= u64::from(u32::MAX) => numbers.push(number as u32)?,
            _ => return Err(bad_member(path, name, index)),
        }
    }
    Ok(numbers)
}

/// The path of these numbers, which has to be one of a position: 1 to 65 of them.
#[tactic(auto, unfolding(crate::specs::Form::position_length_at))]
fn position_of(path: &FieldPath, name: &str, numbers: &Vec<u32>) -> Result<Path, FormFault>
    ensures { Reads (λ position. position) result
        (position_length_at (field_path path.now name.now) numbers.now.items) }
{
    if numbers.is_empty() {
        return Err(bad_field(path, name));
    }
    match Path::from_slice(*numbers.allocator(), numbers.as_slice()) {
        Some(position) => Ok(position),
        None => Err(bad_field(path, name)),
    }
}

/// A field that is a position.
#[tactic(auto, unfolding(crate::specs::Form::position_field))]
pub fn position_field(path: &FieldPath, name: &str, value: &Value) -> Result<Path, FormFault>
    ensures { Reads (λ position. position) result (position_field path.now name.now (view value.now)) }
{
    let Some(items) = value.get(name).and_then(Value::as_array) else {
        return Err(bad_field(path, name));
    };
    let numbers = offsets_of(path, name, items)?;
    position_of(path, name, &numbers)
}

/// The first key, in the order of the bytes, that isn't among the names.
fn first_other<'a>(names: &[&str], members: &'a Map<String, Value>) -> Option<&'a String>
    ensures { option_map (λ key. string_bytes key.now) result
        ≡ first_other (map (λ name. name.now) names.now) (members_view members.now.entries) }
{
    unnamed_key(names, members)
}

/// The first key that isn't among the names.
fn unnamed_key<'a>(names: &[&str], members: &'a Map<String, Value>) -> Option<&'a String>
    ensures { option_copied result ≡ find (is_other names.now) (keys members.now) }
{
    members.keys().find(|key| !names.contains(&key.as_str()))
}

/// Tests that an object has no fields but these.
#[tactic(auto, unfolding(crate::specs::Form::only_fields))]
pub fn only_fields(path: &FieldPath, names: &[&str], value: &Value) -> Result<(), FormFault>
    ensures { Reads (λ _. tt) result (only_fields path.now (map (λ name. name.now) names.now) (view value.now)) }
{
    match value
        .as_object()
        .and_then(|members| first_other(names, members))
    {
        Some(key) => Err(bad_field(path, key.as_str())),
        None => Ok(()),
    }
}

/// Tests that a field is a text of this wording.
#[tactic(auto, unfolding(crate::specs::Form::word_field))]
pub fn word_field(path: &FieldPath, name: &str, word: &str, value: &Value) -> Result<(), FormFault>
    ensures { Reads (λ _. tt) result (word_field path.now name.now word.now (view value.now)) }
{
    let text = text_field(path, name, value)?;
    if text == word {
        Ok(())
    } else {
        Err(bad_field(path, name))
    }
}
