//! Readers of attribute values. Each answers what the definition of its name reads, `BadField` with the first place that breaks the form,
//! or `NoMemory`; a path leads to the value that is read.
ghost use Rattle.std.specs.Prelude.{◌≡◌, [], IfOk};
ghost use Rattle.serde_json.specs.View.{view, members_view};
ghost use Rattle.json_forms.specs.Form.{Reads, or_bad};
ghost use Rattle.json_values.specs.Values.{kept_text, value_at, value_field, nullable_at, nullable_field, attribute_at, attributes_from, attributes_field};

use ck_base::attributes::Attrs;
use ck_base::faults::FieldPath;
use ck_base::name::{Name, NameFault};
use ck_base::text::{TextFault, TextVal};
use ck_base::value::Value as AttributeValue;
use json_forms::fault::FormFault;
use json_forms::forms::{bad_field, bad_value};
use serde_json::{Map, Value};
use std::alloc::Global;

/// A value at this place: a truth value, a text of at most 4,096 bytes, or a whole number of 64 bits.
#[tactic(auto, unfolding(crate::specs::Values::value_at))]
pub fn value_at(alloc: Global, path: &FieldPath, value: &Value) -> Result<AttributeValue, FormFault>
    ensures { Reads (λ value. value) result (value_at path.now (view value.now)) }
{
    match value {
        Value::Bool(truth) => Ok(AttributeValue::Truth(*truth)),
        Value::String(text) => text_value(alloc, path, text.as_str()),
        Value::Number(_) => match value.as_i64() {
            Some(number) => Ok(AttributeValue::Whole(number)),
            None => Err(bad_value(path)),
        },
        _ => Err(bad_value(path)),
    }
}

/// A text within the limit on attribute texts.
fn text_value(alloc: Global, path: &FieldPath, text: &str) -> Result<AttributeValue, FormFault>
    ensures { Reads (λ value. value) result (or_bad path.now (kept_text text.now)) }
{
    match TextVal::read(alloc, text) {
        Ok(text) => Ok(AttributeValue::Text(text)),
        Err(TextFault::TooLong) => Err(bad_value(path)),
        Err(TextFault::NoMemory) => Err(FormFault::NoMemory),
    }
}

/// A field that is a value.
#[tactic(auto, unfolding(crate::specs::Values::value_field, crate::specs::Values::value_at))]
pub fn value_field(
    alloc: Global,
    path: &FieldPath,
    name: &str,
    value: &Value,
) -> Result<AttributeValue, FormFault>
    ensures { Reads (λ value. value) result (value_field path.now name.now (view value.now)) }
{
    let Some(found) = value.get(name) else {
        return Err(bad_field(path, name));
    };
    let place = path.field(name)?;
    value_at(alloc, &place, found)
}

/// A value, or null for none.
#[tactic(auto, unfolding(crate::specs::Values::nullable_at))]
fn nullable_at(
    alloc: Global,
    path: &FieldPath,
    value: &Value,
) -> Result<Option<AttributeValue>, FormFault>
    ensures { Reads (λ value. value) result (nullable_at path.now (view value.now)) }
{
    if value.is_null() {
        return Ok(None);
    }
    let value = value_at(alloc, path, value)?;
    Ok(Some(value))
}

/// A field that is a value, or null for none.
#[tactic(auto, unfolding(crate::specs::Values::nullable_field))]
pub fn nullable_field(
    alloc: Global,
    path: &FieldPath,
    name: &str,
    value: &Value,
) -> Result<Option<AttributeValue>, FormFault>
    ensures { Reads (λ value. value) result (nullable_field path.now name.now (view value.now)) }
{
    let Some(found) = value.get(name) else {
        return Err(bad_field(path, name));
    };
    let place = path.field(name)?;
    nullable_at(alloc, &place, found)
}

/// The value of a key, which has to be a name.
#[tactic(auto, unfolding(crate::specs::Values::attribute_at))]
fn attribute_at(
    alloc: Global,
    path: &FieldPath,
    key: &str,
    value: &Value,
) -> Result<(Name, AttributeValue), FormFault>
    ensures reads { Reads (λ both. both.1) result (attribute_at path.now key.now (view value.now)) }
    ensures key { IfOk result (λ both. both.0 ≡ key.now) }
{
    let name = match Name::read(alloc, key) {
        Ok(name) => name,
        Err(NameFault::NotAName) => return Err(bad_field(path, key)),
        Err(NameFault::NoMemory) => return Err(FormFault::NoMemory),
    };
    let place = path.field(key)?;
    let value = value_at(alloc, &place, value)?;
    Ok((name, value))
}

/// The attributes of an object.
#[tactic(auto, unfolding(crate::specs::Values::attributes_from))]
fn attributes_of(
    alloc: Global,
    path: &FieldPath,
    members: &Map<String, Value>,
) -> Result<Attrs, FormFault>
    ensures { Reads (λ attrs. attrs) result (attributes_from path.now [] (members_view members.now.entries)) }
{
    let mut attrs = Attrs::new(alloc);
    for (key, value) in members {
        let (name, value) = attribute_at(alloc, path, key.as_str(), value)?;
        attrs.set(name, value)?;
    }
    Ok(attrs)
}

/// A field that is an object of names to values; where it isn't there, there are none.
#[tactic(auto, unfolding(crate::specs::Values::attributes_field))]
pub fn attributes_field(
    alloc: Global,
    path: &FieldPath,
    name: &str,
    value: &Value,
) -> Result<Attrs, FormFault>
    ensures { Reads (λ attrs. attrs) result (attributes_field path.now name.now (view value.now)) }
{
    let Some(found) = value.get(name) else {
        return Ok(Attrs::new(alloc));
    };
    let Some(members) = found.as_object() else {
        return Err(bad_field(path, name));
    };
    let place = path.field(name)?;
    attributes_of(alloc, &place, members)
}
