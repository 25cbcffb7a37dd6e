//! Readers of names. Each answers what the definition of its name reads, `BadField` with the first place that breaks the form, or
//! `NoMemory`; a path leads to the value that is read.
ghost use Rattle.std.specs.Prelude.{◌≡◌, ◌∷◌, [], true, Option, IfOk};
ghost use Rattle.ck_base.specs.Name.{is_name};
ghost use Rattle.serde_json.specs.View.{view, items_view};
ghost use Rattle.json_forms.specs.Form.{Reads, field_path};
ghost use Rattle.json_names.specs.Names.{name_at, name_field, names_at, name_list_field, one_or_more, names_field, optional_name};

use ck_base::faults::FieldPath;
use ck_base::name::{Name, NameFault};
use json_forms::fault::FormFault;
use json_forms::forms::{bad_field, bad_value};
use serde_json::Value;
use std::alloc::Global;

/// A value that is a name.
#[tactic(auto, unfolding(crate::specs::Names::name_at))]
pub fn name_at(alloc: Global, path: &FieldPath, value: &Value) -> Result<Name, FormFault>
    ensures { Reads (λ name. name) result (name_at path.now (view value.now)) }
{
    let Some(text) = value.as_str() else {
        return Err(bad_value(path));
    };
    match Name::read(alloc, text) {
        Ok(name) => Ok(name),
        Err(NameFault::NotAName) => Err(bad_value(path)),
        Err(NameFault::NoMemory) => Err(FormFault::NoMemory),
    }
}

/// A field that is a name.
#[tactic(auto, unfolding(crate::specs::Names::name_field))]
pub fn name_field(
    alloc: Global,
    path: &FieldPath,
    name: &str,
    value: &Value,
) -> Result<Name, FormFault>
    ensures { Reads (λ name. name) result (name_field path.now name.now (view value.now)) }
{
    let Some(text) = value.get(name).and_then(Value::as_str) else {
        return Err(bad_field(path, name));
    };
    match Name::read(alloc, text) {
        Ok(name) => Ok(name),
        Err(NameFault::NotAName) => Err(bad_field(path, name)),
        Err(NameFault::NoMemory) => Err(FormFault::NoMemory),
    }
}

/// The names of a list.
#[tactic(auto, using(crate::proofs::Fronts::with_front_more), unfolding(crate::specs::Names::names_at))]
fn names_at(alloc: Global, path: &FieldPath, items: &Vec<Value>) -> Result<Vec<Name>, FormFault>
    ensures { Reads (λ names. names.items) result (names_at path.now 0 (items_view items.now.items)) }
{
    let mut names = Vec::with_capacity(alloc, items.len())?;
    for (index, item) in items.iter().enumerate() {
        let place = path.index(index)?;
        names.push(name_at(alloc, &place, item)?)?;
    }
    Ok(names)
}

/// A field that is a list of names.
#[tactic(auto, unfolding(crate::specs::Names::name_list_field))]
pub fn name_list_field(
    alloc: Global,
    path: &FieldPath,
    name: &str,
    value: &Value,
) -> Result<Vec<Name>, FormFault>
    ensures { Reads (λ names. names.items) result (name_list_field path.now name.now (view value.now)) }
{
    let Some(items) = value.get(name).and_then(Value::as_array) else {
        return Err(bad_field(path, name));
    };
    let place = path.field(name)?;
    names_at(alloc, &place, items)
}

/// A name, or a list of names.
#[tactic(auto, unfolding(crate::specs::Names::one_or_more))]
fn one_or_more(alloc: Global, path: &FieldPath, value: &Value) -> Result<Vec<Name>, FormFault>
    ensures { Reads (λ names. names.items) result (one_or_more path.now (view value.now)) }
{
    if let Value::Array(items) = value {
        return names_at(alloc, path, items);
    }
    let name = name_at(alloc, path, value)?;
    let mut names = Vec::with_capacity(alloc, 1)?;
    names.push(name)?;
    Ok(names)
}

/// A field that is a name or a list of names; where it isn't there, there are none.
#[tactic(auto, unfolding(crate::specs::Names::names_field))]
pub fn names_field(
    alloc: Global,
    path: &FieldPath,
    name: &str,
    value: &Value,
) -> Result<Vec<Name>, FormFault>
    ensures { Reads (λ names. names.items) result (names_field path.now name.now (view value.now)) }
{
    let Some(found) = value.get(name) else {
        return Ok(Vec::new(alloc));
    };
    let place = path.field(name)?;
    one_or_more(alloc, &place, found)
}

/// A field that may be there, and is a name.
#[tactic(auto, unfolding(crate::specs::Names::optional_name, crate::specs::Names::name_at))]
pub fn optional_name(
    alloc: Global,
    path: &FieldPath,
    name: &str,
    value: &Value,
) -> Result<Option<Name>, FormFault>
    ensures { Reads (λ name. name) result (optional_name path.now name.now (view value.now)) }
{
    let Some(found) = value.get(name) else {
        return Ok(None);
    };
    let place = path.field(name)?;
    let name = name_at(alloc, &place, found)?;
    Ok(Some(name))
}
