//! Readers of what converters make. Each answers what the definition of its name reads, `BadField` with the first place that breaks the form,
//! or `NoMemory`; a path leads to the value that is read.
ghost use Rattle.std.specs.Prelude.{◌≡◌, codes, unwrap_or};
ghost use Rattle.serde_json.specs.View.{view};
ghost use Rattle.json_forms.specs.Form.{Reads, field_at};
ghost use Rattle.converter_forms.specs.ViewForm.{is_empty_type, empty_type_field, element_view_at, only_layer_fields, layer_view_at, optional_pattern};
ghost use Rattle.converter_forms.specs.ViewForm.{attribute_view_at, highlight_name_field, highlight_view_at, leaf_at};

use crate::patterns::{pattern_at, patterns_field, texts_field};
use crate::priorities::layer_priority_field;
use ck_base::faults::FieldPath;
use ck_base::name::{Name, NameFault};
use converter_definitions::pattern::Pattern;
use converter_definitions::stock::{AttributeView, ElementView, HighlightView, LayerView, Leaf};
use json_forms::fault::FormFault;
use json_forms::forms::{bad_field, object_at, only_fields};
use json_names::names::{name_field, optional_name};
use serde_json::Value;
use std::alloc::Global;

/// The field `view` of a converter.
#[tactic(auto, unfolding(json_forms::specs::Form::field_at))]
pub(crate) fn view_field<'a>(path: &FieldPath, value: &'a Value) -> Result<&'a Value, FormFault>
    ensures { Reads (λ found. view found.now) result (field_at path.now (codes "view") (view value.now)) }
{
    match value.get("view") {
        Some(found) => Ok(found),
        None => Err(bad_field(path, "view")),
    }
}

/// Whether the word of a type is `empty`, if it is one of the two types.
fn is_empty_type(word: &str) -> Option<bool>
    ensures { result ≡ is_empty_type word.now }
{
    match word {
        "container" => Some(false),
        "empty" => Some(true),
        _ => None,
    }
}

/// Whether the type is `empty`.
#[tactic(auto, unfolding(converter_forms::specs::ViewForm::empty_type_field))]
fn empty_type_field(path: &FieldPath, value: &Value) -> Result<bool, FormFault>
    ensures { Reads (λ is_empty. is_empty) result (empty_type_field path.now (view value.now)) }
{
    let Some(found) = value.get("type") else {
        return Ok(false);
    };
    match found.as_str().and_then(is_empty_type) {
        Some(is_empty) => Ok(is_empty),
        None => Err(bad_field(path, "type")),
    }
}

/// An element of the view.
#[tactic(auto, unfolding(converter_forms::specs::ViewForm::element_view_at))]
pub(crate) fn element_view_at(
    alloc: Global,
    indexes: bool,
    path: &FieldPath,
    value: &Value,
) -> Result<ElementView, FormFault>
    ensures { Reads (λ element. element) result (element_view_at indexes path.now (view value.now)) }
{
    object_at(path, value)?;
    let name = name_field(alloc, path, "name", value)?;
    let is_empty = empty_type_field(path, value)?;
    let attributes = patterns_field(alloc, indexes, path, "attributes", value)?;
    only_fields(path, &["name", "type", "attributes"], value)?;
    Ok(ElementView {
        name,
        is_empty,
        attributes,
    })
}

/// Tests that an attribute element has no fields but those of its form.
#[tactic(auto, unfolding(converter_forms::specs::ViewForm::only_layer_fields))]
fn only_layer_fields(path: &FieldPath, value: &Value) -> Result<(), FormFault>
    ensures { Reads (λ _. tt) result (only_layer_fields path.now (view value.now)) }
{
    only_fields(path, &["name", "attributes", "priority", "id"], value)
}

/// An attribute element.
#[tactic(auto, unfolding(converter_forms::specs::ViewForm::layer_view_at))]
pub(crate) fn layer_view_at(
    alloc: Global,
    path: &FieldPath,
    value: &Value,
) -> Result<LayerView, FormFault>
    ensures { Reads (λ layer. layer) result (layer_view_at path.now (view value.now)) }
{
    object_at(path, value)?;
    let name = name_field(alloc, path, "name", value)?;
    let attributes = patterns_field(alloc, false, path, "attributes", value)?;
    let priority = layer_priority_field(path, value)?;
    let id = optional_name(alloc, path, "id", value)?;
    only_layer_fields(path, value)?;
    Ok(LayerView {
        name,
        attributes,
        priority,
        id,
    })
}

/// A field that may be there, and is a pattern.
#[tactic(auto, unfolding(converter_forms::specs::ViewForm::optional_pattern))]
fn optional_pattern(
    alloc: Global,
    indexes: bool,
    path: &FieldPath,
    name: &str,
    value: &Value,
) -> Result<Option<Pattern>, FormFault>
    ensures { Reads (λ pattern. pattern) result (optional_pattern indexes path.now name.now (view value.now)) }
{
    let Some(found) = value.get(name) else {
        return Ok(None);
    };
    let place = path.field(name)?;
    let pattern = pattern_at(alloc, indexes, &place, found)?;
    Ok(Some(pattern))
}

/// An attribute of the view.
#[tactic(auto, unfolding(converter_forms::specs::ViewForm::attribute_view_at))]
pub(crate) fn attribute_view_at(
    alloc: Global,
    indexes: bool,
    path: &FieldPath,
    value: &Value,
) -> Result<AttributeView, FormFault>
    ensures { Reads (λ attribute. attribute) result (attribute_view_at indexes path.now (view value.now)) }
{
    object_at(path, value)?;
    let key = name_field(alloc, path, "key", value)?;
    let pattern = optional_pattern(alloc, indexes, path, "value", value)?;
    only_fields(path, &["key", "value"], value)?;
    Ok(AttributeView {
        key,
        value: pattern,
    })
}

/// The name of a highlight: `span` where none is given.
#[tactic(auto, unfolding(ck_base::specs::Name::is_name))]
fn highlight_name(alloc: Global, name: Option<Name>) -> Result<Name, FormFault>
    ensures { Reads (λ name. name) result (Ok (unwrap_or name (codes "span"))) }
{
    match name {
        Some(name) => Ok(name),
        None => match Name::read(alloc, "span") {
            Ok(name) => Ok(name),
            Err(NameFault::NotAName) => unreachable!(),
            Err(NameFault::NoMemory) => Err(FormFault::NoMemory),
        },
    }
}

/// The name of a highlight.
#[tactic(auto, unfolding(converter_forms::specs::ViewForm::highlight_name_field))]
fn highlight_name_field(alloc: Global, path: &FieldPath, value: &Value) -> Result<Name, FormFault>
    ensures { Reads (λ name. name) result (highlight_name_field path.now (view value.now)) }
{
    let name = optional_name(alloc, path, "name", value)?;
    highlight_name(alloc, name)
}

/// The attribute element of a marker.
#[tactic(auto, unfolding(converter_forms::specs::ViewForm::highlight_view_at))]
pub(crate) fn highlight_view_at(
    alloc: Global,
    path: &FieldPath,
    value: &Value,
) -> Result<HighlightView, FormFault>
    ensures { Reads (λ highlight. highlight) result (highlight_view_at path.now (view value.now)) }
{
    object_at(path, value)?;
    let name = highlight_name_field(alloc, path, value)?;
    let attributes = texts_field(alloc, path, "attributes", value)?;
    let priority = layer_priority_field(path, value)?;
    let id = optional_name(alloc, path, "id", value)?;
    only_layer_fields(path, value)?;
    Ok(HighlightView {
        name,
        attributes,
        priority,
        id,
    })
}

/// The UI element of a marker.
#[tactic(auto, unfolding(converter_forms::specs::ViewForm::leaf_at))]
pub(crate) fn leaf_at(alloc: Global, path: &FieldPath, value: &Value) -> Result<Leaf, FormFault>
    ensures { Reads (λ leaf. leaf) result (leaf_at path.now (view value.now)) }
{
    object_at(path, value)?;
    let name = name_field(alloc, path, "name", value)?;
    let attrs = texts_field(alloc, path, "attributes", value)?;
    only_fields(path, &["name", "attributes"], value)?;
    Ok(Leaf { name, attrs })
}
