//! The reader of the converters of a settings file. Each function answers what the definition of its name reads, `BadField` with the first place
//! that breaks the form, or `NoMemory`; a path leads to the value that is read.
ghost use Rattle.std.specs.Prelude.{◌≡◌, [], Ok, codes};
ghost use Rattle.serde_json.specs.View.{view, items_view};
ghost use Rattle.json_forms.specs.Form.{Reads};
ghost use Rattle.converter_forms.specs.PatternForm.{pattern_at};
ghost use Rattle.converter_forms.specs.ShapeForm.{shape_at};
ghost use Rattle.converter_forms.specs.ViewForm.{viewed, element_view_at, layer_view_at, attribute_view_at, highlight_view_at, leaf_at};
ghost use Rattle.converter_forms.specs.ConverterForm.{stock_plan, reads_index, only_element_fields, element_converter_at, structure_converter_at};
ghost use Rattle.converter_forms.specs.ConverterForm.{optional_value, layer_converter_at, is_index_view, element_field, attribute_converter_at};
ghost use Rattle.converter_forms.specs.ConverterForm.{only_marker_fields, highlight_converter_at, leaf_converter_at, index_field, only_indexed_fields};
ghost use Rattle.converter_forms.specs.ConverterForm.{only_plain_fields, only_custom_fields, custom_converter_at, kind_of, kind_field, kind_converter_at};
ghost use Rattle.converter_forms.specs.ConverterForm.{converter_at, converters_at};

use crate::patterns::pattern_at;
use crate::priorities::priority_field;
use crate::shapes::shape_at;
use crate::views::{
    attribute_view_at, element_view_at, highlight_view_at, layer_view_at, leaf_at, view_field,
};
use ck_base::faults::FieldPath;
use ck_base::name::Name;
use ck_base::priority::Priority;
use ck_base::value::Value as AttributeValue;
use converter_definitions::pattern::{Pattern, Patterns};
use converter_definitions::plan::{ConverterPlan, PlanEntry};
use converter_definitions::shape::Shape;
use converter_definitions::stock::{
    AttributeView, ElementView, HighlightView, LayerView, Leaf, StockConverter,
};
use converter_forms::parts::ConverterKind;
use json_forms::fault::FormFault;
use json_forms::forms::{bad_field, object_at, only_fields};
use json_names::names::{name_field, optional_name};
use json_values::values::{attributes_field, value_at};
use serde_json::Value;
use std::alloc::Global;

/// What `elementToElement` makes.
fn viewed_element(
    alloc: Global,
    indexes: bool,
    path: &FieldPath,
    value: &Value,
) -> Result<ElementView, FormFault>
    ensures { Reads (λ found. found) result (viewed (element_view_at indexes) path.now (view value.now)) }
{
    let found = view_field(path, value)?;
    let place = path.field("view")?;
    element_view_at(alloc, indexes, &place, found)
}

/// What `elementToStructure` makes.
fn viewed_shape(
    alloc: Global,
    indexes: bool,
    path: &FieldPath,
    value: &Value,
) -> Result<Shape<Patterns>, FormFault>
    ensures { Reads (λ found. found) result (viewed (shape_at indexes) path.now (view value.now)) }
{
    let found = view_field(path, value)?;
    let place = path.field("view")?;
    shape_at(alloc, indexes, &place, found)
}

/// What `attributeToElement` makes.
fn viewed_layer(alloc: Global, path: &FieldPath, value: &Value) -> Result<LayerView, FormFault>
    ensures { Reads (λ found. found) result (viewed layer_view_at path.now (view value.now)) }
{
    let found = view_field(path, value)?;
    let place = path.field("view")?;
    layer_view_at(alloc, &place, found)
}

/// What `attributeToAttribute` makes.
fn viewed_attribute(
    alloc: Global,
    indexes: bool,
    path: &FieldPath,
    value: &Value,
) -> Result<AttributeView, FormFault>
    ensures { Reads (λ found. found) result (viewed (attribute_view_at indexes) path.now (view value.now)) }
{
    let found = view_field(path, value)?;
    let place = path.field("view")?;
    attribute_view_at(alloc, indexes, &place, found)
}

/// What `markerToHighlight` makes.
fn viewed_highlight(
    alloc: Global,
    path: &FieldPath,
    value: &Value,
) -> Result<HighlightView, FormFault>
    ensures { Reads (λ found. found) result (viewed highlight_view_at path.now (view value.now)) }
{
    let found = view_field(path, value)?;
    let place = path.field("view")?;
    highlight_view_at(alloc, &place, found)
}

/// What `markerToElement` makes.
fn viewed_leaf(alloc: Global, path: &FieldPath, value: &Value) -> Result<Leaf, FormFault>
    ensures { Reads (λ found. found) result (viewed leaf_at path.now (view value.now)) }
{
    let found = view_field(path, value)?;
    let place = path.field("view")?;
    leaf_at(alloc, &place, found)
}

/// A converter of the settings with its priority.
fn stock_plan(priority: Priority, converter: StockConverter) -> ConverterPlan
    ensures { result ≡ stock_plan priority converter }
{
    ConverterPlan {
        priority,
        entry: PlanEntry::Stock(converter),
    }
}

/// Tests that a converter of elements has no fields but those of its form.
#[tactic(auto, unfolding(converter_forms::specs::ConverterForm::only_element_fields))]
fn only_element_fields(path: &FieldPath, value: &Value) -> Result<(), FormFault>
    ensures { Reads (λ _. tt) result (only_element_fields path.now (view value.now)) }
{
    only_fields(
        path,
        &["kind", "model", "attributes", "parent", "view", "priority"],
        value,
    )
}

/// A converter from an element to an element.
#[tactic(auto, unfolding(converter_forms::specs::ConverterForm::element_converter_at))]
fn element_converter_at(
    alloc: Global,
    indexes: bool,
    path: &FieldPath,
    value: &Value,
) -> Result<ConverterPlan, FormFault>
    ensures { Reads (λ plan. plan) result (element_converter_at indexes path.now (view value.now)) }
{
    let model = name_field(alloc, path, "model", value)?;
    let attributes = attributes_field(alloc, path, "attributes", value)?;
    let parent = optional_name(alloc, path, "parent", value)?;
    let element = viewed_element(alloc, indexes, path, value)?;
    let priority = priority_field(path, value)?;
    only_element_fields(path, value)?;
    Ok(stock_plan(
        priority,
        StockConverter::ElementToElement {
            model,
            attributes,
            parent,
            view: element,
        },
    ))
}

/// A converter from an element to a shape.
#[tactic(auto, unfolding(converter_forms::specs::ConverterForm::structure_converter_at))]
fn structure_converter_at(
    alloc: Global,
    indexes: bool,
    path: &FieldPath,
    value: &Value,
) -> Result<ConverterPlan, FormFault>
    ensures { Reads (λ plan. plan) result (structure_converter_at indexes path.now (view value.now)) }
{
    let model = name_field(alloc, path, "model", value)?;
    let attributes = attributes_field(alloc, path, "attributes", value)?;
    let parent = optional_name(alloc, path, "parent", value)?;
    let shape = viewed_shape(alloc, indexes, path, value)?;
    let priority = priority_field(path, value)?;
    only_element_fields(path, value)?;
    Ok(stock_plan(
        priority,
        StockConverter::ElementToStructure {
            model,
            attributes,
            parent,
            view: shape,
        },
    ))
}

/// A field that may be there, and is a value.
#[tactic(auto, unfolding(converter_forms::specs::ConverterForm::optional_value))]
fn optional_value(
    alloc: Global,
    path: &FieldPath,
    name: &str,
    value: &Value,
) -> Result<Option<AttributeValue>, FormFault>
    ensures { Reads (λ found. found) result (optional_value path.now name.now (view value.now)) }
{
    let Some(found) = value.get(name) else {
        return Ok(None);
    };
    let place = path.field(name)?;
    let found = value_at(alloc, &place, found)?;
    Ok(Some(found))
}

/// A converter from an attribute to an attribute element.
#[tactic(auto, unfolding(converter_forms::specs::ConverterForm::layer_converter_at))]
fn layer_converter_at(
    alloc: Global,
    path: &FieldPath,
    value: &Value,
) -> Result<ConverterPlan, FormFault>
    ensures { Reads (λ plan. plan) result (layer_converter_at path.now (view value.now)) }
{
    let model = name_field(alloc, path, "model", value)?;
    let wanted = optional_value(alloc, path, "value", value)?;
    let layer = viewed_layer(alloc, path, value)?;
    let priority = priority_field(path, value)?;
    only_fields(path, &["kind", "model", "value", "view", "priority"], value)?;
    Ok(stock_plan(
        priority,
        StockConverter::AttributeToElement {
            model,
            value: wanted,
            view: layer,
        },
    ))
}

/// Whether a value is the pattern of an index.
fn reads_index(alloc: Global, indexes: bool, value: &Value) -> Result<bool, FormFault>
    ensures { Reads (λ counted. counted) result (Ok (reads_index (pattern_at indexes [] (view value.now)))) }
{
    let path = FieldPath::new(alloc);
    match pattern_at(alloc, indexes, &path, value) {
        Ok(pattern) => Ok(matches!(pattern, Pattern::Index(_))),
        Err(FormFault::NoMemory) => Err(FormFault::NoMemory),
        Err(_) => Ok(false),
    }
}

/// Whether the text of the attribute is an index.
#[tactic(auto, unfolding(converter_forms::specs::ConverterForm::is_index_view))]
fn is_index_view(alloc: Global, indexes: bool, value: &Value) -> Result<bool, FormFault>
    ensures { Reads (λ counted. counted) result (Ok (is_index_view indexes (view value.now))) }
{
    let Some(found) = value.get("view") else {
        return Ok(false);
    };
    let Some(text) = found.get("value") else {
        return Ok(false);
    };
    reads_index(alloc, indexes, text)
}

/// The name of the elements, which has to be there where the text of the attribute is an index.
#[tactic(auto, unfolding(converter_forms::specs::ConverterForm::element_field))]
fn element_field(
    alloc: Global,
    indexes: bool,
    path: &FieldPath,
    value: &Value,
) -> Result<Option<Name>, FormFault>
    ensures { Reads (λ name. name) result (element_field indexes path.now (view value.now)) }
{
    let element = optional_name(alloc, path, "element", value)?;
    let counted = is_index_view(alloc, indexes, value)?;
    match element {
        Some(name) => Ok(Some(name)),
        None if counted => Err(bad_field(path, "element")),
        None => Ok(None),
    }
}

/// A converter from an attribute to an attribute of the view.
#[tactic(auto, unfolding(converter_forms::specs::ConverterForm::attribute_converter_at))]
fn attribute_converter_at(
    alloc: Global,
    indexes: bool,
    path: &FieldPath,
    value: &Value,
) -> Result<ConverterPlan, FormFault>
    ensures { Reads (λ plan. plan) result (attribute_converter_at indexes path.now (view value.now)) }
{
    let element = element_field(alloc, indexes, path, value)?;
    let model = name_field(alloc, path, "model", value)?;
    let wanted = optional_value(alloc, path, "value", value)?;
    let attribute = viewed_attribute(alloc, indexes, path, value)?;
    let priority = priority_field(path, value)?;
    only_fields(
        path,
        &["kind", "element", "model", "value", "view", "priority"],
        value,
    )?;
    Ok(stock_plan(
        priority,
        StockConverter::AttributeToAttribute {
            element,
            model,
            value: wanted,
            view: attribute,
        },
    ))
}

/// Tests that a converter of markers has no fields but those of its form.
#[tactic(auto, unfolding(converter_forms::specs::ConverterForm::only_marker_fields))]
fn only_marker_fields(path: &FieldPath, value: &Value) -> Result<(), FormFault>
    ensures { Reads (λ _. tt) result (only_marker_fields path.now (view value.now)) }
{
    only_fields(path, &["kind", "marker", "view", "priority"], value)
}

/// A converter from a marker to an attribute element.
#[tactic(auto, unfolding(converter_forms::specs::ConverterForm::highlight_converter_at))]
fn highlight_converter_at(
    alloc: Global,
    path: &FieldPath,
    value: &Value,
) -> Result<ConverterPlan, FormFault>
    ensures { Reads (λ plan. plan) result (highlight_converter_at path.now (view value.now)) }
{
    let marker = name_field(alloc, path, "marker", value)?;
    let highlight = viewed_highlight(alloc, path, value)?;
    let priority = priority_field(path, value)?;
    only_marker_fields(path, value)?;
    Ok(stock_plan(
        priority,
        StockConverter::MarkerToHighlight {
            marker,
            view: highlight,
        },
    ))
}

/// A converter from a marker to a UI element.
#[tactic(auto, unfolding(converter_forms::specs::ConverterForm::leaf_converter_at))]
fn leaf_converter_at(
    alloc: Global,
    path: &FieldPath,
    value: &Value,
) -> Result<ConverterPlan, FormFault>
    ensures { Reads (λ plan. plan) result (leaf_converter_at path.now (view value.now)) }
{
    let marker = name_field(alloc, path, "marker", value)?;
    let leaf = viewed_leaf(alloc, path, value)?;
    let priority = priority_field(path, value)?;
    only_marker_fields(path, value)?;
    Ok(stock_plan(
        priority,
        StockConverter::MarkerToElement { marker, view: leaf },
    ))
}

/// The name of the elements whose index a product's converter is given.
#[tactic(auto, unfolding(converter_forms::specs::ConverterForm::index_field))]
fn index_field(
    alloc: Global,
    indexes: bool,
    path: &FieldPath,
    value: &Value,
) -> Result<Option<Name>, FormFault>
    ensures { Reads (λ name. name) result (index_field indexes path.now (view value.now)) }
{
    if indexes {
        optional_name(alloc, path, "index", value)
    } else {
        Ok(None)
    }
}

/// Tests that a product's converter has no fields but those of its form where indexes may be asked for.
#[tactic(auto, unfolding(converter_forms::specs::ConverterForm::only_indexed_fields))]
fn only_indexed_fields(path: &FieldPath, value: &Value) -> Result<(), FormFault>
    ensures { Reads (λ _. tt) result (only_indexed_fields path.now (view value.now)) }
{
    only_fields(path, &["kind", "name", "priority", "index"], value)
}

/// Tests that a product's converter has no fields but those of its form where no index may be asked for.
#[tactic(auto, unfolding(converter_forms::specs::ConverterForm::only_plain_fields))]
fn only_plain_fields(path: &FieldPath, value: &Value) -> Result<(), FormFault>
    ensures { Reads (λ _. tt) result (only_plain_fields path.now (view value.now)) }
{
    only_fields(path, &["kind", "name", "priority"], value)
}

/// Tests that a product's converter has no fields but those of its form.
#[tactic(auto, unfolding(converter_forms::specs::ConverterForm::only_custom_fields))]
fn only_custom_fields(indexes: bool, path: &FieldPath, value: &Value) -> Result<(), FormFault>
    ensures { Reads (λ _. tt) result (only_custom_fields indexes path.now (view value.now)) }
{
    if indexes {
        only_indexed_fields(path, value)
    } else {
        only_plain_fields(path, value)
    }
}

/// A converter of a product.
#[tactic(auto, unfolding(converter_forms::specs::ConverterForm::custom_converter_at))]
fn custom_converter_at(
    alloc: Global,
    indexes: bool,
    path: &FieldPath,
    value: &Value,
) -> Result<ConverterPlan, FormFault>
    ensures { Reads (λ plan. plan) result (custom_converter_at indexes path.now (view value.now)) }
{
    let name = name_field(alloc, path, "name", value)?;
    let priority = priority_field(path, value)?;
    let index = index_field(alloc, indexes, path, value)?;
    only_custom_fields(indexes, path, value)?;
    Ok(ConverterPlan {
        priority,
        entry: PlanEntry::Boxed { name, index },
    })
}

/// The kind that a word means.
#[tactic(auto, unfolding(converter_forms::specs::ConverterForm::kind_of))]
fn kind_of(word: &str) -> Option<ConverterKind>
    ensures { result ≡ kind_of word.now }
{
    match word {
        "elementToElement" => Some(ConverterKind::Element),
        "elementToStructure" => Some(ConverterKind::Structure),
        "attributeToElement" => Some(ConverterKind::AttributeElement),
        "attributeToAttribute" => Some(ConverterKind::Attribute),
        "markerToHighlight" => Some(ConverterKind::Highlight),
        "markerToElement" => Some(ConverterKind::Leaf),
        "custom" => Some(ConverterKind::Custom),
        _ => None,
    }
}

/// The kind of a converter.
#[tactic(auto, unfolding(converter_forms::specs::ConverterForm::kind_field))]
fn kind_field(path: &FieldPath, value: &Value) -> Result<ConverterKind, FormFault>
    ensures { Reads (λ kind. kind) result (kind_field path.now (view value.now)) }
{
    match value.get("kind").and_then(Value::as_str).and_then(kind_of) {
        Some(kind) => Ok(kind),
        None => Err(bad_field(path, "kind")),
    }
}

/// A converter of this kind.
#[tactic(auto, unfolding(converter_forms::specs::ConverterForm::kind_converter_at))]
fn kind_converter_at(
    alloc: Global,
    kind: ConverterKind,
    indexes: bool,
    path: &FieldPath,
    value: &Value,
) -> Result<ConverterPlan, FormFault>
    ensures { Reads (λ plan. plan) result (kind_converter_at kind indexes path.now (view value.now)) }
{
    match kind {
        ConverterKind::Element => element_converter_at(alloc, indexes, path, value),
        ConverterKind::Structure => structure_converter_at(alloc, indexes, path, value),
        ConverterKind::AttributeElement => layer_converter_at(alloc, path, value),
        ConverterKind::Attribute => attribute_converter_at(alloc, indexes, path, value),
        ConverterKind::Highlight => highlight_converter_at(alloc, path, value),
        ConverterKind::Leaf => leaf_converter_at(alloc, path, value),
        ConverterKind::Custom => custom_converter_at(alloc, indexes, path, value),
    }
}

/// A converter at this place.
#[tactic(auto, unfolding(converter_forms::specs::ConverterForm::converter_at))]
fn converter_at(
    alloc: Global,
    indexes: bool,
    path: &FieldPath,
    value: &Value,
) -> Result<ConverterPlan, FormFault>
    ensures { Reads (λ plan. plan) result (converter_at indexes path.now (view value.now)) }
{
    object_at(path, value)?;
    let kind = kind_field(path, value)?;
    kind_converter_at(alloc, kind, indexes, path, value)
}

/// The converters of a list, in their order; `indexes` says whether they may ask for the index of an element, as they may in files of version
/// 2. It answers `BadField` with the first place that breaks the form, or `NoMemory`. (After CKEditor 5's `elementToElement`,
/// `elementToStructure`, `attributeToElement`, `attributeToAttribute`, `markerToHighlight` and `markerToElement`.)
#[tactic(auto, using(json_names::proofs::Fronts::with_front_more), unfolding(converter_forms::specs::ConverterForm::converters_at))]
pub fn converters_at(
    alloc: Global,
    indexes: bool,
    path: &FieldPath,
    items: &Vec<Value>,
) -> Result<Vec<ConverterPlan>, FormFault>
    ensures { Reads (λ plans. plans.items) result (converters_at indexes path.now 0 (items_view items.now.items)) }
{
    let mut plans = Vec::with_capacity(alloc, items.len())?;
    for (index, item) in items.iter().enumerate() {
        let place = path.index(index)?;
        plans.push(converter_at(alloc, indexes, &place, item)?)?;
    }
    Ok(plans)
}
