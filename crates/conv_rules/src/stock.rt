//! What the converters of the settings give elements and characters.
ghost use Rattle.std.specs.Prelude.{◌≡◌, ◌&&◌, IfOk, option_copied, Some, None, [], ◌∷◌};
ghost use Rattle.std.specs.List.{list_all};
ghost use Rattle.schema_definitions.specs.Names.{has};
ghost use Rattle.converter_definitions.specs.Gives.{has_value, is_named, is_meant, gift_if, shape_gift, element_form, layer_from, attribute_text, filled_in};
ghost use Rattle.converter_definitions.specs.Gives.{stock_gift, insert_keys, part, layer};
ghost use Rattle.converter_definitions.specs.Pattern.{with_text};
ghost use Rattle.converter_definitions.specs.Shape.{form_with};
ghost use Rattle.conv_rules.specs.Gifts.{given_view, gift_view, gift_viewed};

use crate::consumables::insert_keys;
use crate::filling::{filled, printed_value, set_text, text_of, texts_of};
use crate::gift::{Gift, Given};
use ck_base::NoMemory;
use ck_base::attributes::{Attrs, ViewAttrs};
use ck_base::name::Name;
use ck_base::text::ViewText;
use ck_base::value::Value;
use converter_definitions::facts::{Facts, Key};
use converter_definitions::kind::ShapeKind;
use converter_definitions::part::Part;
use converter_definitions::pattern::Patterns;
use converter_definitions::shape::{Shape, ShapeNode, ShapeNodes};
use converter_definitions::stock::{AttributeView, ElementView, LayerView, StockConverter};
use std::alloc::Global;
use view_tree::kind::Layer;

/// Whether an attribute has the value that is wanted, if one is.
#[tactic(auto, using(model_tree::proofs::OneValue::one_value))]
pub(crate) fn has_value(attributes: &Attrs, key: &Name, value: Option<&Value>) -> bool
    ensures { result ≡ has_value attributes.now key.now (option_copied value.entry) }
{
    match (attributes.get(key), value) {
        (None, _) => false,
        (Some(_), None) => true,
        (Some(found), Some(value)) => found.same(value),
    }
}

/// Whether a name is the one that is wanted, if one is.
fn is_named(wanted: Option<&Name>, name: &Name) -> bool
    ensures { result ≡ is_named (option_copied wanted.entry) name.now }
{
    match wanted {
        Some(wanted) => name == wanted,
        None => true,
    }
}

/// Whether each of these attributes is there with its value.
fn has_values(attributes: &Attrs, wanted: &[(Name, Value)]) -> bool
    ensures { result ≡ list_all (λ entry. has_value attributes.now entry.0 (Some entry.1)) wanted.now }
{
    wanted
        .iter()
        .all(|entry| has_value(attributes, &entry.0, Some(&entry.1)))
}

/// Whether this is an element of the name, with these attributes and such a parent.
fn is_meant(model: &Name, attributes: &Attrs, parent: Option<&Name>, facts: &Facts) -> bool
    ensures { result ≡ is_meant model.now attributes.now (option_copied parent.entry) facts.now }
{
    facts.name == *model
        && has_values(&facts.attributes, attributes.entries())
        && is_named(parent, &facts.parent)
}

/// The gift of an element's shape, which consumes the element with these attributes.
fn shape_gift(alloc: Global, attributes: &Attrs, shape: Shape<ViewAttrs>) -> Result<Gift, NoMemory>
    ensures { IfOk result (λ gift. gift_view gift ≡ (insert_keys attributes.now, part (Part.Shape shape))) }
{
    let keys = insert_keys(alloc, attributes)?;
    Ok(Gift {
        keys,
        given: Given::Part(Part::Shape(shape)),
    })
}

/// The shape of one element, with the slot in it if it has content.
fn element_shape(
    alloc: Global,
    facts: &Facts,
    view: &ElementView,
) -> Result<Shape<ViewAttrs>, NoMemory>
    ensures { IfOk result (λ made. made ≡ form_with (filled_in facts.now) (element_form view.now)) }
{
    let name = view.name.copy()?;
    let attrs = texts_of(alloc, &facts.attributes, facts.index, &view.attributes)?;
    let mut children = Vec::new(alloc);
    let mut kind = ShapeKind::Empty;
    if !view.is_empty {
        kind = ShapeKind::Container;
        children.push(ShapeNode::Slot)?;
    }
    let node = ShapeNode::Element {
        kind,
        name,
        attrs,
        children: ShapeNodes::new(children),
    };
    match Shape::new(node) {
        Some(shape) => Ok(shape),
        None => unreachable!(),
    }
}

/// What an `elementToElement` gives.
fn element_gift(
    alloc: Global,
    model: &Name,
    attributes: &Attrs,
    parent: Option<&Name>,
    view: &ElementView,
    facts: &Facts,
) -> Result<Option<Gift>, NoMemory>
    ensures { IfOk result (λ gift. gift_viewed gift
        ≡ gift_if (is_meant model.now attributes.now (option_copied parent.entry) facts.now) (shape_gift facts.now attributes.now (element_form view.now))) }
{
    if !is_meant(model, attributes, parent, facts) {
        return Ok(None);
    }
    let shape = element_shape(alloc, facts, view)?;
    let gift = shape_gift(alloc, attributes, shape)?;
    Ok(Some(gift))
}

/// What an `elementToStructure` gives.
fn structure_gift(
    alloc: Global,
    model: &Name,
    attributes: &Attrs,
    parent: Option<&Name>,
    view: &Shape<Patterns>,
    facts: &Facts,
) -> Result<Option<Gift>, NoMemory>
    ensures { IfOk result (λ gift. gift_viewed gift
        ≡ gift_if (is_meant model.now attributes.now (option_copied parent.entry) facts.now) (shape_gift facts.now attributes.now view.now)) }
{
    if !is_meant(model, attributes, parent, facts) {
        return Ok(None);
    }
    let shape = filled(alloc, &facts.attributes, facts.index, view)?;
    let gift = shape_gift(alloc, attributes, shape)?;
    Ok(Some(gift))
}

/// The gift that consumes an attribute.
fn attribute_gift(alloc: Global, key: &Name, given: Given) -> Result<Gift, NoMemory>
    ensures { IfOk result (λ gift. gift_view gift ≡ (Key.Attribute key.now ∷ [], given_view given)) }
{
    let key = key.copy()?;
    let mut keys = Vec::new(alloc);
    keys.push(Key::Attribute(key))?;
    Ok(Gift { keys, given })
}

/// The layer of an attribute, around what has these attributes.
fn layer_from(alloc: Global, attributes: &Attrs, view: &LayerView) -> Result<Layer, NoMemory>
    ensures { IfOk result (λ made. made ≡ layer_from attributes.now view.now) }
{
    let name = view.name.copy()?;
    let attrs = texts_of(alloc, attributes, None, &view.attributes)?;
    let id = copied_name(view.id.as_ref())?;
    Ok(Layer {
        name,
        attrs,
        priority: view.priority,
        id,
    })
}

/// The same name, if there is one.
pub(crate) fn copied_name(name: Option<&Name>) -> Result<Option<Name>, NoMemory>
    ensures { IfOk result (λ copy. copy ≡ option_copied name.entry) }
{
    match name {
        Some(name) => {
            let name = name.copy()?;
            Ok(Some(name))
        }
        None => Ok(None),
    }
}

/// What an `attributeToElement` gives what has these attributes.
pub(crate) fn layer_gift(
    alloc: Global,
    attributes: &Attrs,
    model: &Name,
    value: Option<&Value>,
    view: &LayerView,
) -> Result<Option<Gift>, NoMemory>
    ensures { IfOk result (λ gift. gift_viewed gift
        ≡ gift_if (has_value attributes.now model.now (option_copied value.entry)) (Key.Attribute model.now ∷ [], layer (layer_from attributes.now view.now))) }
{
    if !has_value(attributes, model, value) {
        return Ok(None);
    }
    let layer = layer_from(alloc, attributes, view)?;
    let gift = attribute_gift(alloc, model, Given::Around(layer))?;
    Ok(Some(gift))
}

/// The text of a view attribute: that of its pattern, or without one the value of the model's attribute.
fn attribute_text(
    alloc: Global,
    facts: &Facts,
    model: &Name,
    view: &AttributeView,
) -> Result<Option<ViewText>, NoMemory>
    ensures { IfOk result (λ text. text ≡ attribute_text facts.now model.now view.now) }
{
    if let Some(pattern) = &view.value {
        return text_of(alloc, &facts.attributes, facts.index, pattern);
    }
    match facts.attributes.get(model) {
        Some(value) => {
            let text = printed_value(alloc, value)?;
            Ok(Some(text))
        }
        None => Ok(None),
    }
}

/// What an `attributeToAttribute` gives an element.
fn extra_gift(
    alloc: Global,
    facts: &Facts,
    wanted: Option<&Name>,
    model: &Name,
    value: Option<&Value>,
    view: &AttributeView,
) -> Result<Option<Gift>, NoMemory>
    ensures { IfOk result (λ gift. gift_viewed gift
        ≡ gift_if (is_named (option_copied wanted.entry) facts.now.name && has_value facts.now.attributes model.now (option_copied value.entry))
        (Key.Attribute model.now ∷ [], part (Part.Extra (with_text view.now.key (attribute_text facts.now model.now view.now) [])))) }
{
    if !is_named(wanted, &facts.name) || !has_value(&facts.attributes, model, value) {
        return Ok(None);
    }
    let text = attribute_text(alloc, facts, model, view)?;
    let mut attrs = ViewAttrs::new(alloc);
    set_text(&mut attrs, &view.key, text)?;
    let gift = attribute_gift(alloc, model, Given::Part(Part::Extra(attrs)))?;
    Ok(Some(gift))
}

/// Whether a name is among these.
pub(crate) fn has(names: &[Name], name: &Name) -> bool
    ensures { result ≡ has names.now name.now }
{
    names.iter().any(|other| other == name)
}

/// What a converter of the settings gives an element.
pub(crate) fn stock_gift(
    alloc: Global,
    objects: &[Name],
    converter: &StockConverter,
    facts: &Facts,
) -> Result<Option<Gift>, NoMemory>
    ensures { IfOk result (λ gift. gift_viewed gift ≡ stock_gift objects.now converter.now facts.now) }
{
    match converter {
        StockConverter::ElementToElement {
            model,
            attributes,
            parent,
            view,
        } => element_gift(alloc, model, attributes, parent.as_ref(), view, facts),
        StockConverter::ElementToStructure {
            model,
            attributes,
            parent,
            view,
        } => structure_gift(alloc, model, attributes, parent.as_ref(), view, facts),
        StockConverter::AttributeToElement { model, value, view } => {
            if has(objects, &facts.name) {
                layer_gift(alloc, &facts.attributes, model, value.as_ref(), view)
            } else {
                Ok(None)
            }
        }
        StockConverter::AttributeToAttribute {
            element,
            model,
            value,
            view,
        } => extra_gift(alloc, facts, element.as_ref(), model, value.as_ref(), view),
        StockConverter::MarkerToHighlight { .. } | StockConverter::MarkerToElement { .. } => Ok(
            None,
        ),
    }
}
