//! Readers of shapes. Each answers what the definition of its name reads, `BadField` with the first place that breaks the form, or `NoMemory`;
//! a path leads to the value that is read.
ghost use Rattle.std.specs.Prelude.{◌≡◌, ◌<◌, ◌+◌, ◌&&◌, ◌==◌, true, Ok, IfOk, OnOk};
ghost use Rattle.std.specs.Str.{chars};
ghost use Rattle.serde_json.specs.View.{view, items_view};
ghost use Rattle.json_forms.specs.Form.{Reads};
ghost use Rattle.converter_definitions.specs.Parts.{shape_of, shapes_of};
ghost use Rattle.converter_forms.specs.ShapeForm.{takes_slot, takes_text, takes_element, stands, behind, behind_all, inside, nodes_at, children_at};
ghost use Rattle.converter_forms.specs.ShapeForm.{slot_field, slot_at, text_at, kind_of_type, type_field, head_at, element_at, object_node_at, node_of};
ghost use Rattle.converter_forms.specs.ShapeForm.{node_at, below, shape_at};

use crate::patterns::patterns_field;
use ck_base::faults::FieldPath;
use ck_base::name::Name;
use ck_base::text::ViewText;
use converter_definitions::kind::ShapeKind;
use converter_definitions::pattern::Patterns;
use converter_definitions::shape::{Shape, ShapeNode, ShapeNodes};
use converter_forms::parts::{Before, Head};
use json_forms::fault::FormFault;
use json_forms::forms::{bad_field, bad_value, only_fields};
use json_names::names::name_field;
use json_names::values::truth_field;
use serde_json::Value;
use std::alloc::Global;

/// The most nodes of a shape.
const MAX_NODES: u32 = 32;

/// The most levels of a shape.
const MAX_LEVELS: u32 = 8;

/// Where a node stands: in an element of this kind, or as the outermost node, and on the first of so many levels that are left.
#[derive(Clone, Copy, Debug)]
struct Spot {
    parent: Option<ShapeKind>,
    levels: u32,
}

/// Whether an element of this kind, or no element, takes a slot.
fn takes_slot(parent: Option<ShapeKind>) -> bool
    ensures { result ≡ takes_slot parent }
{
    matches!(parent, Some(ShapeKind::Container))
}

/// Whether an element of this kind, or no element, takes a text.
fn takes_text(parent: Option<ShapeKind>) -> bool
    ensures { result ≡ takes_text parent }
{
    matches!(parent, Some(ShapeKind::Ui))
}

/// Whether an element of this kind takes one of the other kind, and which kind the outermost node has.
fn takes_element(parent: Option<ShapeKind>, kind: ShapeKind) -> bool
    ensures { result ≡ takes_element parent kind }
{
    match parent {
        None => matches!(kind, ShapeKind::Container),
        Some(ShapeKind::Container) => true,
        Some(ShapeKind::Empty) => false,
        Some(ShapeKind::Ui) => matches!(kind, ShapeKind::Ui),
    }
}

/// Tests whether a node may stand where it is, and counts it.
#[tactic(auto, unfolding(converter_forms::specs::ShapeForm::inside))]
fn stand(path: &FieldPath, taken: bool, levels: u32, before: &mut Before) -> Result<(), FormFault>
    ensures reads { Reads (λ _. tt) result (stands path.now taken levels before.old) }
    ensures taken { OnOk result (taken ≡ true) }
    ensures levels { OnOk result (0 < levels) }
    ensures counted { OnOk result (before.new ≡ inside before.old) }
{
    if taken && 0 < levels && before.nodes < MAX_NODES {
        before.nodes += 1;
        Ok(())
    } else {
        Err(bad_value(path))
    }
}

/// Tests the field of a slot.
#[tactic(auto, unfolding(converter_forms::specs::ShapeForm::slot_field))]
fn slot_field(path: &FieldPath, value: &Value) -> Result<(), FormFault>
    ensures { Reads (λ _. tt) result (slot_field path.now (view value.now)) }
{
    let truth = truth_field(path, "slot", value)?;
    if truth {
        Ok(())
    } else {
        Err(bad_field(path, "slot"))
    }
}

/// A slot.
#[tactic(auto, unfolding(converter_forms::specs::ShapeForm::slot_at, converter_forms::specs::ShapeForm::inside, converter_forms::specs::ShapeForm::behind))]
fn slot_at(
    spot: Spot,
    before: &mut Before,
    path: &FieldPath,
    value: &Value,
) -> Result<ShapeNode<Patterns>, FormFault>
    ensures reads { Reads shape_of result (slot_at spot.levels spot.parent before.old path.now (view value.now)) }
    ensures counted { IfOk result (λ node. before.new ≡ behind (shape_of node) before.old) }
{
    slot_field(path, value)?;
    let taken = takes_slot(spot.parent) && before.slots == 0;
    stand(path, taken, spot.levels, before)?;
    before.slots = 1;
    only_fields(path, &["slot"], value)?;
    Ok(ShapeNode::Slot)
}

/// A text.
#[tactic(auto, unfolding(converter_forms::specs::ShapeForm::text_at, converter_forms::specs::ShapeForm::inside, converter_forms::specs::ShapeForm::behind))]
fn text_at(
    alloc: Global,
    spot: Spot,
    before: &mut Before,
    path: &FieldPath,
    text: &str,
) -> Result<ShapeNode<Patterns>, FormFault>
    ensures reads { Reads shape_of result (text_at spot.levels spot.parent before.old path.now (chars text.now)) }
    ensures counted { IfOk result (λ node. before.new ≡ behind (shape_of node) before.old) }
{
    stand(path, takes_text(spot.parent), spot.levels, before)?;
    let text = ViewText::read(alloc, text)?;
    Ok(ShapeNode::Text(text))
}

/// The kind that the word of a type means.
fn kind_of_type(word: &str) -> Option<ShapeKind>
    ensures { result ≡ kind_of_type word.now }
{
    match word {
        "container" => Some(ShapeKind::Container),
        "empty" => Some(ShapeKind::Empty),
        "ui" => Some(ShapeKind::Ui),
        _ => None,
    }
}

/// The kind of an element.
#[tactic(auto, unfolding(converter_forms::specs::ShapeForm::type_field))]
fn type_field(path: &FieldPath, value: &Value) -> Result<ShapeKind, FormFault>
    ensures { Reads (λ kind. kind) result (type_field path.now (view value.now)) }
{
    let Some(found) = value.get("type") else {
        return Ok(ShapeKind::Container);
    };
    match found.as_str().and_then(kind_of_type) {
        Some(kind) => Ok(kind),
        None => Err(bad_field(path, "type")),
    }
}

/// An element's own fields.
#[tactic(auto, unfolding(converter_forms::specs::ShapeForm::head_at))]
fn head_at(alloc: Global, indexes: bool, path: &FieldPath, value: &Value) -> Result<Head, FormFault>
    ensures { Reads (λ head. head) result (head_at indexes path.now (view value.now)) }
{
    let name = name_field(alloc, path, "name", value)?;
    let kind = type_field(path, value)?;
    let attributes = patterns_field(alloc, indexes, path, "attributes", value)?;
    Ok(Head {
        kind,
        name,
        attributes,
    })
}

/// The children of an element of this kind, on the first of so many levels, from a list.
#[cycle(nodes)]
#[tactic(auto, using(json_names::proofs::Fronts::with_front_more, crate::proofs::Counts::shapes_more, crate::proofs::Counts::behind_none, crate::proofs::Counts::behind_more), unfolding(converter_forms::specs::ShapeForm::nodes_at))]
fn nodes_at(
    alloc: Global,
    indexes: bool,
    spot: Spot,
    before: &mut Before,
    path: &FieldPath,
    items: &Vec<Value>,
) -> Result<Vec<ShapeNode<Patterns>>, FormFault>
    ensures reads { Reads (λ nodes. shapes_of nodes.items) result
        (nodes_at (node_at indexes spot.levels) spot.parent before.old path.now 0 (items_view items.now.items)) }
    ensures counted { IfOk result (λ nodes. before.new ≡ behind_all (shapes_of nodes.items) before.old) }
{
    let mut nodes = Vec::with_capacity(alloc, items.len())?;
    for (index, item) in items.iter().enumerate() {
        let place = path.index(index)?;
        nodes.push(node_at(alloc, indexes, spot, before, &place, item)?)?;
    }
    Ok(nodes)
}

/// The children of an element of this kind, on the first of so many levels.
#[cycle(nodes)]
#[tactic(auto, using(crate::proofs::Counts::behind_none), unfolding(converter_forms::specs::ShapeForm::children_at))]
fn children_at(
    alloc: Global,
    indexes: bool,
    spot: Spot,
    before: &mut Before,
    path: &FieldPath,
    value: &Value,
) -> Result<Vec<ShapeNode<Patterns>>, FormFault>
    ensures reads { Reads (λ nodes. shapes_of nodes.items) result
        (children_at (node_at indexes spot.levels) spot.parent before.old path.now (view value.now)) }
    ensures counted { IfOk result (λ nodes. before.new ≡ behind_all (shapes_of nodes.items) before.old) }
{
    let Some(found) = value.get("children") else {
        return Ok(Vec::new(alloc));
    };
    let Some(items) = found.as_array() else {
        return Err(bad_field(path, "children"));
    };
    let place = path.field("children")?;
    nodes_at(alloc, indexes, spot, before, &place, items)
}

/// An element and what is in it.
#[cycle(nodes)]
#[tactic(auto, using(crate::proofs::Levels::below_level, crate::proofs::Counts::behind_element), unfolding(converter_forms::specs::ShapeForm::element_at))]
fn element_at(
    alloc: Global,
    indexes: bool,
    spot: Spot,
    before: &mut Before,
    path: &FieldPath,
    value: &Value,
) -> Result<ShapeNode<Patterns>, FormFault>
    ensures reads { Reads shape_of result
        (element_at indexes (below indexes spot.levels) spot.levels spot.parent before.old path.now (view value.now)) }
    ensures counted { IfOk result (λ node. before.new ≡ behind (shape_of node) before.old) }
{
    let head = head_at(alloc, indexes, path, value)?;
    stand(
        path,
        takes_element(spot.parent, head.kind),
        spot.levels,
        before,
    )?;
    let inside = Spot {
        parent: Some(head.kind),
        levels: spot.levels - 1,
    };
    let children = children_at(alloc, indexes, inside, before, path, value)?;
    only_fields(path, &["name", "type", "attributes", "children"], value)?;
    Ok(ShapeNode::Element {
        kind: head.kind,
        name: head.name,
        attrs: head.attributes,
        children: ShapeNodes::new(children),
    })
}

/// A slot or an element, whose value is an object.
#[cycle(nodes)]
#[tactic(auto, unfolding(converter_forms::specs::ShapeForm::object_node_at))]
fn object_node_at(
    alloc: Global,
    indexes: bool,
    spot: Spot,
    before: &mut Before,
    path: &FieldPath,
    value: &Value,
) -> Result<ShapeNode<Patterns>, FormFault>
    ensures reads { Reads shape_of result
        (object_node_at indexes (below indexes spot.levels) spot.levels spot.parent before.old path.now (view value.now)) }
    ensures counted { IfOk result (λ node. before.new ≡ behind (shape_of node) before.old) }
{
    if value.get("slot").is_some() {
        slot_at(spot, before, path, value)
    } else {
        element_at(alloc, indexes, spot, before, path, value)
    }
}

/// A node of any form.
#[cycle(nodes)]
#[tactic(auto, unfolding(converter_forms::specs::ShapeForm::node_of))]
fn node_of(
    alloc: Global,
    indexes: bool,
    spot: Spot,
    before: &mut Before,
    path: &FieldPath,
    value: &Value,
) -> Result<ShapeNode<Patterns>, FormFault>
    ensures reads { Reads shape_of result
        (node_of indexes (below indexes spot.levels) spot.levels spot.parent before.old path.now (view value.now)) }
    ensures counted { IfOk result (λ node. before.new ≡ behind (shape_of node) before.old) }
{
    match value {
        Value::String(text) => text_at(alloc, spot, before, path, text.as_str()),
        Value::Object(_) => object_node_at(alloc, indexes, spot, before, path, value),
        _ => Err(bad_value(path)),
    }
}

/// A node and what is in it.
#[cycle(nodes)]
#[tactic(auto, using(crate::proofs::Levels::node_level))]
fn node_at(
    alloc: Global,
    indexes: bool,
    spot: Spot,
    before: &mut Before,
    path: &FieldPath,
    value: &Value,
) -> Result<ShapeNode<Patterns>, FormFault>
    ensures reads { Reads shape_of result (node_at indexes spot.levels spot.parent before.old path.now (view value.now)) }
    ensures counted { IfOk result (λ node. before.new ≡ behind (shape_of node) before.old) }
{
    let node = node_of(alloc, indexes, spot, before, path, value)?;
    Ok(node)
}

/// A shape, by its outermost node.
#[tactic(auto, using(crate::proofs::Read::read_shape), unfolding(converter_forms::specs::ShapeForm::shape_at))]
pub(crate) fn shape_at(
    alloc: Global,
    indexes: bool,
    path: &FieldPath,
    value: &Value,
) -> Result<Shape<Patterns>, FormFault>
    ensures { Reads (λ shape. shape) result (shape_at indexes path.now (view value.now)) }
{
    let spot = Spot {
        parent: None,
        levels: MAX_LEVELS,
    };
    let mut before = Before { nodes: 0, slots: 0 };
    let node = node_at(alloc, indexes, spot, &mut before, path, value)?;
    match Shape::new(node) {
        Some(shape) => Ok(shape),
        None => unreachable!(),
    }
}
