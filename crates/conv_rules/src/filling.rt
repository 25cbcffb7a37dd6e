//! Patterns and shapes of patterns, filled in.
ghost use Rattle.std.specs.Prelude.{◌≡◌, ◌++◌, OnOk, IfOk, Option, Some, None, option_map, map, true};
ghost use Rattle.std.specs.Fmt.{decimal, signed_decimal};
ghost use Rattle.converter_definitions.specs.Form.{forms_of};
ghost use Rattle.converter_definitions.specs.Parts.{shape_of, shapes_of};
ghost use Rattle.converter_definitions.specs.Pattern.{truth_text, printed_value, text_of, texts_of, with_text};
ghost use Rattle.converter_definitions.specs.Shape.{form_with, forms_with, with_outer};
ghost use Rattle.converter_definitions.specs.Views.{with_extra};

use ck_base::NoMemory;
use ck_base::attributes::{Attrs, ViewAttrs};
use ck_base::name::Name;
use ck_base::text::ViewText;
use ck_base::value::Value;
use converter_definitions::pattern::{Pattern, Patterns};
use converter_definitions::shape::{Shape, ShapeNode, ShapeNodes};
use std::alloc::Global;

/// A number in decimal, with its sign, as a text of the view.
#[tactic(auto, using(crate::proofs::Digits::chars_signed))]
fn printed_whole(alloc: Global, number: i64) -> Result<ViewText, NoMemory>
    ensures { IfOk result (λ text. text ≡ signed_decimal number) }
{
    let digits = format!(in alloc; "{number}")?;
    ViewText::read(alloc, digits.as_str())
}

/// A truth value by its word.
#[tactic(auto, using(crate::proofs::Digits::chars_true, crate::proofs::Digits::chars_false))]
fn printed_truth(alloc: Global, truth: bool) -> Result<ViewText, NoMemory>
    ensures { IfOk result (λ text. text ≡ truth_text truth) }
{
    if truth {
        ViewText::read(alloc, "true")
    } else {
        ViewText::read(alloc, "false")
    }
}

/// The value of an attribute as a text of the view: a whole number in decimal, a truth value by its word, and a text as it is.
pub(crate) fn printed_value(alloc: Global, value: &Value) -> Result<ViewText, NoMemory>
    ensures { IfOk result (λ text. text ≡ printed_value value.now) }
{
    match value {
        Value::Whole(number) => printed_whole(alloc, *number),
        Value::Truth(truth) => printed_truth(alloc, *truth),
        Value::Text(text) => ViewText::from_scalars(text.scalars().to_vec(alloc)?),
    }
}

/// A number in decimal, as a text of the view.
#[tactic(auto, using(ck_base::proofs::Digits::chars_decimal))]
fn printed_number(alloc: Global, number: u64) -> Result<ViewText, NoMemory>
    ensures { IfOk result (λ text. text ≡ decimal number) }
{
    let digits = format!(in alloc; "{number}")?;
    ViewText::read(alloc, digits.as_str())
}

/// The text of a pattern, if it has one for an element with these attributes and this index.
pub(crate) fn text_of(
    alloc: Global,
    attributes: &Attrs,
    index: Option<u32>,
    pattern: &Pattern,
) -> Result<Option<ViewText>, NoMemory>
    ensures { IfOk result (λ text. text ≡ text_of attributes.now index pattern.now) }
{
    match pattern {
        Pattern::Text(text) => {
            let text = text.copy()?;
            Ok(Some(text))
        }
        Pattern::From(key) => match attributes.get(key) {
            Some(value) => {
                let text = printed_value(alloc, value)?;
                Ok(Some(text))
            }
            None => Ok(None),
        },
        Pattern::Index(base) => match index {
            Some(number) => {
                let text = printed_number(alloc, u64::from(number) + u64::from(*base))?;
                Ok(Some(text))
            }
            None => Ok(None),
        },
    }
}

/// A text more under its key, if there is one.
pub(crate) fn set_text(
    attributes: &mut ViewAttrs,
    key: &Name,
    text: Option<ViewText>,
) -> Result<(), NoMemory>
    ensures { OnOk result (attributes.new ≡ with_text key.now text attributes.old) }
{
    match text {
        Some(text) => {
            let key = key.copy()?;
            attributes.set(key, text)?;
            Ok(())
        }
        None => Ok(()),
    }
}

/// The view attributes that patterns give; where a pattern has no text, its attribute isn't written.
pub(crate) fn texts_of(
    alloc: Global,
    attributes: &Attrs,
    index: Option<u32>,
    patterns: &Patterns,
) -> Result<ViewAttrs, NoMemory>
    ensures { IfOk result (λ texts. texts ≡ texts_of attributes.now index patterns.now) }
{
    let mut texts = ViewAttrs::new(alloc);
    for (key, pattern) in patterns.as_slice() {
        let text = text_of(alloc, attributes, index, pattern)?;
        set_text(&mut texts, key, text)?;
    }
    Ok(texts)
}

/// A node of a shape with its patterns filled in for an element with these attributes and this index.
#[cycle(nodes)]
#[tactic(auto, using(crate::proofs::Shapes::forms_mapped))]
fn filled_node(
    alloc: Global,
    attributes: &Attrs,
    index: Option<u32>,
    node: &ShapeNode<Patterns>,
) -> Result<ShapeNode<ViewAttrs>, NoMemory>
    ensures { IfOk result (λ made. shape_of made ≡ form_with (texts_of attributes.now index) (shape_of node.now)) }
{
    match node {
        ShapeNode::Slot => Ok(ShapeNode::Slot),
        ShapeNode::Text(text) => {
            let text = text.copy()?;
            Ok(ShapeNode::Text(text))
        }
        ShapeNode::Element {
            kind,
            name,
            attrs,
            children,
        } => {
            let name = name.copy()?;
            let attrs = texts_of(alloc, attributes, index, attrs)?;
            let mut made = Vec::new(alloc);
            push_filled(alloc, attributes, index, children.as_slice(), &mut made)?;
            Ok(ShapeNode::Element {
                kind: *kind,
                name,
                attrs,
                children: ShapeNodes::new(made),
            })
        }
    }
}

/// Nodes of a shape behind those that are made, with their patterns filled in.
#[cycle(nodes)]
fn push_filled(
    alloc: Global,
    attributes: &Attrs,
    index: Option<u32>,
    nodes: &[ShapeNode<Patterns>],
    made: &mut Vec<ShapeNode<ViewAttrs>>,
) -> Result<(), NoMemory>
    ensures { OnOk result (shapes_of made.new.items ≡ shapes_of made.old.items ++ map (form_with (texts_of attributes.now index)) (shapes_of nodes.now)) }
{
    match nodes.split_first() {
        None => Ok(()),
        Some((node, rest)) => {
            made.push(filled_node(alloc, attributes, index, node)?)?;
            push_filled(alloc, attributes, index, rest, made)?;
            Ok(())
        }
    }
}

/// A shape with its patterns filled in for an element with these attributes and this index.
#[tactic(auto, using(crate::proofs::Shapes::shape_filled))]
pub(crate) fn filled(
    alloc: Global,
    attributes: &Attrs,
    index: Option<u32>,
    shape: &Shape<Patterns>,
) -> Result<Shape<ViewAttrs>, NoMemory>
    ensures { IfOk result (λ made. made ≡ form_with (texts_of attributes.now index) shape.now) }
{
    let node = filled_node(alloc, attributes, index, shape.outermost())?;
    match Shape::new(node) {
        Some(shape) => Ok(shape),
        None => unreachable!(),
    }
}
