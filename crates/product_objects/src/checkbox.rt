//! The converter `checkbox`.
ghost use Rattle.std.specs.Prelude.{◌≡◌, None, IfOk, OnOk, codes, option_copied};
ghost use Rattle.ck_base.specs.Entries.{value_of};
ghost use Rattle.converter_definitions.specs.declared.kind.ShapeKind.TheVariants.{Empty as EmptyKind};
ghost use Rattle.converter_definitions.specs.Form as form;
ghost use Rattle.conv_rules.specs.Turn.{turn};
ghost use Rattle.product_objects.specs.Converters.{is_true, checkbox_keys, checkbox_attributes, checkbox_of};

use crate::turns::{shape_with, write_shape};
use crate::words::{name_of, word};
use ck_base::NoMemory;
use ck_base::attributes::{Attrs, ViewAttrs};
use ck_base::steps::StepToken;
use ck_base::value::Value;
use conv_rules::consumables::Consumables;
use conv_rules::converter::{Converter, ShapeWriter};
use converter_definitions::facts::{Facts, Key};
use converter_definitions::kind::ShapeKind;
use converter_definitions::shape::{Shape, ShapeNode, ShapeNodes};
use std::alloc::Global;

/// Whether an attribute is there with the value `true`.
fn is_true(value: Option<&Value>) -> bool
    ensures { result ≡ is_true (option_copied value.entry) }
{
    matches!(value, Some(Value::Truth(true)))
}

/// The keys that a box consumes.
#[tactic(auto, unfolding(ck_base::specs::Name::is_name))]
fn checkbox_keys(alloc: Global, checked: Option<&Value>) -> Result<Vec<Key>, NoMemory>
    ensures { IfOk result (λ keys. keys.items ≡ checkbox_keys (option_copied checked.entry)) }
{
    let mut keys = Vec::with_capacity(alloc, 2)?;
    keys.push(Key::Insert)?;
    if checked.is_some() {
        keys.push(Key::Attribute(name_of(alloc, "checked")?))?;
    }
    Ok(keys)
}

/// The attributes of a box.
#[tactic(auto, using(crate::proofs::Ascii::checkbox, crate::proofs::Ascii::checked), unfolding(ck_base::specs::Name::is_name))]
fn checkbox_attributes(alloc: Global, is_checked: bool) -> Result<ViewAttrs, NoMemory>
    ensures { IfOk result (λ attrs. attrs ≡ checkbox_attributes is_checked) }
{
    let mut attrs = ViewAttrs::new(alloc);
    let kind = name_of(alloc, "type")?;
    attrs.set(kind, word(alloc, "checkbox")?)?;
    if is_checked {
        let checked = name_of(alloc, "checked")?;
        attrs.set(checked, word(alloc, "checked")?)?;
    }
    Ok(attrs)
}

/// The shape of a box.
#[tactic(auto, unfolding(ck_base::specs::Name::is_name))]
fn checkbox_shape(alloc: Global, is_checked: bool) -> Result<Shape<ViewAttrs>, NoMemory>
    ensures { IfOk result (λ shape. shape ≡ form.element EmptyKind (codes "input") (checkbox_attributes is_checked) form.none) }
{
    let name = name_of(alloc, "input")?;
    let attrs = checkbox_attributes(alloc, is_checked)?;
    Ok(shape_with(ShapeNode::Element {
        kind: ShapeKind::Empty,
        name,
        attrs,
        children: ShapeNodes::new(Vec::new(alloc)),
    }))
}

/// The turn of `checkbox` at a box with these attributes.
#[tactic(auto, unfolding(ck_base::specs::Name::is_name))]
fn convert_checkbox(
    alloc: Global,
    attributes: &Attrs,
    left: &mut Consumables,
    out: &mut ShapeWriter,
) -> Result<(), NoMemory>
    requires { out.old ≡ None }
    ensures { OnOk result ((left.new, out.new) ≡ turn (checkbox_of (value_of (codes "checked") attributes.now)) left.old) }
{
    let key = name_of(alloc, "checked")?;
    let checked = attributes.get(&key);
    let keys = checkbox_keys(alloc, checked)?;
    let shape = checkbox_shape(alloc, is_true(checked))?;
    write_shape(left, out, keys.as_slice(), shape);
    Ok(())
}

/// A box is shown as an `input`, checked where its attribute `checked` is true.
#[derive(Drop)]
pub struct Checkbox;

impl Converter for Checkbox {
    ghost use Rattle.product_objects.specs.Converters.{checkbox};
    ghost use Rattle.product_objects.specs.Lawful.{checkbox_lawful};

    ghost gives = { λ object facts. checkbox facts };

    ghost lawful = { λ object facts. checkbox_lawful facts };

    fn convert(
        &self,
        alloc: Global,
        facts: &Facts,
        left: &mut Consumables,
        out: &mut ShapeWriter,
        _token: StepToken,
    ) -> Result<(), NoMemory> {
        if facts.name.as_str() == "checkbox" {
            convert_checkbox(alloc, &facts.attributes, left, out)
        } else {
            Ok(())
        }
    }
}
