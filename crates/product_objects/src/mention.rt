//! The converter `mention`.
ghost use Rattle.std.specs.Prelude.{◌≡◌, [], ◌∷◌, None, IfOk, OnOk, codes};
ghost use Rattle.ck_base.specs.Entries.{value_of};
ghost use Rattle.converter_definitions.specs.declared.kind.ShapeKind.TheVariants.{Ui as UiKind};
ghost use Rattle.converter_definitions.specs.Form as form;
ghost use Rattle.converter_definitions.specs.Parts.{shape_of};
ghost use Rattle.conv_rules.specs.Turn.{turn};
ghost use Rattle.product_objects.specs.Converters.{text_in, mention_form, mention_of};

use crate::turns::{shape_with, write_shape};
use crate::words::{joined, name_of, text_of, word};
use ck_base::NoMemory;
use ck_base::attributes::{Attrs, ViewAttrs};
use ck_base::steps::StepToken;
use ck_base::text::TextVal;
use conv_rules::consumables::Consumables;
use conv_rules::converter::{Converter, ShapeWriter};
use converter_definitions::facts::{Facts, Key};
use converter_definitions::kind::ShapeKind;
use converter_definitions::shape::{Shape, ShapeNode, ShapeNodes};
use std::alloc::Global;

/// The attributes of a mention.
#[tactic(auto, using(crate::proofs::Ascii::mention, crate::proofs::Ascii::nothing), unfolding(ck_base::specs::Name::is_name))]
fn mention_attributes(alloc: Global, user: &TextVal) -> Result<ViewAttrs, NoMemory>
    ensures { IfOk result (λ attrs. attrs ≡ (codes "class", codes "mention") ∷ (codes "data-user", user.now) ∷ []) }
{
    let mut attrs = ViewAttrs::new(alloc);
    let class = name_of(alloc, "class")?;
    attrs.set(class, word(alloc, "mention")?)?;
    let data = name_of(alloc, "data-user")?;
    attrs.set(data, joined(alloc, "", user)?)?;
    Ok(attrs)
}

/// The text of a mention, in a UI element.
#[tactic(auto, using(crate::proofs::Ascii::at_sign), unfolding(ck_base::specs::Name::is_name))]
fn mention_text(alloc: Global, user: &TextVal) -> Result<ShapeNode<ViewAttrs>, NoMemory>
    ensures { IfOk result (λ node. shape_of node ≡ form.element UiKind (codes "b") [] (form.more (form.text (64 ∷ user.now)) form.none)) }
{
    let name = name_of(alloc, "b")?;
    let text = joined(alloc, "@", user)?;
    let mut children = Vec::with_capacity(alloc, 1)?;
    children.push(ShapeNode::Text(text))?;
    Ok(ShapeNode::Element {
        kind: ShapeKind::Ui,
        name,
        attrs: ViewAttrs::new(alloc),
        children: ShapeNodes::new(children),
    })
}

/// The shape of a mention.
#[tactic(auto, unfolding(ck_base::specs::Name::is_name))]
fn mention_shape(alloc: Global, user: &TextVal) -> Result<Shape<ViewAttrs>, NoMemory>
    ensures { IfOk result (λ shape. shape ≡ mention_form user.now) }
{
    let name = name_of(alloc, "span")?;
    let attrs = mention_attributes(alloc, user)?;
    let mut children = Vec::with_capacity(alloc, 1)?;
    children.push(mention_text(alloc, user)?)?;
    Ok(shape_with(ShapeNode::Element {
        kind: ShapeKind::Container,
        name,
        attrs,
        children: ShapeNodes::new(children),
    }))
}

/// The turn of `mention` at a mention with these attributes.
#[tactic(auto, unfolding(ck_base::specs::Name::is_name))]
fn convert_mention(
    alloc: Global,
    attributes: &Attrs,
    left: &mut Consumables,
    out: &mut ShapeWriter,
) -> Result<(), NoMemory>
    requires { out.old ≡ None }
    ensures { OnOk result ((left.new, out.new) ≡ turn (mention_of (text_in (value_of (codes "user") attributes.now))) left.old) }
{
    let key = name_of(alloc, "user")?;
    match text_of(attributes, &key) {
        None => Ok(()),
        Some(user) => {
            let shape = mention_shape(alloc, user)?;
            write_shape(left, out, &[Key::Insert, Key::Attribute(key)], shape);
            Ok(())
        }
    }
}

/// A mention of a user is shown as `@` and the user.
#[derive(Drop)]
pub struct Mention;

impl Converter for Mention {
    ghost use Rattle.product_objects.specs.Converters.{mention};
    ghost use Rattle.product_objects.specs.Lawful.{mention_lawful};

    ghost gives = { λ object facts. mention facts };

    ghost lawful = { λ object facts. mention_lawful facts };

    fn convert(
        &self,
        alloc: Global,
        facts: &Facts,
        left: &mut Consumables,
        out: &mut ShapeWriter,
        _token: StepToken,
    ) -> Result<(), NoMemory> {
        if facts.name.as_str() == "mention" {
            convert_mention(alloc, &facts.attributes, left, out)
        } else {
            Ok(())
        }
    }
}
