//! The converter `headingAnchor`.
ghost use Rattle.std.specs.Prelude.{◌≡◌, [], ◌∷◌, ◌++◌, None, IfOk, OnOk, codes};
ghost use Rattle.ck_base.specs.Entries.{value_of};
ghost use Rattle.conv_rules.specs.Turn.{turn};
ghost use Rattle.product_objects.specs.Converters.{text_in, anchor_of};

use crate::turns::write_extra;
use crate::words::{joined, name_of, text_of};
use ck_base::NoMemory;
use ck_base::attributes::{Attrs, ViewAttrs};
use ck_base::steps::StepToken;
use ck_base::text::TextVal;
use conv_rules::consumables::Consumables;
use conv_rules::converter::{Converter, ShapeWriter};
use converter_definitions::facts::{Facts, Key};
use std::alloc::Global;

/// The attribute of a heading with an anchor.
#[tactic(auto, using(crate::proofs::Ascii::anchor), unfolding(ck_base::specs::Name::is_name))]
fn anchor_attributes(alloc: Global, anchor: &TextVal) -> Result<ViewAttrs, NoMemory>
    ensures { IfOk result (λ attrs. attrs ≡ (codes "id", codes "anchor-" ++ anchor.now) ∷ []) }
{
    let mut attrs = ViewAttrs::new(alloc);
    let id = name_of(alloc, "id")?;
    attrs.set(id, joined(alloc, "anchor-", anchor)?)?;
    Ok(attrs)
}

/// The turn of `headingAnchor` at a heading with these attributes.
#[tactic(auto, unfolding(ck_base::specs::Name::is_name))]
fn convert_anchor(
    alloc: Global,
    attributes: &Attrs,
    left: &mut Consumables,
    out: &mut ShapeWriter,
) -> Result<(), NoMemory>
    requires { out.old ≡ None }
    ensures { OnOk result ((left.new, out.new) ≡ turn (anchor_of (text_in (value_of (codes "anchor") attributes.now))) left.old) }
{
    let key = name_of(alloc, "anchor")?;
    match text_of(attributes, &key) {
        None => Ok(()),
        Some(anchor) => {
            let attrs = anchor_attributes(alloc, anchor)?;
            write_extra(left, out, &[Key::Attribute(key)], attrs);
            Ok(())
        }
    }
}

/// A heading with an anchor has an `id` in the view, `anchor-` and the anchor.
#[derive(Drop)]
pub struct HeadingAnchor;

impl Converter for HeadingAnchor {
    ghost use Rattle.product_objects.specs.Converters.{heading_anchor};
    ghost use Rattle.product_objects.specs.Lawful.{heading_anchor_lawful};

    ghost gives = { λ object facts. heading_anchor facts };

    ghost lawful = { λ object facts. heading_anchor_lawful facts };

    fn convert(
        &self,
        alloc: Global,
        facts: &Facts,
        left: &mut Consumables,
        out: &mut ShapeWriter,
        _token: StepToken,
    ) -> Result<(), NoMemory> {
        if facts.name.as_str() == "heading" {
            convert_anchor(alloc, &facts.attributes, left, out)
        } else {
            Ok(())
        }
    }
}
