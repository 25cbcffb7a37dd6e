//! What an element becomes by all converters.
ghost use Rattle.std.specs.Prelude.{◌≡◌, [], ◌∷◌, ◌+◌, ◌≤◌, ◌++◌, OnOk, IfOk, Some, None, option_map, option_copied, fold, codes};
ghost use Rattle.std.specs.Str.{bytes_eq};
ghost use Rattle.converter_definitions.specs.Gives.{with_gift, gift, collected, converted, converted_of, boxed};
ghost use Rattle.converter_definitions.specs.Shape.{with_outer};
ghost use Rattle.converter_definitions.specs.Views.{with_extra, joined_text};
ghost use Rattle.conv_rules.specs.Gifts.{made_view};
ghost use Rattle.conv_rules.specs.Listed.{boxed_count, converter_of, converters_of, conversion_of, converted_view};
ghost use Rattle.conv_rules.specs.Turn.{turn, boxed_gift};

use crate::consumables::Consumables;
use crate::converter::{Converter, ShapeWriter};
use crate::gift::Collected;
use crate::list::{ConverterList, Entry, Listed};
use crate::stock::stock_gift;
use ck_base::NoMemory;
use ck_base::attributes::ViewAttrs;
use ck_base::name::Name;
use ck_base::steps::{Ledger, StepToken, Steps};
use ck_base::text::ViewText;
use converter_definitions::facts::Facts;
use converter_definitions::shape::{Shape, ShapeNode};
use std::alloc::Global;
use view_tree::kind::Layer;

/// What an element becomes: its shape, and the layers around it in the order of the converters.
#[derive(Debug, Drop)]
pub struct Converted {
    pub shape: Shape<ViewAttrs>,
    pub layers: Vec<Layer>,
}

/// Calls a converter of the product.
fn called(
    alloc: Global,
    object: &dyn Converter,
    facts: &Facts,
    left: &mut Consumables,
    out: &mut ShapeWriter,
    token: StepToken,
) -> Result<(), NoMemory>
    requires { out.old ≡ None }
    ensures { OnOk result ((left.new, out.new) ≡ turn (gives object.now facts.now) left.old) }
{
    object.convert(alloc, facts, left, out, token)
}

/// Calls a converter of the product that is in a box.
fn called_in_box(
    alloc: Global,
    object: &Box<dyn Converter>,
    facts: &Facts,
    left: &mut Consumables,
    out: &mut ShapeWriter,
    token: StepToken,
) -> Result<(), NoMemory>
    requires { out.old ≡ None }
    ensures { OnOk result ((left.new, out.new) ≡ turn (gives object.now facts.now) left.old) }
{
    called(alloc, object.as_ref(), facts, left, out, token)
}

/// The turn of a converter of the product.
#[tactic(auto, using(crate::proofs::Turns::nothing_written, crate::proofs::Turns::part_written))]
fn boxed_turn(
    alloc: Global,
    object: &Box<dyn Converter>,
    facts: &Facts,
    token: StepToken,
    made: &mut Collected,
) -> Result<(), NoMemory>
    ensures { OnOk result (made_view made.new ≡ with_gift (made_view made.old) (boxed_gift (gives object.now facts.now))) }
{
    let mut out = ShapeWriter::new();
    called_in_box(alloc, object, facts, &mut made.left, &mut out, token)?;
    match out.into_part() {
        Some(part) => {
            made.add_part(part)?;
            Ok(())
        }
        None => Ok(()),
    }
}

/// The turn of a converter.
fn entry_turn<L: Ledger>(
    alloc: Global,
    objects: &[Name],
    entry: &Entry,
    facts: &Facts,
    steps: &mut Steps<L>,
    made: &mut Collected,
) -> Result<(), NoMemory>
    ensures made { OnOk result (made_view made.new
        ≡ with_gift (made_view made.old) (gift objects.now facts.now (converter_of (λ object. gives object) entry.now))) }
    ensures calls { steps.new ≤ steps.old + boxed_count (converter_of (λ object. gives object) entry.now ∷ []) }
{
    match entry {
        Entry::Stock(converter) => {
            let gift = stock_gift(alloc, objects, converter, facts)?;
            made.take(gift)?;
            Ok(())
        }
        Entry::Boxed { object, .. } => boxed_turn(alloc, object, facts, steps.draw(), made),
    }
}

/// The turns of all converters.
fn all_turns<L: Ledger>(
    alloc: Global,
    objects: &[Name],
    entries: &[Listed],
    facts: &Facts,
    steps: &mut Steps<L>,
    made: &mut Collected,
) -> Result<(), NoMemory>
    ensures made { OnOk result (made_view made.new
        ≡ fold (λ made converter. with_gift made (gift objects.now facts.now converter)) (made_view made.old)
        (converters_of (λ object. gives object) entries.now)) }
    ensures calls { steps.new ≤ steps.old + boxed_count (converters_of (λ object. gives object) entries.now) }
{
    for listed in entries {
        entry_turn(alloc, objects, &listed.entry, facts, steps, made)?;
    }
    Ok(())
}

/// One text behind another, after a blank.
fn text_behind(alloc: Global, text: &ViewText, more: &ViewText) -> Result<ViewText, NoMemory>
    ensures { IfOk result (λ joined. joined ≡ text.now ++ (32 ∷ more.now)) }
{
    let mut scalars = text.scalars().to_vec(alloc)?;
    scalars.push(' ')?;
    scalars.extend_from_slice(more.scalars())?;
    ViewText::from_scalars(scalars)
}

/// An attribute's text with one more: a class goes behind one blank to the class that is there, and any other text that is there stays.
fn joined_text(
    alloc: Global,
    is_class: bool,
    more: &ViewText,
    there: Option<&ViewText>,
) -> Result<ViewText, NoMemory>
    ensures { IfOk result (λ joined. joined ≡ joined_text is_class more.now (option_copied there.entry)) }
{
    match there {
        None => more.copy(),
        Some(text) if is_class => text_behind(alloc, text, more),
        Some(text) => text.copy(),
    }
}

/// Joins extra attributes to these.
fn join_extra(alloc: Global, attrs: &mut ViewAttrs, extra: &ViewAttrs) -> Result<(), NoMemory>
    ensures { OnOk result (attrs.new ≡ with_extra attrs.old extra.now) }
{
    for (key, text) in extra.entries() {
        let joined = joined_text(alloc, key.as_str() == "class", text, attrs.get(key))?;
        attrs.set(key.copy()?, joined)?;
    }
    Ok(())
}

/// Joins all extra attributes to these.
fn join_extras(alloc: Global, attrs: &mut ViewAttrs, extras: &[ViewAttrs]) -> Result<(), NoMemory>
    ensures { OnOk result (attrs.new ≡ fold with_extra attrs.old extras.now) }
{
    for extra in extras {
        join_extra(alloc, attrs, extra)?;
    }
    Ok(())
}

/// The shape with extra attributes joined to its outermost element.
#[tactic(auto, using(crate::proofs::Shapes::shape_outer))]
fn with_extras(
    alloc: Global,
    shape: Shape<ViewAttrs>,
    extras: &[ViewAttrs],
) -> Result<Shape<ViewAttrs>, NoMemory>
    ensures { IfOk result (λ made. made ≡ with_outer (λ attributes. fold with_extra attributes extras.now) shape) }
{
    let node = match shape.into_outermost() {
        ShapeNode::Element {
            kind,
            name,
            mut attrs,
            children,
        } => {
            join_extras(alloc, &mut attrs, extras)?;
            ShapeNode::Element {
                kind,
                name,
                attrs,
                children,
            }
        }
        node => node,
    };
    match Shape::new(node) {
        Some(shape) => Ok(shape),
        None => unreachable!(),
    }
}

impl ConverterList {
    /// What an element with these facts becomes by all converters, in their order: its one shape, the extra attributes of the others joined to
    /// its outermost element, and its layers, not yet sorted. `None` exactly where no converter makes a shape of it. A call of a
    /// converter of the product takes a token, and no more are drawn than there are such converters, also where memory runs out. It answers
    /// `NoMemory` alone beside Ok.
    pub fn shape_for<L: Ledger>(
        &self,
        alloc: Global,
        facts: &Facts,
        steps: &mut Steps<L>,
    ) -> Result<Option<Converted>, NoMemory>
        ensures ok { IfOk result (λ made. option_map converted_view made ≡ converted (conversion_of (λ object. gives object) self.now) facts.now) }
        ensures calls { steps.new ≤ steps.old + boxed_count (conversion_of (λ object. gives object) self.now).converters }
    {
        let left = Consumables::new(alloc, facts)?;
        let mut made = Collected::new(alloc, left);
        all_turns(
            alloc,
            self.objects.as_slice(),
            self.entries.as_slice(),
            facts,
            steps,
            &mut made,
        )?;
        let Collected {
            left: _,
            form,
            extras,
            layers,
        } = made;
        let Some(form) = form else {
            return Ok(None);
        };
        let shape = with_extras(alloc, form, extras.as_slice())?;
        Ok(Some(Converted { shape, layers }))
    }
}
