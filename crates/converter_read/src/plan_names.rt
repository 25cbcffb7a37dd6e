//! The names in a list of converters: those that have to be items, those of products' converters, and the items that need a converter.
ghost use Rattle.std.specs.Prelude.{◌≡◌, option_copied};
ghost use Rattle.schema_definitions.specs.Names.{has};
ghost use Rattle.converter_definitions.specs.PlanNames.{unless_known, unless_all_known, unknown_of_entry, first_unknown_item, is_custom, uses, unknown_custom};
ghost use Rattle.converter_definitions.specs.PlanNames.{first_unknown_custom, is_bare, is_unconditional, converts, first_without_converter};
ghost use Rattle.ck_base.specs.Name.{is_generic};

use ck_base::attributes::Attrs;
use ck_base::name::Name;
use converter_definitions::plan::{ConverterPlan, PlanEntry};
use converter_definitions::stock::StockConverter;

/// Whether a name is among the names.
pub fn has(names: &[Name], name: &Name) -> bool
    ensures { result ≡ has names.now name.now }
{
    for other in names {
        if other == name {
            return true;
        }
    }
    false
}

/// A name that isn't among the known ones.
fn unless_known<'a>(known: &[Name], name: &'a Name) -> Option<&'a Name>
    ensures { option_copied result ≡ unless_known known.now name.now }
{
    if has(known, name) { None } else { Some(name) }
}

/// A name, if there is one, that isn't among the known ones.
fn unless_all_known<'a>(known: &[Name], name: &'a Option<Name>) -> Option<&'a Name>
    ensures { option_copied result ≡ unless_all_known known.now name.now }
{
    match name {
        None => None,
        Some(name) => unless_known(known, name),
    }
}

/// The first name of a converter that has to be an item and isn't among the known ones.
fn unknown_of_entry<'a>(known: &[Name], entry: &'a PlanEntry) -> Option<&'a Name>
    ensures { option_copied result ≡ unknown_of_entry known.now entry.now }
{
    match entry {
        PlanEntry::Boxed { index, .. } => unless_all_known(known, index),
        PlanEntry::Stock(converter) => match converter {
            StockConverter::ElementToElement { model, parent, .. }
            | StockConverter::ElementToStructure { model, parent, .. } => {
                match unless_known(known, model) {
                    Some(name) => Some(name),
                    None => unless_all_known(known, parent),
                }
            }
            StockConverter::AttributeToAttribute { element, .. } => {
                unless_all_known(known, element)
            }
            StockConverter::AttributeToElement { .. }
            | StockConverter::MarkerToHighlight { .. }
            | StockConverter::MarkerToElement { .. } => None,
        },
    }
}

/// The first name, in the order of reading, that has to be an item and isn't among the known ones: of `elementToElement` and
/// `elementToStructure` the model and the parent, of `attributeToAttribute` the element, and of a product's converter the elements whose index
/// it is given. None exactly where there is no such name.
pub fn first_unknown_item<'a>(known: &[Name], plans: &'a [ConverterPlan]) -> Option<&'a Name>
    ensures { option_copied result ≡ first_unknown_item known.now plans.now }
{
    for plan in plans {
        if let Some(name) = unknown_of_entry(known, &plan.entry) {
            return Some(name);
        }
    }
    None
}

/// Whether a converter is the product's of this name.
fn is_custom(entry: &PlanEntry, name: &Name) -> bool
    ensures { result ≡ is_custom entry.now name.now }
{
    match entry {
        PlanEntry::Stock(_) => false,
        PlanEntry::Boxed { name: custom, .. } => custom == name,
    }
}

/// Whether one of the converters is the product's of this name.
fn uses(plans: &[ConverterPlan], name: &Name) -> bool
    ensures { result ≡ uses plans.now name.now }
{
    for plan in plans {
        if is_custom(&plan.entry, name) {
            return true;
        }
    }
    false
}

/// The name of a product's converter that wasn't handed in, or that a converter before it has.
fn unknown_custom<'a>(
    handed_in: &[Name],
    before: &[ConverterPlan],
    entry: &'a PlanEntry,
) -> Option<&'a Name>
    ensures { option_copied result ≡ unknown_custom handed_in.now before.now entry.now }
{
    match entry {
        PlanEntry::Stock(_) => None,
        PlanEntry::Boxed { name, .. } => {
            if has(handed_in, name) && !uses(before, name) {
                None
            } else {
                Some(name)
            }
        }
    }
}

/// The first name of a product's converter, in the order of reading, that isn't among those handed in or that a converter before it has. None
/// exactly where there is no such name.
pub fn first_unknown_custom<'a>(handed_in: &[Name], plans: &'a [ConverterPlan]) -> Option<&'a Name>
    ensures { option_copied result ≡ first_unknown_custom handed_in.now plans.now }
{
    for (index, plan) in plans.iter().enumerate() {
        if let Some(name) = unknown_custom(handed_in, &plans[..index], &plan.entry) {
            return Some(name);
        }
    }
    None
}

/// Whether there are no attributes.
fn is_bare(attributes: &Attrs) -> bool
    ensures { result ≡ is_bare attributes.now }
{
    match attributes.entries().split_first() {
        None => true,
        Some(_) => false,
    }
}

/// Whether a converter makes an element of each element of this name.
fn is_unconditional(entry: &PlanEntry, name: &Name) -> bool
    ensures { result ≡ is_unconditional entry.now name.now }
{
    match entry {
        PlanEntry::Boxed { .. } => false,
        PlanEntry::Stock(converter) => match converter {
            StockConverter::ElementToElement {
                model,
                attributes,
                parent,
                ..
            }
            | StockConverter::ElementToStructure {
                model,
                attributes,
                parent,
                ..
            } => is_bare(attributes) && parent.is_none() && model == name,
            StockConverter::AttributeToElement { .. }
            | StockConverter::AttributeToAttribute { .. }
            | StockConverter::MarkerToHighlight { .. }
            | StockConverter::MarkerToElement { .. } => false,
        },
    }
}

/// Whether one of the converters makes an element of each element of this name.
fn converts(plans: &[ConverterPlan], name: &Name) -> bool
    ensures { result ≡ converts plans.now name.now }
{
    for plan in plans {
        if is_unconditional(&plan.entry, name) {
            return true;
        }
    }
    false
}

/// Whether a name begins with `$`.
pub fn is_generic(name: &Name) -> bool
    ensures { result ≡ is_generic name.now }
{
    matches!(name.as_str().as_bytes(), [b'$', ..])
}

/// The first of these items, which are the registered ones in the order of their bytes, that doesn't begin with `$` and that no converter makes
/// an element of wherever it stands: an `elementToElement` or `elementToStructure` without attributes and parent. None exactly where there is no
/// such item.
pub fn first_without_converter<'a>(
    plans: &[ConverterPlan],
    registered: &'a [Name],
) -> Option<&'a Name>
    ensures { option_copied result ≡ first_without_converter plans.now registered.now }
{
    for name in registered {
        if !is_generic(name) && !converts(plans, name) {
            return Some(name);
        }
    }
    None
}
