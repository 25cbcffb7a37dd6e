//! From the converters of settings to the list of an editor.
ghost use Rattle.std.specs.Prelude.{◌≡◌, ◌==◌, ℕ, List, [], false, option_map, None, IfOk, OnOk};
ghost use Rattle.std.specs.Str.{bytes_eq};
ghost use Rattle.converter_definitions.specs.PlanNames.{is_custom, first_unknown_custom};
ghost use Rattle.schema_definitions.specs.Allowed.{inline_objects};
ghost use Rattle.converter_definitions.specs.Priority.{added};
ghost use Rattle.conv_rules.specs.Listed.{listed_of, conversion_of};
ghost use Rattle.program_definitions.specs.Product.{first_named, names_of};
ghost use Rattle.program_definitions.specs.Converters.{converter_of, all_added, conversion_by};
ghost use Rattle.editor_core.specs.HandedIn.{named_by, IsThere};

use crate::extensions::Named;
use crate::naming::take_named;
use ck_base::NoMemory;
use ck_base::name::Name;
use conv_rules::converter::Converter;
use conv_rules::list::{ConverterList, Entry};
use converter_definitions::plan::{ConverterPlan, PlanEntry};
use schema_rules::schema::Schema;
use std::alloc::Global;

/// Takes the first converter of a name out: None exactly where there is none.
fn take_converter(
    converters: &mut Vec<Named<Box<dyn Converter>>>,
    name: &Name,
) -> Option<Box<dyn Converter>>
    ensures object { option_map (λ object. gives object) result ≡ first_named (named_by (λ object. gives object) converters.old.items) name.now }
    ensures others { (other : List ℕ) → bytes_eq name.now other ≡ false
        → first_named (named_by (λ object. gives object) converters.new.items) other
        ≡ first_named (named_by (λ object. gives object) converters.old.items) other }
{
    take_named(converters, name)
}

/// Adds a converter of the settings; a product's one is taken out of those that are handed in.
fn add_plan(
    list: &mut ConverterList,
    plan: ConverterPlan,
    converters: &mut Vec<Named<Box<dyn Converter>>>,
) -> Result<(), NoMemory>
    requires { IsThere plan.entry (named_by (λ object. gives object) converters.old.items) }
    ensures ok { OnOk result (listed_of (λ object. gives object) list.new
        ≡ added (plan.priority, converter_of (named_by (λ object. gives object) converters.old.items) plan.entry)
        (listed_of (λ object. gives object) list.old)) }
    ensures rest { record (conversion_of (λ object. gives object) list.new) { converters = [] }
        ≡ record (conversion_of (λ object. gives object) list.old) { converters = [] } }
    ensures others { (other : List ℕ) → is_custom plan.entry other ≡ false
        → first_named (named_by (λ object. gives object) converters.new.items) other
        ≡ first_named (named_by (λ object. gives object) converters.old.items) other }
{
    let ConverterPlan { priority, entry } = plan;
    match entry {
        PlanEntry::Stock(converter) => list.add(priority, Entry::Stock(converter)),
        PlanEntry::Boxed { name, .. } => match take_converter(converters, &name) {
            Some(object) => list.add(priority, Entry::Boxed { name, object }),
            None => unreachable!(),
        },
    }
}

/// A list with the converters of the settings as well, in their order.
fn with_plans(
    list: ConverterList,
    plans: Vec<ConverterPlan>,
    converters: Vec<Named<Box<dyn Converter>>>,
) -> Result<ConverterList, NoMemory>
    requires { first_unknown_custom (names_of (named_by (λ object. gives object) converters.items)) plans.items ≡ None }
    ensures converters { IfOk result (λ made. listed_of (λ object. gives object) made
        ≡ all_added (named_by (λ object. gives object) converters.items) (listed_of (λ object. gives object) list) plans.items) }
    ensures rest { IfOk result (λ made. record (conversion_of (λ object. gives object) made) { converters = [] }
        ≡ record (conversion_of (λ object. gives object) list) { converters = [] }) }
{
    let mut list = list;
    let mut converters = converters;
    for plan in plans {
        add_plan(&mut list, plan, &mut converters)?;
    }
    Ok(list)
}

/// The list of an editor of a schema, from the converters of settings of a version, where these converters are handed in.
pub(crate) fn list_of(
    alloc: Global,
    schema: &Schema,
    version: u32,
    plans: Vec<ConverterPlan>,
    indexed: Vec<Name>,
    converters: Vec<Named<Box<dyn Converter>>>,
) -> Result<ConverterList, NoMemory>
    requires { first_unknown_custom (names_of (named_by (λ object. gives object) converters.items)) plans.items ≡ None }
    ensures { IfOk result (λ list. conversion_of (λ object. gives object) list
        ≡ conversion_by (named_by (λ object. gives object) converters.items) version plans.items (inline_objects schema.now) indexed.items) }
{
    let objects = schema.inline_objects()?;
    let list = ConverterList::new(alloc, objects, version == 2, indexed);
    with_plans(list, plans, converters)
}
