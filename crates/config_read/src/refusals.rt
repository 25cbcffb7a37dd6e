//! Why what a settings file says is refused.
ghost use Rattle.std.specs.Prelude.{◌≡◌, ◌≢◌, None, IfOk, OnOk, option_copied, option_map};
ghost use Rattle.std.specs.Option.{option_or};
ghost use Rattle.schema_definitions.specs.Allowed.{registered};
ghost use Rattle.converter_definitions.specs.PlanNames.{first_unknown_custom, first_without_converter};
ghost use Rattle.settings_definitions.specs.declared.fault.SettingsFault.TheVariants.{UnknownItem as UnknownName};
ghost use Rattle.settings_definitions.specs.Settings.{rules_of, unknown_start, first_unknown_of_plans, plans_refusal, refusal_of};
ghost use Rattle.settings_definitions.specs.FixerNames.{first_unknown_custom_fixer};
ghost use Rattle.config_read.specs.FileForm.{form_view};
ghost use Rattle.config_read.specs.Ordered.{named_first, ordered};
ghost use Rattle.config_read.specs.Refused.{Refuses};

use crate::file_form::FileForm;
use crate::fixer_names::{first_unknown_custom_fixer, first_unknown_of_fixers};
use crate::registered::registered_items;
use ck_base::name::Name;
use converter_read::plan_names::{
    first_unknown_custom, first_unknown_item, first_without_converter, has, is_generic,
};
use schema_definitions::fault::SchemaFault;
use schema_rules::compile::compile;
use schema_rules::schema::Schema;
use settings_definitions::fault::SettingsFault;
use std::alloc::Global;

/// The start, if it is none of these registered items or begins with `$`.
fn unknown_start<'a>(items: &[Name], start: &'a Option<Name>) -> Option<&'a Name>
    ensures { option_copied result ≡ unknown_start items.now start.now }
{
    match start {
        Some(name) if is_generic(name) || !has(items, name) => Some(name),
        _ => None,
    }
}

/// The fault that a name is no item.
fn unknown_item(name: &Name) -> SettingsFault
    ensures { result ≢ SettingsFault.NoMemory → result ≡ SettingsFault.UnknownItem name.now }
{
    match name.copy() {
        Ok(name) => SettingsFault::UnknownItem(name),
        Err(_) => SettingsFault::NoMemory,
    }
}

/// The fault that a product's converter or fixer wasn't handed in, or was used before.
fn unknown_custom(name: &Name) -> SettingsFault
    ensures { result ≢ SettingsFault.NoMemory → result ≡ SettingsFault.UnknownCustom name.now }
{
    match name.copy() {
        Ok(name) => SettingsFault::UnknownCustom(name),
        Err(_) => SettingsFault::NoMemory,
    }
}

/// The fault that an item has no converter.
fn no_converter(name: &Name) -> SettingsFault
    ensures { result ≢ SettingsFault.NoMemory → result ≡ SettingsFault.NoConverter name.now }
{
    match name.copy() {
        Ok(name) => SettingsFault::NoConverter(name),
        Err(_) => SettingsFault::NoMemory,
    }
}

/// The first of two names that is there.
fn first_of<'a>(first: Option<&'a Name>, second: Option<&'a Name>) -> Option<&'a Name>
    ensures { option_copied result ≡ option_or (option_copied first.entry) (option_copied second.entry) }
{
    match first {
        Some(name) => Some(name),
        None => second,
    }
}

/// The fault that a name, if there is one, is no item, or else the schema's.
fn named_first(name: Option<&Name>, fault: SchemaFault) -> SettingsFault
    ensures { result ≢ SettingsFault.NoMemory → result ≡ named_first (option_copied name.entry) fault }
{
    match name {
        Some(name) => unknown_item(name),
        None => SettingsFault::from(fault),
    }
}

/// The first of the schema's fault, that of the start, and that of a name of the fixers and converters.
fn ordered(start: Option<&Name>, plan_name: Option<&Name>, fault: SchemaFault) -> SettingsFault
    ensures { result ≢ SettingsFault.NoMemory
        → result ≡ ordered (option_copied start.entry) (option_copied plan_name.entry) fault }
{
    match fault {
        SchemaFault::UnknownItem(name) => named_first(start, SchemaFault::UnknownItem(name)),
        SchemaFault::BadCheck(count) => {
            named_first(first_of(start, plan_name), SchemaFault::BadCheck(count))
        }
        fault => SettingsFault::from(fault),
    }
}

/// The first name, in the fixers and then in the converters, that has to be one of these registered items and isn't.
fn first_unknown_of_plans<'a>(items: &[Name], form: &'a FileForm) -> Option<&'a Name>
    ensures { option_copied result ≡ first_unknown_of_plans items.now (form_view form.now) }
{
    match first_unknown_of_fixers(items, form.fixers.as_slice()) {
        Some(name) => Some(name),
        None => first_unknown_item(items, form.converters.as_slice()),
    }
}

/// Tests the converters and fixers beside a schema: those of products have names that are handed in for their kind, and each but once, and each
/// registered item that doesn't begin with `$` has a converter wherever it stands.
fn test_plans(
    schema: &Schema,
    converters: &[Name],
    fixers: &[Name],
    form: &FileForm,
) -> Result<(), SettingsFault>
    ensures refused { Refuses result (plans_refusal converters.now fixers.now schema.now (form_view form.now)) }
    ensures handed_in { OnOk result (first_unknown_custom converters.now form.now.converters.items ≡ None) }
    ensures fixers_handed_in { OnOk result (first_unknown_custom_fixer fixers.now form.now.fixers.items ≡ None) }
    ensures converted { OnOk result (first_without_converter form.now.converters.items (registered schema.now) ≡ None) }
{
    if let Some(name) = first_unknown_custom(converters, form.converters.as_slice()) {
        return Err(unknown_custom(name));
    }
    if let Some(name) = first_unknown_custom_fixer(fixers, form.fixers.as_slice()) {
        return Err(unknown_custom(name));
    }
    let items = schema.registered()?;
    match first_without_converter(form.converters.as_slice(), items.as_slice()) {
        Some(name) => Err(no_converter(name)),
        None => Ok(()),
    }
}

/// A schema that is accepted, unless a name is no item or the converters and fixers are refused beside it.
fn accepted(
    schema: Schema,
    unknown: Option<&Name>,
    converters: &[Name],
    fixers: &[Name],
    form: &FileForm,
) -> Result<Schema, SettingsFault>
    ensures ok { IfOk result (λ made. made ≡ schema) }
    ensures refused { Refuses result
        (option_or (option_map UnknownName (option_copied unknown.entry)) (plans_refusal converters.now fixers.now schema (form_view form.now))) }
    ensures handed_in { OnOk result (first_unknown_custom converters.now form.now.converters.items ≡ None) }
    ensures fixers_handed_in { OnOk result (first_unknown_custom_fixer fixers.now form.now.fixers.items ≡ None) }
    ensures converted { OnOk result (first_without_converter form.now.converters.items (registered schema) ≡ None) }
{
    if let Some(name) = unknown {
        return Err(unknown_item(name));
    }
    test_plans(&schema, converters, fixers, form)?;
    Ok(schema)
}

/// The schema of what a file says, or why the file is refused.
#[tactic(auto, using(crate::proofs::Order::schema_rules))]
pub(crate) fn schema_of(
    alloc: Global,
    converters: &[Name],
    fixers: &[Name],
    form: &FileForm,
) -> Result<Schema, SettingsFault>
    ensures ok { IfOk result (λ schema. schema ≡ rules_of (form_view form.now)) }
    ensures refused { Refuses result (refusal_of converters.now fixers.now (form_view form.now)) }
    ensures handed_in { OnOk result (first_unknown_custom converters.now form.now.converters.items ≡ None) }
    ensures fixers_handed_in { OnOk result (first_unknown_custom_fixer fixers.now form.now.fixers.items ≡ None) }
    ensures converted { IfOk result (λ schema. first_without_converter form.now.converters.items (registered schema) ≡ None) }
{
    let items = registered_items(alloc, form.schema.entries.as_slice())?;
    let start = unknown_start(&items, &form.start);
    let plan_name = first_unknown_of_plans(&items, form);
    match compile(alloc, &form.schema) {
        Ok(schema) => accepted(schema, first_of(start, plan_name), converters, fixers, form),
        Err(fault) => Err(ordered(start, plan_name, fault)),
    }
}
