//! The schema of a settings file. Each reader answers what the definition of its name reads, `BadField` with the first place that breaks the
//! form, or `NoMemory`; a path leads to the value that is read.
ghost use Rattle.std.specs.Prelude.{◌≡◌, codes};
ghost use Rattle.serde_json.specs.Find.{get};
ghost use Rattle.serde_json.specs.View.{view, items_view};
ghost use Rattle.json_forms.specs.Form.{Reads};
ghost use Rattle.settings_definitions.specs.SchemaForm.{subject_at, list_name, flag_name, list_at, flag_at, places_at, sources_at, flags_at, entry_of};
ghost use Rattle.settings_definitions.specs.SchemaForm.{only_entry_fields, entry_at, entries_at, child_check_at, attribute_check_at, is_child_form, check_at};
ghost use Rattle.settings_definitions.specs.SchemaForm.{checks_at};

use ck_base::faults::FieldPath;
use json_forms::fault::FormFault;
use json_forms::forms::{bad_field, object_at, only_fields};
use json_names::names::{name_at, name_field, name_list_field, names_field};
use json_names::values::{optional_truth, truth_field};
use schema_definitions::file::{Check, Entry, Flag, Subject};
use schema_definitions::names::Names;
use serde_json::Value;
use settings_definitions::parts::{EntryList, Flags, Places, Sources};
use std::alloc::Global;

/// The item of an entry: exactly one of `item` and `extend`.
#[tactic(auto, unfolding(settings_definitions::specs::SchemaForm::subject_at))]
fn subject_at(alloc: Global, path: &FieldPath, value: &Value) -> Result<Subject, FormFault>
    ensures { Reads (λ subject. subject) result (subject_at path.now (view value.now)) }
{
    match value.get("item") {
        Some(found) => {
            if value.get("extend").is_some() {
                return Err(bad_field(path, "item"));
            }
            let place = path.field("item")?;
            let name = name_at(alloc, &place, found)?;
            Ok(Subject::Item(name))
        }
        None => {
            let Some(found) = value.get("extend") else {
                return Err(bad_field(path, "item"));
            };
            let place = path.field("extend")?;
            let name = name_at(alloc, &place, found)?;
            Ok(Subject::Extend(name))
        }
    }
}

/// The name of a list in the file.
#[tactic(auto, unfolding(settings_definitions::specs::SchemaForm::list_name))]
fn list_name(list: EntryList) -> &'static str
    ensures { result.now ≡ list_name list }
{
    match list {
        EntryList::AllowIn => "allowIn",
        EntryList::AllowChildren => "allowChildren",
        EntryList::AllowAttributes => "allowAttributes",
        EntryList::AllowWhere => "allowWhere",
        EntryList::AllowContentOf => "allowContentOf",
        EntryList::AllowAttributesOf => "allowAttributesOf",
        EntryList::InheritTypesFrom => "inheritTypesFrom",
        EntryList::InheritAllFrom => "inheritAllFrom",
    }
}

/// The name of a flag in the file.
#[tactic(auto, unfolding(settings_definitions::specs::SchemaForm::flag_name))]
fn flag_name(flag: Flag) -> &'static str
    ensures { result.now ≡ flag_name flag }
{
    match flag {
        Flag::Block => "isBlock",
        Flag::Inline => "isInline",
        Flag::Limit => "isLimit",
        Flag::Object => "isObject",
        Flag::Selectable => "isSelectable",
        Flag::Content => "isContent",
    }
}

/// A list of an entry: a name or a list of names; where it isn't there, there are none.
#[tactic(auto, unfolding(settings_definitions::specs::SchemaForm::list_at))]
fn list_at(
    alloc: Global,
    path: &FieldPath,
    list: EntryList,
    value: &Value,
) -> Result<Names, FormFault>
    ensures { Reads (λ names. names) result (list_at path.now list (view value.now)) }
{
    let names = names_field(alloc, path, list_name(list), value)?;
    Ok(Names::new(names))
}

/// What is written of a flag of an entry.
#[tactic(auto, unfolding(settings_definitions::specs::SchemaForm::flag_at))]
fn flag_at(path: &FieldPath, flag: Flag, value: &Value) -> Result<Option<bool>, FormFault>
    ensures { Reads (λ written. written) result (flag_at path.now flag (view value.now)) }
{
    optional_truth(path, flag_name(flag), value)
}

/// Where an entry's item may stand, what may stand in it, and its attributes.
#[tactic(auto, unfolding(settings_definitions::specs::SchemaForm::places_at))]
fn places_at(alloc: Global, path: &FieldPath, value: &Value) -> Result<Places, FormFault>
    ensures { Reads (λ places. places) result (places_at path.now (view value.now)) }
{
    let allow_in = list_at(alloc, path, EntryList::AllowIn, value)?;
    let allow_children = list_at(alloc, path, EntryList::AllowChildren, value)?;
    let allow_attributes = list_at(alloc, path, EntryList::AllowAttributes, value)?;
    Ok(Places {
        allow_in,
        allow_children,
        allow_attributes,
    })
}

/// The items from which an entry's item has something.
#[tactic(auto, unfolding(settings_definitions::specs::SchemaForm::sources_at))]
fn sources_at(alloc: Global, path: &FieldPath, value: &Value) -> Result<Sources, FormFault>
    ensures { Reads (λ sources. sources) result (sources_at path.now (view value.now)) }
{
    let allow_where = list_at(alloc, path, EntryList::AllowWhere, value)?;
    let allow_content_of = list_at(alloc, path, EntryList::AllowContentOf, value)?;
    let allow_attributes_of = list_at(alloc, path, EntryList::AllowAttributesOf, value)?;
    let inherit_types_from = list_at(alloc, path, EntryList::InheritTypesFrom, value)?;
    let inherit_all_from = list_at(alloc, path, EntryList::InheritAllFrom, value)?;
    Ok(Sources {
        allow_where,
        allow_content_of,
        allow_attributes_of,
        inherit_types_from,
        inherit_all_from,
    })
}

/// What is written of the flags of an entry's item.
#[tactic(auto, unfolding(settings_definitions::specs::SchemaForm::flags_at))]
fn flags_at(path: &FieldPath, value: &Value) -> Result<Flags, FormFault>
    ensures { Reads (λ flags. flags) result (flags_at path.now (view value.now)) }
{
    let is_block = flag_at(path, Flag::Block, value)?;
    let is_inline = flag_at(path, Flag::Inline, value)?;
    let is_limit = flag_at(path, Flag::Limit, value)?;
    let is_object = flag_at(path, Flag::Object, value)?;
    let is_selectable = flag_at(path, Flag::Selectable, value)?;
    let is_content = flag_at(path, Flag::Content, value)?;
    Ok(Flags {
        is_block,
        is_inline,
        is_limit,
        is_object,
        is_selectable,
        is_content,
    })
}

/// The entry of these parts.
#[tactic(auto, unfolding(settings_definitions::specs::SchemaForm::entry_of))]
fn entry_of(subject: Subject, places: Places, sources: Sources, flags: Flags) -> Entry
    ensures { result ≡ entry_of subject places sources flags }
{
    Entry {
        subject,
        allow_in: places.allow_in,
        allow_children: places.allow_children,
        allow_attributes: places.allow_attributes,
        allow_where: sources.allow_where,
        allow_content_of: sources.allow_content_of,
        allow_attributes_of: sources.allow_attributes_of,
        inherit_types_from: sources.inherit_types_from,
        inherit_all_from: sources.inherit_all_from,
        is_block: flags.is_block,
        is_inline: flags.is_inline,
        is_limit: flags.is_limit,
        is_object: flags.is_object,
        is_selectable: flags.is_selectable,
        is_content: flags.is_content,
    }
}

/// Tests that an entry has no fields but those of its form.
#[tactic(auto, unfolding(settings_definitions::specs::SchemaForm::only_entry_fields))]
fn only_entry_fields(path: &FieldPath, value: &Value) -> Result<(), FormFault>
    ensures { Reads (λ _. tt) result (only_entry_fields path.now (view value.now)) }
{
    only_fields(
        path,
        &[
            "item",
            "extend",
            "allowIn",
            "allowChildren",
            "allowAttributes",
            "allowWhere",
            "allowContentOf",
            "allowAttributesOf",
            "inheritTypesFrom",
            "inheritAllFrom",
            "isBlock",
            "isInline",
            "isLimit",
            "isObject",
            "isSelectable",
            "isContent",
        ],
        value,
    )
}

/// An entry of the schema.
#[tactic(auto, unfolding(settings_definitions::specs::SchemaForm::entry_at))]
fn entry_at(alloc: Global, path: &FieldPath, value: &Value) -> Result<Entry, FormFault>
    ensures { Reads (λ entry. entry) result (entry_at path.now (view value.now)) }
{
    object_at(path, value)?;
    let subject = subject_at(alloc, path, value)?;
    let places = places_at(alloc, path, value)?;
    let sources = sources_at(alloc, path, value)?;
    let flags = flags_at(path, value)?;
    only_entry_fields(path, value)?;
    Ok(entry_of(subject, places, sources, flags))
}

/// The entries of a list.
#[tactic(auto, using(json_names::proofs::Fronts::with_front_more), unfolding(settings_definitions::specs::SchemaForm::entries_at))]
pub fn entries_at(
    alloc: Global,
    path: &FieldPath,
    items: &Vec<Value>,
) -> Result<Vec<Entry>, FormFault>
    ensures { Reads (λ entries. entries.items) result (entries_at path.now 0 (items_view items.now.items)) }
{
    let mut entries = Vec::with_capacity(alloc, items.len())?;
    for (index, item) in items.iter().enumerate() {
        let place = path.index(index)?;
        entries.push(entry_at(alloc, &place, item)?)?;
    }
    Ok(entries)
}

/// A check of an item.
#[tactic(auto, unfolding(settings_definitions::specs::SchemaForm::child_check_at))]
fn child_check_at(alloc: Global, path: &FieldPath, value: &Value) -> Result<Check, FormFault>
    ensures { Reads (λ check. check) result (child_check_at path.now (view value.now)) }
{
    let child = name_field(alloc, path, "child", value)?;
    let ends_with = name_list_field(alloc, path, "endsWith", value)?;
    let answer = truth_field(path, "answer", value)?;
    only_fields(path, &["child", "endsWith", "answer"], value)?;
    Ok(Check::Child {
        child,
        ends_with: Names::new(ends_with),
        answer,
    })
}

/// A check of an attribute.
#[tactic(auto, unfolding(settings_definitions::specs::SchemaForm::attribute_check_at))]
fn attribute_check_at(alloc: Global, path: &FieldPath, value: &Value) -> Result<Check, FormFault>
    ensures { Reads (λ check. check) result (attribute_check_at path.now (view value.now)) }
{
    let attribute = name_field(alloc, path, "attribute", value)?;
    let ends_with = name_list_field(alloc, path, "endsWith", value)?;
    let answer = truth_field(path, "answer", value)?;
    only_fields(path, &["attribute", "endsWith", "answer"], value)?;
    Ok(Check::Attribute {
        attribute,
        ends_with: Names::new(ends_with),
        answer,
    })
}

/// Whether a check is read as one of an item: where `child` is there or `attribute` isn't.
fn is_child_form(value: &Value) -> bool
    ensures { result ≡ is_child_form (get (codes "child") (view value.now)) (get (codes "attribute") (view value.now)) }
{
    value.get("child").is_some() || value.get("attribute").is_none()
}

/// A check.
#[tactic(auto, unfolding(settings_definitions::specs::SchemaForm::check_at))]
fn check_at(alloc: Global, path: &FieldPath, value: &Value) -> Result<Check, FormFault>
    ensures { Reads (λ check. check) result (check_at path.now (view value.now)) }
{
    object_at(path, value)?;
    if is_child_form(value) {
        child_check_at(alloc, path, value)
    } else {
        attribute_check_at(alloc, path, value)
    }
}

/// The checks of a list.
#[tactic(auto, using(json_names::proofs::Fronts::with_front_more), unfolding(settings_definitions::specs::SchemaForm::checks_at))]
pub fn checks_at(
    alloc: Global,
    path: &FieldPath,
    items: &Vec<Value>,
) -> Result<Vec<Check>, FormFault>
    ensures { Reads (λ checks. checks.items) result (checks_at path.now 0 (items_view items.now.items)) }
{
    let mut checks = Vec::with_capacity(alloc, items.len())?;
    for (index, item) in items.iter().enumerate() {
        let place = path.index(index)?;
        checks.push(check_at(alloc, &place, item)?)?;
    }
    Ok(checks)
}
