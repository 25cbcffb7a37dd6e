//! Why a schema file is refused: an item that is registered twice, a name that has to be an item and is none, a check without
//! ancestors.
ghost use Rattle.std.specs.Prelude.{◌≡◌, ◌≢◌, ◌+◌, ◌-◌, ◌^◌, min, [], ◌++◌, option_map, position, IfOk};
ghost use Rattle.std.specs.Option.{option_copied, option_or};
ghost use Rattle.std.specs.List.{find, flat_map};
ghost use Rattle.schema_definitions.specs.Allowed.{registrations};
ghost use Rattle.schema_definitions.specs.Compiled.{first_repeated, extended, needed_by, needed_by_check, has_no_ancestors, first_bad_check};
ghost use Rattle.schema_definitions.specs.declared.fault.SchemaFault.TheVariants.{TwiceRegistered, UnknownItem, BadCheck};
ghost use Rattle.schema_rules.specs.Refused.{Refuses, is_unknown};

use crate::numbering::Numbering;
use ck_base::name::Name;
use schema_definitions::fault::SchemaFault;
use schema_definitions::file::{Check, Entry, Subject};
use std::alloc::Global;

/// The fault that an item is registered twice.
fn twice(name: &Name) -> SchemaFault
    ensures { result ≢ SchemaFault.NoMemory → result ≡ SchemaFault.TwiceRegistered name.now }
{
    match name.copy() {
        Ok(name) => SchemaFault::TwiceRegistered(name),
        Err(_) => SchemaFault::NoMemory,
    }
}

/// The fault that a name is no item.
fn unknown(name: &Name) -> SchemaFault
    ensures { result ≢ SchemaFault.NoMemory → result ≡ SchemaFault.UnknownItem name.now }
{
    match name.copy() {
        Ok(name) => SchemaFault::UnknownItem(name),
        Err(_) => SchemaFault::NoMemory,
    }
}

/// The items that the entries register, in order; the first that is registered twice is refused.
pub fn registered_items(alloc: Global, entries: &[Entry]) -> Result<Numbering, SchemaFault>
    ensures items { IfOk result (λ names. names ≡ registrations entries.now) }
    ensures refused { Refuses result (option_map TwiceRegistered (first_repeated [] (registrations entries.now))) }
{
    let mut names = Numbering::new(alloc);
    for entry in entries {
        if let Subject::Item(name) = &entry.subject {
            if names.place_of(name).is_some() {
                return Err(twice(name));
            }
            names = names.with(name)?;
        }
    }
    Ok(names)
}

/// The first name of a list that isn't known.
fn unknown_in<'a>(names: &Numbering, listed: &'a [Name]) -> Option<&'a Name>
    ensures { option_copied result ≡ find (is_unknown names.now) listed.now }
{
    listed.iter().find(|name| names.place_of(name).is_none())
}

/// What was found, or else the first name of a list that isn't known.
fn or_unknown_in<'a>(
    found: Option<&'a Name>,
    names: &Numbering,
    listed: &'a [Name],
) -> Option<&'a Name>
    ensures { option_copied result ≡ option_or (option_copied found.entry) (find (is_unknown names.now) listed.now) }
{
    match found {
        Some(name) => Some(name),
        None => unknown_in(names, listed),
    }
}

/// The item that an entry extends, if it isn't known.
fn unknown_subject<'a>(names: &Numbering, subject: &'a Subject) -> Option<&'a Name>
    ensures { option_copied result ≡ find (is_unknown names.now) (extended subject.now) }
{
    match subject {
        Subject::Extend(name) if names.place_of(name).is_none() => Some(name),
        _ => None,
    }
}

/// The first name of an entry that has to be an item and isn't known.
#[tactic(auto, using(crate::proofs::Finding::find_eight))]
fn unknown_of_entry<'a>(names: &Numbering, entry: &'a Entry) -> Option<&'a Name>
    ensures { option_copied result ≡ find (is_unknown names.now) (needed_by entry.now) }
{
    let found = unknown_subject(names, &entry.subject);
    let found = or_unknown_in(found, names, entry.allow_in.as_slice());
    let found = or_unknown_in(found, names, entry.allow_children.as_slice());
    let found = or_unknown_in(found, names, entry.allow_where.as_slice());
    let found = or_unknown_in(found, names, entry.allow_content_of.as_slice());
    let found = or_unknown_in(found, names, entry.allow_attributes_of.as_slice());
    let found = or_unknown_in(found, names, entry.inherit_types_from.as_slice());
    or_unknown_in(found, names, entry.inherit_all_from.as_slice())
}

/// The first name of a check that has to be an item and isn't known.
fn unknown_of_check<'a>(names: &Numbering, check: &'a Check) -> Option<&'a Name>
    ensures { option_copied result ≡ find (is_unknown names.now) (needed_by_check check.now) }
{
    match check {
        Check::Child {
            child,
            ends_with,
            ..
        } => {
            if names.place_of(child).is_none() {
                return Some(child);
            }
            unknown_in(names, ends_with.as_slice())
        }
        Check::Attribute { ends_with, .. } => unknown_in(names, ends_with.as_slice()),
    }
}

/// The first name of these entries that has to be an item and isn't known.
fn unknown_of_entries<'a>(names: &Numbering, entries: &'a [Entry]) -> Option<&'a Name>
    ensures { option_copied result ≡ find (is_unknown names.now) (flat_map needed_by entries.now) }
{
    for entry in entries {
        if let Some(name) = unknown_of_entry(names, entry) {
            return Some(name);
        }
    }
    None
}

/// The first name of these checks that has to be an item and isn't known.
fn unknown_of_checks<'a>(names: &Numbering, checks: &'a [Check]) -> Option<&'a Name>
    ensures { option_copied result ≡ find (is_unknown names.now) (flat_map needed_by_check checks.now) }
{
    for check in checks {
        if let Some(name) = unknown_of_check(names, check) {
            return Some(name);
        }
    }
    None
}

/// Tests that each name that has to be an item is known.
#[tactic(auto, using(crate::proofs::Finding::find_front, crate::proofs::Finding::find_behind))]
pub fn test_known(names: &Numbering, entries: &[Entry], checks: &[Check]) -> Result<(), SchemaFault>
    ensures { Refuses result (option_map UnknownItem (find (is_unknown names.now) (flat_map needed_by entries.now ++ flat_map needed_by_check checks.now))) }
{
    if let Some(name) = unknown_of_entries(names, entries) {
        return Err(unknown(name));
    }
    if let Some(name) = unknown_of_checks(names, checks) {
        return Err(unknown(name));
    }
    Ok(())
}

/// Whether a check has no ancestors.
fn has_no_ancestors(check: &Check) -> bool
    ensures { result ≡ has_no_ancestors check.now }
{
    match check {
        Check::Child { ends_with, .. } | Check::Attribute { ends_with, .. } => {
            ends_with.as_slice().is_empty()
        }
    }
}

/// The number, from 1 on, of what has an index; 4294967295 stands for any larger one.
fn number_of(index: usize) -> u32
    ensures { result ≡ min (index + 1) (2 ^ 32 - 1) }
{
    if index < u32::MAX as usize {
        index as u32 + 1
    } else {
        u32::MAX
    }
}

/// The index of the first check without ancestors.
fn first_without(checks: &[Check]) -> Option<usize>
    ensures { result ≡ position has_no_ancestors checks.now }
{
    checks.iter().position(|check| has_no_ancestors(check))
}

/// Tests that each check has ancestors.
#[tactic(auto, unfolding(schema_definitions::specs::Compiled::first_bad_check))]
pub fn test_checks(checks: &[Check]) -> Result<(), SchemaFault>
    ensures { Refuses result (option_map BadCheck (first_bad_check checks.now)) }
{
    match first_without(checks) {
        Some(index) => Err(SchemaFault::BadCheck(number_of(index))),
        None => Ok(()),
    }
}
