//! The names that the tables of a schema know.
ghost use Rattle.std.specs.Prelude.{◌≡◌, None, length, take, IfOk};
ghost use Rattle.std.specs.List.{find, flat_map};
ghost use Rattle.schema_definitions.specs.Allowed.{registrations};
ghost use Rattle.schema_definitions.specs.Compiled.{needed_by};
ghost use Rattle.schema_rules.specs.Refused.{is_unknown};
ghost use Rattle.schema_rules.specs.Tables.{AreKnown};
ghost use Rattle.schema_rules.specs.Numbering.{with_names};
ghost use Rattle.schema_rules.specs.Keys.{own_keys};

use crate::numbering::Numbering;
use ck_base::NoMemory;
use schema_definitions::file::Entry;

/// The names with the attributes that the entries list.
fn with_keys(names: Numbering, entries: &[Entry]) -> Result<Numbering, NoMemory>
    ensures { IfOk result (λ more. more ≡ with_names names (flat_map own_keys entries.now)) }
{
    let mut names = names;
    for entry in entries {
        names = names.with_all(entry.allow_attributes.as_slice())?;
    }
    Ok(names)
}

/// The registered items and the attributes that the entries list, as all names that tables have to know.
pub fn known_names(items: Numbering, entries: &[Entry]) -> Result<Numbering, NoMemory>
    requires items { items ≡ registrations entries.now }
    requires known { find (is_unknown items) (flat_map needed_by entries.now) ≡ None }
    ensures front { IfOk result (λ names. take (length items) names ≡ registrations entries.now) }
    ensures known { IfOk result (λ names. AreKnown names entries.now) }
{
    let names = with_keys(items, entries)?;
    Ok(names)
}
