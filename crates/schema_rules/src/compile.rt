ghost use Rattle.std.specs.Prelude.{◌≡◌, ◌≢◌, None, Ok, Err, IfOk, IfErr};
ghost use Rattle.std.specs.List.{find, flat_map};
ghost use Rattle.schema_definitions.specs.Allowed.{registrations};
ghost use Rattle.schema_definitions.specs.Compiled.{needed_by, refusal, compiled};
ghost use Rattle.schema_rules.specs.Refused.{Refuses, is_unknown};

use crate::numbering::Numbering;
use crate::predefined::{checks_of, entries_of};
use crate::refusals::{registered_items, test_checks, test_known};
use crate::schema::Schema;
use schema_definitions::fault::SchemaFault;
use schema_definitions::file::{Check, Entry, SchemaFile};
use std::alloc::Global;

/// The registered items, or why entries and checks make no schema.
#[tactic(auto, using(crate::proofs::KnownNames::none_in_front), unfolding(schema_definitions::specs::Compiled::refusal, schema_definitions::specs::Compiled::first_unknown))]
fn tested_items(
    alloc: Global,
    entries: &[Entry],
    checks: &[Check],
) -> Result<Numbering, SchemaFault>
    ensures items { IfOk result (λ names. names ≡ registrations entries.now) }
    ensures known { IfOk result (λ names. find (is_unknown names) (flat_map needed_by entries.now) ≡ None) }
    ensures refused { Refuses result (refusal (record { entries = entries.now; checks = checks.now })) }
{
    let items = registered_items(alloc, entries)?;
    test_known(&items, entries, checks)?;
    test_checks(checks)?;
    Ok(items)
}

/// Compiles a schema file. Where it is refused, this is the first reason, in this order: an item that is registered twice
/// (`TwiceRegistered`, the first entry that does it), a name that has to be an item and is none (`UnknownItem`, the first in the order of the
/// file), a check without ancestors (`BadCheck`, the first). Otherwise it answers `NoMemory` alone beside Ok.
#[tactic(auto, unfolding(schema_definitions::specs::Compiled::compiled))]
pub fn compile(alloc: Global, file: &SchemaFile) -> Result<Schema, SchemaFault>
    ensures ok { IfOk result (λ schema. compiled file.now ≡ Ok schema) }
    ensures refused { IfErr result (λ fault. fault ≢ SchemaFault.NoMemory → compiled file.now ≡ Err fault) }
{
    let entries = entries_of(alloc, file)?;
    let checks = checks_of(alloc, file)?;
    let items = tested_items(alloc, &entries, &checks)?;
    let schema = Schema::of(items, entries, checks)?;
    Ok(schema)
}
