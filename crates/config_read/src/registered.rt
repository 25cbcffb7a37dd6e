//! The items that are registered, before there is a schema.
ghost use Rattle.std.specs.Prelude.{◌≡◌, ◌++◌, true, IfOk};
ghost use Rattle.ck_base.specs.Name.{is_name};
ghost use Rattle.schema_definitions.specs.Allowed.{registrations};
ghost use Rattle.schema_definitions.specs.Compiled.{predefined};

use ck_base::NoMemory;
use ck_base::name::{Name, NameFault};
use schema_definitions::file::{Entry, Subject};
use std::alloc::{AllocError, Global};

/// The name that a text is.
fn name_of(alloc: Global, text: &str) -> Result<Name, NoMemory>
    requires { is_name text.now ≡ true }
    ensures { IfOk result (λ name. name ≡ text.now) }
{
    match Name::read(alloc, text) {
        Ok(name) => Ok(name),
        Err(NameFault::NotAName) => unreachable!(),
        Err(NameFault::NoMemory) => Err(AllocError),
    }
}

/// The items that are registered from the start.
#[tactic(auto, unfolding(ck_base::specs::Name::is_name, schema_definitions::specs::Compiled::predefined))]
fn predefined_items(alloc: Global) -> Result<Vec<Name>, NoMemory>
    ensures { IfOk result (λ names. names.items ≡ registrations predefined) }
{
    let mut names = Vec::with_capacity(alloc, 6)?;
    names.push(name_of(alloc, "$root")?)?;
    names.push(name_of(alloc, "$container")?)?;
    names.push(name_of(alloc, "$block")?)?;
    names.push(name_of(alloc, "$text")?)?;
    names.push(name_of(alloc, "$blockObject")?)?;
    names.push(name_of(alloc, "$inlineObject")?)?;
    Ok(names)
}

/// The items that are registered from the start, and then those that these entries register. It answers `NoMemory` alone beside Ok.
#[tactic(auto, using(crate::proofs::Predefined::behind_predefined))]
pub(crate) fn registered_items(alloc: Global, entries: &[Entry]) -> Result<Vec<Name>, NoMemory>
    ensures { IfOk result (λ names. names.items ≡ registrations (predefined ++ entries.now)) }
{
    let mut names = predefined_items(alloc)?;
    for entry in entries {
        if let Subject::Item(name) = &entry.subject {
            names.push(name.copy()?)?;
        }
    }
    Ok(names)
}
