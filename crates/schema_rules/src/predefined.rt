//! The items that are registered from the start.
ghost use Rattle.std.specs.Prelude.{◌≡◌, [], ◌∷◌, ◌++◌, true, IfOk};
ghost use Rattle.ck_base.specs.Name.{is_name};
ghost use Rattle.schema_definitions.specs.Compiled as meant;
ghost use Rattle.schema_definitions.specs.Compiled.{predefined};

use ck_base::NoMemory;
use ck_base::name::{Name, NameFault};
use schema_definitions::file::{Check, Entry, SchemaFile, Subject};
use schema_definitions::names::Names;
use std::alloc::{AllocError, Global};

/// The name that a text is.
pub(crate) fn name_of(alloc: Global, text: &str) -> Result<Name, NoMemory>
    requires { is_name text.now ≡ true }
    ensures { IfOk result (λ name. name ≡ text.now) }
{
    match Name::read(alloc, text) {
        Ok(name) => Ok(name),
        Err(NameFault::NotAName) => unreachable!(),
        Err(NameFault::NoMemory) => Err(AllocError),
    }
}

/// An entry that registers an item, and says no more of it.
fn item(alloc: Global, text: &str) -> Result<Entry, NoMemory>
    requires { is_name text.now ≡ true }
    ensures { IfOk result (λ entry. entry ≡ meant.bare (Subject.Item text.now)) }
{
    let name = name_of(alloc, text)?;
    Ok(Entry::new(alloc, Subject::Item(name)))
}

/// A list of one name.
fn one_name(alloc: Global, text: &str) -> Result<Names, NoMemory>
    requires { is_name text.now ≡ true }
    ensures { IfOk result (λ names. names ≡ text.now ∷ []) }
{
    let mut names = Vec::with_capacity(alloc, 1)?;
    names.push(name_of(alloc, text)?)?;
    Ok(Names::new(names))
}

/// A list of two names.
fn two_names(alloc: Global, first: &str, second: &str) -> Result<Names, NoMemory>
    requires first { is_name first.now ≡ true }
    requires second { is_name second.now ≡ true }
    ensures { IfOk result (λ names. names ≡ first.now ∷ second.now ∷ []) }
{
    let mut names = Vec::with_capacity(alloc, 2)?;
    names.push(name_of(alloc, first)?)?;
    names.push(name_of(alloc, second)?)?;
    Ok(Names::new(names))
}

/// `$root`, a limit.
#[tactic(auto, unfolding(ck_base::specs::Name::is_name))]
fn root_entry(alloc: Global) -> Result<Entry, NoMemory>
    ensures { IfOk result (λ entry. entry ≡ meant.root_entry) }
{
    let mut entry = item(alloc, "$root")?;
    entry.is_limit = Some(true);
    Ok(entry)
}

/// `$container`, in the root and in itself.
#[tactic(auto, unfolding(ck_base::specs::Name::is_name))]
fn container_entry(alloc: Global) -> Result<Entry, NoMemory>
    ensures { IfOk result (λ entry. entry ≡ meant.container_entry) }
{
    let mut entry = item(alloc, "$container")?;
    entry.allow_in = two_names(alloc, "$root", "$container")?;
    Ok(entry)
}

/// `$block`, a block in the root and in containers.
#[tactic(auto, unfolding(ck_base::specs::Name::is_name))]
fn block_entry(alloc: Global) -> Result<Entry, NoMemory>
    ensures { IfOk result (λ entry. entry ≡ meant.block_entry) }
{
    let mut entry = item(alloc, "$block")?;
    entry.allow_in = two_names(alloc, "$root", "$container")?;
    entry.is_block = Some(true);
    Ok(entry)
}

/// `$text`, inline content in blocks.
#[tactic(auto, unfolding(ck_base::specs::Name::is_name))]
fn text_entry(alloc: Global) -> Result<Entry, NoMemory>
    ensures { IfOk result (λ entry. entry ≡ meant.text_entry) }
{
    let mut entry = item(alloc, "$text")?;
    entry.allow_in = one_name(alloc, "$block")?;
    entry.is_inline = Some(true);
    entry.is_content = Some(true);
    Ok(entry)
}

/// `$blockObject`, an object where blocks may stand.
#[tactic(auto, unfolding(ck_base::specs::Name::is_name))]
fn block_object_entry(alloc: Global) -> Result<Entry, NoMemory>
    ensures { IfOk result (λ entry. entry ≡ meant.block_object_entry) }
{
    let mut entry = item(alloc, "$blockObject")?;
    entry.allow_where = one_name(alloc, "$block")?;
    entry.is_block = Some(true);
    entry.is_object = Some(true);
    Ok(entry)
}

/// `$inlineObject`, an object where text may stand, with the attributes of text.
#[tactic(auto, unfolding(ck_base::specs::Name::is_name))]
fn inline_object_entry(alloc: Global) -> Result<Entry, NoMemory>
    ensures { IfOk result (λ entry. entry ≡ meant.inline_object_entry) }
{
    let mut entry = item(alloc, "$inlineObject")?;
    entry.allow_where = one_name(alloc, "$text")?;
    entry.allow_attributes_of = one_name(alloc, "$text")?;
    entry.is_inline = Some(true);
    entry.is_object = Some(true);
    Ok(entry)
}

/// The entries of all items that are registered from the start.
#[tactic(auto, unfolding(schema_definitions::specs::Compiled::predefined))]
fn predefined(alloc: Global) -> Result<Vec<Entry>, NoMemory>
    ensures { IfOk result (λ entries. entries.items ≡ predefined) }
{
    let mut entries = Vec::with_capacity(alloc, 6)?;
    entries.push(root_entry(alloc)?)?;
    entries.push(container_entry(alloc)?)?;
    entries.push(block_entry(alloc)?)?;
    entries.push(text_entry(alloc)?)?;
    entries.push(block_object_entry(alloc)?)?;
    entries.push(inline_object_entry(alloc)?)?;
    Ok(entries)
}

/// All entries of a file's schema: the predefined items', and then the file's.
pub fn entries_of(alloc: Global, file: &SchemaFile) -> Result<Vec<Entry>, NoMemory>
    ensures { IfOk result (λ entries. entries.items ≡ predefined ++ file.now.entries.items) }
{
    let mut entries = predefined(alloc)?;
    for entry in &file.entries {
        entries.push(entry.copy()?)?;
    }
    Ok(entries)
}

/// The checks of a file.
pub fn checks_of(alloc: Global, file: &SchemaFile) -> Result<Vec<Check>, NoMemory>
    ensures { IfOk result (λ checks. checks.items ≡ file.now.checks.items) }
{
    let mut checks = Vec::with_capacity(alloc, file.checks.len())?;
    for check in &file.checks {
        checks.push(check.copy()?)?;
    }
    Ok(checks)
}
