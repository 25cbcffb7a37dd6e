//! What a settings file says. Each reader answers what the definition of its name reads, `BadField` with the first place that breaks the form, or
//! `NoMemory`.
ghost use Rattle.std.specs.Prelude.{◌≡◌, ◌≤◌, IfSome, unwrap_or};
ghost use Rattle.serde_json.specs.View.{view};
ghost use Rattle.json_forms.specs.Form.{Reads};
ghost use Rattle.settings_definitions.specs.Settings.{entries_field, checks_field, fixers_field, converters_field, form_at, form_of};
ghost use Rattle.config_read.specs.FileForm.{form_view};

use crate::fixers::fixers_at;
use crate::schema_file::{checks_at, entries_at};
use ck_base::faults::FieldPath;
use ck_base::name::Name;
use converter_definitions::plan::ConverterPlan;
use converter_read::converters::converters_at;
use fix_definitions::plan::FixerPlan;
use json_forms::fault::FormFault;
use json_forms::forms::{bad_field, json_of, object_at, only_fields};
use json_names::names::optional_name;
use json_names::values::{count_field, optional_count};
use schema_definitions::file::{Check, Entry, SchemaFile};
use serde_json::Value;
use std::alloc::Global;

/// What a settings file says.
#[derive(Debug, Drop)]
pub(crate) struct FileForm {
    pub version: u32,
    pub rounds: u32,
    pub start: Option<Name>,
    pub schema: SchemaFile,
    pub fixers: Vec<FixerPlan>,
    pub converters: Vec<ConverterPlan>,
}

/// The entries of the schema.
#[tactic(auto, unfolding(settings_definitions::specs::Settings::entries_field))]
fn entries_field(alloc: Global, value: &Value) -> Result<Vec<Entry>, FormFault>
    ensures { Reads (λ entries. entries.items) result (entries_field (view value.now)) }
{
    let path = FieldPath::new(alloc);
    let Some(items) = value.get("schema").and_then(Value::as_array) else {
        return Err(bad_field(&path, "schema"));
    };
    let place = path.field("schema")?;
    entries_at(alloc, &place, items)
}

/// The checks; where there is no such field, there are none.
#[tactic(auto, unfolding(settings_definitions::specs::Settings::checks_field))]
fn checks_field(alloc: Global, value: &Value) -> Result<Vec<Check>, FormFault>
    ensures { Reads (λ checks. checks.items) result (checks_field (view value.now)) }
{
    let Some(found) = value.get("checks") else {
        return Ok(Vec::new(alloc));
    };
    let path = FieldPath::new(alloc);
    let Some(items) = found.as_array() else {
        return Err(bad_field(&path, "checks"));
    };
    let place = path.field("checks")?;
    checks_at(alloc, &place, items)
}

/// The fixers; where there is no such field, there are none.
#[tactic(auto, unfolding(settings_definitions::specs::Settings::fixers_field))]
fn fixers_field(alloc: Global, value: &Value) -> Result<Vec<FixerPlan>, FormFault>
    ensures { Reads (λ fixers. fixers.items) result (fixers_field (view value.now)) }
{
    let Some(found) = value.get("fixers") else {
        return Ok(Vec::new(alloc));
    };
    let path = FieldPath::new(alloc);
    let Some(items) = found.as_array() else {
        return Err(bad_field(&path, "fixers"));
    };
    let place = path.field("fixers")?;
    fixers_at(alloc, &place, items)
}

/// The converters, which may ask for the index of an element or not.
#[tactic(auto, unfolding(settings_definitions::specs::Settings::converters_field))]
fn converters_field(
    alloc: Global,
    indexes: bool,
    value: &Value,
) -> Result<Vec<ConverterPlan>, FormFault>
    ensures { Reads (λ plans. plans.items) result (converters_field indexes (view value.now)) }
{
    let path = FieldPath::new(alloc);
    let Some(items) = value.get("converters").and_then(Value::as_array) else {
        return Err(bad_field(&path, "converters"));
    };
    let place = path.field("converters")?;
    converters_at(alloc, indexes, &place, items)
}

/// The number of rounds: 64 where none is given.
fn rounds_of(rounds: Option<u64>) -> u32
    requires { IfSome rounds (λ count. count ≤ 1000) }
    ensures { result ≡ unwrap_or rounds 64 }
{
    match rounds {
        Some(count) => count as u32,
        None => 64,
    }
}

/// What a settings file says, from its JSON value.
#[tactic(auto, unfolding(settings_definitions::specs::Settings::form_at))]
fn form_at(alloc: Global, value: &Value) -> Result<FileForm, FormFault>
    ensures { Reads form_view result (form_at (view value.now)) }
{
    let path = FieldPath::new(alloc);
    object_at(&path, value)?;
    let version = count_field(&path, "version", 1, 2, value)?;
    let rounds = optional_count(&path, "rounds", 1, 1000, value)?;
    let start = optional_name(alloc, &path, "start", value)?;
    let entries = entries_field(alloc, value)?;
    let checks = checks_field(alloc, value)?;
    let fixers = fixers_field(alloc, value)?;
    let converters = converters_field(alloc, version == 2, value)?;
    only_fields(
        &path,
        &[
            "version",
            "rounds",
            "start",
            "schema",
            "checks",
            "fixers",
            "converters",
        ],
        value,
    )?;
    Ok(FileForm {
        version: version as u32,
        rounds: rounds_of(rounds),
        start,
        schema: SchemaFile { entries, checks },
        fixers,
        converters,
    })
}

/// What a settings file says, or the first place that breaks its form.
#[tactic(auto, unfolding(settings_definitions::specs::Settings::form_of))]
pub(crate) fn form_of(alloc: Global, bytes: &[u8]) -> Result<FileForm, FormFault>
    ensures { Reads form_view result (form_of bytes.now) }
{
    let value = json_of(alloc, bytes)?;
    form_at(alloc, &value)
}
