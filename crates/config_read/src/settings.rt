//! Settings, from the bytes of their file.
ghost use Rattle.std.specs.Prelude.{◌≡◌, ◌≢◌, None, Ok, Err, IfOk, IfErr};
ghost use Rattle.schema_definitions.specs.Allowed.{registered};
ghost use Rattle.converter_definitions.specs.PlanNames.{first_unknown_custom, first_without_converter};
ghost use Rattle.settings_definitions.specs.FixerNames.{first_unknown_custom_fixer};
ghost use Rattle.settings_definitions.specs.Settings.{settings_of};
ghost use Rattle.config_read.specs.Refused.{settings_view};

use crate::file_form::{FileForm, form_of};
use crate::refusals::schema_of;
use ck_base::name::Name;
use converter_definitions::plan::ConverterPlan;
use converter_read::indexed::indexed_names;
use fix_definitions::plan::FixerPlan;
use schema_rules::schema::Schema;
use settings_definitions::fault::SettingsFault;
use std::alloc::Global;

/// The settings of an editor.
#[derive(Debug, Drop)]
pub struct Settings {
    pub schema: Schema,
    /// The version of the file, 1 or 2.
    pub version: u32,
    /// How many rounds of fixers a change may take, from 1 to 1000.
    pub rounds: u32,
    /// The item of the element that a new document has.
    pub start: Option<Name>,
    /// The fixers, in the order of the file.
    pub fixers: Vec<FixerPlan>,
    /// The converters, in the order of the file.
    pub converters: Vec<ConverterPlan>,
    /// The names of the elements that are counted for the converters, each once.
    pub indexed: Vec<Name>,
}

/// The settings of what a file says, of its schema and of the names of the elements that are counted.
fn settings_from(form: FileForm, schema: Schema, indexed: Vec<Name>) -> Settings
    ensures schema { result.schema ≡ schema }
    ensures version { result.version ≡ form.version }
    ensures rounds { result.rounds ≡ form.rounds }
    ensures start { result.start ≡ form.start }
    ensures fixers { result.fixers ≡ form.fixers }
    ensures converters { result.converters ≡ form.converters }
    ensures indexed { result.indexed ≡ indexed }
{
    Settings {
        schema,
        version: form.version,
        rounds: form.rounds,
        start: form.start,
        fixers: form.fixers,
        converters: form.converters,
        indexed,
    }
}

/// Reads a settings file, where products' converters and fixers of these names are handed in. Where it is refused, this is the first reason in the
/// order of `SettingsFault`: `NotJson` where the bytes have no JSON value (RFC 8259), bytes that aren't UTF-8 and nesting deeper than 127 included;
/// `BadField` with the first place that breaks the form; `TwiceRegistered` and `BadCheck` as the schema has them; `UnknownItem` with the first name
/// that has to be an item and is none, in the order of the file's fields: the start's, those of the schema, those of the checks, those of the
/// fixers, those of the converters; `UnknownCustom` with the first name of a product's converter, and then of a product's fixer, that isn't handed
/// in for its kind or that one of its kind before it has; `NoConverter` with the first registered item, in the order of their bytes, that doesn't
/// begin with `$` and that no `elementToElement` or `elementToStructure` without attributes and parent is about. Otherwise it answers `NoMemory`
/// alone beside Ok.
#[tactic(auto, unfolding(settings_definitions::specs::Settings::settings_of))]
pub fn read_settings(
    alloc: Global,
    bytes: &[u8],
    converters: &[Name],
    fixers: &[Name],
) -> Result<Settings, SettingsFault>
    ensures ok { IfOk result (λ settings. settings_of converters.now fixers.now bytes.now ≡ Ok (settings_view settings)) }
    ensures refused { IfErr result (λ fault. fault ≢ SettingsFault.NoMemory → settings_of converters.now fixers.now bytes.now ≡ Err fault) }
    ensures handed_in { IfOk result (λ settings. first_unknown_custom converters.now settings.converters.items ≡ None) }
    ensures fixers_handed_in { IfOk result (λ settings. first_unknown_custom_fixer fixers.now settings.fixers.items ≡ None) }
    ensures converted { IfOk result (λ settings. first_without_converter settings.converters.items (registered settings.schema) ≡ None) }
{
    let form = form_of(alloc, bytes)?;
    let schema = schema_of(alloc, converters, fixers, &form)?;
    let indexed = indexed_names(alloc, form.converters.as_slice())?;
    Ok(settings_from(form, schema, indexed))
}
