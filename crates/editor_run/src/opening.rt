//! From a settings file to an editor.
ghost use Rattle.std.specs.Prelude.{◌≡◌, ◌≢◌, Ok, Err, Result, map, IfOk, IfErr, IfSome, OnOk};
ghost use Rattle.ck_io.specs.Rose.{Rose};
ghost use Rattle.step_definitions.specs.Step.{opened};
ghost use Rattle.editor_core.specs.AsMachine.{machine_of, IsCurrent};
ghost use Rattle.editor_core.specs.HandedIn.{meanings, product_of, AreHandedIn};
ghost use Rattle.config_read.specs.Refused.{settings_view};
ghost use Rattle.program_definitions.specs.Machine.{Machine};
ghost use Rattle.program_definitions.specs.Output as outcomes;
ghost use Rattle.program_definitions.specs.Output.{Outcome, refused, refused_settings, refused_start, config_of, begun, settings_in, machine_from};
ghost use Rattle.editor_run.specs.Ends.{IsNotHeld};
ghost use Rattle.editor_run.specs.Unopened.{IsEnd, Opens};

use crate::printing::{refused_settings, refused_start};
use ck_base::NoMemory;
use ck_base::faults::Refusal;
use ck_base::name::Name;
use ck_base::steps::{Ledger, Steps};
use ck_io::{FetchFault, Files};
use config_read::settings::{Settings, read_settings};
use editor_core::{Editor, Extensions, Named, OpenFault, Parts};
use settings_definitions::fault::SettingsFault;
use std::alloc::Global;

/// The most bytes that a settings file may have.
const MOST_SETTINGS_BYTES: u64 = 1_048_576;

/// Why no editor is opened.
#[derive(Debug, Drop)]
pub enum Unopened {
    /// Memory ran out.
    NoMemory,
    /// The settings file isn't held, or its fetch failed.
    NotFetched,
    /// The settings file has more bytes than it may have.
    TooLarge,
    /// The settings are refused, or the document that they start with; this is to be written.
    Refused(String),
}

/// The end where settings are refused.
fn settings_end(alloc: Global, fault: SettingsFault) -> Unopened
    ensures ends { (wanted : Result Machine Outcome) → (fault ≢ SettingsFault.NoMemory → wanted ≡ Err (refused (refused_settings fault)))
        → IsEnd result wanted }
    ensures read { result ≢ Unopened.NotFetched }
{
    match refused_settings(alloc, fault) {
        Ok(text) => Unopened::Refused(text),
        Err(_) => Unopened::NoMemory,
    }
}

/// The end where the document that settings start with is refused.
fn start_end(alloc: Global, refusal: Refusal) -> Unopened
    ensures ends { (wanted : Result Machine Outcome) → wanted ≡ Err (refused (refused_start refusal)) → IsEnd result wanted }
    ensures read { result ≢ Unopened.NotFetched }
{
    match refused_start(alloc, refusal) {
        Ok(text) => Unopened::Refused(text),
        Err(_) => Unopened::NoMemory,
    }
}

/// The editor of settings.
fn editor_of<L: Ledger>(
    alloc: Global,
    settings: Settings,
    extensions: Extensions,
    steps: &mut Steps<L>,
) -> Result<Editor, Unopened>
    requires { AreHandedIn settings.converters.items settings.fixers.items
        (product_of (meanings (λ object. gives (object.vtable, object.value)) (λ object. fixes (object.vtable, object.value))) extensions) }
    ensures opens { Opens (meanings (λ object. gives (object.vtable, object.value)) (λ object. fixes (object.vtable, object.value)))
        (outcomes.machine_of (product_of (meanings (λ object. gives (object.vtable, object.value)) (λ object. fixes (object.vtable, object.value)))
        extensions) (Ok (settings_view settings))) result }
    ensures read { IfErr result (λ fault. fault ≢ Unopened.NotFetched) }
{
    let parts = Parts {
        schema: settings.schema,
        version: settings.version,
        rounds: settings.rounds,
        start: settings.start,
        fixers: settings.fixers,
        converters: settings.converters,
        indexed: settings.indexed,
    };
    match Editor::open(alloc, parts, extensions, steps) {
        Ok(editor) => Ok(editor),
        Err(OpenFault::BadStart(refusal)) => Err(start_end(alloc, refusal)),
        Err(OpenFault::NoMemory) => Err(Unopened::NoMemory),
    }
}

/// The names of objects.
fn names_of<T>(alloc: Global, objects: &[Named<T>]) -> Result<Vec<Name>, NoMemory>
    ensures { IfOk result (λ names. names.items ≡ map (λ named. named.name) objects.now) }
{
    let mut names = Vec::with_capacity(alloc, objects.len())?;
    for named in objects {
        names.push(named.name.copy()?)?;
    }
    Ok(names)
}

/// The settings of the bytes of a file, where these objects are handed in.
fn settings_from(
    alloc: Global,
    bytes: &[u8],
    extensions: &Extensions,
) -> Result<Settings, SettingsFault>
    ensures ok { IfOk result (λ settings.
        settings_in (product_of (meanings (λ object. gives (object.vtable, object.value)) (λ object. fixes (object.vtable, object.value))) extensions.now)
        bytes.now
        ≡ Ok (settings_view settings)) }
    ensures refused { IfErr result (λ fault. fault ≢ SettingsFault.NoMemory →
        settings_in (product_of (meanings (λ object. gives (object.vtable, object.value)) (λ object. fixes (object.vtable, object.value))) extensions.now)
        bytes.now
        ≡ Err fault) }
    ensures handed_in { IfOk result (λ settings. AreHandedIn settings.converters.items settings.fixers.items
        (product_of (meanings (λ object. gives (object.vtable, object.value)) (λ object. fixes (object.vtable, object.value))) extensions.now)) }
{
    let converters = names_of(alloc, extensions.converters.as_slice())?;
    let fixers = names_of(alloc, extensions.fixers.as_slice())?;
    read_settings(alloc, bytes, converters.as_slice(), fixers.as_slice())
}

/// The editor of the bytes of a settings file.
fn editor_from<L: Ledger>(
    alloc: Global,
    bytes: &[u8],
    extensions: Extensions,
    steps: &mut Steps<L>,
) -> Result<Editor, Unopened>
    ensures opens { Opens (meanings (λ object. gives (object.vtable, object.value)) (λ object. fixes (object.vtable, object.value)))
        (outcomes.machine_of (product_of (meanings (λ object. gives (object.vtable, object.value)) (λ object. fixes (object.vtable, object.value))) extensions)
        (settings_in (product_of (meanings (λ object. gives (object.vtable, object.value)) (λ object. fixes (object.vtable, object.value))) extensions)
        bytes.now)) result }
    ensures read { IfErr result (λ fault. fault ≢ Unopened.NotFetched) }
{
    match settings_from(alloc, bytes, &extensions) {
        Ok(settings) => editor_of(alloc, settings, extensions, steps),
        Err(fault) => Err(settings_end(alloc, fault)),
    }
}

/// Opens the editor of the settings file of a name.
pub fn open_settings<F: Files, L: Ledger>(
    alloc: Global,
    name: &str,
    files: &mut F,
    extensions: Extensions,
    steps: &mut Steps<L>,
) -> Result<Editor, Unopened>
    ensures ok { IfOk result (λ editor. IfSome (F.holds files.old) (λ held.
        machine_from (product_of (meanings (λ object. gives (object.vtable, object.value)) (λ object. fixes (object.vtable, object.value))) extensions)
        (held name.now)
        ≡ Ok (machine_of (meanings (λ object. gives (object.vtable, object.value)) (λ object. fixes (object.vtable, object.value))) editor))) }
    ensures current { IfOk result (λ editor. IsCurrent
        (meanings (λ object. gives (object.vtable, object.value)) (λ object. fixes (object.vtable, object.value))) editor) }
    ensures err { IfErr result (λ fault. IfSome (F.holds files.old) (λ held. (fault ≡ Unopened.NotFetched → ¬ Rose (F.faults files.old) (F.faults files.new))
        → IsEnd fault (machine_from (product_of (meanings (λ object. gives (object.vtable, object.value)) (λ object. fixes (object.vtable, object.value)))
        extensions) (held name.now)))) }
    ensures missing { IfErr result (λ fault. fault ≡ Unopened.NotFetched → ¬ Rose (F.faults files.old) (F.faults files.new)
        → IsNotHeld (F.holds files.old) name.now) }
    ensures holds { F.holds files.new ≡ F.holds files.old }
    ensures calm { OnOk result (F.faults files.new ≡ F.faults files.old) }
{
    match files.fetch(alloc, name, MOST_SETTINGS_BYTES) {
        Ok(bytes) => editor_from(alloc, bytes.as_slice(), extensions, steps),
        Err(FetchFault::NoMemory) => Err(Unopened::NoMemory),
        Err(FetchFault::TooLarge) => Err(Unopened::TooLarge),
        Err(FetchFault::Missing | FetchFault::Failed) => Err(Unopened::NotFetched),
    }
}
