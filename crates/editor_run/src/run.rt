//! The top call: from the words of the command line to the bytes written and the status.
ghost use Rattle.std.specs.Prelude.{◌≡◌, ◌≢◌, ◌≤◌, ◌⊎◌, true, None, map, string_bytes, length, IfErr, OnOk};
ghost use Rattle.std.specs.Io.KnownBytes.{append_known};
ghost use Rattle.ck_io.specs.Rose.{Rose};
ghost use Rattle.editor_core.specs.AsMachine.{machine_of, IsCurrent};
ghost use Rattle.editor_core.specs.HandedIn.{meanings, product_of};
ghost use Rattle.editor_run.specs.Ends.{calls, Ends, Tells, IsOutput, IsWholeOutput, IsFront, ShowsUsage, IsMissing};
ghost use Rattle.editor_run.specs.Unanswered.{SendsPart, Fails};
ghost use Rattle.editor_run.specs.Unopened.{IsTold};
ghost use Rattle.editor_run.specs.Status.{status_code, is_status};
ghost use Rattle.editor_run.specs.Asked.{task_view};
ghost use Rattle.machine_definitions.specs.Lines.{lines_of};
ghost use Rattle.program_definitions.specs.Machine.{answer, answers};
ghost use Rattle.program_definitions.specs.Task.{task_of};
ghost use Rattle.program_definitions.specs.Output.{accepted_settings, done, most_script_bytes, output, outcome_of, script_outcome, task_outcome, usage};

use crate::answering::answer;
use crate::lines::split_line;
use crate::opening::{Unopened, open_settings};
use crate::tasks::{Task, task_of};
use ck_base::steps::{Ledger, Steps};
use ck_io::{FetchFault, Files, Sink, WholeFault, write_whole};
use editor_core::{Editor, Extensions};
use std::alloc::Global;

/// How a run ends.
#[derive(Clone, Copy, Debug, PartialEq, Eq)]
pub enum Status {
    /// The script was read to its end, or the settings were checked, and all was written.
    Finished,
    /// The settings are refused, or the document that they start with.
    Refused,
    /// The words are of no form, and the usage line was written.
    BadWords,
    /// Memory ran out.
    NoMemory,
    /// A file isn't held, or its fetch failed.
    NotFetched,
    /// A write failed.
    NotWritten,
    /// A file has more bytes than it may have.
    TooLarge,
}

impl Status {
    /// Its number.
    pub fn code(self) -> u8
        ensures { result ≡ status_code self }
    {
        match self {
            Status::Finished => 0,
            Status::Refused => 1,
            Status::BadWords => 2,
            Status::NoMemory => 3,
            Status::NotFetched => 4,
            Status::NotWritten => 5,
            Status::TooLarge => 6,
        }
    }
}

/// The most bytes that a script may have.
const MOST_SCRIPT_BYTES: u64 = 67_108_864;

/// Writes a text in one piece, and answers this status, or `NotWritten`.
fn tell<S: Sink>(out: &mut S, text: &[u8], status: Status) -> Status
    requires { status ≢ Status.NotWritten }
    ensures tells { Tells text.now status (S.written out.old) (S.written out.new) (S.faults out.old) (S.faults out.new) result }
    ensures statuses { (result ≡ status) ⊎ (result ≡ Status.NotWritten) }
{
    match write_whole(out, text) {
        Ok(()) => status,
        Err(_) => Status::NotWritten,
    }
}

/// Why a line has no answer.
#[derive(Debug, Drop)]
enum Unanswered {
    /// Memory ran out; nothing was written.
    NoMemory,
    /// A write failed.
    NotWritten(WholeFault),
}

/// Answers one line, in one piece.
fn answer_line<S: Sink, L: Ledger>(
    alloc: Global,
    editor: &mut Editor,
    number: u64,
    line: &[u8],
    out: &mut S,
    steps: &mut Steps<L>,
) -> Result<(), Unanswered>
    requires { IsCurrent (meanings (λ object. gives (object.vtable, object.value)) (λ object. fixes (object.vtable, object.value))) editor.old }
    ensures written { OnOk result (S.written out.new
        ≡ append_known (S.written out.old) (answer
        (machine_of (meanings (λ object. gives (object.vtable, object.value)) (λ object. fixes (object.vtable, object.value))) editor.old) number
        line.now).text) }
    ensures machine { OnOk result (machine_of
        (meanings (λ object. gives (object.vtable, object.value)) (λ object. fixes (object.vtable, object.value))) editor.new
        ≡ (answer (machine_of (meanings (λ object. gives (object.vtable, object.value)) (λ object. fixes (object.vtable, object.value))) editor.old) number
        line.now).machine) }
    ensures current { IsCurrent (meanings (λ object. gives (object.vtable, object.value)) (λ object. fixes (object.vtable, object.value))) editor.new }
    ensures calm { OnOk result (S.faults out.new ≡ S.faults out.old) }
    ensures part { IfErr result (λ fault. SendsPart fault (S.written out.old) (S.written out.new)
        (answer (machine_of (meanings (λ object. gives (object.vtable, object.value)) (λ object. fixes (object.vtable, object.value))) editor.old) number
        line.now).text) }
    ensures failed { IfErr result (λ fault. Fails fault (S.faults out.old) (S.faults out.new)) }
{
    let Ok(text) = answer(alloc, editor, number, line, steps) else {
        return Err(Unanswered::NoMemory);
    };
    match write_whole(out, text.as_bytes()) {
        Ok(()) => Ok(()),
        Err(fault) => Err(Unanswered::NotWritten(fault)),
    }
}

/// Answers the lines of a script in order, each answer in one piece.
fn answer_lines<S: Sink, L: Ledger>(
    alloc: Global,
    editor: &mut Editor,
    script: &[u8],
    out: &mut S,
    steps: &mut Steps<L>,
) -> Status
    requires current { IsCurrent (meanings (λ object. gives (object.vtable, object.value)) (λ object. fixes (object.vtable, object.value))) editor.old }
    requires short { length script.now ≤ most_script_bytes }
    ensures tells { Tells (answers (machine_of
        (meanings (λ object. gives (object.vtable, object.value)) (λ object. fixes (object.vtable, object.value))) editor.old) 1 (lines_of script.now))
        Status.Finished
        (S.written out.old) (S.written out.new) (S.faults out.old) (S.faults out.new) result }
    ensures statuses { (result ≡ Status.Finished) ⊎ (result ≡ Status.NoMemory) ⊎ (result ≡ Status.NotWritten) }
{
    let mut number = 1u64;
    let mut rest = script;
    while !rest.is_empty() {
        let (line, after) = split_line(rest);
        match answer_line(alloc, editor, number, line, out, steps) {
            Ok(()) => {}
            Err(Unanswered::NoMemory) => return Status::NoMemory,
            Err(Unanswered::NotWritten(_)) => return Status::NotWritten,
        }
        number += 1;
        rest = after;
    }
    Status::Finished
}

/// Answers the script of a name.
fn answer_script<F: Files, S: Sink, L: Ledger>(
    alloc: Global,
    editor: &mut Editor,
    script: &str,
    files: &mut F,
    out: &mut S,
    steps: &mut Steps<L>,
) -> Status
    requires { IsCurrent (meanings (λ object. gives (object.vtable, object.value)) (λ object. fixes (object.vtable, object.value))) editor.old }
    ensures ends { Ends (calls (F.holds files.old) (F.faults files.old) (F.faults files.new)
        (S.written out.old) (S.written out.new) (S.faults out.old) (S.faults out.new))
        (λ held. script_outcome (machine_of (meanings (λ object. gives (object.vtable, object.value)) (λ object. fixes (object.vtable, object.value)))
        editor.old) (held script.now)) result }
    ensures words { result ≢ Status.BadWords }
{
    match files.fetch(alloc, script, MOST_SCRIPT_BYTES) {
        Ok(bytes) => answer_lines(alloc, editor, bytes.as_slice(), out, steps),
        Err(FetchFault::NoMemory) => Status::NoMemory,
        Err(FetchFault::TooLarge) => Status::TooLarge,
        // It isn't held,
        Err(FetchFault::Missing) => Status::NotFetched,
        // or the call failed.
        Err(FetchFault::Failed) => Status::NotFetched,
    }
}

/// Ends a run in which no editor was opened: refused settings are told.
fn end<S: Sink>(fault: Unopened, out: &mut S) -> Status
    ensures { IsTold fault (S.written out.old) (S.written out.new) (S.faults out.old) (S.faults out.new) result }
{
    match fault {
        Unopened::NoMemory => Status::NoMemory,
        Unopened::NotFetched => Status::NotFetched,
        Unopened::TooLarge => Status::TooLarge,
        Unopened::Refused(text) => tell(out, text.as_bytes(), Status::Refused),
    }
}

/// Tells that settings are accepted.
#[tactic(auto, unfolding(program_definitions::specs::Output::accepted_settings))]
fn accept_settings<S: Sink>(out: &mut S) -> Status
    ensures tells { Tells accepted_settings Status.Finished (S.written out.old) (S.written out.new) (S.faults out.old) (S.faults out.new) result }
    ensures statuses { (result ≡ Status.Finished) ⊎ (result ≡ Status.NotWritten) }
{
    tell(out, b"settings ok\n", Status::Finished)
}

/// Writes the usage line, in one piece.
#[tactic(auto, unfolding(program_definitions::specs::Output::usage))]
fn show_usage<S: Sink>(out: &mut S) -> Status
    ensures tells { Tells usage Status.BadWords (S.written out.old) (S.written out.new) (S.faults out.old) (S.faults out.new) result }
    ensures statuses { (result ≡ Status.BadWords) ⊎ (result ≡ Status.NotWritten) }
{
    tell(
        out,
        b"usage: ckcore run SETTINGS SCRIPT | check SETTINGS\n",
        Status::BadWords,
    )
}

/// Does what the words ask for with an opened editor.
fn go_on<F: Files, S: Sink, L: Ledger>(
    alloc: Global,
    editor: &mut Editor,
    task: Task<'_>,
    files: &mut F,
    out: &mut S,
    steps: &mut Steps<L>,
) -> Status
    requires { IsCurrent (meanings (λ object. gives (object.vtable, object.value)) (λ object. fixes (object.vtable, object.value))) editor.old }
    ensures ends { Ends (calls (F.holds files.old) (F.faults files.old) (F.faults files.new)
        (S.written out.old) (S.written out.new) (S.faults out.old) (S.faults out.new))
        (λ held. done held (task_view task.entry)
        (machine_of (meanings (λ object. gives (object.vtable, object.value)) (λ object. fixes (object.vtable, object.value))) editor.old)) result }
    ensures words { result ≢ Status.BadWords }
{
    match task {
        Task::Run { script, .. } => answer_script(alloc, editor, script, files, out, steps),
        Task::Check { .. } => accept_settings(out),
    }
}

/// Lets an editor go, with which a run has ended so.
fn close(editor: Editor, status: Status) -> Status
    ensures { result ≡ status }
{
    let _ = editor;
    status
}

/// Does what the words ask for.
fn run_task<F: Files, S: Sink, L: Ledger>(
    alloc: Global,
    task: Task<'_>,
    files: &mut F,
    out: &mut S,
    extensions: Extensions,
    steps: &mut Steps<L>,
) -> Status
    ensures ends { Ends (calls (F.holds files.old) (F.faults files.old) (F.faults files.new)
        (S.written out.old) (S.written out.new) (S.faults out.old) (S.faults out.new))
        (λ held. task_outcome (product_of (meanings (λ object. gives (object.vtable, object.value)) (λ object. fixes (object.vtable, object.value)))
        extensions) held (task_view task.entry)) result }
    ensures words { result ≢ Status.BadWords }
{
    match open_settings(alloc, task.settings(), files, extensions, steps) {
        Ok(mut editor) => {
            let status = go_on(alloc, &mut editor, task, files, out, steps);
            close(editor, status)
        }
        Err(fault) => end(fault, out),
    }
}

/// Runs the program: opens the editor of the settings file that the words name, with the converters of the product that are handed in, answers
/// the lines of the script in order, and answers the status.
///
/// | Status | When |
/// |---|---|
/// | 0 | the script was read to its end, or the settings were checked, and all was written |
/// | 1 | the settings are refused, or the document that they start with, and this was written |
/// | 2 | the words are of no form, and the usage line was written |
/// | 3 | memory ran out |
/// | 4 | a file that the words name isn't held, or a fetch failed |
/// | 5 | a write failed |
/// | 6 | the settings have more than 1,048,576 bytes, or the script more than 67,108,864 |
///
/// The bytes and the status are those of the definition `output`, a machine on plain trees.
pub fn run<F: Files, S: Sink, L: Ledger>(
    alloc: Global,
    words: &[String],
    files: &mut F,
    out: &mut S,
    extensions: Extensions,
    steps: &mut Steps<L>,
) -> u8
    // Where it is told what is held: unless memory ran out or a call failed, the status and the bytes are the machine's.
    ensures output { IsOutput (calls (F.holds files.old) (F.faults files.old) (F.faults files.new)
        (S.written out.old) (S.written out.new) (S.faults out.old) (S.faults out.new))
        (output (product_of (meanings (λ object. gives (object.vtable, object.value)) (λ object. fixes (object.vtable, object.value))) extensions)
        (map string_bytes words.now)) result }
    ensures complete { IsWholeOutput (calls (F.holds files.old) (F.faults files.old) (F.faults files.new)
        (S.written out.old) (S.written out.new) (S.faults out.old) (S.faults out.new))
        (output (product_of (meanings (λ object. gives (object.vtable, object.value)) (λ object. fixes (object.vtable, object.value))) extensions)
        (map string_bytes words.now)) result }

    // What was written is always a front of the machine's bytes.
    ensures part { IsFront (calls (F.holds files.old) (F.faults files.old) (F.faults files.new)
        (S.written out.old) (S.written out.new) (S.faults out.old) (S.faults out.new))
        (output (product_of (meanings (λ object. gives (object.vtable, object.value)) (λ object. fixes (object.vtable, object.value))) extensions)
        (map string_bytes words.now)) }

    // Whatever the files and the sink tell, each status has its cause.
    ensures bad_words { result ≡ 2 → ShowsUsage (S.written out.old) (S.written out.new) (map string_bytes words.now) }
    ensures words { task_of (map string_bytes words.now) ≡ None → (result ≡ 2) ⊎ (result ≡ 5) }
    ensures missing { result ≡ 4 → ¬ Rose (F.faults files.old) (F.faults files.new)
        → IsMissing (F.holds files.old) (task_of (map string_bytes words.now)) }
    ensures not_fetched { result ≡ 4 → S.written out.new ≡ S.written out.old }
    ensures not_written { result ≡ 5 → Rose (S.faults out.old) (S.faults out.new) }
    ensures too_large { result ≡ 6 → S.written out.new ≡ S.written out.old }
    ensures statuses { is_status result ≡ true }
{
    run_words(alloc, words, files, out, extensions, steps).code()
}

/// Runs the program, and says how it ended.
fn run_words<F: Files, S: Sink, L: Ledger>(
    alloc: Global,
    words: &[String],
    files: &mut F,
    out: &mut S,
    extensions: Extensions,
    steps: &mut Steps<L>,
) -> Status
    ensures ends { Ends (calls (F.holds files.old) (F.faults files.old) (F.faults files.new)
        (S.written out.old) (S.written out.new) (S.faults out.old) (S.faults out.new))
        (λ held. output (product_of (meanings (λ object. gives (object.vtable, object.value)) (λ object. fixes (object.vtable, object.value))) extensions)
        (map string_bytes words.now) held) result }
    ensures bad_words { result ≡ Status.BadWords → ShowsUsage (S.written out.old) (S.written out.new) (map string_bytes words.now) }
    ensures words { task_of (map string_bytes words.now) ≡ None → (result ≡ Status.BadWords) ⊎ (result ≡ Status.NotWritten) }
{
    match task_of(words) {
        Some(task) => run_task(alloc, task, files, out, extensions, steps),
        None => show_usage(out),
    }
}
