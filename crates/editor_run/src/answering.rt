//! The answer to one line of a script.
ghost use Rattle.std.specs.Prelude.{◌≡◌, ◌++◌, ◌∷◌, []};
ghost use Rattle.editor_core.specs.HandedIn.{meanings};
ghost use Rattle.editor_core.specs.AsMachine.{IsCurrent};
ghost use Rattle.program_definitions.specs.Machine.{answer, change, refusal_of, select_view, told};
ghost use Rattle.editor_run.specs.Answered.{IsAnsweredBy};

use crate::lines::is_blank;
use crate::printing::{accepted_line, refused_line, shown_lines};
use ck_base::NoMemory;
use ck_base::faults::Refusal;
use ck_base::steps::{Ledger, Steps};
use edit_definitions::edit::Edit;
use editor_core::Editor;
use json_forms::fault::FormFault;
use script_definitions::request::Request;
use script_read::request::read_request;
use std::alloc::Global;
use view_tree::path::ViewPlace;

/// The refusal of a line that has no request.
fn refusal_of(fault: FormFault) -> Refusal
    ensures { result ≡ refusal_of fault }
{
    match fault {
        FormFault::NotJson => Refusal::NotJson,
        FormFault::BadField { path } => Refusal::BadField { path },
        FormFault::NoMemory => Refusal::NoMemory,
    }
}

/// The answer to a change. It answers `NoMemory` alone beside Ok.
fn answer_change<L: Ledger>(
    alloc: Global,
    editor: &mut Editor,
    number: u64,
    edits: &[Edit],
    steps: &mut Steps<L>,
) -> Result<String, NoMemory>
    requires { IsCurrent (meanings (λ object. gives (object.vtable, object.value)) (λ object. fixes (object.vtable, object.value))) editor.old }
    ensures answered { IsAnsweredBy (meanings (λ object. gives (object.vtable, object.value)) (λ object. fixes (object.vtable, object.value)))
        (λ machine. told machine number (change edits.now machine)) editor.old editor.new result }
    ensures current { IsCurrent (meanings (λ object. gives (object.vtable, object.value)) (λ object. fixes (object.vtable, object.value))) editor.new }
{
    match editor.change(alloc, edits, steps) {
        Ok(()) => accepted_line(alloc, number),
        Err(refusal) => refused_line(alloc, number, refusal),
    }
}

/// The answer to a selection by two places of the view. It answers `NoMemory` alone beside Ok.
fn answer_selection<L: Ledger>(
    alloc: Global,
    editor: &mut Editor,
    number: u64,
    anchor: &ViewPlace,
    focus: &ViewPlace,
    steps: &mut Steps<L>,
) -> Result<String, NoMemory>
    requires { IsCurrent (meanings (λ object. gives (object.vtable, object.value)) (λ object. fixes (object.vtable, object.value))) editor.old }
    ensures answered { IsAnsweredBy (meanings (λ object. gives (object.vtable, object.value)) (λ object. fixes (object.vtable, object.value)))
        (λ machine. told machine number
        (select_view (anchor.now.path ++ anchor.now.offset ∷ []) (focus.now.path ++ focus.now.offset ∷ []) machine)) editor.old editor.new result }
    ensures current { IsCurrent (meanings (λ object. gives (object.vtable, object.value)) (λ object. fixes (object.vtable, object.value))) editor.new }
{
    match editor.select_view(alloc, anchor, focus, steps) {
        Ok(()) => accepted_line(alloc, number),
        Err(refusal) => refused_line(alloc, number, refusal),
    }
}

/// The answer to a script line of this number: the lines to write, none for a blank line. It answers `NoMemory` alone beside Ok.
#[tactic(auto, unfolding(program_definitions::specs::Machine::answer))]
pub fn answer<L: Ledger>(
    alloc: Global,
    editor: &mut Editor,
    number: u64,
    line: &[u8],
    steps: &mut Steps<L>,
) -> Result<String, NoMemory>
    requires { IsCurrent (meanings (λ object. gives (object.vtable, object.value)) (λ object. fixes (object.vtable, object.value))) editor.old }
    ensures answered { IsAnsweredBy (meanings (λ object. gives (object.vtable, object.value)) (λ object. fixes (object.vtable, object.value)))
        (λ machine. answer machine number line.now) editor.old editor.new result }
    ensures current { IsCurrent (meanings (λ object. gives (object.vtable, object.value)) (λ object. fixes (object.vtable, object.value))) editor.new }
{
    if is_blank(line) {
        return Ok(String::new(alloc));
    }
    match read_request(alloc, line) {
        Ok(Request::Change(edits)) => {
            answer_change(alloc, editor, number, edits.as_slice(), steps)
        }
        Ok(Request::SelectView { anchor, focus }) => {
            answer_selection(alloc, editor, number, &anchor, &focus, steps)
        }
        Ok(Request::Show { selection }) => shown_lines(alloc, number, selection, editor),
        Err(fault) => refused_line(alloc, number, refusal_of(fault)),
    }
}
