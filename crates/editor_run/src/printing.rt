//! The printed texts of answers.
ghost use Rattle.std.specs.Prelude.{◌≡◌, ◌≢◌, ◌++◌, true, false, Some, None, IfOk, OnOk, string_bytes};
ghost use Rattle.document_definitions.specs.Selection.{attributes};
ghost use Rattle.downcast_definitions.specs.Rows.{downcast};
ghost use Rattle.editor_core.specs.HandedIn.{meanings};
ghost use Rattle.editor_core.specs.AsMachine.{conversion_in, document_in, IsCurrent};
ghost use Rattle.print_definitions.specs.SelectionText.{marker_lines, selection_line};
ghost use Rattle.print_definitions.specs.ViewText.{view_text};
ghost use Rattle.program_definitions.specs.Machine.{accepted_line, refused_line, both_lines, seen_ends, shown_lines};
ghost use Rattle.program_definitions.specs.Output.{refused_settings, refused_start};

use ck_base::NoMemory;
use ck_base::faults::Refusal;
use config_read::texts::settings_text;
use editor_core::Editor;
use model_doc::Document;
use print_text::model::model_text;
use print_text::refusals::refusal_text;
use print_text::selection::{marker_lines, selection_line};
use print_text::view::view_text;
use settings_definitions::fault::SettingsFault;
use std::alloc::{AllocError, Global};

/// The answer to a line that was accepted.
#[tactic(auto, unfolding(program_definitions::specs::Machine::accepted_line))]
pub fn accepted_line(alloc: Global, number: u64) -> Result<String, NoMemory>
    ensures { IfOk result (λ text. string_bytes text ≡ accepted_line number) }
{
    format!(in alloc; "{number} ok\n")
}

/// The answer to a line that was refused. A refusal for want of memory has no text: it is passed on.
pub fn refused_line(alloc: Global, number: u64, refusal: Refusal) -> Result<String, NoMemory>
    ensures text { IfOk result (λ text. string_bytes text ≡ refused_line number refusal) }
    ensures printed { OnOk result (refusal ≢ Refusal.NoMemory) }
{
    line_of_refusal(alloc, number, &refusal)
}

/// The line that tells of a refusal, which isn't want of memory.
#[tactic(auto, unfolding(program_definitions::specs::Machine::refused_line))]
fn line_of_refusal(alloc: Global, number: u64, refusal: &Refusal) -> Result<String, NoMemory>
    ensures text { IfOk result (λ text. string_bytes text ≡ refused_line number refusal.now) }
    ensures printed { OnOk result (refusal.now ≢ Refusal.NoMemory) }
{
    if let Refusal::NoMemory = refusal {
        return Err(AllocError);
    }
    let refusal = refusal_text(alloc, refusal)?;
    format!(in alloc; "{number} refused {refusal}\n")
}

/// The model and the view, each on a line.
#[tactic(auto, unfolding(program_definitions::specs::Machine::both_lines))]
fn both_lines(alloc: Global, number: u64, model: &str, view: &str) -> Result<String, NoMemory>
    ensures { IfOk result (λ text. string_bytes text ≡ both_lines number model.now view.now) }
{
    format!(in alloc; "{number} model {model}\n{number} view {view}\n")
}

/// The printed view of a document, without its selection.
fn plain_view(alloc: Global, editor: &Editor) -> Result<String, NoMemory>
    requires { IsCurrent (meanings (λ object. gives (object.vtable, object.value)) (λ object. fixes (object.vtable, object.value))) editor.now }
    ensures { IfOk result (λ text. string_bytes text
        ≡ view_text None (downcast (conversion_in (λ object. gives (object.vtable, object.value)) editor.now) (document_in editor.now))) }
{
    view_text(alloc, editor.view(), None)
}

/// The printed view of a document, with the marks of its selection.
fn selected_view(alloc: Global, editor: &Editor) -> Result<String, NoMemory>
    requires { IsCurrent (meanings (λ object. gives (object.vtable, object.value)) (λ object. fixes (object.vtable, object.value))) editor.now }
    ensures { IfOk result (λ text. string_bytes text
        ≡ view_text (Some (seen_ends (conversion_in (λ object. gives (object.vtable, object.value)) editor.now) (document_in editor.now)))
        (downcast (conversion_in (λ object. gives (object.vtable, object.value)) editor.now) (document_in editor.now))) }
{
    let places = editor.shown_selection(alloc)?;
    view_text(alloc, editor.view(), Some(&places))
}

/// A document without its selection.
fn plain_lines(alloc: Global, number: u64, editor: &Editor) -> Result<String, NoMemory>
    requires { IsCurrent (meanings (λ object. gives (object.vtable, object.value)) (λ object. fixes (object.vtable, object.value))) editor.now }
    ensures { IfOk result (λ text. string_bytes text ≡ shown_lines (conversion_in (λ object. gives (object.vtable, object.value)) editor.now) number
        false (document_in editor.now)) }
{
    let model = model_text(alloc, editor.document(), false)?;
    let view = plain_view(alloc, editor)?;
    both_lines(alloc, number, model.as_str(), view.as_str())
}

/// The markers of a document and its selection.
fn selection_lines(alloc: Global, number: u64, document: &Document) -> Result<String, NoMemory>
    ensures { IfOk result (λ text. string_bytes text ≡ marker_lines number document.now.state.document.markers
        ++ selection_line number document.now.state.document.selection.backward
        (attributes document.now.state.document.items document.now.state.document.selection)) }
{
    let mut lines = marker_lines(alloc, number, document.markers())?;
    let selection = document.selection();
    let attributes = selection.attributes(alloc, document.tree())?;
    let last = selection_line(alloc, number, selection.is_backward(), &attributes)?;
    lines.push_str(last.as_str())?;
    Ok(lines)
}

/// A document with its selection: its marks in the model and in the view, and behind them the markers and the selection.
fn selected_lines(alloc: Global, number: u64, editor: &Editor) -> Result<String, NoMemory>
    requires { IsCurrent (meanings (λ object. gives (object.vtable, object.value)) (λ object. fixes (object.vtable, object.value))) editor.now }
    ensures { IfOk result (λ text. string_bytes text ≡ shown_lines (conversion_in (λ object. gives (object.vtable, object.value)) editor.now) number
        true (document_in editor.now)) }
{
    let model = model_text(alloc, editor.document(), true)?;
    let view = selected_view(alloc, editor)?;
    let mut lines = both_lines(alloc, number, model.as_str(), view.as_str())?;
    let more = selection_lines(alloc, number, editor.document())?;
    lines.push_str(more.as_str())?;
    Ok(lines)
}

/// The answer to a show, with the selection or without. It answers `NoMemory` alone beside Ok.
pub fn shown_lines(
    alloc: Global,
    number: u64,
    selection: bool,
    editor: &Editor,
) -> Result<String, NoMemory>
    requires { IsCurrent (meanings (λ object. gives (object.vtable, object.value)) (λ object. fixes (object.vtable, object.value))) editor.now }
    ensures { IfOk result (λ text. string_bytes text ≡ shown_lines (conversion_in (λ object. gives (object.vtable, object.value)) editor.now) number
        selection (document_in editor.now)) }
{
    if selection {
        selected_lines(alloc, number, editor)
    } else {
        plain_lines(alloc, number, editor)
    }
}

/// What is written where settings are refused. A fault for want of memory has no text: it is passed on.
pub fn refused_settings(alloc: Global, fault: SettingsFault) -> Result<String, NoMemory>
    ensures text { IfOk result (λ text. string_bytes text ≡ refused_settings fault) }
    ensures printed { OnOk result (fault ≢ SettingsFault.NoMemory) }
{
    line_of_settings(alloc, &fault)
}

/// The line that tells of a fault of settings, which isn't want of memory.
#[tactic(auto, unfolding(program_definitions::specs::Output::refused_settings))]
fn line_of_settings(alloc: Global, fault: &SettingsFault) -> Result<String, NoMemory>
    ensures text { IfOk result (λ text. string_bytes text ≡ refused_settings fault.now) }
    ensures printed { OnOk result (fault.now ≢ SettingsFault.NoMemory) }
{
    if let SettingsFault::NoMemory = fault {
        return Err(AllocError);
    }
    let fault = settings_text(alloc, fault)?;
    format!(in alloc; "settings refused {fault}\n")
}

/// What is written where the document that settings start with is refused.
pub fn refused_start(alloc: Global, refusal: Refusal) -> Result<String, NoMemory>
    ensures { IfOk result (λ text. string_bytes text ≡ refused_start refusal) }
{
    line_of_start(alloc, &refusal)
}

/// The line that tells of a refused start.
#[tactic(auto, unfolding(program_definitions::specs::Output::refused_start))]
fn line_of_start(alloc: Global, refusal: &Refusal) -> Result<String, NoMemory>
    ensures { IfOk result (λ text. string_bytes text ≡ refused_start refusal.now) }
{
    let refusal = refusal_text(alloc, refusal)?;
    format!(in alloc; "settings refused BadStart {refusal}\n")
}
