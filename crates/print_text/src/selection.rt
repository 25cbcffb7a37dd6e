//! The printed lines of markers and of a selection.
ghost use Rattle.std.specs.Prelude.{◌≡◌, ◌++◌, IfOk, OnOk, string_bytes};
ghost use Rattle.print_definitions.specs.SelectionText.{marker_line, marker_lines, direction, selection_line};

use crate::model::push_attributes;
use crate::refusals::path_text;
use ck_base::NoMemory;
use ck_base::attributes::Attrs;
use ck_base::name::Name;
use marker_table::Markers;
use model_pos::Range;
use std::alloc::Global;
use std::fmt::Write;

/// Puts a marker's line last.
#[tactic(auto, unfolding(print_definitions::specs::SelectionText::marker_line))]
fn push_marker(
    out: &mut String,
    alloc: Global,
    number: u64,
    name: &Name,
    range: &Range,
) -> Result<(), NoMemory>
    ensures { OnOk result (string_bytes out.new ≡ string_bytes out.old ++ marker_line number name.now range.now) }
{
    let start = path_text(alloc, range.start().path())?;
    let end = path_text(alloc, range.end().path())?;
    writeln!(out, "{number} marker {name} {start} {end}")
}

/// The lines of a document's markers, in the order of the names' bytes: the number, the marker's name, and where its range starts and ends. It
/// answers `NoMemory` alone beside Ok.
pub fn marker_lines(alloc: Global, number: u64, markers: &Markers) -> Result<String, NoMemory>
    ensures { IfOk result (λ text. string_bytes text ≡ marker_lines number markers.now) }
{
    let mut text = String::new(alloc);
    for (name, range) in markers.iter() {
        push_marker(&mut text, alloc, number, name, range)?;
    }
    Ok(text)
}

/// The word for where a selection's focus is.
#[tactic(auto, unfolding(print_definitions::specs::SelectionText::direction))]
fn direction(backward: bool) -> &'static str
    ensures { result.now ≡ direction backward }
{
    if backward { "backward" } else { "forward" }
}

/// The line of a selection: the number, whether its focus is at its start (`backward`) or at its end (`forward`), and its attributes. It answers
/// `NoMemory` alone beside Ok.
#[tactic(auto, unfolding(print_definitions::specs::SelectionText::selection_line))]
pub fn selection_line(
    alloc: Global,
    number: u64,
    backward: bool,
    attributes: &Attrs,
) -> Result<String, NoMemory>
    ensures { IfOk result (λ text. string_bytes text ≡ selection_line number backward attributes.now) }
{
    let direction = direction(backward);
    let mut shown = String::new(alloc);
    push_attributes(&mut shown, alloc, attributes)?;
    format!(in alloc; "{number} selection {direction}{shown}\n")
}
