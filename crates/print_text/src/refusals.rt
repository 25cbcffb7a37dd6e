//! The printed texts of refusals.
ghost use Rattle.std.specs.Prelude.{◌≡◌, ◌≢◌, ◌∷◌, ◌++◌, IfOk, OnOk, string_bytes};
ghost use Rattle.std.specs.List.{flat_map};
ghost use Rattle.std.specs.Fmt.{decimal};
ghost use Rattle.machine_definitions.specs.Texts.{printed_path};
ghost use Rattle.machine_definitions.specs.Refusals.{edit_fault_text, rule_text, refusal_text};

use ck_base::NoMemory;
use ck_base::faults::{EditFault, Refusal, Rule};
use ck_base::path::Path;
use std::alloc::Global;
use std::fmt::Write;
use text_escapes::escapes::quoted_text;

/// Puts numbers last, a comma before each.
fn push_numbers(out: &mut String, numbers: &[u64]) -> Result<(), NoMemory>
    ensures { OnOk result (string_bytes out.new
        ≡ string_bytes out.old ++ flat_map (λ number. 44 ∷ decimal number) numbers.now) }
{
    for number in numbers {
        write!(out, ",{number}")?;
    }
    Ok(())
}

/// A list of numbers, as `[0,3]`.
fn numbers_text(alloc: Global, numbers: &[u64]) -> Result<String, NoMemory>
    ensures { IfOk result (λ text. string_bytes text ≡ printed_path numbers.now) }
{
    let mut text = String::from_str(alloc, "[")?;
    if let Some((first, rest)) = numbers.split_first() {
        write!(text, "{first}")?;
        push_numbers(&mut text, rest)?;
    }
    text.push(']')?;
    Ok(text)
}

/// A path or a position, as `[0,3]`.
pub(crate) fn path_text(alloc: Global, path: &Path) -> Result<String, NoMemory>
    ensures { IfOk result (λ text. string_bytes text ≡ printed_path path.now) }
{
    let mut numbers = Vec::with_capacity(alloc, path.len())?;
    for number in path.as_slice() {
        numbers.push(u64::from(*number))?;
    }
    numbers_text(alloc, numbers.as_slice())
}

/// The text of an edit's fault.
#[tactic(auto, unfolding(machine_definitions::specs::Refusals::edit_fault_text))]
fn edit_fault_text(alloc: Global, fault: &EditFault) -> Result<String, NoMemory>
    ensures { IfOk result (λ text. string_bytes text ≡ edit_fault_text fault.now) }
{
    match fault {
        EditFault::NotRegistered { edit, name } => format!(in alloc; "NotRegistered {edit} {name}"),
        EditFault::BadPosition { edit, path } => {
            let path = path_text(alloc, path)?;
            format!(in alloc; "BadPosition {edit} {path}")
        }
        EditFault::BadRange { edit, start, end } => {
            let start = path_text(alloc, start)?;
            let end = path_text(alloc, end)?;
            format!(in alloc; "BadRange {edit} {start} {end}")
        }
        EditFault::BadTarget { edit, path } => {
            let path = path_text(alloc, path)?;
            format!(in alloc; "BadTarget {edit} {path}")
        }
        EditFault::MarkerExists { edit, name } => format!(in alloc; "MarkerExists {edit} {name}"),
        EditFault::MarkerUnknown { edit, name } => format!(in alloc; "MarkerUnknown {edit} {name}"),
        EditFault::IdsSpent { edit } => format!(in alloc; "IdsSpent {edit}"),
        EditFault::TooLarge { edit, count } => format!(in alloc; "TooLarge {edit} {count}"),
        EditFault::TooDeep { edit, depth } => format!(in alloc; "TooDeep {edit} {depth}"),
        EditFault::NoMemory => String::from_str(alloc, "NoMemory"),
    }
}

/// The text of a rule of the schema.
#[tactic(auto, unfolding(machine_definitions::specs::Refusals::rule_text))]
fn rule_text(alloc: Global, rule: &Rule) -> Result<String, NoMemory>
    ensures { IfOk result (λ text. string_bytes text ≡ rule_text rule.now) }
{
    match rule {
        Rule::Child { item, parent } => format!(in alloc; "child {item} in {parent}"),
        Rule::Attribute { key, item } => format!(in alloc; "attribute {key} on {item}"),
    }
}

/// The text of a refusal: its name, and its fields behind one blank each. It answers `NoMemory` alone beside Ok.
#[tactic(auto, unfolding(machine_definitions::specs::Refusals::refusal_text))]
pub fn refusal_text(alloc: Global, refusal: &Refusal) -> Result<String, NoMemory>
    ensures { IfOk result (λ text. string_bytes text ≡ refusal_text refusal.now) }
{
    match refusal {
        Refusal::NotJson => String::from_str(alloc, "NotJson"),
        Refusal::BadField { path } => {
            let path = quoted_text(alloc, path.scalars())?;
            format!(in alloc; "BadField {path}")
        }
        Refusal::ChangesSpent => String::from_str(alloc, "ChangesSpent"),
        Refusal::UnknownCommand(name) => format!(in alloc; "UnknownCommand {name}"),
        Refusal::BadArgument(name) => format!(in alloc; "BadArgument {name}"),
        Refusal::Disabled(name) => format!(in alloc; "Disabled {name}"),
        Refusal::NothingToUndo => String::from_str(alloc, "NothingToUndo"),
        Refusal::NothingToRedo => String::from_str(alloc, "NothingToRedo"),
        Refusal::NotInView { path } => {
            let path = numbers_text(alloc, path.as_slice())?;
            format!(in alloc; "NotInView {path}")
        }
        Refusal::ViewTooDeep { depth } => format!(in alloc; "ViewTooDeep {depth}"),
        Refusal::Edit(fault) => edit_fault_text(alloc, fault),
        Refusal::FixerRefused { fixer, inner } => {
            let inner = edit_fault_text(alloc, inner)?;
            format!(in alloc; "FixerRefused {fixer} {inner}")
        }
        Refusal::NotSettled { rounds, fixer } => format!(in alloc; "NotSettled {rounds} {fixer}"),
        Refusal::Schema { rule, path } => {
            let rule = rule_text(alloc, rule)?;
            let path = path_text(alloc, path)?;
            format!(in alloc; "Schema {rule} at {path}")
        }
        Refusal::NoMemory => String::from_str(alloc, "NoMemory"),
    }
}
