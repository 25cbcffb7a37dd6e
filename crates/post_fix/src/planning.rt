//! The first plan that isn't empty.
ghost use Rattle.std.specs.Prelude.{◌≡◌, ◌+◌, ◌-◌, ◌^◌, min, [], ◌++◌, OnOk, IfOk, option_map};
ghost use Rattle.fix_definitions.specs.Fixes.{fixing_of};
ghost use Rattle.fix_definitions.specs.Settling.{plan_of, first_plan, fixer_number};
ghost use Rattle.post_fix.specs.Listed.{fixer_of, fixings_in};
ghost use Rattle.post_fix.specs.Turns.{found_plan};

use crate::fixer::Fixer;
use crate::list::FixerEntry;
use crate::stock;
use ck_base::NoMemory;
use edit_definitions::edit::Edit;
use model_doc::Document;
use schema_rules::schema::Schema;

/// Calls a fixer of the product.
fn called(object: &dyn Fixer, document: &Document, out: &mut Vec<Edit>) -> Result<(), NoMemory>
    ensures { OnOk result (out.new.items ≡ out.old.items ++ plan_of (fixes object.now) document.now.state.document) }
{
    object.plan(document, out)
}

/// Calls a fixer of the product that is in a box.
fn called_in_box(
    object: &Box<dyn Fixer>,
    document: &Document,
    out: &mut Vec<Edit>,
) -> Result<(), NoMemory>
    ensures { OnOk result (out.new.items ≡ out.old.items ++ plan_of (fixes object.now) document.now.state.document) }
{
    called(object.as_ref(), document, out)
}

/// Puts the plan of a fixer last.
fn plan_by(
    entry: &FixerEntry,
    document: &Document,
    schema: &Schema,
    out: &mut Vec<Edit>,
) -> Result<(), NoMemory>
    ensures { OnOk result (out.new.items
        ≡ out.old.items ++ plan_of (fixing_of schema.now (fixer_of (λ object. fixes object) entry.now)) document.now.state.document) }
{
    match entry {
        FixerEntry::Stock(fixer) => stock::plan(fixer, document, schema, out),
        FixerEntry::Boxed(object) => called_in_box(object, document, out),
    }
}

/// The number of the fixer at an index, at most the largest one.
fn number_at(index: usize) -> u32
    ensures { result ≡ fixer_number (index + 1) }
{
    if index < u32::MAX as usize {
        index as u32 + 1
    } else {
        u32::MAX
    }
}

/// The first plan that isn't empty: it is put where no edits are, and its fixer's number answered. None where no fixer wants anything. It
/// answers `NoMemory` alone beside Ok.
pub(crate) fn first_plan(
    entries: &[FixerEntry],
    document: &Document,
    schema: &Schema,
    out: &mut Vec<Edit>,
) -> Result<Option<u32>, NoMemory>
    requires { out.old.items ≡ [] }
    ensures { IfOk result (λ number. option_map (λ fixer. (fixer, out.new.items)) number
        ≡ option_map found_plan (first_plan 1 (fixings_in schema.now (λ object. fixes object) entries.now) document.now.state.document)) }
{
    for (index, entry) in entries.iter().enumerate() {
        plan_by(entry, document, schema, out)?;
        if !out.is_empty() {
            return Ok(Some(number_at(index)));
        }
    }
    Ok(None)
}
