//! A change of a document, up to the point from which it takes no memory.
ghost use Rattle.std.specs.Prelude.{◌≡◌, ◌≢◌, ◌≤◌, ◌+◌, ◌*◌, length, None, Ok, Err, IfOk, IfErr, OnOk};
ghost use Rattle.ck_base.specs.declared.faults.EditFault.TheVariants.{NoMemory as NoMemoryForEdit};
ghost use Rattle.breach_definitions.specs.Breach.{breach};
ghost use Rattle.schema_definitions.specs.Allowed.{is_registered};
ghost use Rattle.conv_rules.specs.Listed.{boxed_count, conversion_of};
ghost use Rattle.document_definitions.specs.Document.{ids_of};
ghost use Rattle.pos_mapper.specs.Bindings.{numbers_of};
ghost use Rattle.pos_mapper.specs.Mapped.{IsMapped};
ghost use Rattle.downcast_definitions.specs.Numbered.{AreNumbered};
ghost use Rattle.edit_definitions.specs.Performed.{edits_made};
ghost use Rattle.fix_definitions.specs.Settling.{settled};
ghost use Rattle.step_definitions.specs.Step.{step, settle_refusal};
ghost use Rattle.editor_core.specs.Held.{terms_of, fixings_in, Moves};
ghost use Rattle.editor_core.specs.Tested.{Tests, Settles};

use crate::terms::Terms;
use ck_base::faults::{EditFault, Refusal};
use ck_base::steps::{Ledger, Steps};
use conv_rules::list::ConverterList;
use down_whole::whole::downcast;
use edit_definitions::edit::Edit;
use fix_definitions::fault::SettleFault;
use model_doc::Document;
use model_writer::Batch;
use pos_mapper::mapper::Mapper;
use post_fix::{perform_all, settle};
use schema_rules::schema::Schema;
use std::alloc::Global;
use view_tree::view::View;

/// Makes edits in order, numbered from 1. It answers the first fault, or `NoMemory`; then the edits before it are made. What becomes of the document
/// doesn't hang on what its cells hold, and what it keeps stays kept.
fn make_edits(
    document: &mut Document,
    schema: &Schema,
    edits: &[Edit],
    batch: &mut Batch,
) -> Result<(), EditFault>
    ensures ok { OnOk result (edits_made (is_registered schema.now) edits.now document.old.state.document ≡ Ok document.new.state.document) }
    ensures refused { IfErr result (λ fault. fault ≢ NoMemoryForEdit
        → edits_made (is_registered schema.now) edits.now document.old.state.document ≡ Err fault) }
    ensures kept { document.new.kept ≡ document.old.kept }
{
    perform_all(document, schema, edits, batch)
}

/// The refusal of a change one of whose edits can't be made.
fn refusal_of(fault: EditFault) -> Refusal
    ensures memory { fault ≡ NoMemoryForEdit → result ≡ Refusal.NoMemory }
    ensures fault { fault ≢ NoMemoryForEdit → result ≡ Refusal.Edit fault }
{
    match fault {
        EditFault::NoMemory => Refusal::NoMemory,
        fault => Refusal::Edit(fault),
    }
}

/// Tests a document against a schema: it answers the first breach as a refusal, or `NoMemory`.
fn tested(document: &Document, schema: &Schema) -> Result<(), Refusal>
    ensures { Tests (breach schema.now document.now.state.document.items) result }
{
    match schema.first_breach(document.tree())? {
        Some((rule, path)) => Err(Refusal::Schema { rule, path }),
        None => Ok(()),
    }
}

/// The refusal of a change whose document doesn't settle.
fn settle_refusal(fault: SettleFault) -> Refusal
    ensures { result ≡ settle_refusal fault }
{
    match fault {
        SettleFault::NotSettled { rounds, fixer } => Refusal::NotSettled { rounds, fixer },
        SettleFault::FixerRefused { fixer, inner } => Refusal::FixerRefused { fixer, inner },
        SettleFault::NoMemory => Refusal::NoMemory,
    }
}

/// Brings a document to rest by fixers. It answers the change's refusal, or `NoMemory`; then the document may be changed, and what it keeps stays
/// kept.
fn settle_all(document: &mut Document, terms: &Terms, batch: &mut Batch) -> Result<(), Refusal>
    ensures settles { Settles (settled (is_registered terms.now.schema) (fixings_in (λ object. fixes (object.vtable, object.value)) terms.now)
        terms.now.rounds document.old.state.document) document.new.state.document result }
    ensures kept { document.new.kept ≡ document.old.kept }
{
    match settle(document, &terms.schema, &terms.fixers, terms.rounds, batch) {
        Ok(()) => Ok(()),
        Err(fault) => Err(settle_refusal(fault)),
    }
}

/// Makes the edits of a change, brings the document to rest by the fixers, and tests the schema. It answers the change's refusal, or `NoMemory`; then
/// the document may be changed, and what it keeps stays kept.
fn edited(
    alloc: Global,
    document: &mut Document,
    terms: &Terms,
    edits: &[Edit],
) -> Result<(), Refusal>
    ensures moves { Moves (step (terms_of (λ object. fixes (object.vtable, object.value)) terms.now) edits.now document.old.state.document)
        document.new.state.document result }
    ensures kept { document.new.kept ≡ document.old.kept }
{
    let mut batch = Batch::begin(alloc, document)?;
    match make_edits(document, &terms.schema, edits, &mut batch) {
        Ok(()) => {}
        Err(fault) => return Err(refusal_of(fault)),
    }
    settle_all(document, terms, &mut batch)?;
    tested(document, &terms.schema)
}

/// Makes a change of a document, and the view of the document then, with its mapper. It answers the change's refusal, or `NoMemory`; then the document
/// may be changed, and what it keeps stays kept.
pub(crate) fn changed<L: Ledger>(
    alloc: Global,
    document: &mut Document,
    terms: &Terms,
    list: &ConverterList,
    edits: &[Edit],
    steps: &mut Steps<L>,
) -> Result<(View, Mapper), Refusal>
    ensures moves { Moves (step (terms_of (λ object. fixes (object.vtable, object.value)) terms.now) edits.now document.old.state.document)
        document.new.state.document result }
    ensures mapped { IfOk result (λ both.
        IsMapped (conversion_of (λ object. gives (object.vtable, object.value)) list.now) document.new.state.document both.1 both.0.nodes) }
    ensures numbered { IfOk result (λ both. AreNumbered (numbers_of both.1) (ids_of document.new.state.document.items)) }
    ensures calls { OnOk result (steps.new ≤ steps.old + boxed_count (conversion_of (λ object. gives (object.vtable, object.value)) list.now).converters
        * length (ids_of document.new.state.document.items)) }
    ensures no_calls { IfErr result (λ refusal. refusal ≢ Refusal.NoMemory → steps.new ≡ steps.old) }
    ensures kept { document.new.kept ≡ document.old.kept }
{
    edited(alloc, document, terms, edits)?;
    match downcast(alloc, list, document, steps) {
        Ok(both) => Ok(both),
        Err(_) => Err(Refusal::NoMemory),
    }
}
