//! The edits of a plan.
ghost use Rattle.std.specs.Prelude.{◌≡◌, ◌≢◌, Ok, Err, IfErr, OnOk};
ghost use Rattle.ck_base.specs.declared.faults.EditFault.TheVariants.{NoMemory as OutOfMemory};
ghost use Rattle.schema_definitions.specs.Allowed.{is_registered};
ghost use Rattle.edit_definitions.specs.Performed.{all_performed};
ghost use Rattle.model_doc.specs.Held.{present};
ghost use Rattle.record_definitions.specs.Brought.{BringsInOrder};
ghost use Rattle.record_definitions.specs.Traced.{numbered, Traces};

use ck_base::faults::EditFault;
use edit_definitions::edit::Edit;
use model_doc::Document;
use model_writer::{Batch, perform};
use schema_rules::schema::Schema;

/// The keys of what an edit brings are in order, as its type has it: it only reads, for contracts.
fn read_order(edit: &Edit)
    ensures { BringsInOrder edit.now }
{
    match edit {
        Edit::InsertText { attributes, .. } => {
            let _ordered = attributes.entries();
        }
        Edit::InsertElement { attributes, .. } => {
            let _ordered = attributes.entries();
        }
        Edit::Wrap { attributes, .. } => {
            let _ordered = attributes.entries();
        }
        Edit::InsertItems { items, .. } => {
            let _ordered = items.nodes();
        }
        Edit::Remove { .. } => {}
        Edit::Move { .. } => {}
        Edit::SetAttribute { .. } => {}
        Edit::RemoveAttribute { .. } => {}
        Edit::Rename { .. } => {}
        Edit::Split { .. } => {}
        Edit::Merge { .. } => {}
        Edit::Unwrap { .. } => {}
        Edit::AddMarker { .. } => {}
        Edit::UpdateMarker { .. } => {}
        Edit::RemoveMarker { .. } => {}
        Edit::Select { .. } => {}
        Edit::SelectionAttribute { .. } => {}
    }
}

/// Makes edits in order, numbered from 1, and puts the records of what is made into the batch. It answers the first fault, or `NoMemory`; then the
/// edits before it are made. What the document keeps stays kept.
#[tactic(auto, using(record_definitions::proofs::Tracing::begins, record_definitions::proofs::Tracing::ends, record_definitions::proofs::Tracing::goes_on_by_one, record_definitions::proofs::Tracing::stops))]
pub fn perform_all(
    document: &mut Document,
    schema: &Schema,
    edits: &[Edit],
    batch: &mut Batch,
) -> Result<(), EditFault>
    ensures ok { OnOk result (all_performed (is_registered schema.now) 1 edits.now document.old.state ≡ Ok document.new.state) }
    ensures refused { IfErr result (λ fault. fault ≢ OutOfMemory
        → all_performed (is_registered schema.now) 1 edits.now document.old.state ≡ Err fault) }
    ensures traced { Traces (is_registered schema.now) (numbered 1 edits.now) batch.old.records (present document.old) batch.new.records
        (present document.new) result }
    ensures selection { batch.new.selection ≡ batch.old.selection }
    ensures kept { document.new.kept ≡ document.old.kept }
{
    for (index, edit) in edits.iter().enumerate() {
        read_order(edit);
        perform(document, schema, edit, index as u64 + 1, batch)?;
    }
    Ok(())
}
