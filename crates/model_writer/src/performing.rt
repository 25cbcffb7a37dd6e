//! One edit, made on a document.
ghost use Rattle.std.specs.Prelude.{◌≡◌, ◌≢◌, ◌+◌, ◌++◌, List, IsTrue, false, length, Ok, Err, IfErr, OnOk, OnErr};
ghost use Rattle.ck_base.specs.declared.faults.EditFault.TheVariants.{BadRange, NoMemory as OutOfMemory};
ghost use Rattle.item_definitions.specs.Position.{between};
ghost use Rattle.document_definitions.specs.Document.{with_selection};
ghost use Rattle.document_definitions.specs.Selection.{selected, with_override};
ghost use Rattle.operation_definitions.specs.Operation.{Operation};
ghost use Rattle.schema_definitions.specs.Allowed.{is_registered};
ghost use Rattle.edit_definitions.specs.Places.{is_range};
ghost use Rattle.edit_definitions.specs.Planned.{operations_of};
ghost use Rattle.edit_definitions.specs.Performed.{performed};
ghost use Rattle.model_doc.specs.Held.{in_state};
ghost use Rattle.model_doc.specs.Records.{records_of};
ghost use Rattle.model_writer.specs.Plans.{IsPlain, IsLimit, limit_of};

use crate::places::{bad_range, is_range};
use crate::planning::plan;
use crate::runs::copied_value;
use ck_base::faults::EditFault;
use ck_base::name::Name;
use ck_base::value::Value;
use edit_definitions::edit::Edit;
use model_doc::{Batch, Document};
use model_ops::fault::OpFault;
use model_pos::{Position, Range};
use schema_rules::schema::Schema;

/// The refusal of an operation as the fault of its edit: the limits on the tree alone can refuse an operation that an edit plans.
fn limit_of(edit: u64, fault: OpFault) -> EditFault
    requires { IsLimit fault }
    ensures { result ≡ limit_of edit fault }
{
    match fault {
        OpFault::TooLarge(count) => EditFault::TooLarge { edit, count },
        OpFault::TooDeep(depth) => EditFault::TooDeep { edit, depth },
        OpFault::NoMemory => EditFault::NoMemory,
        OpFault::NoPlace
        | OpFault::NotFlat
        | OpFault::IntoItself
        | OpFault::OldDiffers(_)
        | OpFault::NotNeighbours
        | OpFault::CellState(_) => unreachable!(),
    }
}

/// Makes an edit of the tree or the markers.
#[tactic(auto, using(crate::proofs::Made::plain_made, crate::proofs::Made::limit_refused, crate::proofs::Made::plan_refused, crate::proofs::Made::limit_alone))]
fn make(
    document: &mut Document,
    schema: &Schema,
    edit: &Edit,
    number: u64,
    batch: &mut Batch,
) -> Result<(), EditFault>
    requires { IsPlain edit.now }
    ensures ok { OnOk result (performed (is_registered schema.now) number edit.now document.old.state ≡ Ok document.new.state) }
    ensures records { OnOk result ((operations : List Operation) → operations_of (is_registered schema.now) number edit.now document.old.state ≡ Ok operations
        → batch.new.records ≡ batch.old.records ++ records_of operations document.old.state document.old.mark) }
    ensures mark { OnOk result ((operations : List Operation) → operations_of (is_registered schema.now) number edit.now document.old.state ≡ Ok operations
        → document.new.mark ≡ document.old.mark + length operations) }
    ensures refused { IfErr result (λ fault. fault ≢ OutOfMemory → performed (is_registered schema.now) number edit.now document.old.state ≡ Err fault) }
    ensures err { OnErr result (document.new ≡ document.old) }
    ensures no_records { OnErr result (batch.new.records ≡ batch.old.records) }
    ensures selection { batch.new.selection ≡ batch.old.selection }
    ensures kept { document.new.kept ≡ document.old.kept }
{
    let _sound = document.tree();
    let operations = plan(document, schema, edit, number)?;
    match document.apply_all(operations, batch) {
        Ok(()) => Ok(()),
        Err(fault) => Err(limit_of(number, fault)),
    }
}

/// Selects another range, if it is in the document.
#[tactic(auto, using(crate::proofs::Welcome::range_there))]
fn select(
    document: &mut Document,
    number: u64,
    start: &Position,
    end: &Position,
    backward: bool,
) -> Result<(), EditFault>
    ensures there { OnOk result (IsTrue (is_range document.old.state.document.items start.now end.now)) }
    ensures ok { OnOk result (document.new ≡ in_state (with_selection (selected (between start.now end.now) backward) document.old.state) document.old) }
    ensures fault { IfErr result (λ fault. fault ≡ BadRange number start.now end.now) }
    ensures gone { OnErr result (is_range document.old.state.document.items start.now end.now ≡ false) }
    ensures err { OnErr result (document.new ≡ document.old) }
{
    if !is_range(document.tree(), start, end) {
        return Err(bad_range(number, start, end));
    }
    document.set_selection(Range::new(start.copy(), end.copy()), backward);
    Ok(())
}

/// Overrides the selection's value of a key.
fn override_attribute(
    document: &mut Document,
    key: &Name,
    value: &Option<Value>,
) -> Result<(), EditFault>
    ensures ok { OnOk result (document.new
        ≡ in_state (with_selection (with_override key.now value.now document.old.state.document.selection) document.old.state) document.old) }
    ensures fault { IfErr result (λ fault. fault ≡ OutOfMemory) }
    ensures err { OnErr result (document.new ≡ document.old) }
{
    let (Ok(key), Ok(value)) = (key.copy(), copied_value(value.as_ref())) else {
        return Err(EditFault::NoMemory);
    };
    match document.override_attribute(key, value) {
        Ok(()) => Ok(()),
        Err(_) => Err(EditFault::NoMemory),
    }
}

/// Makes an edit, which has this number in its change, and puts the records of its operations into the batch. Its premises are tested before
/// the first operation. It answers the edit's first fault in the order of `EditFault`, or `NoMemory`; after both, the document is as it was and
/// the batch has the records that it had. What the document keeps stays kept.
///
/// The operations that it makes, and when it is refused, are those of `edit_definitions`.
#[tactic(auto, using(crate::proofs::Made::selected_made, crate::proofs::Made::selected_planned, crate::proofs::Made::not_selected))]
pub fn perform(
    document: &mut Document,
    schema: &Schema,
    edit: &Edit,
    number: u64,
    batch: &mut Batch,
) -> Result<(), EditFault>
    ensures ok { OnOk result (performed (is_registered schema.now) number edit.now document.old.state ≡ Ok document.new.state) }
    ensures records { OnOk result ((operations : List Operation) → operations_of (is_registered schema.now) number edit.now document.old.state ≡ Ok operations
        → batch.new.records ≡ batch.old.records ++ records_of operations document.old.state document.old.mark) }
    ensures mark { OnOk result ((operations : List Operation) → operations_of (is_registered schema.now) number edit.now document.old.state ≡ Ok operations
        → document.new.mark ≡ document.old.mark + length operations) }
    ensures refused { IfErr result (λ fault. fault ≢ OutOfMemory → performed (is_registered schema.now) number edit.now document.old.state ≡ Err fault) }
    ensures err { OnErr result (document.new ≡ document.old) }
    ensures no_records { OnErr result (batch.new.records ≡ batch.old.records) }
    ensures selection { batch.new.selection ≡ batch.old.selection }
    ensures kept { document.new.kept ≡ document.old.kept }
{
    match edit {
        Edit::Select {
            start,
            end,
            backward,
        } => select(document, number, start, end, *backward),
        Edit::SelectionAttribute { key, value } => override_attribute(document, key, value),
        _ => make(document, schema, edit, number, batch),
    }
}
