//! The document.
ghost use Rattle.std.specs.Prelude.{◌≡◌, ◌≢◌, ◌+◌, ◌++◌, ◌≤◌, ◌^◌, List, length, map, Ok, Some, None, All, IsSome, IfOk, IfErr, OnOk, OnErr, nat_eq};
ghost use Rattle.std.specs.List.{IsDistinct};
ghost use Rattle.item_definitions.specs.Children.{child_count};
ghost use Rattle.item_definitions.specs.Position.{IsRange};
ghost use Rattle.document_definitions.specs.Document.{State, applied, all_applied, with_selection};
ghost use Rattle.document_definitions.specs.Selection.{selected, with_override};
ghost use Rattle.document_definitions.specs.Sound.{IsSound, IsWelcome};
ghost use Rattle.model_ops.specs.Meant.{operation_of};
ghost use Rattle.model_ops.specs.Effects.{refusal};
ghost use Rattle.model_doc.specs.Held.{Moment, empty, in_state, keeping, letting_go, returned};
ghost use Rattle.model_doc.specs.Records.{done_on, records_of, Leads, IsAgain};
ghost use Rattle.model_doc.specs.Conditions.{AreWelcome};

use crate::batch::Batch;
use crate::body::{Body, refused};
use crate::record::Record;
use ck_base::NoMemory;
use ck_base::name::Name;
use ck_base::value::Value;
use live_selection::Selection;
use marker_table::Markers;
use model_ops::cells::Cells;
use model_ops::fault::OpFault;
use model_ops::operation::Operation;
use model_pos::{Position, Range};
use model_tree::tree::Tree;
use std::alloc::{AllocError, Global};
use std::marker::Model;

/// A document. (After `Model` and `Document` of CKEditor 5's model.) It is changed by operations, which leave records, and by the calls that
/// set the selection. It can keep a moment, and return to it without memory.
///
/// It is seen as its state, its mark and the kept moment. The mark, the number of operations that led to the state and were not taken back,
/// is for contracts alone. A document has no call that copies it.
#[derive(Drop)]
pub struct Document {
    body: Body,
    kept: Option<Body>,
}

impl Model for Document {
    ghost use Rattle.std.specs.Coded.{codes};
    ghost use Rattle.model_doc.specs.Code.{coded_item};
    ghost use Rattle.model_doc.specs.Held.{Held};

    ghost Value = { Held };

    ghost coded = { Prim.hlevel (codes, coded_item) };

    ghost view = { λ document. record { state = document.body.state; mark = document.body.mark; kept = document.kept } };
}

impl Document {
    /// A document without items, cells and markers, its selection collapsed at the start of the root, whose first new element gets this id.
    /// It answers `NoMemory` alone beside Ok.
    pub fn new(alloc: Global, first_id: u64) -> Result<Document, NoMemory>
        requires least { 1 ≤ first_id }
        requires most { first_id ≤ 2 ^ 63 }
        ensures { IfOk result (λ document. document ≡ empty first_id) }
    {
        let body = Body::empty(alloc, first_id)?;
        Ok(Document { body, kept: None })
    }

    /// Its items. It takes no memory.
    pub fn tree(&self) -> &Tree
        ensures items { result.now ≡ self.now.state.document.items }
        ensures sound { IsSound self.now.state }
    {
        &self.body.tree
    }

    /// Its markers. It takes no memory.
    pub fn markers(&self) -> &Markers
        ensures { result.now ≡ self.now.state.document.markers }
    {
        &self.body.markers
    }

    /// Its selection. It takes no memory.
    pub fn selection(&self) -> &Selection
        ensures { result.now ≡ self.now.state.document.selection }
    {
        &self.body.selection
    }

    /// The id that the next new element gets. It takes no memory.
    pub fn next_id(&self) -> u64
        ensures { result ≡ self.now.state.document.next_id }
    {
        self.body.next_id
    }

    /// The number of cells, which is the number of the next new one. It takes no memory.
    pub fn cell_count(&self) -> u64
        ensures { result ≡ length self.now.state.cells }
    {
        self.body.cells.len()
    }

    /// Makes an operation: it changes the tree and the cells, gives the named marker its new range, carries all other markers and the
    /// selection, and raises the next id above the ids that it brings. It answers the record that takes it back, or the operation's refusal,
    /// or `NoMemory`; after a refusal and after `NoMemory` nothing has changed. What is kept stays kept.
    ///
    /// Its conditions: the ids that the operation brings are distinct, from 1 to 2^63 - 1, and stand nowhere in the tree and the cells, and
    /// the new range of a marker is in the tree.
    pub fn apply(&mut self, operation: Operation) -> Result<Record, OpFault>
        requires { IsWelcome (operation_of operation) self.old.state }
        ensures ok { OnOk result (applied (operation_of operation) self.old.state ≡ Ok self.new.state) }
        ensures record { IfOk result (λ done. done ≡ done_on self.old.state (operation_of operation) self.new.state (self.old.mark + 1)) }
        ensures mark { OnOk result (self.new.mark ≡ self.old.mark + 1) }
        ensures leads { IfOk result (λ done. Leads self.old.state done self.new) }
        ensures refused { IfErr result (λ fault. fault ≢ OpFault.NoMemory → refusal (applied (operation_of operation) self.old.state) ≡ Some fault) }
        ensures err { OnErr result (self.new ≡ self.old) }
        ensures kept { self.new.kept ≡ self.old.kept }
    {
        match self.body.after(&operation) {
            Ok(made) => Ok(self.body.put(made, operation)),
            Err(fault) => Err(refused(fault, operation)),
        }
    }

    /// Makes operations one after the other, and puts their records into a batch. It answers the first refusal, or `NoMemory`; after both
    /// nothing has changed, but that the batch may have room for more records. What is kept stays kept.
    ///
    /// Its conditions are those of `apply` for each operation, in the state that those before it make.
    pub fn apply_all(
        &mut self,
        operations: Vec<Operation>,
        batch: &mut Batch,
    ) -> Result<(), OpFault>
        requires { AreWelcome (map operation_of operations.items) self.old.state }
        ensures ok { OnOk result (all_applied (map operation_of operations.items) self.old.state ≡ Ok self.new.state) }
        ensures records { OnOk result (batch.new.records ≡ batch.old.records ++ records_of (map operation_of operations.items) self.old.state self.old.mark) }
        ensures mark { OnOk result (self.new.mark ≡ self.old.mark + length operations.items) }
        ensures refused { IfErr result (λ fault. fault ≢ OpFault.NoMemory → refusal (all_applied (map operation_of operations.items) self.old.state)
            ≡ Some fault) }
        ensures err { OnErr result (self.new ≡ self.old) }
        ensures no_records { OnErr result (batch.new.records ≡ batch.old.records) }
        ensures selection { batch.new.selection ≡ batch.old.selection }
        ensures kept { self.new.kept ≡ self.old.kept }
    {
        let Ok(body) = self.body.copy() else {
            return Err(refused(OpFault::NoMemory, operations));
        };
        match body.after_all(operations) {
            Ok((made, records)) => match batch.extend(records) {
                Ok(()) => {
                    self.body = made;
                    Ok(())
                }
                Err(_) => Err(refused(OpFault::NoMemory, made)),
            },
            Err(fault) => Err(fault),
        }
    }

    /// Takes the last operation back that was not taken back yet: items, markers, selection and next id are those from before it, and each
    /// cell holds what it held then. It answers `NoMemory` alone beside Ok, and then nothing has changed. What is kept stays kept.
    ///
    /// Its condition is that the record is that of the last operation that was not taken back.
    pub fn revert(&mut self, done: &Record) -> Result<(), NoMemory>
        requires { (before : State) × Leads before done.now self.old }
        ensures again { OnOk result ((before : State) → Leads before done.now self.old → IsAgain before self.new.state) }
        ensures mark { OnOk result (self.new.mark + 1 ≡ self.old.mark) }
        ensures cells { OnOk result (length self.old.state.cells ≤ length self.new.state.cells) }
        ensures err { OnErr result (self.new ≡ self.old) }
        ensures kept { self.new.kept ≡ self.old.kept }
    {
        let Ok(body) = self.body.before(done) else {
            return Err(AllocError);
        };
        self.body = body;
        Ok(())
    }

    /// Selects another range, without overrides. It is forward where the range is collapsed. It takes no memory, and changes nothing else.
    pub fn set_selection(&mut self, range: Range, backward: bool)
        requires { IsRange (child_count self.old.state.document.items) range }
        ensures { self.new ≡ in_state (with_selection (selected range backward) self.old.state) self.old }
    {
        self.body.selection.set(range, backward);
    }

    /// Puts a whole selection in place, with its overrides. It takes no memory, and changes nothing else.
    pub fn put_selection(&mut self, selection: Selection)
        requires { IsRange (child_count self.old.state.document.items) selection.range }
        ensures { self.new ≡ in_state (with_selection selection self.old.state) self.old }
    {
        let _backward = selection.is_backward();
        self.body.selection = selection;
    }

    /// Overrides the selection's value of a key with this one, or with none. It answers `NoMemory` alone beside Ok, and then nothing has
    /// changed; it changes nothing else.
    pub fn override_attribute(&mut self, key: Name, value: Option<Value>) -> Result<(), NoMemory>
        ensures ok { OnOk result (self.new ≡ in_state (with_selection (with_override key value self.old.state.document.selection) self.old.state) self.old) }
        ensures err { OnErr result (self.new ≡ self.old) }
    {
        self.body.selection.override_attribute(key, value)
    }

    /// Keeps the present moment: from now on the document can return to it. It answers `NoMemory` alone beside Ok, and then nothing has
    /// changed. Its condition is that nothing is kept.
    pub fn begin_keep(&mut self) -> Result<(), NoMemory>
        requires { self.old.kept ≡ None }
        ensures ok { OnOk result (self.new ≡ keeping self.old) }
        ensures err { OnErr result (self.new ≡ self.old) }
    {
        let body = self.body.copy()?;
        self.kept = Some(body);
        Ok(())
    }

    /// Returns to the kept moment, and keeps nothing then. It takes no memory. Its condition is that a moment is kept.
    pub fn restore(&mut self)
        requires { IsSome self.old.kept }
        ensures { (moment : Moment) → self.old.kept ≡ Some moment → self.new ≡ returned moment }
    {
        if let Some(body) = self.kept.take() {
            self.body = body;
        }
    }

    /// Gives up the kept moment. It takes no memory. Its condition is that a moment is kept.
    pub fn drop_keep(&mut self)
        requires { IsSome self.old.kept }
        ensures { self.new ≡ letting_go self.old }
    {
        self.kept = None;
    }
}
