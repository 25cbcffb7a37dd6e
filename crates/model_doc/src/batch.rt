//! The records of a change.
ghost use Rattle.std.specs.Prelude.{◌≡◌, ◌∷◌, [], ◌++◌, ◌-◌, ◌≤◌, IfOk, OnOk, OnErr};

use crate::document::Document;
use crate::record::Record;
use ck_base::NoMemory;
use live_selection::Selection;
use std::alloc::Global;
use std::marker::Model;

/// The records of a change in order, and the selection from when it was begun.
#[derive(Drop)]
pub struct Batch {
    records: Vec<Record>,
    selection: Selection,
}

impl Model for Batch {
    ghost use Rattle.std.specs.Coded.{codes};
    ghost use Rattle.model_doc.specs.Code.{coded_item};
    ghost use Rattle.model_doc.specs.Batched.{Batched};
    ghost use Rattle.std.specs.Prelude.{◌-◌};
    ghost use Rattle.std.specs.Prelude.{vec_capacity, vec_len};

    ghost Value = { Batched };

    ghost coded = { Prim.hlevel (codes, coded_item) };

    ghost view = { λ batch. record { records = batch.records.items; selection = batch.selection; spare = vec_capacity batch.records - vec_len batch.records } };
}

impl Batch {
    /// A batch without records, with the document's present selection. It answers `NoMemory` alone beside Ok.
    pub fn begin(alloc: Global, document: &Document) -> Result<Batch, NoMemory>
        ensures records { IfOk result (λ batch. batch.records ≡ []) }
        ensures selection { IfOk result (λ batch. batch.selection ≡ document.now.state.document.selection) }
    {
        let selection = document.selection().copy()?;
        Ok(Batch {
            records: Vec::new(alloc),
            selection,
        })
    }

    /// Makes room for at least one more record. It answers `NoMemory` alone beside Ok, and then nothing has changed.
    pub fn reserve(&mut self) -> Result<(), NoMemory>
        ensures spare { OnOk result (1 ≤ self.new.spare) }
        ensures records { self.new.records ≡ self.old.records }
        ensures selection { self.new.selection ≡ self.old.selection }
        ensures err { OnErr result (self.new ≡ self.old) }
    {
        self.records.reserve(1)?;
        Ok(())
    }

    /// Puts a record last. It takes no memory. Its condition is that there is room for it.
    pub fn push(&mut self, done: Record)
        requires { 1 ≤ self.old.spare }
        ensures records { self.new.records ≡ self.old.records ++ done ∷ [] }
        ensures selection { self.new.selection ≡ self.old.selection }
        ensures spare { self.new.spare ≡ self.old.spare - 1 }
    {
        self.records.push_reserved(done);
    }

    /// The records, in the order in which they were made.
    pub fn records(&self) -> &[Record]
        ensures { result.now ≡ self.now.records }
    {
        self.records.as_slice()
    }

    /// The selection from when the batch was begun.
    pub fn selection(&self) -> &Selection
        ensures { result.now ≡ self.now.selection }
    {
        &self.selection
    }

    /// Puts records last. It answers `NoMemory` alone beside Ok, and then there are no more records.
    pub(crate) fn extend(&mut self, mut done: Vec<Record>) -> Result<(), NoMemory>
        ensures ok { OnOk result (self.new.records ≡ self.old.records ++ done.items) }
        ensures err { OnErr result (self.new.records ≡ self.old.records) }
        ensures selection { self.new.selection ≡ self.old.selection }
    {
        self.records.append(&mut done)?;
        Ok(())
    }
}
