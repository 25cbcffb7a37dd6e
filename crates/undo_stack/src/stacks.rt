//! The stacks of undo and redo.
ghost use Rattle.std.specs.Prelude.{◌≡◌, ◌≢◌, ◌+◌, ◌<◌, ◌≤◌, [], not, reverse, Some, None, IsSome, IfOk, IfErr, OnOk, OnErr, vec_len, vec_capacity};
ghost use Rattle.undo_stack.specs.History.{History, undo, redo};
ghost use Rattle.undo_stack.specs.Stacked.{no_lists, with_batch, is_none_of};
ghost use Rattle.undo_stack.specs.Layout.{rest_of};
ghost use Rattle.undo_stack.specs.Kept.{Holds};
ghost use Rattle.undo_stack.specs.Turns.{MayUndo, IsTakenBack, MayRedo, IsMadeAnew, HasHistory, Reaches, IsReady, IsRefused};
ghost use Rattle.undo_stack.specs.Turns.{last_count, last_undone_count, after_undo, after_redo};

use crate::fault::StackFault;
use crate::replay::{make_batch_anew, take_batch_back};
use ck_base::NoMemory;
use live_selection::Selection;
use model_doc::{Batch, Document};
use std::alloc::Global;
use std::marker::Model;
use std::mem;

/// A batch that was undone, and the selection from when it was undone.
#[derive(Drop)]
pub(crate) struct Undone {
    batch: Batch,
    selection: Selection,
}

impl Model for Undone {
    ghost use Rattle.std.specs.Coded.{codes};
    ghost use Rattle.model_doc.specs.Code.{coded_item};
    ghost use Rattle.undo_stack.specs.Stacked.{Undone as Seen};

    ghost Value = { Seen };

    ghost coded = { Prim.hlevel (codes, coded_item) };

    ghost view = { λ undone. record { batch = undone.batch; selection = undone.selection } };
}

/// The last call, where it can be taken back.
#[derive(Drop)]
enum Last {
    Other,
    Undo,
    Redo(Undone),
}

/// The stacks of undo and redo. (After the undo and redo stacks of CKEditor 5's `UndoCommand` and `RedoCommand`.)
///
/// They are seen as the batches that stand and those that were undone, with what the last undo or redo changed.
#[derive(Drop)]
pub struct Stacks {
    earlier: Vec<Batch>,
    undone: Vec<Undone>,
    last: Last,
}

impl Model for Stacks {
    ghost use Rattle.std.specs.Coded.{codes};
    ghost use Rattle.std.specs.Prelude.{◌-◌};
    ghost use Rattle.std.specs.Prelude.{vec_capacity, vec_len};
    ghost use Rattle.model_doc.specs.Code.{coded_item};
    ghost use Rattle.undo_stack.specs.Stacked.{Stacked};
    ghost use Rattle.undo_stack.specs.Layout.{lists_of, lists_before, HasRoom};

    ghost Value = { Stacked };

    ghost coded = { Prim.hlevel (codes, coded_item) };

    ghost view = { λ stacks. record {
      lists = lists_of stacks.earlier.items stacks.undone.items;
      before = lists_before stacks.last (lists_of stacks.earlier.items stacks.undone.items);
      spare = vec_capacity stacks.earlier - vec_len stacks.earlier;
      undone_spare = vec_capacity stacks.undone - vec_len stacks.undone;
    } };

    ghost invariant = { λ stacks. HasRoom stacks.last (vec_capacity stacks.earlier - vec_len stacks.earlier)
        (vec_capacity stacks.undone - vec_len stacks.undone) };
}

impl Stacks {
    /// Empty stacks. It takes no memory.
    pub fn new(alloc: Global) -> Stacks
        ensures lists { result.lists ≡ no_lists }
        ensures before { result.before ≡ None }
    {
        Stacks {
            earlier: Vec::new(alloc),
            undone: Vec::new(alloc),
            last: Last::Other,
        }
    }

    /// There is a batch to undo. It takes no memory.
    pub fn can_undo(&self) -> bool
        ensures { result ≡ not (is_none_of self.now.lists.earlier) }
    {
        !self.earlier.is_empty()
    }

    /// There is a batch to redo. It takes no memory.
    pub fn can_redo(&self) -> bool
        ensures { result ≡ not (is_none_of self.now.lists.undone) }
    {
        !self.undone.is_empty()
    }

    /// Makes room for at least one more batch. It answers `NoMemory` alone beside Ok, and then nothing has changed.
    pub fn reserve(&mut self) -> Result<(), NoMemory>
        ensures spare { OnOk result (1 ≤ self.new.spare) }
        ensures lists { self.new.lists ≡ self.old.lists }
        ensures before { self.new.before ≡ self.old.before }
        ensures err { OnErr result (self.new ≡ self.old) }
    {
        self.earlier.reserve(1)?;
        Ok(())
    }

    /// Puts the batch of a change last; then none is undone. It takes no memory. Its condition is that there is room for it.
    pub fn push_spare(&mut self, batch: Batch)
        requires { 1 ≤ self.old.spare }
        ensures lists { self.new.lists ≡ with_batch batch self.old.lists }
        ensures before { self.new.before ≡ None }
    {
        remember(&mut self.last, Last::Other);
        forget(&mut self.undone);
        self.earlier.push_reserved(batch);
    }

    /// Puts the batch of a change last; then none is undone. It answers `NoMemory` alone beside Ok, and then nothing has changed.
    pub fn push(&mut self, batch: Batch) -> Result<(), NoMemory>
        ensures lists { OnOk result (self.new.lists ≡ with_batch batch self.old.lists) }
        ensures before { OnOk result (self.new.before ≡ None) }
        ensures err { OnErr result (self.new ≡ self.old) }
    {
        self.reserve()?;
        self.push_spare(batch);
        Ok(())
    }

    /// Empties both stacks. It takes no memory.
    pub fn clear(&mut self)
        ensures lists { self.new.lists ≡ no_lists }
        ensures before { self.new.before ≡ None }
    {
        remember(&mut self.last, Last::Other);
        forget(&mut self.undone);
        self.earlier.clear();
    }

    /// Undoes the last batch: the document is then the last earlier one, whole, and this one, whole, the last that was undone.
    ///
    /// It answers `Nothing` exactly where there is no batch to undo, and then nothing has changed; or `NoMemory`, and then stacks and
    /// document are as they were, but that the document keeps nothing.
    ///
    /// Its conditions: the stacks with the document are some history, and where there is a batch to undo, the document keeps the present
    /// moment. After Ok it still keeps that.
    pub fn undo(&mut self, document: &mut Document) -> Result<(), StackFault>
        requires ready { IsReady self.old.lists.earlier document.old }
        requires history { HasHistory self.old.lists document.old }
        ensures history { OnOk result ((history : History) → Holds history self.old.lists document.old → Reaches (undo history) self.new.lists document.new) }
        ensures lists { OnOk result (self.new.lists ≡ after_undo document.old.state.document.selection self.old.lists.earlier self.old.lists) }
        ensures before { OnOk result (self.new.before ≡ Some self.old.lists) }
        ensures mark { OnOk result (document.new.mark + last_count self.old.lists.earlier ≡ document.old.mark) }
        ensures kept { OnOk result (document.new.kept ≡ document.old.kept) }
        ensures refused { IfErr result (λ fault. IsRefused fault self.old.lists.earlier document.old document.new) }
        ensures err { OnErr result (self.new.lists ≡ self.old.lists) }
    {
        let Some((batch, _)) = self.earlier.as_slice().split_last() else {
            return Err(StackFault::Nothing);
        };
        remember(&mut self.last, Last::Other);
        match take_back_into(&mut self.undone, document, batch) {
            Ok(selection) => {
                self.put_undone(selection);
                Ok(())
            }
            Err(_) => {
                document.restore();
                Err(StackFault::NoMemory)
            }
        }
    }

    /// Redoes the last batch that was undone: the document is then the last undone one, whole, and this one, whole, the last earlier one.
    ///
    /// It answers `Nothing` exactly where there is no batch to redo, and then nothing has changed; or `NoMemory`, and then stacks and
    /// document are as they were, but that the document keeps nothing.
    ///
    /// Its conditions: the stacks with the document are some history, and where there is a batch to redo, the document keeps the present
    /// moment. After Ok it still keeps that.
    pub fn redo(&mut self, document: &mut Document) -> Result<(), StackFault>
        requires ready { IsReady self.old.lists.undone document.old }
        requires history { HasHistory self.old.lists document.old }
        ensures history { OnOk result ((history : History) → Holds history self.old.lists document.old → Reaches (redo history) self.new.lists document.new) }
        ensures earlier { OnOk result (rest_of self.new.lists.earlier ≡ self.old.lists.earlier) }
        ensures undone { OnOk result (self.new.lists.undone ≡ rest_of self.old.lists.undone) }
        ensures before { OnOk result (self.new.before ≡ Some self.old.lists) }
        ensures mark { OnOk result (document.new.mark ≡ document.old.mark + last_undone_count self.old.lists.undone) }
        ensures kept { OnOk result (document.new.kept ≡ document.old.kept) }
        ensures refused { IfErr result (λ fault. IsRefused fault self.old.lists.undone document.old document.new) }
        ensures err { OnErr result (self.new.lists ≡ self.old.lists) }
    {
        let Some((undone, _)) = self.undone.as_slice().split_last() else {
            return Err(StackFault::Nothing);
        };
        remember(&mut self.last, Last::Other);
        match make_anew_into(&mut self.earlier, document, undone) {
            Ok(batch) => {
                self.put_redone(batch);
                Ok(())
            }
            Err(_) => {
                document.restore();
                Err(StackFault::NoMemory)
            }
        }
    }

    /// Gives the stacks what they held before the last call. It takes no memory. Its condition is that this call was an undo or a redo that
    /// came about.
    pub fn put_back(&mut self)
        requires { IsSome self.old.before }
        ensures lists { self.old.before ≡ Some self.new.lists }
        ensures before { self.new.before ≡ None }
    {
        match mem::replace(&mut self.last, Last::Other) {
            Last::Other => {}
            Last::Undo => {
                if let Some(undone) = self.undone.pop() {
                    self.earlier.push_reserved(undone.batch);
                }
            }
            Last::Redo(undone) => {
                drop_last(&mut self.earlier);
                self.undone.push_reserved(undone);
            }
        }
    }

    /// Moves the last batch to those that were undone, with the selection from before. There is room for it, and it takes no memory.
    fn put_undone(&mut self, selection: Selection)
        requires { 1 ≤ self.old.undone_spare }
        ensures lists { self.new.lists ≡ after_undo selection self.old.lists.earlier self.old.lists }
        ensures before { self.old.lists.earlier ≢ [] → self.new.before ≡ Some self.old.lists }
    {
        if let Some(batch) = self.earlier.pop() {
            self.undone.push_reserved(Undone { batch, selection });
            remember(&mut self.last, Last::Undo);
        }
    }

    /// Puts this batch in place of the last one that was undone. There is room for it, and it takes no memory.
    fn put_redone(&mut self, again: Batch)
        requires { 1 ≤ self.old.spare }
        ensures lists { self.new.lists ≡ after_redo again self.old.lists.undone self.old.lists }
        ensures before { self.old.lists.undone ≢ [] → self.new.before ≡ Some self.old.lists }
    {
        if let Some(undone) = self.undone.pop() {
            self.earlier.push_reserved(again);
            remember(&mut self.last, Last::Redo(undone));
        }
    }
}

/// Takes a batch back, with room for one more that was undone, and answers the selection from before. It answers `NoMemory` alone beside Ok.
fn take_back_into(
    undone: &mut Vec<Undone>,
    document: &mut Document,
    batch: &Batch,
) -> Result<Selection, NoMemory>
    requires { MayUndo batch.now document.old }
    ensures items { undone.new.items ≡ undone.old.items }
    ensures room { OnOk result (vec_len undone.new < vec_capacity undone.new) }
    ensures back { OnOk result (IsTakenBack batch.now document.old document.new) }
    ensures selection { IfOk result (λ selection. selection ≡ document.old.state.document.selection) }
    ensures kept { document.new.kept ≡ document.old.kept }
{
    undone.reserve(1)?;
    take_batch_back(document, batch)
}

/// Makes a batch that was undone anew, with room for one more batch, and answers the new one. It answers `NoMemory` alone beside Ok.
fn make_anew_into(
    earlier: &mut Vec<Batch>,
    document: &mut Document,
    undone: &Undone,
) -> Result<Batch, NoMemory>
    requires { MayRedo undone.now document.old }
    ensures items { earlier.new.items ≡ earlier.old.items }
    ensures room { OnOk result (vec_len earlier.new < vec_capacity earlier.new) }
    ensures on { IfOk result (λ batch. IsMadeAnew undone.now batch document.old document.new) }
    ensures kept { document.new.kept ≡ document.old.kept }
{
    earlier.reserve(1)?;
    make_batch_anew(
        *earlier.allocator(),
        document,
        &undone.batch,
        &undone.selection,
    )
}

/// Puts this in place of what was the last call.
fn remember(last: &mut Last, now: Last)
    ensures { last.new ≡ now }
{
    *last = now;
}

/// Drops all that were undone. It takes no memory.
fn forget(undone: &mut Vec<Undone>)
    ensures items { undone.new.items ≡ [] }
    ensures len { vec_len undone.new ≡ 0 }
    ensures room { vec_capacity undone.new ≡ vec_capacity undone.old }
{
    undone.clear();
}

/// Drops the last batch, if there is one. It takes no memory.
fn drop_last(earlier: &mut Vec<Batch>)
    ensures items { rest_of (reverse earlier.old.items) ≡ reverse earlier.new.items }
    ensures len { vec_len earlier.new ≤ vec_len earlier.old }
    ensures room { vec_capacity earlier.new ≡ vec_capacity earlier.old }
{
    let _batch = earlier.pop();
}
