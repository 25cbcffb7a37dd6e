//! A batch taken back, and made anew.
ghost use Rattle.std.specs.Prelude.{◌≡◌, ◌+◌, [], ◌∷◌, ◌++◌, reverse, Ok, IfOk, OnOk};
ghost use Rattle.document_definitions.specs.Document.{applied};
ghost use Rattle.document_definitions.specs.Sound.{IsWelcome};
ghost use Rattle.model_doc.specs.Records.{Leads};
ghost use Rattle.undo_stack.specs.Turns.{MayUndo, IsTakenBack, MayRedo, IsMadeAnew};
ghost use Rattle.undo_stack.specs.Replays.{HasBack, ComesBack, HasOn, ComesOn, done_again};

use ck_base::NoMemory;
use live_selection::Selection;
use model_doc::{Batch, Document, Record};
use std::alloc::{AllocError, Global};

/// Takes records back, the last first. It answers `NoMemory` alone beside Ok; then some of them may be taken back. What is kept stays kept.
#[tactic(auto, using(crate::proofs::Moments::begins_back))]
pub(crate) fn take_back(document: &mut Document, records: &[Record]) -> Result<(), NoMemory>
    requires { HasBack (reverse records.now) document.old }
    ensures back { OnOk result (ComesBack (reverse records.now) document.old document.new) }
    ensures kept { document.new.kept ≡ document.old.kept }
{
    let mut left = records;
    'records: while let Some((done, before)) = left.split_last() {
        document.revert(done)?;
        left = before;
    }
    Ok(())
}

/// Makes the operations of records anew, and answers their batch, which has the document's present selection. It answers `NoMemory` alone
/// beside Ok; then some of them may be made. What is kept stays kept.
#[tactic(auto, using(crate::proofs::GoingOn::begins_on))]
pub(crate) fn make_anew(
    alloc: Global,
    document: &mut Document,
    records: &[Record],
) -> Result<Batch, NoMemory>
    requires { HasOn records.now document.old }
    ensures on { IfOk result (λ batch. ComesOn records.now batch.records document.old document.new) }
    ensures selection { IfOk result (λ batch. batch.selection ≡ document.old.state.document.selection) }
    ensures kept { document.new.kept ≡ document.old.kept }
{
    let mut batch = Batch::begin(alloc, document)?;
    for done in records {
        again(document, done, &mut batch)?;
    }
    Ok(batch)
}

/// Makes the operation of a record anew, and puts its new record last. It answers `NoMemory` alone beside Ok; then nothing has changed, but
/// that the batch may have room for more records.
fn again(document: &mut Document, done: &Record, batch: &mut Batch) -> Result<(), NoMemory>
    requires { IsWelcome done.now.operation document.old.state }
    ensures ok { OnOk result (applied done.now.operation document.old.state ≡ Ok document.new.state) }
    ensures mark { OnOk result (document.new.mark ≡ document.old.mark + 1) }
    ensures record { OnOk result (batch.new.records ≡ batch.old.records ++ done_again done.now document.old document.new ∷ []) }
    ensures leads { OnOk result (Leads document.old.state (done_again done.now document.old document.new) document.new) }
    ensures selection { batch.new.selection ≡ batch.old.selection }
    ensures kept { document.new.kept ≡ document.old.kept }
{
    let operation = done.operation().copy()?;
    batch.reserve()?;
    let Ok(made) = document.apply(operation) else {
        return Err(AllocError);
    };
    batch.push(made);
    Ok(())
}

/// Takes a whole batch back, and puts the selection from when it was begun in place. It answers the selection from before, or `NoMemory`
/// alone; then some records may be taken back. What is kept stays kept.
pub(crate) fn take_batch_back(document: &mut Document, batch: &Batch) -> Result<Selection, NoMemory>
    requires { MayUndo batch.now document.old }
    ensures back { OnOk result (IsTakenBack batch.now document.old document.new) }
    ensures selection { IfOk result (λ selection. selection ≡ document.old.state.document.selection) }
    ensures kept { document.new.kept ≡ document.old.kept }
{
    let after = document.selection().copy()?;
    let before = batch.selection().copy()?;
    take_back(document, batch.records())?;
    document.put_selection(before);
    let _sound = document.tree();
    Ok(after)
}

/// Makes a batch that was undone anew, and puts this selection in place. It answers the new batch, or `NoMemory` alone; then some
/// operations may be made. What is kept stays kept.
pub(crate) fn make_batch_anew(
    alloc: Global,
    document: &mut Document,
    batch: &Batch,
    selection: &Selection,
) -> Result<Batch, NoMemory>
    requires { MayRedo (record { batch = batch.now; selection = selection.now }) document.old }
    ensures on { IfOk result (λ made. IsMadeAnew (record { batch = batch.now; selection = selection.now }) made document.old document.new) }
    ensures kept { document.new.kept ≡ document.old.kept }
{
    let after = selection.copy()?;
    let made = make_anew(alloc, document, batch.records())?;
    document.put_selection(after);
    let _sound = document.tree();
    Ok(made)
}
