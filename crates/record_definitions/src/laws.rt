//! What holds of the records of every change: each function is a law, which its clauses state.
ghost use Rattle.std.specs.Prelude.{◌≡◌, ℕ, List, [], ◌++◌, reverse, Bool, Ok};
ghost use Rattle.edit_definitions.specs.declared.edit.Edit.{Edit};
ghost use Rattle.model_doc.specs.Held.{Moment};
ghost use Rattle.model_doc.specs.Records.{Done};
ghost use Rattle.undo_stack.specs.Chains.{IsFrom, LedBack};
ghost use Rattle.record_definitions.specs.Traced.{IsFit, IsOneEdit, IsTraced};

use document_definitions::operations_keep_order;

/// Where the records of a batch lead back to a moment, they do so with the records of one edit more, over every sound document whose items have
/// their keys in order; and the document that the edit makes is such a one again. An edit of no records leaves the document as it was, but for
/// its selection.
pub fn edits_lead_back()
    ensures led { (registered : List ℕ → Bool) (number : ℕ) (edit : Edit) (start : Moment) (before records : List Done) (old new : Moment) → IsFit old.state
        → IsOneEdit registered number edit old records new → LedBack start (reverse before) old → LedBack start (reverse (before ++ records)) new }
    ensures fit { (registered : List ℕ → Bool) (number : ℕ) (edit : Edit) (records : List Done) (old new : Moment) → IsFit old.state
        → IsOneEdit registered number edit old records new → IsFit new.state }
    ensures none { (registered : List ℕ → Bool) (number : ℕ) (edit : Edit) (old new : Moment) → IsOneEdit registered number edit old [] new → IsFrom old new }
{
    operations_keep_order();
}

/// Where the records of a batch lead back to a moment, and some edits are performed, those that it has then lead back there too. Where it has none
/// then and had none before, the document is as it was, but for its selection.
pub fn traced_batches_lead_back()
    ensures led { (registered : List ℕ → Bool) (start : Moment) (before records : List Done) (old new : Moment) → IsFit old.state
        → IsTraced registered before old records new → LedBack start (reverse before) old → LedBack start (reverse records) new }
    ensures fit { (registered : List ℕ → Bool) (before records : List Done) (old new : Moment) → IsFit old.state → IsTraced registered before old records new
        → IsFit new.state }
    ensures none { (registered : List ℕ → Bool) (old new : Moment) → IsTraced registered [] old [] new → IsFrom old new }
{
    operations_keep_order();
}
