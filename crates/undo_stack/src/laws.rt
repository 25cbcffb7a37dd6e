//! Laws of the stacks. It has no program code: the clauses of each function state a law.
ghost use Rattle.std.specs.Prelude.{◌≡◌, ◌+◌, List, [], ◌∷◌, ◌++◌, reverse, Some, None};
ghost use Rattle.document_definitions.specs.Document.{Document, with_selection};
ghost use Rattle.document_definitions.specs.Selection.{Selection};
ghost use Rattle.document_definitions.specs.Sound.{IsSound};
ghost use Rattle.document_definitions.specs.Sound.{IsWelcome};
ghost use Rattle.model_doc.specs.Held.{Held, Moment, present, in_state};
ghost use Rattle.model_doc.specs.Records.{Done, Leads};
ghost use Rattle.undo_stack.specs.Chains.{LedBack};
ghost use Rattle.undo_stack.specs.History.{History, opened, pushed, replaced, back_to, undo, redo};
ghost use Rattle.undo_stack.specs.Stacked.{Lists, no_lists};
ghost use Rattle.undo_stack.specs.Kept.{Holds};
ghost use Rattle.undo_stack.specs.Turns.{Reaches};
ghost use Rattle.undo_stack.specs.Events.{Event, AllHappen, after_events};

/// Over every list of pushes, undos, redos, changes of the selection, and records that were made and all taken back again, the stacks with
/// the document are the machine's document with its earlier and undone ones, whatever cells are left; and they begin so.
#[tactic(auto, using(crate::proofs::Happening::all_happened, crate::proofs::Happening::holds_opened))]
pub fn stacks_are_the_history()
    ensures opened { (held : Held) → IsSound held.state → Holds (opened held.state.document) no_lists held }
    ensures events { (events : List Event) (history : History) (old_lists : Lists) (old : Held) (new_lists : Lists) (new : Held)
        → Holds history old_lists old → AllHappen events old_lists old new_lists new → Reaches (after_events events history) new_lists new }
{}

/// Undo and then redo give the whole document back with both lists, and so do redo and then undo, where the first finds something to take.
pub fn redo_takes_an_undo_back()
    ensures undo { (history then : History) → undo history ≡ Some then → redo then ≡ Some history }
    ensures redo { (history then : History) → redo history ≡ Some then → undo then ≡ Some history }
{}

/// After a push none is undone, and an undo gives the whole document from before it back. A document that is replaced leaves both lists.
pub fn a_push_empties_the_undone()
    ensures none { (history : History) (document : Document) → redo (pushed document history) ≡ None }
    ensures back { (history : History) (document : Document)
        → undo (pushed document history) ≡ Some (back_to history.now history.earlier (pushed document history)) }
    ensures earlier { (history : History) (document : Document) → (replaced document history).earlier ≡ history.earlier }
    ensures undone { (history : History) (document : Document) → (replaced document history).undone ≡ history.undone }
{}

/// How the records of a batch lead back, which a push asks for: the document's own moment with no record; one record more, where the
/// operation was welcome and the record leads; and any change of the selection between.
#[tactic(auto, using(crate::proofs::Moments::from_self, crate::proofs::Moments::led_more))]
pub fn records_lead_back()
    ensures begun { (held : Held) → LedBack (present held) [] (present held) }
    ensures more { (start : Moment) (records : List Done) (done : Done) (old new : Held)
        → LedBack start (reverse records) (present old) → IsWelcome done.operation old.state → Leads old.state done new → new.mark ≡ old.mark + 1
        → LedBack start (reverse (records ++ done ∷ [])) (present new) }
    ensures selected { (start : Moment) (records : List Done) (selection : Selection) (old new : Held)
        → LedBack start (reverse records) (present old) → new ≡ in_state (with_selection selection old.state) old
        → LedBack start (reverse records) (present new) }
{}
