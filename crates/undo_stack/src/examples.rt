//! The definitions computed at worked examples.
ghost use Rattle.std.specs.Prelude.{◌≡◌, ◌∷◌, [], Some, None, Ok};
ghost use Rattle.item_definitions.specs.Position.{between};
ghost use Rattle.operation_definitions.specs.Operation.{in_tree, in_cell, fresh, split, move};
ghost use Rattle.document_definitions.specs.Selection.{selected};
ghost use Rattle.document_definitions.specs.Document.{applied};
ghost use Rattle.undo_stack.specs.History.{History, opened};
ghost use Rattle.undo_stack.specs.Events.{push, undone, redone, select, after_events};
ghost use Rattle.undo_stack.specs.Sample.{whole, halves, shortened, overridden, some_batch};

/// The undo of a split gives one paragraph back, with its marker and the next id; redo gives the two again.
pub fn split_undone()
    ensures made { applied (split (0 ∷ 2 ∷ []) (fresh 2)) whole ≡ Ok halves }
    ensures undone { after_events (push (some_batch whole.document) halves.document ∷ undone ∷ []) (opened whole.document)
        ≡ Some (record { earlier = []; now = whole.document; undone = halves.document ∷ [] }) }
    ensures redone { after_events (push (some_batch whole.document) halves.document ∷ undone ∷ redone ∷ []) (opened whole.document)
        ≡ Some (record { earlier = whole.document ∷ []; now = halves.document; undone = [] }) }
{}

/// The undo of a removal gives the characters back, and the marker on them, which had collapsed.
pub fn removal_undone()
    ensures made { applied (move (in_tree (0 ∷ 1 ∷ [])) 2 (in_cell 0)) whole ≡ Ok shortened }
    ensures undone { after_events (push (some_batch whole.document) shortened.document ∷ undone ∷ []) (opened whole.document)
        ≡ Some (record { earlier = []; now = whole.document; undone = shortened.document ∷ [] }) }
{}

/// An undo gives the selection from before the change back with its overrides; redo gives the one that was there when the change was undone.
pub fn overrides_undone()
    ensures undone { after_events (push (some_batch overridden.document) halves.document ∷ undone ∷ []) (opened overridden.document)
        ≡ Some (record { earlier = []; now = overridden.document; undone = halves.document ∷ [] }) }
    ensures redone { after_events (push (some_batch whole.document) whole.document ∷ select overridden.document.selection ∷ undone ∷ redone ∷ [])
        (opened whole.document) ≡ Some (record { earlier = whole.document ∷ []; now = overridden.document; undone = [] }) }
{}

/// A push after an undo leaves nothing to redo, and a change of the selection after an undo leaves it.
pub fn pushed_after_undo()
    ensures pushed { after_events (push (some_batch whole.document) halves.document ∷ undone ∷ push (some_batch whole.document) shortened.document
        ∷ redone ∷ []) (opened whole.document) ≡ None }
    ensures selected { after_events (push (some_batch whole.document) halves.document ∷ undone ∷ select overridden.document.selection ∷ redone ∷ [])
        (opened whole.document) ≡ Some (record { earlier = overridden.document ∷ []; now = halves.document; undone = [] }) }
    ensures nothing { after_events (undone ∷ []) (opened whole.document) ≡ None }
{}
