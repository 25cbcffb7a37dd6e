//! The definitions computed at worked examples.
ghost use Rattle.std.specs.Prelude.{◌≡◌, ◌∷◌, [], Some, None, Ok, true, false, option_map};
ghost use Rattle.ck_base.specs.declared.value.Value.TheVariants.{Truth};
ghost use Rattle.item_definitions.specs.Item.{character, element, none};
ghost use Rattle.item_definitions.specs.Children.{item_at};
ghost use Rattle.item_definitions.specs.Position.{between};
ghost use Rattle.item_definitions.specs.Shift as shifts;
ghost use Rattle.item_definitions.specs.Sample.{paragraph, two_paragraphs};
ghost use Rattle.operation_definitions.specs.Operation.{in_tree, in_cell, fresh, insert, move, rename, split, merge, marker};
ghost use Rattle.document_definitions.specs.Markers.{covering};
ghost use Rattle.document_definitions.specs.Selection as selections;
ghost use Rattle.document_definitions.specs.Selection.{selected, with_override, natural, attributes};
ghost use Rattle.document_definitions.specs.Document.{applied, raised, ids_of, shift_of};
ghost use Rattle.document_definitions.specs.Staying.{item_carried, takes_out, left_by};
ghost use Rattle.document_definitions.specs.Sample.{comment, commented};

/// A paragraph is merged into the one before it; the marker that ended in it ends where its text now stands.
pub fn merged()
    ensures { applied (merge (1 ∷ []) (0 ∷ 2 ∷ []) 0) (commented two_paragraphs (between (0 ∷ 1 ∷ []) (1 ∷ 1 ∷ [])) 3 [])
        ≡ Ok (commented (paragraph 1 (97 ∷ 98 ∷ 99 ∷ 100 ∷ []) ∷ []) (between (0 ∷ 1 ∷ []) (0 ∷ 3 ∷ [])) 3 ((paragraph 2 [] ∷ []) ∷ [])) }
{}

/// Where items stand after a move, a split and a merge, and which of them these take out.
pub fn items_carried()
    ensures in_a_run { item_carried (shift_of (move (in_tree (0 ∷ [])) 1 (in_tree (2 ∷ [])))) (0 ∷ 1 ∷ []) ≡ 1 ∷ 1 ∷ [] }
    ensures behind_a_run { item_carried (shift_of (move (in_tree (0 ∷ [])) 1 (in_tree (2 ∷ [])))) (1 ∷ []) ≡ 0 ∷ [] }
    ensures split { item_carried (shift_of (split (0 ∷ 1 ∷ []) (fresh 3))) (0 ∷ 1 ∷ []) ≡ 1 ∷ 0 ∷ [] }
    ensures before_a_split { item_carried (shift_of (split (0 ∷ 1 ∷ []) (fresh 3))) (0 ∷ []) ≡ 0 ∷ [] }
    ensures merged { item_carried (shift_of (merge (1 ∷ []) (0 ∷ 2 ∷ []) 0)) (1 ∷ 1 ∷ []) ≡ 0 ∷ 3 ∷ [] }
    ensures stands { option_map (left_by (merge (1 ∷ []) (0 ∷ 2 ∷ []) 0)) (item_at (0 ∷ 3 ∷ []) (paragraph 1 (97 ∷ 98 ∷ 99 ∷ 100 ∷ []) ∷ []))
        ≡ option_map (left_by (merge (1 ∷ []) (0 ∷ 2 ∷ []) 0)) (item_at (1 ∷ 1 ∷ []) two_paragraphs) }
    ensures stays { takes_out (merge (1 ∷ []) (0 ∷ 2 ∷ []) 0) (1 ∷ 1 ∷ []) ≡ false }
    ensures goes { takes_out (merge (1 ∷ []) (0 ∷ 2 ∷ []) 0) (1 ∷ []) ≡ true }
    ensures in_a_cell { takes_out (move (in_tree (0 ∷ [])) 1 (in_cell 0)) (0 ∷ 1 ∷ []) ≡ true }
    ensures behind_what_goes { takes_out (move (in_tree (0 ∷ [])) 1 (in_cell 0)) (1 ∷ []) ≡ false }
    ensures element { left_by (rename (0 ∷ []) (112 ∷ []) (113 ∷ [])) (paragraph 1 (97 ∷ [])) ≡ element 1 [] [] none }
{}

/// A split with a new element raises the next id above it.
pub fn next_id()
    ensures split { raised 3 (5 ∷ []) ≡ 6 }
    ensures older { raised 9 (5 ∷ []) ≡ 9 }
    ensures ids { ids_of two_paragraphs ≡ 1 ∷ 2 ∷ [] }
{}

/// Which markers cover a character: not one that ends before it, nor one that starts behind it.
pub fn covered()
    ensures inside { covering (0 ∷ 1 ∷ []) ((comment, between (0 ∷ 1 ∷ []) (0 ∷ 2 ∷ [])) ∷ []) ≡ comment ∷ [] }
    ensures before { covering (0 ∷ 0 ∷ []) ((comment, between (0 ∷ 1 ∷ []) (0 ∷ 2 ∷ [])) ∷ []) ≡ [] }
    ensures element { covering (0 ∷ []) ((comment, between (0 ∷ 1 ∷ []) (0 ∷ 2 ∷ [])) ∷ []) ≡ [] }
{}

/// The overrides of a selection go where its range changes, and stay where it stays.
pub fn overrides()
    ensures moved { selections.carried (shifts.insert (0 ∷ 0 ∷ []) 1)
        (with_override (98 ∷ []) (Some (Truth true)) (selected (between (0 ∷ 1 ∷ []) (0 ∷ 1 ∷ [])) false))
        ≡ selected (between (0 ∷ 2 ∷ []) (0 ∷ 2 ∷ [])) false }
    ensures stays { selections.carried (shifts.insert (0 ∷ 2 ∷ []) 1)
        (with_override (98 ∷ []) (Some (Truth true)) (selected (between (0 ∷ 1 ∷ []) (0 ∷ 1 ∷ [])) false))
        ≡ with_override (98 ∷ []) (Some (Truth true)) (selected (between (0 ∷ 1 ∷ []) (0 ∷ 1 ∷ [])) false) }
    ensures collapses { selections.carried (shifts.remove (0 ∷ 0 ∷ []) 2) (selected (between (0 ∷ 0 ∷ []) (0 ∷ 2 ∷ [])) true)
        ≡ selected (between (0 ∷ 0 ∷ []) (0 ∷ 0 ∷ [])) false }
{}

/// The text around a selection gives its attributes, and its overrides change them.
pub fn attributes_of_a_selection()
    ensures before { natural (character 97 ((98 ∷ [], Truth true) ∷ []) ∷ character 98 [] ∷ []) (selected (between (1 ∷ []) (1 ∷ [])) false)
        ≡ (98 ∷ [], Truth true) ∷ [] }
    ensures behind { natural (character 97 ((98 ∷ [], Truth true) ∷ []) ∷ []) (selected (between (0 ∷ []) (0 ∷ [])) false) ≡ (98 ∷ [], Truth true) ∷ [] }
    ensures element_before { natural (paragraph 1 [] ∷ character 97 ((98 ∷ [], Truth true) ∷ []) ∷ []) (selected (between (1 ∷ []) (1 ∷ [])) false)
        ≡ (98 ∷ [], Truth true) ∷ [] }
    ensures first { natural two_paragraphs (selected (between (0 ∷ 2 ∷ []) (1 ∷ 2 ∷ [])) false) ≡ [] }
    ensures nothing { natural (paragraph 1 [] ∷ []) (selected (between (0 ∷ 0 ∷ []) (0 ∷ 0 ∷ [])) false) ≡ [] }
    ensures overridden { attributes (character 97 ((98 ∷ [], Truth true) ∷ []) ∷ [])
        (with_override (98 ∷ []) None (selected (between (1 ∷ []) (1 ∷ [])) false)) ≡ [] }
{}
