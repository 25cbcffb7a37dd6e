//! The operations computed at worked examples.
ghost use Rattle.std.specs.Prelude.{◌≡◌, ◌∷◌, [], Some, None, Ok, Err, true};
ghost use Rattle.ck_base.specs.declared.value.Value.TheVariants.{Truth};
ghost use Rattle.item_definitions.specs.Item.{character};
ghost use Rattle.item_definitions.specs.Position.{between};
ghost use Rattle.item_definitions.specs.Sample.{paragraph, two_paragraphs};
ghost use Rattle.operation_definitions.specs.Operation.{in_tree, in_cell, fresh, from_cell, insert, move, attribute, rename, split, merge, found_value};
ghost use Rattle.operation_definitions.specs.Operation.{found_name, no_place, not_flat, into_itself, old_differs, not_neighbours, cell_state};
ghost use Rattle.operation_definitions.specs.After.{after};
ghost use Rattle.operation_definitions.specs.Back.{back};
ghost use Rattle.operation_definitions.specs.Sample.{one_paragraph};

/// Items come in, and their reversal puts them away.
pub fn inserted()
    ensures after { after one_paragraph [] (insert (0 ∷ 1 ∷ []) (character 120 [] ∷ character 121 [] ∷ []))
        ≡ Ok (paragraph 1 (97 ∷ 120 ∷ 121 ∷ 98 ∷ []) ∷ [], []) }
    ensures back { back (insert (0 ∷ 1 ∷ []) (character 120 [] ∷ character 121 [] ∷ [])) 0 ≡ move (in_tree (0 ∷ 1 ∷ [])) 2 (in_cell 0) }
    ensures reversed { after (paragraph 1 (97 ∷ 120 ∷ 121 ∷ 98 ∷ []) ∷ []) [] (move (in_tree (0 ∷ 1 ∷ [])) 2 (in_cell 0))
        ≡ Ok (one_paragraph, (character 120 [] ∷ character 121 [] ∷ []) ∷ []) }
{}

/// Each refusal.
pub fn refused()
    ensures into_itself { after one_paragraph [] (move (in_tree (0 ∷ 0 ∷ [])) 2 (in_tree (0 ∷ 1 ∷ []))) ≡ Err into_itself }
    ensures old_value { after one_paragraph [] (attribute (between (0 ∷ 0 ∷ []) (0 ∷ 1 ∷ [])) (98 ∷ []) (Some (Truth true)) None)
        ≡ Err (old_differs (found_value None)) }
    ensures not_flat { after two_paragraphs [] (attribute (between (0 ∷ 0 ∷ []) (1 ∷ 1 ∷ [])) (98 ∷ []) None None) ≡ Err not_flat }
    ensures old_name { after one_paragraph [] (rename (0 ∷ []) (113 ∷ []) (114 ∷ [])) ≡ Err (old_differs (found_name (112 ∷ []))) }
    ensures not_neighbours { after (character 97 [] ∷ paragraph 1 [] ∷ []) [] (merge (1 ∷ []) (0 ∷ 0 ∷ []) 0) ≡ Err not_neighbours }
    ensures no_cell { after one_paragraph [] (move (in_tree (0 ∷ [])) 1 (in_cell 3)) ≡ Err (cell_state 3) }
    ensures no_place { after one_paragraph [] (insert (0 ∷ 3 ∷ []) []) ≡ Err no_place }
    ensures split_of_root { after one_paragraph [] (split (0 ∷ []) (fresh 2)) ≡ Err no_place }
{}

/// An element is merged into the one before it, and comes back with its own id.
pub fn merged()
    ensures after { after two_paragraphs [] (merge (1 ∷ []) (0 ∷ 2 ∷ []) 0)
        ≡ Ok (paragraph 1 (97 ∷ 98 ∷ 99 ∷ 100 ∷ []) ∷ [], (paragraph 2 [] ∷ []) ∷ []) }
    ensures reversed { after (paragraph 1 (97 ∷ 98 ∷ 99 ∷ 100 ∷ []) ∷ []) ((paragraph 2 [] ∷ []) ∷ []) (back (merge (1 ∷ []) (0 ∷ 2 ∷ []) 0) 7)
        ≡ Ok (two_paragraphs, [] ∷ []) }
{}

/// An element is split, and the new one is put away again.
pub fn split_and_back()
    ensures after { after (paragraph 1 (97 ∷ 98 ∷ 99 ∷ 100 ∷ []) ∷ []) [] (split (0 ∷ 2 ∷ []) (fresh 2)) ≡ Ok (two_paragraphs, []) }
    ensures reversed { after two_paragraphs [] (back (split (0 ∷ 2 ∷ []) (fresh 2)) 0)
        ≡ Ok (paragraph 1 (97 ∷ 98 ∷ 99 ∷ 100 ∷ []) ∷ [], (paragraph 2 [] ∷ []) ∷ []) }
{}

/// A run is moved, and moved back.
pub fn moved()
    ensures after { after two_paragraphs [] (move (in_tree (0 ∷ 0 ∷ [])) 1 (in_tree (1 ∷ 2 ∷ [])))
        ≡ Ok (paragraph 1 (98 ∷ []) ∷ paragraph 2 (99 ∷ 100 ∷ 97 ∷ []) ∷ [], []) }
    ensures reversed { after (paragraph 1 (98 ∷ []) ∷ paragraph 2 (99 ∷ 100 ∷ 97 ∷ []) ∷ []) [] (back (move (in_tree (0 ∷ 0 ∷ [])) 1 (in_tree (1 ∷ 2 ∷ []))) 0)
        ≡ Ok (two_paragraphs, []) }
{}
