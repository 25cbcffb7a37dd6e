//! The definitions computed at worked examples. A paragraph here is an element with the name `p`.
ghost use Rattle.std.specs.Prelude.{◌≡◌, ◌∷◌, [], map, Some, None};
ghost use Rattle.item_definitions.specs.Item.{Item, character, element, none, more, items_of, count_of, depth_of};
ghost use Rattle.item_definitions.specs.Children.{children_at, child_count, item_at, walk};
ghost use Rattle.item_definitions.specs.Position.{between};
ghost use Rattle.item_definitions.specs.FlatParts.{flat_parts};
ghost use Rattle.item_definitions.specs.Shift.{to_next, to_previous, insert, remove, move, split, merge, carry, carry_range};
ghost use Rattle.item_definitions.specs.Sample.{paragraph, two_paragraphs};

/// A tree of two paragraphs, with the texts `ab` and `cd`.
pub fn tree()
    ensures count { count_of two_paragraphs ≡ 6 }
    ensures depth { depth_of two_paragraphs ≡ 2 }
    ensures children { child_count two_paragraphs (1 ∷ []) ≡ Some 2 }
    ensures no_element { child_count two_paragraphs (1 ∷ 0 ∷ []) ≡ None }
    ensures item { item_at (1 ∷ 1 ∷ []) two_paragraphs ≡ Some (character 100 []) }
    ensures order { map (λ entry. entry.0) (walk two_paragraphs)
        ≡ (0 ∷ []) ∷ (0 ∷ 0 ∷ []) ∷ (0 ∷ 1 ∷ []) ∷ (1 ∷ []) ∷ (1 ∷ 0 ∷ []) ∷ (1 ∷ 1 ∷ []) ∷ [] }
    ensures no_item { item_at (1 ∷ 2 ∷ []) two_paragraphs ≡ None }
{}

/// The parts of a range that leaves one paragraph and ends in another, of one that enters an element, and of a collapsed one.
pub fn parts()
    ensures across { flat_parts (child_count two_paragraphs) (between (0 ∷ 1 ∷ []) (1 ∷ 1 ∷ []))
        ≡ between (0 ∷ 1 ∷ []) (0 ∷ 2 ∷ []) ∷ between (1 ∷ 0 ∷ []) (1 ∷ 1 ∷ []) ∷ [] }
    ensures whole_between { flat_parts (child_count two_paragraphs) (between (0 ∷ []) (1 ∷ 1 ∷ []))
        ≡ between (0 ∷ []) (1 ∷ []) ∷ between (1 ∷ 0 ∷ []) (1 ∷ 1 ∷ []) ∷ [] }
    ensures into { flat_parts (child_count two_paragraphs) (between (0 ∷ []) (0 ∷ 2 ∷ []))
        ≡ between (0 ∷ 0 ∷ []) (0 ∷ 2 ∷ []) ∷ [] }
    ensures to_the_end { flat_parts (child_count two_paragraphs) (between (0 ∷ 2 ∷ []) (2 ∷ []))
        ≡ between (1 ∷ []) (2 ∷ []) ∷ [] }
    ensures collapsed { flat_parts (child_count two_paragraphs) (between (0 ∷ 1 ∷ []) (0 ∷ 1 ∷ [])) ≡ [] }
{}

/// Content that is put in at an end of a range stays outside of it.
pub fn typed_at_the_ends()
    ensures end { carry_range (insert (0 ∷ 3 ∷ []) 1) (between (0 ∷ 1 ∷ []) (0 ∷ 3 ∷ [])) ≡ between (0 ∷ 1 ∷ []) (0 ∷ 3 ∷ []) }
    ensures start { carry_range (insert (0 ∷ 1 ∷ []) 1) (between (0 ∷ 1 ∷ []) (0 ∷ 3 ∷ [])) ≡ between (0 ∷ 2 ∷ []) (0 ∷ 4 ∷ []) }
    ensures collapsed { carry_range (insert (0 ∷ 1 ∷ []) 1) (between (0 ∷ 1 ∷ []) (0 ∷ 1 ∷ [])) ≡ between (0 ∷ 2 ∷ []) (0 ∷ 2 ∷ []) }
    ensures through { carry to_next (insert (1 ∷ []) 2) (1 ∷ 4 ∷ []) ≡ 3 ∷ 4 ∷ [] }
    ensures elsewhere { carry to_next (insert (1 ∷ 0 ∷ []) 2) (2 ∷ 4 ∷ []) ≡ 2 ∷ 4 ∷ [] }
{}

/// What is taken out leaves positions in it where it stood.
pub fn removed()
    ensures between { carry to_next (remove (0 ∷ 1 ∷ []) 3) (0 ∷ 3 ∷ []) ≡ 0 ∷ 1 ∷ [] }
    ensures behind { carry to_next (remove (0 ∷ 1 ∷ []) 3) (0 ∷ 5 ∷ []) ≡ 0 ∷ 2 ∷ [] }
    ensures inside { carry to_next (remove (1 ∷ []) 2) (2 ∷ 7 ∷ []) ≡ 1 ∷ [] }
    ensures through { carry to_next (remove (1 ∷ []) 2) (3 ∷ 7 ∷ []) ≡ 1 ∷ 7 ∷ [] }
{}

/// A range in a moved run goes with it; an end at the run's edge alone does not.
pub fn moved()
    ensures whole { carry_range (move (0 ∷ []) 2 (4 ∷ [])) (between (0 ∷ 1 ∷ []) (1 ∷ 1 ∷ [])) ≡ between (2 ∷ 1 ∷ []) (3 ∷ 1 ∷ []) }
    ensures edges { carry_range (move (0 ∷ []) 2 (4 ∷ [])) (between (0 ∷ []) (2 ∷ [])) ≡ between (2 ∷ []) (4 ∷ []) }
    ensures collapsed_edge { carry_range (move (0 ∷ []) 2 (4 ∷ [])) (between (2 ∷ []) (2 ∷ [])) ≡ between (0 ∷ []) (0 ∷ []) }
    ensures crossing { carry_range (move (0 ∷ []) 2 (4 ∷ [])) (between (1 ∷ 1 ∷ []) (3 ∷ [])) ≡ between (0 ∷ []) (1 ∷ []) }
{}

/// A split takes what is behind it along, and a merge takes it back.
pub fn split_and_merged()
    ensures range { carry_range (merge (1 ∷ []) (0 ∷ 2 ∷ [])) (between (0 ∷ 1 ∷ []) (1 ∷ 1 ∷ [])) ≡ between (0 ∷ 1 ∷ []) (0 ∷ 3 ∷ []) }
    ensures seam { carry to_next (merge (1 ∷ []) (0 ∷ 2 ∷ [])) (1 ∷ []) ≡ 0 ∷ 2 ∷ [] }
    ensures behind { carry to_next (merge (1 ∷ []) (0 ∷ 2 ∷ [])) (3 ∷ 5 ∷ []) ≡ 2 ∷ 5 ∷ [] }
    ensures back { carry_range (split (0 ∷ 2 ∷ [])) (between (0 ∷ 1 ∷ []) (0 ∷ 3 ∷ [])) ≡ between (0 ∷ 1 ∷ []) (1 ∷ 1 ∷ []) }
    ensures next { carry to_next (split (0 ∷ 2 ∷ [])) (0 ∷ 2 ∷ []) ≡ 1 ∷ 0 ∷ [] }
    ensures previous { carry to_previous (split (0 ∷ 2 ∷ [])) (0 ∷ 2 ∷ []) ≡ 0 ∷ 2 ∷ [] }
    ensures outside { carry to_next (split (0 ∷ 2 ∷ [])) (1 ∷ 5 ∷ []) ≡ 2 ∷ 5 ∷ [] }
{}
