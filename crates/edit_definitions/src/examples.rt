//! The definitions computed at worked examples. A paragraph here is an element with the name `p`, and bold is the key `b`.
ghost use Rattle.std.specs.Prelude.{◌≡◌, ◌^◌, ◌∷◌, [], Some, None, Ok, Err, true, false};
ghost use Rattle.ck_base.specs.declared.value.Value.TheVariants.{Truth};
ghost use Rattle.ck_base.specs.declared.faults.EditFault.TheVariants.{NotRegistered, BadPosition, BadRange, BadTarget, MarkerExists, MarkerUnknown, IdsSpent};
ghost use Rattle.item_definitions.specs.Item.{character, element, none, items_of};
ghost use Rattle.item_definitions.specs.Position.{between};
ghost use Rattle.document_definitions.specs.Document.{with_selection};
ghost use Rattle.item_definitions.specs.Sample.{paragraph, two_paragraphs};
ghost use Rattle.operation_definitions.specs.Operation.{in_tree, in_cell, fresh, insert, move, attribute, rename, merge, split, marker};
ghost use Rattle.edit_definitions.specs.declared.edit.Edit.TheVariants.{InsertText, InsertElement, Remove, Move, SetAttribute, RemoveAttribute, Rename, Split};
ghost use Rattle.edit_definitions.specs.declared.edit.Edit.TheVariants.{Merge, Wrap, Unwrap, AddMarker, UpdateMarker, RemoveMarker, Select, SelectionAttribute};
ghost use Rattle.edit_definitions.specs.declared.edit.Edit.TheVariants.{InsertItems};
ghost use Rattle.edit_definitions.specs.declared.edit.Target.TheVariants.{Range as InRange, Element as OfElement};
ghost use Rattle.edit_definitions.specs.Runs.{with_ids};
ghost use Rattle.edit_definitions.specs.Planned.{operations_of};
ghost use Rattle.edit_definitions.specs.Performed.{performed};
ghost use Rattle.edit_definitions.specs.Sample.{plain, marked, all_names, part_bold};

/// A text comes in, with the attributes that it is given.
pub fn inserted_text()
    ensures some { performed all_names 1 (InsertText (0 ∷ 1 ∷ []) (120 ∷ []) []) (plain two_paragraphs 3)
        ≡ Ok (plain (paragraph 1 (97 ∷ 120 ∷ 98 ∷ []) ∷ paragraph 2 (99 ∷ 100 ∷ []) ∷ []) 3) }
    ensures empty { operations_of all_names 1 (InsertText (0 ∷ 1 ∷ []) [] []) (plain two_paragraphs 3) ≡ Ok [] }
    ensures nowhere { operations_of all_names 2 (InsertText (0 ∷ 3 ∷ []) [] []) (plain two_paragraphs 3) ≡ Err (BadPosition 2 (0 ∷ 3 ∷ [])) }
{}

/// Each flat part of a range goes into a cell of its own, the last part first.
pub fn removed()
    ensures parts { operations_of all_names 1 (Remove (0 ∷ 1 ∷ []) (1 ∷ 1 ∷ [])) (plain two_paragraphs 3)
        ≡ Ok (move (in_tree (1 ∷ 0 ∷ [])) 1 (in_cell 0) ∷ move (in_tree (0 ∷ 1 ∷ [])) 1 (in_cell 1) ∷ []) }
    ensures backward { operations_of all_names 1 (Remove (0 ∷ 1 ∷ []) (0 ∷ 0 ∷ [])) (plain two_paragraphs 3) ≡ Err (BadRange 1 (0 ∷ 1 ∷ []) (0 ∷ 0 ∷ [])) }
{}

/// A run ends where an item has the new value already.
pub fn attributes()
    ensures runs { operations_of all_names 1 (SetAttribute (InRange (0 ∷ 0 ∷ []) (0 ∷ 4 ∷ [])) (98 ∷ []) (Truth true)) (plain part_bold 2)
        ≡ Ok (attribute (between (0 ∷ 0 ∷ []) (0 ∷ 1 ∷ [])) (98 ∷ []) None (Some (Truth true))
        ∷ attribute (between (0 ∷ 2 ∷ []) (0 ∷ 4 ∷ [])) (98 ∷ []) None (Some (Truth true)) ∷ []) }
    ensures other_value { operations_of all_names 1 (SetAttribute (InRange (0 ∷ 0 ∷ []) (0 ∷ 2 ∷ [])) (98 ∷ []) (Truth false)) (plain part_bold 2)
        ≡ Ok (attribute (between (0 ∷ 0 ∷ []) (0 ∷ 1 ∷ [])) (98 ∷ []) None (Some (Truth false))
        ∷ attribute (between (0 ∷ 1 ∷ []) (0 ∷ 2 ∷ [])) (98 ∷ []) (Some (Truth true)) (Some (Truth false)) ∷ []) }
{}

/// A split draws an id; a merge takes the end of the element before.
pub fn split_and_merged()
    ensures split { operations_of all_names 1 (Split (0 ∷ 1 ∷ [])) (plain two_paragraphs 3) ≡ Ok (split (0 ∷ 1 ∷ []) (fresh 3) ∷ []) }
    ensures root { operations_of all_names 1 (Split (0 ∷ [])) (plain two_paragraphs 3) ≡ Err (BadTarget 1 (0 ∷ [])) }
    ensures spent { operations_of all_names 1 (Split (0 ∷ 1 ∷ [])) (plain two_paragraphs (2 ^ 63)) ≡ Err (IdsSpent 1) }
    ensures merge { operations_of all_names 1 (Merge (1 ∷ [])) (plain two_paragraphs 3) ≡ Ok (merge (1 ∷ []) (0 ∷ 2 ∷ []) 0 ∷ []) }
    ensures text { operations_of all_names 1 (Merge (0 ∷ 1 ∷ [])) (plain two_paragraphs 3) ≡ Err (BadTarget 1 (0 ∷ 1 ∷ [])) }
{}

/// A run goes into a new element, and the items of an element take its place.
pub fn wrapped()
    ensures wrap { performed all_names 1 (Wrap (0 ∷ []) (1 ∷ []) (113 ∷ []) []) (plain (paragraph 1 [] ∷ []) 2)
        ≡ Ok (plain (element 2 (113 ∷ []) [] (items_of (paragraph 1 [] ∷ [])) ∷ []) 3) }
    ensures unwrap { operations_of all_names 1 (Unwrap (0 ∷ [])) (plain two_paragraphs 3)
        ≡ Ok (move (in_tree (0 ∷ 0 ∷ [])) 2 (in_tree (1 ∷ [])) ∷ move (in_tree (0 ∷ [])) 1 (in_cell 0) ∷ []) }
{}

/// The refusals of names, markers and targets.
pub fn refused()
    ensures generic { operations_of all_names 1 (InsertElement (0 ∷ []) (36 ∷ 112 ∷ []) []) (plain [] 1) ≡ Err (NotRegistered 1 (36 ∷ 112 ∷ [])) }
    ensures no_marker { operations_of all_names 1 (RemoveMarker (120 ∷ [])) (plain [] 1) ≡ Err (MarkerUnknown 1 (120 ∷ [])) }
    ensures into_itself { operations_of all_names 1 (Move (0 ∷ []) (1 ∷ []) (0 ∷ 1 ∷ [])) (plain two_paragraphs 3) ≡ Err (BadTarget 1 (0 ∷ 1 ∷ [])) }
    ensures at_its_end { operations_of all_names 1 (Move (0 ∷ []) (1 ∷ []) (1 ∷ [])) (plain two_paragraphs 3) ≡ Ok [] }
{}

/// Ids are drawn in document order.
pub fn numbered()
    ensures { with_ids 5 (element 0 (112 ∷ []) [] (items_of (paragraph 0 [] ∷ [])) ∷ paragraph 0 [] ∷ [])
        ≡ element 5 (112 ∷ []) [] (items_of (paragraph 6 [] ∷ [])) ∷ paragraph 7 [] ∷ [] }
{}

/// An element gets another name, and its own one changes nothing; a character has none.
pub fn renamed()
    ensures other { operations_of all_names 1 (Rename (0 ∷ []) (113 ∷ [])) (plain two_paragraphs 3) ≡ Ok (rename (0 ∷ []) (112 ∷ []) (113 ∷ []) ∷ []) }
    ensures same { operations_of all_names 1 (Rename (0 ∷ []) (112 ∷ [])) (plain two_paragraphs 3) ≡ Ok [] }
    ensures character { operations_of all_names 1 (Rename (0 ∷ 0 ∷ []) (113 ∷ [])) (plain two_paragraphs 3) ≡ Err (BadTarget 1 (0 ∷ 0 ∷ [])) }
{}

/// A key goes from the items that have it. Of an element the key changes, and not that of what is in it.
pub fn attributes_of_elements()
    ensures removed { operations_of all_names 1 (RemoveAttribute (InRange (0 ∷ 0 ∷ []) (0 ∷ 4 ∷ [])) (98 ∷ [])) (plain part_bold 2)
        ≡ Ok (attribute (between (0 ∷ 1 ∷ []) (0 ∷ 2 ∷ [])) (98 ∷ []) (Some (Truth true)) None ∷ []) }
    ensures element { operations_of all_names 1 (SetAttribute (OfElement (0 ∷ [])) (98 ∷ []) (Truth true)) (plain part_bold 2)
        ≡ Ok (attribute (between (0 ∷ []) (1 ∷ [])) (98 ∷ []) None (Some (Truth true)) ∷ []) }
    ensures none { operations_of all_names 1 (RemoveAttribute (OfElement (0 ∷ [])) (98 ∷ [])) (plain part_bold 2) ≡ Ok [] }
{}

/// Markers come, get another range, and go; the range that a marker has changes nothing.
pub fn markers()
    ensures add { operations_of all_names 1 (AddMarker (109 ∷ []) (0 ∷ 0 ∷ []) (0 ∷ 2 ∷ [])) (plain two_paragraphs 3)
        ≡ Ok (marker (109 ∷ []) None (Some (between (0 ∷ 0 ∷ []) (0 ∷ 2 ∷ []))) ∷ []) }
    ensures again { operations_of all_names 1 (AddMarker (109 ∷ []) (0 ∷ 0 ∷ []) (0 ∷ 2 ∷ [])) marked ≡ Err (MarkerExists 1 (109 ∷ [])) }
    ensures update { operations_of all_names 1 (UpdateMarker (109 ∷ []) (0 ∷ []) (1 ∷ [])) marked
        ≡ Ok (marker (109 ∷ []) (Some (between (0 ∷ 0 ∷ []) (0 ∷ 2 ∷ []))) (Some (between (0 ∷ []) (1 ∷ []))) ∷ []) }
    ensures same { operations_of all_names 1 (UpdateMarker (109 ∷ []) (0 ∷ 0 ∷ []) (0 ∷ 2 ∷ [])) marked ≡ Ok [] }
    ensures remove { operations_of all_names 1 (RemoveMarker (109 ∷ [])) marked ≡ Ok (marker (109 ∷ []) (Some (between (0 ∷ 0 ∷ []) (0 ∷ 2 ∷ []))) None ∷ []) }
{}

/// A collapsed selection is forward, and a key is overridden.
pub fn selections()
    ensures collapsed { performed all_names 1 (Select (0 ∷ 1 ∷ []) (0 ∷ 1 ∷ []) true) (plain two_paragraphs 3)
        ≡ Ok (with_selection (record { range = between (0 ∷ 1 ∷ []) (0 ∷ 1 ∷ []); backward = false; overrides = [] }) (plain two_paragraphs 3)) }
    ensures overridden { performed all_names 1 (SelectionAttribute (98 ∷ []) None) (plain two_paragraphs 3)
        ≡ Ok (with_selection (record { range = between (0 ∷ []) (0 ∷ []); backward = false; overrides = (98 ∷ [], None) ∷ [] }) (plain two_paragraphs 3)) }
{}

/// Items come in with new ids.
pub fn inserted_items()
    ensures { performed all_names 1 (InsertItems (1 ∷ []) (paragraph 0 [] ∷ [])) (plain (paragraph 1 [] ∷ []) 2)
        ≡ Ok (plain (paragraph 1 [] ∷ paragraph 2 [] ∷ []) 3) }
{}

/// Of two faults at once the first in their order is told.
pub fn first_faults()
    ensures name_before_position { operations_of all_names 1 (InsertElement (9 ∷ []) (36 ∷ []) []) (plain [] 1) ≡ Err (NotRegistered 1 (36 ∷ [])) }
    ensures position_before_ids { operations_of all_names 1 (InsertElement (9 ∷ []) (112 ∷ []) []) (plain [] (2 ^ 63)) ≡ Err (BadPosition 1 (9 ∷ [])) }
    ensures name_before_range { operations_of all_names 1 (Wrap (9 ∷ []) (9 ∷ []) (36 ∷ []) []) (plain [] 1) ≡ Err (NotRegistered 1 (36 ∷ [])) }
    ensures range_before_ids { operations_of all_names 1 (Wrap (9 ∷ []) (9 ∷ []) (112 ∷ []) []) (plain [] (2 ^ 63)) ≡ Err (BadRange 1 (9 ∷ []) (9 ∷ [])) }
    ensures position_before_range { operations_of all_names 1 (Move (9 ∷ []) (9 ∷ []) (8 ∷ [])) (plain [] 1) ≡ Err (BadPosition 1 (8 ∷ [])) }
    ensures range_before_target { operations_of all_names 1 (Move (0 ∷ []) (0 ∷ 2 ∷ []) (0 ∷ 1 ∷ [])) (plain two_paragraphs 3)
        ≡ Err (BadRange 1 (0 ∷ []) (0 ∷ 2 ∷ [])) }
    ensures position_before_target { operations_of all_names 1 (Split (9 ∷ [])) (plain [] 1) ≡ Err (BadPosition 1 (9 ∷ [])) }
    ensures target_before_ids { operations_of all_names 1 (Split (0 ∷ [])) (plain [] (2 ^ 63)) ≡ Err (BadTarget 1 (0 ∷ [])) }
    ensures name_before_target { operations_of all_names 1 (Rename (9 ∷ []) (36 ∷ [])) (plain [] 1) ≡ Err (NotRegistered 1 (36 ∷ [])) }
    ensures range_before_marker { operations_of all_names 1 (AddMarker (109 ∷ []) (9 ∷ []) (9 ∷ [])) marked ≡ Err (BadRange 1 (9 ∷ []) (9 ∷ [])) }
    ensures range_before_unknown { operations_of all_names 1 (UpdateMarker (120 ∷ []) (9 ∷ []) (9 ∷ [])) marked ≡ Err (BadRange 1 (9 ∷ []) (9 ∷ [])) }
    ensures item_before_position { operations_of all_names 1 (InsertItems (9 ∷ []) (element 0 (36 ∷ []) [] none ∷ [])) (plain [] 1)
        ≡ Err (NotRegistered 1 (36 ∷ [])) }
{}
