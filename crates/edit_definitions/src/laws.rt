//! What holds of every document and edit.
ghost use Rattle.std.specs.Prelude.{◌≡◌, ◌≢◌, ℕ, ◌+◌, List, map, length, slice_get, Bool, true, not, ◌&&◌, if◌then◌else◌, Option, Some, None, Ok, Err};
ghost use Rattle.document_definitions.specs.Document.{State, ids_of, all_applied};
ghost use Rattle.std.specs.List.{range_with_len};
ghost use Rattle.ck_base.specs.declared.faults.EditFault.TheVariants.{NoMemory};
ghost use Rattle.ck_base.specs.declared.value.Value.{Value as AttributeValue};
ghost use Rattle.ck_base.specs.Entries.{value_of};
ghost use Rattle.operation_definitions.specs.After.{same_value};
ghost use Rattle.item_definitions.specs.Item.{Item, attributes_of};
ghost use Rattle.item_definitions.specs.Children.{parent_of, item_at};
ghost use Rattle.item_definitions.specs.Position.{between, holds};
ghost use Rattle.edit_definitions.specs.Runs.{runs_of, value_told, AreLongest, with_ids, item_without_ids};
ghost use Rattle.document_definitions.specs.Sound.{IsSound, IsKeyed};
ghost use Rattle.operation_definitions.specs.Operation.{Operation};
ghost use Rattle.edit_definitions.specs.declared.edit.Edit.{Edit};
ghost use Rattle.edit_definitions.specs.Planned.{operations_of};
ghost use Rattle.edit_definitions.specs.Applied.{AreApplied};
ghost use Rattle.edit_definitions.specs.declared.edit.Target.{Target};
ghost use Rattle.edit_definitions.specs.declared.edit.Target.TheVariants.{Range as InRange};
ghost use Rattle.edit_definitions.specs.Places.{is_range};
ghost use Rattle.edit_definitions.specs.Given.{attribute_edit, is_reached, EachIsGiven, without_attributes};
ghost use Rattle.edit_definitions.specs.Performed.{performed, all_performed, apart, document_made, edits_made};

/// What edits make of a document, and which fault they give, doesn't hang on what is in the cells beside it.
pub fn edits_read_no_cells()
    ensures any_numbers { (registered : List ℕ → Bool) (number : ℕ) (edits : List Edit) (state : State)
        → document_made (all_performed registered number edits state) ≡ document_made (all_performed registered number edits (apart state.document)) }
    ensures changes { (registered : List ℕ → Bool) (edits : List Edit) (state : State)
        → document_made (all_performed registered 1 edits state) ≡ edits_made registered edits state.document }
{}

/// What an edit plans on a sound document can be made: each of its operations in order, or the first that can't would make a tree that is
/// over a limit. So an edit of a sound document is made, or has a fault of its own: never `NoMemory`, which stands for a refusal that no
/// edit meets.
pub fn planned_operations_apply()
    ensures apply { (registered : List ℕ → Bool) (number : ℕ) (edit : Edit) (state : State) (operations : List Operation)
        → IsSound state → operations_of registered number edit state ≡ Ok operations → AreApplied (all_applied operations state) }
    ensures told { (registered : List ℕ → Bool) (number : ℕ) (edit : Edit) (state : State) → IsSound state
        → performed registered number edit state ≢ Err NoMemory }
{}

/// Items with new ids have the next ids in document order, and are what they were in all else.
pub fn new_ids_are_drawn_in_order()
    ensures drawn { (next : ℕ) (items : List Item) → ids_of (with_ids next items) ≡ range_with_len next (length (ids_of items)) }
    ensures as_before { (next : ℕ) (items : List Item) → map item_without_ids (with_ids next items) ≡ map item_without_ids items }
{}

/// The runs on which an attribute changes are in order and apart, and each is as long as it can be. An item that hasn't the new value is in a
/// run, which tells its value; one that has it is in none.
pub fn runs_are_the_longest()
    ensures longest { (key : List ℕ) (new : Option AttributeValue) (offset : ℕ) (items : List Item) → AreLongest (runs_of key new offset items) }
    ensures exact { (key : List ℕ) (new : Option AttributeValue) (offset : ℕ) (items : List Item) (index : ℕ) (item : Item) → slice_get items index ≡ Some item
        → value_told (offset + index) (runs_of key new offset items)
        ≡ (if same_value (value_of key (attributes_of item)) new then None else Some (value_of key (attributes_of item))) }
{}

/// An edit of an attribute over a range reaches the items of the range that are in no other item of it.
pub fn attribute_edits_reach_the_outermost()
    ensures { (items : List Item) (start end path : List ℕ) (item : Item) → is_range items start end ≡ true → item_at path items ≡ Some item
        → is_reached items (InRange start end) path ≡ (holds (between start end) path && not (holds (between start end) (parent_of path))) }
{}

/// After an edit of an attribute each item that it reaches has the new value of the key, or lacks the key where that is taken away, and has
/// the values of its other keys from before; an item that it doesn't reach has the attributes from before. All else is as it was: each
/// character, id, name and place of an item, the markers, the selection with its overrides, the next id and the cells.
pub fn attribute_edits_give_the_value()
    ensures value { (registered : List ℕ → Bool) (number : ℕ) (target : Target) (key : List ℕ) (new : Option AttributeValue) (state made : State)
        → IsKeyed state → performed registered number (attribute_edit target key new) state ≡ Ok made → EachIsGiven target key new state made }
    ensures rest { (registered : List ℕ → Bool) (number : ℕ) (target : Target) (key : List ℕ) (new : Option AttributeValue) (state made : State)
        → IsSound state → performed registered number (attribute_edit target key new) state ≡ Ok made → without_attributes made ≡ without_attributes state }
{}
