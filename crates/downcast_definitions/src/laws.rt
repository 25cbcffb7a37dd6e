//! What holds of every document: each function is a law, which its clauses state.
ghost use Rattle.std.specs.Prelude.{◌≡◌, ◌≤◌, ℕ, suc, List, [], ◌∷◌, ◌++◌, length, Bool, true, Some, slice_get};
ghost use Rattle.item_definitions.specs.Item.{Item, Attributes, items_of};
ghost use Rattle.item_definitions.specs.Position.{IsIn};
ghost use Rattle.document_definitions.specs.Document.{Document};
ghost use Rattle.document_definitions.specs.Selection.{same_position};
ghost use Rattle.view_definitions.specs.Node.{content};
ghost use Rattle.view_definitions.specs.Row.{Entry, nest};
ghost use Rattle.converter_definitions.specs.Gives.{Conversion};
ghost use Rattle.downcast_definitions.specs.Scene.{Numbers, Scene, Caret};
ghost use Rattle.downcast_definitions.specs.Rows.{numbered_downcast, downcast};
ghost use Rattle.downcast_definitions.specs.Seen.{mark_at, seen};
ghost use Rattle.downcast_definitions.specs.Meant.{meant};
ghost use Rattle.downcast_definitions.specs.Shown.{HaveShapes, HasShapes, IsShown};
ghost use Rattle.downcast_definitions.specs.Rule.{item_before, IsNoCharacter, StandAsShapes, HasCaret, IsPlainBoundary, HasCharacter, IsSeenBehind};
ghost use Rattle.downcast_definitions.specs.Rule.{IsSeenBefore, IsSeenBetween, IsSeenInLayers, IsSeenAtCaret, parent_at, IsSeenInParent};

/// The place of the view where a position is seen means that position, if the position is in no element without a slot and each element of the
/// document stands as a shape. (After `Mapper` of CKEditor 5, whose `toViewPosition` and `toModelPosition` are inverse.)
pub fn seen_means_itself()
    ensures { (conversion : Conversion) (document : Document) (position : List ℕ)
        → HasShapes conversion document → IsIn document.items position → IsShown conversion document position
        → meant conversion document (seen conversion document position) ≡ Some position }
{}

/// The numbers of a document's view elements are no content of its view, nor are the counts of changes.
pub fn numbers_are_no_content()
    ensures { (numbers : Numbers) (conversion : Conversion) (document : Document)
        → content (numbered_downcast numbers conversion document) ≡ downcast conversion document }
{}

/// Where a position without the caret is seen, in the content of its parent: behind the character before it, in that character's text, one further
/// than the character; where the item before it is none, at the start of the text of the character behind it; where that is none either, behind all
/// nodes that show no item there, in the innermost attribute element that goes on across the position. The entry that finds the place is no node:
/// with it the row nests to the same nodes.
pub fn seen_by_the_rule()
    ensures behind { (scene : Scene) (parent path : List ℕ) (list : List Item) (offset scalar : ℕ) (attributes : Attributes)
        → IsPlainBoundary scene parent path list (suc offset) → HasCharacter list offset scalar attributes
        → IsSeenBehind scene parent path list offset scalar }
    ensures before { (scene : Scene) (parent path : List ℕ) (list : List Item) (offset scalar : ℕ) (attributes : Attributes)
        → IsPlainBoundary scene parent path list offset → IsNoCharacter (item_before list offset)
        → HasCharacter list offset scalar attributes → IsSeenBefore scene parent path list offset scalar }
    ensures between { (scene : Scene) (parent path : List ℕ) (list : List Item) (offset : ℕ)
        → IsPlainBoundary scene parent path list offset → offset ≤ length list
        → IsNoCharacter (item_before list offset) → IsNoCharacter (slice_get list offset) → IsSeenBetween scene parent path list offset }
    ensures mark { (row : List Entry) (start end : ℕ) (caret_here : Bool) → nest (mark_at row start end caret_here).row ≡ nest row }
{}

/// Where the caret stands, its position is seen in the list of nodes that holds the caret: the attribute elements on the way there are those of the
/// caret's layers. It is seen in a text behind a character where a character stands directly before the caret in that list, else at the start of a text
/// where one stands directly behind it there, else in no text.
pub fn caret_seen_in_its_list()
    ensures layers { (scene : Scene) (parent path : List ℕ) (list : List Item) (offset : ℕ) (here : Caret)
        → StandAsShapes scene parent list → offset ≤ length list
        → scene.caret ≡ Some here → same_position here.at (path ++ offset ∷ []) ≡ true
        → IsSeenInLayers scene parent path list offset here.layers }
    ensures text { (scene : Scene) (parent path : List ℕ) (list : List Item) (offset : ℕ)
        → StandAsShapes scene parent list → offset ≤ length list → HasCaret scene path offset
        → IsSeenAtCaret scene parent path list offset }
{}

/// A position of a document is seen in the content of its own parent where its boundary is, and the parent's elements stand as shapes too: so each
/// position of the root and of each element is seen there by the rule.
pub fn seen_in_its_parent()
    ensures { (conversion : Conversion) (document : Document) (position name : List ℕ) (list : List Item)
        → HasShapes conversion document → parent_at document position ≡ Some (name, list)
        → HaveShapes conversion name 0 (items_of list) × IsSeenInParent conversion document position name list }
{}
