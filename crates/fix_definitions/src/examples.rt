//! Worked examples, computed: each clause is a row.
#![tactic(auto, unfolding(schema_definitions::specs::Allowed::check_child, schema_definitions::specs::Allowed::child_answer, schema_definitions::specs::Allowed::check_attribute, schema_definitions::specs::Allowed::attribute_answer, schema_definitions::specs::Rules::children_of, schema_definitions::specs::Rules::keys_of, schema_definitions::specs::Rules::items_with, schema_definitions::specs::Reachable::reachable, schema_definitions::specs::Compiled::predefined))]

ghost use Rattle.std.specs.Prelude.{◌≡◌, pos, true, false, [], ◌∷◌, Some, None, Ok, Err, codes};
ghost use Rattle.ck_base.specs.declared.value.Value.TheVariants.{Whole, Truth};
ghost use Rattle.ck_base.specs.declared.faults.EditFault.TheVariants.{NotRegistered, TooDeep};
ghost use Rattle.item_definitions.specs.Item.{character, element, none, more};
ghost use Rattle.item_definitions.specs.Position.{between};
ghost use Rattle.document_definitions.specs.Selection.{selected};
ghost use Rattle.schema_definitions.specs.Allowed.{is_registered};
ghost use Rattle.schema_definitions.specs.Sample.{sample};
ghost use Rattle.edit_definitions.specs.declared.edit.Edit.TheVariants.{InsertElement, Remove, RemoveAttribute, Merge, Select, SetAttribute};
ghost use Rattle.edit_definitions.specs.declared.edit.Target.TheVariants.{Range as InRange, Element as OfElement};
ghost use Rattle.edit_definitions.specs.Sample.{plain};
ghost use Rattle.fix_definitions.specs.declared.stock.StockFixer.TheVariants.{DropAttributes, Fill, JoinNeighbours, RemoveEmpty, Require, SelectionPlace};
ghost use Rattle.fix_definitions.specs.declared.fault.SettleFault.TheVariants.{NotSettled, FixerRefused};
ghost use Rattle.fix_definitions.specs.Indents.{list_indent};
ghost use Rattle.fix_definitions.specs.Settling.{settle};
ghost use Rattle.fix_definitions.specs.Sample.{with_name, empty, bold, level, bold_level, one_letter, indented, list_in_list, two_lists, one_list, at_start};
ghost use Rattle.fix_definitions.specs.Sample.{planned, items_settled, settled_by};

/// Attributes that the schema denies go from elements, and from the longest runs of characters with equal attributes.
pub fn dropped()
    ensures paragraph { settled_by (DropAttributes ∷ []) 1 (element 1 (codes "paragraph") bold none ∷ []) 2 ≡ Ok (empty 1 (codes "paragraph") ∷ []) }
    ensures text { settled_by (DropAttributes ∷ []) 0 (with_name 1 (codes "paragraph") (more (character 97 bold) none) ∷ []) 2
        ≡ Ok (with_name 1 (codes "paragraph") (more (character 97 bold) none) ∷ []) }
    ensures runs { planned DropAttributes (with_name 1 (codes "paragraph")
        (more (character 97 level) (more (character 98 level) (more (character 99 bold_level)
        (more (empty 2 (codes "mention")) (more (character 100 level) none))))) ∷ []) at_start
        ≡ RemoveAttribute (InRange (0 ∷ 0 ∷ []) (0 ∷ 2 ∷ [])) (codes "level") ∷ RemoveAttribute (InRange (0 ∷ 2 ∷ []) (0 ∷ 3 ∷ [])) (codes "level")
        ∷ RemoveAttribute (InRange (0 ∷ 4 ∷ []) (0 ∷ 5 ∷ [])) (codes "level") ∷ [] }
    ensures keys { planned DropAttributes (element 1 (codes "quote") bold_level none ∷ []) at_start
        ≡ RemoveAttribute (OfElement (0 ∷ [])) (codes "bold") ∷ RemoveAttribute (OfElement (0 ∷ [])) (codes "level") ∷ [] }
{}

/// Elements without children get one, the root among them, in document order.
pub fn filled()
    ensures root { settled_by (Fill (codes "$root") (codes "paragraph") ∷ []) 1 [] 1 ≡ Ok (empty 1 (codes "paragraph") ∷ []) }
    ensures in_order { planned (Fill (codes "quote") (codes "paragraph"))
        (with_name 1 (codes "quote") (more (empty 2 (codes "quote")) none) ∷ empty 3 (codes "quote") ∷ []) at_start
        ≡ InsertElement (0 ∷ 0 ∷ 0 ∷ []) (codes "paragraph") [] ∷ InsertElement (1 ∷ 0 ∷ []) (codes "paragraph") [] ∷ [] }
    ensures no_round { settled_by (Fill (codes "$root") (codes "paragraph") ∷ []) 0 [] 1 ≡ Err (NotSettled 0 1) }
{}

/// Elements go into their left neighbours, the last first: three levels of list items take three rounds.
pub fn joined()
    ensures last_first { planned (JoinNeighbours (codes "quote")) (empty 1 (codes "quote") ∷ empty 2 (codes "quote") ∷ empty 3 (codes "quote") ∷ []) at_start
        ≡ Merge (2 ∷ []) ∷ Merge (1 ∷ []) ∷ [] }
    ensures other_name { planned (JoinNeighbours (codes "quote")) (empty 1 (codes "paragraph") ∷ empty 2 (codes "quote") ∷ []) at_start ≡ [] }
    ensures other_attributes { planned (JoinNeighbours (codes "quote")) (empty 1 (codes "quote") ∷ element 2 (codes "quote") bold none ∷ []) at_start ≡ [] }
    ensures three_rounds { settled_by (JoinNeighbours (codes "listItem") ∷ []) 3 two_lists 9 ≡ Ok one_list }
    ensures two_rounds { settled_by (JoinNeighbours (codes "listItem") ∷ []) 2 two_lists 9 ≡ Err (NotSettled 2 1) }
{}

/// Elements without children go, the last first; one that becomes empty goes in the next round. The root stays.
pub fn removed()
    ensures last_first { planned (RemoveEmpty (codes "quote")) (empty 1 (codes "quote") ∷ empty 2 (codes "quote") ∷ []) at_start
        ≡ Remove (1 ∷ []) (2 ∷ []) ∷ Remove (0 ∷ []) (1 ∷ []) ∷ [] }
    ensures outer { settled_by (RemoveEmpty (codes "quote") ∷ []) 2 (with_name 1 (codes "quote") (more (empty 2 (codes "quote")) none) ∷ []) 3 ≡ Ok [] }
    ensures one_round { settled_by (RemoveEmpty (codes "quote") ∷ []) 1 (with_name 1 (codes "quote") (more (empty 2 (codes "quote")) none) ∷ []) 3
        ≡ Err (NotSettled 1 1) }
    ensures root { planned (RemoveEmpty (codes "$root")) [] at_start ≡ [] }
{}

/// An element gets what it has to have at its end.
pub fn required()
    ensures behind { settled_by (Require (codes "listItem") (codes "paragraph") ∷ []) 1
        (with_name 1 (codes "listItem") (more (empty 2 (codes "image")) none) ∷ []) 3
        ≡ Ok (with_name 1 (codes "listItem") (more (empty 2 (codes "image")) (more (empty 3 (codes "paragraph")) none)) ∷ []) }
    ensures there { planned (Require (codes "listItem") (codes "paragraph"))
        (with_name 1 (codes "listItem") (more (empty 2 (codes "paragraph")) none) ∷ []) at_start ≡ [] }
    ensures deeper { planned (Require (codes "$root") (codes "paragraph")) (with_name 1 (codes "quote") (more (empty 2 (codes "paragraph")) none) ∷ []) at_start
        ≡ InsertElement (1 ∷ []) (codes "paragraph") [] ∷ [] }
{}

/// The selection goes to the next place where text may stand, or else to the last one before it. It stays round one object, and where text may stand
/// nowhere.
pub fn selections()
    ensures next { planned SelectionPlace (empty 1 (codes "image") ∷ one_letter 2 ∷ []) (between (0 ∷ []) (0 ∷ []))
        ≡ Select (1 ∷ 0 ∷ []) (1 ∷ 0 ∷ []) false ∷ [] }
    ensures before { planned SelectionPlace (one_letter 1 ∷ empty 2 (codes "image") ∷ []) (between (1 ∷ []) (1 ∷ []))
        ≡ Select (0 ∷ 1 ∷ []) (0 ∷ 1 ∷ []) false ∷ [] }
    ensures text { planned SelectionPlace (one_letter 1 ∷ one_letter 2 ∷ []) (between (0 ∷ 1 ∷ []) (1 ∷ 0 ∷ [])) ≡ [] }
    ensures half { planned SelectionPlace (one_letter 1 ∷ one_letter 2 ∷ []) (between (0 ∷ 1 ∷ []) (1 ∷ [])) ≡ Select (0 ∷ 1 ∷ []) (0 ∷ 1 ∷ []) false ∷ [] }
    ensures object { planned SelectionPlace (one_letter 1 ∷ empty 2 (codes "image") ∷ []) (between (1 ∷ []) (2 ∷ [])) ≡ [] }
    ensures no_object { planned SelectionPlace (one_letter 1 ∷ []) (between (0 ∷ []) (1 ∷ [])) ≡ Select (0 ∷ 0 ∷ []) (0 ∷ 0 ∷ []) false ∷ [] }
    ensures nowhere { planned SelectionPlace (empty 1 (codes "image") ∷ []) (between (0 ∷ []) (0 ∷ [])) ≡ [] }
{}

/// Two fixers that undo each other never come to rest: an empty quote gets a paragraph, and the empty paragraph goes.
pub fn undo_each_other()
    ensures { settled_by (Fill (codes "quote") (codes "paragraph") ∷ RemoveEmpty (codes "paragraph") ∷ []) 64 (empty 1 (codes "quote") ∷ []) 2
        ≡ Err (NotSettled 64 1) }
{}

/// Each round begins with the first fixer again: once the second has put a quote into the root, the first fills it.
pub fn first_fixer_again()
    ensures two_rounds { settled_by (Fill (codes "quote") (codes "paragraph") ∷ Fill (codes "$root") (codes "quote") ∷ []) 2 [] 1
        ≡ Ok (with_name 1 (codes "quote") (more (empty 2 (codes "paragraph")) none) ∷ []) }
    ensures one_round { settled_by (Fill (codes "quote") (codes "paragraph") ∷ Fill (codes "$root") (codes "quote") ∷ []) 1 [] 1 ≡ Err (NotSettled 1 1) }
    ensures second_fixer { settled_by (Fill (codes "quote") (codes "paragraph") ∷ Fill (codes "$root") (codes "quote") ∷ []) 0 [] 1 ≡ Err (NotSettled 0 2) }
{}

/// An edit of a plan that can't be made.
pub fn refused()
    ensures name { settled_by (Fill (codes "quote") (codes "paragraph") ∷ Fill (codes "$root") (codes "table") ∷ []) 9 [] 1
        ≡ Err (FixerRefused 2 (NotRegistered 1 (codes "table"))) }
    ensures depth { settled_by (Fill (codes "listItem") (codes "paragraph") ∷ []) 64 (list_in_list 63 1 none ∷ []) 65 ≡ Err (FixerRefused 1 (TooDeep 1 65)) }
{}

/// A fixer of a product, beside a stock one: a list item behind no other has no indent, and one behind another at most 1 more.
pub fn indents()
    ensures behind_a_paragraph { items_settled (settle (is_registered sample) (list_indent ∷ []) 1
        (plain (empty 1 (codes "paragraph") ∷ indented 2 4 (more (empty 3 (codes "paragraph")) none) ∷ []) 4))
        ≡ Ok (empty 1 (codes "paragraph") ∷ indented 2 0 (more (empty 3 (codes "paragraph")) none) ∷ []) }
    ensures in_a_row { list_indent (indented 1 0 none ∷ indented 2 7 none ∷ indented 3 2 none ∷ indented 4 9 none ∷ []) [] (selected at_start false)
        ≡ SetAttribute (OfElement (1 ∷ [])) (codes "indent") (Whole (pos 1)) ∷ SetAttribute (OfElement (3 ∷ [])) (codes "indent") (Whole (pos 3)) ∷ [] }
{}
