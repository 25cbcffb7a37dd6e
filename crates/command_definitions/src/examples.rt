//! Worked examples, computed: each clause is a row. The rules are those of the sample schema.
#![tactic(auto, unfolding(crate::proofs::Computing::schema_tests))]

ghost use Rattle.std.specs.Prelude.{◌≡◌, ◌∷◌, [], true, false, Some, None, Ok, Err, pos, codes};
ghost use Rattle.ck_base.specs.declared.value.Value.TheVariants.{Truth, Whole};
ghost use Rattle.item_definitions.specs.Item.{character};
ghost use Rattle.schema_definitions.specs.Sample.{sample};
ghost use Rattle.edit_definitions.specs.declared.edit.Edit.TheVariants.{InsertText, InsertElement, Remove, Merge, SetAttribute, RemoveAttribute, Rename};
ghost use Rattle.edit_definitions.specs.declared.edit.Edit.TheVariants.{Split, Select, SelectionAttribute, Wrap as WrapRun, Unwrap};
ghost use Rattle.edit_definitions.specs.declared.edit.Target.TheVariants.{Range as InRange, Element as OfElement};
ghost use Rattle.command_definitions.specs.declared.command.Command.TheVariants.{Enter, TypeText, Object, Wrap};
ghost use Rattle.command_definitions.specs.declared.command.CommandFault.TheVariants.{Unknown, BadArgument, Disabled};
ghost use Rattle.command_definitions.specs.Table.{plan, state, plan_of, state_of};
ghost use Rattle.command_definitions.specs.Sample.{with_caret, with_range, two, paragraph, with_text, image, mention, of_items, quote, plain_a, bold_b};
ghost use Rattle.command_definitions.specs.Sample.{bold_only, bold, first, second, in_first, in_second, make_bold, make_heading};

/// At a caret a toggle overrides the selection's own attribute.
fn toggled_at_a_caret()
    ensures off { state sample make_bold (with_caret (in_first 0) (paragraph 1 [] ∷ [])) ≡ record { on = false; enabled = true } }
    ensures set { plan sample make_bold None (with_caret (in_first 0) (paragraph 1 [] ∷ [])) ≡ Ok (SelectionAttribute bold (Some (Truth true)) ∷ []) }
    ensures on { state sample make_bold (with_caret (in_first 1) (of_items 1 (bold_b ∷ []) ∷ [])) ≡ record { on = true; enabled = true } }
    ensures taken { plan sample make_bold None (with_caret (in_first 1) (of_items 1 (bold_b ∷ []) ∷ [])) ≡ Ok (SelectionAttribute bold None ∷ []) }
    ensures in_root { plan sample make_bold None (with_caret first two) ≡ Err Disabled }
{}

/// Over a range it changes each longest run of characters and objects in the text, and what the first of them has decides which way.
fn toggled_runs()
    ensures across { plan sample make_bold None (with_range (in_first 1) (in_second 1) two)
        ≡ Ok (SetAttribute (InRange (in_first 1) (in_first 2)) bold (Truth true) ∷ SetAttribute (InRange (in_second 0) (in_second 1)) bold (Truth true) ∷ []) }
    ensures object_in_text { plan sample make_bold None (with_range (in_first 0) (in_first 3) (of_items 1 (plain_a ∷ mention 2 ∷ bold_b ∷ []) ∷ []))
        ≡ Ok (SetAttribute (InRange (in_first 0) (in_first 3)) bold (Truth true) ∷ []) }
    ensures block_between { plan sample make_bold None (with_range (in_first 0) (in_first 3) (of_items 1 (bold_b ∷ image 2 ∷ plain_a ∷ []) ∷ []))
        ≡ Ok (RemoveAttribute (InRange (in_first 0) (in_first 1)) bold ∷ RemoveAttribute (InRange (in_first 2) (in_first 3)) bold ∷ []) }
    ensures first_is_bold { state sample make_bold (with_range (in_first 0) (in_first 2) (of_items 1 (bold_b ∷ plain_a ∷ []) ∷ []))
        ≡ record { on = true; enabled = true } }
    ensures none_fits { state sample make_bold (with_range first second (image 1 ∷ [])) ≡ record { on = false; enabled = false } }
{}

/// The selected blocks get a name and attributes. A block is selected where the selection has a position in it, be it the first or the last.
fn blocks()
    ensures renamed { plan sample make_heading None (with_caret (in_first 0) two)
        ≡ Ok (Rename first (codes "heading") ∷ SetAttribute (OfElement first) (codes "level") (Whole (pos 2)) ∷ []) }
    ensures named_so { plan sample make_heading None (with_caret (in_first 0) (with_text 1 (codes "heading") (codes "a") ∷ []))
        ≡ Ok (SetAttribute (OfElement first) (codes "level") (Whole (pos 2)) ∷ []) }
    ensures on { state sample make_heading (with_caret (in_first 0) (with_text 1 (codes "heading") (codes "a") ∷ [])) ≡ record { on = true; enabled = true } }
    ensures to_a_start { plan sample make_heading None (with_range (in_first 2) (in_second 0) two)
        ≡ Ok (Rename first (codes "heading") ∷ SetAttribute (OfElement first) (codes "level") (Whole (pos 2))
        ∷ Rename second (codes "heading") ∷ SetAttribute (OfElement second) (codes "level") (Whole (pos 2)) ∷ []) }
    ensures none_selected { state sample make_heading (with_caret first two) ≡ record { on = false; enabled = false } }
{}

/// A block is split, and the caret is at the start of the one behind. Over two blocks nothing is split.
fn entered()
    ensures caret { plan sample Enter None (with_caret (in_first 1) two) ≡ Ok (Split (in_first 1) ∷ Select (in_second 0) (in_second 0) false ∷ []) }
    ensures in_one { plan sample Enter None (with_range (in_first 0) (in_first 1) two)
        ≡ Ok (Remove (in_first 0) (in_first 1) ∷ Split (in_first 0) ∷ Select (in_second 0) (in_second 0) false ∷ []) }
    ensures in_two { plan sample Enter None (with_range (in_first 1) (in_second 1) two)
        ≡ Ok (Remove (in_first 1) (in_second 1) ∷ Select (in_second 0) (in_second 0) false ∷ []) }
    ensures in_root { plan sample Enter None (with_caret first two) ≡ Err Disabled }
    ensures in_a_limit { state sample Enter (with_caret (in_first 0) (image 1 ∷ [])) ≡ record { on = false; enabled = false } }
    ensures into_a_limit { plan sample Enter None (with_range (in_first 1) (in_second 0) (paragraph 1 (codes "ab") ∷ image 2 ∷ [])) ≡ Err Disabled }
{}

/// A text comes in at the selection's start, with the attributes of the selection that it may have there.
fn typed()
    ensures caret { plan sample TypeText (Some (codes "x")) (with_caret (in_first 1) (of_items 1 (bold_b ∷ []) ∷ []))
        ≡ Ok (InsertText (in_first 1) (codes "x") bold_only ∷ []) }
    ensures denied { plan sample TypeText (Some (codes "x")) (with_caret (in_first 1) (of_items 1 (character 97 ((codes "level", Truth true) ∷ []) ∷ []) ∷ []))
        ≡ Ok (InsertText (in_first 1) (codes "x") [] ∷ []) }
    ensures range { plan sample TypeText (Some (codes "x")) (with_range (in_first 1) (in_second 1) two)
        ≡ Ok (Remove (in_first 1) (in_second 1) ∷ Merge second ∷ InsertText (in_first 1) (codes "x") [] ∷ []) }
    ensures empty { plan sample TypeText (Some []) (with_caret (in_first 0) two) ≡ Ok (InsertText (in_first 0) [] [] ∷ []) }
    ensures in_root { plan sample TypeText (Some (codes "x")) (with_caret first two) ≡ Err Disabled }
{}

/// An object in the text comes in at the selection's start.
fn objects_in_text()
    ensures here { plan sample (Object (codes "mention")) None (with_caret (in_first 1) two) ≡ Ok (InsertElement (in_first 1) (codes "mention") [] ∷ []) }
    ensures in_root { state sample (Object (codes "mention")) (with_caret first two) ≡ record { on = false; enabled = false } }
{}

/// Another object that may not stand in the block comes in beside it, and is selected; the block is split where the selection starts in it.
fn objects_beside()
    ensures before { plan sample (Object (codes "image")) None (with_caret (in_first 0) two)
        ≡ Ok (InsertElement first (codes "image") [] ∷ Select first second false ∷ []) }
    ensures behind { plan sample (Object (codes "image")) None (with_caret (in_first 2) two)
        ≡ Ok (InsertElement second (codes "image") [] ∷ Select second (2 ∷ []) false ∷ []) }
    ensures between { plan sample (Object (codes "image")) None (with_caret (in_first 1) two)
        ≡ Ok (Split (in_first 1) ∷ InsertElement second (codes "image") [] ∷ Select second (2 ∷ []) false ∷ []) }
    ensures beside_an_empty_block { plan sample (Object (codes "image")) None (with_caret (in_first 0) (paragraph 1 [] ∷ []))
        ≡ Ok (InsertElement first (codes "image") [] ∷ Select first second false ∷ []) }
    ensures to_the_end { plan sample (Object (codes "image")) None (with_range (in_first 1) (in_first 2) two)
        ≡ Ok (Remove (in_first 1) (in_first 2) ∷ Split (in_first 1) ∷ InsertElement second (codes "image") [] ∷ Select second (2 ∷ []) false ∷ []) }
    ensures in_root { plan sample (Object (codes "image")) None (with_caret first two)
        ≡ Ok (InsertElement first (codes "image") [] ∷ Select first second false ∷ []) }
{}

/// Blocks that are neighbours go into a new element, and come out of it again.
fn wrapped()
    ensures one { plan sample (Wrap (codes "quote")) None (with_caret (in_first 0) two) ≡ Ok (WrapRun first second (codes "quote") [] ∷ []) }
    ensures both { plan sample (Wrap (codes "quote")) None (with_range (in_first 0) (in_second 0) two) ≡ Ok (WrapRun first (2 ∷ []) (codes "quote") [] ∷ []) }
    ensures on { state sample (Wrap (codes "quote")) (with_caret (0 ∷ in_first 0) (quote 3 two ∷ [])) ≡ record { on = true; enabled = true } }
    ensures unwrapped { plan sample (Wrap (codes "quote")) None (with_caret (0 ∷ in_first 0) (quote 3 two ∷ [])) ≡ Ok (Unwrap first ∷ []) }
    ensures no_neighbours { plan sample (Wrap (codes "quote")) None (with_range (in_first 0) (2 ∷ 0 ∷ []) (paragraph 1 [] ∷ image 2 ∷ paragraph 3 [] ∷ []))
        ≡ Err Disabled }
    ensures in_two_parents { state sample (Wrap (codes "quote"))
        (with_range (in_first 0) (1 ∷ in_first 0) (paragraph 1 [] ∷ quote 2 (paragraph 3 [] ∷ []) ∷ []))
        ≡ record { on = false; enabled = false } }
    ensures nothing { plan sample (Wrap (codes "quote")) None (with_caret first two) ≡ Err Disabled }
    ensures not_in_that { plan sample (Wrap (codes "mention")) None (with_caret (in_first 0) two) ≡ Err Disabled }
{}

/// The refusals in their order: no such command, a text that isn't due, and that the command can't be executed.
fn refused()
    ensures unknown { plan_of sample ((bold, make_bold) ∷ []) (codes "fly") None (with_caret first two) ≡ Err Unknown }
    ensures unknown_state { state_of sample ((bold, make_bold) ∷ []) (codes "fly") (with_caret first two) ≡ Err Unknown }
    ensures no_text { plan_of sample ((codes "type", TypeText) ∷ []) (codes "type") None (with_caret first two) ≡ Err BadArgument }
    ensures a_text { plan_of sample ((bold, make_bold) ∷ []) bold (Some []) (with_caret first two) ≡ Err BadArgument }
    ensures disabled { plan_of sample ((bold, make_bold) ∷ []) bold None (with_caret first two) ≡ Err Disabled }
{}
