//! Worked examples of deletion, computed: each clause is a row. The rules are those of the sample schema.
#![tactic(auto, unfolding(unicode_segmentation::proofs::Computing::unicode_segmentation, crate::proofs::Computing::schema_tests))]

ghost use Rattle.std.specs.Prelude.{◌≡◌, ◌∷◌, [], false, None, Ok, Err, codes};
ghost use Rattle.schema_definitions.specs.Sample.{sample};
ghost use Rattle.edit_definitions.specs.declared.edit.Edit.TheVariants.{Remove, Merge, Select};
ghost use Rattle.command_definitions.specs.declared.command.Command.TheVariants.{DeleteBackward, DeleteForward};
ghost use Rattle.command_definitions.specs.declared.command.CommandFault.TheVariants.{Disabled};
ghost use Rattle.command_definitions.specs.Clusters.{clusters};
ghost use Rattle.command_definitions.specs.Table.{plan, state};
ghost use Rattle.command_definitions.specs.Sample.{with_caret, with_range, two, paragraph, image, mention, of_items, quote, plain_a, bold_b, first, second};
ghost use Rattle.command_definitions.specs.Sample.{in_first, in_second};

/// One cluster goes: a family of five characters that are joined, a letter with a mark, a flag of two, a syllable of two, a mark alone.
fn clusters_of_a_text()
    ensures mark { plan sample DeleteBackward None
        (with_caret (in_first 8) (paragraph 1 (120 ∷ 0x1F468 ∷ 0x200D ∷ 0x1F469 ∷ 0x200D ∷ 0x1F467 ∷ 101 ∷ 0x301 ∷ []) ∷ []))
        ≡ Ok (Remove (in_first 6) (in_first 8) ∷ []) }
    ensures family { plan sample DeleteBackward None (with_caret (in_first 6) (paragraph 1 (120 ∷ 0x1F468 ∷ 0x200D ∷ 0x1F469 ∷ 0x200D ∷ 0x1F467 ∷ []) ∷ []))
        ≡ Ok (Remove (in_first 1) (in_first 6) ∷ []) }
    ensures flag { plan sample DeleteForward None (with_caret (in_first 0) (paragraph 1 (0x1F1F7 ∷ 0x1F1FA ∷ 0x1F1F8 ∷ 0x1F1F9 ∷ []) ∷ []))
        ≡ Ok (Remove (in_first 0) (in_first 2) ∷ []) }
    ensures syllable { plan sample DeleteForward None (with_caret (in_first 0) (paragraph 1 (0x1100 ∷ 0x1161 ∷ 97 ∷ []) ∷ []))
        ≡ Ok (Remove (in_first 0) (in_first 2) ∷ []) }
    ensures mark_alone { plan sample DeleteBackward None (with_caret (in_first 1) (paragraph 1 (0x301 ∷ []) ∷ []))
        ≡ Ok (Remove (in_first 0) (in_first 1) ∷ []) }
    ensures other_attributes { plan sample DeleteBackward None (with_caret (in_first 2) (of_items 1 (plain_a ∷ bold_b ∷ []) ∷ []))
        ≡ Ok (Remove (in_first 1) (in_first 2) ∷ []) }
{}

/// An object beside the caret goes, in the text and between blocks.
fn objects()
    ensures in_text { plan sample DeleteBackward None (with_caret (in_first 2) (of_items 1 (plain_a ∷ mention 2 ∷ []) ∷ []))
        ≡ Ok (Remove (in_first 1) (in_first 2) ∷ []) }
    ensures block { plan sample DeleteForward None (with_caret first (image 1 ∷ [])) ≡ Ok (Remove first second ∷ []) }
{}

/// At the start of a block it is merged into the one before, and an object there is selected; anything else is left.
fn backward_at_a_start()
    ensures merged { plan sample DeleteBackward None (with_caret (in_second 0) two) ≡ Ok (Merge second ∷ []) }
    ensures object { plan sample DeleteBackward None (with_caret (in_second 0) (image 1 ∷ paragraph 2 [] ∷ [])) ≡ Ok (Select first second false ∷ []) }
    ensures first_block { plan sample DeleteBackward None (with_caret (in_first 0) two) ≡ Err Disabled }
    ensures container { plan sample DeleteBackward None (with_caret (in_second 0) (quote 1 [] ∷ paragraph 2 [] ∷ [])) ≡ Err Disabled }
    ensures in_root { state sample DeleteBackward (with_caret second two) ≡ record { on = false; enabled = false } }
{}

/// The same at the end of a block, with the one behind.
fn forward_at_an_end()
    ensures merged { plan sample DeleteForward None (with_caret (in_first 2) two) ≡ Ok (Merge second ∷ []) }
    ensures object { plan sample DeleteForward None (with_caret (in_first 0) (paragraph 1 [] ∷ image 2 ∷ [])) ≡ Ok (Select second (2 ∷ []) false ∷ []) }
    ensures last_block { plan sample DeleteForward None (with_caret (in_second 2) two) ≡ Err Disabled }
{}

/// Selected content goes, and what is left of two blocks is merged. Both directions are alike.
fn ranges()
    ensures in_one { plan sample DeleteBackward None (with_range (in_first 0) (in_first 2) two)
        ≡ Ok (Remove (in_first 0) (in_first 2) ∷ Select (in_first 0) (in_first 0) false ∷ []) }
    ensures in_two { plan sample DeleteForward None (with_range (in_first 1) (in_second 1) two)
        ≡ Ok (Remove (in_first 1) (in_second 1) ∷ Merge second ∷ Select (in_first 1) (in_first 1) false ∷ []) }
    ensures into_a_limit { plan sample DeleteBackward None (with_range (in_first 1) (in_second 0) (paragraph 1 (codes "ab") ∷ image 2 ∷ []))
        ≡ Ok (Remove (in_first 1) (in_second 0) ∷ Select (in_first 1) (in_first 1) false ∷ []) }
{}
