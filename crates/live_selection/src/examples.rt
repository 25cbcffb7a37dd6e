//! The attributes that the text gives, computed at worked examples. A paragraph here is an element with the name `p`.
ghost use Rattle.std.specs.Prelude.{◌≡◌, ◌∷◌, [], None, false};
ghost use Rattle.item_definitions.specs.Position.{between};
ghost use Rattle.document_definitions.specs.Selection.{selected, with_override, natural, attributes};
ghost use Rattle.live_selection.specs.Sample.{bold, plain_a, bold_a, paragraph_of};

/// A range is given the attributes of the first character that is wholly in it, at whatever depth.
pub fn of_ranges()
    ensures first { natural (paragraph_of 1 (plain_a ∷ bold_a ∷ []) ∷ []) (selected (between (0 ∷ 0 ∷ []) (0 ∷ 2 ∷ [])) false) ≡ [] }
    ensures second { natural (paragraph_of 1 (plain_a ∷ bold_a ∷ []) ∷ []) (selected (between (0 ∷ 1 ∷ []) (0 ∷ 2 ∷ [])) false) ≡ bold }
    ensures next_paragraph { natural (paragraph_of 1 (plain_a ∷ []) ∷ paragraph_of 2 (bold_a ∷ []) ∷ [])
        (selected (between (0 ∷ 1 ∷ []) (1 ∷ 1 ∷ [])) false) ≡ bold }
    ensures in_an_element { natural (paragraph_of 1 [] ∷ paragraph_of 2 (paragraph_of 3 (bold_a ∷ []) ∷ []) ∷ [])
        (selected (between (0 ∷ []) (2 ∷ [])) false) ≡ bold }
    ensures not_whole { natural (paragraph_of 1 (bold_a ∷ []) ∷ []) (selected (between (0 ∷ []) (0 ∷ 0 ∷ [])) false) ≡ [] }
    ensures behind_the_range { natural (paragraph_of 1 [] ∷ paragraph_of 2 (bold_a ∷ []) ∷ []) (selected (between (0 ∷ []) (1 ∷ 0 ∷ [])) false) ≡ [] }
{}

/// A caret is given those of the character before it, or else of the one behind it, both of its own parent.
pub fn of_carets()
    ensures before { natural (plain_a ∷ bold_a ∷ []) (selected (between (1 ∷ []) (1 ∷ [])) false) ≡ [] }
    ensures behind { natural (bold_a ∷ plain_a ∷ []) (selected (between (0 ∷ []) (0 ∷ [])) false) ≡ bold }
    ensures behind_an_element { natural (paragraph_of 1 (plain_a ∷ []) ∷ bold_a ∷ []) (selected (between (1 ∷ []) (1 ∷ [])) false) ≡ bold }
    ensures other_parents { natural (paragraph_of 1 (bold_a ∷ []) ∷ paragraph_of 2 [] ∷ bold_a ∷ []) (selected (between (1 ∷ 0 ∷ []) (1 ∷ 0 ∷ [])) false) ≡ [] }
{}

/// An override takes a key away from what the text gives.
pub fn overridden()
    ensures natural { natural (bold_a ∷ []) (with_override (98 ∷ []) None (selected (between (1 ∷ []) (1 ∷ [])) false)) ≡ bold }
    ensures attributes { attributes (bold_a ∷ []) (with_override (98 ∷ []) None (selected (between (1 ∷ []) (1 ∷ [])) false)) ≡ [] }
{}
