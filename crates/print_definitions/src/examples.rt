//! The definitions computed at worked examples.
ghost use Rattle.std.specs.Prelude.{◌≡◌, ◌∷◌, [], ◌++◌, true, false, Some, None, codes};
ghost use Rattle.ck_base.specs.declared.value.Value.TheVariants.{Truth};
ghost use Rattle.item_definitions.specs.Position.{between};
ghost use Rattle.view_definitions.specs.Node.{text};
ghost use Rattle.print_definitions.specs.ModelText.{model_text};
ghost use Rattle.print_definitions.specs.ViewText.{view_text};
ghost use Rattle.print_definitions.specs.SelectionText.{marker_line, selection_line};
ghost use Rattle.print_definitions.specs.Sample.{chars_with, paragraph_of, container_of, from_to};

/// A caret behind a text, and a selection round a bold one: its marks stand outside of the text.
#[tactic(auto, unfolding(machine_definitions::specs::Texts::printed_scalar))]
pub fn models()
    ensures plain { model_text None (paragraph_of (chars_with [] (codes "Hi")) ∷ []) ≡ codes "<paragraph>Hi</paragraph>" }
    ensures caret { model_text (Some (from_to (0 ∷ 2 ∷ []) (0 ∷ 2 ∷ []))) (paragraph_of (chars_with [] (codes "Hi")) ∷ [])
        ≡ codes "<paragraph>Hi[]</paragraph>" }
    ensures bold { model_text (Some (from_to (0 ∷ 0 ∷ []) (0 ∷ 3 ∷ []))) (paragraph_of (chars_with ((codes "bold", Truth true) ∷ []) (codes "End")) ∷ [])
        ≡ codes "<paragraph>[<$text bold=true>End</$text>]</paragraph>" }
    ensures inside { model_text (Some (from_to (0 ∷ 1 ∷ []) (0 ∷ 1 ∷ [])))
        (paragraph_of (chars_with ((codes "bold", Truth true) ∷ []) (codes "ab") ++ chars_with [] (codes "c")) ∷ [])
        ≡ codes "<paragraph><$text bold=true>a[]b</$text>c</paragraph>" }
    ensures root { model_text (Some (from_to (0 ∷ []) (0 ∷ []))) [] ≡ codes "[]" }
{}

/// A caret in a text and one between nodes.
#[tactic(auto, unfolding(machine_definitions::specs::Texts::printed_scalar))]
pub fn views()
    ensures in_text { view_text (Some (from_to (0 ∷ 0 ∷ 2 ∷ []) (0 ∷ 0 ∷ 2 ∷ []))) (container_of (codes "p") (text (codes "Hi") ∷ []) ∷ [])
        ≡ codes "<p>Hi{}</p>" }
    ensures between { view_text (Some (from_to (0 ∷ 0 ∷ []) (0 ∷ 0 ∷ []))) (container_of (codes "p") [] ∷ []) ≡ codes "<p>[]</p>" }
    ensures none { view_text None (container_of (codes "p") (text (codes "a") ∷ container_of (codes "b") [] ∷ []) ∷ []) ≡ codes "<p>a<b></b></p>" }
{}

/// A marker with its range, and a selection with an attribute and one without.
#[tactic(auto, unfolding(crate::specs::SelectionText::marker_line, crate::specs::SelectionText::direction, crate::specs::SelectionText::selection_line))]
pub fn selections()
    ensures marker { marker_line 3 (codes "note") (between (0 ∷ 1 ∷ []) (0 ∷ 4 ∷ [])) ≡ codes "3 marker note [0,1] [0,4]\n" }
    ensures forward { selection_line 3 false ((codes "bold", Truth true) ∷ []) ≡ codes "3 selection forward bold=true\n" }
    ensures backward { selection_line 12 true [] ≡ codes "12 selection backward\n" }
{}
