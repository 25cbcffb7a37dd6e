//! Worked examples of the definitions, computed.
ghost use Rattle.std.specs.Prelude.{◌≡◌, [], ◌∷◌, codes};
ghost use Rattle.ck_base.specs.declared.faults.Refusal.TheVariants.{Edit, Schema};
ghost use Rattle.ck_base.specs.declared.faults.Rule.TheVariants.{Child};
ghost use Rattle.ck_base.specs.declared.faults.EditFault.TheVariants.{BadPosition};
ghost use Rattle.machine_definitions.specs.Lines.{lines_of};
ghost use Rattle.machine_definitions.specs.Texts.{printed_text, printed_path};
ghost use Rattle.machine_definitions.specs.Refusals.{refusal_text};

/// What follows the last line feed is a line if it isn't empty.
pub fn two_lines()
    ensures ended { lines_of (codes "a\nb\n") ≡ codes "a" ∷ codes "b" ∷ [] }
    ensures unended { lines_of (codes "a\nb") ≡ codes "a" ∷ codes "b" ∷ [] }
    ensures empty_line { lines_of (codes "\n") ≡ [] ∷ [] }
    ensures no_line { lines_of [] ≡ [] }
{}

/// A position prints with commas, and texts with their escapes.
#[tactic(auto, unfolding(crate::specs::Texts::printed_scalar))]
pub fn printed()
    ensures position { printed_path (0 ∷ 3 ∷ []) ≡ codes "[0,3]" }
    ensures root { printed_path [] ≡ codes "[]" }
    ensures text { printed_text (codes "<[&]>") ≡ codes "&lt;&#91;&amp;&#93;&gt;" }
{}

/// A refusal prints its name and its fields.
#[tactic(auto, unfolding(crate::specs::Refusals::refusal_text, crate::specs::Refusals::edit_fault_text, crate::specs::Refusals::rule_text))]
pub fn refusals()
    ensures position { refusal_text (Edit (BadPosition 1 (0 ∷ 3 ∷ []))) ≡ codes "BadPosition 1 [0,3]" }
    ensures schema { refusal_text (Schema (Child (codes "quote") (codes "quote")) (1 ∷ 0 ∷ 0 ∷ [])) ≡ codes "Schema child quote in quote at [1,0,0]" }
{}
