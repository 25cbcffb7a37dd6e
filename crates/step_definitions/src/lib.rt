//! What a change makes of a document, as definitions in `specs/`. It has no program code: each function here is a worked example, which its
//! clauses state, and `laws` has what holds of every change.
#![tactic(auto, unfolding(breach_definitions::specs::Breach::breach, breach_definitions::specs::Breach::broken_rule, schema_definitions::specs::Allowed::check_child, schema_definitions::specs::Allowed::child_answer, schema_definitions::specs::Allowed::check_attribute, schema_definitions::specs::Allowed::attribute_answer, schema_definitions::specs::Rules::children_of, schema_definitions::specs::Rules::keys_of, schema_definitions::specs::Reachable::reachable, schema_definitions::specs::Compiled::predefined))]

ghost use Rattle.std.specs.Prelude.{◌≡◌, ◌∷◌, [], false, Some, None, Ok, Err, codes};
ghost use Rattle.ck_base.specs.declared.faults.EditFault.TheVariants.{NotRegistered};
ghost use Rattle.ck_base.specs.declared.faults.Refusal.TheVariants.{Edit, Schema, NotSettled, FixerRefused};
ghost use Rattle.ck_base.specs.declared.faults.Rule.TheVariants.{Child};
ghost use Rattle.edit_definitions.specs.declared.edit.Edit.TheVariants.{InsertText, InsertElement};
ghost use Rattle.item_definitions.specs.Item.{element, none};
ghost use Rattle.item_definitions.specs.Position.{between};
ghost use Rattle.document_definitions.specs.Selection.{selected};
ghost use Rattle.fix_definitions.specs.declared.stock.StockFixer.TheVariants.{Fill, RemoveEmpty};
ghost use Rattle.step_definitions.specs.Step.{empty_document, step, opened};
ghost use Rattle.step_definitions.specs.Sample.{terms};

pub mod laws;

/// A change is refused by its second edit, and a document by the schema; a start that may not stand in the root is refused.
pub fn refused()
    ensures second_edit { step (terms [] 64) (InsertElement (0 ∷ []) (codes "paragraph") [] ∷ InsertElement (0 ∷ []) (codes "table") []
        ∷ []) empty_document
        ≡ Err (Edit (NotRegistered 2 (codes "table"))) }
    ensures text_in_root { step (terms [] 64) (InsertText (0 ∷ []) (codes "x") [] ∷ []) empty_document
        ≡ Err (Schema (Child (codes "$text") (codes "$root")) (0 ∷ [])) }
    ensures start { opened (terms [] 64) (Some (codes "mention")) ≡ Err (Schema (Child (codes "mention") (codes "$root")) (0 ∷ [])) }
{}

/// Without a start the document is empty.
pub fn opened_empty()
    ensures { opened (terms [] 64) None ≡ Ok empty_document }
{}

/// Fixers act before the schema is tested: what they take away breaks nothing. What they can't bring to rest, or plan and can't make, is refused.
pub fn fixed()
    ensures filled { opened (terms (Fill (codes "$root") (codes "paragraph") ∷ []) 64) None
        ≡ Ok (record empty_document {
          items = element 1 (codes "paragraph") [] none ∷ [];
          next_id = 2;
          selection = selected (between (1 ∷ []) (1 ∷ [])) false;
        }) }
    ensures before_the_schema { opened (terms (RemoveEmpty (codes "mention") ∷ []) 64) (Some (codes "mention"))
        ≡ Ok (record empty_document { next_id = 2 }) }
    ensures restless { opened (terms (Fill (codes "$root") (codes "paragraph") ∷ RemoveEmpty (codes "paragraph") ∷ []) 2) None ≡ Err (NotSettled 2 1) }
    ensures refused { opened (terms (Fill (codes "$root") (codes "table") ∷ []) 64) None ≡ Err (FixerRefused 1 (NotRegistered 1 (codes "table"))) }
{}
