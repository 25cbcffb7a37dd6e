//! Worked examples, computed: each clause is a row.
#![tactic(auto, unfolding(crate::specs::Breach::breach, crate::specs::Breach::broken_rule, crate::specs::Spots::breach_at, schema_definitions::specs::Allowed::check_child, schema_definitions::specs::Allowed::child_answer, schema_definitions::specs::Allowed::check_attribute, schema_definitions::specs::Allowed::attribute_answer, schema_definitions::specs::Rules::children_of, schema_definitions::specs::Rules::keys_of, schema_definitions::specs::Reachable::reachable, schema_definitions::specs::Compiled::predefined))]

ghost use Rattle.std.specs.Prelude.{◌≡◌, true, [], ◌∷◌, Some, None, codes};
ghost use Rattle.ck_base.specs.declared.faults.Rule.TheVariants.{Child, Attribute};
ghost use Rattle.ck_base.specs.declared.value.Value.TheVariants.{Truth};
ghost use Rattle.item_definitions.specs.Item.{character, element, none, more};
ghost use Rattle.schema_definitions.specs.Sample.{sample};
ghost use Rattle.breach_definitions.specs.declared.spot.Spot.TheVariants.{Run, Subtree};
ghost use Rattle.breach_definitions.specs.Breach.{breach};
ghost use Rattle.breach_definitions.specs.Spots.{breach_at};
ghost use Rattle.breach_definitions.specs.Obeys.{OthersObey};
ghost use Rattle.breach_definitions.specs.Sample.{second_is_bold};

/// Documents that obey the sample's schema, and the first place that doesn't.
fn documents()
    ensures empty { breach sample [] ≡ None }
    ensures bold_text { breach sample (element 1 (codes "paragraph") [] (more (character 97 ((codes "bold", Truth true) ∷ [])) none) ∷ []) ≡ None }
    ensures text_in_root { breach sample (character 97 [] ∷ []) ≡ Some (Child (codes "$text") (codes "$root"), 0 ∷ []) }
    ensures mention_in_root { breach sample (element 1 (codes "mention") [] none ∷ []) ≡ Some (Child (codes "mention") (codes "$root"), 0 ∷ []) }
    ensures bold_paragraph { breach sample (element 1 (codes "paragraph") [] none ∷ element 2 (codes "paragraph") ((codes "bold", Truth true) ∷ []) none ∷ [])
        ≡ Some (Attribute (codes "bold") (codes "paragraph"), 1 ∷ []) }
{}

/// A quote in a quote in a quote, at its path.
fn quotes()
    ensures third { breach sample (element 1 (codes "quote") [] (more (element 2 (codes "quote") [] (more (element 3 (codes "quote") [] none) none)) none) ∷ [])
        ≡ Some (Child (codes "quote") (codes "quote"), 0 ∷ 0 ∷ 0 ∷ []) }
{}

/// Where the one item that isn't allowed is listed, the listed items suffice.
fn listed_items()
    ensures others { OthersObey sample second_is_bold (Run [] 1 2 ∷ []) }
    ensures listed { breach_at sample second_is_bold (Run [] 1 2 ∷ []) ≡ Some (Attribute (codes "bold") (codes "paragraph"), 1 ∷ []) }
    ensures all { breach sample second_is_bold ≡ Some (Attribute (codes "bold") (codes "paragraph"), 1 ∷ []) }
{}

/// What spots list.
fn spots()
    ensures nothing { breach_at sample (character 97 [] ∷ []) [] ≡ None }
    ensures run { breach_at sample (character 97 [] ∷ character 98 [] ∷ []) (Run [] 1 2 ∷ []) ≡ Some (Child (codes "$text") (codes "$root"), 1 ∷ []) }
    ensures without_inner { breach_at sample (element 1 (codes "image") [] (more (character 97 []) none) ∷ []) (Run [] 0 1 ∷ []) ≡ None }
    ensures subtree { breach_at sample (element 1 (codes "image") [] (more (character 97 []) none) ∷ []) (Subtree (0 ∷ []) ∷ [])
        ≡ Some (Child (codes "$text") (codes "image"), 0 ∷ 0 ∷ []) }
{}
