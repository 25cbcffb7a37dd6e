//! The laws of the definitions: what is tested is the least relation with its rules.
ghost use Rattle.std.specs.Prelude.{◌≡◌, ◌≢◌, ◌↔◌, ℕ, List, [], IsTrue, reverse, None};
ghost use Rattle.schema_definitions.specs.declared.file.Entry.{Entry as TheEntry};
ghost use Rattle.schema_definitions.specs.declared.file.Flag.{Flag as TheFlag};
ghost use Rattle.schema_definitions.specs.Relations.{StandsIn, MayHave, HasFlag};
ghost use Rattle.schema_definitions.specs.Rules.{stands_in, may_have, has_flag};
ghost use Rattle.schema_definitions.specs.Allowed.{Rules, check_child, check_attribute, is_registered};
ghost use Rattle.schema_definitions.specs.Compiled.{refusal};
ghost use Rattle.schema_definitions.specs.Checked.{MayStand, MayHaveThere};

/// The tests of the three relations hold exactly where the relations do.
#[tactic(auto, using(crate::proofs::Least::stands_in_is, crate::proofs::Least::may_have_is, crate::proofs::Least::has_flag_is))]
pub fn tests_are_the_relations()
    ensures children { (entries : List TheEntry) (item parent : List ℕ)
        → IsTrue (stands_in entries item parent) ↔ StandsIn entries item parent }
    ensures attributes { (entries : List TheEntry) (key item : List ℕ)
        → IsTrue (may_have entries key item) ↔ MayHave entries key item }
    ensures flags { (entries : List TheEntry) (flag : TheFlag) (item : List ℕ)
        → IsTrue (has_flag entries flag item) ↔ HasFlag entries flag item }
{}

/// What the two tests of a schema allow is what its checks allow, the first that is about an item or a key before the least relations.
#[tactic(auto, using(crate::proofs::Checked::check_child_is, crate::proofs::Checked::check_attribute_is))]
pub fn checks_go_before_the_relations()
    ensures children { (rules : Rules) (ancestors : List (List ℕ)) (item : List ℕ)
        → IsTrue (check_child rules ancestors item) ↔ ((ancestors ≢ []) × MayStand rules item (reverse ancestors)) }
    ensures attributes { (rules : Rules) (ancestors : List (List ℕ)) (item key : List ℕ)
        → IsTrue (check_attribute rules ancestors item key) ↔ MayHaveThere rules ancestors item key }
{}

/// In a schema that isn't refused only registered items may stand anywhere.
#[tactic(auto, using(crate::proofs::Known::standing_is_registered))]
pub fn only_registered_items_stand()
    ensures { (rules : Rules) → refusal rules ≡ None → (ancestors : List (List ℕ)) (item : List ℕ)
        → IsTrue (check_child rules ancestors item) → IsTrue (is_registered rules item) }
{}
