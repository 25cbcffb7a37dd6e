//! The laws of breaches.
ghost use Rattle.std.specs.Prelude.{◌≡◌, ◌↔◌, ℕ, IsTrue, List, Contains, AllPairs, Option, Some, None};
ghost use Rattle.ck_base.specs.declared.faults.Rule.{Rule as TheRule};
ghost use Rattle.item_definitions.specs.Item.{Item};
ghost use Rattle.item_definitions.specs.Position.{is_before};
ghost use Rattle.schema_definitions.specs.Allowed.{Rules};
ghost use Rattle.breach_definitions.specs.declared.spot.Spot.{Spot as TheSpot};
ghost use Rattle.breach_definitions.specs.Breach.{Placed, placed_items, broken_rule, breach};
ghost use Rattle.breach_definitions.specs.Spots.{breach_at};
ghost use Rattle.breach_definitions.specs.Obeys.{IsAllowed, Breaks, Obeys, IsFirstBreach, IsPlaced, OthersObey};

/// The items that are tested are exactly those that are found at the paths of the document, each with the names on its path, in document order.
#[tactic(auto)]
pub fn tested_items_are_those_at_paths()
    ensures members { (items : List Item) (placed : Placed) → Contains (placed_items items) placed ↔ IsPlaced items placed }
    ensures order { (items : List Item) → AllPairs (λ earlier later. IsTrue (is_before earlier.path later.path)) (placed_items items) }
{}

/// There is no breach exactly where each item that is found at a path may stand under the names on the path, and may have each of its keys.
#[tactic(auto)]
pub fn documents_without_a_breach_obey()
    ensures { (rules : Rules) (items : List Item) → (breach rules items ≡ None) ↔ Obeys rules items }
{}

/// The breach is the first item, in document order, that breaks a rule: each item before it is allowed where it stands.
#[tactic(auto)]
pub fn breach_is_the_first()
    ensures { (rules : Rules) (items : List Item) (rule : TheRule) (path : List ℕ) → (breach rules items ≡ Some (rule, path))
        ↔ IsFirstBreach rules items rule path }
{}

/// Where each item of the document that isn't listed is allowed, the first breach among the listed items is the first of all.
#[tactic(auto)]
pub fn listed_items_suffice()
    ensures { (rules : Rules) (items : List Item) (spots : List TheSpot) → OthersObey rules items spots → breach_at rules items spots ≡ breach rules items }
{}
