//! What the operations and their reversals mean, as definitions in `specs/`, and the law that a reversal takes its operation back. It
//! has no program code: each function here is a law or a worked example, which its clauses state.
#![tactic(auto)]

ghost use Rattle.std.specs.Prelude.{◌≡◌, ℕ, true, List, Ok};
ghost use Rattle.item_definitions.specs.Item.{Item};
ghost use Rattle.operation_definitions.specs.Operation.{Operation};
ghost use Rattle.operation_definitions.specs.After.{after, is_free};
ghost use Rattle.operation_definitions.specs.Reversed.{IsTakenBack, IsLimited, AreOrdered, HasPlaces};

pub mod examples;

/// Where an operation is not refused and the items from before keep to the limits, its reversal, with a cell that is empty or the next
/// new one, gives the items from before. The cells are those from before too, empty ones apart, but that this cell then holds what came
/// in by an insertion, or the new element of a split. It holds of each of the seven operations. The items' keys are in order, as those
/// of a finite map, and a position isn't the empty path.
pub fn reversals_take_back()
    ensures { (items : List Item) (cells : List (List Item)) (operation : Operation) (made : List Item × List (List Item)) (cell : ℕ)
        → IsLimited items → AreOrdered items → HasPlaces operation → after items cells operation ≡ Ok made → is_free made.1 cell ≡ true
        → IsTakenBack items cells operation made cell }
{}
