//! What the nodes of a view are, and how a row of layered entries nests to nodes, as definitions in `specs/`, and the laws that hold of
//! them. It has no program code: each function here is a law or a worked example, which its clauses state.
#![tactic(auto)]

ghost use Rattle.std.specs.Prelude.{◌≡◌, ◌≢◌, IsSomeAnd, ℕ, ◌++◌, ◌&&◌, ◌||◌, not, [], List, nat_eq, Some, None};
ghost use Rattle.std.specs.List.{IsDistinct};
ghost use Rattle.std.specs.Cmp.{IsTotalOrder};
ghost use Rattle.std.specs.declared.cmp.Ordering.TheVariants.{Equal};
ghost use Rattle.view_definitions.specs.Node.{ViewNode};
ghost use Rattle.view_definitions.specs.Layer.{Layer, layer_cmp, same_layer};
ghost use Rattle.view_definitions.specs.Row.{Entry, IsPlainRow, nest, nest_by_rule, join};
ghost use Rattle.view_definitions.specs.Change.{IsInOrder, has_layer, with_layer, without_layer};
ghost use Rattle.view_definitions.specs.Place.{list_at, nearest, one_more, changed, changes_of, numbers_of};

pub mod examples;

/// The order of layers is total, and of two layers neither of which stands outside the other, each is the other.
pub fn layers_are_in_order()
    ensures total { IsTotalOrder layer_cmp }
    ensures ties { (layer other : Layer) → layer_cmp layer other ≡ Equal → layer ≡ other }
{}

/// A row nests by the rule.
pub fn nest_keeps_the_rule()
    ensures { (row : List Entry) → nest row ≡ nest_by_rule row }
{}

/// Two rows without the caret, one behind the other, nest to what each of them nests to, joined where they meet.
pub fn nest_of_rows_joined()
    ensures { (row other : List Entry) → IsPlainRow row → IsPlainRow other
        → nest (row ++ other) ≡ join (nest row) (nest other) }
{}

/// Lists of nodes may be joined in any order of steps, and an empty list adds nothing.
pub fn join_is_associative()
    ensures steps { (nodes others last : List ViewNode) → join nodes (join others last) ≡ join (join nodes others) last }
    ensures none_behind { (nodes : List ViewNode) → join nodes [] ≡ nodes }
{}

/// One layer more keeps layers in their order, and is among them with those that were; one layer less keeps the order, and is not among
/// those that stay.
pub fn layers_change()
    ensures with_in_order { (layer : Layer) (layers : List Layer) → IsInOrder layers → IsInOrder (with_layer layer layers) }
    ensures with_one { (layer other : Layer) (layers : List Layer)
        → has_layer other (with_layer layer layers) ≡ (same_layer other layer || has_layer other layers) }
    ensures without_in_order { (layer : Layer) (layers : List Layer) → IsInOrder layers → IsInOrder (without_layer layer layers) }
    ensures without_one { (layer other : Layer) (layers : List Layer)
        → has_layer other (without_layer layer layers) ≡ (not (same_layer layer other) && has_layer other layers) }
{}

/// A change of the list of children at a path is counted once. Where no two elements have one number, the nearest element with a number on the
/// path, which is the innermost one, has counted one change more, or stays at the greatest count. Any other number keeps its count, where the old
/// and the new list have the same for it, as they have where neither has the number. A number that the nodes didn't have comes with its count.
pub fn changes_are_counted()
    ensures nearest { (path : List ℕ) (new nodes : List ViewNode) (number : ℕ) → IsDistinct nat_eq (numbers_of nodes) → nearest path nodes ≡ Some number
        → IsSomeAnd (changes_of number nodes) (λ count. changes_of number (changed path new nodes) ≡ Some (one_more count)) }
    ensures others { (path : List ℕ) (new old nodes : List ViewNode) (number : ℕ) → list_at path nodes ≡ Some old → nearest path nodes ≢ Some number
        → changes_of number new ≡ changes_of number old → changes_of number (changed path new nodes) ≡ changes_of number nodes }
    ensures new { (path : List ℕ) (new old nodes : List ViewNode) (number : ℕ) → list_at path nodes ≡ Some old → changes_of number nodes ≡ None
        → changes_of number (changed path new nodes) ≡ changes_of number new }
{}
