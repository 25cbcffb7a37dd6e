//! What a document is, and what an operation makes of it, as definitions in `specs/`, and the laws that hold of them. It has no program
//! code: each function here is a law or a worked example, which its clauses state.
#![tactic(auto)]

ghost use Rattle.std.specs.Prelude.{◌≡◌, ℕ, List, Ok, Some, false, option_map};
ghost use Rattle.item_definitions.specs.Item.{Item};
ghost use Rattle.item_definitions.specs.Children.{child_count, item_at};
ghost use Rattle.item_definitions.specs.Position.{Range, IsIn, IsRange};
ghost use Rattle.item_definitions.specs.Shift.{IsWithinLimits, carry_range, carried_ends};
ghost use Rattle.operation_definitions.specs.Operation.{Operation};
ghost use Rattle.operation_definitions.specs.After.{after};
ghost use Rattle.operation_definitions.specs.Reversed.{IsLimited, HasPlaces};
ghost use Rattle.document_definitions.specs.Document.{State, shift_of, applied};
ghost use Rattle.document_definitions.specs.Sound.{IsSound, IsWelcome, IsKeyed, BringsOrdered};
ghost use Rattle.document_definitions.specs.Staying.{item_carried, takes_out, left_by};

pub mod examples;

/// Where an operation isn't refused, each range of the tree is in the tree that it makes, where the operation carries it.
pub fn operations_keep_ranges()
    ensures { (items : List Item) (cells : List (List Item)) (operation : Operation) (made : List Item × List (List Item)) (range : Range)
        → HasPlaces operation → after items cells operation ≡ Ok made → IsRange (child_count items) range
        → IsRange (child_count made.0) (carry_range (shift_of operation) range) }
{}

/// Where an operation isn't refused and doesn't take an item out, this stands in the new items at the path where its range then starts: a
/// character with its code, an element with its id and its name, and both with their attributes; but that a change of attributes leaves the
/// attributes open, and a renaming the name. What is in an element are items of their own.
pub fn items_stay()
    ensures { (items : List Item) (cells : List (List Item)) (operation : Operation) (made : List Item × List (List Item)) (path : List ℕ) (item : Item)
        → HasPlaces operation → after items cells operation ≡ Ok made → item_at path items ≡ Some item → takes_out operation path ≡ false
        → option_map (left_by operation) (item_at (item_carried (shift_of operation) path) made.0) ≡ Some (left_by operation item) }
{}

/// A position of a tree that keeps to its limits has at most 65 numbers, each below 2^32; and each end of a range of the tree is carried to
/// such a position by each operation that isn't refused.
pub fn positions_keep_to_the_limits()
    ensures there { (items : List Item) (position : List ℕ) → IsLimited items → IsIn items position → IsWithinLimits position }
    ensures carried { (items : List Item) (cells : List (List Item)) (operation : Operation) (made : List Item × List (List Item)) (range : Range)
        → HasPlaces operation → after items cells operation ≡ Ok made → IsRange (child_count items) range
        → IsWithinLimits (carried_ends (shift_of operation) range).start × IsWithinLimits (carried_ends (shift_of operation) range).end }
{}

/// An operation that brings new ids alone keeps a sound document sound.
pub fn operations_keep_soundness()
    ensures { (operation : Operation) (state new : State) → IsSound state → HasPlaces operation → IsWelcome operation state → applied operation state
        ≡ Ok new → IsSound new }
{}

/// An operation keeps the keys of each item in order, in the tree and in the cells, where those of the items that come in are in order.
pub fn operations_keep_order()
    ensures { (operation : Operation) (state new : State) → IsKeyed state → BringsOrdered operation → applied operation state ≡ Ok new → IsKeyed new }
{}
