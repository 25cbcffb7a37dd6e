//! What the document's items, places and their carrying mean, as definitions in `specs/`, and the laws that hold of them. It has no
//! program code: each function here is a law or a worked example, which its clauses state.
#![tactic(auto)]

ghost use Rattle.std.specs.Prelude.{List};
ghost use Rattle.item_definitions.specs.Item.{Item};
ghost use Rattle.item_definitions.specs.Children.{child_count};
ghost use Rattle.item_definitions.specs.Position.{Range, IsRange};
ghost use Rattle.item_definitions.specs.FlatParts.{flat_parts, IsMinimalCover};

pub mod examples;

/// The flat parts of a range that is in a list of items are flat, have exactly the range's items, are in order and apart, none is
/// empty, and no fewer flat ranges have these items.
pub fn flat_parts_are_minimal()
    ensures { (items : List Item) (range : Range) → IsRange (child_count items) range
        → IsMinimalCover (child_count items) range (flat_parts (child_count items) range) }
{}
