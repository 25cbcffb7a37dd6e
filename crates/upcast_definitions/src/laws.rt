//! What holds of every view, all rules and every schema: each function is a law, which its clauses state.
ghost use Rattle.std.specs.Prelude.{◌≡◌, ℕ, List, [], map, length, None};
ghost use Rattle.breach_definitions.specs.Breach.{breach};
ghost use Rattle.schema_definitions.specs.Allowed.{Rules};
ghost use Rattle.upcast_definitions.specs.declared.rule.UpcastRule.{UpcastRule as TheRule};
ghost use Rattle.upcast_definitions.specs.Form.{Form};
ghost use Rattle.upcast_definitions.specs.Frames.{Leaf};
ghost use Rattle.upcast_definitions.specs.Grouping.{group, group_by_rule, pieces_of, standing, placed_content, element_numbers, AreRising};
ghost use Rattle.upcast_definitions.specs.Up.{reading_of, up};
ghost use Rattle.upcast_definitions.specs.Building.{built};

/// Grouping keeps the leaves in their order, and each stands in exactly the elements that its frames are.
pub fn leaves_stand_in_their_frames()
    ensures { (leaves : List Leaf) → standing [] (pieces_of leaves) ≡ map placed_content leaves }
{}

/// The longest run of leaves with the same first frame is one element round the group of the run without that frame.
pub fn longest_runs_are_elements()
    ensures { (leaves : List Leaf) → group leaves ≡ group_by_rule leaves }
{}

/// What a view is in the model obeys the schema: each item may stand where it stands, and may have each of its keys there.
pub fn what_is_read_obeys()
    ensures { (rules : Rules) (upcast : List TheRule) (view : List Form) → breach rules (up rules upcast view) ≡ None }
{}

/// The items that are built while a view is read, by the elements that are open with what is in them so far, are those that it is in the model.
pub fn building_gives_the_same()
    ensures { (rules : Rules) (upcast : List TheRule) (view : List Form) → built rules upcast view ≡ up rules upcast view }
{}

/// The elements of what is read stand in the order in which they were made, each once: their numbers rise in document order. So two leaves stand in one
/// element exactly where they share its frame, and an element with a mark, which one that was never cut has, stands also where nothing else is in it.
pub fn elements_stand_once()
    ensures { (rules : Rules) (upcast : List TheRule) (view : List Form) → AreRising 0 (element_numbers (pieces_of (reading_of rules upcast view).leaves))
        (length (reading_of rules upcast view).made) }
{}
