//! A law of the printed model.
ghost use Rattle.std.specs.Prelude.{◌≡◌, List, Option};
ghost use Rattle.item_definitions.specs.Item.{Item};
ghost use Rattle.print_definitions.specs.Marks.{Ends, wanted};
ghost use Rattle.print_definitions.specs.ModelText.{model_text};
ghost use Rattle.print_definitions.specs.Runs.{Piece, AreRuns, pieces_text};

/// Each list of items has its longest runs of characters of equal attributes, and the model is printed by them: each run in one text, which
/// stands in `$text` where it has attributes, and each element in its tags.
pub fn longest_runs_are_printed()
    ensures runs { (items : List Item) → (pieces : List Piece) × AreRuns items pieces }
    ensures printed { (ends : Option Ends) (items : List Item) (pieces : List Piece) → AreRuns items pieces
        → model_text ends items ≡ pieces_text (wanted ends) 0 pieces }
{}
