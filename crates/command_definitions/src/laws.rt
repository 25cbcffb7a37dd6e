//! What holds of every document and command: each function is a law, which its clauses state.
ghost use Rattle.std.specs.Prelude.{◌≡◌, ℕ, List, Option, None, Ok, IsTrue, All};
ghost use Rattle.item_definitions.specs.Item.{Item};
ghost use Rattle.item_definitions.specs.Position.{Range};
ghost use Rattle.schema_definitions.specs.Allowed.{Rules, is_registered};
ghost use Rattle.ck_base.specs.declared.value.Value.{Value as AttributeValue};
ghost use Rattle.ck_base.specs.Entries.{value_of};
ghost use Rattle.operation_definitions.specs.Reversed.{AreOrdered};
ghost use Rattle.document_definitions.specs.Selection.{is_collapsed, attributes};
ghost use Rattle.document_definitions.specs.Document.{Document};
ghost use Rattle.document_definitions.specs.Sound.{IsSound};
ghost use Rattle.edit_definitions.specs.declared.edit.Edit.{Edit};
ghost use Rattle.edit_definitions.specs.Performed.{apart, edits_made};
ghost use Rattle.command_definitions.specs.declared.command.Command.TheVariants.{Toggle, Enter, DeleteBackward};
ghost use Rattle.command_definitions.specs.Fitting.{fits, fitting, longest_runs, IsLongest};
ghost use Rattle.command_definitions.specs.Clusters.{HaveScalars};
ghost use Rattle.command_definitions.specs.Table.{plan};
ghost use Rattle.command_definitions.specs.declared.command.Command.{Command as TheCommand};
ghost use Rattle.command_definitions.specs.GivenBack.{IsGivenBack, IsExecuted, IsNoneOr};
ghost use Rattle.command_definitions.specs.Finding.{FindsPlaces};

/// Where `enter` splits a block at a caret, `deleteBackward` then gives back the items and the caret.
pub fn deletion_takes_enter_back()
    ensures { (rules : Rules) (before after : Document) (edits : List Edit) → IsSound (apart before) → IsTrue (is_collapsed before.selection.range)
        → plan rules Enter None before ≡ Ok edits → edits_made (is_registered rules) edits before ≡ Ok after → IsGivenBack rules DeleteBackward before after }
{}

/// The edits of a command that can be executed name no position, range or element that isn't there when its turn comes, in a sound document whose
/// characters are Unicode scalar values.
pub fn plans_find_their_places()
    ensures { (rules : Rules) (command : TheCommand) (text : Option (List ℕ)) (document : Document) (edits : List Edit) → IsSound (apart document)
        → HaveScalars document.items → plan rules command text document ≡ Ok edits → FindsPlaces (edits_made (is_registered rules) edits document) }
{}

/// A toggle that is executed twice at a caret gives back the value of each key that typed text gets, where the toggle's key had its value, or none.
pub fn two_toggles_at_a_caret_give_back()
    ensures { (rules : Rules) (key : List ℕ) (value : AttributeValue) (before between after : Document) → IsSound (apart before) → AreOrdered before.items
        → IsTrue (is_collapsed before.selection.range) → IsNoneOr value (value_of key (attributes before.items before.selection))
        → IsExecuted rules (Toggle key value) before between → IsExecuted rules (Toggle key value) between after
        → (other : List ℕ) → value_of other (attributes after.items after.selection) ≡ value_of other (attributes before.items before.selection) }
{}

/// The runs that a toggle changes are of fitting items alone, and none could be longer.
pub fn toggled_runs_are_the_longest()
    ensures { (rules : Rules) (key : List ℕ) (items : List Item) (range : Range)
        → All (IsLongest (fits rules key items range) items) (longest_runs (fits rules key items range) items (fitting rules key items range)) }
{}
