//! What holds of every change: each function is a law, which its clauses state.
ghost use Rattle.std.specs.Prelude.{◌≡◌, ℕ, List, [], Option, Ok};
ghost use Rattle.breach_definitions.specs.Breach.{breach};
ghost use Rattle.document_definitions.specs.Document.{Document};
ghost use Rattle.edit_definitions.specs.declared.edit.Edit.{Edit};
ghost use Rattle.step_definitions.specs.Step.{Terms, IsAccepted, step, opened};

/// What an accepted change makes obeys the schema and is settled, whatever it was made of; so does a document that is opened.
pub fn accepted_documents_obey_and_are_settled()
    ensures changed { (terms : Terms) (edits : List Edit) (document made : Document) → step terms edits document ≡ Ok made → IsAccepted terms made }
    ensures opened { (terms : Terms) (start : Option (List ℕ)) (made : Document) → opened terms start ≡ Ok made → IsAccepted terms made }
{}

/// A document that obeys and is settled stays as it is in a change without edits.
pub fn accepted_documents_stay()
    ensures { (terms : Terms) (document : Document) → IsAccepted terms document → step terms [] document ≡ Ok document }
{}
