//! What is written of an edit is read as this edit, and what is read as an edit is what is written of it.
ghost use Rattle.std.specs.Prelude.{◌≡◌, ℕ, List, true, Ok};
ghost use Rattle.std.specs.List.{list_all};
ghost use Rattle.serde_json.specs.Data.{Data};
ghost use Rattle.edit_definitions.specs.declared.edit.Edit.{Edit as MeantEdit};
ghost use Rattle.json_values.specs.Written.{is_json};
ghost use Rattle.script_definitions.specs.Edits.{edit_at, edits_at};
ghost use Rattle.script_definitions.specs.Written.{edit_form, edits_items, is_written};

/// Each edit but the insertion of items is what its own form is read as, and so is each list of them, where their parts keep the limits of
/// their types.
pub fn edits_read_back()
    ensures edit { (path : List ℕ) (edit : MeantEdit) → is_written edit ≡ true → edit_at path (edit_form edit) ≡ Ok edit }
    ensures edits { (path : List ℕ) (index : ℕ) (edits : List MeantEdit) → list_all is_written edits ≡ true
        → edits_at path index (edits_items edits) ≡ Ok edits }
{}

/// What a JSON value that the code can hold is read as keeps the limits, so its own form is read as the same.
pub fn read_edits_are_written()
    ensures kept { (path : List ℕ) (d : Data) (edit : MeantEdit) → is_json d ≡ true → edit_at path d ≡ Ok edit → is_written edit ≡ true }
    ensures again { (path : List ℕ) (d : Data) (edit : MeantEdit) → is_json d ≡ true → edit_at path d ≡ Ok edit
        → edit_at path (edit_form edit) ≡ Ok edit }
{}
