//! What is written of a part of an edit is read as this part, wherever it stands, and what is read keeps the limits.
ghost use Rattle.std.specs.Prelude.{◌≡◌, ℕ, List, true, Option, Some, Ok};
ghost use Rattle.serde_json.specs.Data.{Data};
ghost use Rattle.serde_json.specs.Find.{get};
ghost use Rattle.ck_base.specs.declared.value.Value.{Value as AttributeValue};
ghost use Rattle.json_forms.specs.Form.{position_field};
ghost use Rattle.json_values.specs.Values.{value_field, nullable_field, attributes_field, path_field};
ghost use Rattle.json_values.specs.Written.{numbers_form, value_form, nullable_form, attributes_form, is_position, is_path, is_value, is_nullable};
ghost use Rattle.json_values.specs.Written.{are_attributes, is_json};

/// A field that holds a position, or the path of an element, as its list of numbers.
pub fn positions_read_back()
    ensures position { (path name : List ℕ) (d : Data) (numbers : List ℕ) → get name d ≡ Some (numbers_form numbers)
        → is_position numbers ≡ true → position_field path name d ≡ Ok numbers }
    ensures path { (path name : List ℕ) (d : Data) (numbers : List ℕ) → get name d ≡ Some (numbers_form numbers)
        → is_path numbers ≡ true → path_field path name d ≡ Ok numbers }
{}

/// A field that holds a value, null for none, or attributes as an object.
pub fn values_read_back()
    ensures value { (path name : List ℕ) (d : Data) (value : AttributeValue) → get name d ≡ Some (value_form value)
        → is_value value ≡ true → value_field path name d ≡ Ok value }
    ensures nullable { (path name : List ℕ) (d : Data) (value : Option AttributeValue) → get name d ≡ Some (nullable_form value)
        → is_nullable value ≡ true → nullable_field path name d ≡ Ok value }
    ensures attributes { (path name : List ℕ) (d : Data) (attributes : List (List ℕ × AttributeValue)) → get name d ≡ Some (attributes_form attributes)
        → are_attributes attributes ≡ true → attributes_field path name d ≡ Ok attributes }
{}

/// What a field is read as keeps the limits, where the JSON value is one that the code can hold.
pub fn what_is_read_keeps_the_limits()
    ensures position { (path name : List ℕ) (d : Data) (numbers : List ℕ) → position_field path name d ≡ Ok numbers → is_position numbers ≡ true }
    ensures path { (path name : List ℕ) (d : Data) (numbers : List ℕ) → path_field path name d ≡ Ok numbers → is_path numbers ≡ true }
    ensures value { (path name : List ℕ) (d : Data) (value : AttributeValue) → is_json d ≡ true
        → value_field path name d ≡ Ok value → is_value value ≡ true }
    ensures nullable { (path name : List ℕ) (d : Data) (value : Option AttributeValue) → is_json d ≡ true
        → nullable_field path name d ≡ Ok value → is_nullable value ≡ true }
    ensures attributes { (path name : List ℕ) (d : Data) (attributes : List (List ℕ × AttributeValue)) → is_json d ≡ true
        → attributes_field path name d ≡ Ok attributes → are_attributes attributes ≡ true }
{}
