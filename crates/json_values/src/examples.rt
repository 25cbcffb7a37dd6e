//! Worked rows, computed: each clause is a row.
ghost use Rattle.std.specs.Prelude.{◌≡◌, pos, negsuc, true, [], ◌∷◌, Some, None, Ok, Err, codes, replicate};
ghost use Rattle.ck_base.specs.declared.value.Value.TheVariants.{Whole, Truth, Text};
ghost use Rattle.json_forms.specs.declared.fault.FormFault.TheVariants.{BadField};
ghost use Rattle.json_forms.specs.Rows.{read_by};
ghost use Rattle.json_values.specs.Values.{value_field, nullable_field, attributes_field, path_field};

/// What is a value: a truth value, a text, or a whole number of 64 bits.
pub fn values()
    ensures truth { read_by (value_field [] (codes "value")) (codes "{\"value\":true}") ≡ Ok (Truth true) }
    ensures text { read_by (value_field [] (codes "value")) (codes "{\"value\":\"Hi\"}") ≡ Ok (Text (codes "Hi")) }
    ensures greatest { read_by (value_field [] (codes "value")) (codes "{\"value\":9223372036854775807}") ≡ Ok (Whole (pos 9223372036854775807)) }
    ensures over { read_by (value_field [] (codes "value")) (codes "{\"value\":9223372036854775808}") ≡ Err (BadField (codes "/value")) }
    ensures least { read_by (value_field [] (codes "value")) (codes "{\"value\":-9223372036854775808}") ≡ Ok (Whole (negsuc 9223372036854775807)) }
    ensures negative_zero { read_by (value_field [] (codes "value")) (codes "{\"value\":-0}") ≡ Err (BadField (codes "/value")) }
    ensures with_a_point { read_by (value_field [] (codes "value")) (codes "{\"value\":1.0}") ≡ Err (BadField (codes "/value")) }
    ensures null { read_by (value_field [] (codes "value")) (codes "{\"value\":null}") ≡ Err (BadField (codes "/value")) }
    ensures list { read_by (value_field [] (codes "value")) (codes "{\"value\":[]}") ≡ Err (BadField (codes "/value")) }
    ensures nothing { read_by (nullable_field [] (codes "value")) (codes "{\"value\":null}") ≡ Ok None }
    ensures something { read_by (nullable_field [] (codes "value")) (codes "{\"value\":7}") ≡ Ok (Some (Whole (pos 7))) }
{}

/// What are attributes: an object of names to values, in the order of the names whatever the order in the text.
pub fn attributes()
    ensures absent { read_by (attributes_field [] (codes "attributes")) (codes "{}") ≡ Ok [] }
    ensures null { read_by (attributes_field [] (codes "attributes")) (codes "{\"attributes\":null}") ≡ Err (BadField (codes "/attributes")) }
    ensures ordered { read_by (attributes_field [] (codes "attributes")) (codes "{\"attributes\":{\"b\":1,\"a\":true}}")
        ≡ Ok ((codes "a", Truth true) ∷ (codes "b", Whole (pos 1)) ∷ []) }
    ensures other_name { read_by (attributes_field [] (codes "attributes")) (codes "{\"attributes\":{\"a b\":1}}") ≡ Err (BadField (codes "/attributes/a b")) }
    ensures other_value { read_by (attributes_field [] (codes "attributes")) (codes "{\"attributes\":{\"b\":null,\"a\":[]}}")
        ≡ Err (BadField (codes "/attributes/a")) }
{}

/// What is a path: the empty list, or a list as that of a position.
pub fn paths()
    ensures root { read_by (path_field [] (codes "path")) (codes "{\"path\":[]}") ≡ Ok [] }
    ensures most { read_by (path_field [] (codes "path"))
        (codes "{\"path\":[0,0,0,0,0,0,0,0,0,0,0,0,0,0,0,0,0,0,0,0,0,0,0,0,0,0,0,0,0,0,0,0,0,0,0,0,0,0,0,0,0,0,0,0,0,0,0,0,0,0,0,0,0,0,0,0,0,0,0,0,0,0,0,0,0]}")
        ≡ Ok (replicate 65 0) }
    ensures too_many { read_by (path_field [] (codes "path"))
        (codes "{\"path\":[0,0,0,0,0,0,0,0,0,0,0,0,0,0,0,0,0,0,0,0,0,0,0,0,0,0,0,0,0,0,0,0,0,0,0,0,0,0,0,0,0,0,0,0,0,0,0,0,0,0,0,0,0,0,0,0,0,0,0,0,0,0,0,0,0,0]}")
        ≡ Err (BadField (codes "/path")) }
    ensures over { read_by (path_field [] (codes "path")) (codes "{\"path\":[4294967296]}") ≡ Err (BadField (codes "/path/0")) }
    ensures null { read_by (path_field [] (codes "path")) (codes "{\"path\":null}") ≡ Err (BadField (codes "/path")) }
{}
