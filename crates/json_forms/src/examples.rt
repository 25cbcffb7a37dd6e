//! Worked rows, computed: each clause is a row.
ghost use Rattle.std.specs.Prelude.{◌≡◌, [], ◌∷◌, Ok, Err, codes, replicate};
ghost use Rattle.json_forms.specs.declared.fault.FormFault.TheVariants.{NotJson, BadField};
ghost use Rattle.json_forms.specs.Form.{json_of, object_at, position_field, only_fields};
ghost use Rattle.json_forms.specs.Rows.{read_by};

/// What is a position: whole numbers below 2^32, written without a sign, a point or an exponent.
pub fn positions()
    ensures greatest { read_by (position_field [] (codes "at")) (codes "{\"at\":[0,4294967295]}") ≡ Ok (0 ∷ 4294967295 ∷ []) }
    ensures over { read_by (position_field [] (codes "at")) (codes "{\"at\":[1,4294967296]}") ≡ Err (BadField (codes "/at/1")) }
    ensures negative_zero { read_by (position_field [] (codes "at")) (codes "{\"at\":[-0]}") ≡ Err (BadField (codes "/at/0")) }
    ensures below_zero { read_by (position_field [] (codes "at")) (codes "{\"at\":[0,-1]}") ≡ Err (BadField (codes "/at/1")) }
    ensures with_a_point { read_by (position_field [] (codes "at")) (codes "{\"at\":[1.0]}") ≡ Err (BadField (codes "/at/0")) }
    ensures with_an_exponent { read_by (position_field [] (codes "at")) (codes "{\"at\":[1e0]}") ≡ Err (BadField (codes "/at/0")) }
{}

/// How many numbers a position has: 1 to 65. The numbers are tested first.
pub fn lengths()
    ensures none { read_by (position_field [] (codes "at")) (codes "{\"at\":[]}") ≡ Err (BadField (codes "/at")) }
    ensures most { read_by (position_field [] (codes "at"))
        (codes "{\"at\":[0,0,0,0,0,0,0,0,0,0,0,0,0,0,0,0,0,0,0,0,0,0,0,0,0,0,0,0,0,0,0,0,0,0,0,0,0,0,0,0,0,0,0,0,0,0,0,0,0,0,0,0,0,0,0,0,0,0,0,0,0,0,0,0,0]}")
        ≡ Ok (replicate 65 0) }
    ensures too_many { read_by (position_field [] (codes "at"))
        (codes "{\"at\":[0,0,0,0,0,0,0,0,0,0,0,0,0,0,0,0,0,0,0,0,0,0,0,0,0,0,0,0,0,0,0,0,0,0,0,0,0,0,0,0,0,0,0,0,0,0,0,0,0,0,0,0,0,0,0,0,0,0,0,0,0,0,0,0,0,0]}")
        ≡ Err (BadField (codes "/at")) }
    ensures no_number { read_by (position_field [] (codes "at"))
        (codes "{\"at\":[null,0,0,0,0,0,0,0,0,0,0,0,0,0,0,0,0,0,0,0,0,0,0,0,0,0,0,0,0,0,0,0,0,0,0,0,0,0,0,0,0,0,0,0,0,0,0,0,0,0,0,0,0,0,0,0,0,0,0,0,0,0,0,0,0,0,0]}")
        ≡ Err (BadField (codes "/at/0")) }
    ensures no_list { read_by (position_field [] (codes "at")) (codes "{\"at\":null}") ≡ Err (BadField (codes "/at")) }
    ensures absent { read_by (position_field [] (codes "at")) (codes "{}") ≡ Err (BadField (codes "/at")) }
{}

/// What has no JSON value, what is no object, and what a key that stands twice means: its last value.
pub fn lines()
    ensures cut_off { json_of (codes "{") ≡ Err NotJson }
    ensures no_utf8 { json_of (255 ∷ []) ≡ Err NotJson }
    ensures no_object { read_by (object_at []) (codes "[]") ≡ Err (BadField []) }
    ensures twice { read_by (position_field [] (codes "at")) (codes "{\"at\":7,\"at\":[1]}") ≡ Ok (1 ∷ []) }
    ensures others { read_by (only_fields [] (codes "at" ∷ [])) (codes "{\"b\":1,\"at\":1,\"a\":1}") ≡ Err (BadField (codes "/a")) }
{}
