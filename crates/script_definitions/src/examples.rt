//! Worked rows, computed: each clause is a row.
ghost use Rattle.std.specs.Prelude.{◌≡◌, pos, true, false, [], ◌∷◌, Some, None, Ok, Err, codes};
ghost use Rattle.ck_base.specs.declared.value.Value.TheVariants.{Whole};
ghost use Rattle.json_forms.specs.declared.fault.FormFault.TheVariants.{NotJson, BadField};
ghost use Rattle.edit_definitions.specs.declared.edit.Edit.TheVariants.{InsertText, SetAttribute, Select, SelectionAttribute};
ghost use Rattle.edit_definitions.specs.declared.edit.Target.TheVariants.{Element as OfElement};
ghost use Rattle.script_definitions.specs.declared.request.Request.TheVariants.{Change, SelectView, Show};
ghost use Rattle.script_definitions.specs.Request.{request_of};

/// Fields that may be left out mean a default, and hold no null.
pub fn optional_fields()
    ensures no_attributes { request_of (codes "{\"do\":\"change\",\"edits\":[{\"edit\":\"insertText\",\"at\":[0,0],\"text\":\"Hi\"}]}")
        ≡ Ok (Change (InsertText (0 ∷ 0 ∷ []) (codes "Hi") [] ∷ [])) }
    ensures null_attributes { request_of (codes "{\"do\":\"change\",\"edits\":[{\"edit\":\"insertText\",\"at\":[0,0],\"text\":\"Hi\",\"attributes\":null}]}")
        ≡ Err (BadField (codes "/edits/0/attributes")) }
    ensures no_end { request_of (codes "{\"do\":\"change\",\"edits\":[{\"edit\":\"select\",\"start\":[0,1]}]}")
        ≡ Ok (Change (Select (0 ∷ 1 ∷ []) (0 ∷ 1 ∷ []) false ∷ [])) }
    ensures null_end { request_of (codes "{\"do\":\"change\",\"edits\":[{\"edit\":\"select\",\"start\":[0],\"end\":null}]}")
        ≡ Err (BadField (codes "/edits/0/end")) }
    ensures null_backward { request_of (codes "{\"do\":\"change\",\"edits\":[{\"edit\":\"select\",\"start\":[0],\"backward\":null}]}")
        ≡ Err (BadField (codes "/edits/0/backward")) }
    ensures null_value { request_of (codes "{\"do\":\"change\",\"edits\":[{\"edit\":\"selectionAttribute\",\"key\":\"bold\",\"value\":null}]}")
        ≡ Ok (Change (SelectionAttribute (codes "bold") None ∷ [])) }
    ensures no_value { request_of (codes "{\"do\":\"change\",\"edits\":[{\"edit\":\"selectionAttribute\",\"key\":\"bold\"}]}")
        ≡ Err (BadField (codes "/edits/0/value")) }
    ensures no_selection { request_of (codes "{\"do\":\"show\"}") ≡ Ok (Show true) }
    ensures null_selection { request_of (codes "{\"do\":\"show\",\"selection\":null}") ≡ Err (BadField (codes "/selection")) }
{}

/// An element by its path, beside which no end of a range may stand.
pub fn targets()
    ensures root { request_of (codes "{\"do\":\"change\",\"edits\":[{\"edit\":\"setAttribute\",\"path\":[],\"key\":\"a\",\"value\":1}]}")
        ≡ Ok (Change (SetAttribute (OfElement []) (codes "a") (Whole (pos 1)) ∷ [])) }
    ensures path_beside_start { request_of
        (codes "{\"do\":\"change\",\"edits\":[{\"edit\":\"setAttribute\",\"path\":[0],\"start\":[0],\"key\":\"a\",\"value\":1}]}")
        ≡ Err (BadField (codes "/edits/0/path")) }
    ensures path_beside_end { request_of (codes "{\"do\":\"change\",\"edits\":[{\"edit\":\"removeAttribute\",\"path\":[0],\"end\":null,\"key\":\"a\"}]}")
        ≡ Err (BadField (codes "/edits/0/path")) }
    ensures null_path { request_of (codes "{\"do\":\"change\",\"edits\":[{\"edit\":\"removeAttribute\",\"path\":null,\"key\":\"a\"}]}")
        ≡ Err (BadField (codes "/edits/0/path")) }
    ensures neither { request_of (codes "{\"do\":\"change\",\"edits\":[{\"edit\":\"removeAttribute\",\"key\":\"a\"}]}")
        ≡ Err (BadField (codes "/edits/0/start")) }
{}

/// The forms of a line, and the first place that breaks one.
pub fn lines()
    ensures no_edits { request_of (codes "{\"do\":\"change\",\"edits\":[]}") ≡ Ok (Change []) }
    ensures no_list { request_of (codes "{\"do\":\"change\",\"edits\":{}}") ≡ Err (BadField (codes "/edits")) }
    ensures no_object { request_of (codes "{\"do\":\"change\",\"edits\":[7]}") ≡ Err (BadField (codes "/edits/0")) }
    ensures other_edit { request_of (codes "{\"do\":\"change\",\"edits\":[{\"edit\":\"merge\",\"at\":[1]},{\"edit\":\"join\"}]}")
        ≡ Err (BadField (codes "/edits/1/edit")) }
    ensures further_field { request_of (codes "{\"do\":\"change\",\"edits\":[{\"edit\":\"split\",\"at\":[0],\"to\":[1]}]}")
        ≡ Err (BadField (codes "/edits/0/to")) }
    ensures place { request_of (codes "{\"do\":\"selectView\",\"anchor\":[0,2],\"focus\":[18446744073709551615]}")
        ≡ Ok (SelectView (record { path = 0 ∷ []; offset = 2 }) (record { path = []; offset = 18446744073709551615 })) }
    ensures no_place { request_of (codes "{\"do\":\"selectView\",\"anchor\":[],\"focus\":[0]}") ≡ Err (BadField (codes "/anchor")) }
    ensures over { request_of (codes "{\"do\":\"selectView\",\"anchor\":[0],\"focus\":[0,18446744073709551616]}") ≡ Err (BadField (codes "/focus/1")) }
    ensures other_form { request_of (codes "{\"do\":\"print\"}") ≡ Err (BadField (codes "/do")) }
    ensures no_json { request_of (codes "do") ≡ Err NotJson }
{}
