//! Worked rows of fixers, computed: each clause is a row.
ghost use Rattle.std.specs.Prelude.{◌≡◌, [], ◌∷◌, Ok, Err, codes};
ghost use Rattle.json_forms.specs.declared.fault.FormFault.TheVariants as form;
ghost use Rattle.fix_definitions.specs.declared.plan.FixerPlan.TheVariants.{Stock, Boxed};
ghost use Rattle.fix_definitions.specs.declared.stock.StockFixer.TheVariants.{DropAttributes, Fill, JoinNeighbours, RemoveEmpty, Require, SelectionPlace};
ghost use Rattle.settings_definitions.specs.FixerRows.{fixers_in};
ghost use Rattle.settings_definitions.specs.Settings.{form_of, settings_of};
ghost use Rattle.settings_definitions.specs.declared.fault.SettingsFault.TheVariants.{UnknownItem, BadCheck, UnknownCustom, NoConverter};

/// What the forms of a fixer say.
pub fn forms()
    ensures none { fixers_in (codes "[]") ≡ Ok [] }
    ensures texts { fixers_in (codes "[\"selection\",\"dropAttributes\",\"selection\"]")
        ≡ Ok (Stock SelectionPlace ∷ Stock DropAttributes ∷ Stock SelectionPlace ∷ []) }
    ensures fill { fixers_in (codes "[{\"fill\":\"$root\",\"with\":\"p\"}]") ≡ Ok (Stock (Fill (codes "$root") (codes "p")) ∷ []) }
    ensures join { fixers_in (codes "[{\"joinNeighbours\":\"q\"}]") ≡ Ok (Stock (JoinNeighbours (codes "q")) ∷ []) }
    ensures remove { fixers_in (codes "[{\"removeEmpty\":\"q\"}]") ≡ Ok (Stock (RemoveEmpty (codes "q")) ∷ []) }
    ensures require { fixers_in (codes "[{\"child\":\"p\",\"require\":\"q\"}]") ≡ Ok (Stock (Require (codes "q") (codes "p")) ∷ []) }
    ensures custom { fixers_in (codes "[{\"custom\":\"listIndent\"}]") ≡ Ok (Boxed (codes "listIndent") ∷ []) }
{}

/// The first place that breaks the form of a fixer.
pub fn broken()
    ensures null { form_of (codes "{\"version\":1,\"schema\":[],\"fixers\":null}")
        ≡ Err (form.BadField (codes "/fixers")) }
    ensures before_converters { form_of (codes "{\"version\":1,\"schema\":[],\"converters\":7,\"fixers\":[7]}")
        ≡ Err (form.BadField (codes "/fixers/0")) }
    ensures other_text { fixers_in (codes "[\"selection\",\"removeEmpty\"]") ≡ Err (form.BadField (codes "/1")) }
    ensures no_object { fixers_in (codes "[[]]") ≡ Err (form.BadField (codes "/0")) }
    ensures no_form { fixers_in (codes "[{}]") ≡ Err (form.BadField (codes "/0/fill")) }
    ensures no_first_field { fixers_in (codes "[{\"with\":\"p\"}]") ≡ Err (form.BadField (codes "/0/fill")) }
    ensures no_second_field { fixers_in (codes "[{\"fill\":\"p\"}]") ≡ Err (form.BadField (codes "/0/with")) }
    ensures no_child { fixers_in (codes "[{\"require\":\"p\",\"with\":\"p\"}]") ≡ Err (form.BadField (codes "/0/child")) }
    ensures no_name { fixers_in (codes "[{\"fill\":null,\"custom\":\"a\"}]") ≡ Err (form.BadField (codes "/0/fill")) }
    ensures no_neighbour { fixers_in (codes "[{\"joinNeighbours\":7}]") ≡ Err (form.BadField (codes "/0/joinNeighbours")) }
    ensures no_element { fixers_in (codes "[{\"removeEmpty\":[\"p\"]}]") ≡ Err (form.BadField (codes "/0/removeEmpty")) }
    ensures empty_name { fixers_in (codes "[{\"custom\":\"\"}]") ≡ Err (form.BadField (codes "/0/custom")) }
    ensures two_forms { fixers_in (codes "[{\"require\":\"p\",\"fill\":\"p\",\"with\":\"q\"}]") ≡ Err (form.BadField (codes "/0/require")) }
    ensures later_form { fixers_in (codes "[{\"custom\":\"a\",\"removeEmpty\":\"p\"}]") ≡ Err (form.BadField (codes "/0/custom")) }
    ensures other_field { fixers_in (codes "[{\"joinNeighbours\":\"p\",\"with\":\"p\"}]") ≡ Err (form.BadField (codes "/0/with")) }
{}

/// Why files are refused because of the names of their fixers that have to be items.
pub fn unknown_items()
    ensures parent_first { settings_of [] []
        (codes "{\"version\":1,\"schema\":[],\"fixers\":[{\"require\":\"z\",\"child\":\"y\"}],\"converters\":[]}")
        ≡ Err (UnknownItem (codes "z")) }
    ensures before_converters { settings_of [] []
        (codes "{\"version\":1,\"schema\":[],\"fixers\":[\"selection\",{\"fill\":\"$root\",\"with\":\"y\"}],\"converters\":[{\"kind\":\"elementToElement\",\"model\":\"x\",\"view\":{\"name\":\"p\"}}]}")
        ≡ Err (UnknownItem (codes "y")) }
    ensures behind_checks { settings_of [] []
        (codes "{\"version\":1,\"schema\":[],\"checks\":[{\"child\":\"q\",\"endsWith\":[],\"answer\":true}],\"fixers\":[{\"removeEmpty\":\"y\"}],\"converters\":[]}")
        ≡ Err (UnknownItem (codes "q")) }
    ensures before_bad_checks { settings_of [] []
        (codes "{\"version\":1,\"schema\":[{\"item\":\"q\"}],\"checks\":[{\"child\":\"q\",\"endsWith\":[],\"answer\":true}],\"fixers\":[{\"joinNeighbours\":\"y\"}],\"converters\":[]}")
        ≡ Err (UnknownItem (codes "y")) }
    ensures generic { settings_of [] []
        (codes "{\"version\":1,\"schema\":[{\"item\":\"q\"}],\"checks\":[{\"child\":\"q\",\"endsWith\":[],\"answer\":true}],\"fixers\":[{\"removeEmpty\":\"$root\"}],\"converters\":[]}")
        ≡ Err (BadCheck 1) }
{}

/// Why files are refused because of the names of products' fixers, where a product's converter `a` and its fixer `b` are handed in.
pub fn unknown_customs()
    ensures not_handed_in { settings_of (codes "a" ∷ []) (codes "b" ∷ [])
        (codes "{\"version\":1,\"schema\":[],\"fixers\":[{\"custom\":\"b\"},{\"custom\":\"c\"}],\"converters\":[]}")
        ≡ Err (UnknownCustom (codes "c")) }
    ensures of_the_other_kind { settings_of (codes "a" ∷ []) (codes "b" ∷ [])
        (codes "{\"version\":1,\"schema\":[],\"fixers\":[{\"custom\":\"a\"}],\"converters\":[{\"kind\":\"custom\",\"name\":\"a\"}]}")
        ≡ Err (UnknownCustom (codes "a")) }
    ensures used_twice { settings_of (codes "a" ∷ []) (codes "b" ∷ [])
        (codes "{\"version\":1,\"schema\":[],\"fixers\":[{\"custom\":\"b\"},{\"custom\":\"b\"}],\"converters\":[]}")
        ≡ Err (UnknownCustom (codes "b")) }
    ensures converters_first { settings_of (codes "a" ∷ []) (codes "b" ∷ [])
        (codes "{\"version\":1,\"schema\":[],\"fixers\":[{\"custom\":\"c\"}],\"converters\":[{\"kind\":\"custom\",\"name\":\"d\"}]}")
        ≡ Err (UnknownCustom (codes "d")) }
    ensures before_converters_that_lack { settings_of (codes "a" ∷ []) (codes "b" ∷ [])
        (codes "{\"version\":1,\"schema\":[{\"item\":\"p\"}],\"fixers\":[{\"custom\":\"c\"}],\"converters\":[]}")
        ≡ Err (UnknownCustom (codes "c")) }
    ensures one_name_of_both_kinds { settings_of (codes "a" ∷ []) (codes "a" ∷ [])
        (codes "{\"version\":1,\"schema\":[{\"item\":\"p\"}],\"fixers\":[{\"custom\":\"a\"}],\"converters\":[{\"kind\":\"custom\",\"name\":\"a\"}]}")
        ≡ Err (NoConverter (codes "p")) }
{}
