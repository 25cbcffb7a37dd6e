//! Worked files, computed: each clause is a row.
ghost use Rattle.std.specs.Prelude.{◌≡◌, pos, true, false, [], ◌∷◌, Some, None, Ok, Err, codes};
ghost use Rattle.schema_definitions.specs.declared.file.Subject.TheVariants.{Item};
ghost use Rattle.schema_definitions.specs.declared.file.Check.TheVariants.{Child};
ghost use Rattle.schema_definitions.specs.Compiled.{bare};
ghost use Rattle.json_forms.specs.declared.fault.FormFault.TheVariants as form;
ghost use Rattle.converter_definitions.specs.declared.pattern.Pattern.TheVariants.{Index};
ghost use Rattle.converter_definitions.specs.declared.stock.StockConverter.TheVariants.{ElementToElement};
ghost use Rattle.converter_forms.specs.ConverterForm.{stock_plan};
ghost use Rattle.fix_definitions.specs.declared.plan.FixerPlan.TheVariants.{Stock, Boxed};
ghost use Rattle.fix_definitions.specs.declared.stock.StockFixer.TheVariants.{DropAttributes};
ghost use Rattle.settings_definitions.specs.Settings.{form_of, settings_of};
ghost use Rattle.settings_definitions.specs.declared.fault.SettingsFault.TheVariants.{NotJson, BadField, TwiceRegistered, UnknownItem, BadCheck, UnknownCustom};
ghost use Rattle.settings_definitions.specs.declared.fault.SettingsFault.TheVariants.{NoConverter};

/// What files say.
pub fn forms()
    ensures least { form_of (codes "{\"version\":1,\"schema\":[],\"converters\":[]}")
        ≡ Ok (record { version = 1; rounds = 64; start = None; entries = []; checks = []; fixers = []; converters = [] }) }
    ensures more { form_of (codes "{\"version\":2,\"rounds\":2,\"start\":\"p\",\"schema\":[{\"item\":\"p\",\"allowIn\":[\"$root\",\"q\"],\"inheritAllFrom\":\"$block\",\"isBlock\":true}],\"checks\":[{\"child\":\"p\",\"endsWith\":[\"q\"],\"answer\":true}],\"fixers\":[\"dropAttributes\",{\"custom\":\"a\"}],\"converters\":[{\"kind\":\"elementToElement\",\"model\":\"p\",\"view\":{\"name\":\"p\",\"attributes\":{\"n\":{\"index\":1}}}}]}")
        ≡ Ok (record {
          version = 2;
          rounds = 2;
          start = Some (codes "p");
          entries = record (bare (Item (codes "p"))) { allow_in = codes "$root" ∷ codes "q" ∷ []; inherit_all_from = codes "$block" ∷ []; is_block = Some true } ∷ [];
          checks = Child (codes "p") (codes "q" ∷ []) true ∷ [];
          fixers = Stock DropAttributes ∷ Boxed (codes "a") ∷ [];
          converters = stock_plan (pos 0) (ElementToElement (codes "p") [] None (record { name = codes "p"; is_empty = false; attributes = (codes "n", Index 1) ∷ [] })) ∷ [];
        }) }
{}

/// The first place that breaks the form.
pub fn broken_forms()
    ensures empty { form_of (codes "{}")
        ≡ Err (form.BadField (codes "/version")) }
    ensures other_version { form_of (codes "{\"version\":3}")
        ≡ Err (form.BadField (codes "/version")) }
    ensures no_rounds { form_of (codes "{\"version\":1,\"rounds\":0}")
        ≡ Err (form.BadField (codes "/rounds")) }
    ensures no_schema { form_of (codes "{\"version\":1}")
        ≡ Err (form.BadField (codes "/schema")) }
    ensures both { form_of (codes "{\"version\":1,\"schema\":[{\"item\":7,\"extend\":\"q\"}]}")
        ≡ Err (form.BadField (codes "/schema/0/item")) }
    ensures in_a_list { form_of (codes "{\"version\":1,\"schema\":[{\"item\":\"p\",\"allowIn\":[\"q\",\"\"]}]}")
        ≡ Err (form.BadField (codes "/schema/0/allowIn/1")) }
    ensures other_field { form_of (codes "{\"version\":1,\"schema\":[{\"item\":\"p\",\"a\":1}]}")
        ≡ Err (form.BadField (codes "/schema/0/a")) }
    ensures both_kinds { form_of (codes "{\"version\":1,\"schema\":[],\"checks\":[{\"child\":\"p\",\"attribute\":\"k\",\"endsWith\":[],\"answer\":true}]}")
        ≡ Err (form.BadField (codes "/checks/0/attribute")) }
    ensures null_checks { form_of (codes "{\"version\":1,\"schema\":[],\"checks\":null}")
        ≡ Err (form.BadField (codes "/checks")) }
{}

/// The first place that breaks the form, in the converters and behind them.
pub fn broken_converters()
    ensures no_converters { form_of (codes "{\"version\":1,\"schema\":[],\"a\":1}")
        ≡ Err (form.BadField (codes "/converters")) }
    ensures no_list { form_of (codes "{\"version\":1,\"schema\":[],\"converters\":{}}")
        ≡ Err (form.BadField (codes "/converters")) }
    ensures no_index { form_of (codes
        "{\"version\":1,\"schema\":[],\"converters\":[{\"kind\":\"elementToElement\",\"model\":\"p\",\"view\":{\"name\":\"p\",\"attributes\":{\"n\":{\"index\":1}}}}]}")
        ≡ Err (form.BadField (codes "/converters/0/view/attributes/n/from")) }
    ensures no_custom_index { form_of (codes "{\"version\":1,\"schema\":[],\"converters\":[{\"kind\":\"custom\",\"name\":\"a\",\"index\":\"p\"}]}")
        ≡ Err (form.BadField (codes "/converters/0/index")) }
{}

/// Why files are refused, in order.
pub fn refusals()
    ensures not_json { settings_of [] [] (codes "{")
        ≡ Err NotJson }
    ensures bad_field { settings_of [] [] (codes "[]")
        ≡ Err (BadField []) }
    ensures twice { settings_of [] [] (codes "{\"version\":1,\"start\":\"x\",\"schema\":[{\"item\":\"$text\"}],\"converters\":[]}")
        ≡ Err (TwiceRegistered (codes "$text")) }
    ensures start { settings_of [] [] (codes "{\"version\":1,\"start\":\"x\",\"schema\":[{\"extend\":\"y\"}],\"converters\":[]}")
        ≡ Err (UnknownItem (codes "x")) }
    ensures reserved_start { settings_of [] [] (codes "{\"version\":1,\"start\":\"$block\",\"schema\":[],\"converters\":[]}")
        ≡ Err (UnknownItem (codes "$block")) }
    ensures unknown { settings_of [] []
        (codes "{\"version\":1,\"schema\":[],\"checks\":[{\"child\":\"q\",\"endsWith\":[],\"answer\":true}],\"converters\":[{\"kind\":\"custom\",\"name\":\"a\"}]}")
        ≡ Err (UnknownItem (codes "q")) }
    ensures bad_check { settings_of [] []
        (codes "{\"version\":1,\"schema\":[{\"item\":\"p\"}],\"checks\":[{\"attribute\":\"q\",\"endsWith\":[],\"answer\":true}],\"converters\":[{\"kind\":\"custom\",\"name\":\"a\"}]}")
        ≡ Err (BadCheck 1) }
{}

/// Why files are refused because of their converters, where a product's converter `a` is handed in.
pub fn refusals_of_converters()
    ensures unknown { settings_of (codes "a" ∷ []) []
        (codes "{\"version\":1,\"schema\":[],\"checks\":[{\"attribute\":\"k\",\"endsWith\":[],\"answer\":true}],\"converters\":[{\"kind\":\"custom\",\"name\":\"b\"},{\"kind\":\"elementToElement\",\"model\":\"p\",\"view\":{\"name\":\"p\"}}]}")
        ≡ Err (UnknownItem (codes "p")) }
    ensures not_handed_in { settings_of (codes "a" ∷ []) []
        (codes "{\"version\":1,\"schema\":[{\"item\":\"p\"}],\"converters\":[{\"kind\":\"custom\",\"name\":\"a\"},{\"kind\":\"custom\",\"name\":\"b\"}]}")
        ≡ Err (UnknownCustom (codes "b")) }
    ensures used_twice { settings_of (codes "a" ∷ []) []
        (codes "{\"version\":1,\"schema\":[{\"item\":\"p\"}],\"converters\":[{\"kind\":\"custom\",\"name\":\"a\"},{\"kind\":\"custom\",\"name\":\"a\"}]}")
        ≡ Err (UnknownCustom (codes "a")) }
    ensures no_converter { settings_of (codes "a" ∷ []) []
        (codes "{\"version\":1,\"schema\":[{\"item\":\"q\"},{\"item\":\"p\"}],\"converters\":[{\"kind\":\"custom\",\"name\":\"a\"},{\"kind\":\"elementToElement\",\"model\":\"q\",\"view\":{\"name\":\"q\"}},{\"kind\":\"elementToElement\",\"model\":\"p\",\"parent\":\"q\",\"view\":{\"name\":\"p\"}}]}")
        ≡ Err (NoConverter (codes "p")) }
{}
