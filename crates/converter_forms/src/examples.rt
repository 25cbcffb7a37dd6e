//! Worked rows, computed: each clause is a row. The first argument says whether an index may be asked for.
ghost use Rattle.std.specs.Prelude.{◌≡◌, pos, negsuc, true, false, [], ◌∷◌, Some, None, Ok, Err, codes};
ghost use Rattle.ck_base.specs.declared.value.Value.TheVariants.{Whole, Truth, Text as TextValue};
ghost use Rattle.json_forms.specs.declared.fault.FormFault.TheVariants.{BadField};
ghost use Rattle.converter_definitions.specs.declared.kind.ShapeKind.TheVariants.{Container, Empty, Ui};
ghost use Rattle.converter_definitions.specs.declared.pattern.Pattern.TheVariants.{Text, From, Index};
ghost use Rattle.converter_definitions.specs.declared.stock.StockConverter.TheVariants.{ElementToElement, ElementToStructure, AttributeToElement};
ghost use Rattle.converter_definitions.specs.declared.stock.StockConverter.TheVariants.{AttributeToAttribute, MarkerToHighlight, MarkerToElement};
ghost use Rattle.converter_definitions.specs.Form.{slot, text, element, none, more};
ghost use Rattle.converter_definitions.specs.declared.plan.PlanEntry.TheVariants.{Boxed};
ghost use Rattle.converter_forms.specs.ConverterForm.{stock_plan};
ghost use Rattle.converter_forms.specs.ConverterRows.{converter_in, converters_in, shape_in, pattern_in, priority_in, counted_in};

/// What elements become.
pub fn elements()
    ensures least { converter_in false (codes "{\"kind\":\"elementToElement\",\"model\":\"p\",\"view\":{\"name\":\"p\"}}")
        ≡ Ok (stock_plan (pos 0) (ElementToElement (codes "p") [] None (record { name = codes "p"; is_empty = false; attributes = [] }))) }
    ensures most { converter_in false
        (codes "{\"kind\":\"elementToElement\",\"model\":\"h\",\"attributes\":{\"level\":1},\"parent\":\"q\",\"view\":{\"name\":\"h1\",\"type\":\"empty\",\"attributes\":{\"b\":{\"from\":\"a\"},\"a\":\"x\"}},\"priority\":\"high\"}")
        ≡ Ok (stock_plan (pos 1000) (ElementToElement (codes "h") ((codes "level", Whole (pos 1)) ∷ []) (Some (codes "q"))
        (record { name = codes "h1"; is_empty = true; attributes = (codes "a", Text (codes "x")) ∷ (codes "b", From (codes "a")) ∷ [] }))) }
    ensures structure { converter_in
        false (codes "{\"kind\":\"elementToStructure\",\"model\":\"image\",\"view\":{\"name\":\"figure\",\"children\":[{\"name\":\"img\",\"type\":\"empty\",\"attributes\":{\"src\":{\"from\":\"source\"}}},{\"name\":\"b\",\"type\":\"ui\",\"children\":[\"x\"]},{\"slot\":true}]},\"priority\":-5}")
        ≡ Ok (stock_plan (negsuc 4) (ElementToStructure (codes "image") [] None (element Container (codes "figure") []
        (more (element Empty (codes "img") ((codes "src", From (codes "source")) ∷ []) none)
        (more (element Ui (codes "b") [] (more (text (codes "x")) none))
        (more slot none)))))) }
{}

/// What attributes become.
pub fn attributes()
    ensures layer { converter_in false (codes "{\"kind\":\"attributeToElement\",\"model\":\"bold\",\"view\":{\"name\":\"b\"}}")
        ≡ Ok (stock_plan (pos 0) (AttributeToElement (codes "bold") None (record { name = codes "b"; attributes = []; priority = pos 10; id = None }))) }
    ensures more_of_a_layer { converter_in
        false (codes "{\"kind\":\"attributeToElement\",\"model\":\"bold\",\"value\":true,\"view\":{\"name\":\"b\",\"attributes\":{\"a\":\"x\"},\"priority\":-100000,\"id\":\"i\"},\"priority\":\"low\"}")
        ≡ Ok (stock_plan (negsuc 999) (AttributeToElement (codes "bold") (Some (Truth true))
        (record { name = codes "b"; attributes = (codes "a", Text (codes "x")) ∷ []; priority = negsuc 99999; id = Some (codes "i") }))) }
    ensures attribute { converter_in false (codes "{\"kind\":\"attributeToAttribute\",\"model\":\"source\",\"view\":{\"key\":\"src\"}}")
        ≡ Ok (stock_plan (pos 0) (AttributeToAttribute None (codes "source") None (record { key = codes "src"; value = None }))) }
    ensures index { converter_in true
        (codes "{\"kind\":\"attributeToAttribute\",\"element\":\"li\",\"model\":\"start\",\"value\":\"s\",\"view\":{\"key\":\"n\",\"value\":{\"index\":1}}}")
        ≡ Ok (stock_plan (pos 0) (AttributeToAttribute (Some (codes "li")) (codes "start") (Some (TextValue (codes "s")))
        (record { key = codes "n"; value = Some (Index 1) }))) }
{}

/// What markers become, and the converters of a product.
pub fn others()
    ensures highlight { converter_in false (codes "{\"kind\":\"markerToHighlight\",\"marker\":\"comment\",\"view\":{\"attributes\":{\"class\":\"c\"}}}")
        ≡ Ok (stock_plan (pos 0) (MarkerToHighlight (codes "comment")
        (record { name = codes "span"; attributes = (codes "class", codes "c") ∷ []; priority = pos 10; id = None }))) }
    ensures leaf { converter_in false
        (codes "{\"kind\":\"markerToElement\",\"marker\":\"bookmark\",\"view\":{\"name\":\"a\",\"attributes\":{\"class\":\"b\"}},\"priority\":\"lowest\"}")
        ≡ Ok (stock_plan (negsuc 99999) (MarkerToElement (codes "bookmark") (record { name = codes "a"; attrs = (codes "class", codes "b") ∷ [] }))) }
    ensures custom { converter_in false (codes "{\"kind\":\"custom\",\"name\":\"mention\",\"priority\":\"highest\"}")
        ≡ Ok (record { priority = pos 100000; entry = Boxed (codes "mention") None }) }
    ensures counted { converter_in true (codes "{\"kind\":\"custom\",\"name\":\"mention\",\"index\":\"li\"}")
        ≡ Ok (record { priority = pos 0; entry = Boxed (codes "mention") (Some (codes "li")) }) }
    ensures list { converters_in false (codes "[{\"kind\":\"custom\",\"name\":\"a\"},{\"kind\":\"custom\",\"name\":\"b\"}]")
        ≡ Ok (record { priority = pos 0; entry = Boxed (codes "a") None } ∷ record { priority = pos 0; entry = Boxed (codes "b") None } ∷ []) }
{}

/// The names of the elements that are counted for a list of converters.
pub fn counted()
    ensures none { counted_in (codes "[{\"kind\":\"elementToElement\",\"model\":\"p\",\"view\":{\"name\":\"p\"}},{\"kind\":\"custom\",\"name\":\"a\"}]")
        ≡ Ok [] }
    ensures elements { counted_in (codes
        "[{\"kind\":\"elementToElement\",\"model\":\"p\",\"view\":{\"name\":\"p\",\"attributes\":{\"a\":\"x\",\"n\":{\"index\":1}}}},{\"kind\":\"elementToStructure\",\"model\":\"q\",\"view\":{\"name\":\"q\",\"children\":[{\"slot\":true},{\"name\":\"b\",\"attributes\":{\"n\":{\"index\":0}}}]}}]")
        ≡ Ok (codes "p" ∷ codes "q" ∷ []) }
    ensures once { counted_in (codes
        "[{\"kind\":\"custom\",\"name\":\"a\",\"index\":\"q\"},{\"kind\":\"attributeToAttribute\",\"element\":\"p\",\"model\":\"m\",\"view\":{\"key\":\"n\",\"value\":{\"index\":1}}},{\"kind\":\"custom\",\"name\":\"b\",\"index\":\"q\"}]")
        ≡ Ok (codes "q" ∷ codes "p" ∷ []) }
{}

/// The first place that breaks the form of a converter.
pub fn broken()
    ensures no_object { converters_in false (codes "[{\"kind\":\"custom\",\"name\":\"a\"},7]") ≡ Err (BadField (codes "/1")) }
    ensures no_kind { converter_in false (codes "{}") ≡ Err (BadField (codes "/kind")) }
    ensures other_kind { converter_in false (codes "{\"kind\":\"elementToNothing\"}") ≡ Err (BadField (codes "/kind")) }
    ensures no_model { converter_in false (codes "{\"kind\":\"elementToElement\",\"view\":7}") ≡ Err (BadField (codes "/model")) }
    ensures null_attributes { converter_in false (codes "{\"kind\":\"elementToElement\",\"model\":\"p\",\"attributes\":null,\"parent\":7}")
        ≡ Err (BadField (codes "/attributes")) }
    ensures other_parent { converter_in false (codes "{\"kind\":\"elementToStructure\",\"model\":\"p\",\"parent\":\"\"}") ≡ Err (BadField (codes "/parent")) }
    ensures no_view { converter_in false (codes "{\"kind\":\"elementToElement\",\"model\":\"p\",\"priority\":7.5}") ≡ Err (BadField (codes "/view")) }
    ensures no_view_name { converter_in false (codes "{\"kind\":\"elementToElement\",\"model\":\"p\",\"view\":{\"type\":\"ui\"}}")
        ≡ Err (BadField (codes "/view/name")) }
    ensures ui_view { converter_in false (codes "{\"kind\":\"elementToElement\",\"model\":\"p\",\"view\":{\"name\":\"p\",\"type\":\"ui\"}}")
        ≡ Err (BadField (codes "/view/type")) }
    ensures further_of_view { converter_in
        false (codes "{\"kind\":\"elementToElement\",\"model\":\"p\",\"view\":{\"name\":\"p\",\"children\":[]},\"x\":0}")
        ≡ Err (BadField (codes "/view/children")) }
    ensures other_priority { converter_in
        false (codes "{\"kind\":\"elementToElement\",\"model\":\"p\",\"view\":{\"name\":\"p\"},\"priority\":\"higher\",\"a\":0}")
        ≡ Err (BadField (codes "/priority")) }
    ensures further { converter_in false (codes "{\"kind\":\"elementToElement\",\"model\":\"p\",\"view\":{\"name\":\"p\"},\"value\":0,\"element\":0}")
        ≡ Err (BadField (codes "/element")) }
{}

/// The first place that breaks the form of a converter of attributes, of markers and of a product.
pub fn broken_others()
    ensures no_key { converter_in false (codes "{\"kind\":\"attributeToElement\",\"value\":null}") ≡ Err (BadField (codes "/model")) }
    ensures null_value { converter_in false (codes "{\"kind\":\"attributeToElement\",\"model\":\"b\",\"value\":null}") ≡ Err (BadField (codes "/value")) }
    ensures layer_priority { converter_in
        false (codes "{\"kind\":\"attributeToElement\",\"model\":\"b\",\"view\":{\"name\":\"b\",\"priority\":\"high\",\"id\":7}}")
        ≡ Err (BadField (codes "/view/priority")) }
    ensures layer_id { converter_in false (codes "{\"kind\":\"attributeToElement\",\"model\":\"b\",\"view\":{\"name\":\"b\",\"id\":7}}")
        ≡ Err (BadField (codes "/view/id")) }
    ensures element { converter_in false (codes "{\"kind\":\"attributeToAttribute\",\"element\":\"a b\"}") ≡ Err (BadField (codes "/element")) }
    ensures view_key { converter_in false (codes "{\"kind\":\"attributeToAttribute\",\"model\":\"b\",\"view\":{\"value\":7}}")
        ≡ Err (BadField (codes "/view/key")) }
    ensures view_value { converter_in false (codes "{\"kind\":\"attributeToAttribute\",\"model\":\"b\",\"view\":{\"key\":\"k\",\"value\":7}}")
        ≡ Err (BadField (codes "/view/value")) }
    ensures no_marker { converter_in false (codes "{\"kind\":\"markerToHighlight\",\"model\":\"b\"}") ≡ Err (BadField (codes "/marker")) }
    ensures pattern_of_a_marker { converter_in
        false (codes "{\"kind\":\"markerToHighlight\",\"marker\":\"b\",\"view\":{\"attributes\":{\"a\":{\"from\":\"b\"}}}}")
        ≡ Err (BadField (codes "/view/attributes/a")) }
    ensures no_leaf_name { converter_in false (codes "{\"kind\":\"markerToElement\",\"marker\":\"b\",\"view\":{}}") ≡ Err (BadField (codes "/view/name")) }
    ensures further_of_a_leaf { converter_in false (codes "{\"kind\":\"markerToElement\",\"marker\":\"b\",\"view\":{\"name\":\"a\",\"id\":\"b\"}}")
        ≡ Err (BadField (codes "/view/id")) }
    ensures no_name { converter_in false (codes "{\"kind\":\"custom\",\"marker\":\"b\"}") ≡ Err (BadField (codes "/name")) }
    ensures index_in_the_first_version { converter_in false (codes "{\"kind\":\"custom\",\"name\":\"b\",\"index\":\"li\"}") ≡ Err (BadField (codes "/index")) }
    ensures other_index { converter_in true (codes "{\"kind\":\"custom\",\"name\":\"b\",\"index\":null}") ≡ Err (BadField (codes "/index")) }
{}

/// Patterns: where an index may be asked for, exactly one of `from` and `index`.
pub fn patterns()
    ensures text { pattern_in true (codes "\"a\"") ≡ Ok (Text (codes "a")) }
    ensures from { pattern_in true (codes "{\"from\":\"a\"}") ≡ Ok (From (codes "a")) }
    ensures index { pattern_in true (codes "{\"index\":1000000}") ≡ Ok (Index 1000000) }
    ensures over { pattern_in true (codes "{\"index\":1000001}") ≡ Err (BadField (codes "/index")) }
    ensures below { pattern_in true (codes "{\"index\":-1}") ≡ Err (BadField (codes "/index")) }
    ensures both { pattern_in true (codes "{\"from\":\"a\",\"index\":1}") ≡ Err (BadField (codes "/from")) }
    ensures neither { pattern_in true (codes "{}") ≡ Err (BadField (codes "/from")) }
    ensures no_index_here { pattern_in false (codes "{\"index\":1}") ≡ Err (BadField (codes "/from")) }
    ensures index_besides { pattern_in false (codes "{\"from\":\"a\",\"index\":1}") ≡ Err (BadField (codes "/index")) }
    ensures further { pattern_in true (codes "{\"index\":1,\"to\":2}") ≡ Err (BadField (codes "/to")) }
    ensures number { pattern_in true (codes "7") ≡ Err (BadField []) }
    ensures no_key { converter_in true
        (codes "{\"kind\":\"elementToElement\",\"model\":\"p\",\"view\":{\"name\":\"p\",\"attributes\":{\"a\":{\"index\":0},\"b c\":7}}}")
        ≡ Err (BadField (codes "/view/attributes/b c")) }
    ensures without_element { converter_in true (codes "{\"kind\":\"attributeToAttribute\",\"view\":{\"value\":{\"index\":1}}}")
        ≡ Err (BadField (codes "/element")) }
    ensures broken_without_element { converter_in true (codes "{\"kind\":\"attributeToAttribute\",\"model\":\"a\",\"view\":{\"key\":\"k\",\"value\":{\"index\":\"1\"}}}")
        ≡ Err (BadField (codes "/view/value/index")) }
    ensures in_a_layer { converter_in
        true (codes "{\"kind\":\"attributeToElement\",\"model\":\"b\",\"view\":{\"name\":\"b\",\"attributes\":{\"a\":{\"index\":1}}}}")
        ≡ Err (BadField (codes "/view/attributes/a/from")) }
{}

/// Priorities, to the ends of their range.
pub fn priorities()
    ensures greatest { priority_in (codes "{\"priority\":100000}") ≡ Ok (pos 100000) }
    ensures least { priority_in (codes "{\"priority\":-100000}") ≡ Ok (negsuc 99999) }
    ensures over { priority_in (codes "{\"priority\":100001}") ≡ Err (BadField (codes "/priority")) }
    ensures below { priority_in (codes "{\"priority\":-100001}") ≡ Err (BadField (codes "/priority")) }
    ensures word { priority_in (codes "{\"priority\":\"normal\"}") ≡ Ok (pos 0) }
    ensures fraction { priority_in (codes "{\"priority\":1.0}") ≡ Err (BadField (codes "/priority")) }
    ensures null { priority_in (codes "{\"priority\":null}") ≡ Err (BadField (codes "/priority")) }
    ensures absent { priority_in (codes "{}") ≡ Ok (pos 0) }
{}

/// Where nodes of a shape may stand.
pub fn shapes()
    ensures least { shape_in false (codes "{\"name\":\"a\"}") ≡ Ok (element Container (codes "a") [] none) }
    ensures outermost_text { shape_in false (codes "\"a\"") ≡ Err (BadField []) }
    ensures outermost_slot { shape_in false (codes "{\"slot\":true}") ≡ Err (BadField []) }
    ensures outermost_empty { shape_in false (codes "{\"name\":\"a\",\"type\":\"empty\"}") ≡ Err (BadField []) }
    ensures outermost_ui { shape_in false (codes "{\"name\":\"a\",\"type\":\"ui\",\"children\":7}") ≡ Err (BadField []) }
    ensures own_fields_first { shape_in false (codes "{\"name\":\"a\",\"type\":\"empty\",\"attributes\":7}") ≡ Err (BadField (codes "/attributes")) }
    ensures other_type { shape_in false (codes "{\"name\":\"a\",\"type\":\"slot\"}") ≡ Err (BadField (codes "/type")) }
    ensures no_list { shape_in false (codes "{\"name\":\"a\",\"children\":{},\"x\":0}") ≡ Err (BadField (codes "/children")) }
    ensures further { shape_in false (codes "{\"name\":\"a\",\"children\":[],\"x\":0}") ≡ Err (BadField (codes "/x")) }
    ensures text { shape_in false (codes "{\"name\":\"a\",\"children\":[\"x\"]}") ≡ Err (BadField (codes "/children/0")) }
    ensures container_in_ui { shape_in
        false (codes "{\"name\":\"a\",\"children\":[{\"name\":\"b\",\"type\":\"ui\",\"children\":[\"x\",{\"name\":\"c\"}]}]}")
        ≡ Err (BadField (codes "/children/0/children/1")) }
    ensures child_of_empty { shape_in
        false (codes "{\"name\":\"a\",\"children\":[{\"name\":\"b\",\"type\":\"empty\",\"children\":[{\"name\":\"c\"}]}]}")
        ≡ Err (BadField (codes "/children/0/children/0")) }
    ensures slot_in_ui { shape_in false (codes "{\"name\":\"a\",\"children\":[{\"name\":\"b\",\"type\":\"ui\",\"children\":[{\"slot\":true}]}]}")
        ≡ Err (BadField (codes "/children/0/children/0")) }
    ensures second_slot { shape_in false (codes "{\"name\":\"a\",\"children\":[{\"name\":\"b\",\"children\":[{\"slot\":true}]},{\"slot\":true}]}")
        ≡ Err (BadField (codes "/children/1")) }
    ensures false_slot { shape_in false (codes "{\"slot\":false}") ≡ Err (BadField (codes "/slot")) }
    ensures further_of_slot { shape_in false (codes "{\"name\":\"a\",\"children\":[{\"slot\":true,\"name\":\"b\"}]}")
        ≡ Err (BadField (codes "/children/0/name")) }
    ensures number { shape_in false (codes "{\"name\":\"a\",\"children\":[7]}") ≡ Err (BadField (codes "/children/0")) }
{}

/// The limits on shapes: 32 nodes on 8 levels.
pub fn limits()
    ensures eight_levels { shape_in
        false (codes "{\"name\":\"a\",\"children\":[{\"name\":\"a\",\"children\":[{\"name\":\"a\",\"children\":[{\"name\":\"a\",\"children\":[{\"name\":\"a\",\"children\":[{\"name\":\"a\",\"children\":[{\"name\":\"a\",\"children\":[{\"slot\":true}]}]}]}]}]}]}]}")
        ≡ Ok (element Container (codes "a") []
        (more (element Container (codes "a") []
        (more (element Container (codes "a") []
        (more (element Container (codes "a") []
        (more (element Container (codes "a") []
        (more (element Container (codes "a") [] (more (element Container (codes "a") [] (more slot none)) none)) none)) none)) none)) none)) none)) }
    ensures nine_levels { shape_in
        false (codes "{\"name\":\"a\",\"children\":[{\"name\":\"a\",\"children\":[{\"name\":\"a\",\"children\":[{\"name\":\"a\",\"children\":[{\"name\":\"a\",\"children\":[{\"name\":\"a\",\"children\":[{\"name\":\"a\",\"children\":[{\"name\":\"a\",\"children\":[{\"slot\":true}]}]}]}]}]}]}]}]}")
        ≡ Err (BadField (codes "/children/0/children/0/children/0/children/0/children/0/children/0/children/0/children/0")) }
    ensures last_node { shape_in false
        (codes "{\"name\":\"a\",\"children\":[{\"name\":\"b\",\"type\":\"ui\",\"children\":[\"\",\"\",\"\",\"\",\"\",\"\",\"\",\"\",\"\",\"\",\"\",\"\",\"\",\"\",\"\",\"\",\"\",\"\",\"\",\"\",\"\",\"\",\"\",\"\",\"\",\"\",\"\",\"\",\"\"]},{\"slot\":true},7]}")
        ≡ Err (BadField (codes "/children/2")) }
    ensures node_too_many { shape_in
        false (codes "{\"name\":\"a\",\"children\":[{\"name\":\"b\",\"type\":\"ui\",\"children\":[\"\",\"\",\"\",\"\",\"\",\"\",\"\",\"\",\"\",\"\",\"\",\"\",\"\",\"\",\"\",\"\",\"\",\"\",\"\",\"\",\"\",\"\",\"\",\"\",\"\",\"\",\"\",\"\",\"\",\"\"]},{\"slot\":true},7]}")
        ≡ Err (BadField (codes "/children/1")) }
{}
