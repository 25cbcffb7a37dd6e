//! Worked examples, computed: each clause is a row.
ghost use Rattle.std.specs.Prelude.{◌≡◌, pos, true, false, [], ◌∷◌, Some, None, codes};
ghost use Rattle.ck_base.specs.declared.value.Value.TheVariants.{Whole, Truth, Text as TextValue};
ghost use Rattle.view_definitions.specs.Layer.{Layer};
ghost use Rattle.converter_definitions.specs.declared.kind.ShapeKind.TheVariants.{Container, Empty, Ui};
ghost use Rattle.converter_definitions.specs.Form.{Form, slot, text, element, none, more};
ghost use Rattle.converter_definitions.specs.Shape.{is_shape, slot_in};
ghost use Rattle.converter_definitions.specs.Views.{with_extra};
ghost use Rattle.converter_definitions.specs.Gives.{Converted, converted};
ghost use Rattle.converter_definitions.specs.Layers.{character_layers, object_layers, leaf_of, goes_on};
ghost use Rattle.converter_definitions.specs.Sample.{sample, class, facts_of, spans, span, on, plain};

/// The converter of a higher priority consumes the element, so the other one doesn't act.
fn headings()
    ensures first_level { converted sample (facts_of (codes "heading") ((codes "level", Whole (pos 1)) ∷ []) (codes "$root") None)
        ≡ Some (record { form = element Container (codes "h1") [] (more slot none); layers = [] }) }
    ensures second_level { converted sample (facts_of (codes "heading") ((codes "level", Whole (pos 2)) ∷ []) (codes "$root") None)
        ≡ Some (record { form = element Container (codes "h2") [] (more slot none); layers = [] }) }
    ensures anchor { converted sample (facts_of (codes "heading") ((codes "anchor", TextValue (codes "a")) ∷ []) (codes "$root") None)
        ≡ Some (record { form = element Container (codes "h2") ((codes "id", codes "a") ∷ []) (more slot none); layers = [] }) }
    ensures no_converter { converted sample (facts_of (codes "table") [] (codes "$root") None) ≡ None }
{}

/// The name of the parent and the index are looked at, and where an attribute isn't there its text isn't written.
fn facts()
    ensures in_a_list_item { converted sample (facts_of (codes "paragraph") [] (codes "listItem") None)
        ≡ Some (record { form = element Container (codes "span") (class (codes "item")) (more slot none); layers = [] }) }
    ensures in_a_quote { converted sample (facts_of (codes "paragraph") [] (codes "quote") None)
        ≡ Some (record { form = element Container (codes "p") [] (more slot none); layers = [] }) }
    ensures second_item { converted sample (facts_of (codes "listItem") [] (codes "$root") (Some 1))
        ≡ Some (record { form = element Container (codes "li") ((codes "data-n", codes "2") ∷ []) (more slot none); layers = [] }) }
    ensures image { converted sample (facts_of (codes "image") ((codes "source", TextValue (codes "s")) ∷ []) (codes "$root") None)
        ≡ Some (record {
          form = element Container (codes "figure") (class (codes "image"))
              (more (element Empty (codes "img") ((codes "src", codes "s") ∷ []) none) none);
          layers = [];
        }) }
    ensures without_source { converted sample (facts_of (codes "image") [] (codes "$root") None)
        ≡ Some (record {
          form = element Container (codes "figure") (class (codes "image"))
              (more (element Empty (codes "img") [] none) none);
          layers = [];
        }) }
{}

/// An attribute of an object in the text gives a layer, and the same attribute of another element gives none.
fn layers_of_elements()
    ensures object { converted sample (facts_of (codes "checkbox") ((codes "bold", Truth true) ∷ []) (codes "paragraph") None)
        ≡ Some (record {
          form = element Empty (codes "input") [] none;
          layers = record { name = codes "strong"; attrs = []; priority = pos 10; id = None } ∷ [];
        }) }
    ensures block { converted sample (facts_of (codes "paragraph") ((codes "bold", Truth true) ∷ []) (codes "$root") None)
        ≡ Some (record { form = element Container (codes "p") [] (more slot none); layers = [] }) }
{}

/// The lower priority stands outside, and a highlight has the marker's name as its id.
fn characters()
    ensures link_outside { character_layers sample ((codes "bold", Truth true) ∷ (codes "link", TextValue (codes "x")) ∷ []) []
        ≡ record { name = codes "a"; attrs = (codes "href", codes "x") ∷ []; priority = pos 5; id = None }
        ∷ record { name = codes "strong"; attrs = []; priority = pos 10; id = None } ∷ [] }
    ensures other_value { character_layers sample ((codes "bold", Truth false) ∷ []) [] ≡ [] }
    ensures commented { character_layers sample [] (codes "bookmark" ∷ codes "comment:1" ∷ [])
        ≡ record { name = codes "span"; attrs = class (codes "comment"); priority = pos 10; id = Some (codes "comment:1") } ∷ [] }
    ensures around_an_object { object_layers sample (record { name = codes "strong"; attrs = []; priority = pos 10; id = None } ∷ []) (codes "comment" ∷ [])
        ≡ record { name = codes "span"; attrs = class (codes "comment"); priority = pos 10; id = Some (codes "comment") }
        ∷ record { name = codes "strong"; attrs = []; priority = pos 10; id = None } ∷ [] }
{}

/// A converter for a marker fits the markers of its group.
fn groups()
    ensures itself { goes_on (codes "comment") (codes "comment") ≡ true }
    ensures group { goes_on (codes "comment") (codes "comment:1") ≡ true }
    ensures longer { goes_on (codes "comment") (codes "comments") ≡ false }
    ensures shorter { goes_on (codes "comment") (codes "com") ≡ false }
    ensures leaf { leaf_of sample.converters (codes "bookmark:b") ≡ Some (record { name = codes "a"; attrs = class (codes "bookmark") }) }
    ensures no_leaf { leaf_of sample.converters (codes "comment") ≡ None }
{}

/// Layers of one name without ids are joined where the settings say so and where no key has two texts.
fn joined()
    ensures apart { character_layers (spans false (codes "class", codes "b") (codes "lang", codes "i")) on []
        ≡ span (class (codes "b")) ∷ span ((codes "lang", codes "i") ∷ []) ∷ [] }
    ensures one { character_layers (spans true (codes "class", codes "b") (codes "lang", codes "i")) on []
        ≡ span ((codes "class", codes "b") ∷ (codes "lang", codes "i") ∷ []) ∷ [] }
    ensures two_texts { character_layers (spans true (codes "class", codes "b") (codes "class", codes "i")) on []
        ≡ span (class (codes "b")) ∷ span (class (codes "i")) ∷ [] }
{}

/// A class goes behind the class that is there, also behind an empty one; any other text that is there stays.
fn extras()
    ensures class { with_extra (class (codes "a")) (class (codes "b")) ≡ class (codes "a b") }
    ensures empty_class { with_extra (class []) (class (codes "b")) ≡ class (codes " b") }
    ensures other { with_extra ((codes "id", codes "a") ∷ []) ((codes "id", codes "b") ∷ (codes "lang", codes "c") ∷ [])
        ≡ (codes "id", codes "a") ∷ (codes "lang", codes "c") ∷ [] }
{}

/// What may be a shape, and where its slot is.
fn shapes()
    ensures container { is_shape (plain Container (codes "p") (more slot none)) ≡ true }
    ensures two_slots { is_shape (plain Container (codes "p") (more slot (more slot none))) ≡ false }
    ensures text { is_shape (plain Container (codes "p") (more (text (codes "a")) none)) ≡ false }
    ensures text_in_ui { is_shape (plain Container (codes "p") (more (plain Ui (codes "b") (more (text (codes "a")) none)) none)) ≡ true }
    ensures ui_outermost { is_shape (plain Ui (codes "p") none) ≡ false }
    ensures slot_in_empty { is_shape (plain Empty (codes "p") (more slot none)) ≡ false }
    ensures place { slot_in (plain Container (codes "f")
        (more (plain Ui (codes "b") none) (more (plain Container (codes "s") (more slot none)) none))) ≡ Some (1 ∷ 0 ∷ []) }
    ensures nowhere { slot_in (plain Empty (codes "p") none) ≡ None }
{}
