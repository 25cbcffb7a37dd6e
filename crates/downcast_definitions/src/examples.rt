//! Worked examples, computed: each clause is a row. In a place of the view the first number leads to the paragraph.
ghost use Rattle.std.specs.Prelude.{◌≡◌, [], ◌∷◌, ◌++◌, true, false, Some, None, codes};
ghost use Rattle.view_definitions.specs.Node.{container, empty, ui, text, nodes_of};
ghost use Rattle.view_definitions.specs.Layer.{in_layer};
ghost use Rattle.converter_definitions.specs.Sample.{sample, class};
ghost use Rattle.downcast_definitions.specs.Rows.{downcast};
ghost use Rattle.downcast_definitions.specs.Scene.{has_caret, caret_of};
ghost use Rattle.downcast_definitions.specs.Seen.{content_place, seen};
ghost use Rattle.downcast_definitions.specs.Meant.{meant};
ghost use Rattle.downcast_definitions.specs.Shown.{HasShapes, IsShown};
ghost use Rattle.downcast_definitions.specs.Among.{place_among, gap_among};
ghost use Rattle.downcast_definitions.specs.Rule.{kind_at, layers_to, parent_at};
ghost use Rattle.downcast_definitions.specs.Sample.{letters, bold, italic, both, holding, paragraph, at, document, one_paragraph, overriding, marker, made, p};
ghost use Rattle.downcast_definitions.specs.Sample.{strong, slanted, comment};

/// Bold on `bc` and italic on `cd`: the layers nest by their identity texts.
fn two_layers()
    ensures { downcast sample (one_paragraph
        (letters [] (codes "a") ++ (letters bold (codes "b") ++ (letters both (codes "c") ++ letters italic (codes "d")))) [])
        ≡ p (text (codes "a") ∷ in_layer strong (text (codes "b") ∷ [])
        ∷ in_layer slanted (in_layer strong (text (codes "c") ∷ []) ∷ text (codes "d") ∷ []) ∷ []) ∷ [] }
{}

/// What is inserted at the ends of a marker is not in its highlight.
fn highlight()
    ensures { downcast sample (one_paragraph (letters [] (codes "aybcxd")) (marker (codes "comment") (0 ∷ 2 ∷ []) (0 ∷ 4 ∷ [])))
        ≡ p (text (codes "ay") ∷ in_layer comment (text (codes "bc") ∷ []) ∷ text (codes "xd") ∷ []) ∷ [] }
{}

/// A collapsed marker has one leaf, behind which the position there is seen.
fn leaf()
    ensures view { downcast sample (one_paragraph (holding 2 (codes "checkbox") [] ∷ holding 3 (codes "checkbox") [] ∷ [])
        (marker (codes "bookmark") (0 ∷ 1 ∷ []) (0 ∷ 1 ∷ [])))
        ≡ p (made empty (codes "input") [] [] ∷ made ui (codes "a") (class (codes "bookmark")) [] ∷ made empty (codes "input") [] [] ∷ []) ∷ [] }
    ensures place { seen sample (one_paragraph (holding 2 (codes "checkbox") [] ∷ holding 3 (codes "checkbox") [] ∷ [])
        (marker (codes "bookmark") (0 ∷ 1 ∷ []) (0 ∷ 1 ∷ []))) (0 ∷ 1 ∷ [])
        ≡ 0 ∷ 2 ∷ [] }
    ensures meant { meant sample (one_paragraph (holding 2 (codes "checkbox") [] ∷ holding 3 (codes "checkbox") [] ∷ [])
        (marker (codes "bookmark") (0 ∷ 1 ∷ []) (0 ∷ 1 ∷ []))) (0 ∷ 2 ∷ [])
        ≡ Some (0 ∷ 1 ∷ []) }
{}

/// A position is seen in the text around it, and a place in a text means the position there.
fn texts()
    ensures behind { seen sample (one_paragraph (letters [] (codes "Hi")) []) (0 ∷ 2 ∷ []) ≡ 0 ∷ 0 ∷ 2 ∷ [] }
    ensures start { seen sample (one_paragraph (letters [] (codes "Hi")) []) (0 ∷ 0 ∷ []) ≡ 0 ∷ 0 ∷ 0 ∷ [] }
    ensures empty { seen sample (one_paragraph [] []) (0 ∷ 0 ∷ []) ≡ 0 ∷ 0 ∷ [] }
    ensures root { seen sample (one_paragraph [] []) (1 ∷ []) ≡ 1 ∷ [] }
    ensures in_strong { seen sample (one_paragraph (letters [] (codes "a") ++ letters bold (codes "b")) []) (0 ∷ 2 ∷ []) ≡ 0 ∷ 1 ∷ 0 ∷ 1 ∷ [] }
    ensures between { seen sample (one_paragraph (letters [] (codes "a") ++ letters bold (codes "b")) []) (0 ∷ 1 ∷ []) ≡ 0 ∷ 0 ∷ 1 ∷ [] }
    ensures meant { meant sample (one_paragraph (letters [] (codes "Hi")) []) (0 ∷ 0 ∷ 1 ∷ []) ≡ Some (0 ∷ 1 ∷ []) }
    ensures meant_in_strong { meant sample (one_paragraph (letters [] (codes "a") ++ letters bold (codes "b")) []) (0 ∷ 1 ∷ 0 ∷ 0 ∷ []) ≡ Some (0 ∷ 1 ∷ []) }
    ensures nowhere { meant sample (one_paragraph (letters [] (codes "Hi")) []) (0 ∷ 1 ∷ 0 ∷ []) ≡ None }
    ensures behind_the_text { meant sample (one_paragraph (letters [] (codes "Hi")) []) (0 ∷ 0 ∷ 3 ∷ []) ≡ None }
{}

/// Behind a character a position is seen in its text, before the leaf that stands there.
fn before_the_leaf()
    ensures { seen sample (one_paragraph (letters [] (codes "a")) (marker (codes "bookmark") (0 ∷ 1 ∷ []) (0 ∷ 1 ∷ []))) (0 ∷ 1 ∷ []) ≡ 0 ∷ 0 ∷ 1 ∷ [] }
{}

/// An element's index counts the elements before it, and not the characters.
fn indexes()
    ensures { downcast sample (document (letters [] (codes "a") ++ (holding 1 (codes "listItem") [] ∷ holding 2 (codes "listItem") [] ∷ [])) [] (at (0 ∷ [])))
        ≡ text (codes "a") ∷ made container (codes "li") ((codes "data-n", codes "1") ∷ []) []
        ∷ made container (codes "li") ((codes "data-n", codes "2") ∷ []) [] ∷ [] }
{}

/// Between two objects in one attribute element a position is seen in it.
fn in_a_layer()
    ensures { seen sample (document (paragraph (holding 2 (codes "checkbox") [] ∷ holding 3 (codes "checkbox") [] ∷ []) ∷ [])
        (marker (codes "comment") (0 ∷ 0 ∷ []) (0 ∷ 2 ∷ [])) (at (0 ∷ 0 ∷ []))) (0 ∷ 1 ∷ []) ≡ 0 ∷ 0 ∷ 1 ∷ [] }
{}

/// The caret in other layers than the text around it: in an empty attribute element, between two of one layer, in the next one, and in a
/// highlight.
fn carets()
    ensures alone { downcast sample (overriding (Some true) (letters [] (codes "ab")) [])
        ≡ p (text (codes "a") ∷ in_layer strong [] ∷ text (codes "b") ∷ []) ∷ [] }
    ensures alone_seen { seen sample (overriding (Some true) (letters [] (codes "ab")) []) (0 ∷ 1 ∷ []) ≡ 0 ∷ 1 ∷ 0 ∷ [] }
    ensures between { downcast sample (overriding None (letters bold (codes "ab")) [])
        ≡ p (in_layer strong (text (codes "a") ∷ []) ∷ in_layer strong (text (codes "b") ∷ []) ∷ []) ∷ [] }
    ensures between_seen { seen sample (overriding None (letters bold (codes "ab")) []) (0 ∷ 1 ∷ []) ≡ 0 ∷ 1 ∷ [] }
    ensures next { downcast sample (overriding (Some true) (letters [] (codes "a") ++ letters bold (codes "b")) [])
        ≡ p (text (codes "a") ∷ in_layer strong (text (codes "b") ∷ []) ∷ []) ∷ [] }
    ensures next_seen { seen sample (overriding (Some true) (letters [] (codes "a") ++ letters bold (codes "b")) []) (0 ∷ 1 ∷ []) ≡ 0 ∷ 1 ∷ 0 ∷ 0 ∷ [] }
    ensures commented { downcast sample (overriding (Some true) (letters [] (codes "ab")) (marker (codes "comment") (0 ∷ 0 ∷ []) (0 ∷ 2 ∷ [])))
        ≡ p (in_layer comment (text (codes "a") ∷ in_layer strong [] ∷ text (codes "b") ∷ []) ∷ []) ∷ [] }
    ensures commented_seen { seen sample (overriding (Some true) (letters [] (codes "ab")) (marker (codes "comment") (0 ∷ 0 ∷ []) (0 ∷ 2 ∷ [])))
        (0 ∷ 1 ∷ []) ≡ 0 ∷ 0 ∷ 1 ∷ 0 ∷ [] }
{}

/// A position in an element without a slot is seen before it, and a place in it means nothing.
fn hidden()
    ensures view { downcast sample (document (holding 1 (codes "image") (letters [] (codes "a")) ∷ []) [] (at (0 ∷ [])))
        ≡ made container (codes "figure") (class (codes "image")) (made empty (codes "img") [] [] ∷ []) ∷ [] }
    ensures place { seen sample (document (holding 1 (codes "image") (letters [] (codes "a")) ∷ []) [] (at (0 ∷ []))) (0 ∷ 1 ∷ []) ≡ 0 ∷ [] }
    ensures inline { seen sample (one_paragraph (letters [] (codes "a") ++ (holding 2 (codes "checkbox") (letters [] (codes "b")) ∷ [])) [])
        (0 ∷ 1 ∷ 0 ∷ []) ≡ 0 ∷ 0 ∷ 1 ∷ [] }
    ensures meant { meant sample (document (holding 1 (codes "image") (letters [] (codes "a")) ∷ []) [] (at (0 ∷ []))) (0 ∷ 0 ∷ []) ≡ None }
{}

/// Elements that are containers or empty, each of one element of the view: a position in a container is shown, and one in an empty element
/// isn't.
fn shown()
    ensures shapes { HasShapes sample (one_paragraph (letters [] (codes "a") ++ (holding 2 (codes "checkbox") (letters [] (codes "b")) ∷ [])) []) }
    ensures in_paragraph { IsShown sample (one_paragraph (letters [] (codes "a") ++ (holding 2 (codes "checkbox") (letters [] (codes "b")) ∷ [])) [])
        (0 ∷ 1 ∷ []) }
    ensures in_checkbox { IsShown sample (one_paragraph (letters [] (codes "a") ++ (holding 2 (codes "checkbox") (letters [] (codes "b")) ∷ [])) [])
        (0 ∷ 1 ∷ 0 ∷ []) → ⊥ }
{}

/// What the rule looks at: the parent of a position, whether the caret stands there, and the places among the nodes of the parent's content. Between
/// two objects it is behind the leaf there, and in the attribute element that goes on across it.
fn rule()
    ensures parent { parent_at (one_paragraph (letters [] (codes "ab")) []) (0 ∷ 1 ∷ []) ≡ Some (codes "paragraph", letters [] (codes "ab")) }
    ensures content { content_place sample (one_paragraph (letters [] (codes "ab")) []) (0 ∷ 1 ∷ []) ≡ 0 ∷ 1 ∷ [] }
    ensures no_caret { has_caret (caret_of sample (one_paragraph (letters [] (codes "ab")) [])) (0 ∷ 1 ∷ []) ≡ false }
    ensures caret { has_caret (caret_of sample (overriding (Some true) (letters [] (codes "ab")) [])) (0 ∷ 1 ∷ []) ≡ true }
    ensures caret_layers { layers_to (nodes_of (text (codes "a") ∷ in_layer strong [] ∷ text (codes "b") ∷ [])) (1 ∷ 0 ∷ []) ≡ Some (strong ∷ []) }
    ensures no_layers { layers_to (nodes_of (p [] ∷ [])) (0 ∷ 0 ∷ []) ≡ None }
    ensures behind { place_among 1 (nodes_of (in_layer strong (text (codes "ab") ∷ []) ∷ [])) 0 0 ≡ 0 ∷ 0 ∷ 1 ∷ [] }
    ensures in_text { kind_at (nodes_of (in_layer strong (text (codes "ab") ∷ []) ∷ [])) (0 ∷ 0 ∷ 1 ∷ []) ≡ Some true }
    ensures at_start { kind_at (nodes_of (in_layer strong (text (codes "ab") ∷ []) ∷ [])) (0 ∷ 0 ∷ 0 ∷ []) ≡ Some false }
    ensures in_no_text { kind_at (nodes_of (in_layer strong (text (codes "ab") ∷ []) ∷ [])) (0 ∷ 1 ∷ []) ≡ None }
    ensures leaf { gap_among (nodes_of (made empty (codes "input") [] [] ∷ made ui (codes "a") [] [] ∷ made empty (codes "input") [] [] ∷ [])) 1 0 ≡ 2 ∷ [] }
    ensures across { gap_among (nodes_of (in_layer comment (made empty (codes "input") [] [] ∷ made empty (codes "input") [] [] ∷ []) ∷ [])) 1 0 ≡ 0 ∷ 1 ∷ [] }
{}
