//! The definitions computed at worked examples. The letters 97 to 100 are `a` to `d`.
ghost use Rattle.std.specs.Prelude.{◌≡◌, ◌∷◌, [], ◌++◌, true, false, pos, negsuc, Some, None};
ghost use Rattle.std.specs.declared.cmp.Ordering.TheVariants.{Less, Equal, Greater};
ghost use Rattle.view_definitions.specs.Node.{container, ui, text, content, depth_of};
ghost use Rattle.view_definitions.specs.Layer.{Layer, layer_cmp, in_layer};
ghost use Rattle.view_definitions.specs.Row.{nest, join};
ghost use Rattle.view_definitions.specs.Change.{IsInOrder, has_layer, with_layer, without_layer, entry_with, entry_without, changed_range};
ghost use Rattle.view_definitions.specs.Place.{node_at, list_at, nearest, changed, changes_of, numbers_of};
ghost use Rattle.view_definitions.specs.Sample.{bold, italic, link, mark, letter, caret_in, a_leaf, an_object, bare_element, paragraph};

/// The lower priority stands outside; then the identity text decides, then the id, none first.
pub fn order()
    ensures priority { layer_cmp (record bold { priority = negsuc 4 }) link ≡ Less }
    ensures higher { layer_cmp (record link { priority = pos 11 }) bold ≡ Greater }
    ensures text { layer_cmp italic bold ≡ Greater }
    ensures attributes { layer_cmp (record link { attrs = [] }) link ≡ Less }
    ensures no_id { layer_cmp (record (mark 1) { id = None }) (mark 1) ≡ Less }
    ensures id { layer_cmp (mark 2) (mark 1) ≡ Greater }
    ensures same { layer_cmp link link ≡ Equal }
{}

/// `a`, bold `b`, bold and italic `c`, italic `d`.
pub fn two_layers()
    ensures { nest (letter 97 [] ∷ letter 98 (bold ∷ []) ∷ letter 99 (bold ∷ italic ∷ []) ∷ letter 100 (italic ∷ []) ∷ [])
        ≡ text (97 ∷ []) ∷ in_layer bold (text (98 ∷ []) ∷ in_layer italic (text (99 ∷ []) ∷ []) ∷ []) ∷ in_layer italic (text (100 ∷ []) ∷ []) ∷ [] }
{}

/// Links over bold over italic, around an object: equal neighbours are one on every level, and neighbouring characters are one text.
pub fn three_layers()
    ensures { nest (letter 97 (link ∷ []) ∷ letter 98 (link ∷ bold ∷ []) ∷ an_object (link ∷ bold ∷ italic ∷ []) ∷ letter 99 (link ∷ bold ∷ italic ∷ [])
        ∷ letter 100 (link ∷ bold ∷ italic ∷ []) ∷ [])
        ≡ in_layer link (text (97 ∷ []) ∷ in_layer bold (text (98 ∷ []) ∷ in_layer italic (bare_element container 111 ∷ text (99 ∷ 100 ∷ []) ∷ []) ∷ [])
        ∷ []) ∷ [] }
{}

/// Different ids and different priorities stay apart, and so do layers on both sides of a leaf.
pub fn apart()
    ensures ids { nest (letter 97 (mark 1 ∷ []) ∷ letter 98 (mark 2 ∷ []) ∷ [])
        ≡ in_layer (mark 1) (text (97 ∷ []) ∷ []) ∷ in_layer (mark 2) (text (98 ∷ []) ∷ []) ∷ [] }
    ensures priorities { nest (letter 97 (bold ∷ []) ∷ letter 98 (record bold { priority = pos 11 } ∷ []) ∷ [])
        ≡ in_layer bold (text (97 ∷ []) ∷ []) ∷ in_layer (record bold { priority = pos 11 }) (text (98 ∷ []) ∷ []) ∷ [] }
    ensures leaf { nest (letter 97 (bold ∷ []) ∷ a_leaf ∷ letter 98 (bold ∷ []) ∷ [])
        ≡ in_layer bold (text (97 ∷ []) ∷ []) ∷ bare_element ui 108 ∷ in_layer bold (text (98 ∷ []) ∷ []) ∷ [] }
{}

/// The caret stands for no node, but keeps equal neighbours apart; texts on both sides of it in one list are one.
pub fn caret()
    ensures alone { nest (letter 97 [] ∷ caret_in (bold ∷ []) ∷ letter 98 [] ∷ [])
        ≡ text (97 ∷ []) ∷ in_layer bold [] ∷ text (98 ∷ []) ∷ [] }
    ensures between { nest (letter 97 (bold ∷ []) ∷ caret_in [] ∷ letter 98 (bold ∷ []) ∷ [])
        ≡ in_layer bold (text (97 ∷ []) ∷ []) ∷ in_layer bold (text (98 ∷ []) ∷ []) ∷ [] }
    ensures in_text { nest (letter 97 (bold ∷ []) ∷ caret_in (bold ∷ []) ∷ letter 98 (bold ∷ []) ∷ [])
        ≡ in_layer bold (text (97 ∷ 98 ∷ []) ∷ []) ∷ [] }
{}

/// Two bold links meet on two levels.
pub fn joined()
    ensures { join (nest (letter 97 (link ∷ []) ∷ letter 98 (link ∷ bold ∷ []) ∷ [])) (nest (letter 99 (link ∷ bold ∷ []) ∷ letter 100 (link ∷ []) ∷ []))
        ≡ in_layer link (text (97 ∷ []) ∷ in_layer bold (text (98 ∷ 99 ∷ []) ∷ []) ∷ text (100 ∷ []) ∷ []) ∷ [] }
{}

/// A layer goes to its place in the order, once, and comes out again; a leaf gets none.
pub fn changed_layers()
    ensures between { with_layer italic (link ∷ bold ∷ mark 1 ∷ []) ≡ link ∷ bold ∷ italic ∷ mark 1 ∷ [] }
    ensures outermost { with_layer link (bold ∷ italic ∷ []) ≡ link ∷ bold ∷ italic ∷ [] }
    ensures once { with_layer bold (link ∷ bold ∷ []) ≡ link ∷ bold ∷ [] }
    ensures other_id { with_layer (mark 2) (mark 1 ∷ []) ≡ mark 1 ∷ mark 2 ∷ [] }
    ensures without { without_layer bold (link ∷ bold ∷ italic ∷ []) ≡ link ∷ italic ∷ [] }
    ensures without_none { without_layer (mark 2) (link ∷ mark 1 ∷ []) ≡ link ∷ mark 1 ∷ [] }
    ensures among { has_layer (mark 1) (link ∷ mark 1 ∷ []) ≡ true }
    ensures not_among { has_layer (mark 2) (link ∷ mark 1 ∷ []) ≡ false }
    ensures in_order { IsInOrder (link ∷ bold ∷ italic ∷ mark 1 ∷ mark 2 ∷ []) }
    ensures range { changed_range (entry_with bold) 1 3 (letter 97 [] ∷ letter 98 [] ∷ a_leaf ∷ letter 99 [] ∷ [])
        ≡ letter 97 [] ∷ letter 98 (bold ∷ []) ∷ a_leaf ∷ letter 99 [] ∷ [] }
    ensures range_without { changed_range (entry_without bold) 0 1 (letter 97 (bold ∷ []) ∷ letter 98 (bold ∷ []) ∷ [])
        ≡ letter 97 [] ∷ letter 98 (bold ∷ []) ∷ [] }
{}

/// Of the elements on the path, the innermost with a number counts a change.
pub fn counts()
    ensures inner { changed (0 ∷ 0 ∷ []) [] (paragraph (Some 3) 0 (paragraph (Some 5) 1 (text (97 ∷ []) ∷ []) ∷ []) ∷ [])
        ≡ paragraph (Some 3) 0 (paragraph (Some 5) 2 [] ∷ []) ∷ [] }
    ensures outer { changed (0 ∷ 0 ∷ []) [] (paragraph (Some 3) 0 (paragraph None 0 (text (97 ∷ []) ∷ []) ∷ []) ∷ [])
        ≡ paragraph (Some 3) 1 (paragraph None 0 [] ∷ []) ∷ [] }
    ensures greatest { changed (0 ∷ []) [] (paragraph (Some 3) 18446744073709551615 (text [] ∷ []) ∷ []) ≡ paragraph (Some 3) 18446744073709551615 [] ∷ [] }
    ensures nearest_inner { nearest (0 ∷ 0 ∷ []) (paragraph (Some 3) 0 (paragraph (Some 5) 1 (text (97 ∷ []) ∷ []) ∷ []) ∷ []) ≡ Some 5 }
    ensures nearest_outer { nearest (0 ∷ 0 ∷ []) (paragraph (Some 3) 0 (paragraph None 0 (text (97 ∷ []) ∷ []) ∷ []) ∷ []) ≡ Some 3 }
    ensures nearest_none { nearest (0 ∷ 0 ∷ []) (paragraph None 0 (paragraph None 0 (text (97 ∷ []) ∷ []) ∷ []) ∷ []) ≡ None }
    ensures none { changed (0 ∷ 0 ∷ []) [] (paragraph None 0 (paragraph None 0 (text (97 ∷ []) ∷ []) ∷ []) ∷ [])
        ≡ paragraph None 0 (paragraph None 0 [] ∷ []) ∷ [] }
    ensures brought { changed (0 ∷ []) (paragraph (Some 4) 6 [] ∷ []) (paragraph (Some 3) 0 (paragraph (Some 5) 1 [] ∷ []) ∷ [])
        ≡ paragraph (Some 3) 1 (paragraph (Some 4) 6 [] ∷ []) ∷ [] }
    ensures of_number { changes_of 5 (text [] ∷ paragraph (Some 3) 0 (paragraph (Some 5) 7 [] ∷ []) ∷ []) ≡ Some 7 }
    ensures numbers { numbers_of (paragraph (Some 3) 0 (paragraph (Some 5) 7 [] ∷ []) ∷ paragraph (Some 4) 0 [] ∷ []) ≡ 3 ∷ 5 ∷ 4 ∷ [] }
    ensures content { content (paragraph (Some 3) 9 [] ∷ []) ≡ paragraph None 0 [] ∷ [] }
    ensures node { node_at (0 ∷ 0 ∷ []) (paragraph None 0 (text (97 ∷ []) ∷ []) ∷ []) ≡ Some (text (97 ∷ [])) }
    ensures no_list { list_at (0 ∷ 0 ∷ []) (paragraph None 0 (text (97 ∷ []) ∷ []) ∷ []) ≡ None }
    ensures depth { depth_of (paragraph None 0 (text (97 ∷ []) ∷ []) ∷ []) ≡ 2 }
{}
