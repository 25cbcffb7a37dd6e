//! Worked examples, computed: each clause is a row.
#![tactic(auto, unfolding(crate::specs::Places::place_of, crate::specs::Taking::tried, crate::specs::Up::made_attributes, crate::specs::Up::with_text, schema_definitions::specs::Allowed::allowed_parent, schema_definitions::specs::Allowed::check_child, schema_definitions::specs::Allowed::child_answer, schema_definitions::specs::Allowed::check_attribute, schema_definitions::specs::Allowed::attribute_answer, schema_definitions::specs::Rules::children_of, schema_definitions::specs::Rules::keys_of, schema_definitions::specs::Rules::items_with, schema_definitions::specs::Reachable::reachable, schema_definitions::specs::Compiled::predefined))]

ghost use Rattle.std.specs.Prelude.{◌≡◌, ◌++◌, pos, true, false, [], ◌∷◌, None, codes};
ghost use Rattle.ck_base.specs.declared.value.Value.TheVariants.{Whole, Truth, Text as TextValue};
ghost use Rattle.upcast_definitions.specs.declared.rule.Source.TheVariants.{Value, From};
ghost use Rattle.upcast_definitions.specs.declared.rule.UpcastRule.TheVariants.{Element, Key, Attribute};
ghost use Rattle.upcast_definitions.specs.Form.{text, element as view_element, forms_of, depth_of};
ghost use Rattle.upcast_definitions.specs.Order.{added};
ghost use Rattle.upcast_definitions.specs.Sample.{becomes, sets, hands_on, tag, img, link_to, lists_in_lists, letters, with_items};
ghost use Rattle.upcast_definitions.specs.Sample.{par, text_par, image, bold, read};
ghost use Rattle.upcast_definitions.specs.Sample.{read_by, user, classed, mention, of_user, three_lists};

/// Rules are tried in their order, and each takes what it consumes: the name, and the attributes that it asks for. One that finds no place takes nothing.
pub fn rules()
    ensures name_once { read_by (becomes (codes "x") [] (codes "quote") [] ∷ sets (codes "x") (codes "bold") (Value (Truth true)) ∷ [])
        (tag (codes "x") (text (codes "a") ∷ []) ∷ []) ≡ with_items (codes "quote") [] (text_par (codes "a") ∷ []) ∷ [] }
    ensures no_place { read_by (becomes (codes "x") [] (codes "table") [] ∷ sets (codes "x") (codes "bold") (Value (Truth true)) ∷ [])
        (tag (codes "x") (text (codes "a") ∷ []) ∷ []) ≡ par (letters bold (codes "a")) ∷ [] }
    ensures with { read (tag (codes "p") (user ∷ tag (codes "m") (text (codes "x") ∷ []) ∷ []) ∷ []) ≡ par (mention of_user ∷ letters [] (codes "x")) ∷ [] }
    ensures other_class { read (tag (codes "p") (classed (codes "m") (codes "other") (codes "x") ∷ []) ∷ []) ≡ text_par (codes "x") ∷ [] }
{}

/// A rule for an attribute takes it, also where no element is made; so a later rule that asks for it doesn't act. An earlier one keeps it from that rule.
pub fn attributes_taken()
    ensures before { read_by (Attribute (codes "class") None (codes "user") (pos 0) ∷ becomes (codes "m") ((codes "class", codes "user")
        ∷ []) (codes "mention") [] ∷ [])
        (classed (codes "m") (codes "user") (codes "x") ∷ []) ≡ text_par (codes "x") ∷ [] }
    ensures behind { read_by (becomes (codes "m") ((codes "class", codes "user") ∷ []) (codes "mention") []
        ∷ Attribute (codes "class") None (codes "user") (pos 0) ∷ [])
        (classed (codes "m") (codes "user") (codes "x") ∷ []) ≡ par (mention [] ∷ []) ∷ [] }
{}

/// The order of rules: a rule that is added stands behind those of equal or higher priority.
pub fn order()
    ensures higher { added (Attribute (codes "a") None (codes "x") (pos 1)) (Attribute (codes "b") None (codes "x") (pos 0) ∷ [])
        ≡ Attribute (codes "a") None (codes "x") (pos 1) ∷ Attribute (codes "b") None (codes "x") (pos 0) ∷ [] }
    ensures equal { added (Attribute (codes "a") None (codes "x") (pos 0)) (Attribute (codes "b") None (codes "x") (pos 0) ∷ [])
        ≡ Attribute (codes "b") None (codes "x") (pos 0) ∷ Attribute (codes "a") None (codes "x") (pos 0) ∷ [] }
{}

/// An element is placed in the innermost ancestor that allows it: those in that one are cut. Else it goes into a paragraph that is added, where that
/// helps, and else the rule does nothing. A limit that doesn't allow it lets it go no further up.
pub fn places()
    ensures here { read (tag (codes "li") (tag (codes "p") (text (codes "a") ∷ []) ∷ []) ∷ [])
        ≡ with_items (codes "listItem") [] (text_par (codes "a") ∷ []) ∷ [] }
    ensures round { read (tag (codes "p") (text (codes "foo") ∷ img (codes "s") ∷ text (codes "bar") ∷ []) ∷ [])
        ≡ text_par (codes "foo") ∷ image (codes "s") ∷ text_par (codes "bar") ∷ [] }
    ensures two_cut { read (tag (codes "q") (tag (codes "q") (tag (codes "p")
        (text (codes "a") ∷ tag (codes "q") (text (codes "b") ∷ []) ∷ text (codes "c") ∷ []) ∷ []) ∷ []) ∷ [])
        ≡ with_items (codes "quote") [] (with_items (codes "quote") [] (text_par (codes "a") ∷ []) ∷ with_items (codes "quote") [] (text_par (codes "b") ∷ [])
        ∷ with_items (codes "quote") [] (text_par (codes "c") ∷ []) ∷ []) ∷ [] }
    ensures in_paragraph { read (user ∷ []) ≡ par (mention of_user ∷ []) ∷ [] }
    ensures in_limit { read (view_element (codes "img") [] (forms_of (tag (codes "p") (text (codes "a") ∷ []) ∷ [])) ∷ [])
        ≡ with_items (codes "image") [] [] ∷ [] }
{}

/// An element that is made has what its rule sets, and else what rules for attributes add, the first of them; keys that it may not have there are left
/// out, and so are those whose text isn't there or is too long.
pub fn own_attributes()
    ensures both { read_by (becomes (codes "h2") [] (codes "heading") ((codes "level", Value (Whole (pos 2))) ∷ [])
        ∷ hands_on (codes "id") (codes "h2") (codes "anchor") ∷ [])
        (view_element (codes "h2") ((codes "id", codes "x") ∷ []) (forms_of (text (codes "T") ∷ [])) ∷ [])
        ≡ with_items (codes "heading") ((codes "anchor", TextValue (codes "x")) ∷ (codes "level", Whole (pos 2)) ∷ []) (letters [] (codes "T")) ∷ [] }
    ensures set_wins { read_by (Attribute (codes "id") None (codes "anchor") (pos 0)
        ∷ becomes (codes "h") [] (codes "heading") ((codes "anchor", Value (Truth true)) ∷ []) ∷ [])
        (view_element (codes "h") ((codes "id", codes "x") ∷ []) (forms_of []) ∷ [])
        ≡ with_items (codes "heading") ((codes "anchor", Truth true) ∷ []) [] ∷ [] }
    ensures first_wins { read_by (Attribute (codes "id") None (codes "anchor") (pos 0) ∷ Attribute (codes "name") None (codes "anchor") (pos 0)
        ∷ becomes (codes "h") [] (codes "heading") [] ∷ [])
        (view_element (codes "h") ((codes "id", codes "x") ∷ (codes "name", codes "y") ∷ []) (forms_of []) ∷ [])
        ≡ with_items (codes "heading") ((codes "anchor", TextValue (codes "x")) ∷ []) [] ∷ [] }
    ensures denied { read_by (becomes (codes "x") [] (codes "paragraph") ((codes "level", Value (Whole (pos 1))) ∷ []) ∷ []) (tag (codes "x") []
        ∷ []) ≡ par [] ∷ [] }
    ensures no_text { read (tag (codes "img") [] ∷ []) ≡ with_items (codes "image") [] [] ∷ [] }
{}

/// What is in an element goes to its place where the element itself is passed over. A rule for a key sets the key on it.
pub fn passed_over()
    ensures element { read (tag (codes "div") (tag (codes "p") (text (codes "a") ∷ []) ∷ []) ∷ []) ≡ text_par (codes "a") ∷ [] }
    ensures key { read (tag (codes "p") (tag (codes "b") (text (codes "a") ∷ []) ∷ []) ∷ []) ≡ par (letters bold (codes "a")) ∷ [] }
    ensures no_value { read (tag (codes "p") (tag (codes "a") (text (codes "t") ∷ []) ∷ []) ∷ []) ≡ text_par (codes "t") ∷ [] }
    ensures added_goes_on { read (tag (codes "div") (text (codes "a") ∷ []) ∷ text (codes "b") ∷ []) ≡ text_par (codes "ab") ∷ [] }
    ensures added_ends { read (tag (codes "q") (text (codes "a") ∷ []) ∷ text (codes "b") ∷ [])
        ≡ with_items (codes "quote") [] (text_par (codes "a") ∷ []) ∷ text_par (codes "b") ∷ [] }
{}

/// A text goes to the cursor, or into a paragraph that is added where it is more than white space, whole as it is; or it is dropped.
pub fn texts()
    ensures added { read (text (codes "a") ∷ []) ≡ text_par (codes "a") ∷ [] }
    ensures blank { read (text (codes " ") ∷ []) ≡ [] }
    ensures whole { read (text (codes " a ") ∷ []) ≡ text_par (codes " a ") ∷ [] }
    ensures blank_behind { read (text (codes "a") ∷ text (codes " ") ∷ []) ≡ text_par (codes "a ") ∷ [] }
    ensures blank_before { read (text (codes " ") ∷ text (codes "a") ∷ []) ≡ text_par (codes "a") ∷ [] }
    ensures in_object { read (tag (codes "p") (view_element (codes "m") ((codes "class", codes "user") ∷ []) (forms_of (text (codes "x") ∷ [])) ∷ []) ∷ [])
        ≡ par (mention [] ∷ []) ∷ [] }
    ensures empty { read (text [] ∷ []) ≡ [] }
{}

/// Keys are set on characters and on objects in the text that may have them, through elements that are placed; the inner key wins over the outer, and what
/// an object has of its own over both.
pub fn keys()
    ensures inner { read_by (becomes (codes "p") [] (codes "paragraph") [] ∷ sets (codes "a") (codes "link") (From (codes "href")) ∷ [])
        (tag (codes "p") (link_to (codes "x") (link_to (codes "y") (text (codes "t") ∷ []) ∷ []) ∷ []) ∷ [])
        ≡ par (letters ((codes "link", TextValue (codes "y")) ∷ []) (codes "t")) ∷ [] }
    ensures both { read (tag (codes "p") (tag (codes "b") (text (codes "x") ∷ tag (codes "i") (text (codes "y") ∷ []) ∷ []) ∷ []) ∷ [])
        ≡ par (letters bold (codes "x") ++ letters ((codes "bold", Truth true) ∷ (codes "italic", Truth true) ∷ []) (codes "y")) ∷ [] }
    ensures object { read (tag (codes "p") (tag (codes "b") (user ∷ []) ∷ []) ∷ []) ≡ par (mention ((codes "bold", Truth true) ∷ of_user) ∷ []) ∷ [] }
    ensures through { read (tag (codes "b") (tag (codes "p") (text (codes "a") ∷ []) ∷ []) ∷ []) ≡ par (letters bold (codes "a")) ∷ [] }
    ensures no_text { read (tag (codes "b") (img (codes "s") ∷ []) ∷ []) ≡ image (codes "s") ∷ [] }
    ensures own { read_by (sets (codes "b") (codes "bold") (Value (Truth true))
        ∷ becomes (codes "x") [] (codes "mention") ((codes "bold", Value (Truth false)) ∷ []) ∷ [])
        (tag (codes "b") (tag (codes "x") [] ∷ []) ∷ []) ≡ par (mention ((codes "bold", Truth false) ∷ []) ∷ []) ∷ [] }
{}

/// An element stands also where nothing is in it. Of one that was cut only the parts stand in which there is something; an added paragraph that was cut
/// stands again as a part.
pub fn parts()
    ensures empty { read (tag (codes "p") [] ∷ []) ≡ par [] ∷ [] }
    ensures at_start { read (tag (codes "p") (img (codes "s") ∷ text (codes "bar") ∷ []) ∷ []) ≡ image (codes "s") ∷ text_par (codes "bar") ∷ [] }
    ensures only_cut { read (tag (codes "p") (img (codes "s") ∷ []) ∷ []) ≡ image (codes "s") ∷ [] }
    ensures between { read (tag (codes "p") (text (codes "a") ∷ tag (codes "q") [] ∷ text (codes "b") ∷ []) ∷ [])
        ≡ text_par (codes "a") ∷ with_items (codes "quote") [] [] ∷ text_par (codes "b") ∷ [] }
    ensures outer_cut { read (tag (codes "q") (tag (codes "q") (tag (codes "q") (text (codes "a") ∷ []) ∷ []) ∷ []) ∷ [])
        ≡ with_items (codes "quote") [] (with_items (codes "quote") [] (text_par (codes "a") ∷ []) ∷ []) ∷ [] }
    ensures added { read (text (codes "a") ∷ img (codes "s") ∷ text (codes " ") ∷ []) ≡ text_par (codes "a") ∷ image (codes "s") ∷ text_par (codes " ") ∷ [] }
    ensures none_added { read (img (codes "s") ∷ text (codes " ") ∷ []) ≡ image (codes "s") ∷ [] }
{}

/// Two lists, and how deep a view of lists in lists is.
pub fn lists()
    ensures two { read (lists_in_lists 3 (tag (codes "p") (text (codes "a") ∷ []) ∷ []) ++ lists_in_lists 3 (tag (codes "p") (text (codes "b") ∷ []) ∷ []))
        ≡ three_lists (codes "a") ∷ three_lists (codes "b") ∷ [] }
    ensures deep { depth_of (lists_in_lists 65 []) ≡ 65 }
{}
