//! Worked examples, computed: each clause is a row.
#![tactic(auto, unfolding(crate::specs::Allowed::check_child, crate::specs::Allowed::child_answer, crate::specs::Allowed::check_attribute, crate::specs::Allowed::attribute_answer, crate::specs::Allowed::allowed_parent, crate::specs::Allowed::registered, crate::specs::Allowed::inline_objects, crate::specs::Rules::children_of, crate::specs::Rules::keys_of, crate::specs::Rules::items_with, crate::specs::Reachable::reachable, crate::specs::Compiled::predefined, crate::specs::Compiled::refusal, crate::specs::Compiled::first_unknown, crate::specs::Compiled::first_bad_check))]

ghost use Rattle.std.specs.Prelude.{◌≡◌, true, false, [], ◌∷◌, Some, None, codes};
ghost use Rattle.schema_definitions.specs.Allowed.{check_child, check_attribute, allowed_parent, registered, inline_objects, is_block, is_inline, is_limit};
ghost use Rattle.schema_definitions.specs.Allowed.{is_object, is_selectable, is_content};
ghost use Rattle.schema_definitions.specs.Compiled.{bare, refusal};
ghost use Rattle.schema_definitions.specs.Sample.{sample, with_more, circle, flags};
ghost use Rattle.schema_definitions.specs.declared.file.Subject.TheVariants.{Item, Extend};
ghost use Rattle.schema_definitions.specs.declared.file.Check.TheVariants.{Child, Attribute};
ghost use Rattle.schema_definitions.specs.declared.fault.SchemaFault.TheVariants.{TwiceRegistered, UnknownItem, BadCheck};

/// What stands where: each item is tested with all its ancestors.
fn children()
    ensures paragraph { check_child sample (codes "$root" ∷ []) (codes "paragraph") ≡ true }
    ensures text { check_child sample (codes "$root" ∷ codes "paragraph" ∷ []) (codes "$text") ≡ true }
    ensures text_in_root { check_child sample (codes "$root" ∷ []) (codes "$text") ≡ false }
    ensures mention { check_child sample (codes "$root" ∷ codes "paragraph" ∷ []) (codes "mention") ≡ true }
    ensures mention_in_root { check_child sample (codes "$root" ∷ []) (codes "mention") ≡ false }
    ensures below_what_may_not_be { check_child sample
        (codes "$root" ∷ codes "image" ∷ codes "paragraph" ∷ []) (codes "$text") ≡ false }
    ensures nowhere { check_child sample [] (codes "paragraph") ≡ false }
{}

/// A quote may stand in a quote, and not in a quote in a quote.
fn quotes()
    ensures first { check_child sample (codes "$root" ∷ []) (codes "quote") ≡ true }
    ensures second { check_child sample (codes "$root" ∷ codes "quote" ∷ []) (codes "quote") ≡ true }
    ensures third { check_child sample
        (codes "$root" ∷ codes "quote" ∷ codes "quote" ∷ []) (codes "quote") ≡ false }
    ensures not_the_end { check_child sample
        (codes "$root" ∷ codes "quote" ∷ codes "quote" ∷ codes "listItem" ∷ []) (codes "quote") ≡ true }
    ensures first_check_decides { check_child
        (with_more [] (Child (codes "quote") (codes "quote" ∷ []) true ∷ []))
        (codes "$root" ∷ codes "quote" ∷ codes "quote" ∷ []) (codes "quote") ≡ false }
{}

/// Attributes, as the entries and as checks allow them.
fn attributes()
    ensures bold { check_attribute sample
        (codes "$root" ∷ codes "paragraph" ∷ []) (codes "$text") (codes "bold") ≡ true }
    ensures of_another { check_attribute sample
        (codes "$root" ∷ codes "paragraph" ∷ []) (codes "mention") (codes "bold") ≡ true }
    ensures on_a_paragraph { check_attribute sample
        (codes "$root" ∷ []) (codes "paragraph") (codes "bold") ≡ false }
    ensures by_a_check { check_attribute
        (with_more [] (Attribute (codes "bold") (codes "heading" ∷ codes "$text" ∷ []) false ∷ []))
        (codes "$root" ∷ codes "heading" ∷ []) (codes "$text") (codes "bold") ≡ false }
    ensures elsewhere { check_attribute
        (with_more [] (Attribute (codes "bold") (codes "heading" ∷ codes "$text" ∷ []) false ∷ []))
        (codes "$root" ∷ codes "paragraph" ∷ []) (codes "$text") (codes "bold") ≡ true }
{}

/// Items in a circle have what each of them has.
fn circles()
    ensures placed { check_child circle (codes "$root" ∷ codes "quote" ∷ []) (codes "a") ≡ true }
    ensures content { check_child circle
        (codes "$root" ∷ codes "quote" ∷ codes "a" ∷ []) (codes "$text") ≡ true }
    ensures attribute { check_attribute circle (codes "$root" ∷ []) (codes "c") (codes "x") ≡ true }
    ensures written { is_block circle (codes "c") ≡ true }
    ensures written_false { is_block circle (codes "b") ≡ false }
    ensures inherited_false { is_block circle (codes "a") ≡ false }
    ensures no_flag { is_inline circle (codes "a") ≡ false }
{}

/// Flags: an object is a limit, selectable and content, and the three make an object.
fn flags_of_items()
    ensures object { is_object flags (codes "box") ≡ true }
    ensures limit { is_limit flags (codes "image") ≡ true }
    ensures selectable { is_selectable flags (codes "mention") ≡ true }
    ensures content { is_content flags (codes "$text") ≡ true }
    ensures inherited { is_object flags (codes "inner") ≡ true }
    ensures overridden { is_block flags (codes "plain") ≡ false }
    ensures stays_true { is_limit flags (codes "$root") ≡ true }
    ensures none { is_object flags (codes "paragraph") ≡ false }
{}

/// The innermost ancestor that allows an item, up to the first limit.
fn parents()
    ensures here { allowed_parent sample
        (codes "$root" ∷ codes "paragraph" ∷ []) (codes "$text") ≡ Some 2 }
    ensures above { allowed_parent sample
        (codes "$root" ∷ codes "quote" ∷ codes "paragraph" ∷ []) (codes "image") ≡ Some 2 }
    ensures limit { allowed_parent flags
        (codes "$root" ∷ codes "box" ∷ codes "paragraph" ∷ []) (codes "paragraph") ≡ None }
    ensures nowhere { allowed_parent sample (codes "$root" ∷ []) (codes "$text") ≡ None }
{}

/// The registered items, and those among them that are inline objects, in the order of their bytes.
fn registered_items()
    ensures items { registered circle ≡ codes "$block" ∷ codes "$blockObject" ∷ codes "$container"
        ∷ codes "$inlineObject" ∷ codes "$root" ∷ codes "$text" ∷ codes "a" ∷ codes "b" ∷ codes "c"
        ∷ codes "heading" ∷ codes "image" ∷ codes "listItem" ∷ codes "mention" ∷ codes "paragraph"
        ∷ codes "quote" ∷ [] }
    ensures inline { inline_objects sample ≡ codes "$inlineObject" ∷ codes "mention" ∷ [] }
{}

/// Why rules make no schema, in order.
fn refusals()
    ensures fine { refusal sample ≡ None }
    ensures in_circles { refusal circle ≡ None }
    ensures twice { refusal (with_more (bare (Item (codes "quote")) ∷ []) [])
        ≡ Some (TwiceRegistered (codes "quote")) }
    ensures predefined { refusal (with_more (bare (Item (codes "$text")) ∷ []) [])
        ≡ Some (TwiceRegistered (codes "$text")) }
    ensures unknown { refusal (with_more (bare (Extend (codes "table")) ∷ []) [])
        ≡ Some (UnknownItem (codes "table")) }
    ensures in_a_check { refusal
        (with_more [] (Attribute (codes "key") (codes "cell" ∷ []) true ∷ Child (codes "row") [] true ∷ []))
        ≡ Some (UnknownItem (codes "cell")) }
    ensures bad_check { refusal (with_more [] (Child (codes "quote") [] true ∷ []))
        ≡ Some (BadCheck 2) }
    ensures twice_before_unknown { refusal
        (with_more (bare (Extend (codes "table")) ∷ bare (Item (codes "quote")) ∷ []) [])
        ≡ Some (TwiceRegistered (codes "quote")) }
    ensures unknown_before_bad { refusal
        (with_more (bare (Extend (codes "table")) ∷ []) (Child (codes "quote") [] true ∷ []))
        ≡ Some (UnknownItem (codes "table")) }
{}
