//! The checks, which go before what the entries say.
ghost use Rattle.std.specs.Prelude.{◌≡◌, [], ◌∷◌, ◌++◌};
ghost use Rattle.std.specs.Option.{option_copied};
ghost use Rattle.std.specs.List.{find, ends_with};
ghost use Rattle.std.specs.Str.{bytes_eq};
ghost use Rattle.schema_definitions.specs.Allowed.{is_about_child, is_about_attribute, answer_of, child_answer, attribute_answer};

use ck_base::name::Name;
use schema_definitions::file::Check;

/// What a check answers.
fn answer_of(check: &Check) -> bool
    ensures { result ≡ answer_of check.now }
{
    match check {
        Check::Child { answer, .. } | Check::Attribute { answer, .. } => *answer,
    }
}

/// Whether a check is about this item behind these ancestors.
fn is_about_child(check: &Check, ancestors: &[Name], item: &Name) -> bool
    ensures { result ≡ is_about_child ancestors.now item.now check.now }
{
    match check {
        Check::Child {
            child,
            ends_with,
            ..
        } => child == item && ancestors.ends_with(ends_with.as_slice()),
        Check::Attribute { .. } => false,
    }
}

/// Whether the ancestors and then the item end with these names.
#[tactic(auto, using(crate::proofs::Ends::ends_with_last, crate::proofs::Ends::ends_with_none))]
fn end_with(ancestors: &[Name], item: &Name, last: &[Name]) -> bool
    ensures { result ≡ ends_with bytes_eq (ancestors.now ++ item.now ∷ []) last.now }
{
    match last.split_last() {
        Some((name, above)) => name == item && ancestors.ends_with(above),
        None => true,
    }
}

/// Whether a check is about this attribute on this item behind these ancestors.
fn is_about_attribute(check: &Check, ancestors: &[Name], item: &Name, key: &Name) -> bool
    ensures { result ≡ is_about_attribute (ancestors.now ++ item.now ∷ []) key.now check.now }
{
    match check {
        Check::Child { .. } => false,
        Check::Attribute {
            attribute,
            ends_with,
            ..
        } => attribute == key && end_with(ancestors, item, ends_with.as_slice()),
    }
}

/// The first check that is about this item behind these ancestors.
fn child_check<'a>(checks: &'a [Check], ancestors: &[Name], item: &Name) -> Option<&'a Check>
    ensures { option_copied result ≡ find (is_about_child ancestors.now item.now) checks.now }
{
    checks
        .iter()
        .find(|check| is_about_child(check, ancestors, item))
}

/// The first check that is about this attribute on this item behind these ancestors.
fn attribute_check<'a>(
    checks: &'a [Check],
    ancestors: &[Name],
    item: &Name,
    key: &Name,
) -> Option<&'a Check>
    ensures { option_copied result ≡ find (is_about_attribute (ancestors.now ++ item.now ∷ []) key.now) checks.now }
{
    checks
        .iter()
        .find(|check| is_about_attribute(check, ancestors, item, key))
}

/// What the first check that is about this item behind these ancestors answers.
#[tactic(auto, unfolding(schema_definitions::specs::Allowed::child_answer))]
pub fn child_answer(checks: &[Check], ancestors: &[Name], item: &Name) -> Option<bool>
    ensures { result ≡ child_answer checks.now ancestors.now item.now }
{
    match child_check(checks, ancestors, item) {
        Some(check) => Some(answer_of(check)),
        None => None,
    }
}

/// What the first check that is about this attribute on this item behind these ancestors answers.
#[tactic(auto, unfolding(schema_definitions::specs::Allowed::attribute_answer))]
pub fn attribute_answer(
    checks: &[Check],
    ancestors: &[Name],
    item: &Name,
    key: &Name,
) -> Option<bool>
    ensures { result ≡ attribute_answer checks.now (ancestors.now ++ item.now ∷ []) key.now }
{
    match attribute_check(checks, ancestors, item, key) {
        Some(check) => Some(answer_of(check)),
        None => None,
    }
}
