//! The names in a list of fixers: those that have to be items, and those of products' fixers.
ghost use Rattle.std.specs.Prelude.{◌≡◌, option_copied};
ghost use Rattle.std.specs.Option.{option_or};
ghost use Rattle.converter_definitions.specs.PlanNames.{unless_known};
ghost use Rattle.settings_definitions.specs.FixerNames.{unknown_of_fixer, first_unknown_of_fixers, is_custom_fixer, uses_fixer, unknown_custom_fixer};
ghost use Rattle.settings_definitions.specs.FixerNames.{first_unknown_custom_fixer};

use ck_base::name::Name;
use converter_read::plan_names::has;
use fix_definitions::plan::FixerPlan;
use fix_definitions::stock::StockFixer;

/// A name that isn't among the known ones.
fn unless_known<'a>(known: &[Name], name: &'a Name) -> Option<&'a Name>
    ensures { option_copied result ≡ unless_known known.now name.now }
{
    if has(known, name) { None } else { Some(name) }
}

/// The first of two names that isn't among the known ones.
fn unless_both_known<'a>(known: &[Name], parent: &'a Name, child: &'a Name) -> Option<&'a Name>
    ensures { option_copied result ≡ option_or (unless_known known.now parent.now) (unless_known known.now child.now) }
{
    match unless_known(known, parent) {
        Some(name) => Some(name),
        None => unless_known(known, child),
    }
}

/// The first name of a fixer that has to be an item and isn't among the known ones.
fn unknown_of_fixer<'a>(known: &[Name], fixer: &'a FixerPlan) -> Option<&'a Name>
    ensures { option_copied result ≡ unknown_of_fixer known.now fixer.now }
{
    match fixer {
        FixerPlan::Boxed(_) => None,
        FixerPlan::Stock(stock) => match stock {
            StockFixer::Fill { parent, child } | StockFixer::Require { parent, child } => {
                unless_both_known(known, parent, child)
            }
            StockFixer::JoinNeighbours { name } | StockFixer::RemoveEmpty { name } => {
                unless_known(known, name)
            }
            StockFixer::DropAttributes | StockFixer::SelectionPlace => None,
        },
    }
}

/// The first name, in the order of reading, that has to be an item and isn't among the known ones: of `fill` and `require` the parent and the
/// child, of `joinNeighbours` and `removeEmpty` the element. None exactly where there is no such name.
pub fn first_unknown_of_fixers<'a>(known: &[Name], fixers: &'a [FixerPlan]) -> Option<&'a Name>
    ensures { option_copied result ≡ first_unknown_of_fixers known.now fixers.now }
{
    for fixer in fixers {
        if let Some(name) = unknown_of_fixer(known, fixer) {
            return Some(name);
        }
    }
    None
}

/// Whether a fixer is the product's of this name.
fn is_custom_fixer(fixer: &FixerPlan, name: &Name) -> bool
    ensures { result ≡ is_custom_fixer fixer.now name.now }
{
    match fixer {
        FixerPlan::Stock(_) => false,
        FixerPlan::Boxed(custom) => custom == name,
    }
}

/// Whether one of the fixers is the product's of this name.
fn uses_fixer(fixers: &[FixerPlan], name: &Name) -> bool
    ensures { result ≡ uses_fixer fixers.now name.now }
{
    for fixer in fixers {
        if is_custom_fixer(fixer, name) {
            return true;
        }
    }
    false
}

/// The name of a product's fixer that wasn't handed in, or that a fixer before it has.
fn unknown_custom_fixer<'a>(
    handed_in: &[Name],
    before: &[FixerPlan],
    fixer: &'a FixerPlan,
) -> Option<&'a Name>
    ensures { option_copied result ≡ unknown_custom_fixer handed_in.now before.now fixer.now }
{
    match fixer {
        FixerPlan::Stock(_) => None,
        FixerPlan::Boxed(name) => {
            if has(handed_in, name) && !uses_fixer(before, name) {
                None
            } else {
                Some(name)
            }
        }
    }
}

/// The first name of a product's fixer, in the order of reading, that isn't among those handed in or that a fixer before it has. None exactly
/// where there is no such name.
pub fn first_unknown_custom_fixer<'a>(
    handed_in: &[Name],
    fixers: &'a [FixerPlan],
) -> Option<&'a Name>
    ensures { option_copied result ≡ first_unknown_custom_fixer handed_in.now fixers.now }
{
    for (index, fixer) in fixers.iter().enumerate() {
        if let Some(name) = unknown_custom_fixer(handed_in, &fixers[..index], fixer) {
            return Some(name);
        }
    }
    None
}
