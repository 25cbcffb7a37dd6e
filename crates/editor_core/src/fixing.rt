//! From the fixers of settings to the list of an editor.
ghost use Rattle.std.specs.Prelude.{◌≡◌, ℕ, List, [], ◌∷◌, ◌++◌, map, false, option_map, IfOk, OnOk, None};
ghost use Rattle.std.specs.Str.{bytes_eq};
ghost use Rattle.post_fix.specs.Listed.{fixers_of};
ghost use Rattle.settings_definitions.specs.FixerNames.{is_custom_fixer, first_unknown_custom_fixer};
ghost use Rattle.program_definitions.specs.Product.{first_named, names_of};
ghost use Rattle.program_definitions.specs.Fixers.{fixer_by};
ghost use Rattle.editor_core.specs.HandedIn.{named_by, IsFixerThere};

use crate::extensions::Named;
use crate::naming::take_named;
use ck_base::NoMemory;
use ck_base::name::Name;
use fix_definitions::plan::FixerPlan;
use post_fix::fixer::Fixer;
use post_fix::list::{FixerEntry, FixerList};
use std::alloc::Global;

/// Takes the first fixer of a name out: None exactly where there is none.
fn take_fixer(handed_in: &mut Vec<Named<Box<dyn Fixer>>>, name: &Name) -> Option<Box<dyn Fixer>>
    ensures object { option_map (λ object. fixes object) result ≡ first_named (named_by (λ object. fixes object) handed_in.old.items) name.now }
    ensures others { (other : List ℕ) → bytes_eq name.now other ≡ false
        → first_named (named_by (λ object. fixes object) handed_in.new.items) other
        ≡ first_named (named_by (λ object. fixes object) handed_in.old.items) other }
{
    take_named(handed_in, name)
}

/// Adds a fixer of the settings; a product's one is taken out of those that are handed in.
fn add_fixer(
    list: &mut FixerList,
    plan: FixerPlan,
    handed_in: &mut Vec<Named<Box<dyn Fixer>>>,
) -> Result<(), NoMemory>
    requires { IsFixerThere plan (named_by (λ object. fixes object) handed_in.old.items) }
    ensures ok { OnOk result (fixers_of (λ object. fixes object) list.new
        ≡ fixers_of (λ object. fixes object) list.old ++ fixer_by (named_by (λ object. fixes object) handed_in.old.items) plan ∷ []) }
    ensures others { (other : List ℕ) → is_custom_fixer plan other ≡ false
        → first_named (named_by (λ object. fixes object) handed_in.new.items) other
        ≡ first_named (named_by (λ object. fixes object) handed_in.old.items) other }
{
    match plan {
        FixerPlan::Stock(fixer) => list.add(FixerEntry::Stock(fixer)),
        FixerPlan::Boxed(name) => match take_fixer(handed_in, &name) {
            Some(object) => list.add(FixerEntry::Boxed(object)),
            None => unreachable!(),
        },
    }
}

/// The list of an editor, from the fixers of settings, where these of a product are handed in.
pub(crate) fn fixers_of_plans(
    alloc: Global,
    plans: Vec<FixerPlan>,
    handed_in: Vec<Named<Box<dyn Fixer>>>,
) -> Result<FixerList, NoMemory>
    requires { first_unknown_custom_fixer (names_of (named_by (λ object. fixes object) handed_in.items)) plans.items ≡ None }
    ensures { IfOk result (λ list. fixers_of (λ object. fixes object) list
        ≡ map (fixer_by (named_by (λ object. fixes object) handed_in.items)) plans.items) }
{
    let mut list = FixerList::new(alloc);
    let mut handed_in = handed_in;
    for plan in plans {
        add_fixer(&mut list, plan, &mut handed_in)?;
    }
    Ok(list)
}
