//! The fixers of a settings file. Each reader answers what the definition of its name reads, `BadField` with the first place that breaks the form,
//! or `NoMemory`; a path leads to the value that is read.
ghost use Rattle.std.specs.Prelude.{◌≡◌};
ghost use Rattle.serde_json.specs.View.{view, items_view};
ghost use Rattle.json_forms.specs.Form.{Reads};
ghost use Rattle.settings_definitions.specs.FixerForm.{fixer_of_word, fill_at, join_at, remove_at, require_at, custom_fixer_at, object_fixer_at, fixer_at};
ghost use Rattle.settings_definitions.specs.FixerForm.{fixers_at};

use ck_base::faults::FieldPath;
use fix_definitions::plan::FixerPlan;
use fix_definitions::stock::StockFixer;
use json_forms::fault::FormFault;
use json_forms::forms::{bad_value, object_at, only_fields};
use json_names::names::name_field;
use serde_json::Value;
use std::alloc::Global;

/// The fixer that a text means.
#[tactic(auto, unfolding(settings_definitions::specs::FixerForm::fixer_of_word))]
fn fixer_of_word(word: &str) -> Option<FixerPlan>
    ensures { result ≡ fixer_of_word word.now }
{
    match word {
        "dropAttributes" => Some(FixerPlan::Stock(StockFixer::DropAttributes)),
        "selection" => Some(FixerPlan::Stock(StockFixer::SelectionPlace)),
        _ => None,
    }
}

/// Elements that are filled.
#[tactic(auto, unfolding(settings_definitions::specs::FixerForm::fill_at))]
fn fill_at(alloc: Global, path: &FieldPath, value: &Value) -> Result<FixerPlan, FormFault>
    ensures { Reads (λ fixer. fixer) result (fill_at path.now (view value.now)) }
{
    let parent = name_field(alloc, path, "fill", value)?;
    let child = name_field(alloc, path, "with", value)?;
    only_fields(path, &["fill", "with"], value)?;
    Ok(FixerPlan::Stock(StockFixer::Fill { parent, child }))
}

/// Neighbours that are joined.
#[tactic(auto, unfolding(settings_definitions::specs::FixerForm::join_at))]
fn join_at(alloc: Global, path: &FieldPath, value: &Value) -> Result<FixerPlan, FormFault>
    ensures { Reads (λ fixer. fixer) result (join_at path.now (view value.now)) }
{
    let name = name_field(alloc, path, "joinNeighbours", value)?;
    only_fields(path, &["joinNeighbours"], value)?;
    Ok(FixerPlan::Stock(StockFixer::JoinNeighbours { name }))
}

/// Empty elements that are removed.
#[tactic(auto, unfolding(settings_definitions::specs::FixerForm::remove_at))]
fn remove_at(alloc: Global, path: &FieldPath, value: &Value) -> Result<FixerPlan, FormFault>
    ensures { Reads (λ fixer. fixer) result (remove_at path.now (view value.now)) }
{
    let name = name_field(alloc, path, "removeEmpty", value)?;
    only_fields(path, &["removeEmpty"], value)?;
    Ok(FixerPlan::Stock(StockFixer::RemoveEmpty { name }))
}

/// Elements that need a child.
#[tactic(auto, unfolding(settings_definitions::specs::FixerForm::require_at))]
fn require_at(alloc: Global, path: &FieldPath, value: &Value) -> Result<FixerPlan, FormFault>
    ensures { Reads (λ fixer. fixer) result (require_at path.now (view value.now)) }
{
    let parent = name_field(alloc, path, "require", value)?;
    let child = name_field(alloc, path, "child", value)?;
    only_fields(path, &["require", "child"], value)?;
    Ok(FixerPlan::Stock(StockFixer::Require { parent, child }))
}

/// A fixer of a product.
#[tactic(auto, unfolding(settings_definitions::specs::FixerForm::custom_fixer_at))]
fn custom_fixer_at(alloc: Global, path: &FieldPath, value: &Value) -> Result<FixerPlan, FormFault>
    ensures { Reads (λ fixer. fixer) result (custom_fixer_at path.now (view value.now)) }
{
    let name = name_field(alloc, path, "custom", value)?;
    only_fields(path, &["custom"], value)?;
    Ok(FixerPlan::Boxed(name))
}

/// A fixer that is an object, by the first field of a form that is there.
#[tactic(auto, unfolding(settings_definitions::specs::FixerForm::object_fixer_at))]
fn object_fixer_at(alloc: Global, path: &FieldPath, value: &Value) -> Result<FixerPlan, FormFault>
    ensures { Reads (λ fixer. fixer) result (object_fixer_at path.now (view value.now)) }
{
    object_at(path, value)?;
    if value.get("fill").is_some() {
        fill_at(alloc, path, value)
    } else if value.get("joinNeighbours").is_some() {
        join_at(alloc, path, value)
    } else if value.get("removeEmpty").is_some() {
        remove_at(alloc, path, value)
    } else if value.get("require").is_some() {
        require_at(alloc, path, value)
    } else if value.get("custom").is_some() {
        custom_fixer_at(alloc, path, value)
    } else {
        fill_at(alloc, path, value)
    }
}

/// A fixer at this place.
#[tactic(auto, unfolding(settings_definitions::specs::FixerForm::fixer_at))]
fn fixer_at(alloc: Global, path: &FieldPath, value: &Value) -> Result<FixerPlan, FormFault>
    ensures { Reads (λ fixer. fixer) result (fixer_at path.now (view value.now)) }
{
    match value.as_str() {
        Some(word) => match fixer_of_word(word) {
            Some(fixer) => Ok(fixer),
            None => Err(bad_value(path)),
        },
        None => object_fixer_at(alloc, path, value),
    }
}

/// The fixers of a list, in their order.
#[tactic(auto, using(json_names::proofs::Fronts::with_front_more), unfolding(settings_definitions::specs::FixerForm::fixers_at))]
pub fn fixers_at(
    alloc: Global,
    path: &FieldPath,
    items: &Vec<Value>,
) -> Result<Vec<FixerPlan>, FormFault>
    ensures { Reads (λ fixers. fixers.items) result (fixers_at path.now 0 (items_view items.now.items)) }
{
    let mut fixers = Vec::with_capacity(alloc, items.len())?;
    for (index, item) in items.iter().enumerate() {
        let place = path.index(index)?;
        fixers.push(fixer_at(alloc, &place, item)?)?;
    }
    Ok(fixers)
}
