//! Changes of attributes.
ghost use Rattle.std.specs.Prelude.{◌≡◌, ◌≢◌, ◌∷◌, [], ◌++◌, ◌+◌, ◌<◌, ◌≤◌, ◌^◌, ℕ, List, Bool, length, IsTrue, Ok, Err, Some, None, IfOk, IfErr, OnOk};
ghost use Rattle.std.specs.Prelude.{option_copied};
ghost use Rattle.std.specs.List.{flat_map};
ghost use Rattle.ck_base.specs.declared.faults.EditFault.TheVariants.{NoMemory as OutOfMemory};
ghost use Rattle.item_definitions.specs.Children.{parent_of};
ghost use Rattle.item_definitions.specs.Position.{between, behind};
ghost use Rattle.operation_definitions.specs.Operation as meant;
ghost use Rattle.model_ops.specs.Meant.{operation_of};
ghost use Rattle.edit_definitions.specs.declared.edit.Edit.TheVariants.{SetAttribute, RemoveAttribute};
ghost use Rattle.edit_definitions.specs.Places.{is_element};
ghost use Rattle.edit_definitions.specs.Planned.{operations_of, parts_of, given_to};
ghost use Rattle.edit_definitions.specs.Runs.{attribute_runs, give_in};
ghost use Rattle.model_writer.specs.Plans.{Plans, Parted, operations_in};

use crate::elements::at_offset;
use crate::inserting::{alloc_of, push};
use crate::moving::{count_in, parts_between};
use crate::places::{bad_range, bad_target, is_element, is_range};
use crate::runs::{Run, copied_value, runs_of};
use crate::wrapping::around;
use ck_base::NoMemory;
use ck_base::faults::EditFault;
use ck_base::name::Name;
use ck_base::path::Path;
use ck_base::value::Value;
use edit_definitions::edit::Target;
use model_doc::Document;
use model_ops::operation::Operation;
use model_pos::{Position, Range};
use model_tree::tree::Tree;
use std::alloc::Global;

/// The range from one offset to another in the element at a path.
#[tactic(auto, using(crate::proofs::Given::in_order))]
fn range_in(alloc: Global, parent: &[u32], from: u32, to: u32) -> Range
    requires short { length parent.now < 65 }
    requires order { from ≤ to }
    ensures { result ≡ between (parent.now ++ from ∷ []) (parent.now ++ to ∷ []) }
{
    Range::new(at_offset(alloc, parent, from), at_offset(alloc, parent, to))
}

/// The items of a run get another value of a key.
fn change(
    alloc: Global,
    parent: &[u32],
    key: &Name,
    new: Option<&Value>,
    run: &Run,
) -> Result<Operation, NoMemory>
    requires { length parent.now < 65 }
    ensures { IfOk result (λ operation. operation_of operation
        ≡ meant.attribute (between (parent.now ++ run.now.from ∷ []) (parent.now ++ run.now.to ∷ [])) key.now run.now.old (option_copied new.entry)) }
{
    let key = key.copy()?;
    let old = copied_value(run.old.as_ref())?;
    let new = copied_value(new)?;
    Ok(Operation::Attribute {
        range: range_in(alloc, parent, run.from, run.to),
        key,
        old,
        new,
    })
}

/// Puts a change of an attribute on each run behind other operations.
#[tactic(auto, using(crate::proofs::Given::next_run))]
fn push_changes(
    alloc: Global,
    operations: &mut Vec<Operation>,
    parent: &[u32],
    key: &Name,
    new: Option<&Value>,
    runs: &[Run],
) -> Result<(), EditFault>
    requires { length parent.now < 65 }
    ensures ok { OnOk result (operations_in operations.new ≡ operations_in operations.old ++ attribute_runs parent.now key.now (option_copied new.entry)
        runs.now) }
    ensures fault { IfErr result (λ fault. fault ≡ OutOfMemory) }
{
    for run in runs {
        let Ok(operation) = change(alloc, parent, key, new, run) else {
            return Err(EditFault::NoMemory);
        };
        push(operations, operation)?;
    }
    Ok(())
}

/// The runs of the items of a flat range.
#[tactic(auto, using(crate::proofs::Given::run_fits, crate::proofs::Given::runs_there, crate::proofs::Given::runs_nowhere))]
fn runs_in(tree: &Tree, part: &Range, key: &Name, new: Option<&Value>) -> Result<Vec<Run>, NoMemory>
    ensures { IfOk result (λ runs. attribute_runs (parent_of part.now.start) key.now (option_copied new.entry) runs.items
        ≡ give_in tree.now key.now (option_copied new.entry) part.now) }
{
    let items = tree.items();
    let (parent, start) = part.start().split();
    let Some(level) = items.list_at(parent) else {
        return Ok(Vec::new(items.allocator()));
    };
    let count = count_in(part.start(), part.end());
    let run = level.range(start as usize, count as usize)?;
    runs_of(&run, key, new, start)
}

/// Puts the operations that give the items of a flat range this value of a key, or none, behind others.
fn give_in(
    tree: &Tree,
    operations: &mut Vec<Operation>,
    part: &Range,
    key: &Name,
    new: Option<&Value>,
) -> Result<(), EditFault>
    ensures ok { OnOk result (operations_in operations.new ≡ operations_in operations.old ++ give_in tree.now key.now (option_copied new.entry) part.now) }
    ensures fault { IfErr result (λ fault. fault ≡ OutOfMemory) }
{
    let Ok(runs) = runs_in(tree, part, key, new) else {
        return Err(EditFault::NoMemory);
    };
    let alloc = tree.items().allocator();
    let (parent, _) = part.start().split();
    push_changes(alloc, operations, parent, key, new, runs.as_slice())
}

/// The plan of this value of a key, or none, for the items of flat ranges.
#[tactic(auto, using(crate::proofs::Given::next_part))]
fn give_all(
    tree: &Tree,
    parts: &[Range],
    key: &Name,
    new: Option<&Value>,
) -> Result<Vec<Operation>, EditFault>
    ensures { Plans (Ok (flat_map (give_in tree.now key.now (option_copied new.entry)) parts.now)) result }
{
    let mut operations = Vec::new(tree.items().allocator());
    for part in parts {
        give_in(tree, &mut operations, part, key, new)?;
    }
    Ok(operations)
}

/// The range of one element.
#[tactic(auto, using(crate::proofs::Given::before_behind, crate::proofs::Depths::element_some))]
fn element_range(tree: &Tree, path: &Path) -> Range
    requires { IsTrue (is_element tree.now path.now) }
    ensures { result ≡ between path.now (behind path.now) }
{
    let (before, behind) = around(tree, path);
    Range::new(before, behind)
}

/// One range alone.
fn one_range(alloc: Global, range: Range) -> Result<Vec<Range>, EditFault>
    ensures { Parted (Ok (range ∷ [])) result }
{
    let mut ranges = Vec::new(alloc);
    match ranges.push(range) {
        Ok(()) => Ok(ranges),
        Err(_) => Err(EditFault::NoMemory),
    }
}

/// The flat ranges whose items an edit changes.
fn parts_of(document: &Document, number: u64, target: &Target) -> Result<Vec<Range>, EditFault>
    ensures { Parted (parts_of number document.now.state.document.items target.now) result }
{
    let tree = document.tree();
    match target {
        Target::Range { start, end } => {
            if !is_range(tree, start, end) {
                return Err(bad_range(number, start, end));
            }
            match parts_between(alloc_of(document), tree, start, end) {
                Ok(parts) => Ok(parts),
                Err(_) => Err(EditFault::NoMemory),
            }
        }
        Target::Element(path) => {
            if !is_element(tree, path) {
                return Err(bad_target(number, path));
            }
            one_range(alloc_of(document), element_range(tree, path))
        }
    }
}

/// The plan of this value of a key, or none, for the items of a target.
pub(crate) fn give_to(
    document: &Document,
    number: u64,
    target: &Target,
    key: &Name,
    new: Option<&Value>,
) -> Result<Vec<Operation>, EditFault>
    ensures { Plans (given_to number document.now.state.document.items target.now key.now (option_copied new.entry)) result }
{
    let parts = parts_of(document, number, target)?;
    give_all(document.tree(), parts.as_slice(), key, new)
}
