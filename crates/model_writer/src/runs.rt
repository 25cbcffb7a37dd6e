//! The runs of items that a change of an attribute is made on.
ghost use Rattle.std.specs.Prelude.{◌≡◌, ◌==◌, ◌&&◌, ◌+◌, ◌<◌, ◌≤◌, ◌^◌, length, reverse, IfOk, OnOk, option_copied};
ghost use Rattle.operation_definitions.specs.After.{same_value};
ghost use Rattle.model_tree.specs.Nodes.{items_at};
ghost use Rattle.model_tree.specs.OneValue.{HaveOne};
ghost use Rattle.edit_definitions.specs.Runs.{runs_of};
ghost use Rattle.model_writer.specs.Runs.{with_change};

use ck_base::NoMemory;
use ck_base::name::Name;
use ck_base::value::Value;
use model_tree::items::{Items, Node};
use std::marker::Model;

/// Neighbouring items from one offset up to another, which have this value of a key.
#[derive(Debug, Drop)]
pub(crate) struct Run {
    pub(crate) from: u32,
    pub(crate) to: u32,
    pub(crate) old: Option<Value>,
}

impl Model for Run {
    ghost use Rattle.std.specs.Prelude.{◌≤◌};
    ghost use Rattle.edit_definitions.specs.Runs.{Run as Meant};

    ghost Value = { Meant };

    ghost view = { λ run. record { from = run.from; to = run.to; old = run.old } };

    ghost invariant = { λ run. run.from ≤ run.to };
}

/// Whether two values are one.
#[tactic(auto, using(model_tree::proofs::OneValue::one_value))]
fn is_same_value(value: Option<&Value>, other: Option<&Value>) -> bool
    ensures { result ≡ same_value (option_copied value.entry) (option_copied other.entry) }
{
    match (value, other) {
        (None, None) => true,
        (Some(value), Some(other)) => value.same(other),
        _ => false,
    }
}

/// The same value, if there is one.
pub(crate) fn copied_value(value: Option<&Value>) -> Result<Option<Value>, NoMemory>
    ensures { IfOk result (λ copy. copy ≡ option_copied value.entry) }
{
    match value {
        Some(value) => {
            let value = value.copy()?;
            Ok(Some(value))
        }
        None => Ok(None),
    }
}

/// The value of a key that all items of a node have.
#[tactic(auto, using(model_tree::proofs::OneValue::text_value, model_tree::proofs::OneValue::element_value))]
fn value_in<'a>(node: &'a Node, key: &Name) -> Option<&'a Value>
    ensures { HaveOne key.now (option_copied result) (items_at node.now) }
{
    match node {
        Node::Run(text) => text.attrs().get(key),
        Node::Element(head, _) => head.attrs().get(key),
    }
}

/// Whether a run begins at an offset and has this value.
fn joins(next: &Run, to: u32, old: Option<&Value>) -> bool
    ensures { result ≡ (next.now.from == to && same_value next.now.old (option_copied old.entry)) }
{
    next.from == to && is_same_value(next.old.as_ref(), old)
}

/// Puts a run before those that were put so far, the last of which stands first: it is one with that where it ends there and has the same
/// value. It is left out where it has the new value.
#[tactic(auto, using(crate::proofs::Joined::left_out, crate::proofs::Joined::alone, crate::proofs::Joined::apart, crate::proofs::Joined::together))]
fn put_before(
    runs: &mut Vec<Run>,
    from: u32,
    to: u32,
    old: Option<&Value>,
    new: Option<&Value>,
) -> Result<(), NoMemory>
    requires { from ≤ to }
    ensures { OnOk result (reverse runs.new.items
        ≡ with_change (option_copied new.entry) (record { from = from; to = to; old = option_copied old.entry }) (reverse runs.old.items)) }
{
    if is_same_value(old, new) {
        return Ok(());
    }
    let Some(next) = runs.pop() else {
        let old = copied_value(old)?;
        runs.push(Run { from, to, old })?;
        return Ok(());
    };
    if joins(&next, to, old) {
        runs.push(Run {
            from,
            to: next.to,
            old: next.old,
        })?;
        return Ok(());
    }
    let old = copied_value(old)?;
    runs.push(next)?;
    runs.push(Run { from, to, old })?;
    Ok(())
}

/// Where the items of a node begin that end at an offset.
fn start_of(node: &Node, end: u32) -> u32
    requires { length (items_at node.now) ≤ end }
    ensures { result + length (items_at node.now) ≡ end }
{
    end - node.len() as u32
}

/// The longest runs of items with an equal value of a key that isn't the new one, of items that begin at an offset, in order.
#[tactic(auto, using(crate::proofs::Joined::partway_none, crate::proofs::Joined::partway_more, crate::proofs::Joined::node_fits))]
pub(crate) fn runs_of(
    items: &Items,
    key: &Name,
    new: Option<&Value>,
    start: u32,
) -> Result<Vec<Run>, NoMemory>
    requires { start + length items.now < 2 ^ 32 }
    ensures { IfOk result (λ runs. runs.items ≡ runs_of key.now (option_copied new.entry) start items.now) }
{
    let mut runs = Vec::new(items.allocator());
    let mut end = start + items.len() as u32;
    let mut rest = items.nodes().as_slice();
    'nodes: while let Some((node, before)) = rest.split_last() {
        let from = start_of(node, end);
        put_before(&mut runs, from, end, value_in(node, key), new)?;
        end = from;
        rest = before;
    }
    runs.reverse();
    Ok(runs)
}
