//! Lists of nodes in normal form, put together from others. A list that a refused call was putting together is of no use.
ghost use Rattle.std.specs.Prelude.{◌≡◌, ◌<◌, ◌≤◌, ◌+◌, ◌++◌, length, take, drop, OnOk, IfOk, option_copied, IsTrue, ◌↔◌};
ghost use Rattle.model_tree.specs.Nodes.{items_at, items_in, Join, IsNormal};
ghost use Rattle.model_tree.specs.Sizes.{AreSizes};
ghost use Rattle.operation_definitions.specs.Level.{given};
ghost use Rattle.operation_definitions.specs.Reversed.{AreOrdered};

use crate::items::Node;
use crate::sizes::Sizes;
use ck_base::NoMemory;
use ck_base::name::Name;
use ck_base::value::Value;

/// Whether the two are texts of equal attributes.
fn joins(last: &Node, node: &Node) -> bool
    ensures { IsTrue result ↔ Join last.now node.now }
{
    match (last, node) {
        (Node::Run(text), Node::Run(next)) => text.joins(next),
        _ => false,
    }
}

/// One text of two of equal attributes.
fn joined(last: &Node, node: &Node) -> Result<Node, NoMemory>
    requires { Join last.now node.now }
    ensures items { IfOk result (λ one. items_at one ≡ items_at last.now ++ items_at node.now) }
    ensures like { IfOk result (λ one. Join last.now one) }
{
    match (last, node) {
        (Node::Run(text), Node::Run(next)) => {
            let one = text.joined(next)?;
            Ok(Node::Run(one))
        }
        _ => unreachable!(),
    }
}

/// Puts a node that isn't empty behind the others. A text joins a last one of equal attributes.
#[tactic(auto, using(crate::proofs::Normal::joined_items, crate::proofs::Normal::normal_more))]
pub(crate) fn add_node(made: &mut Vec<Node>, node: Node) -> Result<(), NoMemory>
    requires { 0 < length (items_at node) }
    ensures items { OnOk result (items_in made.new.items ≡ items_in made.old.items ++ items_at node) }
    ensures normal { OnOk result (IsNormal made.old.items → IsNormal made.new.items) }
{
    let Some(last) = made.pop() else {
        made.push(node)?;
        return Ok(());
    };
    if joins(&last, &node) {
        let one = joined(&last, &node)?;
        made.push(one)?;
    } else {
        made.push(last)?;
        made.push(node)?;
    }
    Ok(())
}

/// Puts the `count` items of a node behind an offset behind the others.
#[tactic(auto, using(crate::proofs::Ranges::nothing))]
fn add_part(made: &mut Vec<Node>, node: &Node, offset: usize, count: usize) -> Result<(), NoMemory>
    requires { offset + count ≤ length (items_at node.now) }
    ensures items { OnOk result (items_in made.new.items ≡ items_in made.old.items ++ take count (drop offset (items_at node.now))) }
    ensures normal { OnOk result (IsNormal made.old.items → IsNormal made.new.items) }
{
    if count == 0 {
        return Ok(());
    }
    let part = node.part(offset, count)?;
    add_node(made, part)
}

/// Puts the items of a list behind the others: up to `count` of those behind an offset.
#[tactic(auto, using(crate::proofs::Ranges::all_taken, crate::proofs::Ranges::at_end))]
pub(crate) fn add_range(
    made: &mut Vec<Node>,
    nodes: &Vec<Node>,
    offset: usize,
    count: usize,
) -> Result<(), NoMemory>
    ensures items { OnOk result (items_in made.new.items ≡ items_in made.old.items ++ take count (drop offset (items_in nodes.now.items))) }
    ensures normal { OnOk result (IsNormal made.old.items → IsNormal made.new.items) }
{
    let mut skip = offset;
    let mut left = count;
    for node in nodes {
        if left == 0 {
            return Ok(());
        }
        let long = node.len();
        if skip < long {
            let taken = left.min(long - skip);
            add_part(made, node, skip, taken)?;
            skip = 0;
            left -= taken;
        } else {
            skip -= long;
        }
    }
    Ok(())
}

/// Puts the items of a list behind an offset behind the others.
#[tactic(auto, using(crate::proofs::Ranges::nothing_left))]
pub(crate) fn add_rest(
    made: &mut Vec<Node>,
    nodes: &Vec<Node>,
    offset: usize,
) -> Result<(), NoMemory>
    ensures items { OnOk result (items_in made.new.items ≡ items_in made.old.items ++ drop offset (items_in nodes.now.items)) }
    ensures normal { OnOk result (IsNormal made.old.items → IsNormal made.new.items) }
{
    let mut skip = offset;
    for node in nodes {
        let long = node.len();
        if skip < long {
            add_part(made, node, skip, long - skip)?;
            skip = 0;
        } else {
            skip -= long;
        }
    }
    Ok(())
}

/// The sizes of the list that nodes stand for, in which the keys of each item are in order.
#[tactic(auto, using(crate::proofs::Counts::sizes_append))]
pub(crate) fn sizes_of(nodes: &Vec<Node>) -> Sizes
    ensures ordered { AreOrdered (items_in nodes.now.items) }
    ensures sizes { AreSizes (items_in nodes.now.items) result.long result.count result.depth }
{
    let mut sizes = Sizes::none();
    for node in nodes {
        sizes = sizes.plus(node.sizes());
    }
    sizes
}

/// The nodes with a value of a key, or without one; what is in them stays as it is.
pub(crate) fn given(
    nodes: &Vec<Node>,
    key: &Name,
    value: Option<&Value>,
) -> Result<Vec<Node>, NoMemory>
    requires { IsNormal nodes.now.items }
    ensures items { IfOk result (λ made. items_in made.items ≡ given key.now (option_copied value.entry) (items_in nodes.now.items)) }
    ensures normal { IfOk result (λ made. IsNormal made.items) }
{
    let alloc = *nodes.allocator();
    let mut made = Vec::with_capacity(alloc, nodes.len())?;
    for node in nodes {
        let node = node.with_key(alloc, key, value)?;
        add_node(&mut made, node)?;
    }
    Ok(made)
}
