//! How many items of the document nodes of the view show.
ghost use Rattle.std.specs.Prelude.{◌≡◌, ◌+◌, ◌-◌, ◌^◌, ◌≤◌, min, length, option_map, option_copied};
ghost use Rattle.view_tree.specs.Kinds.{kind_of};
ghost use Rattle.downcast_definitions.specs.Meant.{length_by_kind, model_length};
ghost use Rattle.pos_mapper.specs.Parts.{node_kind};
ghost use Rattle.pos_mapper.specs.Reading.{lengths, in_position, before_node};

use view_tree::kind::ElementKind;
use view_tree::node::{Detached, NodeRef};

/// The kind of an element: None for a text.
pub fn kind_of(node: &Detached) -> Option<&ElementKind>
    ensures { option_map kind_of (option_copied result) ≡ node_kind node.now }
{
    match node.node() {
        NodeRef::Text(_) => None,
        NodeRef::Element { kind, .. } => Some(kind),
    }
}

/// How many items these nodes show, but no more than the greatest number.
#[cycle(lengths)]
pub fn length_of(nodes: &[Detached]) -> u64
    ensures { result ≡ min (lengths nodes.now) (2 ^ 64 - 1) }
{
    let mut sum: u64 = 0;
    for node in nodes {
        sum = sum.saturating_add(node_length(node));
    }
    sum
}

/// How many items a node shows, but no more than the greatest number.
#[cycle(lengths)]
#[tactic(auto, using(crate::proofs::Nodes::element_length, crate::proofs::Nodes::text_length))]
pub fn node_length(node: &Detached) -> u64
    ensures { result ≡ min (model_length node.now) (2 ^ 64 - 1) }
{
    if let Some(text) = node.text() {
        return text.scalars().len() as u64;
    }
    match (kind_of(node), node.children()) {
        (Some(kind), Some(children)) => inner_length(kind, children.as_slice()),
        _ => 0,
    }
}

/// How many items an element of a kind with these children shows, but no more than the greatest number.
#[cycle(lengths)]
fn inner_length(kind: &ElementKind, children: &[Detached]) -> u64
    ensures { result ≡ min (length_by_kind (kind_of kind.now) (lengths children.now)) (2 ^ 64 - 1) }
{
    match kind {
        ElementKind::Container => 1,
        ElementKind::Attribute { .. } => length_of(children),
        ElementKind::Empty => 1,
        ElementKind::Ui => 0,
    }
}

/// The sum of two numbers, where a position may have it: None exactly where it is too large.
#[tactic(auto, using(crate::proofs::Nodes::small_sum))]
pub fn sum(offset: u32, more: u64) -> Option<u32>
    ensures { result ≡ in_position (offset + more) }
{
    match u32::try_from((offset as u64).saturating_add(more)) {
        Ok(sum) => Some(sum),
        Err(_) => None,
    }
}

/// How many items are shown before the node at an index, where so many are shown before the list: None exactly where these are more than
/// the offsets of positions.
#[tactic(auto, using(crate::proofs::Nodes::small_sum))]
pub fn before_node(offset: u32, index: usize, nodes: &[Detached]) -> Option<u32>
    requires { index ≤ length nodes.now }
    ensures { result ≡ before_node offset index nodes.now }
{
    sum(offset, length_of(&nodes[..index]))
}
