//! Nodes with one layer more or less.
ghost use Rattle.std.specs.Prelude.{◌≡◌, ◌++◌, [], ◌∷◌, true, Some, is_some, OnOk, IfOk};
ghost use Rattle.view_definitions.specs.Layer.{in_layer};
ghost use Rattle.view_definitions.specs.Row.{both_layers, join};
ghost use Rattle.view_tree.specs.Changes.{node_layer};
ghost use Rattle.view_wrap.specs.Layered.{order_in, wrapped, wrapped_node, unwrapped, unwrapped_node};

use crate::joins::join_lists;
use ck_base::NoMemory;
use std::cmp::Ordering;
use view_tree::kind::Layer;
use view_tree::node::{Children, Detached};

/// These nodes with a layer at its place among theirs, but for leaves. Neighbours are joined.
#[cycle(wraps)]
pub fn wrap_list(nodes: Children, layer: &Layer) -> Result<Children, NoMemory>
    ensures { IfOk result (λ made. made.nodes ≡ wrapped layer.now nodes.nodes) }
{
    let mut nodes = nodes;
    let mut made = Children::new(nodes.allocator());
    nodes.reverse();
    while let Some(node) = nodes.pop() {
        let wrapped = wrap_node(node, layer)?;
        push_joined(&mut made, wrapped)?;
    }
    Ok(made)
}

/// A node with a layer at its place among its own, but for a leaf.
#[cycle(wraps)]
#[tactic(auto, using(crate::proofs::Wrapping::same_wrapped, crate::proofs::Wrapping::further_wrapped, crate::proofs::Wrapping::leaf_wrapped, crate::proofs::Wrapping::bare_wrapped))]
fn wrap_node(node: Detached, layer: &Layer) -> Result<Detached, NoMemory>
    ensures { IfOk result (λ made. made ≡ wrapped_node layer.now node) }
{
    let order = order_in(&node, layer)?;
    match order {
        Some(Ordering::Less) => {
            let made = wrap_inside(node, layer)?;
            Ok(made)
        }
        Some(Ordering::Equal) => Ok(node),
        Some(Ordering::Greater) => {
            let made = wrap_alone(node, layer)?;
            Ok(made)
        }
        None => {
            if node.is_ui() {
                return Ok(node);
            }
            let made = wrap_alone(node, layer)?;
            Ok(made)
        }
    }
}

/// An attribute element of a layer that is further out, with the layer inside.
#[cycle(wraps)]
#[tactic(auto, using(crate::proofs::Wrapping::inside_wrapped))]
fn wrap_inside(node: Detached, layer: &Layer) -> Result<Detached, NoMemory>
    requires { order_in layer.now node ≡ Some Ordering.Less }
    ensures { IfOk result (λ made. made ≡ wrapped_node layer.now node) }
{
    let mut node = node;
    let children = node.take_children();
    let wrapped = wrap_list(children, layer)?;
    node.set_children(wrapped);
    Ok(node)
}

/// The attribute element of the layer around a node.
fn wrap_alone(node: Detached, layer: &Layer) -> Result<Detached, NoMemory>
    ensures { IfOk result (λ made. made ≡ in_layer layer.now (node ∷ [])) }
{
    let nodes = alone(node)?;
    Detached::around(layer, nodes)
}

/// How the layer that a node is compares to this one: None where it is none.
fn order_in(node: &Detached, layer: &Layer) -> Result<Option<Ordering>, NoMemory>
    ensures { IfOk result (λ order. order ≡ order_in layer.now node.now) }
{
    match node.layer()? {
        Some(own) => {
            let order = own.compare(node.allocator(), layer)?;
            Ok(Some(order))
        }
        None => Ok(None),
    }
}

/// A list of one node.
fn alone(node: Detached) -> Result<Children, NoMemory>
    ensures { IfOk result (λ nodes. nodes.nodes ≡ node ∷ []) }
{
    let mut nodes = Children::new(node.allocator());
    nodes.push(node)?;
    Ok(nodes)
}

/// Puts a node behind the others, joined where they meet.
fn push_joined(made: &mut Children, node: Detached) -> Result<(), NoMemory>
    ensures { OnOk result (made.new.nodes ≡ join made.old.nodes (node ∷ [])) }
{
    let nodes = alone(node)?;
    join_lists(made, nodes)
}

/// These nodes without a layer. Neighbours are joined.
#[cycle(unwraps)]
pub fn unwrap_list(nodes: Children, layer: &Layer) -> Result<Children, NoMemory>
    ensures { IfOk result (λ made. made.nodes ≡ unwrapped layer.now nodes.nodes) }
{
    let mut nodes = nodes;
    let mut made = Children::new(nodes.allocator());
    nodes.reverse();
    while let Some(node) = nodes.pop() {
        let unwrapped = unwrap_node(node, layer)?;
        join_lists(&mut made, unwrapped)?;
    }
    Ok(made)
}

/// A node without a layer.
#[cycle(unwraps)]
#[tactic(auto, using(crate::proofs::Wrapping::bare_unwrapped))]
fn unwrap_node(node: Detached, layer: &Layer) -> Result<Children, NoMemory>
    ensures { IfOk result (λ made. made.nodes ≡ unwrapped_node layer.now node) }
{
    if !node.is_layer() {
        return alone(node);
    }
    unwrap_layer(node, layer)
}

/// An attribute element without a layer: one of this layer gives its children.
#[cycle(unwraps)]
#[tactic(auto, using(crate::proofs::Wrapping::same_unwrapped, crate::proofs::Wrapping::other_unwrapped))]
fn unwrap_layer(node: Detached, layer: &Layer) -> Result<Children, NoMemory>
    requires { is_some (node_layer node) ≡ true }
    ensures { IfOk result (λ made. made.nodes ≡ unwrapped_node layer.now node) }
{
    let is_same = is_of(&node, layer)?;
    let mut node = node;
    let children = node.take_children();
    let inner = unwrap_list(children, layer)?;
    if is_same {
        return Ok(inner);
    }
    node.set_children(inner);
    alone(node)
}

/// Whether an attribute element is one of this layer.
fn is_of(node: &Detached, layer: &Layer) -> Result<bool, NoMemory>
    ensures { IfOk result (λ same. same ≡ both_layers (Some layer.now) (node_layer node.now)) }
{
    match node.layer()? {
        Some(own) => Ok(layer.same(&own)),
        None => Ok(false),
    }
}
