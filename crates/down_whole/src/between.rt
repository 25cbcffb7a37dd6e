//! The caret between the nodes of a row before it and those behind it.
ghost use Rattle.std.specs.Prelude.{◌≡◌, ◌++◌, OnOk, IfOk, drop, is_some, option_copied, Some};
ghost use Rattle.view_definitions.specs.Row.{both_layers};
ghost use Rattle.view_tree.specs.Changes.{inner_of};
ghost use Rattle.downcast_definitions.specs.Place.{as_place};
ghost use Rattle.down_whole.specs.Between.{is_in, opened_last, opened_first, without_last, last_text, first_text, text_of_both, with_texts_joined, between};
ghost use Rattle.down_whole.specs.Between.{end_of, caret_at};

use ck_base::NoMemory;
use ck_base::text::ViewText;
use std::alloc::Global;
use view_tree::kind::{Layer, NodeKind};
use view_tree::node::{Children, Detached};

/// Whether the other layer is there and is this one.
#[tactic(auto, using(crate::proofs::Seams::told))]
fn is_one(layer: &Layer, other: Option<&Layer>) -> bool
    ensures { result ≡ both_layers (Some layer.now) (option_copied other.entry) }
{
    match other {
        Some(other) => layer.same(other),
        None => false,
    }
}

/// Whether a node is an attribute element of this layer.
fn is_in(layer: &Layer, node: &Detached) -> Result<bool, NoMemory>
    ensures { IfOk result (λ test. test ≡ is_in layer.now node.now) }
{
    let own = node.layer()?;
    Ok(is_one(layer, own.as_ref()))
}

/// The children of a node.
fn into_children(node: Detached) -> Children
    ensures { result.nodes ≡ inner_of node }
{
    let mut node = node;
    node.take_children()
}

/// Takes the last node out if it is an attribute element of this layer, and answers what is in it.
#[tactic(auto, using(crate::proofs::Seams::last_opened, crate::proofs::Seams::last_inner, crate::proofs::Seams::last_kept, crate::proofs::Seams::last_stays))]
fn open_last(nodes: &mut Children, layer: &Layer) -> Result<Children, NoMemory>
    ensures nodes { OnOk result (nodes.new.nodes ≡ (opened_last layer.now nodes.old.nodes).0) }
    ensures inner { IfOk result (λ inner. inner.nodes ≡ (opened_last layer.now nodes.old.nodes).1) }
{
    let alloc = nodes.allocator();
    let Some(node) = nodes.pop() else {
        return Ok(Children::new(alloc));
    };
    if is_in(layer, &node)? {
        return Ok(into_children(node));
    }
    nodes.push(node)?;
    Ok(Children::new(alloc))
}

/// Takes the first node out if it is an attribute element of this layer, and answers what is in it.
fn open_first(nodes: &mut Children, layer: &Layer) -> Result<Children, NoMemory>
    ensures nodes { OnOk result (nodes.new.nodes ≡ (opened_first layer.now nodes.old.nodes).0) }
    ensures inner { IfOk result (λ inner. inner.nodes ≡ (opened_first layer.now nodes.old.nodes).1) }
{
    let alloc = nodes.allocator();
    let opens = match nodes.get(0) {
        Some(node) => is_in(layer, node)?,
        None => false,
    };
    if !opens {
        return Ok(Children::new(alloc));
    }
    match nodes.remove(0) {
        Some(node) => Ok(into_children(node)),
        None => Ok(Children::new(alloc)),
    }
}

/// The text that the nodes end with, if they do.
#[tactic(auto, using(crate::proofs::Seams::last_is, crate::proofs::Seams::none_last))]
fn last_text(nodes: &Children) -> Option<&ViewText>
    ensures { option_copied result ≡ last_text nodes.now.nodes }
{
    match nodes.as_slice().split_last() {
        Some((node, _)) => node.text(),
        None => None,
    }
}

/// The text that the nodes start with, if they do.
fn first_text(nodes: &Children) -> Option<&ViewText>
    ensures { option_copied result ≡ first_text nodes.now.nodes }
{
    match nodes.as_slice().split_first() {
        Some((node, _)) => node.text(),
        None => None,
    }
}

/// Puts the place of the caret between these nodes last.
fn push_place(place: &mut Vec<u64>, before: &Children, behind: &Children) -> Result<(), NoMemory>
    ensures { OnOk result (place.new.items ≡ place.old.items ++ as_place (end_of before.now.nodes) (is_some (first_text behind.now.nodes))) }
{
    let count = before.len() as u64;
    if let Some(text) = last_text(before) {
        place.push(count - 1)?;
        place.push(text.scalars().len() as u64)?;
        return Ok(());
    }
    place.push(count)?;
    if first_text(behind).is_some() {
        place.push(0)?;
    }
    Ok(())
}

/// The text of two, if both are there.
fn text_of_both(
    alloc: Global,
    one: Option<&ViewText>,
    other: Option<&ViewText>,
) -> Result<Option<Detached>, NoMemory>
    ensures { IfOk result (λ node. node ≡ text_of_both (option_copied one.entry) (option_copied other.entry)) }
{
    let (Some(one), Some(other)) = (one, other) else {
        return Ok(None);
    };
    let mut scalars = one.scalars().to_vec(alloc)?;
    scalars.extend_from_slice(other.scalars())?;
    let both = ViewText::from_scalars(scalars)?;
    let node = Detached::plain(alloc, NodeKind::Text(both))?;
    Ok(Some(node))
}

/// Takes the last node out.
#[tactic(auto, using(crate::proofs::Seams::last_out))]
fn drop_last(nodes: &mut Children)
    ensures { nodes.new.nodes ≡ without_last nodes.old.nodes }
{
    let _last = nodes.pop();
}

/// Takes the first node out.
#[tactic(auto, using(crate::proofs::Seams::first_out, crate::proofs::Seams::none_out))]
fn drop_first(nodes: &mut Children)
    ensures { nodes.new.nodes ≡ drop 1 nodes.old.nodes }
{
    let _first = nodes.remove(0);
}

/// Puts these nodes behind the others. Where two texts meet they are one.
#[tactic(auto, using(crate::proofs::Seams::texts_meet, crate::proofs::Seams::texts_apart))]
fn join_texts(left: &mut Children, right: Children) -> Result<(), NoMemory>
    ensures { OnOk result (left.new.nodes ≡ with_texts_joined left.old.nodes right.nodes) }
{
    let mut right = right;
    match text_of_both(left.allocator(), last_text(left), first_text(&right))? {
        Some(text) => {
            drop_last(left);
            drop_first(&mut right);
            left.push(text)?;
            left.append(right)?;
            Ok(())
        }
        None => {
            left.append(right)?;
            Ok(())
        }
    }
}

/// The nodes of a row with the caret in these layers between those before it and those behind it. The place where the caret is seen is put
/// last.
#[tactic(auto, using(crate::proofs::Seams::layer_between))]
pub(crate) fn between(
    left: Children,
    layers: &[Layer],
    right: Children,
    place: &mut Vec<u64>,
) -> Result<Children, NoMemory>
    ensures nodes { IfOk result (λ made. made.nodes ≡ between left.nodes layers.now right.nodes) }
    ensures place { OnOk result (place.new.items ≡ place.old.items ++ caret_at left.nodes layers.now right.nodes) }
{
    let mut left = left;
    let mut right = right;
    let Some((layer, layers)) = layers.split_first() else {
        push_place(place, &left, &right)?;
        join_texts(&mut left, right)?;
        return Ok(left);
    };
    let before = open_last(&mut left, layer)?;
    let behind = open_first(&mut right, layer)?;
    place.push(left.len() as u64)?;
    let inner = between(before, layers, behind, place)?;
    left.push(Detached::around(layer, inner)?)?;
    left.append(right)?;
    Ok(left)
}
