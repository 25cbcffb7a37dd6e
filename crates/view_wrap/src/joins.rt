//! Lists of nodes, joined where they meet.
ghost use Rattle.std.specs.Prelude.{◌≡◌, ◌++◌, [], ◌∷◌, ◌&&◌, true, is_some, OnOk, IfOk};
ghost use Rattle.view_definitions.specs.Row.{both_layers, join, join_node};
ghost use Rattle.view_tree.specs.Changes.{node_layer, node_text, inner_of};

use ck_base::NoMemory;
use ck_base::text::ViewText;
use std::alloc::Global;
use view_tree::kind::NodeKind;
use view_tree::node::{Children, Detached};

/// Puts these nodes behind the others, joined where they meet, on every level. It touches the last node of the left and the first of the
/// right, level by level, and no other.
#[cycle(joins)]
#[tactic(auto, using(crate::proofs::Meeting::join_stops, crate::proofs::Meeting::join_goes))]
pub fn join_lists(left: &mut Children, right: Children) -> Result<(), NoMemory>
    ensures { OnOk result (left.new.nodes ≡ join left.old.nodes right.nodes) }
{
    let mut right = right;
    let Some(last) = left.pop() else {
        return left.append(right);
    };
    let Some(first) = right.remove(0) else {
        return left.push(last);
    };
    meet(left, last, first)?;
    left.append(right)?;
    Ok(())
}

/// Puts two nodes behind the others, or the one that they are joined to.
#[cycle(joins)]
#[tactic(auto, using(crate::proofs::Meeting::meet_apart))]
fn meet(left: &mut Children, last: Detached, first: Detached) -> Result<(), NoMemory>
    ensures { OnOk result (left.new.nodes ≡ left.old.nodes ++ join_node last (first ∷ [])) }
{
    if are_texts(&last, &first) {
        let joined = joined_text(left.allocator(), last, first)?;
        return left.push(joined);
    }
    if are_one(&last, &first)? {
        let joined = joined_layers(last, first)?;
        return left.push(joined);
    }
    left.push(last)?;
    left.push(first)
}

/// The first of two attribute elements of one layer, with the children of both.
#[cycle(joins)]
#[tactic(auto, using(crate::proofs::Meeting::layers_meet))]
fn joined_layers(last: Detached, first: Detached) -> Result<Detached, NoMemory>
    requires { both_layers (node_layer last) (node_layer first) ≡ true }
    ensures { IfOk result (λ node. node ∷ [] ≡ join_node last (first ∷ [])) }
{
    let mut last = last;
    let mut children = last.take_children();
    join_lists(&mut children, into_children(first))?;
    last.set_children(children);
    Ok(last)
}

/// The children of a node.
fn into_children(node: Detached) -> Children
    ensures { result.nodes ≡ inner_of node }
{
    let mut node = node;
    node.take_children()
}

/// Whether both are texts.
fn are_texts(node: &Detached, other: &Detached) -> bool
    ensures { result ≡ (is_some (node_text node.now) && is_some (node_text other.now)) }
{
    node.text().is_some() && other.text().is_some()
}

/// The text of two.
#[tactic(auto, using(crate::proofs::Meeting::texts_meet))]
fn joined_text(alloc: Global, last: Detached, first: Detached) -> Result<Detached, NoMemory>
    requires { (is_some (node_text last) && is_some (node_text first)) ≡ true }
    ensures { IfOk result (λ node. node ∷ [] ≡ join_node last (first ∷ [])) }
{
    let (Some(text), Some(more)) = (last.text(), first.text()) else {
        unreachable!()
    };
    let text = text_of_both(alloc, text, more)?;
    Detached::plain(alloc, NodeKind::Text(text))
}

/// The one text, and the other behind it.
fn text_of_both(alloc: Global, text: &ViewText, more: &ViewText) -> Result<ViewText, NoMemory>
    ensures { IfOk result (λ joined. joined ≡ text.now ++ more.now) }
{
    let mut scalars = text.scalars().to_vec(alloc)?;
    scalars.extend_from_slice(more.scalars())?;
    ViewText::from_scalars(scalars)
}

/// Whether both are attribute elements without numbers, equal in name, attributes, priority and id.
#[tactic(auto, using(crate::proofs::Meeting::both_told))]
fn are_one(node: &Detached, other: &Detached) -> Result<bool, NoMemory>
    ensures { IfOk result (λ one. one ≡ both_layers (node_layer node.now) (node_layer other.now)) }
{
    let Some(layer) = node.layer()? else {
        return Ok(false);
    };
    let Some(other) = other.layer()? else {
        return Ok(false);
    };
    Ok(layer.same(&other))
}
