//! A list of nodes, broken before an entry of its row.
ghost use Rattle.std.specs.Prelude.{◌≡◌, ◌≤◌, ◌++◌, [], ◌∷◌, Some, IfOk, length, option_to_list, take, drop};
ghost use Rattle.view_definitions.specs.Node.{text};
ghost use Rattle.view_definitions.specs.Layer.{in_layer};
ghost use Rattle.view_tree.specs.Changes.{node_layer};
ghost use Rattle.view_wrap.specs.Cut.{entries_in, entries_of, left_behind, place_of, cut, cut_node};

use ck_base::NoMemory;
use ck_base::text::ViewText;
use std::alloc::Global;
use view_tree::kind::{Layer, NodeKind};
use view_tree::node::{Children, Detached};

/// Keeps what stands before an entry, and answers the rest.
#[cycle(breaks)]
#[tactic(auto, using(crate::proofs::Cutting::even_front, crate::proofs::Cutting::even_back, crate::proofs::Cutting::whole_front, crate::proofs::Cutting::whole_back, crate::proofs::Cutting::inside_front, crate::proofs::Cutting::inside_back))]
pub fn break_list(nodes: &mut Children, at: u64) -> Result<Children, NoMemory>
    ensures front { IfOk result (λ _. nodes.new.nodes ≡ (cut at nodes.old.nodes).0) }
    ensures back { IfOk result (λ back. back.nodes ≡ (cut at nodes.old.nodes).1) }
{
    let (index, inside) = place_of(nodes, at);
    let mut back = nodes.split_off(index)?;
    if inside == 0 {
        return Ok(back);
    }
    let Some(node) = back.remove(0) else {
        return Ok(back);
    };
    match break_node(nodes, node, inside)? {
        Some(rest) => {
            let whole = with_first(rest, back)?;
            Ok(whole)
        }
        None => Ok(back),
    }
}

/// Breaks a node: the first part is put behind the others, and the answer is the second, if there is one.
#[cycle(breaks)]
fn break_node(front: &mut Children, node: Detached, at: u64) -> Result<Option<Detached>, NoMemory>
    ensures front { IfOk result (λ _. front.new.nodes ≡ front.old.nodes ++ (cut_node at node).0) }
    ensures rest { IfOk result (λ rest. option_to_list rest ≡ (cut_node at node).1) }
{
    if let Some(text) = node.text() {
        let rest = break_text(front, text, at)?;
        return Ok(Some(rest));
    }
    match node.layer()? {
        Some(layer) => {
            let rest = break_layer(front, node, layer, at)?;
            Ok(Some(rest))
        }
        None => {
            front.push(node)?;
            Ok(None)
        }
    }
}

/// Breaks an attribute element of this layer.
#[cycle(breaks)]
#[tactic(auto, using(crate::proofs::Cutting::layer_front, crate::proofs::Cutting::layer_rest))]
fn break_layer(
    front: &mut Children,
    node: Detached,
    layer: Layer,
    at: u64,
) -> Result<Detached, NoMemory>
    requires { node_layer node ≡ Some layer }
    ensures front { IfOk result (λ _. front.new.nodes ≡ front.old.nodes ++ (cut_node at node).0) }
    ensures rest { IfOk result (λ rest. rest ∷ [] ≡ (cut_node at node).1) }
{
    let mut node = node;
    let mut children = node.take_children();
    let back = break_list(&mut children, at)?;
    node.set_children(children);
    front.push(node)?;
    let rest = around(layer, back)?;
    Ok(rest)
}

/// Breaks a text.
fn break_text(front: &mut Children, whole: &ViewText, at: u64) -> Result<Detached, NoMemory>
    ensures front { IfOk result (λ _. front.new.nodes ≡ front.old.nodes ++ text (take at whole.now) ∷ []) }
    ensures rest { IfOk result (λ rest. rest ≡ text (drop at whole.now)) }
{
    let alloc = front.allocator();
    let scalars = whole.scalars();
    let at = scalars.len().min(at as usize);
    let (first, rest) = scalars.split_at(at);
    let first = text_node(alloc, first)?;
    front.push(first)?;
    text_node(alloc, rest)
}

/// The text of these scalar values.
fn text_node(alloc: Global, scalars: &[char]) -> Result<Detached, NoMemory>
    ensures { IfOk result (λ node. node ≡ text scalars.now) }
{
    let text = ViewText::from_scalars(scalars.to_vec(alloc)?)?;
    Detached::plain(alloc, NodeKind::Text(text))
}

/// The attribute element of this layer around these nodes.
pub fn around(layer: Layer, nodes: Children) -> Result<Detached, NoMemory>
    ensures { IfOk result (λ node. node ≡ in_layer layer nodes.nodes) }
{
    Detached::around(&layer, nodes)
}

/// These nodes behind a first one.
fn with_first(node: Detached, nodes: Children) -> Result<Children, NoMemory>
    ensures { IfOk result (λ made. made.nodes ≡ node ∷ nodes.nodes) }
{
    let mut made = Children::new(nodes.allocator());
    made.push(node)?;
    made.append(nodes)?;
    Ok(made)
}

/// How many nodes stand as a whole before an entry, and how many entries stand behind them before it.
fn place_of(nodes: &Children, at: u64) -> (u64, u64)
    ensures within { result.0 ≤ length nodes.now.nodes }
    ensures index { result.0 ≡ (place_of at nodes.now.nodes).0 }
    ensures inside { result.1 ≡ (place_of at nodes.now.nodes).1 }
{
    let mut index = 0;
    let mut rest = at;
    for node in nodes.as_slice() {
        match left_behind(node, rest) {
            Some(left) => rest = left,
            None => return (index, rest),
        }
        index += 1;
    }
    (index, rest)
}

/// What is left of a number behind the entries for which a node stands: None exactly where it is less.
#[cycle(counts)]
fn left_behind(node: &Detached, at: u64) -> Option<u64>
    ensures { result ≡ left_behind (entries_in node.now) at }
{
    if let Some(text) = node.text() {
        return at.checked_sub(text.scalars().len() as u64);
    }
    if !node.is_layer() {
        return at.checked_sub(1);
    }
    match node.children() {
        Some(children) => left_behind_all(children, at),
        None => Some(at),
    }
}

/// What is left of a number behind the entries for which nodes stand: None exactly where it is less.
#[cycle(counts)]
fn left_behind_all(nodes: &Children, at: u64) -> Option<u64>
    ensures { result ≡ left_behind (entries_of nodes.now.nodes) at }
{
    let mut rest = at;
    for node in nodes.as_slice() {
        match left_behind(node, rest) {
            Some(left) => rest = left,
            None => return None,
        }
    }
    Some(rest)
}
