//! The list of nodes at a path.
ghost use Rattle.std.specs.Prelude.{◌≡◌, [], option_map, option_copied};
ghost use Rattle.view_definitions.specs.Place.{node_at, list_at, put_at, numbered_or, numbered_on, counted_in, counted, changes_in, changes_of};

use crate::node::{Children, Detached, Node, ViewNumber};

/// Takes the nodes at a path out of these: None exactly where no element stands there, and then nothing has changed. It counts no
/// change, and takes no memory.
pub fn take_list(nodes: &mut Children, path: &[u64]) -> Option<Children>
    ensures list { option_map (λ list. list.nodes) result ≡ list_at path.now nodes.old.nodes }
    ensures left { nodes.new.nodes ≡ put_at path.now [] nodes.old.nodes }
{
    let Some((first, rest)) = path.split_first() else {
        return Some(nodes.take());
    };
    let first = *first as usize;
    if first >= nodes.nodes.len() {
        return None;
    }
    let node = &mut nodes.nodes[first];
    let Node::Element(_, children) = &mut node.node else {
        return None;
    };
    take_list(children, rest)
}

/// Puts these nodes in the place of those at a path, if an element stands there. It counts no change, and takes no memory.
pub fn put_list(nodes: &mut Children, path: &[u64], list: Children)
    ensures { nodes.new.nodes ≡ put_at path.now list.nodes nodes.old.nodes }
{
    let Some((first, rest)) = path.split_first() else {
        *nodes = list;
        return;
    };
    let first = *first as usize;
    if first >= nodes.nodes.len() {
        return;
    }
    let node = &mut nodes.nodes[first];
    let Node::Element(_, children) = &mut node.node else {
        return;
    };
    put_list(children, rest, list);
}

/// Counts a change of the list at a path, at the nearest element on the path that has a number. It answers whether there is one. It takes
/// no memory.
#[cycle(counts)]
pub fn count_change(nodes: &mut Children, path: &[u64]) -> bool
    ensures counted { result ≡ numbered_on path.now nodes.old.nodes }
    ensures nodes { nodes.new.nodes ≡ counted path.now nodes.old.nodes }
{
    let Some((first, rest)) = path.split_first() else {
        return false;
    };
    let first = *first as usize;
    if first >= nodes.nodes.len() {
        return false;
    }
    let node = &mut nodes.nodes[first];
    count_inside(node, rest)
}

/// Counts a change of the list at a path in a node, at the nearest element with a number on it, or else at the node itself.
#[cycle(counts)]
#[tactic(auto, using(crate::proofs::Listed::listed))]
fn count_inside(node: &mut Detached, path: &[u64]) -> bool
    ensures counted { result ≡ numbered_or (numbered_on path.now) node.old }
    ensures node { node.new ≡ counted_in (numbered_on path.now) (counted path.now) node.old }
{
    let Node::Element(head, children) = &mut node.node else {
        return false;
    };
    if count_change(children, path) {
        return true;
    }
    let has_number = head.number.is_some();
    head.count_change();
    has_number
}

/// The node at a path: None exactly where none stands there, and for the empty path.
pub fn find<'a>(nodes: &'a Children, path: &[u64]) -> Option<&'a Detached>
    ensures { option_copied result ≡ node_at path.now nodes.now.nodes }
{
    let Some((first, rest)) = path.split_first() else {
        return None;
    };
    let Some(node) = nodes.get(*first) else {
        return None;
    };
    if rest.is_empty() {
        return Some(node);
    }
    let Some(children) = node.children() else {
        return None;
    };
    find(children, rest)
}

/// The count of changes of the first element with this number, in document order.
#[cycle(changes)]
pub fn changes_of(nodes: &Children, number: ViewNumber) -> Option<u64>
    ensures { result ≡ changes_of number nodes.now.nodes }
{
    for node in &nodes.nodes {
        if let Some(changes) = changes_in(node, number) {
            return Some(changes);
        }
    }
    None
}

#[cycle(changes)]
#[tactic(auto, using(crate::proofs::Counts::changes_inner_is))]
fn changes_in(node: &Detached, number: ViewNumber) -> Option<u64>
    ensures { result ≡ changes_in number node.now }
{
    match &node.node {
        Node::Text(_, _) => None,
        Node::Element(head, children) => {
            if head.number == Some(number) {
                Some(head.changes)
            } else {
                changes_of(children, number)
            }
        }
    }
}
