//! What a shape may be made of.
ghost use Rattle.std.specs.Prelude.{◌≡◌, ◌-◌, ◌^◌, min};
ghost use Rattle.converter_definitions.specs.Form.{forms_of, form_depth, inner_depth};
ghost use Rattle.converter_definitions.specs.Parts.{shape_of, shapes_of};
ghost use Rattle.converter_definitions.specs.Shape.{may_hold, may_stand, fits, fit_in, form_count, inner_count, slot_count, inner_slots, is_outermost};
ghost use Rattle.converter_definitions.specs.Shape.{is_shape};

use crate::kind::ShapeKind;
use crate::shape::ShapeNode;

/// The most nodes of a shape.
const MAX_NODES: u32 = 32;

/// The most levels of a shape.
const MAX_LEVELS: u32 = 8;

/// Whether the node may be a shape.
pub(crate) fn is_shape<A>(node: &ShapeNode<A>) -> bool
    ensures { result ≡ is_shape (shape_of node.now) }
{
    let extent = extent_of(node);
    is_outermost(node)
        && fits(node)
        && extent.slots <= 1
        && extent.nodes <= MAX_NODES
        && extent.levels <= MAX_LEVELS
}

/// A container or an empty element.
fn is_outermost<A>(node: &ShapeNode<A>) -> bool
    ensures { result ≡ is_outermost (shape_of node.now) }
{
    match node {
        ShapeNode::Slot | ShapeNode::Text(_) => false,
        ShapeNode::Element { kind, .. } => matches!(kind, ShapeKind::Container | ShapeKind::Empty),
    }
}

/// Whether an element of the kind may be a child of one of the other kind.
fn may_hold(parent: ShapeKind, child: ShapeKind) -> bool
    ensures { result ≡ may_hold parent child }
{
    match parent {
        ShapeKind::Container => true,
        ShapeKind::Empty => false,
        ShapeKind::Ui => matches!(child, ShapeKind::Ui),
    }
}

/// Whether a node may stand in an element of the kind: a slot in a container, and a text in a UI element.
fn may_stand<A>(parent: ShapeKind, node: &ShapeNode<A>) -> bool
    ensures { result ≡ may_stand parent (shape_of node.now) }
{
    match node {
        ShapeNode::Slot => matches!(parent, ShapeKind::Container),
        ShapeNode::Text(_) => matches!(parent, ShapeKind::Ui),
        ShapeNode::Element { kind, .. } => may_hold(parent, *kind),
    }
}

/// Whether each node in a node stands where it may.
#[cycle(fitting)]
fn fits<A>(node: &ShapeNode<A>) -> bool
    ensures { result ≡ fits (shape_of node.now) }
{
    match node {
        ShapeNode::Slot | ShapeNode::Text(_) => true,
        ShapeNode::Element { kind, children, .. } => fit_in(*kind, children.as_slice()),
    }
}

/// Whether each of these nodes may stand in an element of the kind, and each node in them where it stands.
#[cycle(fitting)]
fn fit_in<A>(parent: ShapeKind, nodes: &[ShapeNode<A>]) -> bool
    ensures { result ≡ fit_in parent (forms_of (shapes_of nodes.now)) }
{
    match nodes.split_first() {
        None => true,
        Some((node, rest)) => may_stand(parent, node) && fits(node) && fit_in(parent, rest),
    }
}

/// How much there is of a shape, each number at most the largest one.
#[derive(Clone, Copy)]
struct Extent {
    /// How many nodes there are.
    nodes: u32,
    /// How many of them are slots.
    slots: u32,
    /// How many levels of nodes there are.
    levels: u32,
}

/// How much there is of a node and what is in it.
#[cycle(measuring)]
fn extent_of<A>(node: &ShapeNode<A>) -> Extent
    ensures nodes { result.nodes ≡ min (form_count (shape_of node.now)) (2 ^ 32 - 1) }
    ensures slots { result.slots ≡ min (slot_count (shape_of node.now)) (2 ^ 32 - 1) }
    ensures levels { result.levels ≡ min (form_depth (shape_of node.now)) (2 ^ 32 - 1) }
{
    match node {
        ShapeNode::Slot => Extent {
            nodes: 1,
            slots: 1,
            levels: 1,
        },
        ShapeNode::Text(_) => Extent {
            nodes: 1,
            slots: 0,
            levels: 1,
        },
        ShapeNode::Element { children, .. } => {
            let inside = extent_among(children.as_slice());
            Extent {
                nodes: inside.nodes.saturating_add(1),
                slots: inside.slots,
                levels: inside.levels.saturating_add(1),
            }
        }
    }
}

/// How much there is of these nodes and what is in them.
#[cycle(measuring)]
fn extent_among<A>(nodes: &[ShapeNode<A>]) -> Extent
    ensures nodes { result.nodes ≡ min (inner_count (forms_of (shapes_of nodes.now))) (2 ^ 32 - 1) }
    ensures slots { result.slots ≡ min (inner_slots (forms_of (shapes_of nodes.now))) (2 ^ 32 - 1) }
    ensures levels { result.levels ≡ min (inner_depth (forms_of (shapes_of nodes.now))) (2 ^ 32 - 1) }
{
    match nodes.split_first() {
        None => Extent {
            nodes: 0,
            slots: 0,
            levels: 0,
        },
        Some((node, rest)) => {
            let first = extent_of(node);
            let others = extent_among(rest);
            Extent {
                nodes: first.nodes.saturating_add(others.nodes),
                slots: first.slots.saturating_add(others.slots),
                levels: first.levels.max(others.levels),
            }
        }
    }
}
