//! Shapes with an element's content in their slots.
ghost use Rattle.std.specs.Prelude.{◌≡◌, ◌≤◌, ◌++◌, OnOk, IfOk, ℕ, Some, true};
ghost use Rattle.view_definitions.specs.Node.{element, nodes_of};
ghost use Rattle.view_tree.specs.Changes.{IsUnnumbered, numbered};
ghost use Rattle.view_tree.specs.Kinds.{kind_of};
ghost use Rattle.converter_definitions.specs.Form.{forms_of};
ghost use Rattle.converter_definitions.specs.Parts.{shape_of, shapes_of};
ghost use Rattle.converter_definitions.specs.Shape.{slot_count, inner_slots, is_shape};
ghost use Rattle.converter_definitions.specs.Views.{view_kind, head_of, filled, filled_inner};
ghost use Rattle.downcast_definitions.specs.Rows.{only, with_number};
ghost use Rattle.down_whole.specs.Fill.{left_of};

use ck_base::NoMemory;
use ck_base::attributes::ViewAttrs;
use ck_base::name::Name;
use converter_definitions::kind::ShapeKind;
use converter_definitions::shape::{Shape, ShapeNode};
use std::alloc::Global;
use std::mem;
use view_tree::kind::{ElementKind, NodeKind};
use view_tree::node::{Children, Detached};

/// The kind of view element that a kind of element of a shape is.
fn view_kind(kind: ShapeKind) -> ElementKind
    ensures { kind_of result ≡ view_kind kind }
{
    match kind {
        ShapeKind::Container => ElementKind::Container,
        ShapeKind::Empty => ElementKind::Empty,
        ShapeKind::Ui => ElementKind::Ui,
    }
}

/// Puts a node of a shape behind these nodes. Its slot takes the content.
#[cycle(filling)]
fn fill_node(
    alloc: Global,
    out: &mut Children,
    node: &ShapeNode<ViewAttrs>,
    content: &mut Children,
) -> Result<(), NoMemory>
    requires { slot_count (shape_of node.now) ≤ 1 }
    ensures nodes { OnOk result (out.new.nodes ≡ out.old.nodes ++ filled content.old.nodes (shape_of node.now)) }
    ensures left { OnOk result (content.new.nodes ≡ left_of (slot_count (shape_of node.now)) content.old.nodes) }
{
    match node {
        ShapeNode::Slot => {
            let inner = mem::replace(content, Children::new(alloc));
            out.append(inner)
        }
        ShapeNode::Text(text) => {
            let text = text.copy()?;
            out.push(Detached::plain(alloc, NodeKind::Text(text))?)
        }
        ShapeNode::Element {
            kind,
            name,
            attrs,
            children,
        } => {
            let element = fill_element(alloc, *kind, name, attrs, children.as_slice(), content)?;
            out.push(element)
        }
    }
}

/// Puts nodes of a shape behind these nodes. The slot among them takes the content.
#[cycle(filling)]
#[tactic(auto, using(crate::proofs::Filling::seam, crate::proofs::Filling::left_twice))]
fn fill_nodes(
    alloc: Global,
    out: &mut Children,
    nodes: &[ShapeNode<ViewAttrs>],
    content: &mut Children,
) -> Result<(), NoMemory>
    requires { inner_slots (forms_of (shapes_of nodes.now)) ≤ 1 }
    ensures nodes { OnOk result (out.new.nodes ≡ out.old.nodes ++ filled_inner content.old.nodes (forms_of (shapes_of nodes.now))) }
    ensures left { OnOk result (content.new.nodes ≡ left_of (inner_slots (forms_of (shapes_of nodes.now))) content.old.nodes) }
{
    match nodes.split_first() {
        None => Ok(()),
        Some((node, rest)) => {
            fill_node(alloc, out, node, content)?;
            fill_nodes(alloc, out, rest, content)?;
            Ok(())
        }
    }
}

/// An element of a shape. The slot in it takes the content.
#[cycle(filling)]
fn fill_element(
    alloc: Global,
    kind: ShapeKind,
    name: &Name,
    attrs: &ViewAttrs,
    children: &[ShapeNode<ViewAttrs>],
    content: &mut Children,
) -> Result<Detached, NoMemory>
    requires { inner_slots (forms_of (shapes_of children.now)) ≤ 1 }
    ensures node { IfOk result (λ node. node
        ≡ element (head_of kind name.now attrs.now) (nodes_of (filled_inner content.old.nodes (forms_of (shapes_of children.now))))) }
    ensures left { OnOk result (content.new.nodes ≡ left_of (inner_slots (forms_of (shapes_of children.now))) content.old.nodes) }
{
    let mut inner = Children::new(alloc);
    fill_nodes(alloc, &mut inner, children, content)?;
    let kind = NodeKind::Element {
        kind: view_kind(kind),
        name: name.copy()?,
        attrs: attrs.copy()?,
    };
    let mut node = Detached::plain(alloc, kind)?;
    node.set_children(inner);
    Ok(node)
}

/// The view element that a shape is, with this content in its slot. It has no number.
pub(crate) fn filled_shape(
    alloc: Global,
    shape: &Shape<ViewAttrs>,
    content: Children,
) -> Result<Detached, NoMemory>
    ensures node { IfOk result (λ node. node ≡ only (filled content.nodes shape.now)) }
    ensures unnumbered { IfOk result IsUnnumbered }
    ensures uncounted { IfOk result (λ node. (number : ℕ) → numbered number node ≡ with_number (Some number) node) }
    ensures is_shape { is_shape shape.now ≡ true }
{
    let mut content = content;
    match shape.outermost() {
        ShapeNode::Element {
            kind,
            name,
            attrs,
            children,
        } => {
            let node = fill_element(alloc, *kind, name, attrs, children.as_slice(), &mut content)?;
            Ok(node)
        }
        ShapeNode::Slot => unreachable!(),
        ShapeNode::Text(_) => unreachable!(),
    }
}
