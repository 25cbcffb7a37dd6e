//! Nodes that are wrapped and unwrapped.
use crate::report::Report;
use crate::samples::{name, view_text};
use ck_base::attributes::ViewAttrs;
use std::alloc::Global;
use view_tree::kind::{ElementKind, Layer, NodeKind};
use view_tree::node::{Children, Detached};
use view_wrap::{break_at, join_at, unwrap_range, wrap_range};

/// The rows of wrapping.
pub fn rows(alloc: Global, report: &mut Report<'_>) {
    report.row("nodes are broken and joined", breaks_and_joins(alloc));
    report.row("a layer goes around all but a leaf", wraps(alloc));
    report.row("a layer goes away from the middle", unwraps(alloc));
}

/// A text.
fn text(alloc: Global, text: &str) -> Option<Detached> {
    Detached::plain(alloc, NodeKind::Text(view_text(alloc, text)?)).ok()
}

/// The leaf of a marker.
fn leaf(alloc: Global) -> Option<Detached> {
    let kind = NodeKind::Element {
        kind: ElementKind::Ui,
        name: name(alloc, "l")?,
        attrs: ViewAttrs::new(alloc),
    };
    Detached::plain(alloc, kind).ok()
}

/// The layer of a link.
fn link(alloc: Global) -> Option<Layer> {
    Some(Layer {
        name: name(alloc, "a")?,
        attrs: ViewAttrs::new(alloc),
        priority: 5,
        id: None,
    })
}

/// Puts a node behind the others, and answers whether that was done.
fn pushes(nodes: &mut Children, node: Option<Detached>) -> bool {
    match node {
        Some(node) => nodes.push(node).is_ok(),
        None => false,
    }
}

/// Two characters, a leaf, and two characters more.
fn sample(alloc: Global) -> Option<Children> {
    let mut nodes = Children::new(alloc);
    if pushes(&mut nodes, text(alloc, "ab"))
        && pushes(&mut nodes, leaf(alloc))
        && pushes(&mut nodes, text(alloc, "cd"))
    {
        Some(nodes)
    } else {
        None
    }
}

fn breaks_and_joins(alloc: Global) -> bool {
    match sample(alloc) {
        Some(mut nodes) => is_broken_and_joined(&mut nodes),
        None => false,
    }
}

/// Whether the sample is broken in its first text, and joined again.
fn is_broken_and_joined(nodes: &mut Children) -> bool {
    match break_at(nodes, 1) {
        Ok(rest) => {
            nodes.len() == 1 && rest.len() == 3 && join_at(nodes, rest).is_ok() && nodes.len() == 3
        }
        Err(_) => false,
    }
}

fn wraps(alloc: Global) -> bool {
    match (sample(alloc), link(alloc)) {
        (Some(mut nodes), Some(layer)) => {
            wrap_range(&mut nodes, 0, 5, &layer).is_ok()
                && are_linked(&nodes, [true, false, true].as_slice())
        }
        _ => false,
    }
}

/// Whether these nodes are layers, in order.
fn are_linked(nodes: &Children, wanted: &[bool]) -> bool {
    let nodes = nodes.as_slice();
    nodes.len() == wanted.len()
        && nodes
            .iter()
            .zip(wanted)
            .all(|(node, wanted)| node.is_layer() == *wanted)
}

fn unwraps(alloc: Global) -> bool {
    match (sample(alloc), link(alloc)) {
        (Some(mut nodes), Some(layer)) => {
            wrap_range(&mut nodes, 0, 5, &layer).is_ok()
                && unwrap_range(&mut nodes, 1, 4, &layer).is_ok()
                && are_linked(&nodes, [true, false, false, false, true].as_slice())
        }
        _ => false,
    }
}
