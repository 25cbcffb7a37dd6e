//! Views that are changed in place, and lists of nodes that stand alone.
ghost use Rattle.std.specs.Prelude.{◌≡◌, true, IfSome};
ghost use Rattle.view_tree.specs.Kinds.{is_element};

use crate::report::Report;
use crate::samples::{name, view_text};
use ck_base::attributes::ViewAttrs;
use std::alloc::Global;
use view_tree::kind::{ElementKind, NodeKind};
use view_tree::node::{Children, Detached, NodeRef, ViewNumber};
use view_tree::path::ViewPath;
use view_tree::view::{View, ViewFault};

/// The rows of views.
pub fn rows(alloc: Global, report: &mut Report<'_>) {
    report.row(
        "the nearest numbered element counts",
        on_sample(alloc, counts),
    );
    report.row(
        "a node without a place changes nothing",
        on_sample(alloc, places_nothing),
    );
    report.row("a node goes out", on_sample(alloc, takes_out));
    report.row("children go out and in", on_sample(alloc, moves_children));
    report.row(
        "children go in where there are none",
        on_sample(alloc, refuses_children),
    );
    report.row("a list is cut and joined", cuts_and_joins(alloc));
    report.row("a node stands alone with its children", stands_alone(alloc));
}

/// What a row answers on a view of an `li` with the number 0, in it a `span` without a number, and in that the text `ab`.
fn on_sample<Row: Fn(Global, &mut View) -> bool>(alloc: Global, row: Row) -> bool
    requires { Row.IsAlwaysCallable row }
{
    match sample(alloc) {
        Some(mut view) => row(alloc, &mut view),
        None => false,
    }
}

/// The view that rows begin with.
fn sample(alloc: Global) -> Option<View> {
    let mut view = View::new(alloc);
    let item = view.make(container(alloc, "li")?).ok()?;
    if puts(alloc, &mut view, &[], Some(item))
        && puts(alloc, &mut view, &[0], element(alloc, "span"))
        && puts(alloc, &mut view, &[0, 0], text(alloc, "ab"))
    {
        Some(view)
    } else {
        None
    }
}

/// A container of this name.
pub fn container(alloc: Global, text: &str) -> Option<NodeKind>
    ensures { IfSome result (λ kind. is_element kind ≡ true) }
{
    match name(alloc, text) {
        Some(name) => Some(NodeKind::Element {
            kind: ElementKind::Container,
            name,
            attrs: ViewAttrs::new(alloc),
        }),
        None => None,
    }
}

/// A container without a number.
fn element(alloc: Global, name: &str) -> Option<Detached> {
    Detached::plain(alloc, container(alloc, name)?).ok()
}

/// A text.
fn text(alloc: Global, text: &str) -> Option<Detached> {
    Detached::plain(alloc, NodeKind::Text(view_text(alloc, text)?)).ok()
}

/// The path of these indices.
fn path(alloc: Global, indices: &[u64]) -> Option<ViewPath> {
    match indices.to_vec(alloc) {
        Ok(indices) => Some(ViewPath::new(indices)),
        Err(_) => None,
    }
}

/// Puts a node first among the children of the element at a path, and answers whether that was done.
fn puts(alloc: Global, view: &mut View, parent: &[u64], node: Option<Detached>) -> bool {
    match (path(alloc, parent), node) {
        (Some(parent), Some(node)) => view.place(&parent, 0, node).is_ok(),
        _ => false,
    }
}

/// The number of the first node.
fn first_number(view: &View) -> Option<ViewNumber> {
    match view.nodes().get(0) {
        Some(node) => node.number(),
        None => None,
    }
}

/// How many changes the first node has counted.
fn first_changes(view: &View) -> Option<u64> {
    match first_number(view) {
        Some(number) => view.changes(number),
        None => None,
    }
}

/// How many children the element at a path has, or how many scalar values the text there.
fn count_at(view: &View, path: &ViewPath) -> Option<u64> {
    match view.read(path) {
        Some(NodeRef::Element { count, .. }) => Some(count),
        Some(NodeRef::Text(text)) => Some(text.scalars().len() as u64),
        None => None,
    }
}

fn counts(alloc: Global, view: &mut View) -> bool {
    match path(alloc, &[0, 0, 0]) {
        Some(inner) => first_changes(view) == Some(2) && count_at(view, &inner) == Some(2),
        None => false,
    }
}

/// Whether a node is refused behind the end.
fn refuses(view: &mut View, parent: &ViewPath, index: u64, node: Option<Detached>) -> bool {
    match node {
        Some(node) => view.place(parent, index, node) == Err(ViewFault::NoPlace),
        None => false,
    }
}

fn places_nothing(alloc: Global, view: &mut View) -> bool {
    match path(alloc, &[0, 0]) {
        Some(span) => {
            refuses(view, &span, 2, text(alloc, "c"))
                && view.take_out(&span, 1).is_err()
                && first_changes(view) == Some(2)
        }
        None => false,
    }
}

fn takes_out(alloc: Global, view: &mut View) -> bool {
    match path(alloc, &[0, 0]) {
        Some(span) => {
            view.take_out(&span, 0).is_ok()
                && count_at(view, &span) == Some(0)
                && first_changes(view) == Some(3)
        }
        None => false,
    }
}

/// Takes the children of an element out and puts them in again, and answers whether that was done.
fn returns(view: &mut View, at: &ViewPath) -> bool {
    match view.take_children(at) {
        Some(children) => children.len() == 1 && view.put_children(at, children).is_ok(),
        None => false,
    }
}

fn moves_children(alloc: Global, view: &mut View) -> bool {
    match path(alloc, &[0, 0]) {
        Some(span) => {
            returns(view, &span)
                && count_at(view, &span) == Some(1)
                && first_changes(view) == Some(4)
        }
        None => false,
    }
}

fn refuses_children(alloc: Global, view: &mut View) -> bool {
    match path(alloc, &[0, 0]) {
        Some(span) => {
            view.put_children(&span, Children::new(alloc)).is_err()
                && first_changes(view) == Some(2)
        }
        None => false,
    }
}

/// A list of two texts.
fn two_texts(alloc: Global) -> Option<Children> {
    let mut list = Children::new(alloc);
    let (first, second) = (text(alloc, "a")?, text(alloc, "b")?);
    if list.push(first).is_ok() && list.push(second).is_ok() {
        Some(list)
    } else {
        None
    }
}

fn cuts_and_joins(alloc: Global) -> bool {
    match two_texts(alloc) {
        Some(list) => is_cut_and_joined(list),
        None => false,
    }
}

/// Whether a list of two is cut before the second, and joined again.
fn is_cut_and_joined(mut list: Children) -> bool {
    if list.is_empty() {
        return false;
    }
    match list.split_off(1) {
        Ok(back) => {
            list.len() == 1
                && list.append(back).is_ok()
                && list.get(1).is_some()
                && list.remove(0).is_some()
                && list.pop().is_some()
                && list.is_empty()
        }
        Err(_) => false,
    }
}

fn stands_alone(alloc: Global) -> bool {
    match (element(alloc, "p"), two_texts(alloc)) {
        (Some(node), Some(list)) => keeps(node, list),
        _ => false,
    }
}

/// Whether a container outside of a view takes two children and gives them.
fn keeps(mut node: Detached, list: Children) -> bool {
    if node.layer().is_err() || node.text().is_some() {
        return false;
    }
    node.set_children(list);
    node.take_children().len() == 2
}
