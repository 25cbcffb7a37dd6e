//! What places of the view mean, read from its nodes.
ghost use Rattle.std.specs.Prelude.{◌≡◌, ◌<◌, ◌≤◌, ◌+◌, ◌^◌, ◌++◌, [], ◌∷◌, length, IfSome, option_map, option_and_then, option_copied};
ghost use Rattle.view_tree.specs.Kinds.{kind_of};
ghost use Rattle.downcast_definitions.specs.Meant.{by_kind};
ghost use Rattle.pos_mapper.specs.Reading.{slots_in, only_number, between_nodes, in_text, content_of, in_slot, in_node, in_nodes, read, reads, read_step};

use crate::lengths::{before_node, kind_of, sum};
use crate::parts::Slot;
use crate::table::Table;
use ck_base::path::Path;
use view_tree::kind::ElementKind;
use view_tree::node::{Detached, ViewNumber};

/// What stays the same while a place is read: which view element has which slot, and the offset at the place's end.
#[derive(Clone, Copy)]
pub struct Reader<'a> {
    pub table: &'a Table,
    pub last: u64,
}

/// An element of the view: its number, if it has one, and its children.
#[derive(Clone, Copy)]
struct Element<'a> {
    number: Option<ViewNumber>,
    children: &'a [Detached],
}

/// The way from a list of nodes to a slot, the last index of which is where the content begins, and how many nodes stand behind the content.
#[derive(Clone, Copy)]
struct Way<'a> {
    steps: &'a [u64],
    behind: u64,
}

/// A position so far, with its last number.
fn with_last(made: Path, offset: Option<u32>) -> Option<Path>
    requires { length made ≤ 64 }
    ensures some { IfSome result (λ path. 0 < length path) }
    ensures position { result ≡ option_map (λ position. made ++ position) (only_number offset) }
{
    let mut made = made;
    match offset {
        Some(offset) => {
            made.push(offset);
            Some(made)
        }
        None => None,
    }
}

/// The position that a place between nodes means, before which so many items are shown.
fn between_nodes(nodes: &[Detached], offset: u32, index: u64, made: Path) -> Option<Path>
    requires { length made ≤ 64 }
    ensures some { IfSome result (λ path. 0 < length path) }
    ensures position { result ≡ option_map (λ position. made ++ position) (between_nodes offset nodes.now index) }
{
    let index = index as usize;
    if index <= nodes.len() {
        with_last(made, before_node(offset, index, nodes))
    } else {
        None
    }
}

/// The position that a place in a text means.
fn in_text(scalars: &[char], offset: u32, path: &[u64], last: u64, made: Path) -> Option<Path>
    requires { length made ≤ 64 }
    ensures some { IfSome result (λ path. 0 < length path) }
    ensures position { result ≡ option_map (λ position. made ++ position) (in_text offset (length scalars.now) path.now last) }
{
    match path.split_first() {
        None => {
            if last <= scalars.len() as u64 {
                with_last(made, sum(offset, last))
            } else {
                None
            }
        }
        Some(_) => None,
    }
}

/// The nodes of a list from a base on, but for so many behind them.
pub fn content_of(nodes: &[Detached], base: u64, behind: u64) -> &[Detached]
    ensures content { result.now ≡ content_of base behind nodes.now }
    ensures small { base + length result.now < 2 ^ 64 }
{
    let count = nodes.len() as u64;
    if base > count {
        return &nodes[nodes.len()..];
    }
    if behind > count - base {
        return &nodes[nodes.len()..];
    }
    &nodes[base as usize..(count - behind) as usize]
}

/// The slot of the view element with a number, if it has one.
pub fn slot_of(table: &Table, number: Option<ViewNumber>) -> Option<&Slot>
    ensures { option_copied result ≡ option_and_then (slots_in table.now) number }
{
    let Some(number) = number else {
        return None;
    };
    match table.of_number(number.value()) {
        Some(binding) => binding.slot(),
        None => None,
    }
}

/// The position that a place in these nodes means.
#[cycle(reads)]
pub fn read_nodes(
    reader: &Reader<'_>,
    nodes: &[Detached],
    offset: u32,
    path: &[u64],
    made: Path,
) -> Option<Path>
    requires { length made ≤ 64 }
    ensures some { IfSome result (λ path. 0 < length path) }
    ensures position { result ≡ option_map (λ position. made ++ position)
        (read (slots_in reader.now.table.now) (length made) [] 0 offset nodes.now path.now reader.now.last) }
{
    match path.split_first() {
        None => between_nodes(nodes, offset, reader.last, made),
        Some((index, rest)) => read_at(reader, nodes, *index, offset, rest, made),
    }
}

/// The position that a place means whose first index is this, among these nodes.
#[cycle(reads)]
fn read_at(
    reader: &Reader<'_>,
    nodes: &[Detached],
    index: u64,
    offset: u32,
    path: &[u64],
    made: Path,
) -> Option<Path>
    requires { length made ≤ 64 }
    ensures some { IfSome result (λ path. 0 < length path) }
    ensures position { result ≡ option_map (λ position. made ++ position) (in_nodes (slots_in reader.now.table.now)
        (reads (slots_in reader.now.table.now) path.now reader.now.last) (length made) path.now reader.now.last offset nodes.now index) }
{
    let index = index as usize;
    let Some(node) = nodes.get(index) else {
        return None;
    };
    match before_node(offset, index, nodes) {
        Some(before) => read_node(reader, node, before, path, made),
        None => None,
    }
}

/// The position that a place in a node means.
#[cycle(reads)]
#[tactic(auto, using(crate::proofs::Nodes::in_element, crate::proofs::Nodes::in_a_text))]
fn read_node(
    reader: &Reader<'_>,
    node: &Detached,
    offset: u32,
    path: &[u64],
    made: Path,
) -> Option<Path>
    requires { length made ≤ 64 }
    ensures some { IfSome result (λ path. 0 < length path) }
    ensures position { result ≡ option_map (λ position. made ++ position) (in_node (slots_in reader.now.table.now)
        (reads (slots_in reader.now.table.now) path.now reader.now.last) (length made) path.now reader.now.last offset node.now) }
{
    if let Some(text) = node.text() {
        return in_text(text.scalars(), offset, path, reader.last, made);
    }
    let Some(kind) = kind_of(node) else {
        return None;
    };
    let Some(children) = node.children() else {
        return None;
    };
    let element = Element {
        number: node.number(),
        children: children.as_slice(),
    };
    read_element(reader, kind, &element, offset, path, made)
}

/// The position that a place in an element of this kind means.
#[cycle(reads)]
fn read_element(
    reader: &Reader<'_>,
    kind: &ElementKind,
    element: &Element<'_>,
    offset: u32,
    path: &[u64],
    made: Path,
) -> Option<Path>
    requires { length made ≤ 64 }
    ensures some { IfSome result (λ path. 0 < length path) }
    ensures position { result ≡ option_map (λ position. made ++ position)
        (by_kind (kind_of kind.now) (read (slots_in reader.now.table.now) (length made) [] 0 offset element.now.children.now path.now reader.now.last)
        (in_slot (reads (slots_in reader.now.table.now) path.now reader.now.last) (length made) offset element.now.children.now
        (option_and_then (slots_in reader.now.table.now) element.now.number))) }
{
    match kind {
        ElementKind::Container => read_inside(reader, element, offset, path, made),
        ElementKind::Attribute { .. } => read_nodes(reader, element.children, offset, path, made),
        ElementKind::Empty => read_inside(reader, element, offset, path, made),
        ElementKind::Ui => None,
    }
}

/// The position that a place in a view element means which shows an element of the document.
#[cycle(reads)]
#[tactic(auto, using(crate::proofs::Nodes::one_deeper))]
fn read_inside(
    reader: &Reader<'_>,
    element: &Element<'_>,
    offset: u32,
    path: &[u64],
    made: Path,
) -> Option<Path>
    requires { length made ≤ 64 }
    ensures some { IfSome result (λ path. 0 < length path) }
    ensures position { result ≡ option_map (λ position. made ++ position) (in_slot (reads (slots_in reader.now.table.now) path.now reader.now.last)
        (length made) offset element.now.children.now (option_and_then (slots_in reader.now.table.now) element.now.number)) }
{
    let Some(slot) = slot_of(reader.table, element.number) else {
        return None;
    };
    if made.len() >= 64 {
        return None;
    }
    let mut made = made;
    made.push(offset);
    let way = Way {
        steps: slot.place.as_slice(),
        behind: slot.behind,
    };
    read_slot(reader, element.children, &way, path, made)
}

/// The position that a place in an element means, from whose children this way leads to the slot.
#[cycle(reads)]
#[tactic(auto, using(crate::proofs::Nodes::no_way))]
fn read_slot(
    reader: &Reader<'_>,
    nodes: &[Detached],
    way: &Way<'_>,
    path: &[u64],
    made: Path,
) -> Option<Path>
    requires { length made ≤ 64 }
    ensures some { IfSome result (λ path. 0 < length path) }
    ensures position { result ≡ option_map (λ position. made ++ position)
        (read (slots_in reader.now.table.now) (length made) way.now.steps.now way.now.behind 0 nodes.now path.now reader.now.last) }
{
    let behind = way.behind;
    match way.steps.split_first() {
        None => read_nodes(reader, nodes, 0, path, made),
        Some((first, steps)) => match steps.split_first() {
            None => read_content(reader, nodes, *first, behind, path, made),
            Some(_) => read_step(reader, nodes, *first, &Way { steps, behind }, path, made),
        },
    }
}

/// The position that a place in a list means in which the content begins at a base.
#[cycle(reads)]
fn read_content(
    reader: &Reader<'_>,
    nodes: &[Detached],
    base: u64,
    behind: u64,
    path: &[u64],
    made: Path,
) -> Option<Path>
    requires { length made ≤ 64 }
    ensures some { IfSome result (λ path. 0 < length path) }
    ensures position { result ≡ option_map (λ position. made ++ position)
        (read (slots_in reader.now.table.now) (length made) (base ∷ []) behind 0 nodes.now path.now reader.now.last) }
{
    let content = content_of(nodes, base, behind);
    let last = reader.last;
    match path.split_first() {
        None => {
            if base <= last {
                between_nodes(content, 0, last - base, made)
            } else {
                None
            }
        }
        Some((index, rest)) => {
            if base <= *index {
                read_at(reader, content, *index - base, 0, rest, made)
            } else {
                None
            }
        }
    }
}

/// The position that a place means whose first index is this step on the way.
#[cycle(reads)]
fn read_step(
    reader: &Reader<'_>,
    nodes: &[Detached],
    step: u64,
    way: &Way<'_>,
    path: &[u64],
    made: Path,
) -> Option<Path>
    requires { length made ≤ 64 }
    ensures some { IfSome result (λ path. 0 < length path) }
    ensures position { result ≡ option_map (λ position. made ++ position)
        (read_step (slots_in reader.now.table.now) (length made) step way.now.steps.now way.now.behind nodes.now path.now reader.now.last) }
{
    let Some((index, rest)) = path.split_first() else {
        return None;
    };
    if step != *index {
        return None;
    }
    let Some(node) = nodes.get(*index as usize) else {
        return None;
    };
    match node.children() {
        Some(children) => read_slot(reader, children.as_slice(), way, rest, made),
        None => None,
    }
}
