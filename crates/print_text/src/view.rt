//! The printed text of a view.
ghost use Rattle.std.specs.Prelude.{◌≡◌, ◌++◌, length, IfOk, OnOk, string_bytes, option_copied, codes};
ghost use Rattle.print_definitions.specs.Values.{in_quotes, open_tag, close_tag};
ghost use Rattle.print_definitions.specs.ViewText.{view_attributes_text, scalars_text, node_text, nodes_text, view_text};
ghost use Rattle.print_text.specs.Ends.{marks_of, place_of, places_of};

use crate::marks::{Brackets, Marks};
use ck_base::NoMemory;
use ck_base::attributes::ViewAttrs;
use ck_base::name::Name;
use ck_base::text::ViewText;
use std::alloc::Global;
use std::fmt::Write;
use text_escapes::escapes::quoted_text;
use view_tree::node::{Children, Detached, NodeRef};
use view_tree::path::ViewPlace;
use view_tree::view::View;

/// Puts a blank, a key and its text in quotes last.
fn push_attribute(
    out: &mut String,
    alloc: Global,
    key: &Name,
    text: &ViewText,
) -> Result<(), NoMemory>
    ensures { OnOk result (string_bytes out.new
        ≡ string_bytes out.old ++ (codes " " ++ (key.now ++ (codes "=" ++ in_quotes text.now)))) }
{
    let text = quoted_text(alloc, text.scalars())?;
    write!(out, " {key}=\"{text}\"")
}

/// Puts the tag that an element starts with last.
fn push_start(
    out: &mut String,
    alloc: Global,
    name: &Name,
    attrs: &ViewAttrs,
) -> Result<(), NoMemory>
    ensures { OnOk result (string_bytes out.new
        ≡ string_bytes out.old ++ open_tag name.now (view_attributes_text attrs.now)) }
{
    write!(out, "<{name}")?;
    for (key, text) in attrs.entries() {
        push_attribute(out, alloc, key, text)?;
    }
    out.push('>')
}

/// Puts a text last, with marks between its characters.
fn push_scalars(out: &mut String, scalars: &[char], marks: Marks<'_>) -> Result<(), NoMemory>
    ensures { OnOk result (string_bytes out.new ≡ string_bytes out.old ++ scalars_text (places_of marks.entry) scalars.now) }
{
    marks.push_marked(out, Brackets::Curly, 0, scalars)?;
    marks.push(out, Brackets::Curly, scalars.len() as u64)
}

/// Puts nodes last, with the marks before each and behind the last.
#[cycle(nodes)]
fn push_nodes(out: &mut String, nodes: &Children, marks: Marks<'_>) -> Result<(), NoMemory>
    ensures { OnOk result (string_bytes out.new ≡ string_bytes out.old ++ nodes_text (places_of marks.entry) 0 nodes.now.nodes) }
{
    let mut index: u64 = 0;
    for node in nodes.as_slice() {
        marks.push(out, Brackets::Square, index)?;
        push_node(out, node, marks.inside(index))?;
        index += 1;
    }
    marks.push(out, Brackets::Square, index)
}

/// Puts a node last.
#[cycle(nodes)]
fn push_node(out: &mut String, node: &Detached, marks: Marks<'_>) -> Result<(), NoMemory>
    ensures { OnOk result (string_bytes out.new ≡ string_bytes out.old ++ node_text (places_of marks.entry) node.now) }
{
    match (node.node(), node.children()) {
        (NodeRef::Text(text), _) => push_scalars(out, text.scalars(), marks),
        (NodeRef::Element { name, attrs, .. }, Some(children)) => {
            push_element(out, name, attrs, children, marks)
        }
        (NodeRef::Element { .. }, None) => unreachable!(),
    }
}

/// Puts an element last: its tags, and its children between them.
#[cycle(nodes)]
fn push_element(
    out: &mut String,
    name: &Name,
    attrs: &ViewAttrs,
    children: &Children,
    marks: Marks<'_>,
) -> Result<(), NoMemory>
    ensures { OnOk result (string_bytes out.new
        ≡ string_bytes out.old ++ (open_tag name.now (view_attributes_text attrs.now)
        ++ (nodes_text (places_of marks.entry) 0 children.now.nodes ++ close_tag name.now))) }
{
    push_start(out, children.allocator(), name, attrs)?;
    push_nodes(out, children, marks)?;
    write!(out, "</{name}>")?;
    Ok(())
}

/// The numbers of a place.
fn numbers_of(alloc: Global, place: &ViewPlace) -> Result<Vec<u64>, NoMemory>
    ensures { IfOk result (λ numbers. numbers.items ≡ place_of place.now) }
{
    let path = place.path.as_slice();
    let mut numbers = Vec::with_capacity(alloc, path.len())?;
    numbers.extend_from_slice(path)?;
    numbers.push(place.offset)?;
    Ok(numbers)
}

/// The text of a view's nodes: elements as tags with their attributes in quotes, and texts; with the marks of a selection between two places,
/// `[` and `]` between nodes and `{` and `}` in texts, or without. It answers `NoMemory` alone beside Ok.
pub fn view_text(
    alloc: Global,
    view: &View,
    marks: Option<&(ViewPlace, ViewPlace)>,
) -> Result<String, NoMemory>
    ensures { IfOk result (λ text. string_bytes text ≡ view_text (marks_of (option_copied marks.entry)) view.now.nodes) }
{
    let mut text = String::new(alloc);
    match marks {
        Some((start, end)) => {
            let start = numbers_of(alloc, start)?;
            let end = numbers_of(alloc, end)?;
            let marks = Marks {
                start: start.as_slice(),
                end: end.as_slice(),
            };
            push_nodes(&mut text, view.nodes(), marks)?;
        }
        None => {
            let marks = Marks {
                start: &[],
                end: &[],
            };
            push_nodes(&mut text, view.nodes(), marks)?;
        }
    }
    Ok(text)
}
