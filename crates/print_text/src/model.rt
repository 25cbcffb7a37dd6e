//! The printed text of a model.
ghost use Rattle.std.specs.Prelude.{◌≡◌, ◌<◌, ◌^◌, ◌++◌, None, length, IfOk, OnOk, string_bytes, option_copied, codes};
ghost use Rattle.item_definitions.specs.Item.{count_of};
ghost use Rattle.model_tree.specs.Nodes.{items_at};
ghost use Rattle.print_definitions.specs.Marks.{outer_marks};
ghost use Rattle.print_definitions.specs.Values.{value_text, attributes_text, open_tag, close_tag};
ghost use Rattle.print_definitions.specs.ModelText.{goes_on, run_start, run_end, before_character, items_text, model_text};
ghost use Rattle.print_text.specs.Ends.{ends_in, ends_of, places_of};
ghost use Rattle.print_text.specs.Runs.{run_behind, run_text, element_text, node_text};

use crate::marks::{Brackets, Marks};
use ck_base::NoMemory;
use ck_base::attributes::Attrs;
use ck_base::name::Name;
use ck_base::value::Value;
use model_doc::Document;
use model_pos::{Position, Range};
use model_tree::items::{Items, Node};
use model_tree::text::{Head, Text};
use std::alloc::Global;
use std::fmt::Write;
use text_escapes::escapes::{push_text, quoted_text};

/// Puts a value last.
fn push_value(out: &mut String, alloc: Global, value: &Value) -> Result<(), NoMemory>
    ensures { OnOk result (string_bytes out.new ≡ string_bytes out.old ++ value_text value.now) }
{
    match value {
        Value::Whole(number) => write!(out, "{number}"),
        Value::Truth(true) => out.push_str("true"),
        Value::Truth(false) => out.push_str("false"),
        Value::Text(text) => {
            let text = quoted_text(alloc, text.scalars())?;
            write!(out, "\"{text}\"")
        }
    }
}

/// Puts a blank, a key and its value last.
fn push_attribute(
    out: &mut String,
    alloc: Global,
    key: &Name,
    value: &Value,
) -> Result<(), NoMemory>
    ensures { OnOk result (string_bytes out.new
        ≡ string_bytes out.old ++ (codes " " ++ (key.now ++ (codes "=" ++ value_text value.now)))) }
{
    write!(out, " {key}=")?;
    push_value(out, alloc, value)
}

/// Puts attributes last, a blank before each key.
pub(crate) fn push_attributes(
    out: &mut String,
    alloc: Global,
    attrs: &Attrs,
) -> Result<(), NoMemory>
    ensures { OnOk result (string_bytes out.new ≡ string_bytes out.old ++ attributes_text attrs.now) }
{
    for (key, value) in attrs.entries() {
        push_attribute(out, alloc, key, value)?;
    }
    Ok(())
}

/// Puts the tag that an element starts with last.
fn push_start(out: &mut String, alloc: Global, name: &str, attrs: &Attrs) -> Result<(), NoMemory>
    ensures { OnOk result (string_bytes out.new
        ≡ string_bytes out.old ++ open_tag name.now (attributes_text attrs.now)) }
{
    write!(out, "<{name}")?;
    push_attributes(out, alloc, attrs)?;
    out.push('>')
}

/// Puts the start of a run last: a tag where it has attributes.
fn push_run_start(out: &mut String, alloc: Global, attrs: &Attrs) -> Result<(), NoMemory>
    ensures { OnOk result (string_bytes out.new ≡ string_bytes out.old ++ run_start attrs.now) }
{
    if attrs.entries().is_empty() {
        return Ok(());
    }
    push_start(out, alloc, "$text", attrs)
}

/// Puts the end of the run before last, if there is one that has attributes.
fn push_run_end(out: &mut String, before: Option<&Attrs>) -> Result<(), NoMemory>
    ensures { OnOk result (string_bytes out.new ≡ string_bytes out.old ++ run_end (option_copied before.entry)) }
{
    match before {
        Some(attrs) if !attrs.entries().is_empty() => out.push_str("</$text>"),
        _ => Ok(()),
    }
}

/// Whether characters of these attributes go on the run before.
fn goes_on(before: Option<&Attrs>, attrs: &Attrs) -> bool
    ensures { result ≡ goes_on (option_copied before.entry) attrs.now }
{
    match before {
        Some(before) => before.same(attrs),
        None => false,
    }
}

/// The attributes of the run that a node leaves open: those of a text, none behind an element, and those of the run before behind no characters.
fn run_behind<'a>(before: Option<&'a Attrs>, node: &'a Node) -> Option<&'a Attrs>
    ensures { option_copied result ≡ run_behind (option_copied before.entry) node.now }
{
    match node {
        Node::Run(text) if text.scalars().is_empty() => before,
        Node::Run(text) => Some(text.attrs()),
        Node::Element(_, _) => None,
    }
}

/// Puts a text last, behind a run or not, with the marks before each character.
fn push_run(
    out: &mut String,
    alloc: Global,
    marks: Marks<'_>,
    offset: u64,
    before: Option<&Attrs>,
    text: &Text,
) -> Result<(), NoMemory>
    requires offset { offset < 2 ^ 32 }
    requires few { length text.now.scalars < 2 ^ 32 }
    ensures { OnOk result (string_bytes out.new
        ≡ string_bytes out.old ++ run_text (places_of marks.entry) offset (option_copied before.entry) text.now.attributes text.now.scalars) }
{
    let Some((first, rest)) = text.scalars().split_first() else {
        return Ok(());
    };
    push_before(out, alloc, marks, offset, before, text.attrs())?;
    push_text(out, [*first].as_slice())?;
    marks.push_marked(out, Brackets::Square, offset + 1, rest)
}

/// Puts what stands before the first character of a text last.
fn push_before(
    out: &mut String,
    alloc: Global,
    marks: Marks<'_>,
    offset: u64,
    before: Option<&Attrs>,
    attrs: &Attrs,
) -> Result<(), NoMemory>
    ensures { OnOk result (string_bytes out.new ≡ string_bytes out.old
        ++ before_character (goes_on (option_copied before.entry) attrs.now) (option_copied before.entry) attrs.now
        (outer_marks (places_of marks.entry) offset)) }
{
    if goes_on(before, attrs) {
        return marks.push(out, Brackets::Square, offset);
    }
    push_run_end(out, before)?;
    marks.push(out, Brackets::Square, offset)?;
    push_run_start(out, alloc, attrs)
}

/// Puts an element last, behind a run or not.
#[cycle(items)]
fn push_element(
    out: &mut String,
    marks: Marks<'_>,
    offset: u64,
    before: Option<&Attrs>,
    head: &Head,
    children: &Items,
) -> Result<(), NoMemory>
    requires few { count_of children.now < 2 ^ 32 }
    ensures { OnOk result (string_bytes out.new
        ≡ string_bytes out.old ++ element_text (places_of marks.entry) offset (option_copied before.entry) head.now.name head.now.attributes children.now) }
{
    push_run_end(out, before)?;
    marks.push(out, Brackets::Square, offset)?;
    push_start(
        out,
        children.allocator(),
        head.name().as_str(),
        head.attrs(),
    )?;
    push_items(out, children, marks.inside(offset))?;
    push_end(out, head.name())
}

/// Puts the tag that an element ends with last.
fn push_end(out: &mut String, name: &Name) -> Result<(), NoMemory>
    ensures { OnOk result (string_bytes out.new ≡ string_bytes out.old ++ close_tag name.now) }
{
    write!(out, "</{name}>")
}

/// Puts a node last, behind a run or not.
#[cycle(items)]
fn push_node(
    out: &mut String,
    alloc: Global,
    marks: Marks<'_>,
    offset: u64,
    before: Option<&Attrs>,
    node: &Node,
) -> Result<(), NoMemory>
    requires offset { offset < 2 ^ 32 }
    requires few { count_of (items_at node.now) < 2 ^ 32 }
    ensures { OnOk result (string_bytes out.new
        ≡ string_bytes out.old ++ node_text (places_of marks.entry) offset (option_copied before.entry) node.now) }
{
    match node {
        Node::Run(text) => push_run(out, alloc, marks, offset, before, text),
        Node::Element(head, children) => push_element(out, marks, offset, before, head, children),
    }
}

/// Puts items last, with the marks before each and behind the last.
#[cycle(items)]
fn push_items(out: &mut String, items: &Items, marks: Marks<'_>) -> Result<(), NoMemory>
    requires few { count_of items.now < 2 ^ 32 }
    ensures { OnOk result (string_bytes out.new ≡ string_bytes out.old ++ items_text (places_of marks.entry) 0 None items.now) }
{
    let alloc = items.allocator();
    let mut offset: u64 = 0;
    let mut before = None;
    for node in items.nodes() {
        push_node(out, alloc, marks, offset, before, node)?;
        offset += node.len() as u64;
        before = run_behind(before, node);
    }
    push_run_end(out, before)?;
    marks.push(out, Brackets::Square, offset)
}

/// The numbers of a position.
fn numbers_of(alloc: Global, position: &Position) -> Result<Vec<u64>, NoMemory>
    ensures { IfOk result (λ numbers. numbers.items ≡ position.now) }
{
    let mut numbers = Vec::new(alloc);
    for number in position.as_slice() {
        numbers.push(u64::from(*number))?;
    }
    Ok(numbers)
}

/// The text of items, with the marks `[` and `]` of a range or without.
pub(crate) fn items_text(
    alloc: Global,
    items: &Items,
    range: Option<&Range>,
) -> Result<String, NoMemory>
    requires few { count_of items.now < 2 ^ 32 }
    ensures { IfOk result (λ text. string_bytes text ≡ model_text (ends_in (option_copied range.entry)) items.now) }
{
    let mut text = String::new(alloc);
    match range {
        Some(range) => {
            let start = numbers_of(alloc, range.start())?;
            let end = numbers_of(alloc, range.end())?;
            let marks = Marks {
                start: start.as_slice(),
                end: end.as_slice(),
            };
            push_items(&mut text, items, marks)?;
        }
        None => {
            let marks = Marks {
                start: &[],
                end: &[],
            };
            push_items(&mut text, items, marks)?;
        }
    }
    Ok(text)
}

/// The text of a document's items: elements as tags, and texts of equal attributes in `$text` where they have any; with the marks `[` and `]` of
/// its selection or without. It answers `NoMemory` alone beside Ok.
pub fn model_text(alloc: Global, document: &Document, selection: bool) -> Result<String, NoMemory>
    ensures { IfOk result (λ text. string_bytes text ≡ model_text (ends_of selection document.now.state.document.selection) document.now.state.document.items) }
{
    let items = document.tree().items();
    if selection {
        items_text(alloc, items, Some(document.selection().range()))
    } else {
        items_text(alloc, items, None)
    }
}
