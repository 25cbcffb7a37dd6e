//! Items that come in: new ids for them, and the names in them.
ghost use Rattle.std.specs.Prelude.{◌≡◌, ◌+◌, ◌-◌, ◌<◌, ◌≤◌, ◌^◌, ◌∷◌, [], min, length, IfOk, OnOk, option_copied};
ghost use Rattle.item_definitions.specs.Item.{element, items_of};
ghost use Rattle.document_definitions.specs.Document.{ids_of};
ghost use Rattle.schema_definitions.specs.Allowed.{is_registered};
ghost use Rattle.edit_definitions.specs.declared.edit.Edit.TheVariants.{InsertItems};
ghost use Rattle.edit_definitions.specs.Planned.{operations_of, unknown_in};
ghost use Rattle.edit_definitions.specs.Runs.{with_ids};
ghost use Rattle.model_tree.specs.Nodes.{items_at, items_in};
ghost use Rattle.model_writer.specs.Plans.{Plans};

use crate::inserting::{alloc_of, has_ids, insertion};
use crate::places::{bad_position, is_known, is_there, not_registered};
use ck_base::NoMemory;
use ck_base::faults::EditFault;
use ck_base::name::Name;
use model_doc::Document;
use model_ops::operation::Operation;
use model_pos::Position;
use model_tree::id::ElementId;
use model_tree::items::{Items, Node};
use model_tree::text::Head;
use schema_rules::schema::Schema;
use std::alloc::Global;

/// How many elements a node has, itself counted. More than 2^64 - 1 are given as that number.
#[cycle(elements)]
#[tactic(auto, using(crate::proofs::Numbered::text_ids, crate::proofs::Numbered::element_ids, crate::proofs::Numbered::element_depth))]
fn elements_at(node: &Node) -> u64
    ensures { result ≡ min (length (ids_of (items_at node.now))) (2 ^ 64 - 1) }
{
    match node {
        Node::Run(_) => 0,
        Node::Element(_, children) => elements_among(children.nodes()).saturating_add(1),
    }
}

/// How many elements there are in a list, at all depths. More than 2^64 - 1 are given as that number.
#[cycle(elements)]
#[tactic(auto, using(crate::proofs::Numbered::next_ids, crate::proofs::Numbered::node_depth))]
fn elements_among(nodes: &Vec<Node>) -> u64
    ensures { result ≡ min (length (ids_of (items_in nodes.now.items))) (2 ^ 64 - 1) }
{
    let mut count: u64 = 0;
    for node in nodes {
        count = count.saturating_add(elements_at(node));
    }
    count
}

/// The first name in a node, in document order, of an element that may not be made.
#[cycle(names)]
#[tactic(auto, using(crate::proofs::Unknown::text_names, crate::proofs::Unknown::unknown_element, crate::proofs::Unknown::known_element, crate::proofs::Numbered::element_depth))]
fn unknown_at<'a>(schema: &Schema, node: &'a Node) -> Option<&'a Name>
    ensures { option_copied result ≡ unknown_in (is_registered schema.now) (items_at node.now) }
{
    match node {
        Node::Run(_) => None,
        Node::Element(head, children) => {
            let name = head.name();
            if is_known(schema, name) {
                unknown_among(schema, children.nodes())
            } else {
                Some(name)
            }
        }
    }
}

/// The first name in a list, in document order, of an element that may not be made.
#[cycle(names)]
#[tactic(auto, using(crate::proofs::Unknown::found_first, crate::proofs::Unknown::passed_over, crate::proofs::Unknown::all_passed, crate::proofs::Numbered::node_depth))]
fn unknown_among<'a>(schema: &Schema, nodes: &'a Vec<Node>) -> Option<&'a Name>
    ensures { option_copied result ≡ unknown_in (is_registered schema.now) (items_in nodes.now.items) }
{
    for node in nodes {
        if let Some(name) = unknown_at(schema, node) {
            return Some(name);
        }
    }
    None
}

/// An element with ids from a number on, in document order. The number is then the next one.
#[cycle(numbering)]
#[tactic(auto, using(crate::proofs::Numbered::numbered_element))]
fn numbered_element(
    alloc: Global,
    head: &Head,
    children: &Items,
    next: &mut u64,
) -> Result<Items, NoMemory>
    requires { next.old + (1 + length (ids_of children.now)) ≤ 2 ^ 63 }
    ensures items { IfOk result (λ made. made ≡ with_ids next.old (element head.now.id head.now.name head.now.attributes (items_of children.now) ∷ [])) }
    ensures next { OnOk result (next.new ≡ next.old + (1 + length (ids_of children.now))) }
{
    let id = ElementId::new(*next);
    *next += 1;
    let children = numbered(children, next)?;
    let name = head.name().copy()?;
    let attributes = head.attrs().copy()?;
    let made = Items::element(alloc, id, name, attributes, children)?;
    Ok(made)
}

/// Items with ids from a number on, in document order, of which there are at least two. Each half is numbered for itself, so that no list
/// of nodes is copied more often than it can be halved.
#[cycle(numbering)]
#[tactic(auto, using(crate::proofs::Numbered::halves_ids, crate::proofs::Numbered::numbered_halves, crate::proofs::Numbered::front_less, crate::proofs::Numbered::back_less))]
fn numbered_halves(items: &Items, next: &mut u64) -> Result<Items, NoMemory>
    requires some { 2 ≤ length items.now }
    requires ids { next.old + length (ids_of items.now) ≤ 2 ^ 63 }
    ensures items { IfOk result (λ made. made ≡ with_ids next.old items.now) }
    ensures next { OnOk result (next.new ≡ next.old + length (ids_of items.now)) }
{
    let half = (items.len() / 2) as usize;
    let front = items.range(0, half)?;
    let back = items.rest(half)?;
    let mut made = numbered(&front, next)?;
    let rest = numbered(&back, next)?;
    made.append(rest)?;
    Ok(made)
}

/// Items with ids from a number on, in document order. The number is then the next one.
#[cycle(numbering)]
#[tactic(auto, using(crate::proofs::Numbered::nothing_numbered, crate::proofs::Numbered::nothing_counted, crate::proofs::Numbered::text_numbered, crate::proofs::Numbered::text_ids, crate::proofs::Numbered::one_node, crate::proofs::Numbered::two_nodes, crate::proofs::Numbered::element_count, crate::proofs::Numbered::element_ids))]
fn numbered(items: &Items, next: &mut u64) -> Result<Items, NoMemory>
    requires { next.old + length (ids_of items.now) ≤ 2 ^ 63 }
    ensures items { IfOk result (λ made. made ≡ with_ids next.old items.now) }
    ensures next { OnOk result (next.new ≡ next.old + length (ids_of items.now)) }
{
    let Some((node, rest)) = items.nodes().as_slice().split_first() else {
        let made = items.copy()?;
        return Ok(made);
    };
    if !rest.is_empty() {
        return numbered_halves(items, next);
    }
    match node {
        Node::Run(_) => {
            let made = items.copy()?;
            Ok(made)
        }
        Node::Element(head, children) => {
            numbered_element(items.allocator(), head, children, next)
        }
    }
}

/// The plan of items that come in.
pub(crate) fn insert_items(
    document: &Document,
    schema: &Schema,
    number: u64,
    at: &Position,
    items: &Items,
) -> Result<Vec<Operation>, EditFault>
    ensures { Plans (operations_of (is_registered schema.now) number (InsertItems at.now items.now) document.now.state) result }
{
    if let Some(name) = unknown_among(schema, items.nodes()) {
        return Err(not_registered(number, name));
    }
    if !is_there(document.tree(), at) {
        return Err(bad_position(number, at));
    }
    if !has_ids(document, elements_among(items.nodes())) {
        return Err(EditFault::IdsSpent { edit: number });
    }
    let mut next = document.next_id();
    let Ok(numbered) = numbered(items, &mut next) else {
        return Err(EditFault::NoMemory);
    };
    insertion(alloc_of(document), at, numbered)
}
