//! Where nodes of the view show positions.
ghost use Rattle.std.specs.Prelude.{◌≡◌, ◌<◌, ◌≤◌, ◌+◌, ◌^◌, ◌++◌, [], length, IfSome, OnOk, option_map, option_and_then, option_copied, slice_get};
ghost use Rattle.item_definitions.specs.Children.{parent_of, offset_of};
ghost use Rattle.view_definitions.specs.Node.{nodes_of, children_of};
ghost use Rattle.pos_mapper.specs.Reading.{slots_in};
ghost use Rattle.downcast_definitions.specs.Among.{before_item, seen_among, place_in, place_among, item_in, item_among, gap_in, gap_among, is_character};
ghost use Rattle.pos_mapper.specs.Seeking.{below_index, is_here, caret_among, seen_at, inside, slot_at, children_at, in_item, shown_at, holder, around};

use crate::lengths::{kind_of, node_length};
use crate::reading::{content_of, slot_of};
use crate::table::Table;
use ck_base::NoMemory;
use view_tree::kind::ElementKind;
use view_tree::node::Detached;

/// The node in which the item of a number stands, its index, and the item's number in there: None exactly where there are not so many
/// items.
fn holder(nodes: &[Detached], number: u32) -> Option<(usize, u32, &Detached)>
    ensures { option_map (λ found. (found.0, (found.1, found.2.now))) result ≡ holder nodes.now number 0 }
{
    let mut number = number;
    for (index, node) in nodes.iter().enumerate() {
        let length = node_length(node);
        if (number as u64) < length {
            return Some((index, number, node));
        }
        number -= length as u32;
    }
    None
}

/// The children of an attribute element: None exactly where the node is none.
fn around(node: &Detached) -> Option<&[Detached]>
    ensures { option_copied result ≡ around node.now }
{
    match (kind_of(node), node.children()) {
        (Some(ElementKind::Attribute { .. }), Some(children)) => Some(children.as_slice()),
        _ => None,
    }
}

/// Puts the place of the item of a number behind others, where the first of the nodes has this index; in a text so many characters further.
fn push_place_from(
    nodes: &[Detached],
    base: u64,
    number: u32,
    further: u32,
    place: &mut Vec<u64>,
) -> Result<(), NoMemory>
    requires { base + length nodes.now < 2 ^ 64 }
    ensures { OnOk result (place.new.items ≡ place.old.items ++ place_among further (nodes_of nodes.now) number base) }
{
    let Some((index, rest, node)) = holder(nodes, number) else {
        return Ok(());
    };
    place.push(base + index as u64)?;
    push_inside(node, rest, further, place)
}

/// Puts the place of the item of a number behind others.
#[cycle(places)]
#[tactic(auto, using(crate::proofs::Holder::place_first, crate::proofs::Holder::place_nowhere))]
fn push_place(
    nodes: &[Detached],
    number: u32,
    further: u32,
    place: &mut Vec<u64>,
) -> Result<(), NoMemory>
    ensures { OnOk result (place.new.items ≡ place.old.items ++ place_among further (nodes_of nodes.now) number 0) }
{
    let Some((index, rest, node)) = holder(nodes, number) else {
        return Ok(());
    };
    place.push(index as u64)?;
    push_inside(node, rest, further, place)
}

/// Puts the place of the item of a number in a node behind others.
#[cycle(places)]
#[tactic(auto, using(crate::proofs::Holder::place_around, crate::proofs::Holder::place_itself, crate::proofs::Holder::place_text))]
fn push_inside(
    node: &Detached,
    number: u32,
    further: u32,
    place: &mut Vec<u64>,
) -> Result<(), NoMemory>
    ensures { OnOk result (place.new.items ≡ place.old.items ++ place_in further node.now number) }
{
    if node.text().is_some() {
        place.push(number as u64 + further as u64)?;
        return Ok(());
    }
    match around(node) {
        Some(children) => push_place(children, number, further, place),
        None => Ok(()),
    }
}

/// The node of the item of a number; a character's is its text. None exactly where there are not so many items.
#[cycle(items)]
#[tactic(auto, using(crate::proofs::Holder::item_found, crate::proofs::Holder::item_nowhere))]
fn item_at(nodes: &[Detached], number: u32) -> Option<&Detached>
    ensures { option_copied result ≡ item_among (nodes_of nodes.now) number }
{
    match holder(nodes, number) {
        Some((_, rest, node)) => item_inside(node, rest),
        None => None,
    }
}

/// The node of the item of a number in a node.
#[cycle(items)]
#[tactic(auto, using(crate::proofs::Holder::item_around, crate::proofs::Holder::item_itself))]
fn item_inside(node: &Detached, number: u32) -> Option<&Detached>
    ensures { option_copied result ≡ item_in node.now number }
{
    match around(node) {
        Some(children) => item_at(children, number),
        None => Some(node),
    }
}

/// Puts the place between the items before and behind a boundary behind others, where the first of the nodes has this index.
#[tactic(auto, using(crate::proofs::Holder::gap_nowhere))]
fn push_gap_from(
    nodes: &[Detached],
    base: u64,
    number: u32,
    place: &mut Vec<u64>,
) -> Result<(), NoMemory>
    requires { base + length nodes.now < 2 ^ 64 }
    ensures { OnOk result (place.new.items ≡ place.old.items ++ gap_among (nodes_of nodes.now) number base) }
{
    let Some((index, rest, node)) = holder(nodes, number) else {
        place.push(base + nodes.len() as u64)?;
        return Ok(());
    };
    place.push(base + index as u64)?;
    push_gap_inside(node, rest, place)
}

/// Puts the place between the items before and behind a boundary behind others.
#[cycle(gaps)]
#[tactic(auto, using(crate::proofs::Holder::gap_first, crate::proofs::Holder::gap_end))]
fn push_gap(nodes: &[Detached], number: u32, place: &mut Vec<u64>) -> Result<(), NoMemory>
    ensures { OnOk result (place.new.items ≡ place.old.items ++ gap_among (nodes_of nodes.now) number 0) }
{
    let Some((index, rest, node)) = holder(nodes, number) else {
        place.push(nodes.len() as u64)?;
        return Ok(());
    };
    place.push(index as u64)?;
    push_gap_inside(node, rest, place)
}

/// Puts the place between the items before and behind a boundary in a node behind others.
#[cycle(gaps)]
#[tactic(auto, using(crate::proofs::Holder::gap_around, crate::proofs::Holder::gap_itself, crate::proofs::Holder::gap_before))]
fn push_gap_inside(node: &Detached, number: u32, place: &mut Vec<u64>) -> Result<(), NoMemory>
    ensures { OnOk result (place.new.items ≡ place.old.items ++ gap_in node.now number) }
{
    if number == 0 {
        return Ok(());
    }
    match around(node) {
        Some(children) => push_gap(children, number, place),
        None => Ok(()),
    }
}

/// Whether the item of a number is a character.
fn is_character(nodes: &[Detached], number: u32) -> bool
    ensures { result ≡ is_character (item_among (nodes_of nodes.now) number) }
{
    match item_at(nodes, number) {
        Some(node) => node.text().is_some(),
        None => false,
    }
}

/// Puts the start of the text of the item of a number behind others, if it is a character, else the place between the items there.
fn push_before(
    nodes: &[Detached],
    base: u64,
    number: u32,
    place: &mut Vec<u64>,
) -> Result<(), NoMemory>
    requires { base + length nodes.now < 2 ^ 64 }
    ensures { OnOk result (place.new.items ≡ place.old.items ++ before_item (nodes_of nodes.now) number base) }
{
    if is_character(nodes, number) {
        push_place_from(nodes, base, number, 0, place)
    } else {
        push_gap_from(nodes, base, number, place)
    }
}

/// Puts the place where a boundary is seen behind others, at which the caret doesn't stand.
#[tactic(auto, using(crate::proofs::Holder::seen_behind, crate::proofs::Holder::seen_before, crate::proofs::Holder::seen_first))]
fn push_seen(
    nodes: &[Detached],
    base: u64,
    offset: u32,
    place: &mut Vec<u64>,
) -> Result<(), NoMemory>
    requires { base + length nodes.now < 2 ^ 64 }
    ensures { OnOk result (place.new.items ≡ place.old.items ++ seen_among (nodes_of nodes.now) offset base) }
{
    if offset == 0 {
        return push_before(nodes, base, offset, place);
    }
    if is_character(nodes, offset - 1) {
        return push_place_from(nodes, base, offset - 1, 1, place);
    }
    push_before(nodes, base, offset, place)
}

/// The rest of the caret's position behind an index: None where it doesn't lead there.
fn below(index: u32, caret: Option<&[u32]>) -> Option<&[u32]>
    ensures { option_copied result ≡ below_index index (option_copied caret.entry) }
{
    let Some(caret) = caret else {
        return None;
    };
    match caret.split_first() {
        Some((first, rest)) => { if *first == index { Some(rest) } else { None } }
        None => None,
    }
}

/// Whether nothing is left of the caret's position.
fn is_here(caret: Option<&[u32]>) -> bool
    ensures { result ≡ is_here (option_copied caret.entry) }
{
    let Some(caret) = caret else {
        return false;
    };
    match caret.split_first() {
        Some(_) => false,
        None => true,
    }
}

/// Puts the caret's place among these nodes behind others, where the first of the nodes has this index.
fn push_caret(
    nodes: &[Detached],
    base: u64,
    caret_place: &[u64],
    place: &mut Vec<u64>,
) -> Result<(), NoMemory>
    requires { base + length nodes.now < 2 ^ 64 }
    ensures { OnOk result (place.new.items ≡ place.old.items ++ caret_among caret_place.now nodes.now base) }
{
    match caret_place.split_first() {
        Some((index, rest)) => {
            if *index <= nodes.len() as u64 {
                place.push(base + *index)?;
                place.extend_from_slice(rest)?;
            }
            Ok(())
        }
        None => Ok(()),
    }
}

/// Puts the place where a boundary is seen behind others, by what is left of the caret's position.
fn push_seen_at(
    nodes: &[Detached],
    base: u64,
    offset: u32,
    caret: Option<&[u32]>,
    caret_place: &[u64],
    place: &mut Vec<u64>,
) -> Result<(), NoMemory>
    requires { base + length nodes.now < 2 ^ 64 }
    ensures { OnOk result (place.new.items ≡ place.old.items ++ seen_at (option_copied caret.entry) caret_place.now base nodes.now offset) }
{
    if is_here(below(offset, caret)) {
        push_caret(nodes, base, caret_place, place)
    } else {
        push_seen(nodes, base, offset, place)
    }
}

/// The nodes in the slot to which this way leads: None exactly where it leads nowhere.
#[cycle(ways)]
fn inside<'a>(nodes: &'a [Detached], way: &[u64], behind: u64) -> Option<&'a [Detached]>
    ensures nodes { option_copied result ≡ inside way.now behind nodes.now }
    ensures small { IfSome result (λ nodes. offset_of way.now + length nodes.now < 2 ^ 64) }
{
    match way.split_first() {
        None => None,
        Some((first, further)) => match further.split_first() {
            None => Some(content_of(nodes, *first, behind)),
            Some(_) => inside_step(nodes, *first, further, behind),
        },
    }
}

/// The nodes in the slot to which this way leads from the children of the node at a step.
#[cycle(ways)]
fn inside_step<'a>(
    nodes: &'a [Detached],
    step: u64,
    way: &[u64],
    behind: u64,
) -> Option<&'a [Detached]>
    ensures nodes { option_copied result ≡ option_and_then (λ node. option_and_then (λ children. inside way.now behind children) (children_of node))
        (slice_get nodes.now step) }
    ensures small { IfSome result (λ nodes. offset_of way.now + length nodes.now < 2 ^ 64) }
{
    let Some(node) = nodes.get(step as usize) else {
        return None;
    };
    match node.children() {
        Some(children) => inside(children.as_slice(), way, behind),
        None => None,
    }
}

/// A way without its last index, and that index.
#[tactic(auto, using(crate::proofs::Holder::front_is, crate::proofs::Holder::last_is))]
fn split_way(way: &[u64]) -> (&[u64], u64)
    ensures front { result.0.now ≡ parent_of way.now }
    ensures last { result.1 ≡ offset_of way.now }
{
    match way.split_last() {
        Some((last, front)) => (front, *last),
        None => (way, 0),
    }
}

/// What tells where a position is seen: which view element has which slot, what is left of the caret's position, and the caret's place in
/// the content of its parent.
#[derive(Clone, Copy)]
pub struct Sought<'a> {
    pub table: &'a Table,
    pub caret: Option<&'a [u32]>,
    pub caret_place: &'a [u64],
}

/// Puts the place where a position is seen among these nodes behind others, where the first of the nodes has this index.
#[cycle(shows)]
pub fn push_shown(
    sought: &Sought<'_>,
    nodes: &[Detached],
    base: u64,
    numbers: &[u32],
    place: &mut Vec<u64>,
) -> Result<(), NoMemory>
    requires { base + length nodes.now < 2 ^ 64 }
    ensures { OnOk result (place.new.items ≡ place.old.items
        ++ shown_at (slots_in sought.now.table.now) (option_copied sought.now.caret) sought.now.caret_place.now base nodes.now numbers.now) }
{
    match numbers.split_first() {
        None => Ok(()),
        Some((index, rest)) => match rest.split_first() {
            None => push_seen_at(nodes, base, *index, sought.caret, sought.caret_place, place),
            Some(_) => push_in_item(sought, nodes, base, *index, rest, place),
        },
    }
}

/// Puts the place where a position in the item of a number is seen behind others: at the boundary before an item without a slot.
#[cycle(shows)]
fn push_in_item(
    sought: &Sought<'_>,
    nodes: &[Detached],
    base: u64,
    index: u32,
    rest: &[u32],
    place: &mut Vec<u64>,
) -> Result<(), NoMemory>
    requires { base + length nodes.now < 2 ^ 64 }
    ensures { OnOk result (place.new.items ≡ place.old.items
        ++ in_item (λ first inner. shown_at (slots_in sought.now.table.now) (below_index index (option_copied sought.now.caret))
        sought.now.caret_place.now first inner rest.now)
        (seen_at (option_copied sought.now.caret) sought.now.caret_place.now base nodes.now index) (place_among 0 (nodes_of nodes.now) index base)
        (children_at (item_among (nodes_of nodes.now) index)) (slot_at (slots_in sought.now.table.now) (item_among (nodes_of nodes.now) index))) }
{
    let caret = sought.caret;
    let caret_place = sought.caret_place;
    let Some(node) = item_at(nodes, index) else {
        return push_seen_at(nodes, base, index, caret, caret_place, place);
    };
    let Some(children) = node.children() else {
        return push_seen_at(nodes, base, index, caret, caret_place, place);
    };
    let Some(slot) = slot_of(sought.table, node.number()) else {
        return push_seen_at(nodes, base, index, caret, caret_place, place);
    };
    let way = slot.place.as_slice();
    let Some(inner) = inside(children.as_slice(), way, slot.behind) else {
        return push_seen_at(nodes, base, index, caret, caret_place, place);
    };
    push_place_from(nodes, base, index, 0, place)?;
    let (front, first) = split_way(way);
    place.extend_from_slice(front)?;
    let below = Sought {
        table: sought.table,
        caret: below(index, caret),
        caret_place,
    };
    push_shown(&below, inner, first, rest, place)
}
