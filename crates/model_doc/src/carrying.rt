//! What an operation makes of markers and of the next id.
ghost use Rattle.std.specs.Prelude.{◌≡◌, All, Some, IfOk, OnOk};
ghost use Rattle.item_definitions.specs.Shift.{IsShift};
ghost use Rattle.operation_definitions.specs.Operation.{move};
ghost use Rattle.operation_definitions.specs.Reversed.{HasPlaces};
ghost use Rattle.document_definitions.specs.Markers.{with_marker};
ghost use Rattle.document_definitions.specs.Document.{shift_of, shift_of_move, markers_after, brought, raised, ids_of};
ghost use Rattle.document_definitions.specs.Sound.{IsCarried};
ghost use Rattle.model_pos.specs.Shifts as shifts;
ghost use Rattle.model_tree.specs.Nodes.{items_at};
ghost use Rattle.model_ops.specs.Meant.{operation_of, place_of};
ghost use Rattle.model_doc.specs.Conditions.{IsFew};

use ck_base::NoMemory;
use ck_base::name::Name;
use marker_table::Markers;
use model_ops::operation::{Operation, Place, Source};
use model_pos::{Range, Shift};
use model_tree::items::{Items, Node};
use std::alloc::AllocError;

/// How an operation carries positions and ranges. It takes no memory.
pub fn shift_of(operation: &Operation) -> Shift
    requires { IsFew (operation_of operation.now) }
    ensures shift { shifts.shift_of result ≡ shift_of (operation_of operation.now) }
    ensures places { HasPlaces (operation_of operation.now) }
{
    match operation {
        Operation::Insert { at, items } => Shift::Insert {
            at: at.copy(),
            count: items.len() as u32,
        },
        Operation::Move { from, count, to } => shift_of_move(from, *count, to),
        Operation::Split { at, .. } => Shift::Split { at: at.copy() },
        Operation::Merge { right, target, .. } => Shift::Merge {
            right: right.copy(),
            target: target.copy(),
        },
        Operation::Attribute { .. } | Operation::Rename { .. } | Operation::Marker { .. } => {
            Shift::Stay
        }
    }
}

/// How positions and ranges are carried when items go from one place to another.
fn shift_of_move(from: &Place, count: u32, to: &Place) -> Shift
    ensures shift { shifts.shift_of result ≡ shift_of_move (place_of from.now) count (place_of to.now) }
    ensures places { HasPlaces (move (place_of from.now) count (place_of to.now)) }
{
    match from {
        Place::Tree(from) => match to {
            Place::Tree(to) => Shift::Move {
                from: from.copy(),
                count,
                to: to.copy(),
            },
            Place::Cell(_) => Shift::Remove {
                at: from.copy(),
                count,
            },
        },
        Place::Cell(_) => match to {
            Place::Tree(to) => Shift::Insert {
                at: to.copy(),
                count,
            },
            Place::Cell(_) => Shift::Stay,
        },
    }
}

/// The markers after an operation, which carries positions and ranges so.
pub fn markers_after(
    markers: &Markers,
    operation: &Operation,
    shift: &Shift,
) -> Result<Markers, NoMemory>
    requires same { shifts.shift_of shift.now ≡ shift_of (operation_of operation.now) }
    requires shift { IsShift (shift_of (operation_of operation.now)) }
    requires limits { All (λ marker. IsCarried (shift_of (operation_of operation.now)) marker.1) markers.now }
    ensures { IfOk result (λ made. made ≡ markers_after (operation_of operation.now) markers.now) }
{
    let mut made = markers.copy()?;
    match operation {
        Operation::Marker { name, new, .. } => put_marker(&mut made, name, new)?,
        Operation::Insert { .. }
        | Operation::Move { .. }
        | Operation::Attribute { .. }
        | Operation::Rename { .. }
        | Operation::Split { .. }
        | Operation::Merge { .. } => made.carry_all(shift),
    }
    Ok(made)
}

/// Gives the marker of a name this range, or takes it out.
fn put_marker(markers: &mut Markers, name: &Name, range: &Option<Range>) -> Result<(), NoMemory>
    ensures { OnOk result (markers.new ≡ with_marker name.now range.now markers.old) }
{
    match range {
        Some(range) => write_marker(markers, name, range),
        None => {
            let _ = markers.remove(name);
            Ok(())
        }
    }
}

/// Gives the marker of a name this range, where it is there or not.
fn write_marker(markers: &mut Markers, name: &Name, range: &Range) -> Result<(), NoMemory>
    ensures { OnOk result (markers.new ≡ with_marker name.now (Some range.now) markers.old) }
{
    if markers.update(name, range.copy()).is_ok() {
        return Ok(());
    }
    match markers.add(name.copy()?, range.copy()) {
        Ok(()) => Ok(()),
        Err(_) => Err(AllocError),
    }
}

/// The id that the next new element gets after an operation. It takes no memory.
pub fn next_after(operation: &Operation, next: u64) -> u64
    ensures { result ≡ raised next (brought (operation_of operation.now)) }
{
    match operation {
        Operation::Insert { items, .. } => raised(items, next),
        Operation::Split {
            source: Source::Fresh(id),
            ..
        } => next.max(id.value() + 1),
        _ => next,
    }
}

/// The next id, raised above those of all elements in some items.
#[cycle(raised)]
#[tactic(auto, using(crate::proofs::NextIds::next_node, crate::proofs::NextIds::node_flat))]
fn raised(items: &Items, next: u64) -> u64
    ensures { result ≡ raised next (ids_of items.now) }
{
    let mut above = next;
    for node in items.nodes() {
        above = raised_by(node, above);
    }
    above
}

/// The next id, raised above those of all elements in a node.
#[cycle(raised)]
#[tactic(auto, using(crate::proofs::NextIds::by_text, crate::proofs::NextIds::by_element, crate::proofs::NextIds::children_flat))]
fn raised_by(node: &Node, next: u64) -> u64
    ensures { result ≡ raised next (ids_of (items_at node.now)) }
{
    match node {
        Node::Run(_) => next,
        Node::Element(head, children) => raised(children, next.max(head.id().value() + 1)),
    }
}
