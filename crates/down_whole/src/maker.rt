//! View elements of elements of the model.
ghost use Rattle.std.specs.Prelude.{◌≡◌, ◌+◌, ◌-◌, ◌<◌, ◌^◌, OnOk, IfOk, Some};
ghost use Rattle.converter_definitions.specs.Form.{forms_of};
ghost use Rattle.converter_definitions.specs.Parts.{shape_of, shapes_of};
ghost use Rattle.converter_definitions.specs.Shape.{form_count, inner_count};
ghost use Rattle.converter_definitions.specs.Views.{filled};
ghost use Rattle.pos_mapper.specs.Bindings.{with_binding};
ghost use Rattle.pos_mapper.specs.Mapped.{slot_of};
ghost use Rattle.downcast_definitions.specs.Rows.{only, with_number};
ghost use Rattle.down_whole.specs.Ways.{way_among, way_to, way_below, bound_to};
ghost use Rattle.down_whole.specs.Viewed.{way_as};

use crate::fill::filled_shape;
use ck_base::NoMemory;
use ck_base::attributes::ViewAttrs;
use converter_definitions::shape::{Shape, ShapeNode};
use model_tree::id::ElementId;
use pos_mapper::mapper::Mapper;
use pos_mapper::parts::Slot;
use std::alloc::Global;
use view_tree::node::{Children, Detached, ViewNumber};
use view_tree::view::View;

/// Makes the view elements of a document's elements, and binds them.
#[derive(Drop)]
pub(crate) struct Maker {
    // it draws the numbers; its nodes are put into it in the end
    pub(crate) view: View,
    pub(crate) mapper: Mapper,
}

/// The way to the slot of a shape, and how many nodes stand behind it in its list.
#[derive(Drop)]
struct Way {
    place: Vec<u64>,
    behind: u64,
}

/// The way to the slot among nodes of a shape, the first of which has this index. `None` exactly where there is no slot.
#[cycle(ways)]
#[tactic(auto, using(crate::proofs::Ways::in_first, crate::proofs::Ways::in_rest))]
fn way_among(
    alloc: Global,
    nodes: &[ShapeNode<ViewAttrs>],
    index: u64,
) -> Result<Option<Way>, NoMemory>
    requires { index + inner_count (forms_of (shapes_of nodes.now)) < 2 ^ 64 }
    ensures { IfOk result (λ way. way_as way ≡ way_among index (forms_of (shapes_of nodes.now))) }
{
    let Some((node, rest)) = nodes.split_first() else {
        return Ok(None);
    };
    match way_to(alloc, node, rest.len() as u64, index)? {
        Some(way) => Ok(Some(way)),
        None => way_among(alloc, rest, index + 1),
    }
}

/// The way to the slot that a node of this index is or has in it, behind which so many nodes stand.
#[cycle(ways)]
fn way_to(
    alloc: Global,
    node: &ShapeNode<ViewAttrs>,
    behind: u64,
    index: u64,
) -> Result<Option<Way>, NoMemory>
    requires { form_count (shape_of node.now) < 2 ^ 64 }
    ensures { IfOk result (λ way. way_as way ≡ way_to behind index (shape_of node.now)) }
{
    match node {
        ShapeNode::Slot => {
            let mut place = Vec::new(alloc);
            place.push(index)?;
            Ok(Some(Way { place, behind }))
        }
        ShapeNode::Text(_) => Ok(None),
        ShapeNode::Element { children, .. } => {
            let way = way_among(alloc, children.as_slice(), 0)?;
            let below = way_below(way, index)?;
            Ok(below)
        }
    }
}

/// The way with an index in front, if there is one.
fn way_below(way: Option<Way>, index: u64) -> Result<Option<Way>, NoMemory>
    ensures { IfOk result (λ below. way_as below ≡ way_below index (way_as way)) }
{
    match way {
        Some(Way { mut place, behind }) => {
            place.insert(0, index)?;
            Ok(Some(Way { place, behind }))
        }
        None => Ok(None),
    }
}

/// The slot at the end of a way, if there is one.
fn slot_from(way: Option<Way>) -> Option<Slot>
    ensures { result ≡ way_as way }
{
    match way {
        Some(Way { place, behind }) => Some(Slot::new(place, behind)),
        None => None,
    }
}

/// The slot of a shape. `None` exactly where it has none.
fn slot_of(alloc: Global, shape: &Shape<ViewAttrs>) -> Result<Option<Slot>, NoMemory>
    ensures { IfOk result (λ slot. slot ≡ slot_of shape.now) }
{
    match shape.outermost() {
        ShapeNode::Element { children, .. } => {
            let way = way_among(alloc, children.as_slice(), 0)?;
            Ok(slot_from(way))
        }
        ShapeNode::Slot => unreachable!(),
        ShapeNode::Text(_) => unreachable!(),
    }
}

/// Binds an element to the view element with a number, if there is one.
fn bind(
    mapper: &mut Mapper,
    id: ElementId,
    number: Option<ViewNumber>,
    slot: Option<Slot>,
) -> Result<(), NoMemory>
    ensures { OnOk result (mapper.new ≡ bound_to number id slot mapper.old) }
{
    match number {
        Some(number) => mapper.bind(id, number, slot),
        None => Ok(()),
    }
}

impl Maker {
    /// Makes the view element that a shape is, with this content in its slot, numbers it, and binds the element with this id to it.
    pub(crate) fn make(
        &mut self,
        alloc: Global,
        id: ElementId,
        shape: &Shape<ViewAttrs>,
        content: Children,
    ) -> Result<Detached, NoMemory>
        requires { self.old.view.drawn < 2 ^ 64 - 1 }
        ensures node { IfOk result (λ node. node ≡ with_number (Some self.old.view.drawn) (only (filled content.nodes shape.now))) }
        ensures drawn { OnOk result (self.new.view.drawn ≡ self.old.view.drawn + 1) }
        ensures mapper { OnOk result (self.new.mapper ≡ with_binding (record { id = id; number = self.old.view.drawn; slot = slot_of shape.now })
            self.old.mapper) }
    {
        let slot = slot_of(alloc, shape)?;
        let mut node = filled_shape(alloc, shape, content)?;
        self.view.number(&mut node);
        let number = node.number();
        bind(&mut self.mapper, id, number, slot)?;
        Ok(node)
    }
}
