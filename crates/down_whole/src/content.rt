//! The content of an element: the nodes that its row nests to.
ghost use Rattle.std.specs.Prelude.{◌≡◌, ◌≢◌, ◌+◌, ◌*◌, ◌-◌, ◌<◌, ◌≤◌, ◌^◌, ◌++◌, [], ◌∷◌, OnOk, IfOk, IfSome, Some, length, true, IsTrue, ◌↔◌, option_copied};
ghost use Rattle.std.specs.Prelude.{option_map};
ghost use Rattle.item_definitions.specs.Item.{count_of, depth_of, items_of};
ghost use Rattle.item_definitions.specs.Children.{offset_of};
ghost use Rattle.document_definitions.specs.Markers.{covering};
ghost use Rattle.converter_definitions.specs.Shape.{is_shape};
ghost use Rattle.converter_definitions.specs.Views.{filled};
ghost use Rattle.view_definitions.specs.Row.{item};
ghost use Rattle.pos_mapper.specs.Bindings.{with_binding};
ghost use Rattle.pos_mapper.specs.Mapped.{slot_of};
ghost use Rattle.converter_definitions.specs.Layers.{character_layers};
ghost use Rattle.conv_rules.specs.Listed.{boxed_count, conversion_of, converted_view};
ghost use Rattle.downcast_definitions.specs.Scene.{Numbers, unnumbered};
ghost use Rattle.downcast_definitions.specs.Rows.{facts_of, unconverted, shape_at, element_layers, with_number, only};
ghost use Rattle.downcast_definitions.specs.Shown.{HaveShapes};
ghost use Rattle.down_whole.specs.Written.{with_row, with_entry, character_in};
ghost use Rattle.down_whole.specs.Viewed.{written};
ghost use Rattle.down_whole.specs.Scenes.{scene_with, scene_caret, HasLeaves, HasLayers};
ghost use Rattle.down_whole.specs.Bound.{elements_among};
ghost use Rattle.down_whole.specs.Made.{run_row, MadeContent, finished, caret_found};

use crate::between::between;
use crate::maker::Maker;
use crate::row::RowWriter;
use crate::scene::Scene;
use ck_base::NoMemory;
use ck_base::attributes::{Attrs, ViewAttrs};
use ck_base::name::Name;
use ck_base::path::Path;
use ck_base::steps::{Ledger, Steps};
use conv_rules::list::ConverterList;
use conv_rules::shaping::Converted;
use converter_definitions::facts::Facts;
use converter_definitions::kind::ShapeKind;
use converter_definitions::shape::{Shape, ShapeNode, ShapeNodes};
use model_tree::items::{Items, Node};
use model_tree::text::{Head, Text};
use pos_mapper::parts::CaretPlace;
use std::alloc::Global;
use view_tree::kind::Layer;
use view_tree::node::Children;

/// The position at an offset of the element at a path.
fn position_at(path: &Path, offset: u32) -> Path
    requires { length path.now < 65 }
    ensures { result ≡ path.now ++ offset ∷ [] }
{
    let mut position = path.copy();
    position.push(offset);
    position
}

/// What converters look at of an element with this parent, before which so many elements stand in it.
fn facts_of(
    list: &ConverterList,
    parent: &Name,
    before: u32,
    head: &Head,
) -> Result<Facts, NoMemory>
    ensures { IfOk result (λ facts. facts ≡ facts_of (conversion_of (λ object. gives (object.vtable, object.value)) list.now) parent.now before
        head.now.name head.now.attributes) }
{
    let index = if list.is_indexed(head.name()) {
        Some(before)
    } else {
        None
    };
    Ok(Facts {
        name: head.name().copy()?,
        attributes: head.attrs().copy()?,
        parent: parent.copy()?,
        index,
    })
}

/// What an element becomes that no converter makes a shape of: a container of its own name.
fn unconverted(alloc: Global, name: &Name) -> Result<Converted, NoMemory>
    ensures { IfOk result (λ made. converted_view made ≡ unconverted name.now) }
{
    let mut nodes = Vec::new(alloc);
    nodes.push(ShapeNode::Slot)?;
    let outermost = ShapeNode::Element {
        kind: ShapeKind::Container,
        name: name.copy()?,
        attrs: ViewAttrs::new(alloc),
        children: ShapeNodes::new(nodes),
    };
    match Shape::new(outermost) {
        Some(shape) => Ok(Converted {
            shape,
            layers: Vec::new(alloc),
        }),
        None => unreachable!(),
    }
}

/// The layers of the element at a path with this name, whose shape has these layers.
fn element_layers(
    list: &ConverterList,
    scene: &Scene<'_>,
    position: &Path,
    name: &Name,
    own: &[Layer],
) -> Result<Vec<Layer>, NoMemory>
    requires item { position.now ≢ [] }
    requires limit { offset_of position.now < 4294967295 }
    ensures { IfOk result (λ layers. layers.items
        ≡ element_layers (scene_with (conversion_of (λ object. gives (object.vtable, object.value)) list.now) scene.now unnumbered) position.now
        name.now own.now) }
{
    if !list.is_object(name) {
        return Ok(Vec::new(scene.alloc));
    }
    let covering = scene.markers.covering(position)?;
    let layers = list.object_layers(scene.alloc, own, covering.as_slice())?;
    Ok(layers)
}

/// Whether two lists of names are one.
fn same_names(names: &[Name], others: &[Name]) -> bool
    ensures { IsTrue result ↔ (names.now ≡ others.now) }
{
    match (names.split_first(), others.split_first()) {
        (None, None) => true,
        (Some((name, rest)), Some((other, other_rest))) => {
            name == other && same_names(rest, other_rest)
        }
        _ => false,
    }
}

/// Whether these are the names that are known.
fn are_known(known: Option<&Vec<Name>>, names: &[Name]) -> bool
    ensures { IsTrue result → option_map (λ known. known.items) (option_copied known.entry) ≡ Some names.now }
{
    match known {
        Some(known) => same_names(known.as_slice(), names),
        None => false,
    }
}

/// A character of the model, with its attributes.
#[derive(Clone, Copy)]
struct Character<'a> {
    attrs: &'a Attrs,
    scalar: char,
}

/// Writes a character. The layers that were set are those of one that the known markers cover; where others cover this one, its own are set.
fn push_scalar(
    list: &ConverterList,
    scene: &Scene<'_>,
    position: Path,
    character: Character<'_>,
    known: Option<Vec<Name>>,
    row: &mut RowWriter,
) -> Result<Option<Vec<Name>>, NoMemory>
    requires item { position ≢ [] }
    requires limit { offset_of position < 4294967295 }
    requires layers { HasLayers (conversion_of (λ object. gives (object.vtable, object.value)) list.now) character.attrs.now
        (option_map (λ names. names.items) known) row.old.layers.items }
    ensures written { OnOk result (written row.new
        ≡ with_entry (character_in (character_layers (conversion_of (λ object. gives (object.vtable, object.value)) list.now) character.entry.attrs.now
        (covering position scene.now.markers.now)) character.entry.scalar) (written row.old)) }
    ensures layers { IfOk result (λ known. HasLayers (conversion_of (λ object. gives (object.vtable, object.value)) list.now) character.entry.attrs.now
        (option_map (λ names. names.items) known) row.new.layers.items) }
{
    let names = scene.markers.covering(&position)?;
    if !are_known(known.as_ref(), names.as_slice()) {
        let layers = list.character_layers(scene.alloc, character.attrs, names.as_slice())?;
        row.set_layers(layers)?;
    }
    row.push_character(character.scalar)?;
    Ok(Some(names))
}

/// Writes the characters of a text from an offset on, each behind what stands before it.
fn push_run(
    list: &ConverterList,
    scene: &Scene<'_>,
    path: &Path,
    offset: u32,
    text: &Text,
    row: &mut RowWriter,
) -> Result<(), NoMemory>
    requires leaves { HasLeaves (conversion_of (λ object. gives (object.vtable, object.value)) list.now) scene.now }
    requires short { length path.now < 65 }
    requires few { offset + length text.now.scalars < 2 ^ 32 }
    ensures { OnOk result ((numbers : Numbers)
        → written row.new ≡ with_row (run_row (scene_with (conversion_of (λ object. gives (object.vtable, object.value)) list.now) scene.now numbers)
        path.now offset text.now.attributes text.now.scalars) (written row.old)) }
{
    let mut known = None;
    let mut offset = offset;
    for scalar in text.scalars() {
        let position = position_at(path, offset);
        scene.push_boundary(&position, row)?;
        let character = Character {
            attrs: text.attrs(),
            scalar: *scalar,
        };
        known = push_scalar(list, scene, position, character, known, row)?;
        offset += 1;
    }
    Ok(())
}

/// The nodes of a row that is written. Where the caret is in it, the mapper learns where it is seen.
fn finish(scene: &Scene<'_>, row: RowWriter, maker: &mut Maker) -> Result<Children, NoMemory>
    ensures nodes { IfOk result (λ nodes. nodes.nodes ≡ finished (scene_caret scene.now) (written row)) }
    ensures mapper { OnOk result (maker.new.mapper
        ≡ record maker.old.mapper { caret = caret_found (scene_caret scene.now) (written row) maker.old.mapper.caret }) }
    ensures drawn { maker.new.view ≡ maker.old.view }
{
    let (front, nodes) = row.into_nodes()?;
    let Some(here) = scene.caret else {
        return Ok(nodes);
    };
    let Some(front) = front else {
        return Ok(nodes);
    };
    let mut place = Vec::new(scene.alloc);
    let nodes = between(front, here.layers.as_slice(), nodes, &mut place)?;
    let caret = CaretPlace::new(here.at.copy(), place);
    maker.mapper.set_caret(Some(caret));
    Ok(nodes)
}

/// Where an element stands: in an element of this name, behind so many elements of it.
#[derive(Clone, Copy)]
struct Here<'a> {
    parent: &'a Name,
    before: u32,
}

/// What the element that stands there becomes.
fn converted_at<L: Ledger>(
    list: &ConverterList,
    alloc: Global,
    here: Here<'_>,
    head: &Head,
    steps: &mut Steps<L>,
) -> Result<Converted, NoMemory>
    ensures made { IfOk result (λ made. converted_view made ≡ shape_at (conversion_of (λ object. gives (object.vtable, object.value)) list.now)
        here.entry.parent.now here.entry.before head.now.name head.now.attributes) }
    ensures calls { steps.new ≤ steps.old + boxed_count (conversion_of (λ object. gives (object.vtable, object.value)) list.now).converters }
{
    let facts = facts_of(list, here.parent, here.before, head)?;
    match list.shape_for(alloc, &facts, steps)? {
        Some(made) => Ok(made),
        None => {
            let made = unconverted(alloc, head.name())?;
            Ok(made)
        }
    }
}

/// An element, what it becomes, and the nodes of its content.
#[derive(Drop)]
struct MadeElement<'a> {
    head: &'a Head,
    made: Converted,
    content: Children,
}

/// Writes the element at a path, which becomes this, as its view element with its content.
fn push_element(
    list: &ConverterList,
    scene: &Scene<'_>,
    position: Path,
    element: MadeElement<'_>,
    maker: &mut Maker,
    row: &mut RowWriter,
) -> Result<(), NoMemory>
    requires item { position ≢ [] }
    requires limit { offset_of position < 4294967295 }
    requires numbers { maker.old.view.drawn < 2 ^ 64 - 1 }
    ensures row { OnOk result (written row.new ≡ with_entry (record {
      content = item (with_number (Some maker.old.view.drawn) (only (filled element.entry.content.nodes (converted_view element.entry.made).form)));
      layers = element_layers (scene_with (conversion_of (λ object. gives (object.vtable, object.value)) list.now) scene.now unnumbered) position
          element.entry.head.now.name (converted_view element.entry.made).layers;
    }) (written row.old)) }
    ensures drawn { OnOk result (maker.new.view.drawn ≡ maker.old.view.drawn + 1) }
    ensures mapper { OnOk result (maker.new.mapper
        ≡ with_binding (record {
          id = element.entry.head.now.id;
          number = maker.old.view.drawn;
          slot = slot_of (converted_view element.entry.made).form;
        }) maker.old.mapper) }
    ensures shape { is_shape (converted_view element.entry.made).form ≡ true }
{
    let MadeElement {
        head,
        made,
        content,
    } = element;
    let Converted { shape, layers } = made;
    let node = maker.make(scene.alloc, head.id(), &shape, content)?;
    let layers = element_layers(list, scene, &position, head.name(), layers.as_slice())?;
    row.push_item(node, layers.as_slice())?;
    Ok(())
}

/// An element by its name and its path.
#[derive(Clone, Copy)]
pub(crate) struct Parent<'a> {
    pub(crate) name: &'a Name,
    pub(crate) path: &'a Path,
}

/// The content of an element in which these items are.
pub(crate) fn content<L: Ledger>(
    list: &ConverterList,
    scene: &Scene<'_>,
    parent: &Parent<'_>,
    items: &Items,
    maker: &mut Maker,
    steps: &mut Steps<L>,
) -> Result<Children, NoMemory>
    requires leaves { HasLeaves (conversion_of (λ object. gives (object.vtable, object.value)) list.now) scene.now }
    requires short { length parent.now.path.now + depth_of items.now ≤ 64 }
    requires few { count_of items.now < 2 ^ 32 }
    requires numbers { maker.old.view.drawn + count_of items.now < 2 ^ 64 - 1 }
    requires placed { IfSome (scene_caret scene.now) (λ here. here.at ≢ []) }
    ensures made { IfOk result (λ nodes. (numbers : Numbers)
        → MadeContent (scene_with (conversion_of (λ object. gives (object.vtable, object.value)) list.now) scene.now numbers)
        parent.now.name.now parent.now.path.now maker.old.view.drawn items.now nodes.nodes maker.old.mapper maker.new.mapper) }
    ensures drawn { OnOk result (maker.new.view.drawn ≡ maker.old.view.drawn + elements_among (items_of items.now)) }
    ensures shapes { OnOk result (HaveShapes (conversion_of (λ object. gives (object.vtable, object.value)) list.now) parent.now.name.now 0
        (items_of items.now)) }
    ensures calls { steps.new ≤ steps.old + boxed_count (conversion_of (λ object. gives (object.vtable, object.value)) list.now).converters *
        elements_among (items_of items.now) }
{
    let mut row = RowWriter::new(scene.alloc);
    let mut offset = 0;
    let mut before = 0;
    for node in items.nodes() {
        match node {
            Node::Run(text) => {
                push_run(list, scene, parent.path, offset, text, &mut row)?;
                offset += text.len() as u32;
                continue;
            }
            Node::Element(head, children) => {
                let position = position_at(parent.path, offset);
                scene.push_boundary(&position, &mut row)?;
                let here = Here {
                    parent: parent.name,
                    before,
                };
                let made = converted_at(list, scene.alloc, here, head, steps)?;
                let inside = Parent {
                    name: head.name(),
                    path: &position,
                };
                let inner = content(list, scene, &inside, children, maker, steps)?;
                let element = MadeElement {
                    head,
                    made,
                    content: inner,
                };
                push_element(list, scene, position, element, maker, &mut row)?;
                offset += 1;
                before += 1;
            }
        }
    }
    scene.push_boundary(&position_at(parent.path, offset), &mut row)?;
    let nodes = finish(scene, row, maker)?;
    Ok(nodes)
}
