//! Where the caret of a document stands in its view.
ghost use Rattle.std.specs.Prelude.{◌≡◌, ◌&&◌, IfOk};
ghost use Rattle.item_definitions.specs.Position.{is_before};
ghost use Rattle.view_definitions.specs.Layer.{same_layer};
ghost use Rattle.conv_rules.specs.Listed.{conversion_of};
ghost use Rattle.downcast_definitions.specs.Scene.{strictly_around, same_layers, caret_of};
ghost use Rattle.down_whole.specs.Viewed.{caret_as};

use ck_base::NoMemory;
use ck_base::name::Name;
use conv_rules::list::ConverterList;
use marker_table::Markers;
use model_doc::Document;
use model_pos::{Position, Range};
use std::alloc::Global;
use view_tree::kind::Layer;

/// The caret of a document: where it stands, and the layers that it is shown in.
#[derive(Debug, Drop)]
pub struct Caret {
    /// The position of the collapsed selection.
    pub at: Position,
    /// The layers that a character typed there has, the outermost first.
    pub layers: Vec<Layer>,
}

/// The names of the markers that start before a position and end behind it.
fn strictly_around(alloc: Global, at: &Position, markers: &Markers) -> Result<Vec<Name>, NoMemory>
    ensures { IfOk result (λ names. names.items ≡ strictly_around at.now markers.now) }
{
    let mut names = Vec::new(alloc);
    for (name, range) in markers.iter() {
        if is_strictly_in(at, range) {
            names.push(name.copy()?)?;
        }
    }
    Ok(names)
}

/// Whether a range starts before a position and ends behind it.
fn is_strictly_in(at: &Position, range: &Range) -> bool
    ensures { result ≡ (is_before range.now.start at.now && is_before at.now range.now.end) }
{
    let start = range.start().as_slice();
    let end = range.end().as_slice();
    !at.as_slice().cmp(start).is_le() && !end.cmp(at.as_slice()).is_le()
}

/// Whether two layers are one.
fn is_same(layer: &Layer, other: &Layer) -> bool
    ensures { result ≡ same_layer layer.now other.now }
{
    layer.same(other)
}

/// Whether two lists of layers are one.
fn same_layers(layers: &[Layer], others: &[Layer]) -> bool
    ensures { result ≡ same_layers layers.now others.now }
{
    match (layers.split_first(), others.split_first()) {
        (None, None) => true,
        (Some((layer, rest)), Some((other, other_rest))) => {
            is_same(layer, other) && same_layers(rest, other_rest)
        }
        _ => false,
    }
}

/// The caret of a document: `None` exactly where the selection isn't collapsed, or where a character with the selection's attributes would
/// have the layers there that one with the attributes of the text around has. It answers `NoMemory` alone beside Ok.
pub fn caret_of(
    alloc: Global,
    list: &ConverterList,
    document: &Document,
) -> Result<Option<Caret>, NoMemory>
    ensures { IfOk result (λ caret. caret_as caret ≡ caret_of (conversion_of (λ object. gives (object.vtable, object.value)) list.now)
        document.now.state.document) }
{
    let selection = document.selection();
    let range = selection.range();
    if !range.is_collapsed() {
        return Ok(None);
    }
    let at = range.start();
    let around = strictly_around(alloc, at, document.markers())?;
    let attributes = selection.attributes(alloc, document.tree())?;
    let layers = list.character_layers(alloc, &attributes, around.as_slice())?;
    let natural = selection.natural(alloc, document.tree())?;
    let plain = list.character_layers(alloc, &natural, around.as_slice())?;
    if same_layers(layers.as_slice(), plain.as_slice()) {
        return Ok(None);
    }
    let at = at.copy();
    Ok(Some(Caret { at, layers }))
}
