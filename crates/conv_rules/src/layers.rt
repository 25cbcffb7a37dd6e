//! The layers around characters and around objects in the text, and the leaves of markers.
ghost use Rattle.std.specs.Prelude.{◌≡◌, ◌++◌, OnOk, IfOk, option_copied, fold, unwrap_or};
ghost use Rattle.std.specs.List.{filter_map};
ghost use Rattle.converter_definitions.specs.Gives.{with_gift};
ghost use Rattle.converter_definitions.specs.Layers.{stock_character_gift, character_gift, goes_on, highlight_layer, highlight_by, highlight_of, leaf_by};
ghost use Rattle.converter_definitions.specs.Layers.{leaf_of, highlights, character_layers, object_layers};
ghost use Rattle.conv_rules.specs.Gifts.{gift_viewed, made_view};
ghost use Rattle.conv_rules.specs.Listed.{converter_of, converters_of, conversion_of};

use crate::consumables::Consumables;
use crate::gift::{Collected, Gift};
use crate::list::{ConverterList, Entry, Listed};
use crate::order::made_layers;
use crate::stock::layer_gift;
use ck_base::NoMemory;
use ck_base::attributes::Attrs;
use ck_base::name::Name;
use converter_definitions::stock::{HighlightView, Leaf, StockConverter};
use std::alloc::Global;
use view_tree::kind::Layer;

/// What a converter of the settings gives a character with these attributes.
fn stock_character_gift(
    alloc: Global,
    attributes: &Attrs,
    converter: &StockConverter,
) -> Result<Option<Gift>, NoMemory>
    ensures { IfOk result (λ gift. gift_viewed gift ≡ stock_character_gift attributes.now converter.now) }
{
    match converter {
        StockConverter::AttributeToElement { model, value, view } => {
            layer_gift(alloc, attributes, model, value.as_ref(), view)
        }
        _ => Ok(None),
    }
}

/// The turn of a converter at a character with these attributes.
fn character_turn(
    alloc: Global,
    attributes: &Attrs,
    entry: &Entry,
    made: &mut Collected,
) -> Result<(), NoMemory>
    ensures { OnOk result (made_view made.new
        ≡ with_gift (made_view made.old) (character_gift attributes.now (converter_of (λ object. gives object) entry.now))) }
{
    match entry {
        Entry::Stock(converter) => {
            let gift = stock_character_gift(alloc, attributes, converter)?;
            made.take(gift)?;
            Ok(())
        }
        Entry::Boxed { .. } => Ok(()),
    }
}

/// The turns of all converters at a character with these attributes.
fn character_turns(
    alloc: Global,
    attributes: &Attrs,
    entries: &[Listed],
    made: &mut Collected,
) -> Result<(), NoMemory>
    ensures { OnOk result (made_view made.new
        ≡ fold (λ made converter. with_gift made (character_gift attributes.now converter)) (made_view made.old)
        (converters_of (λ object. gives object) entries.now)) }
{
    for listed in entries {
        character_turn(alloc, attributes, &listed.entry, made)?;
    }
    Ok(())
}

/// Whether a name is a marker's group or the marker itself: it is the name, or goes on behind a colon.
fn goes_on(group: &[u8], name: &[u8]) -> bool
    ensures { result ≡ goes_on group.now name.now }
{
    match (group.split_first(), name.split_first()) {
        (None, None) => true,
        (None, Some((byte, _))) => *byte == b':',
        (Some(_), None) => false,
        (Some((own, more)), Some((byte, rest))) => own == byte && goes_on(more, rest),
    }
}

/// The layer of a highlight.
fn highlight_layer(marker: &Name, view: &HighlightView) -> Result<Layer, NoMemory>
    ensures { IfOk result (λ layer. layer ≡ highlight_layer marker.now view.now) }
{
    let id = match &view.id {
        Some(id) => id.copy()?,
        None => marker.copy()?,
    };
    Ok(Layer {
        name: view.name.copy()?,
        attrs: view.attributes.copy()?,
        priority: view.priority,
        id: Some(id),
    })
}

/// The highlight that a converter makes of a marker.
fn highlight_by(marker: &Name, entry: &Entry) -> Result<Option<Layer>, NoMemory>
    ensures { IfOk result (λ layer. layer ≡ highlight_by marker.now (converter_of (λ object. gives object) entry.now)) }
{
    match entry {
        Entry::Stock(
            StockConverter::MarkerToHighlight {
                marker: group,
                view,
            },
        ) if goes_on(group.as_str().as_bytes(), marker.as_str().as_bytes()) => {
            let layer = highlight_layer(marker, view)?;
            Ok(Some(layer))
        }
        _ => Ok(None),
    }
}

/// The highlight of a marker, by the first converter that makes one.
fn highlight_of(entries: &[Listed], marker: &Name) -> Result<Option<Layer>, NoMemory>
    ensures { IfOk result (λ layer. layer ≡ highlight_of (converters_of (λ object. gives object) entries.now) marker.now) }
{
    for listed in entries {
        if let Some(layer) = highlight_by(marker, &listed.entry)? {
            return Ok(Some(layer));
        }
    }
    Ok(None)
}

/// The highlights of these markers, behind other layers.
fn push_highlights(
    entries: &[Listed],
    covering: &[Name],
    layers: &mut Vec<Layer>,
) -> Result<(), NoMemory>
    ensures { OnOk result (layers.new.items ≡ layers.old.items ++ highlights (converters_of (λ object. gives object) entries.now) covering.now) }
{
    for marker in covering {
        if let Some(layer) = highlight_of(entries, marker)? {
            layers.push(layer)?;
        }
    }
    Ok(())
}

/// The leaf that a converter makes of a marker.
fn leaf_by<'a>(marker: &Name, entry: &'a Entry) -> Option<&'a Leaf>
    ensures { option_copied result ≡ leaf_by marker.now (converter_of (λ object. gives object) entry.now) }
{
    match entry {
        Entry::Stock(
            StockConverter::MarkerToElement {
                marker: group,
                view,
            },
        ) if goes_on(group.as_str().as_bytes(), marker.as_str().as_bytes()) => Some(view),
        _ => None,
    }
}

/// The leaf of a marker, by the first converter that makes one.
fn leaf_of<'a>(entries: &'a [Listed], marker: &Name) -> Option<&'a Leaf>
    ensures { option_copied result ≡ leaf_of (converters_of (λ object. gives object) entries.now) marker.now }
{
    for listed in entries {
        if let Some(leaf) = leaf_by(marker, &listed.entry) {
            return Some(leaf);
        }
    }
    None
}

/// The same layers.
fn copied(alloc: Global, layers: &[Layer]) -> Result<Vec<Layer>, NoMemory>
    ensures { IfOk result (λ copies. copies.items ≡ layers.now) }
{
    let mut copies = Vec::with_capacity(alloc, layers.len())?;
    for layer in layers {
        copies.push(layer.copy()?)?;
    }
    Ok(copies)
}

impl ConverterList {
    /// The layers of a character with these attributes that these markers cover, in their order. It answers `NoMemory` alone beside Ok.
    pub fn character_layers(
        &self,
        alloc: Global,
        attributes: &Attrs,
        covering: &[Name],
    ) -> Result<Vec<Layer>, NoMemory>
        ensures { IfOk result (λ layers. layers.items ≡ character_layers (conversion_of (λ object. gives object) self.now) attributes.now covering.now) }
    {
        let left = Consumables::of_character(alloc, attributes)?;
        let mut made = Collected::new(alloc, left);
        character_turns(alloc, attributes, self.entries.as_slice(), &mut made)?;
        let mut layers = made.into_layers();
        push_highlights(self.entries.as_slice(), covering, &mut layers)?;
        let layers = made_layers(alloc, self.joined, layers)?;
        Ok(layers)
    }

    /// The layers of an object in the text, whose own are these, that these markers cover, in their order. It answers `NoMemory` alone beside
    /// Ok.
    pub fn object_layers(
        &self,
        alloc: Global,
        own: &[Layer],
        covering: &[Name],
    ) -> Result<Vec<Layer>, NoMemory>
        ensures { IfOk result (λ layers. layers.items ≡ object_layers (conversion_of (λ object. gives object) self.now) own.now covering.now) }
    {
        let mut layers = copied(alloc, own)?;
        push_highlights(self.entries.as_slice(), covering, &mut layers)?;
        let layers = made_layers(alloc, self.joined, layers)?;
        Ok(layers)
    }

    /// The leaf of a marker. `None` exactly where no `markerToElement` fits. It takes no memory.
    pub fn leaf(&self, marker: &Name) -> Option<&Leaf>
        ensures { option_copied result ≡ leaf_of (conversion_of (λ object. gives object) self.now).converters marker.now }
    {
        leaf_of(self.entries.as_slice(), marker)
    }
}
