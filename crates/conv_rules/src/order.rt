//! Layers in their order, and layers joined.
ghost use Rattle.std.specs.Prelude.{◌≡◌, ◌<◌, ◌≤◌, length, OnOk, IfOk, IfSome, fold};
ghost use Rattle.std.specs.List.{position};
ghost use Rattle.ck_base.specs.Entries.{with_value};
ghost use Rattle.view_definitions.specs.Change.{with_layer, IsInOrder};
ghost use Rattle.converter_definitions.specs.Layers.{in_order, agree, may_join, with_keys, join_into, joined_layers, made_layers};
ghost use Rattle.conv_rules.specs.Placing.{placed};

use ck_base::NoMemory;
use ck_base::attributes::ViewAttrs;
use std::alloc::Global;
use std::cmp::Ordering;
use view_tree::kind::Layer;

/// Where a layer goes among layers in their order. `None` where it is among them. Layers mostly come in their order, so it looks from the last
/// one on.
#[tactic(auto, using(crate::proofs::Placing::among_all, crate::proofs::Placing::among_front, crate::proofs::Placing::placed_less, crate::proofs::Placing::placed_equal, crate::proofs::Placing::placed_first))]
fn place_in(alloc: Global, layers: &[Layer], next: &Layer) -> Result<Option<usize>, NoMemory>
    requires { IsInOrder layers.now }
    ensures place { IfOk result (λ place. placed next.now place layers.now ≡ with_layer next.now layers.now) }
    ensures inside { IfOk result (λ place. IfSome place (λ index. index ≤ length layers.now)) }
{
    let mut rest = layers;
    'outside: while let Some((last, front)) = rest.split_last() {
        match last.compare(alloc, next)? {
            Ordering::Less => return Ok(Some(rest.len())),
            Ordering::Equal => return Ok(None),
            Ordering::Greater => rest = front,
        }
    }
    Ok(Some(0))
}

/// Puts a layer at its place among layers in their order, unless it is among them.
#[tactic(auto, using(crate::proofs::Placing::placed_in_order))]
fn put_layer(alloc: Global, layers: &mut Vec<Layer>, next: Layer) -> Result<(), NoMemory>
    requires { IsInOrder layers.old.items }
    ensures placed { OnOk result (layers.new.items ≡ with_layer next layers.old.items) }
    ensures ordered { OnOk result (IsInOrder layers.new.items) }
{
    match place_in(alloc, layers.as_slice(), &next)? {
        Some(place) => {
            layers.insert(place, next)?;
            Ok(())
        }
        None => Ok(()),
    }
}

/// Layers in their order, equal ones once.
fn in_order(alloc: Global, raw: Vec<Layer>) -> Result<Vec<Layer>, NoMemory>
    ensures { IfOk result (λ made. made.items ≡ in_order raw.items) }
{
    let mut made = Vec::new(alloc);
    for layer in raw {
        put_layer(alloc, &mut made, layer)?;
    }
    Ok(made)
}

/// Whether no key of the first has another text in the second.
fn agree(attributes: &ViewAttrs, others: &ViewAttrs) -> bool
    ensures { result ≡ agree attributes.now others.now }
{
    attributes.entries().iter().all(|(key, text)| match others.get(key) {
        Some(other) => text == other,
        None => true,
    })
}

/// Whether two layers may be one.
fn may_join(other: &Layer, next: &Layer) -> bool
    ensures { result ≡ may_join other.now next.now }
{
    other.id.is_none()
        && next.id.is_none()
        && other.name == next.name
        && other.priority == next.priority
        && agree(&next.attrs, &other.attrs)
}

/// Gives attributes the texts of others under their keys.
fn add_keys(attributes: &mut ViewAttrs, more: &ViewAttrs) -> Result<(), NoMemory>
    ensures { OnOk result (attributes.new ≡ fold (λ made entry. with_value entry.0 entry.1 made) attributes.old more.now) }
{
    for (key, text) in more.entries() {
        attributes.set(key.copy()?, text.copy()?)?;
    }
    Ok(())
}

/// The first of these layers that the next one may be one with.
fn partner(layers: &[Layer], next: &Layer) -> Option<usize>
    ensures place { result ≡ position (λ other. may_join other next.now) layers.now }
    ensures inside { IfSome result (λ place. place < length layers.now) }
{
    layers.iter().position(|other| may_join(other, next))
}

/// The layer with the keys of another one.
fn with_keys(layer: Layer, next: &Layer) -> Result<Layer, NoMemory>
    ensures { IfOk result (λ made. made ≡ with_keys layer next.now) }
{
    let Layer {
        name,
        mut attrs,
        priority,
        id,
    } = layer;
    add_keys(&mut attrs, &next.attrs)?;
    Ok(Layer {
        name,
        attrs,
        priority,
        id,
    })
}

/// Joins a layer to the first one that it may be one with, or puts it behind all. One with an id may be one with no other, so it is compared
/// with none.
#[tactic(auto, using(crate::proofs::Joining::joined_apart))]
fn join_into(layers: &mut Vec<Layer>, next: Layer) -> Result<(), NoMemory>
    ensures { OnOk result (layers.new.items ≡ join_into next layers.old.items) }
{
    if next.id.is_some() {
        layers.push(next)?;
        return Ok(());
    }
    match partner(layers.as_slice(), &next) {
        Some(place) => {
            let layer = layers.remove(place);
            let made = with_keys(layer, &next)?;
            layers.insert(place, made)?;
            Ok(())
        }
        None => {
            layers.push(next)?;
            Ok(())
        }
    }
}

/// Layers joined one after the other.
fn joined_layers(alloc: Global, raw: Vec<Layer>) -> Result<Vec<Layer>, NoMemory>
    ensures { IfOk result (λ made. made.items ≡ joined_layers raw.items) }
{
    let mut made = Vec::new(alloc);
    for layer in raw {
        join_into(&mut made, layer)?;
    }
    Ok(made)
}

/// The layers that raw ones make: in their order, equal ones once; where layers are joined, then joined one after the other, and put in order
/// again.
pub(crate) fn made_layers(
    alloc: Global,
    joined: bool,
    raw: Vec<Layer>,
) -> Result<Vec<Layer>, NoMemory>
    ensures { IfOk result (λ made. made.items ≡ made_layers joined raw.items) }
{
    let layers = in_order(alloc, raw)?;
    if !joined {
        return Ok(layers);
    }
    let layers = joined_layers(alloc, layers)?;
    in_order(alloc, layers)
}
