ghost use Rattle.std.specs.Prelude.{◌≡◌, ◌↔◌, ◌++◌, [], ◌∷◌, IsTrue, OnOk, IfOk};
ghost use Rattle.std.specs.Cmp.Lexicographic.{slice_cmp};
ghost use Rattle.view_definitions.specs.Layer.{Layer, layer_cmp, identity_text, pair_cmp};
ghost use Rattle.view_tree.specs.Kinds.{is_element};

use ck_base::NoMemory;
use ck_base::attributes::ViewAttrs;
use ck_base::name::Name;
use ck_base::text::ViewText;
use std::alloc::Global;
use std::cmp::Ordering;
use std::marker::Model;

/// What kind of element a view element is.
#[derive(Debug, Drop)]
pub enum ElementKind {
    /// It shows an element of the model, or a part of one.
    Container,
    /// It shows what neighbouring items have in common. The lower the priority, the further outside it stands; two of different ids
    /// are never one.
    Attribute { priority: i32, id: Option<Name> },
    /// It shows an element of the model and never has children.
    Empty,
    /// It shows no item of the model.
    Ui,
}

/// A node without its children.
#[derive(Debug, Drop)]
pub enum NodeKind {
    /// A text.
    Text(ViewText),
    /// An element.
    Element {
        kind: ElementKind,
        name: Name,
        attrs: ViewAttrs,
    },
}

impl NodeKind {
    /// Whether it is an element.
    pub fn is_element(&self) -> bool
        ensures { result ≡ is_element self.now }
    {
        matches!(self, NodeKind::Element { .. })
    }
}

/// What an attribute element is: its name, its attributes, its priority and its id.
#[derive(Debug, Drop)]
pub struct Layer {
    pub name: Name,
    pub attrs: ViewAttrs,
    pub priority: i32,
    pub id: Option<Name>,
}

impl Model for Layer {
    ghost use Rattle.view_definitions.specs.Layer.{Layer};

    ghost Value = { Layer };

    ghost view = { λ layer. record { name = layer.name; attrs = layer.attrs; priority = layer.priority; id = layer.id } };
}

impl Layer {
    /// Whether the two are equal, in name, attributes, priority and id.
    pub fn same(&self, other: &Layer) -> bool
        ensures { IsTrue result ↔ (self.now ≡ other.now) }
    {
        self.priority == other.priority
            && self.name == other.name
            && self.id == other.id
            && same_attrs(self.attrs.entries(), other.attrs.entries())
    }

    /// How the two nest: the lower priority stands outside; then the identity text decides, the name with ` KEY="TEXT"` for each
    /// attribute; then the id, none first; then the attributes. It answers `NoMemory` alone beside Ok.
    pub fn compare(&self, alloc: Global, other: &Layer) -> Result<Ordering, NoMemory>
        ensures { IfOk result (λ order. order ≡ layer_cmp self.now other.now) }
    {
        match self.priority.cmp(&other.priority) {
            Ordering::Equal => {}
            order => return Ok(order),
        }
        let text = self.identity_text(alloc)?;
        let other_text = other.identity_text(alloc)?;
        let attrs = attrs_cmp(self.attrs.entries(), other.attrs.entries());
        Ok(
            text.as_slice()
                .cmp(other_text.as_slice())
                .then(self.id.cmp(&other.id).then(attrs)),
        )
    }

    /// The name with ` KEY="TEXT"` for each attribute, as scalar values.
    fn identity_text(&self, alloc: Global) -> Result<Vec<char>, NoMemory>
        ensures { IfOk result (λ text. text.items ≡ identity_text self.now) }
    {
        let mut text = Vec::new(alloc);
        push_name(&mut text, &self.name)?;
        for (key, value) in self.attrs.entries() {
            push_attribute(&mut text, key, value)?;
        }
        Ok(text)
    }

    /// The same layer.
    pub fn copy(&self) -> Result<Layer, NoMemory>
        ensures { IfOk result (λ layer. layer ≡ self.now) }
    {
        Layer::from_parts(&self.name, &self.attrs, self.priority, &self.id)
    }

    /// The layer of these parts.
    pub(crate) fn from_parts(
        name: &Name,
        attrs: &ViewAttrs,
        priority: i32,
        id: &Option<Name>,
    ) -> Result<Layer, NoMemory>
        ensures { IfOk result (λ layer. layer ≡ record { name = name.now; attrs = attrs.now; priority = priority; id = id.now }) }
    {
        let name = name.copy()?;
        let attrs = attrs.copy()?;
        let id = copied_id(id)?;
        Ok(Layer {
            name,
            attrs,
            priority,
            id,
        })
    }
}

/// The same id.
fn copied_id(id: &Option<Name>) -> Result<Option<Name>, NoMemory>
    ensures { IfOk result (λ copy. copy ≡ id.now) }
{
    match id {
        Some(id) => {
            let id = id.copy()?;
            Ok(Some(id))
        }
        None => Ok(None),
    }
}

/// Whether two lists of attributes are one.
fn same_attrs(entries: &[(Name, ViewText)], others: &[(Name, ViewText)]) -> bool
    ensures { IsTrue result ↔ (entries.now ≡ others.now) }
{
    match (entries.split_first(), others.split_first()) {
        (None, None) => true,
        (Some((entry, rest)), Some((other, other_rest))) => {
            same_pair(entry, other) && same_attrs(rest, other_rest)
        }
        _ => false,
    }
}

/// Whether two pairs have the same key and the same text.
fn same_pair(entry: &(Name, ViewText), other: &(Name, ViewText)) -> bool
    ensures { IsTrue result ↔ (entry.now ≡ other.now) }
{
    entry.0 == other.0 && entry.1 == other.1
}

/// How two lists of attributes compare.
fn attrs_cmp(entries: &[(Name, ViewText)], others: &[(Name, ViewText)]) -> Ordering
    ensures { result ≡ slice_cmp pair_cmp entries.now others.now }
{
    match (entries.split_first(), others.split_first()) {
        (None, None) => Ordering::Equal,
        (None, Some(_)) => Ordering::Less,
        (Some(_), None) => Ordering::Greater,
        (Some((entry, rest)), Some((other, other_rest))) => {
            pair_cmp(entry, other).then(attrs_cmp(rest, other_rest))
        }
    }
}

/// How two pairs compare, by the key first.
fn pair_cmp(entry: &(Name, ViewText), other: &(Name, ViewText)) -> Ordering
    ensures { result ≡ pair_cmp entry.now other.now }
{
    entry
        .0
        .cmp(&other.0)
        .then(entry.1.scalars().cmp(other.1.scalars()))
}

/// Puts a name behind a text.
fn push_name(text: &mut Vec<char>, name: &Name) -> Result<(), NoMemory>
    ensures { OnOk result (text.new.items ≡ text.old.items ++ name.now) }
{
    for byte in name.as_str().as_bytes() {
        text.push(char::from(*byte))?;
    }
    Ok(())
}

/// Puts a blank, a key and its text in quotes behind a text.
fn push_attribute(text: &mut Vec<char>, key: &Name, value: &ViewText) -> Result<(), NoMemory>
    ensures { OnOk result (text.new.items ≡ text.old.items ++ (32 ∷ (key.now ++ 61 ∷ 34 ∷ (value.now ++ 34 ∷ [])))) }
{
    text.push(' ')?;
    push_name(text, key)?;
    text.push('=')?;
    text.push('"')?;
    text.extend_from_slice(value.scalars())?;
    text.push('"')?;
    Ok(())
}
