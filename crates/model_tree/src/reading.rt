//! Reading an item.
ghost use Rattle.std.specs.Prelude.{◌≡◌, ◌<◌, ◌^◌, length, Some, slice_get, option_map, option_copied};
ghost use Rattle.ck_base.specs.Entries.{value_of};
ghost use Rattle.operation_definitions.specs.After.{same_value, first_other};
ghost use Rattle.model_tree.specs.OneValue.{HaveOne};
ghost use Rattle.item_definitions.specs.Item.{attributes_of, count_of};
ghost use Rattle.model_tree.specs.Nodes.{items_at, items_in, IsNormal};
ghost use Rattle.model_tree.specs.Reading.{shown_in, shown_of};

use crate::id::ElementId;
use crate::items::{Items, Node};
use ck_base::attributes::Attrs;
use ck_base::name::Name;
use ck_base::value::Value;

/// What an item is.
#[derive(Clone, Copy, Debug)]
pub enum ItemRef<'a> {
    /// A character, by its scalar value, and its attributes.
    Character {
        scalar: char,
        attrs: &'a Attrs,
    },
    /// An element: its id, its name, its attributes and how many items it has.
    Element {
        id: ElementId,
        name: &'a Name,
        attrs: &'a Attrs,
        count: u32,
    },
}

/// What the item of a node at an index is.
#[tactic(auto, using(crate::proofs::Shown::character_shown, crate::proofs::Shown::element_shown))]
fn shown(node: &Node, index: usize) -> ItemRef<'_>
    requires within { index < length (items_at node.now) }
    requires few { count_of (items_at node.now) < 2 ^ 32 }
    ensures { Some (shown_in result) ≡ option_map shown_of (slice_get (items_at node.now) index) }
{
    match node {
        Node::Run(text) => ItemRef::Character {
            scalar: text.scalars()[index],
            attrs: text.attrs(),
        },
        Node::Element(head, children) => ItemRef::Element {
            id: head.id(),
            name: head.name(),
            attrs: head.attrs(),
            count: children.len() as u32,
        },
    }
}

/// What the item at an offset is: None exactly where none stands there.
#[tactic(auto, using(crate::proofs::Found::not_found))]
fn shown_at(nodes: &Vec<Node>, offset: usize) -> Option<ItemRef<'_>>
    requires { count_of (items_in nodes.now.items) < 2 ^ 32 }
    ensures { option_map shown_in result ≡ option_map shown_of (slice_get (items_in nodes.now.items) offset) }
{
    let mut rest = offset;
    for node in nodes {
        let long = node.len();
        if rest < long {
            return Some(shown(node, rest));
        }
        rest -= long;
    }
    None
}

impl Items {
    /// What the item at an offset is: None exactly where none stands there.
    pub(crate) fn item(&self, offset: u32) -> Option<ItemRef<'_>>
        requires { count_of self.now < 2 ^ 32 }
        ensures { option_map shown_in result ≡ option_map shown_of (slice_get self.now offset) }
    {
        shown_at(self.nodes(), offset as usize)
    }

    /// The value of a key that the first item has whose value is another one than the given one: None exactly where each has that value.
    /// It takes no memory.
    pub fn other_value(&self, key: &Name, value: Option<&Value>) -> Option<Option<&Value>>
        ensures { option_map option_copied result
            ≡ option_map (λ item. value_of key.now (attributes_of item)) (first_other key.now (option_copied value.entry) self.now) }
    {
        other_value(self.nodes(), key, value)
    }
}

/// Whether two values are one.
#[tactic(auto, using(crate::proofs::OneValue::one_value))]
fn same(value: Option<&Value>, other: Option<&Value>) -> bool
    ensures { result ≡ same_value (option_copied value.entry) (option_copied other.entry) }
{
    match (value, other) {
        (None, None) => true,
        (Some(value), Some(other)) => value.same(other),
        _ => false,
    }
}

/// The value of a key that all items of a node have.
#[tactic(auto, using(crate::proofs::OneValue::text_value, crate::proofs::OneValue::element_value))]
fn value_in<'a>(node: &'a Node, key: &Name) -> Option<&'a Value>
    ensures { HaveOne key.now (option_copied result) (items_at node.now) }
{
    match node {
        Node::Run(text) => text.attrs().get(key),
        Node::Element(head, _) => head.attrs().get(key),
    }
}

/// The value of a key that the first item has whose value is another one than the given one.
fn other_value<'a>(
    nodes: &'a Vec<Node>,
    key: &Name,
    value: Option<&Value>,
) -> Option<Option<&'a Value>>
    requires { IsNormal nodes.now.items }
    ensures { option_map option_copied result
        ≡ option_map (λ item. value_of key.now (attributes_of item)) (first_other key.now (option_copied value.entry) (items_in nodes.now.items)) }
{
    for node in nodes {
        let found = value_in(node, key);
        if !same(found, value) {
            return Some(found);
        }
    }
    None
}
