//! The list of items at a path.
ghost use Rattle.std.specs.Prelude.{◌≡◌, ◌<◌, ◌≤◌, ◌+◌, ◌^◌, ◌∷◌, [], ◌++◌, ℕ, length, take, drop, IfOk, slice_get, option_map, option_and_then, option_copied};
ghost use Rattle.item_definitions.specs.Item.{element, items_of};
ghost use Rattle.item_definitions.specs.Children.{children_at};
ghost use Rattle.model_tree.specs.Nodes.{items_at, items_in};
ghost use Rattle.model_tree.specs.Places.{element_of, halves, parts_of, parts_in, put_run, Gives};

use crate::fault::TreeFault;
use crate::items::{Items, Node};
use crate::text::Head;
use ck_base::NoMemory;
use ck_base::name::Name;

/// An element of a list.
#[derive(Clone, Copy, Debug)]
pub(crate) struct Element<'a> {
    pub(crate) head: &'a Head,
    pub(crate) children: &'a Items,
}

impl Element<'_> {
    /// The same element with this name, alone in a list.
    pub(crate) fn renamed(self, name: &Name) -> Result<Items, NoMemory>
        ensures { let head = self.entry.head.now
            in IfOk result (λ items. items ≡ element head.id name.now head.attributes (items_of self.entry.children.now) ∷ []) }
    {
        let name = name.copy()?;
        let head = self.head.renamed(name)?;
        let children = self.children.copy()?;
        Items::of_node(self.children.allocator(), Node::Element(head, children))
    }

    /// Two elements: this one with its items before an offset, and one of another head with those behind it.
    #[tactic(auto, using(crate::proofs::Halves::two_halves))]
    pub(crate) fn split(self, offset: u32, shell: &Head) -> Result<Items, NoMemory>
        ensures { IfOk result (λ items. items ≡ halves self.entry.head.now shell.now offset self.entry.children.now) }
    {
        let front = self.children.range(0, offset as usize)?;
        let back = self.children.rest(offset as usize)?;
        let alloc = self.children.allocator();
        let second = Items::of_node(alloc, Node::Element(shell.share()?, back))?;
        let first = Items::of_node(alloc, Node::Element(self.head.share()?, front))?;
        first.followed_by(&second)
    }

    /// This element with the items of another one behind its own, alone in a list.
    #[tactic(auto, using(crate::proofs::Merges::one_of_two))]
    pub(crate) fn joined(self, other: Element<'_>) -> Result<Items, NoMemory>
        ensures { IfOk result (λ items. items ≡ element_of self.entry.head.now (self.entry.children.now ++ other.entry.children.now) ∷ []) }
    {
        let children = self.children.followed_by(other.children)?;
        let head = self.head.share()?;
        Items::of_node(self.children.allocator(), Node::Element(head, children))
    }

    /// This element without its items, alone in a list.
    pub(crate) fn emptied(self) -> Result<Items, NoMemory>
        ensures { IfOk result (λ items. items ≡ element_of self.entry.head.now [] ∷ []) }
    {
        let alloc = self.children.allocator();
        let head = self.head.share()?;
        let none = Items::new(alloc)?;
        Items::of_node(alloc, Node::Element(head, none))
    }
}

/// The element that a node is: None for a text.
#[tactic(auto, using(crate::proofs::Found::no_element, crate::proofs::Found::one_element))]
fn element_in_node(node: &Node) -> Option<Element<'_>>
    ensures { (index : ℕ) → index < length (items_at node.now) → option_map parts_in result ≡ option_and_then parts_of (slice_get (items_at node.now) index) }
{
    match node {
        Node::Run(_) => None,
        Node::Element(head, children) => Some(Element { head, children }),
    }
}

/// The element at an offset: None exactly where none stands there.
#[tactic(auto, using(crate::proofs::Found::not_found))]
fn element_in(nodes: &Vec<Node>, offset: usize) -> Option<Element<'_>>
    ensures { option_map parts_in result ≡ option_and_then parts_of (slice_get (items_in nodes.now.items) offset) }
{
    let mut rest = offset;
    for node in nodes {
        let long = node.len();
        if rest < long {
            return element_in_node(node);
        }
        rest -= long;
    }
    None
}

impl Items {
    /// The element at an offset: None exactly where none stands there.
    pub(crate) fn element_at(&self, offset: usize) -> Option<Element<'_>>
        ensures { option_map parts_in result ≡ option_and_then parts_of (slice_get self.now offset) }
    {
        element_in(self.nodes(), offset)
    }

    /// The items of the element at a path: None exactly where no element stands there.
    #[tactic(auto, using(crate::proofs::Found::nowhere, crate::proofs::Found::lower))]
    pub fn list_at(&self, path: &[u32]) -> Option<&Items>
        ensures { option_copied result ≡ children_at path.now self.now }
    {
        let Some((first, rest)) = path.split_first() else {
            return Some(self);
        };
        let Some(element) = self.element_at(*first as usize) else {
            return None;
        };
        element.children.list_at(rest)
    }

    /// The list with an element of this head and these items in place of the item at an offset.
    pub(crate) fn with_element(
        &self,
        offset: usize,
        head: &Head,
        children: Items,
    ) -> Result<Items, NoMemory>
        requires { offset + 1 < 2 ^ 64 }
        ensures { IfOk result (λ items. items
            ≡ take offset self.now ++ ((element head.now.id head.now.name head.now.attributes (items_of children) ∷ []) ++ drop (offset + 1) self.now)) }
    {
        let head = head.share()?;
        let new = Items::of_node(self.allocator(), Node::Element(head, children))?;
        self.spliced(offset, 1, &new)
    }

    /// The list with these items in place of the `count` behind an offset. It answers `NoPlace` exactly where these aren't there.
    #[tactic(auto, using(crate::proofs::Found::replaced, crate::proofs::Found::there, crate::proofs::Found::not_replaced))]
    fn replaced(&self, offset: u32, count: u32, new: &Items) -> Result<Items, TreeFault>
        ensures { Gives (put_run [] offset count new.now self.now) result }
    {
        if !self.has_run(offset, count) {
            return Err(TreeFault::NoPlace);
        }
        match self.spliced(offset as usize, count as usize, new) {
            Ok(items) => Ok(items),
            Err(_) => Err(TreeFault::NoMemory),
        }
    }

    /// The list with these items in place of the `count` behind an offset in the element at a path. It answers `NoPlace` exactly where no
    /// element stands there, or it has no such items.
    #[tactic(auto, using(crate::proofs::Found::replaced_nowhere, crate::proofs::Found::replaced_lower, crate::proofs::Found::fault_lower, crate::proofs::Found::memory_lower))]
    pub(crate) fn replaced_at(
        &self,
        path: &[u32],
        offset: u32,
        count: u32,
        new: &Items,
    ) -> Result<Items, TreeFault>
        ensures { Gives (put_run path.now offset count new.now self.now) result }
    {
        let Some((first, rest)) = path.split_first() else {
            return self.replaced(offset, count, new);
        };
        let index = *first as usize;
        let Some(element) = self.element_at(index) else {
            return Err(TreeFault::NoPlace);
        };
        match element.children.replaced_at(rest, offset, count, new) {
            Ok(children) => match self.with_element(index, element.head, children) {
                Ok(items) => Ok(items),
                Err(_) => Err(TreeFault::NoMemory),
            },
            Err(fault) => Err(fault),
        }
    }
}
