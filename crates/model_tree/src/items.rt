//! Lists of items, whose copies share what they hold.
ghost use Rattle.std.specs.Prelude.{◌≡◌, ◌<◌, ◌≤◌, ◌+◌, ◌-◌, ◌^◌, min, map, ◌∷◌, [], ◌++◌, length, take, drop, IfOk, OnOk, OnErr, option_copied, IsTrue, ◌↔◌};
ghost use Rattle.model_tree.specs.Nodes.{items_at, items_in, IsNormal};
ghost use Rattle.model_tree.specs.Sizes.{AreSizes};
ghost use Rattle.item_definitions.specs.Item.{character, element, items_of, count_of, depth_of};
ghost use Rattle.std.specs.Str.{chars};
ghost use Rattle.operation_definitions.specs.Reversed.{AreOrdered};
ghost use Rattle.operation_definitions.specs.Level.{given};

use crate::id::ElementId;
use crate::levels;
use crate::sizes::Sizes;
use crate::text::{Head, Text};
use ck_base::NoMemory;
use ck_base::attributes::Attrs;
use ck_base::name::Name;
use ck_base::value::Value;
use std::alloc::Global;
use std::marker::Model;
use std::rc::Rc;

/// A text, or an element with the items in it.
#[cycle(items)]
#[derive(Debug, Drop)]
pub enum Node {
    Run(Text),
    Element(Head, Items),
}

/// A list of items outside the tree. It is seen as that list.
#[cycle(items)]
#[derive(Debug, Drop)]
pub struct Items {
    nodes: Rc<Vec<Node>>,
    sizes: Sizes,
}

impl Model for Items {
    ghost use Rattle.std.specs.Prelude.{List};
    ghost use Rattle.item_definitions.specs.Item.{Item, depth_of};
    ghost use Rattle.item_definitions.specs.ItemCode.{coded_items};

    ghost Value = { List Item };

    ghost coded = { coded_items };

    ghost use Rattle.model_tree.specs.Nodes.{items_in};
    ghost use Rattle.model_tree.specs.Kept.{IsKept};

    ghost view = { λ items. items_in items.nodes.value.items };

    ghost invariant = { IsKept };

    ghost size = { depth_of };

    ghost use Rattle.model_tree.specs.Falls.{list_larger};

    ghost size_decreases = { λ a h. list_larger a.nodes.value.items };
}

impl Items {
    /// The list that nodes in normal form stand for.
    pub(crate) fn from_nodes(nodes: Vec<Node>) -> Result<Items, NoMemory>
        requires { IsNormal nodes.items }
        ensures { IfOk result (λ items. items ≡ items_in nodes.items) }
    {
        let sizes = levels::sizes_of(&nodes);
        let alloc = *nodes.allocator();
        let nodes = Rc::new(alloc, nodes)?;
        Ok(Items { nodes, sizes })
    }

    /// The list of the items of one node that isn't empty.
    pub(crate) fn of_node(alloc: Global, node: Node) -> Result<Items, NoMemory>
        requires { 0 < length (items_at node) }
        ensures { IfOk result (λ items. items ≡ items_at node) }
    {
        let mut nodes = Vec::with_capacity(alloc, 1)?;
        levels::add_node(&mut nodes, node)?;
        Items::from_nodes(nodes)
    }

    /// No items.
    pub fn new(alloc: Global) -> Result<Items, NoMemory>
        ensures { IfOk result (λ items. items ≡ []) }
    {
        Items::from_nodes(Vec::new(alloc))
    }

    /// The characters of a text, each with these attributes.
    pub fn text(alloc: Global, text: &str, attrs: &Attrs) -> Result<Items, NoMemory>
        ensures { IfOk result (λ items. items ≡ map (λ scalar. character scalar attrs.now) (chars text.now)) }
    {
        let scalars = scalars_of(alloc, text)?;
        Items::of_scalars(alloc, scalars, attrs)
    }

    /// The characters of these scalar values, each with these attributes.
    #[tactic(auto, using(crate::proofs::Texts::no_characters, crate::proofs::Texts::some_characters))]
    pub(crate) fn of_scalars(
        alloc: Global,
        scalars: Vec<char>,
        attrs: &Attrs,
    ) -> Result<Items, NoMemory>
        ensures { IfOk result (λ items. items ≡ map (λ scalar. character scalar attrs.now) scalars.items) }
    {
        if scalars.is_empty() {
            return Items::new(alloc);
        }
        let attrs = attrs.copy()?;
        let attrs = Rc::new(alloc, attrs)?;
        let text = Text::new(alloc, scalars, attrs)?;
        Items::of_node(alloc, Node::Run(text))
    }

    /// One element with these items in it.
    pub fn element(
        alloc: Global,
        id: ElementId,
        name: Name,
        attrs: Attrs,
        children: Items,
    ) -> Result<Items, NoMemory>
        ensures { IfOk result (λ items. items ≡ element id name attrs (items_of children) ∷ []) }
    {
        let attrs = Rc::new(alloc, attrs)?;
        let head = Head::new(id, name, attrs);
        Items::of_node(alloc, Node::Element(head, children))
    }

    /// Puts items behind these. It answers `NoMemory` alone beside Ok, and then nothing has changed.
    #[tactic(auto, using(crate::proofs::Texts::behind))]
    pub fn append(&mut self, more: Items) -> Result<(), NoMemory>
        ensures ok { OnOk result (self.new ≡ self.old ++ more) }
        ensures err { OnErr result (self.new ≡ self.old) }
    {
        let all = self.followed_by(&more)?;
        *self = all;
        Ok(())
    }

    /// These items with others behind them.
    #[tactic(auto, using(crate::proofs::Texts::behind))]
    pub(crate) fn followed_by(&self, more: &Items) -> Result<Items, NoMemory>
        ensures { IfOk result (λ items. items ≡ self.now ++ more.now) }
    {
        let mut nodes = Vec::with_capacity(self.allocator(), self.nodes.len())?;
        levels::add_rest(&mut nodes, &self.nodes, 0)?;
        levels::add_rest(&mut nodes, &more.nodes, 0)?;
        Items::from_nodes(nodes)
    }

    /// The same list.
    pub fn copy(&self) -> Result<Items, NoMemory>
        ensures { IfOk result (λ items. items ≡ self.now) }
    {
        let nodes = self.nodes.clone()?;
        Ok(Items {
            nodes,
            sizes: self.sizes,
        })
    }

    /// How many items it has, without those that are in them. More than 2^64 - 1 are given as that number.
    pub fn len(&self) -> u64
        ensures { result ≡ min (length self.now) (2 ^ 64 - 1) }
    {
        self.sizes.long
    }

    /// How many items there are, at all depths. More than 2^64 - 1 are given as that number.
    pub fn count(&self) -> u64
        ensures { result ≡ min (count_of self.now) (2 ^ 64 - 1) }
    {
        self.sizes.count
    }

    /// The depth of the deepest item: 1 for a list of characters, and 0 for the empty list. More than 2^32 - 1 is given as that number.
    pub fn depth(&self) -> u32
        ensures { result ≡ min (depth_of self.now) (2 ^ 32 - 1) }
    {
        self.sizes.depth
    }

    /// Its allocator.
    pub fn allocator(&self) -> Global {
        *self.nodes.allocator()
    }

    /// Its nodes. The keys of each item are in order.
    pub fn nodes(&self) -> &Vec<Node>
        ensures items { items_in result.now.items ≡ self.now }
        ensures normal { IsNormal result.now.items }
        ensures ordered { AreOrdered self.now }
    {
        &self.nodes
    }

    /// Whether there are `count` items behind an offset.
    pub fn has_run(&self, offset: u32, count: u32) -> bool
        ensures { IsTrue result ↔ (offset + count ≤ length self.now) }
    {
        offset as u64 + count as u64 <= self.sizes.long
    }

    /// The items with a value of a key, or without one; what is in them stays as it is.
    pub fn given(&self, key: &Name, value: Option<&Value>) -> Result<Items, NoMemory>
        ensures { IfOk result (λ items. items ≡ given key.now (option_copied value.entry) self.now) }
    {
        let nodes = levels::given(self.nodes(), key, value)?;
        Items::from_nodes(nodes)
    }

    /// The `count` items behind an offset, as far as they are there.
    pub fn range(&self, offset: usize, count: usize) -> Result<Items, NoMemory>
        ensures { IfOk result (λ items. items ≡ take count (drop offset self.now)) }
    {
        let mut nodes = Vec::new(self.allocator());
        levels::add_range(&mut nodes, &self.nodes, offset, count)?;
        Items::from_nodes(nodes)
    }

    /// The items behind an offset.
    #[tactic(auto, using(crate::proofs::Texts::all_behind))]
    pub fn rest(&self, offset: usize) -> Result<Items, NoMemory>
        ensures { IfOk result (λ items. items ≡ drop offset self.now) }
    {
        let mut nodes = Vec::new(self.allocator());
        levels::add_rest(&mut nodes, &self.nodes, offset)?;
        Items::from_nodes(nodes)
    }

    /// The list with these items in place of the `count` behind an offset.
    #[tactic(auto, using(crate::proofs::Ranges::three))]
    pub(crate) fn spliced(
        &self,
        offset: usize,
        count: usize,
        new: &Items,
    ) -> Result<Items, NoMemory>
        requires { offset + count < 2 ^ 64 }
        ensures { IfOk result (λ items. items ≡ take offset self.now ++ (new.now ++ drop (offset + count) self.now)) }
    {
        let mut nodes = Vec::with_capacity(self.allocator(), self.nodes.len())?;
        levels::add_range(&mut nodes, &self.nodes, 0, offset)?;
        levels::add_rest(&mut nodes, &new.nodes, 0)?;
        levels::add_rest(&mut nodes, &self.nodes, offset + count)?;
        Items::from_nodes(nodes)
    }
}

/// The scalar values of a text.
fn scalars_of(alloc: Global, text: &str) -> Result<Vec<char>, NoMemory>
    ensures { IfOk result (λ scalars. scalars.items ≡ chars text.now) }
{
    let scalars: Vec<char> = text.chars().collect(alloc)?;
    Ok(scalars)
}

impl Node {
    /// How many items it stands for.
    pub fn len(&self) -> usize
        ensures { result ≡ length (items_at self.now) }
    {
        match self {
            Node::Run(text) => text.len(),
            Node::Element(_, _) => 1,
        }
    }

    /// The same node.
    pub fn share(&self) -> Result<Node, NoMemory>
        ensures { IfOk result (λ node. node ≡ self.now) }
    {
        match self {
            Node::Run(text) => {
                let text = text.share()?;
                Ok(Node::Run(text))
            }
            Node::Element(head, children) => {
                let head = head.share()?;
                let children = children.copy()?;
                Ok(Node::Element(head, children))
            }
        }
    }

    /// The `count` items behind an offset.
    #[tactic(auto, using(crate::proofs::Ranges::part_of_text, crate::proofs::Ranges::whole))]
    pub(crate) fn part(&self, offset: usize, count: usize) -> Result<Node, NoMemory>
        requires some { 0 < count }
        requires within { offset + count ≤ length (items_at self.now) }
        ensures { IfOk result (λ node. items_at node ≡ take count (drop offset (items_at self.now))) }
    {
        match self {
            Node::Run(text) => {
                let part = text.part(offset, count)?;
                Ok(Node::Run(part))
            }
            Node::Element(_, _) => self.share(),
        }
    }

    /// The same items with a value of a key, or without one; what is in an element stays as it is.
    #[tactic(auto, using(crate::proofs::Keys::text_given, crate::proofs::Keys::element_given))]
    pub(crate) fn with_key(
        &self,
        alloc: Global,
        key: &Name,
        value: Option<&Value>,
    ) -> Result<Node, NoMemory>
        ensures { IfOk result (λ node. items_at node ≡ given key.now (option_copied value.entry) (items_at self.now)) }
    {
        match self {
            Node::Run(text) => {
                let text = text.with_key(key, value)?;
                Ok(Node::Run(text))
            }
            Node::Element(head, children) => {
                let head = head.with_key(alloc, key, value)?;
                let children = children.copy()?;
                Ok(Node::Element(head, children))
            }
        }
    }

    /// The sizes of the list of its items, whose keys are in order.
    #[tactic(auto, using(crate::proofs::Counts::text_sizes, crate::proofs::Counts::element_sizes, crate::proofs::Ordered::text_ordered, crate::proofs::Ordered::element_ordered))]
    pub(crate) fn sizes(&self) -> Sizes
        ensures sizes { AreSizes (items_at self.now) result.long result.count result.depth }
        ensures ordered { AreOrdered (items_at self.now) }
    {
        match self {
            Node::Run(text) => {
                let _pairs = text.attrs().entries();
                let long = text.len() as u64;
                Sizes {
                    long,
                    count: long,
                    depth: if long == 0 { 0 } else { 1 },
                }
            }
            Node::Element(head, children) => {
                let _pairs = head.attrs().entries();
                Sizes {
                    long: 1,
                    count: children.sizes.count.saturating_add(1),
                    depth: children.sizes.depth.saturating_add(1),
                }
            }
        }
    }
}
