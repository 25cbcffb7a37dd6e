ghost use Rattle.std.specs.Prelude.{◌≡◌, ◌↔◌, ◌+◌, ◌≤◌, ◌<◌, ◌++◌, ℕ, [], ◌∷◌, true, None, Some, length, is_some, OnOk, OnErr, IfOk, IfSome, IfNone, IsTrue};
ghost use Rattle.std.specs.Prelude.{IsNone, IsErrOf, slice_get, option_copied, option_map, option_to_list, take, drop, reverse};
ghost use Rattle.view_definitions.specs.Node.{ViewNode, Head, text, element, nodes_of, children_of};
ghost use Rattle.view_definitions.specs.Place.{counting};
ghost use Rattle.view_definitions.specs.Layer.{layer_of, in_layer};
ghost use Rattle.view_definitions.specs.Row.{is_element, is_leaf_kind};
ghost use Rattle.view_tree.specs.Kinds.{kind_of, node_of};
ghost use Rattle.view_tree.specs.NodeList.{NodeList};
ghost use Rattle.view_tree.specs.Reading.{Shows};
ghost use Rattle.view_tree.specs.Changes.{IsElement, number_of, node_layer, node_text, with_children, inner_of, numbered, inserted, removed};

use crate::kind::{ElementKind, Layer, NodeKind};
use crate::view::ViewFault;
use ck_base::NoMemory;
use ck_base::attributes::ViewAttrs;
use ck_base::name::Name;
use ck_base::text::ViewText;
use std::alloc::Global;
use std::marker::Model;
use std::mem;

/// The number of an element that shows a converted model element. A view draws none twice.
#[derive(Clone, Copy, Debug, PartialEq, Eq, PartialOrd, Ord)]
pub struct ViewNumber {
    number: u64,
}

impl Model for ViewNumber {
    ghost use Rattle.std.specs.Prelude.{ℕ};

    ghost Value = { ℕ };

    ghost view = { λ number. number.number };

    ghost inverse = { λ number. record { number = number } };
}

impl ViewNumber {
    /// The number of this value.
    pub(crate) fn new(number: u64) -> ViewNumber
        ensures { result ≡ number }
    {
        ViewNumber { number }
    }

    /// Its value.
    pub fn value(self) -> u64
        ensures { result ≡ self }
    {
        self.number
    }
}

/// What an element is, but for its children.
#[derive(Debug, Drop)]
pub(crate) struct Head {
    pub(crate) kind: ElementKind,
    pub(crate) name: Name,
    pub(crate) attrs: ViewAttrs,
    pub(crate) number: Option<ViewNumber>,
    pub(crate) changes: u64,
}

impl Model for Head {
    ghost use Rattle.view_definitions.specs.Node.{Head};
    ghost use Rattle.view_definitions.specs.NodeCode.{coded_head};
    ghost use Rattle.view_tree.specs.Kinds.{kind_of};

    ghost Value = { Head };

    ghost coded = { coded_head };

    ghost view = { λ head. record { kind = kind_of head.kind; name = head.name; attributes = head.attrs; number = head.number; changes = head.changes } };
}

/// A node of the view outside of it, with all that is in it.
#[cycle(nodes)]
#[derive(Debug, Drop)]
pub struct Detached {
    pub(crate) node: Node,
}

#[cycle(nodes)]
#[derive(Debug, Drop)]
pub(crate) enum Node {
    // a text keeps the allocator, from which it makes its empty list of children
    Text(ViewText, Global),
    Element(Head, Children),
}

/// A list of nodes of the view outside of it. It is seen as the nodes, in order, and how many more go in without memory.
#[cycle(nodes)]
#[derive(Debug, Drop)]
pub struct Children {
    pub(crate) nodes: Vec<Detached>,
}

impl Model for Detached {
    ghost use Rattle.std.specs.Prelude.{◌*◌};
    ghost use Rattle.view_definitions.specs.Node.{ViewNode, node_depth};
    ghost use Rattle.view_definitions.specs.NodeCode.{coded_node};

    ghost Value = { ViewNode };

    ghost coded = { coded_node };

    ghost use Rattle.view_tree.specs.Parts.{node_view};

    ghost view = { λ detached. node_view detached.node };

    ghost size = { λ node. 2 * node_depth node };

    ghost use Rattle.view_tree.specs.Falls.{node_larger};

    ghost size_decreases = { λ a h. node_larger a.node };
}

impl Model for Children {
    ghost use Rattle.std.specs.Prelude.{◌+◌, ◌-◌, ◌*◌, vec_len, vec_capacity};
    ghost use Rattle.view_tree.specs.NodeList.{NodeList, coded_node_list};
    ghost use Rattle.view_definitions.specs.Node.{depth_of};

    ghost Value = { NodeList };

    ghost coded = { coded_node_list };

    ghost view = { λ children. record { nodes = children.nodes.items; spare = vec_capacity children.nodes - vec_len children.nodes } };

    ghost size = { λ list. 2 * depth_of list.nodes + 1 };

    ghost use Rattle.view_tree.specs.Deepest.{list_larger};

    ghost size_decreases = { λ a h. list_larger a.nodes.items };
}

impl Head {
    /// The layer that this element is: None where it is no attribute element, or has a number.
    pub(crate) fn layer(&self) -> Result<Option<Layer>, NoMemory>
        ensures { IfOk result (λ layer. layer ≡ layer_of self.now) }
    {
        if self.number.is_some() {
            return Ok(None);
        }
        match &self.kind {
            ElementKind::Attribute { priority, id } => {
                let layer = Layer::from_parts(&self.name, &self.attrs, *priority, id)?;
                Ok(Some(layer))
            }
            ElementKind::Container => Ok(None),
            ElementKind::Empty => Ok(None),
            ElementKind::Ui => Ok(None),
        }
    }

    /// Whether it is an attribute element without a number.
    pub(crate) fn is_layer(&self) -> bool
        ensures { result ≡ is_some (layer_of self.now) }
    {
        if self.number.is_some() {
            return false;
        }
        match &self.kind {
            ElementKind::Attribute { .. } => true,
            ElementKind::Container => false,
            ElementKind::Empty => false,
            ElementKind::Ui => false,
        }
    }

    /// Whether it is a UI element.
    pub(crate) fn is_ui(&self) -> bool
        ensures { result ≡ is_leaf_kind self.now.kind }
    {
        match &self.kind {
            ElementKind::Ui => true,
            ElementKind::Attribute { .. } => false,
            ElementKind::Container => false,
            ElementKind::Empty => false,
        }
    }

    /// Counts a change of a list that belongs to this element, if it has a number.
    pub(crate) fn count_change(&mut self)
        ensures { self.new ≡ counting self.old }
    {
        if self.number.is_some() {
            self.changes = self.changes.saturating_add(1);
        }
    }
}

/// What a node shows.
#[derive(Clone, Copy, Debug)]
pub enum NodeRef<'a> {
    /// A text.
    Text(&'a ViewText),
    /// An element, with its number, if it has one, and how many children it has.
    Element {
        kind: &'a ElementKind,
        name: &'a Name,
        attrs: &'a ViewAttrs,
        number: Option<ViewNumber>,
        count: u64,
    },
}

impl Detached {
    /// A node without a number and without children.
    pub fn plain(alloc: Global, kind: NodeKind) -> Result<Detached, NoMemory>
        ensures { IfOk result (λ node. node ≡ node_of None kind) }
    {
        Ok(Detached::with_number(alloc, kind, None))
    }

    /// A node without children; an element gets this number. It takes no memory.
    pub(crate) fn with_number(alloc: Global, kind: NodeKind, number: Option<ViewNumber>) -> Detached
        ensures { result ≡ node_of number kind }
    {
        let node = match kind {
            NodeKind::Text(text) => Node::Text(text, alloc),
            NodeKind::Element { kind, name, attrs } => {
                let head = Head {
                    kind,
                    name,
                    attrs,
                    number,
                    changes: 0,
                };
                Node::Element(head, Children::new(alloc))
            }
        };
        Detached { node }
    }

    /// The attribute element of this layer around these nodes, without a number.
    pub fn around(layer: &Layer, children: Children) -> Result<Detached, NoMemory>
        ensures { IfOk result (λ node. node ≡ in_layer layer.now children.nodes) }
    {
        let Layer {
            name,
            attrs,
            priority,
            id,
        } = layer.copy()?;
        let head = Head {
            kind: ElementKind::Attribute { priority, id },
            name,
            attrs,
            number: None,
            changes: 0,
        };
        Ok(Detached {
            node: Node::Element(head, children),
        })
    }

    /// The layer that the node is: None where it is no attribute element, or has a number.
    pub fn layer(&self) -> Result<Option<Layer>, NoMemory>
        ensures { IfOk result (λ layer. layer ≡ node_layer self.now) }
    {
        match &self.node {
            Node::Text(_, _) => Ok(None),
            Node::Element(head, _) => head.layer(),
        }
    }

    /// Whether the node is an attribute element without a number.
    pub fn is_layer(&self) -> bool
        ensures { result ≡ is_some (node_layer self.now) }
    {
        match &self.node {
            Node::Text(_, _) => false,
            Node::Element(head, _) => head.is_layer(),
        }
    }

    /// The number of an element that shows a model element: None where it has none, and for a text.
    pub fn number(&self) -> Option<ViewNumber>
        ensures { result ≡ number_of self.now }
    {
        match &self.node {
            Node::Text(_, _) => None,
            Node::Element(head, _) => head.number,
        }
    }

    /// Whether the node is a UI element.
    pub fn is_ui(&self) -> bool
        ensures { result ≡ is_element is_leaf_kind self.now }
    {
        match &self.node {
            Node::Text(_, _) => false,
            Node::Element(head, _) => head.is_ui(),
        }
    }

    /// The allocator that the node keeps.
    pub fn allocator(&self) -> Global {
        match &self.node {
            Node::Text(_, alloc) => *alloc,
            Node::Element(_, children) => children.allocator(),
        }
    }

    /// The text that the node is: None where it is an element.
    pub fn text(&self) -> Option<&ViewText>
        ensures { option_copied result ≡ node_text self.now }
    {
        match &self.node {
            Node::Text(text, _) => Some(text),
            Node::Element(_, _) => None,
        }
    }

    /// Its children: None exactly for a text.
    pub fn children(&self) -> Option<&Children>
        ensures { option_map (λ list. list.nodes) (option_copied result) ≡ children_of self.now }
    {
        match &self.node {
            Node::Text(_, _) => None,
            Node::Element(_, children) => Some(children),
        }
    }

    /// What the node is.
    pub fn node(&self) -> NodeRef<'_>
        ensures { Shows result self.now }
    {
        match &self.node {
            Node::Text(text, _) => NodeRef::Text(text),
            Node::Element(head, children) => NodeRef::Element {
                kind: &head.kind,
                name: &head.name,
                attrs: &head.attrs,
                number: head.number,
                count: children.len() as u64,
            },
        }
    }
}

impl Detached {
    /// Gives an element this number, with a count of 0.
    pub(crate) fn set_number(&mut self, number: ViewNumber)
        ensures { self.new ≡ numbered number self.old }
    {
        match &mut self.node {
            Node::Text(_, _) => {}
            Node::Element(head, _) => {
                head.number = Some(number);
                head.changes = 0;
            }
        }
    }

    /// Takes all children out of an element, which counts this as a change if it has a number. Those of a text are empty. It takes no
    /// memory.
    #[tactic(auto, using(crate::proofs::Listed::listed))]
    pub fn take_children(&mut self) -> Children
        ensures children { result.nodes ≡ inner_of self.old }
        ensures node { self.new ≡ with_children [] self.old }
    {
        match &mut self.node {
            Node::Text(_, alloc) => Children::new(*alloc),
            Node::Element(head, children) => {
                head.count_change();
                children.take()
            }
        }
    }

    /// Puts these children in an element in place of those that it has, which counts this as a change if it has a number. It takes no
    /// memory.
    pub fn set_children(&mut self, children: Children)
        requires { IsElement self.old }
        ensures { self.new ≡ with_children children.nodes self.old }
    {
        match &mut self.node {
            Node::Text(_, _) => unreachable!(),
            Node::Element(head, old) => {
                head.count_change();
                *old = children;
            }
        }
    }
}

impl Children {
    /// No nodes. It takes no memory.
    pub fn new(alloc: Global) -> Children
        ensures { result.nodes ≡ [] }
    {
        Children {
            nodes: Vec::new(alloc),
        }
    }

    /// Takes all nodes out. It takes no memory.
    pub(crate) fn take(&mut self) -> Children
        ensures taken { result ≡ self.old }
        ensures left { self.new.nodes ≡ [] }
    {
        let alloc = *self.nodes.allocator();
        mem::replace(self, Children::new(alloc))
    }

    /// How many nodes there are.
    pub fn len(&self) -> usize
        ensures { result ≡ length self.now.nodes }
    {
        self.nodes.len()
    }

    /// Whether there are none.
    pub fn is_empty(&self) -> bool
        ensures { IsTrue result ↔ (self.now.nodes ≡ []) }
    {
        self.nodes.is_empty()
    }

    /// The allocator that the list keeps.
    pub fn allocator(&self) -> Global {
        *self.nodes.allocator()
    }

    /// Puts a node at an index. It answers `NoPlace` exactly where the index is above the number of nodes, and `NoMemory`. After both
    /// nothing has changed, but that the node is dropped.
    pub fn insert(&mut self, index: u64, node: Detached) -> Result<(), ViewFault>
        ensures ok { OnOk result (inserted index node self.old.nodes ≡ Some self.new.nodes) }
        ensures no_place { IsErrOf result ViewFault.NoPlace ↔ (inserted index node self.old.nodes ≡ None) }
        ensures err { OnErr result (self.new.nodes ≡ self.old.nodes) }
    {
        let index = index as usize;
        if index > self.nodes.len() {
            return Err(ViewFault::NoPlace);
        }
        match self.nodes.insert(index, node) {
            Ok(()) => Ok(()),
            Err(_) => Err(ViewFault::NoMemory),
        }
    }

    /// Takes the node at an index out: None exactly where none stands there, and then nothing has changed. It takes no memory.
    pub fn remove(&mut self, index: u64) -> Option<Detached>
        ensures some { IfSome result (λ node. removed index self.old.nodes ≡ Some (self.new.nodes, node)) }
        ensures none { IsNone result ↔ (removed index self.old.nodes ≡ None) }
        ensures kept { IfNone result (self.new.nodes ≡ self.old.nodes) }
    {
        let index = index as usize;
        if index >= self.nodes.len() {
            return None;
        }
        Some(self.nodes.remove(index))
    }

    /// Puts a node behind the others. It answers `NoMemory` alone beside Ok, and then nothing has changed, but that the node is dropped.
    pub fn push(&mut self, node: Detached) -> Result<(), NoMemory>
        ensures ok { OnOk result (self.new.nodes ≡ self.old.nodes ++ node ∷ []) }
        ensures err { OnErr result (self.new ≡ self.old) }
    {
        self.nodes.reserve(1)?;
        self.nodes.push_reserved(node);
        Ok(())
    }

    /// Makes room for so many more nodes. It answers `NoMemory` alone beside Ok, and then nothing has changed.
    pub fn reserve(&mut self, more: u64) -> Result<(), NoMemory>
        ensures nodes { self.new.nodes ≡ self.old.nodes }
        ensures room { OnOk result (more ≤ self.new.spare) }
        ensures kept { self.old.spare ≤ self.new.spare }
        ensures err { OnErr result (self.new ≡ self.old) }
    {
        self.nodes.reserve(more as usize)
    }

    /// Puts a node behind the others, where there is room. It takes no memory.
    pub fn push_spare(&mut self, node: Detached)
        requires { 1 ≤ self.old.spare }
        ensures nodes { self.new.nodes ≡ self.old.nodes ++ node ∷ [] }
        ensures room { self.new.spare + 1 ≡ self.old.spare }
    {
        self.nodes.push_reserved(node);
    }

    /// The node at an index: None exactly where there are no more nodes than that. It takes no memory.
    pub fn get(&self, index: u64) -> Option<&Detached>
        ensures { option_copied result ≡ slice_get self.now.nodes index }
    {
        self.nodes.get(index as usize)
    }

    /// The nodes, in order.
    pub fn as_slice(&self) -> &[Detached]
        ensures { result.now ≡ self.now.nodes }
    {
        self.nodes.as_slice()
    }

    /// Turns the order of the nodes round. It takes no memory.
    pub fn reverse(&mut self)
        ensures nodes { self.new.nodes ≡ reverse self.old.nodes }
        ensures room { self.new.spare ≡ self.old.spare }
    {
        self.nodes.reverse();
    }

    /// Puts these nodes behind the others. It answers `NoMemory` alone beside Ok, and then nothing has changed, but that the nodes are
    /// dropped.
    pub fn append(&mut self, more: Children) -> Result<(), NoMemory>
        ensures ok { OnOk result (self.new.nodes ≡ self.old.nodes ++ more.nodes) }
        ensures err { OnErr result (self.new.nodes ≡ self.old.nodes) }
    {
        let Children { nodes: mut more } = more;
        self.nodes.append(&mut more)?;
        Ok(())
    }

    /// Takes the nodes from an index on out. It answers `NoMemory` alone beside Ok, and then nothing has changed.
    pub fn split_off(&mut self, index: u64) -> Result<Children, NoMemory>
        requires { index ≤ length self.old.nodes }
        ensures front { OnOk result (self.new.nodes ≡ take index self.old.nodes) }
        ensures back { IfOk result (λ back. back.nodes ≡ drop index self.old.nodes) }
        ensures err { OnErr result (self.new.nodes ≡ self.old.nodes) }
    {
        let nodes = self.nodes.split_off(index as usize)?;
        Ok(Children { nodes })
    }

    /// Takes the last node out: None exactly where there is none. It takes no memory.
    pub fn pop(&mut self) -> Option<Detached>
        ensures nodes { self.old.nodes ≡ self.new.nodes ++ option_to_list result }
        ensures none { IsNone result ↔ (self.old.nodes ≡ []) }
        ensures room { self.old.spare ≤ self.new.spare }
    {
        self.nodes.pop()
    }
}
