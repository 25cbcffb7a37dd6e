ghost use Rattle.std.specs.Prelude.{◌≡◌, ◌↔◌, ◌+◌, ◌-◌, ◌^◌, ◌<◌, [], true, None, Some, OnOk, OnErr, IfOk, IfErr, IsErr, IsErrOf, IsNone, unwrap_or};
ghost use Rattle.std.specs.Prelude.{option_map};
ghost use Rattle.view_definitions.specs.Node.{ViewNode};
ghost use Rattle.view_definitions.specs.Place.{node_at, list_at, changes_of};
ghost use Rattle.view_tree.specs.Kinds.{is_element, node_of};
ghost use Rattle.view_tree.specs.Reading.{ShowsSome};
ghost use Rattle.view_tree.specs.Changes.{View, IsNewlyNumbered, IsUnnumbered, numbered, placed, taken_out, emptied, filled};

use crate::kind::NodeKind;
use crate::lists;
use crate::node::{Children, Detached, NodeRef, ViewNumber};
use crate::path::ViewPath;
use ck_base::NoMemory;
use std::alloc::Global;
use std::marker::Model;

/// Why a place of the view can't be used.
#[derive(Clone, Copy, Debug, PartialEq, Eq)]
pub enum ViewFault {
    /// There is no such place.
    NoPlace,
    /// Memory ran out.
    NoMemory,
}

/// The tree of a view. It is seen as its own list of nodes and how many numbers it has drawn, which are the numbers below that many.
#[derive(Debug, Drop)]
pub struct View {
    nodes: Children,
    drawn: u64,
}

impl Model for View {
    ghost use Rattle.view_tree.specs.Changes.{View};
    ghost use Rattle.view_tree.specs.ViewCode.{coded_view};

    ghost Value = { View };

    ghost coded = { coded_view };

    ghost view = { λ view. record { nodes = view.nodes.nodes; drawn = view.drawn } };
}

impl View {
    /// No nodes, and no number drawn. It takes no memory.
    pub fn new(alloc: Global) -> View
        ensures { result ≡ record { nodes = []; drawn = 0 } }
    {
        View {
            nodes: Children::new(alloc),
            drawn: 0,
        }
    }

    /// Its own list of nodes.
    pub fn nodes(&self) -> &Children
        ensures { result.now.nodes ≡ self.now.nodes }
    {
        &self.nodes
    }

    /// Makes an element with a number that was never drawn before. It answers `NoMemory` alone beside Ok, and then nothing has changed.
    pub fn make(&mut self, kind: NodeKind) -> Result<Detached, NoMemory>
        requires element { is_element kind ≡ true }
        requires numbers { self.old.drawn < 2 ^ 64 - 1 }
        ensures node { IfOk result (λ node. node ≡ node_of (Some self.old.drawn) kind) }
        ensures fresh { IfOk result (λ node. IsNewlyNumbered self.old self.new node) }
        ensures drawn { OnOk result (self.new ≡ record self.old { drawn = self.old.drawn + 1 }) }
        ensures err { OnErr result (self.new ≡ self.old) }
    {
        let alloc = self.nodes.allocator();
        let number = self.draw();
        Ok(Detached::with_number(alloc, kind, Some(number)))
    }

    /// Gives an element a number that was never drawn before, with a count of 0. It takes no memory.
    pub fn number(&mut self, node: &mut Detached)
        requires element { IsUnnumbered node.old }
        requires numbers { self.old.drawn < 2 ^ 64 - 1 }
        ensures node { node.new ≡ numbered self.old.drawn node.old }
        ensures fresh { IsNewlyNumbered self.old self.new node.new }
        ensures drawn { self.new ≡ record self.old { drawn = self.old.drawn + 1 } }
    {
        let number = self.draw();
        node.set_number(number);
    }

    /// The next number.
    fn draw(&mut self) -> ViewNumber
        requires { self.old.drawn < 2 ^ 64 - 1 }
        ensures number { result ≡ self.old.drawn }
        ensures drawn { self.new ≡ record self.old { drawn = self.old.drawn + 1 } }
    {
        let number = ViewNumber::new(self.drawn);
        self.drawn += 1;
        number
    }

    /// Puts a node at an index of the children of the element at a path, before the one that stands there; the empty path stands for
    /// the view's own list. It answers `NoPlace` exactly where no element stands there or the index is above the number of its children,
    /// and `NoMemory`. After both the view is unchanged, and the node is dropped.
    pub fn place(&mut self, parent: &ViewPath, index: u64, node: Detached) -> Result<(), ViewFault>
        ensures ok { OnOk result (placed parent.now index node self.old.nodes ≡ Some self.new.nodes) }
        ensures no_place { IsErrOf result ViewFault.NoPlace ↔ (placed parent.now index node self.old.nodes ≡ None) }
        ensures err { OnErr result (self.new ≡ self.old) }
        ensures drawn { self.new.drawn ≡ self.old.drawn }
    {
        let path = parent.as_slice();
        let Some(mut list) = lists::take_list(&mut self.nodes, path) else {
            return Err(ViewFault::NoPlace);
        };
        match list.insert(index, node) {
            Ok(()) => {
                lists::put_list(&mut self.nodes, path, list);
                lists::count_change(&mut self.nodes, path);
                Ok(())
            }
            Err(fault) => {
                lists::put_list(&mut self.nodes, path, list);
                Err(fault)
            }
        }
    }

    /// Takes the node at an index of the children of the element at a path out; the empty path stands for the view's own list. It
    /// answers `NoPlace` exactly where none stands there, and then the view is unchanged. It takes no memory.
    pub fn take_out(&mut self, parent: &ViewPath, index: u64) -> Result<Detached, ViewFault>
        ensures ok { IfOk result (λ node. taken_out parent.now index self.old.nodes ≡ Some (self.new.nodes, node)) }
        ensures no_place { IsErrOf result ViewFault.NoPlace ↔ (taken_out parent.now index self.old.nodes ≡ None) }
        ensures err { OnErr result (self.new ≡ self.old) }
        ensures drawn { self.new.drawn ≡ self.old.drawn }
    {
        let path = parent.as_slice();
        let Some(mut list) = lists::take_list(&mut self.nodes, path) else {
            return Err(ViewFault::NoPlace);
        };
        match list.remove(index) {
            Some(node) => {
                lists::put_list(&mut self.nodes, path, list);
                lists::count_change(&mut self.nodes, path);
                Ok(node)
            }
            None => {
                lists::put_list(&mut self.nodes, path, list);
                Err(ViewFault::NoPlace)
            }
        }
    }

    /// Takes all children of the element at a path out; the empty path stands for the view's own list. It answers None exactly where no
    /// element stands there, and then the view is unchanged. It takes no memory.
    pub fn take_children(&mut self, parent: &ViewPath) -> Option<Children>
        ensures children { option_map (λ list. list.nodes) result ≡ list_at parent.now self.old.nodes }
        ensures nodes { self.new.nodes ≡ unwrap_or (emptied parent.now self.old.nodes) self.old.nodes }
        ensures drawn { self.new.drawn ≡ self.old.drawn }
    {
        let path = parent.as_slice();
        let Some(list) = lists::take_list(&mut self.nodes, path) else {
            return None;
        };
        lists::count_change(&mut self.nodes, path);
        Some(list)
    }

    /// Puts these nodes into the element at a path, which has no children; the empty path stands for the view's own list. It gives
    /// them back exactly where no element without children stands there, and then the view is unchanged. It takes no memory.
    pub fn put_children(&mut self, parent: &ViewPath, children: Children) -> Result<(), Children>
        ensures ok { OnOk result (filled parent.now children.nodes self.old.nodes ≡ Some self.new.nodes) }
        ensures refused { IsErr result ↔ (filled parent.now children.nodes self.old.nodes ≡ None) }
        ensures given_back { IfErr result (λ back. back ≡ children) }
        ensures err { OnErr result (self.new ≡ self.old) }
        ensures drawn { self.new.drawn ≡ self.old.drawn }
    {
        let path = parent.as_slice();
        let Some(list) = lists::take_list(&mut self.nodes, path) else {
            return Err(children);
        };
        if !list.is_empty() {
            lists::put_list(&mut self.nodes, path, list);
            return Err(children);
        }
        lists::put_list(&mut self.nodes, path, children);
        lists::count_change(&mut self.nodes, path);
        Ok(())
    }

    /// The node at a path: None exactly where none stands there, and for the empty path. It takes no memory.
    pub fn read(&self, path: &ViewPath) -> Option<NodeRef<'_>>
        ensures { ShowsSome result (node_at path.now self.now.nodes) }
    {
        match lists::find(&self.nodes, path.as_slice()) {
            Some(node) => Some(node.node()),
            None => None,
        }
    }

    /// The count of changes of the element with this number: None exactly where no element of the view has it. It takes no memory.
    pub fn changes(&self, number: ViewNumber) -> Option<u64>
        ensures { result ≡ changes_of number self.now.nodes }
    {
        lists::changes_of(&self.nodes, number)
    }
}
