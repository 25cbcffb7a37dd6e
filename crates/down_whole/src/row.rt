//! Rows, written to the nodes that they nest to.
ghost use Rattle.std.specs.Prelude.{◌≡◌, ◌++◌, [], ◌∷◌, OnOk, IfOk, Some, option_map, IsTrue, ◌↔◌};
ghost use Rattle.view_definitions.specs.Node.{text};
ghost use Rattle.view_definitions.specs.Row.{leaf, item, character, caret, join};
ghost use Rattle.down_whole.specs.Written.{nothing_written, with_entry, in_layers, character_in};
ghost use Rattle.down_whole.specs.Viewed.{written};

use ck_base::NoMemory;
use ck_base::text::ViewText;
use std::alloc::Global;
use std::mem;
use view_tree::kind::{Layer, NodeKind};
use view_tree::node::{Children, Detached};
use view_wrap::join_at;

/// Writes the row of an element to the nodes that it nests to, from the front on. Characters in the same layers are put into the nodes
/// together.
#[derive(Debug, Drop)]
pub(crate) struct RowWriter {
    alloc: Global,
    // the nodes before the caret, once it is written
    front: Option<Children>,
    nodes: Children,
    // characters that are still to be put into the nodes, and their layers
    text: Vec<char>,
    layers: Vec<Layer>,
}

/// A node in these layers, the first one outermost.
fn in_layers(alloc: Global, layers: &[Layer], node: Detached) -> Result<Children, NoMemory>
    ensures { IfOk result (λ nodes. nodes.nodes ≡ in_layers layers.now node) }
{
    let mut nodes = Children::new(alloc);
    let Some((layer, layers)) = layers.split_first() else {
        nodes.push(node)?;
        return Ok(nodes);
    };
    let inner = in_layers(alloc, layers, node)?;
    nodes.push(Detached::around(layer, inner)?)?;
    Ok(nodes)
}

/// The text of these scalar values.
fn text_node(alloc: Global, scalars: Vec<char>) -> Result<Detached, NoMemory>
    ensures { IfOk result (λ node. node ≡ text scalars.items) }
{
    let text = ViewText::from_scalars(scalars)?;
    Detached::plain(alloc, NodeKind::Text(text))
}

impl RowWriter {
    /// With nothing written.
    pub(crate) fn new(alloc: Global) -> RowWriter
        ensures { written result ≡ nothing_written }
    {
        RowWriter {
            alloc,
            front: None,
            nodes: Children::new(alloc),
            text: Vec::new(alloc),
            layers: Vec::new(alloc),
        }
    }

    /// Puts a node in these layers behind the nodes.
    fn join(&mut self, node: Detached, layers: &[Layer]) -> Result<(), NoMemory>
        ensures nodes { OnOk result (self.new.nodes.nodes ≡ join self.old.nodes.nodes (in_layers layers.now node)) }
        ensures front { self.new.front ≡ self.old.front }
        ensures text { self.new.text ≡ self.old.text }
        ensures layers { self.new.layers ≡ self.old.layers }
    {
        let nodes = in_layers(self.alloc, layers, node)?;
        join_at(&mut self.nodes, nodes)
    }

    /// Whether no characters are still to be put into the nodes.
    fn is_flushed(&self) -> bool
        ensures { IsTrue result ↔ (self.now.text.items ≡ []) }
    {
        self.text.is_empty()
    }

    /// Puts the characters into the nodes.
    fn flush(&mut self) -> Result<(), NoMemory>
        ensures written { OnOk result (written self.new ≡ written self.old) }
        ensures text { OnOk result (self.new.text.items ≡ []) }
        ensures layers { OnOk result (self.new.layers ≡ self.old.layers) }
    {
        if self.is_flushed() {
            return Ok(());
        }
        let scalars = mem::replace(&mut self.text, Vec::new(self.alloc));
        let node = text_node(self.alloc, scalars)?;
        let nodes = in_layers(self.alloc, self.layers.as_slice(), node)?;
        join_at(&mut self.nodes, nodes)?;
        Ok(())
    }

    /// The layers of the characters that are written next.
    pub(crate) fn set_layers(&mut self, layers: Vec<Layer>) -> Result<(), NoMemory>
        ensures written { OnOk result (written self.new ≡ written self.old) }
        ensures layers { OnOk result (self.new.layers.items ≡ layers.items) }
    {
        self.flush()?;
        self.layers = layers;
        Ok(())
    }

    /// Writes a character in the layers that were set.
    pub(crate) fn push_character(&mut self, scalar: char) -> Result<(), NoMemory>
        ensures written { OnOk result (written self.new ≡ with_entry (character_in self.old.layers.items scalar) (written self.old)) }
        ensures layers { self.new.layers ≡ self.old.layers }
    {
        self.text.push(scalar)?;
        Ok(())
    }

    /// Writes an element of the model as its node, in these layers.
    pub(crate) fn push_item(&mut self, node: Detached, layers: &[Layer]) -> Result<(), NoMemory>
        ensures written { OnOk result (written self.new ≡ with_entry (record { content = item node; layers = layers.now }) (written self.old)) }
    {
        self.flush()?;
        self.join(node, layers)?;
        Ok(())
    }

    /// Writes the leaf of a marker.
    pub(crate) fn push_leaf(&mut self, node: Detached) -> Result<(), NoMemory>
        ensures written { OnOk result (written self.new ≡ with_entry (record { content = leaf node; layers = [] }) (written self.old)) }
        ensures layers { OnOk result (self.new.layers ≡ self.old.layers) }
    {
        self.flush()?;
        self.join(node, &[])?;
        Ok(())
    }

    /// Writes the caret.
    pub(crate) fn push_caret(&mut self) -> Result<(), NoMemory>
        ensures written { OnOk result (written self.new ≡ record { front = Some (written self.old).nodes; nodes = [] }) }
        ensures layers { OnOk result (self.new.layers ≡ self.old.layers) }
    {
        self.flush()?;
        let front = mem::replace(&mut self.nodes, Children::new(self.alloc));
        self.front = Some(front);
        Ok(())
    }

    /// The nodes before the caret, if it is written, and those behind it, or else all nodes.
    pub(crate) fn into_nodes(self) -> Result<(Option<Children>, Children), NoMemory>
        ensures { IfOk result (λ both. record { front = option_map (λ list. list.nodes) both.0; nodes = both.1.nodes } ≡ written self) }
    {
        let mut writer = self;
        writer.flush()?;
        let RowWriter { front, nodes, .. } = writer;
        Ok((front, nodes))
    }
}
