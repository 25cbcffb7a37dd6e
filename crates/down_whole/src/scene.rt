//! What of a document the view shows beside its items: the leaves of markers, and the caret.
ghost use Rattle.std.specs.Prelude.{◌≡◌, OnOk, IfOk, option_map};
ghost use Rattle.converter_definitions.specs.Gives.{Conversion};
ghost use Rattle.conv_rules.specs.Listed.{conversion_of};
ghost use Rattle.downcast_definitions.specs.Scene.{Numbers, boundary, carets, leaf_node, ends_at, starts_at};
ghost use Rattle.down_whole.specs.Written.{with_row};
ghost use Rattle.down_whole.specs.Viewed.{written, caret_view};
ghost use Rattle.down_whole.specs.Scenes.{with_leaves, chosen_leaves, marked, scene_with, HasLeaves};

use crate::caret::Caret;
use crate::row::RowWriter;
use ck_base::NoMemory;
use ck_base::path::Path;
use conv_rules::list::ConverterList;
use converter_definitions::stock::Leaf;
use marker_table::Markers;
use model_pos::Range;
use std::alloc::Global;
use view_tree::kind::{ElementKind, NodeKind};
use view_tree::node::Detached;

/// A marker that has a leaf.
#[derive(Clone, Copy, Debug)]
pub(crate) struct MarkerLeaf<'a> {
    range: &'a Range,
    view: &'a Leaf,
}

/// What of a document the view shows beside its items.
#[derive(Drop)]
pub(crate) struct Scene<'a> {
    pub(crate) alloc: Global,
    pub(crate) markers: &'a Markers,
    leaves: Vec<MarkerLeaf<'a>>,
    pub(crate) caret: Option<&'a Caret>,
}

/// The markers that have a leaf.
fn with_leaves<'a>(
    alloc: Global,
    list: &'a ConverterList,
    markers: &'a Markers,
) -> Result<Vec<MarkerLeaf<'a>>, NoMemory>
    ensures { IfOk result (λ leaves. marked leaves.items ≡ with_leaves (conversion_of (λ object. gives (object.vtable, object.value)) list.now) markers.now) }
{
    let mut leaves = Vec::new(alloc);
    for (name, range) in markers.iter() {
        if let Some(view) = list.leaf(name) {
            leaves.push(MarkerLeaf { range, view })?;
        }
    }
    Ok(leaves)
}

/// The UI element of a marker's end.
fn leaf_node(alloc: Global, view: &Leaf) -> Result<Detached, NoMemory>
    ensures { IfOk result (λ node. node ≡ leaf_node view.now) }
{
    let kind = NodeKind::Element {
        kind: ElementKind::Ui,
        name: view.name.copy()?,
        attrs: view.attrs.copy()?,
    };
    Detached::plain(alloc, kind)
}

/// Whether a range that isn't collapsed ends at a position.
fn ends_at(position: &Path, range: &Range) -> bool
    ensures { result ≡ ends_at position.now range.now }
{
    range.end().as_slice() == position.as_slice() && !range.is_collapsed()
}

/// Whether a range starts at a position.
fn starts_at(position: &Path, range: &Range) -> bool
    ensures { result ≡ starts_at position.now range.now }
{
    range.start().as_slice() == position.as_slice()
}

impl<'a> Scene<'a> {
    /// The scene of these converters, markers and caret.
    pub(crate) fn new(
        alloc: Global,
        list: &'a ConverterList,
        markers: &'a Markers,
        caret: Option<&'a Caret>,
    ) -> Result<Scene<'a>, NoMemory>
        ensures leaves { IfOk result (HasLeaves (conversion_of (λ object. gives (object.vtable, object.value)) list.now)) }
        ensures markers { IfOk result (λ scene. scene.markers.now ≡ markers.now) }
        ensures caret { IfOk result (λ scene. scene.caret ≡ caret.entry) }
    {
        let leaves = with_leaves(alloc, list, markers)?;
        Ok(Scene {
            alloc,
            markers,
            leaves,
            caret,
        })
    }

    /// Writes the leaves of the markers that end at a position.
    fn push_ends(&self, position: &Path, row: &mut RowWriter) -> Result<(), NoMemory>
        ensures written { OnOk result (written row.new ≡ with_row (chosen_leaves (ends_at position.now) (marked self.now.leaves.items)) (written row.old)) }
        ensures layers { OnOk result (row.new.layers ≡ row.old.layers) }
    {
        for one in self.leaves.as_slice() {
            if ends_at(position, one.range) {
                row.push_leaf(leaf_node(self.alloc, one.view)?)?;
            }
        }
        Ok(())
    }

    /// Writes the leaves of the markers that start at a position.
    fn push_starts(&self, position: &Path, row: &mut RowWriter) -> Result<(), NoMemory>
        ensures written { OnOk result (written row.new ≡ with_row (chosen_leaves (starts_at position.now) (marked self.now.leaves.items)) (written row.old)) }
        ensures layers { OnOk result (row.new.layers ≡ row.old.layers) }
    {
        for one in self.leaves.as_slice() {
            if starts_at(position, one.range) {
                row.push_leaf(leaf_node(self.alloc, one.view)?)?;
            }
        }
        Ok(())
    }

    /// Writes the caret, if it stands at a position.
    fn push_caret(&self, position: &Path, row: &mut RowWriter) -> Result<(), NoMemory>
        ensures written { OnOk result (written row.new ≡ with_row (carets (option_map (λ here. caret_view here.now) self.now.caret) position.now)
            (written row.old)) }
        ensures layers { OnOk result (row.new.layers ≡ row.old.layers) }
    {
        match self.caret {
            Some(here) if here.at.as_slice() == position.as_slice() => row.push_caret(),
            _ => Ok(()),
        }
    }

    /// Writes what stands at a position: the leaves that end there, those that start there, and the caret.
    pub(crate) fn push_boundary(&self, position: &Path, row: &mut RowWriter) -> Result<(), NoMemory>
        ensures written { OnOk result ((conversion : Conversion) (numbers : Numbers) → HasLeaves conversion self.now
            → written row.new ≡ with_row (boundary (scene_with conversion self.now numbers) position.now) (written row.old)) }
        ensures layers { OnOk result (row.new.layers ≡ row.old.layers) }
    {
        self.push_ends(position, row)?;
        self.push_starts(position, row)?;
        self.push_caret(position, row)?;
        Ok(())
    }
}
