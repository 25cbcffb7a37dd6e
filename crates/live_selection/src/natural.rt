//! The attributes that the text gives a selection.
ghost use Rattle.std.specs.Prelude.{◌≡◌, ◌<◌, ◌+◌, ◌^◌, IfOk, if◌then◌else◌, option_and_then, option_copied};
ghost use Rattle.item_definitions.specs.Item.{count_of};
ghost use Rattle.model_tree.specs.Nodes.{characters, items_at};
ghost use Rattle.document_definitions.specs.Selection.{around, attributes, before, character_at, first_in, is_collapsed, natural};
ghost use Rattle.live_selection.specs.Within.{first_from};

use crate::bounds::Bounds;
use crate::selection::Selection;
use ck_base::NoMemory;
use ck_base::attributes::Attrs;
use ck_base::path::Path;
use model_pos::{Position, Range};
use model_tree::items::{Items, Node};
use model_tree::reading::ItemRef;
use model_tree::text::Text;
use model_tree::tree::Tree;
use std::alloc::Global;

/// The attributes of the characters of a text, if one of them lies between bounds.
fn first_in_text<'a>(text: &'a Text, index: u32, bounds: Bounds<'_>) -> Option<&'a Attrs>
    requires { index + count_of (characters text.now) < 2 ^ 32 }
    ensures { option_copied result ≡ first_from bounds.entry index (characters text.now) }
{
    if bounds.have_one(index, text.len() as u32) {
        Some(text.attrs())
    } else {
        None
    }
}

/// The attributes of the first character between bounds, among the items of a node and all that is in them.
#[cycle(first)]
fn first_in_node<'a>(node: &'a Node, index: u32, bounds: Bounds<'_>) -> Option<&'a Attrs>
    requires { index + count_of (items_at node.now) < 2 ^ 32 }
    ensures { option_copied result ≡ first_from bounds.entry index (items_at node.now) }
{
    match node {
        Node::Run(text) => first_in_text(text, index, bounds),
        Node::Element(_, children) => match bounds.inside(index) {
            Some(bounds) => first_in_items(children, bounds),
            None => None,
        },
    }
}

/// The attributes of the first character between bounds, among items and all that is in them. What lies before or behind the bounds is
/// passed over.
#[cycle(first)]
fn first_in_items<'a>(items: &'a Items, bounds: Bounds<'_>) -> Option<&'a Attrs>
    requires { count_of items.now < 2 ^ 32 }
    ensures { option_copied result ≡ first_from bounds.entry 0 items.now }
{
    let mut index: u32 = 0;
    for node in items.nodes() {
        if bounds.are_before(index) {
            return None;
        }
        if let Some(attrs) = first_in_node(node, index, bounds) {
            return Some(attrs);
        }
        index += node.len() as u32;
    }
    None
}

/// The attributes of the first character that is wholly in a range.
fn first_in<'a>(tree: &'a Tree, range: &Range) -> Option<&'a Attrs>
    ensures { option_copied result ≡ first_in tree.now range.now }
{
    first_in_items(tree.items(), Bounds::of(range))
}

/// The attributes of the item at a path, where that is a character.
fn character_at<'a>(tree: &'a Tree, path: &Path) -> Option<&'a Attrs>
    ensures { option_copied result ≡ character_at tree.now path.now }
{
    match tree.item_at(path) {
        Some(ItemRef::Character { attrs, .. }) => Some(attrs),
        Some(ItemRef::Element { .. }) => None,
        None => None,
    }
}

/// The attributes of the item directly before a position in the same parent, where that is a character.
fn character_before<'a>(tree: &'a Tree, position: &Position) -> Option<&'a Attrs>
    ensures { option_copied result ≡ option_and_then (character_at tree.now) (before position.now) }
{
    let offset = position.offset();
    if offset == 0 {
        return None;
    }
    let mut path = position.parent();
    path.push(offset - 1);
    character_at(tree, &path)
}

/// The attributes of the character directly before a position, or else of the one directly behind it.
fn around<'a>(tree: &'a Tree, position: &Position) -> Option<&'a Attrs>
    ensures { option_copied result ≡ around tree.now position.now }
{
    match character_before(tree, position) {
        Some(attrs) => Some(attrs),
        None => character_at(tree, position.path()),
    }
}

/// The attributes that the text gives a range.
fn given_by_text<'a>(tree: &'a Tree, range: &Range) -> Option<&'a Attrs>
    ensures { option_copied result ≡ (if is_collapsed range.now then around tree.now range.now.start else first_in tree.now range.now) }
{
    if range.is_collapsed() {
        around(tree, range.start())
    } else {
        first_in(tree, range)
    }
}

impl Selection {
    /// The attributes that the text gives the selection, without its overrides: those of the first character that is wholly in its range;
    /// of a collapsed one those of the item directly before it in the same parent, where that is a character, or else of the one directly
    /// behind it there; or none. The tree is walked from the start of the range on, no farther than to that character or the end of the
    /// range, and what lies beside is passed over. It answers `NoMemory` alone beside Ok. (This engine's own rule, for what
    /// `DocumentSelection` of CKEditor 5 takes from the text around.)
    pub fn natural(&self, alloc: Global, tree: &Tree) -> Result<Attrs, NoMemory>
        ensures { IfOk result (λ attrs. attrs ≡ natural tree.now self.now) }
    {
        match given_by_text(tree, self.range()) {
            Some(attrs) => attrs.copy(),
            None => Ok(Attrs::new(alloc)),
        }
    }

    /// The attributes of the selection, which text that is typed there gets: those of `natural`, with the value of each override, or
    /// without its key. It answers `NoMemory` alone beside Ok. (After `DocumentSelection.getAttributes` of CKEditor 5's model.)
    pub fn attributes(&self, alloc: Global, tree: &Tree) -> Result<Attrs, NoMemory>
        ensures { IfOk result (λ attrs. attrs ≡ attributes tree.now self.now) }
    {
        let mut attrs = self.natural(alloc, tree)?;
        self.overrides().override_in(&mut attrs)?;
        Ok(attrs)
    }
}
