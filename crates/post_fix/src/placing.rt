//! What the fixer of the selection wants. The ends of the selection are tested first; only where they may not stand where they do, the document is
//! searched, once: from the start on, and then before it, the last elements first.
ghost use Rattle.std.specs.Prelude.{◌≡◌, ◌<◌, [], ◌++◌, ℕ, length, false, IfOk, OnOk, option_map, option_and_then, slice_get};
ghost use Rattle.std.specs.Option.{option_map_or};
ghost use Rattle.item_definitions.specs.Item.{items_of};
ghost use Rattle.item_definitions.specs.Children.{item_at};
ghost use Rattle.item_definitions.specs.Position.{behind};
ghost use Rattle.document_definitions.specs.Selection.{same_position};
ghost use Rattle.model_tree.specs.Nodes.{items_at, items_in};
ghost use Rattle.model_tree.specs.Places.{parts_of};
ghost use Rattle.fix_definitions.specs.Selecting.{may_hold_text, is_selectable_item, is_round_selectable, may_be_selected, nearest_text, selecting_at};
ghost use Rattle.fix_definitions.specs.Selecting.{selection_placed};
ghost use Rattle.post_fix.specs.Nearest.{parts_in, allows, may_hold, Stands, first_behind, first_here, first_from, last_ahead, last_here, last_before};
ghost use Rattle.post_fix.specs.Walked.{AreBelow};

use crate::asking::position_in;
use crate::names::{enter, leave, root_names};
use crate::walk::Walk;
use ck_base::NoMemory;
use ck_base::name::Name;
use ck_base::path::Path;
use edit_definitions::edit::Edit;
use model_pos::{Position, Range};
use model_tree::items::{Items, Node};
use model_tree::reading::ItemRef;
use model_tree::text::Head;
use model_tree::tree::Tree;
use schema_rules::schema::Schema;

/// An element of a list.
#[derive(Clone, Copy, Debug)]
struct Element<'a> {
    head: &'a Head,
    children: &'a Items,
}

/// The element that a node is: None for a text.
#[tactic(auto, using(model_tree::proofs::Found::no_element, model_tree::proofs::Found::one_element))]
fn element_in_node(node: &Node) -> Option<Element<'_>>
    ensures { (index : ℕ) → index < length (items_at node.now) → option_map parts_in result ≡ option_and_then parts_of (slice_get (items_at node.now) index) }
{
    match node {
        Node::Run(_) => None,
        Node::Element(head, children) => Some(Element { head, children }),
    }
}

/// The element at an offset: None exactly where none stands there.
#[tactic(auto, using(model_tree::proofs::Found::not_found))]
fn element_at(nodes: &Vec<Node>, offset: usize) -> Option<Element<'_>>
    ensures { option_map parts_in result ≡ option_and_then parts_of (slice_get (items_in nodes.now.items) offset) }
{
    let mut rest = offset;
    for node in nodes {
        let long = node.len();
        if rest < long {
            return element_in_node(node);
        }
        rest -= long;
    }
    None
}

impl Walk<'_> {
    /// Whether text may stand in the last of these names.
    fn allows_text(&self, names: &Vec<Name>) -> bool
        ensures { result ≡ allows self.now.schema.now names.now.items }
    {
        self.schema.check_child(names.as_slice(), &self.text)
    }

    /// Whether text may stand at a position among the items in the last of these names.
    fn holds_text(
        &self,
        names: &mut Vec<Name>,
        items: &Items,
        position: &[u32],
    ) -> Result<bool, NoMemory>
        requires { Stands position.now items.now }
        ensures held { IfOk result (λ held. held ≡ may_hold self.now.schema.now names.old.items items.now position.now) }
        ensures back { OnOk result (names.new.items ≡ names.old.items) }
    {
        let Some((index, rest)) = position.split_first() else {
            unreachable!()
        };
        if rest.is_empty() {
            return Ok(self.allows_text(names));
        }
        let Some(element) = element_at(items.nodes(), *index as usize) else {
            unreachable!()
        };
        enter(names, element.head.name())?;
        let held = self.holds_text(names, element.children, rest)?;
        leave(names);
        Ok(held)
    }

    /// The first position from an offset on in the element at a path where text may stand.
    #[cycle(forwards)]
    fn first_here(
        &self,
        names: &mut Vec<Name>,
        path: &Path,
        from: u32,
        items: &Items,
    ) -> Result<Option<Position>, NoMemory>
        requires { AreBelow path.now 0 items.now }
        ensures found { IfOk result (λ found. found ≡ first_here self.now.schema.now names.old.items path.now from items.now) }
        ensures back { OnOk result (names.new.items ≡ names.old.items) }
    {
        if self.allows_text(names) {
            return Ok(Some(position_in(items.allocator(), path, from)));
        }
        self.first_behind(names, path, from, items)
    }

    /// The same in the elements that are there from an offset on.
    #[cycle(forwards)]
    fn first_behind(
        &self,
        names: &mut Vec<Name>,
        path: &Path,
        from: u32,
        items: &Items,
    ) -> Result<Option<Position>, NoMemory>
        requires { AreBelow path.now 0 items.now }
        ensures found { IfOk result (λ found. found ≡ first_behind self.now.schema.now names.old.items path.now from 0 (items_of items.now)) }
        ensures back { OnOk result (names.new.items ≡ names.old.items) }
    {
        let mut offset: u32 = 0;
        for node in items.nodes() {
            match self.first_in_node(names, path, from, offset, node)? {
                Some(found) => return Ok(Some(found)),
                None => offset += node.len() as u32,
            }
        }
        Ok(None)
    }

    /// The same in a node that begins at an offset, if that isn't before the other one.
    #[cycle(forwards)]
    fn first_in_node(
        &self,
        names: &mut Vec<Name>,
        path: &Path,
        from: u32,
        offset: u32,
        node: &Node,
    ) -> Result<Option<Position>, NoMemory>
        requires { AreBelow path.now offset (items_at node.now) }
        ensures found { IfOk result (λ found. found ≡ first_behind self.now.schema.now names.old.items path.now from offset (items_of (items_at node.now))) }
        ensures back { OnOk result (names.new.items ≡ names.old.items) }
    {
        match node {
            Node::Run(_) => Ok(None),
            Node::Element(head, children) => {
                if offset < from {
                    return Ok(None);
                }
                let mut here = path.copy();
                here.push(offset);
                enter(names, head.name())?;
                let found = self.first_here(names, &here, 0, children)?;
                leave(names);
                Ok(found)
            }
        }
    }

    /// The first position not before a start in the element at a path where text may stand.
    fn first_from(
        &self,
        names: &mut Vec<Name>,
        path: &Path,
        items: &Items,
        start: &[u32],
    ) -> Result<Option<Position>, NoMemory>
        requires below { AreBelow path.now 0 items.now }
        requires stands { Stands start.now items.now }
        ensures found { IfOk result (λ found. found ≡ first_from self.now.schema.now names.old.items path.now start.now items.now) }
        ensures back { OnOk result (names.new.items ≡ names.old.items) }
    {
        let Some((index, rest)) = start.split_first() else {
            unreachable!()
        };
        if rest.is_empty() {
            return self.first_here(names, path, *index, items);
        }
        let Some(element) = element_at(items.nodes(), *index as usize) else {
            unreachable!()
        };
        let mut here = path.copy();
        here.push(*index);
        enter(names, element.head.name())?;
        let found = self.first_from(names, &here, element.children, rest)?;
        leave(names);
        match found {
            Some(found) => Ok(Some(found)),
            None => self.first_here(names, path, *index + 1, items),
        }
    }

    /// The last position up to an offset in the element at a path where text may stand.
    #[cycle(backwards)]
    fn last_here(
        &self,
        names: &mut Vec<Name>,
        path: &Path,
        upto: u32,
        items: &Items,
    ) -> Result<Option<Position>, NoMemory>
        requires { AreBelow path.now 0 items.now }
        ensures found { IfOk result (λ found. found ≡ last_here self.now.schema.now names.old.items path.now upto items.now) }
        ensures back { OnOk result (names.new.items ≡ names.old.items) }
    {
        if self.allows_text(names) {
            return Ok(Some(position_in(items.allocator(), path, upto)));
        }
        self.last_ahead(names, path, upto, items)
    }

    /// The same in the elements that are there before an offset.
    #[cycle(backwards)]
    fn last_ahead(
        &self,
        names: &mut Vec<Name>,
        path: &Path,
        upto: u32,
        items: &Items,
    ) -> Result<Option<Position>, NoMemory>
        requires { AreBelow path.now 0 items.now }
        ensures found { IfOk result (λ found. found ≡ last_ahead self.now.schema.now names.old.items path.now upto 0 (items_of items.now)) }
        ensures back { OnOk result (names.new.items ≡ names.old.items) }
    {
        let nodes = items.nodes();
        let mut offset = items.len() as u32;
        let mut left = nodes.len();
        while left > 0 {
            left -= 1;
            let node = &nodes[left];
            offset -= node.len() as u32;
            match self.last_in_node(names, path, upto, offset, node)? {
                Some(found) => return Ok(Some(found)),
                None => {}
            }
        }
        Ok(None)
    }

    /// The same in a node that begins at an offset, if that is before the other one.
    #[cycle(backwards)]
    fn last_in_node(
        &self,
        names: &mut Vec<Name>,
        path: &Path,
        upto: u32,
        offset: u32,
        node: &Node,
    ) -> Result<Option<Position>, NoMemory>
        requires { AreBelow path.now offset (items_at node.now) }
        ensures found { IfOk result (λ found. found ≡ last_ahead self.now.schema.now names.old.items path.now upto offset (items_of (items_at node.now))) }
        ensures back { OnOk result (names.new.items ≡ names.old.items) }
    {
        match node {
            Node::Run(_) => Ok(None),
            Node::Element(head, children) => {
                if upto <= offset {
                    return Ok(None);
                }
                let mut here = path.copy();
                here.push(offset);
                enter(names, head.name())?;
                let found = self.last_here(names, &here, children.len() as u32, children)?;
                leave(names);
                Ok(found)
            }
        }
    }

    /// The last position before a start in the element at a path where text may stand, if it may stand in none of the elements that the start is in.
    fn last_before(
        &self,
        names: &mut Vec<Name>,
        path: &Path,
        items: &Items,
        start: &[u32],
    ) -> Result<Option<Position>, NoMemory>
        requires below { AreBelow path.now 0 items.now }
        requires stands { Stands start.now items.now }
        ensures found { IfOk result (λ found. found ≡ last_before self.now.schema.now names.old.items path.now start.now items.now) }
        ensures back { OnOk result (names.new.items ≡ names.old.items) }
    {
        let Some((index, rest)) = start.split_first() else {
            unreachable!()
        };
        if rest.is_empty() {
            return self.last_ahead(names, path, *index, items);
        }
        let Some(element) = element_at(items.nodes(), *index as usize) else {
            unreachable!()
        };
        let mut here = path.copy();
        here.push(*index);
        enter(names, element.head.name())?;
        let found = self.last_before(names, &here, element.children, rest)?;
        leave(names);
        match found {
            Some(found) => Ok(Some(found)),
            None => self.last_ahead(names, path, *index, items),
        }
    }

    /// Whether text may stand at a position of a document.
    fn holds_text_at(&self, items: &Items, position: &Position) -> Result<bool, NoMemory>
        requires { Stands position.now items.now }
        ensures { IfOk result (λ held. held ≡ may_hold_text self.now.schema.now items.now position.now) }
    {
        let mut names = root_names(items.allocator())?;
        self.holds_text(&mut names, items, position.as_slice())
    }

    /// Whether a range of a document may be selected.
    fn may_be_selected(&self, tree: &Tree, range: &Range) -> Result<bool, NoMemory>
        requires start { Stands range.now.start tree.now }
        requires end { Stands range.now.end tree.now }
        ensures { IfOk result (λ may. may ≡ may_be_selected self.now.schema.now tree.now range.now) }
    {
        let items = tree.items();
        if self.holds_text_at(items, range.start())? && self.holds_text_at(items, range.end())? {
            return Ok(true);
        }
        Ok(is_round_selectable(self.schema, tree, range))
    }

    /// The nearest position to a start where text may stand.
    #[tactic(auto, using(crate::proofs::Positions::nearest_first, crate::proofs::Positions::nearest_last))]
    fn nearest(&self, items: &Items, start: &Position) -> Result<Option<Position>, NoMemory>
        requires below { AreBelow [] 0 items.now }
        requires stands { Stands start.now items.now }
        ensures { IfOk result (λ found. found ≡ nearest_text self.now.schema.now items.now start.now) }
    {
        let alloc = items.allocator();
        let mut names = root_names(alloc)?;
        let root = Path::new(alloc);
        match self.first_from(&mut names, &root, items, start.as_slice())? {
            Some(found) => Ok(Some(found)),
            None => self.last_before(&mut names, &root, items, start.as_slice()),
        }
    }
}

/// Whether a range goes from a position to the next one in the same parent.
#[tactic(auto, using(crate::proofs::Ends::next_is))]
fn is_round_one(range: &Range) -> bool
    ensures { result ≡ same_position range.now.end (behind range.now.start) }
{
    let (parent, offset) = range.start().split();
    let (other, next) = range.end().split();
    other == parent && next as u64 == offset as u64 + 1
}

/// Whether the item at a position is an element that can be selected.
#[tactic(auto, using(crate::proofs::Ends::element_shown, crate::proofs::Ends::character_shown, crate::proofs::Ends::nothing_shown))]
fn is_selectable_at(schema: &Schema, tree: &Tree, position: &Position) -> bool
    ensures { result ≡ option_map_or (is_selectable_item schema.now) (item_at position.now tree.now) false }
{
    match tree.item_at(position.path()) {
        Some(ItemRef::Element { name, .. }) => schema.is_selectable(name),
        Some(ItemRef::Character { .. }) => false,
        None => false,
    }
}

/// Whether a range is round one element that can be selected.
fn is_round_selectable(schema: &Schema, tree: &Tree, range: &Range) -> bool
    ensures { result ≡ is_round_selectable schema.now tree.now range.now }
{
    is_round_one(range) && is_selectable_at(schema, tree, range.start())
}

/// Puts last that the selection goes to a position, if there is one.
fn select_at(found: Option<Position>, out: &mut Vec<Edit>) -> Result<(), NoMemory>
    ensures { OnOk result (out.new.items ≡ out.old.items ++ selecting_at found) }
{
    let Some(start) = found else {
        return Ok(());
    };
    let end = start.copy();
    out.push(Edit::Select {
        start,
        end,
        backward: false,
    })?;
    Ok(())
}

/// Puts last that the selection goes where text may stand, where its range may not be selected.
#[tactic(auto, using(crate::proofs::Asked::all_below))]
pub(crate) fn place(
    schema: &Schema,
    tree: &Tree,
    range: &Range,
    out: &mut Vec<Edit>,
) -> Result<(), NoMemory>
    requires start { Stands range.now.start tree.now }
    requires end { Stands range.now.end tree.now }
    ensures { OnOk result (out.new.items ≡ out.old.items ++ selection_placed schema.now tree.now range.now) }
{
    let items = tree.items();
    let walk = Walk::new(items.allocator(), schema)?;
    if walk.may_be_selected(tree, range)? {
        return Ok(());
    }
    let found = walk.nearest(items, range.start())?;
    select_at(found, out)
}
