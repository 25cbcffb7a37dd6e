//! What the fixers of elements want, element by element.
ghost use Rattle.std.specs.Prelude.{◌≡◌, ◌↔◌, ◌<◌, ◌≤◌, ◌+◌, [], ◌∷◌, ◌++◌, not, IsTrue, length, OnOk, IfOk, option_copied, None, false, ◌&&◌, ◌^◌, codes};
ghost use Rattle.std.specs.Prelude.{reverse};
ghost use Rattle.std.specs.List.{list_any, flat_map};
ghost use Rattle.std.specs.Option.{option_map_or};
ghost use Rattle.std.specs.Str.{bytes_eq};
ghost use Rattle.edit_definitions.specs.declared.edit.Edit.TheVariants.{InsertElement, Remove as RemoveEdit, Merge as MergeEdit};
ghost use Rattle.fix_definitions.specs.Wanted.{edit_if, is_named, wanted};
ghost use Rattle.item_definitions.specs.Item.{items_of};
ghost use Rattle.item_definitions.specs.Position.{behind as position_after};
ghost use Rattle.item_definitions.specs.Children.{offset_of};
ghost use Rattle.model_tree.specs.Nodes.{items_at, items_in};
ghost use Rattle.print_definitions.specs.ModelText.{same_attributes};
ghost use Rattle.post_fix.specs.Walked.{AreBelow, is_bare, head_in, are_alike, asked, wanted_from, node_head, root_wanted, IsOfElements};
ghost use Rattle.schema_definitions.specs.Allowed.{Rules};
ghost use Rattle.fix_definitions.specs.Places.{places};

use ck_base::NoMemory;
use ck_base::attributes::Attrs;
use ck_base::name::Name;
use ck_base::path::Path;
use edit_definitions::edit::Edit;
use fix_definitions::stock::StockFixer;
use model_pos::Position;
use model_tree::items::{Items, Node};
use model_tree::text::Head;
use model_tree::tree::Tree;
use std::alloc::Global;

/// The position at an offset in the element at a path.
#[tactic(auto, using(crate::proofs::Same::some_position))]
pub(crate) fn position_in(alloc: Global, path: &Path, offset: u32) -> Position
    requires { length path.now < 65 }
    ensures { result ≡ path.now ++ offset ∷ [] }
{
    let mut at = path.copy();
    at.push(offset);
    match Position::new(alloc, at) {
        Some(position) => position,
        None => unreachable!(),
    }
}

/// Puts last that an empty element comes in at an offset of the element at a path.
pub(crate) fn insert_at(
    path: &Path,
    offset: u32,
    child: &Name,
    out: &mut Vec<Edit>,
) -> Result<(), NoMemory>
    requires { length path.now < 65 }
    ensures { OnOk result (out.new.items ≡ out.old.items ++ InsertElement (path.now ++ offset ∷ []) child.now [] ∷ []) }
{
    let alloc = *out.allocator();
    let name = child.copy()?;
    out.push(Edit::InsertElement {
        at: position_in(alloc, path, offset),
        name,
        attributes: Attrs::new(alloc),
    })?;
    Ok(())
}

/// Whether the two are equal.
fn same(attributes: &Attrs, others: &Attrs) -> bool
    ensures { result ≡ same_attributes attributes.now others.now }
{
    attributes.same(others)
}

/// Whether two elements have this name and equal attributes.
fn are_alike(name: &Name, left: &Head, head: &Head) -> bool
    ensures { result ≡ are_alike name.now left.now head.now }
{
    left.name() == name && head.name() == name && same(left.attrs(), head.attrs())
}

/// Whether a node is an element of this name.
fn is_named(name: &Name, node: &Node) -> bool
    ensures { result ≡ list_any (is_named name.now) (items_at node.now) }
{
    match node {
        Node::Run(_) => false,
        Node::Element(head, _) => head.name() == name,
    }
}

/// Whether some of the items is an element of this name.
pub(crate) fn has_child(name: &Name, items: &Items) -> bool
    ensures { result ≡ list_any (is_named name.now) items.now }
{
    for node in items.nodes() {
        if is_named(name, node) {
            return true;
        }
    }
    false
}

/// Puts last that an element without children gets one.
fn fill(
    parent: &Name,
    child: &Name,
    path: &Path,
    head: &Head,
    children: &Items,
    out: &mut Vec<Edit>,
) -> Result<(), NoMemory>
    requires { length path.now < 65 }
    ensures { OnOk result (out.new.items ≡ out.old.items
        ++ edit_if (bytes_eq head.now.name parent.now && is_bare children.now) (InsertElement (path.now ++ 0 ∷ []) child.now [])) }
{
    if head.name() == parent && children.len() == 0 {
        insert_at(path, 0, child, out)
    } else {
        Ok(())
    }
}

/// Puts last that an element gets a child at its end, unless it has one of its name.
fn require(
    parent: &Name,
    child: &Name,
    path: &Path,
    head: &Head,
    children: &Items,
    out: &mut Vec<Edit>,
) -> Result<(), NoMemory>
    requires short { length path.now < 65 }
    requires few { length children.now < 2 ^ 32 }
    ensures { OnOk result (out.new.items ≡ out.old.items
        ++ edit_if (bytes_eq head.now.name parent.now && not (list_any (is_named child.now) children.now))
        (InsertElement (path.now ++ length children.now ∷ []) child.now [])) }
{
    if head.name() == parent && !has_child(child, children) {
        insert_at(path, children.len() as u32, child, out)
    } else {
        Ok(())
    }
}

/// The position before the item at a path.
fn position_at(alloc: Global, path: &Path) -> Position
    requires { 0 < length path.now }
    ensures { result ≡ path.now }
{
    match Position::new(alloc, path.copy()) {
        Some(position) => position,
        None => unreachable!(),
    }
}

/// Puts last that an element goes into the one before it.
fn join(
    name: &Name,
    path: &Path,
    left: Option<&Head>,
    head: &Head,
    out: &mut Vec<Edit>,
) -> Result<(), NoMemory>
    requires { 0 < length path.now }
    ensures { OnOk result (out.new.items ≡ out.old.items
        ++ edit_if (option_map_or (λ left. are_alike name.now left head.now) (option_copied left.entry) false) (MergeEdit path.now)) }
{
    let Some(left) = left else {
        return Ok(());
    };
    if are_alike(name, left, head) {
        let at = position_at(*out.allocator(), path);
        out.push(Edit::Merge { at })?;
    }
    Ok(())
}

/// The position behind the item at a path.
#[tactic(auto, using(crate::proofs::Same::some_position, crate::proofs::Same::behind_last, crate::proofs::Same::last_fits))]
fn position_behind(alloc: Global, path: &Path) -> Position
    requires some { 0 < length path.now }
    requires few { offset_of path.now + 1 < 2 ^ 32 }
    ensures { result ≡ position_after path.now }
{
    let Some((last, parent)) = path.as_slice().split_last() else {
        unreachable!()
    };
    match Path::from_slice(alloc, parent) {
        Some(parent) => position_in(alloc, &parent, *last + 1),
        None => unreachable!(),
    }
}

/// Puts last that an element without children goes.
fn remove_empty(
    name: &Name,
    path: &Path,
    head: &Head,
    children: &Items,
    out: &mut Vec<Edit>,
) -> Result<(), NoMemory>
    requires some { 0 < length path.now }
    requires few { offset_of path.now + 1 < 2 ^ 32 }
    ensures { OnOk result (out.new.items ≡ out.old.items
        ++ edit_if (bytes_eq head.now.name name.now && is_bare children.now) (RemoveEdit path.now (position_after path.now))) }
{
    if head.name() == name && children.len() == 0 {
        let alloc = *out.allocator();
        let start = position_at(alloc, path);
        let end = position_behind(alloc, path);
        out.push(Edit::Remove { start, end })?;
    }
    Ok(())
}

/// Puts last what a fixer of elements wants of the element at a path, behind an element of this head.
fn ask_element(
    fixer: &StockFixer,
    path: &Path,
    left: Option<&Head>,
    head: &Head,
    children: &Items,
    out: &mut Vec<Edit>,
) -> Result<(), NoMemory>
    requires some { 0 < length path.now }
    requires short { length path.now ≤ 64 }
    requires few { length children.now < 2 ^ 32 }
    requires behind { offset_of path.now + 1 < 2 ^ 32 }
    ensures { OnOk result (out.new.items ≡ out.old.items ++ asked fixer.now path.now (option_copied left.entry) head.now children.now) }
{
    match fixer {
        StockFixer::DropAttributes => Ok(()),
        StockFixer::Fill { parent, child } => fill(parent, child, path, head, children, out),
        StockFixer::JoinNeighbours { name } => join(name, path, left, head, out),
        StockFixer::RemoveEmpty { name } => remove_empty(name, path, head, children, out),
        StockFixer::Require { parent, child } => require(parent, child, path, head, children, out),
        StockFixer::SelectionPlace => Ok(()),
    }
}

/// The head of a node that is an element.
fn head_of(node: &Node) -> Option<&Head>
    ensures { option_copied result ≡ node_head node.now }
{
    match node {
        Node::Run(_) => None,
        Node::Element(head, _) => Some(head),
    }
}

/// Puts last what a fixer of elements wants of the items of the element at a path, and of all that is in them.
#[cycle(asking)]
pub(crate) fn ask_inside(
    fixer: &StockFixer,
    path: &Path,
    items: &Items,
    out: &mut Vec<Edit>,
) -> Result<(), NoMemory>
    requires { AreBelow path.now 0 items.now }
    ensures { OnOk result (out.new.items ≡ out.old.items ++ wanted_from fixer.now path.now 0 None (items_of items.now)) }
{
    let mut offset: u32 = 0;
    let mut left: Option<&Head> = None;
    for node in items.nodes() {
        ask_node(fixer, path, offset, left, node, out)?;
        left = head_of(node);
        offset += node.len() as u32;
    }
    Ok(())
}

/// Puts last what a fixer of elements wants of the items of a node, which begin at an offset of the element at a path, behind an element of this
/// head, and of all that is in them.
#[cycle(asking)]
fn ask_node(
    fixer: &StockFixer,
    path: &Path,
    offset: u32,
    left: Option<&Head>,
    node: &Node,
    out: &mut Vec<Edit>,
) -> Result<(), NoMemory>
    requires { AreBelow path.now offset (items_at node.now) }
    ensures { OnOk result (out.new.items ≡ out.old.items ++ wanted_from fixer.now path.now offset (option_copied left.entry) (items_of (items_at node.now))) }
{
    match node {
        Node::Run(_) => Ok(()),
        Node::Element(head, children) => {
            let mut here = path.copy();
            here.push(offset);
            ask_element(fixer, &here, left, head, children, out)?;
            ask_inside(fixer, &here, children, out)
        }
    }
}

/// Whether a name is the root's.
fn is_root(name: &Name) -> bool
    ensures { result ≡ bytes_eq (codes "$root") name.now }
{
    "$root" == name.as_str()
}

/// Puts last what a fixer of elements wants of the root.
fn ask_root(fixer: &StockFixer, items: &Items, out: &mut Vec<Edit>) -> Result<(), NoMemory>
    requires { length items.now < 2 ^ 32 }
    ensures { OnOk result (out.new.items ≡ out.old.items ++ root_wanted fixer.now items.now) }
{
    let root = Path::new(*out.allocator());
    match fixer {
        StockFixer::DropAttributes => Ok(()),
        StockFixer::Fill { parent, child } => fill_root(parent, child, &root, items, out),
        StockFixer::JoinNeighbours { .. } => Ok(()),
        StockFixer::RemoveEmpty { .. } => Ok(()),
        StockFixer::Require { parent, child } => require_in_root(parent, child, &root, items, out),
        StockFixer::SelectionPlace => Ok(()),
    }
}

/// Puts last that the root gets an element, where it has no items and it is meant.
fn fill_root(
    parent: &Name,
    child: &Name,
    root: &Path,
    items: &Items,
    out: &mut Vec<Edit>,
) -> Result<(), NoMemory>
    requires { root.now ≡ [] }
    ensures { OnOk result (out.new.items ≡ out.old.items
        ++ edit_if (bytes_eq (codes "$root") parent.now && is_bare items.now) (InsertElement (0 ∷ []) child.now [])) }
{
    if is_root(parent) && items.len() == 0 {
        insert_at(root, 0, child, out)
    } else {
        Ok(())
    }
}

/// Puts last that the root gets an element at its end, where it has none of its name and it is meant.
fn require_in_root(
    parent: &Name,
    child: &Name,
    root: &Path,
    items: &Items,
    out: &mut Vec<Edit>,
) -> Result<(), NoMemory>
    requires root { root.now ≡ [] }
    requires few { length items.now < 2 ^ 32 }
    ensures { OnOk result (out.new.items ≡ out.old.items
        ++ edit_if (bytes_eq (codes "$root") parent.now && not (list_any (is_named child.now) items.now))
        (InsertElement (length items.now ∷ []) child.now [])) }
{
    if is_root(parent) && !has_child(child, items) {
        insert_at(root, items.len() as u32, child, out)
    } else {
        Ok(())
    }
}

/// Puts last what a fixer of elements wants of the items of the root, and of all that is in them.
fn ask_items(fixer: &StockFixer, items: &Items, out: &mut Vec<Edit>) -> Result<(), NoMemory>
    requires { AreBelow [] 0 items.now }
    ensures { OnOk result (out.new.items ≡ out.old.items ++ wanted_from fixer.now [] 0 None (items_of items.now)) }
{
    let root = Path::new(*out.allocator());
    ask_inside(fixer, &root, items, out)
}

/// Puts last what a fixer of elements wants of a tree.
#[tactic(auto, using(crate::proofs::Asked::root_few, crate::proofs::Asked::all_below, crate::proofs::Asked::all_asked))]
pub(crate) fn ask_all(fixer: &StockFixer, tree: &Tree, out: &mut Vec<Edit>) -> Result<(), NoMemory>
    requires { IsOfElements fixer.now }
    ensures { OnOk result ((rules : Rules) → out.new.items ≡ out.old.items ++ flat_map (wanted rules fixer.now) (places tree.now)) }
{
    let items = tree.items();
    ask_root(fixer, items, out)?;
    ask_items(fixer, items, out)?;
    Ok(())
}

/// Puts edits last, in the opposite order.
fn push_turned(mut edits: Vec<Edit>, out: &mut Vec<Edit>) -> Result<(), NoMemory>
    ensures { OnOk result (out.new.items ≡ out.old.items ++ reverse edits.items) }
{
    while let Some(edit) = edits.pop() {
        out.push(edit)?;
    }
    Ok(())
}

/// Puts last what a fixer of elements wants of a tree, the last first.
#[tactic(auto, using(crate::proofs::Asked::turned))]
pub(crate) fn ask_backwards(
    fixer: &StockFixer,
    tree: &Tree,
    out: &mut Vec<Edit>,
) -> Result<(), NoMemory>
    requires { IsOfElements fixer.now }
    ensures { OnOk result ((rules : Rules) → out.new.items ≡ out.old.items ++ reverse (flat_map (wanted rules fixer.now) (places tree.now))) }
{
    let mut edits = Vec::new(*out.allocator());
    ask_all(fixer, tree, &mut edits)?;
    push_turned(edits, out)?;
    Ok(())
}
