//! The fixer `listIndent`: no list item is indented by more than one above the list item directly before it.
ghost use Rattle.std.specs.Prelude.{◌≡◌, [], ◌∷◌, ◌++◌, true, None, Some, IfOk, OnOk, option_copied, codes};
ghost use Rattle.ck_base.specs.declared.value.Value.TheVariants.{Whole as WholeValue};
ghost use Rattle.item_definitions.specs.Item.{items_of};
ghost use Rattle.model_tree.specs.Nodes.{items_at};
ghost use Rattle.post_fix.specs.Walked.{AreBelow};
ghost use Rattle.fix_definitions.specs.Indents.{indent_bound, corrected, rewritten, indents_from};
ghost use Rattle.product_objects.specs.Indented.{head_indent, node_indent, head_wanted};

use crate::words::name_of;
use ck_base::NoMemory;
use ck_base::name::Name;
use ck_base::path::Path;
use ck_base::value::Value;
use edit_definitions::edit::{Edit, Target};
use model_doc::Document;
use model_tree::items::{Items, Node};
use model_tree::text::Head;
use model_tree::tree::Tree;
use post_fix::fixer::Fixer;

/// The greatest indent behind an item that has this indent, if it is a list item.
fn bound_behind(left: Option<u32>) -> u32
    ensures { result ≡ indent_bound left }
{
    match left {
        None => 0,
        Some(indent) if indent < 1000 => indent + 1,
        Some(_) => 1000,
    }
}

/// A whole number within 0 and a bound.
fn within(bound: u32, number: i64) -> u32
    ensures { result ≡ corrected bound (Some (WholeValue number)) }
{
    if number < 0 {
        0
    } else if number < bound as i64 {
        number as u32
    } else {
        bound
    }
}

/// A written indent within a bound: 0 where none is written, or no whole number.
fn corrected(bound: u32, written: Option<&Value>) -> u32
    ensures { result ≡ corrected bound (option_copied written.entry) }
{
    match written {
        Some(Value::Whole(number)) => within(bound, *number),
        _ => 0,
    }
}

/// Puts last that the element at a path gets this indent, where it has another whole number.
fn rewrite(
    key: &Name,
    path: &Path,
    indent: u32,
    written: Option<&Value>,
    out: &mut Vec<Edit>,
) -> Result<(), NoMemory>
    requires { key.now ≡ codes "indent" }
    ensures { OnOk result (out.new.items ≡ out.old.items ++ rewritten path.now indent (option_copied written.entry)) }
{
    let Some(Value::Whole(number)) = written else {
        return Ok(());
    };
    if *number == indent as i64 {
        return Ok(());
    }
    let key = key.copy()?;
    out.push(Edit::SetAttribute {
        target: Target::Element(path.copy()),
        key,
        value: Value::Whole(indent as i64),
    })?;
    Ok(())
}

/// Puts last what is wanted of an element of this head at a path, behind an item that has this indent, if it is a list item. It answers the
/// indent that the element then has, if it is one.
fn correct_element(
    key: &Name,
    path: &Path,
    left: Option<u32>,
    head: &Head,
    out: &mut Vec<Edit>,
) -> Result<Option<u32>, NoMemory>
    requires { key.now ≡ codes "indent" }
    ensures indent { IfOk result (λ indent. indent ≡ head_indent left head.now) }
    ensures wanted { OnOk result (out.new.items ≡ out.old.items ++ head_wanted path.now (head_indent left head.now) head.now) }
{
    if head.name().as_str() != "listItem" {
        return Ok(None);
    }
    let written = head.attrs().get(key);
    let indent = corrected(bound_behind(left), written);
    rewrite(key, path, indent, written, out)?;
    Ok(Some(indent))
}

/// Puts last what is wanted of the items of the element at a path, and of all that is in them.
#[cycle(indents)]
fn correct_inside(
    key: &Name,
    path: &Path,
    items: &Items,
    out: &mut Vec<Edit>,
) -> Result<(), NoMemory>
    requires key { key.now ≡ codes "indent" }
    requires below { AreBelow path.now 0 items.now }
    ensures { OnOk result (out.new.items ≡ out.old.items ++ indents_from path.now 0 None (items_of items.now)) }
{
    let mut offset: u32 = 0;
    let mut left: Option<u32> = None;
    for node in items.nodes() {
        left = correct_node(key, path, offset, left, node, out)?;
        offset += node.len() as u32;
    }
    Ok(())
}

/// Puts last what is wanted of the items of a node, which begin at an offset of the element at a path, behind an item that has this indent, if it
/// is a list item, and of all that is in them. It answers the indent that the node then has, if it is one.
#[cycle(indents)]
fn correct_node(
    key: &Name,
    path: &Path,
    offset: u32,
    left: Option<u32>,
    node: &Node,
    out: &mut Vec<Edit>,
) -> Result<Option<u32>, NoMemory>
    requires key { key.now ≡ codes "indent" }
    requires below { AreBelow path.now offset (items_at node.now) }
    ensures indent { IfOk result (λ indent. indent ≡ node_indent left node.now) }
    ensures wanted { OnOk result (out.new.items ≡ out.old.items ++ indents_from path.now offset left (items_of (items_at node.now))) }
{
    match node {
        Node::Run(_) => Ok(None),
        Node::Element(head, children) => {
            let mut here = path.copy();
            here.push(offset);
            let indent = correct_element(key, &here, left, head, out)?;
            correct_inside(key, &here, children, out)?;
            Ok(indent)
        }
    }
}

/// Puts last what is wanted of the items of the root, and of all that is in them.
#[tactic(auto, unfolding(ck_base::specs::Name::is_name))]
fn correct_items(items: &Items, out: &mut Vec<Edit>) -> Result<(), NoMemory>
    requires { AreBelow [] 0 items.now }
    ensures { OnOk result (out.new.items ≡ out.old.items ++ indents_from [] 0 None (items_of items.now)) }
{
    let alloc = *out.allocator();
    let key = name_of(alloc, "indent")?;
    let root = Path::new(alloc);
    correct_inside(&key, &root, items, out)
}

/// Puts last what is wanted of a tree.
#[tactic(auto, using(post_fix::proofs::Asked::all_below))]
fn correct_all(tree: &Tree, out: &mut Vec<Edit>) -> Result<(), NoMemory>
    ensures { OnOk result (out.new.items ≡ out.old.items ++ indents_from [] 0 None (items_of tree.now)) }
{
    correct_items(tree.items(), out)
}

/// A list item's `indent` is at least 0, and at most 1 more than that of the list item directly before it, and at most 1000; behind anything else it
/// is 0. Each whole number that isn't so is set to the nearest one, in document order; an indent that isn't there, or is no whole number, counts as 0
/// and stays. (After the post-fixer of the list plugin of CKEditor 5.)
#[derive(Drop)]
pub struct ListIndent;

impl Fixer for ListIndent {
    ghost use Rattle.fix_definitions.specs.Indents.{list_indent};

    ghost fixes = { λ object. list_indent };

    fn plan(&self, document: &Document, out: &mut Vec<Edit>) -> Result<(), NoMemory> {
        correct_all(document.tree(), out)
    }
}
