//! Trees of items.
use crate::report::Report;
use crate::samples::{name, path};
use ck_base::attributes::Attrs;
use ck_base::name::Name;
use ck_base::path::Path;
use model_tree::fault::TreeFault;
use model_tree::id::ElementId;
use model_tree::items::Items;
use model_tree::reading::ItemRef;
use model_tree::tree::Tree;
use std::alloc::Global;

/// The rows of trees.
pub fn rows(alloc: Global, report: &mut Report<'_>) {
    report.row("items go in, and are counted", on_sample(alloc, puts_in));
    report.row(
        "items without a place are handed back",
        on_sample(alloc, hands_back),
    );
    report.row("a run goes out", on_sample(alloc, takes_out));
    report.row(
        "a run that isn't there stays",
        on_sample(alloc, takes_nothing),
    );
    report.row("an element is renamed", on_sample(alloc, renames));
    report.row(
        "a character has no name",
        on_sample(alloc, renames_no_character),
    );
    report.row("two elements are merged", on_sample(alloc, merges));
    report.row(
        "the first element has none to be merged with",
        on_sample(alloc, merges_no_first),
    );
}

/// What a row answers on a tree of two paragraphs, `ab` with the id 1 and `cd` with the id 2.
fn on_sample<Row: Fn(Global, &mut Tree) -> bool>(alloc: Global, row: Row) -> bool
    requires { Row.IsAlwaysCallable row }
{
    match sample(alloc) {
        Some(mut tree) => row(alloc, &mut tree),
        None => false,
    }
}

/// A tree of two paragraphs.
fn sample(alloc: Global) -> Option<Tree> {
    let mut tree = Tree::new(alloc).ok()?;
    if brings(alloc, &mut tree, 2, "cd") && brings(alloc, &mut tree, 1, "ab") {
        Some(tree)
    } else {
        None
    }
}

/// Puts a paragraph first in the root, and answers whether that was done.
fn brings(alloc: Global, tree: &mut Tree, id: u16, text: &str) -> bool {
    match paragraph(alloc, id, text) {
        Some(items) => puts(tree, &Path::new(alloc), 0, items),
        None => false,
    }
}

/// A paragraph with this id and text.
fn paragraph(alloc: Global, id: u16, text: &str) -> Option<Items> {
    let name = name(alloc, "paragraph")?;
    let children = characters(alloc, text)?;
    let id = ElementId::new(id as u64);
    Items::element(alloc, id, name, Attrs::new(alloc), children).ok()
}

/// The characters of a text without attributes.
fn characters(alloc: Global, text: &str) -> Option<Items> {
    Items::text(alloc, text, &Attrs::new(alloc)).ok()
}

/// Puts items in, and answers whether that was done.
fn puts(tree: &mut Tree, parent: &Path, offset: u32, items: Items) -> bool {
    if tree.has_room(parent, &items) {
        tree.splice_in(parent, offset, items).is_ok()
    } else {
        false
    }
}

/// Whether items without a place are handed back.
fn refuses(tree: &mut Tree, parent: &Path, offset: u32, items: Items) -> bool {
    let count = items.count();
    if !tree.has_room(parent, &items) {
        return false;
    }
    match tree.splice_in(parent, offset, items) {
        Ok(()) => false,
        Err(refused) => refused.fault == TreeFault::NoPlace && refused.items.count() == count,
    }
}

/// The character at a path.
fn scalar_at(tree: &Tree, path: &Path) -> Option<char> {
    match tree.item_at(path) {
        Some(ItemRef::Character { scalar, .. }) => Some(scalar),
        _ => None,
    }
}

/// Whether the element at a path has this name.
fn is_named(tree: &Tree, path: &Path, text: &str) -> bool {
    match tree.item_at(path) {
        Some(ItemRef::Element { name, .. }) => name.as_str() == text,
        _ => false,
    }
}

fn puts_in(alloc: Global, tree: &mut Tree) -> bool {
    match (
        path(alloc, &[0]),
        path(alloc, &[0, 1]),
        characters(alloc, "xy"),
    ) {
        (Some(parent), Some(at), Some(items)) => {
            puts(tree, &parent, 1, items)
                && scalar_at(tree, &at) == Some('x')
                && tree.child_count(&parent) == Some(4)
                && tree.item_count() == 8
        }
        _ => false,
    }
}

fn hands_back(alloc: Global, tree: &mut Tree) -> bool {
    match (path(alloc, &[0]), characters(alloc, "x")) {
        (Some(parent), Some(items)) => refuses(tree, &parent, 3, items),
        _ => false,
    }
}

fn takes_out(alloc: Global, tree: &mut Tree) -> bool {
    match path(alloc, &[0]) {
        Some(parent) => {
            goes_out(tree.splice_out(&parent, 1, 1), 1) && tree.child_count(&parent) == Some(1)
        }
        None => false,
    }
}

/// Whether so many items went out.
fn goes_out(run: Result<Items, TreeFault>, count: u64) -> bool {
    match run {
        Ok(run) => run.count() == count,
        Err(_) => false,
    }
}

/// Whether there was no such place.
fn has_no_place(run: Result<Items, TreeFault>) -> bool {
    match run {
        Ok(_) => false,
        Err(fault) => fault == TreeFault::NoPlace,
    }
}

fn takes_nothing(alloc: Global, tree: &mut Tree) -> bool {
    match path(alloc, &[0]) {
        Some(parent) => {
            has_no_place(tree.splice_out(&parent, 1, 2)) && tree.child_count(&parent) == Some(2)
        }
        None => false,
    }
}

/// Gives the element at a path a name.
fn gives(tree: &mut Tree, path: &Path, name: Option<Name>) -> Result<(), TreeFault> {
    match name {
        Some(name) => tree.rename(path, name),
        None => Err(TreeFault::NoMemory),
    }
}

fn renames(alloc: Global, tree: &mut Tree) -> bool {
    match path(alloc, &[1]) {
        Some(at) => gives(tree, &at, name(alloc, "quote")) == Ok(())
            && is_named(tree, &at, "quote"),
        None => false,
    }
}

fn renames_no_character(alloc: Global, tree: &mut Tree) -> bool {
    match path(alloc, &[1, 0]) {
        Some(at) => gives(tree, &at, name(alloc, "quote")) == Err(TreeFault::NoPlace),
        None => false,
    }
}

fn merges(alloc: Global, tree: &mut Tree) -> bool {
    match (path(alloc, &[0]), path(alloc, &[1])) {
        (Some(first), Some(second)) => {
            goes_out(tree.merge_elements(&second), 1) && tree.child_count(&first) == Some(4)
        }
        _ => false,
    }
}

fn merges_no_first(alloc: Global, tree: &mut Tree) -> bool {
    match path(alloc, &[0]) {
        Some(first) => {
            has_no_place(tree.merge_elements(&first)) && tree.child_count(&first) == Some(2)
        }
        None => false,
    }
}
