//! Schemas.
use crate::report::Report;
use crate::samples::{marked, name, path};
use breach_definitions::spot::Spot;
use ck_base::attributes::Attrs;
use ck_base::faults::Rule;
use ck_base::name::Name;
use ck_base::path::Path;
use model_tree::id::ElementId;
use model_tree::items::Items;
use model_tree::tree::Tree;
use schema_definitions::file::{Check, Entry, SchemaFile, Subject};
use schema_definitions::names::Names;
use schema_rules::compile::compile;
use schema_rules::schema::Schema;
use std::alloc::Global;

/// The rows of schemas.
pub fn rows(alloc: Global, report: &mut Report<'_>) {
    report.row("an entry is copied", copies_an_entry(alloc));
    report.row("a check is copied", copies_a_check(alloc));
    report.row(
        "an item stands further out",
        on_sample(alloc, stands_further_out),
    );
    report.row("an item stands nowhere", on_sample(alloc, stands_nowhere));
    report.row("a paragraph is a block", on_sample(alloc, tells_blocks));
    report.row(
        "an image is selectable and content",
        on_sample(alloc, tells_objects),
    );
    report.row("registered items are listed", on_sample(alloc, lists_items));
    report.row(
        "a breach among spots is found",
        on_sample(alloc, finds_a_breach),
    );
    report.row(
        "a breach beside spots isn't found",
        on_sample(alloc, finds_no_breach),
    );
}

/// A list of one name.
fn listed(alloc: Global, text: &str) -> Option<Names> {
    let mut names = Vec::new(alloc);
    let name = name(alloc, text)?;
    if names.push(name).is_ok() {
        Some(Names::new(names))
    } else {
        None
    }
}

/// An entry that registers an item with all that another has.
fn entry(alloc: Global, item: &str, other: &str) -> Option<Entry> {
    match (name(alloc, item), listed(alloc, other)) {
        (Some(item), Some(others)) => {
            let mut entry = Entry::new(alloc, Subject::Item(item));
            entry.inherit_all_from = others;
            Some(entry)
        }
        _ => None,
    }
}

/// Puts an entry behind the others, and answers whether that was done.
fn pushes(entries: &mut Vec<Entry>, entry: Option<Entry>) -> bool {
    match entry {
        Some(entry) => entries.push(entry).is_ok(),
        None => false,
    }
}

/// The entries of a paragraph and an image.
fn entries(alloc: Global) -> Option<Vec<Entry>> {
    let mut entries = Vec::new(alloc);
    if pushes(&mut entries, entry(alloc, "paragraph", "$block"))
        && pushes(&mut entries, entry(alloc, "image", "$blockObject"))
    {
        Some(entries)
    } else {
        None
    }
}

/// The schema of these entries, without checks.
fn compiled(alloc: Global, entries: Vec<Entry>) -> Option<Schema> {
    let file = SchemaFile {
        entries,
        checks: Vec::new(alloc),
    };
    match compile(alloc, &file) {
        Ok(schema) => Some(schema),
        Err(_) => None,
    }
}

/// What a row answers on the schema of a paragraph and an image.
fn on_sample<Row: Fn(Global, &Schema) -> bool>(alloc: Global, row: Row) -> bool
    requires { Row.IsAlwaysCallable row }
{
    match entries(alloc) {
        Some(entries) => match compiled(alloc, entries) {
            Some(schema) => row(alloc, &schema),
            None => false,
        },
        None => false,
    }
}

/// Whether two lists of names are equal.
fn are_same(names: &Names, other: &Names) -> bool {
    names.as_slice() == other.as_slice()
}

fn copies_an_entry(alloc: Global) -> bool {
    match entry(alloc, "paragraph", "$block") {
        Some(entry) => match entry.copy() {
            Ok(copied) => {
                copied.item() == entry.item()
                    && are_same(&copied.inherit_all_from, &entry.inherit_all_from)
                    && copied.is_block.is_none()
            }
            Err(_) => false,
        },
        None => false,
    }
}

/// Whether a check on a child is copied with its answer.
fn is_copied(check: &Check) -> bool {
    match check.copy() {
        Ok(copied) => matches!(copied, Check::Child { answer: true, .. }),
        Err(_) => false,
    }
}

fn copies_a_check(alloc: Global) -> bool {
    match (name(alloc, "image"), listed(alloc, "paragraph")) {
        (Some(child), Some(ends_with)) => is_copied(&Check::Child {
            child,
            ends_with,
            answer: true,
        }),
        _ => false,
    }
}

/// The names of an element of the root and of the root above it.
fn ancestors(alloc: Global, element: &str) -> Option<Vec<Name>> {
    let mut names = Vec::new(alloc);
    let (root, element) = (name(alloc, "$root")?, name(alloc, element)?);
    if names.push(root).is_ok() && names.push(element).is_ok() {
        Some(names)
    } else {
        None
    }
}

/// How many ancestors remain above an item, where an element of the root is tried first.
fn remaining(alloc: Global, schema: &Schema, element: &str, item: &str) -> Option<usize> {
    match (ancestors(alloc, element), name(alloc, item)) {
        (Some(ancestors), Some(item)) => schema.allowed_parent(ancestors.as_slice(), &item),
        _ => None,
    }
}

fn stands_further_out(alloc: Global, schema: &Schema) -> bool {
    remaining(alloc, schema, "paragraph", "paragraph") == Some(1)
}

/// A limit is the last that is tried.
fn stands_nowhere(alloc: Global, schema: &Schema) -> bool {
    remaining(alloc, schema, "image", "paragraph").is_none()
        && remaining(alloc, schema, "paragraph", "$text") == Some(2)
}

fn tells_blocks(alloc: Global, schema: &Schema) -> bool {
    match (name(alloc, "paragraph"), name(alloc, "$text")) {
        (Some(paragraph), Some(text)) => schema.is_block(&paragraph) && !schema.is_block(&text),
        _ => false,
    }
}

fn tells_objects(alloc: Global, schema: &Schema) -> bool {
    match (name(alloc, "image"), name(alloc, "paragraph")) {
        (Some(image), Some(paragraph)) => {
            schema.is_selectable(&image)
                && schema.is_content(&image)
                && !schema.is_selectable(&paragraph)
                && !schema.is_content(&paragraph)
        }
        _ => false,
    }
}

/// The six items that each schema has, and the two of the sample.
fn lists_items(_alloc: Global, schema: &Schema) -> bool {
    match schema.registered() {
        Ok(names) => names.len() == 8,
        Err(_) => false,
    }
}

/// A tree of one paragraph with the attribute `id`, which it may not have.
fn marked_paragraph(alloc: Global) -> Option<Tree> {
    let (name, attrs) = (name(alloc, "paragraph")?, marked(alloc, "id")?);
    let none = Items::new(alloc).ok()?;
    let items = Items::element(alloc, ElementId::new(1), name, attrs, none).ok()?;
    if items.count() < 4_294_967_296 && items.depth() <= 64 {
        Some(Tree::from_items(items))
    } else {
        None
    }
}

/// The breach among what one spot lists in the tree of a paragraph; want of memory is none.
fn breach(alloc: Global, schema: &Schema, spot: Spot) -> Option<(Rule, Path)> {
    match (marked_paragraph(alloc), vec![in alloc; spot]) {
        (Some(tree), Ok(spots)) => match schema.breach_at(&tree, spots.as_slice()) {
            Ok(found) => found,
            Err(_) => None,
        },
        _ => None,
    }
}

/// Whether a breach is that of an attribute of the first element.
fn is_of_the_first(found: &Option<(Rule, Path)>) -> bool {
    match found {
        Some((Rule::Attribute { key, .. }, path)) => {
            key.as_str() == "id" && path.as_slice() == [0].as_slice()
        }
        _ => false,
    }
}

fn finds_a_breach(alloc: Global, schema: &Schema) -> bool {
    match path(alloc, &[0]) {
        Some(path) => is_of_the_first(&breach(alloc, schema, Spot::Subtree(path))),
        None => false,
    }
}

fn finds_no_breach(alloc: Global, schema: &Schema) -> bool {
    let run = Spot::Run {
        parent: Path::new(alloc),
        start: 1,
        end: 1,
    };
    breach(alloc, schema, run).is_none()
}
