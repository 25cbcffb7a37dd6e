//! Names, texts and attributes.
use crate::report::Report;
use crate::samples::{marked, name, text_value, view_text};
use ck_base::attributes::{Attrs, ViewAttrs};
use ck_base::name::Name;
use ck_base::text::ViewText;
use std::alloc::Global;

/// The rows of names, texts and attributes.
pub fn rows(alloc: Global, report: &mut Report<'_>) {
    report.row("a name is copied", copies_a_name(alloc));
    report.row("a name is shown", shows_a_name(alloc));
    report.row("a text of an attribute is copied", copies_a_text(alloc));
    report.row("a text of a view is copied", copies_a_view_text(alloc));
    report.row(
        "scalar values make a text of a view",
        makes_a_view_text(alloc),
    );
    report.row("attributes are copied", copies_attributes(alloc));
    report.row(
        "attributes of a view are copied",
        copies_view_attributes(alloc),
    );
}

fn copies_a_name(alloc: Global) -> bool {
    match name(alloc, "paragraph") {
        Some(name) => match name.copy() {
            Ok(copied) => copied == name,
            Err(_) => false,
        },
        None => false,
    }
}

fn shows_a_name(alloc: Global) -> bool {
    match name(alloc, "comment:1") {
        Some(name) => is_shown(alloc, &name),
        None => false,
    }
}

/// Whether a name is shown as its text.
fn is_shown(alloc: Global, name: &Name) -> bool {
    match format!(in alloc; "{name}") {
        Ok(shown) => shown.as_str() == name.as_str(),
        Err(_) => false,
    }
}

fn copies_a_text(alloc: Global) -> bool {
    match text_value(alloc, "na\u{ef}ve") {
        Some(text) => match text.copy() {
            Ok(copied) => copied == text && copied.scalars().len() == 5,
            Err(_) => false,
        },
        None => false,
    }
}

fn copies_a_view_text(alloc: Global) -> bool {
    match view_text(alloc, "na\u{ef}ve") {
        Some(text) => match text.copy() {
            Ok(copied) => copied == text && copied.scalars().len() == 5,
            Err(_) => false,
        },
        None => false,
    }
}

fn makes_a_view_text(alloc: Global) -> bool {
    match view_text(alloc, "ab") {
        Some(text) => is_made_again(alloc, &text),
        None => false,
    }
}

/// Whether the scalar values of a text make the same text.
fn is_made_again(alloc: Global, text: &ViewText) -> bool {
    match text.scalars().to_vec(alloc) {
        Ok(scalars) => match ViewText::from_scalars(scalars) {
            Ok(made) => made == *text,
            Err(_) => false,
        },
        Err(_) => false,
    }
}

fn copies_attributes(alloc: Global) -> bool {
    match marked(alloc, "bold") {
        Some(attrs) => are_copied(alloc, &attrs),
        None => false,
    }
}

/// Whether a copy is the same attributes, which are not none.
fn are_copied(alloc: Global, attrs: &Attrs) -> bool {
    match attrs.copy() {
        Ok(copied) => copied.same(attrs) && !Attrs::new(alloc).same(attrs),
        Err(_) => false,
    }
}

fn copies_view_attributes(alloc: Global) -> bool {
    let mut attrs = ViewAttrs::new(alloc);
    sets_text(&mut attrs, name(alloc, "id"), view_text(alloc, "a"))
        && sets_text(&mut attrs, name(alloc, "class"), view_text(alloc, "b"))
        && are_two_copied(&attrs)
}

/// Sets a key, and answers whether that was done.
fn sets_text(attrs: &mut ViewAttrs, key: Option<Name>, text: Option<ViewText>) -> bool {
    match (key, text) {
        (Some(key), Some(text)) => attrs.set(key, text).is_ok(),
        _ => false,
    }
}

/// Whether a copy has two keys, the second of which is `id`.
fn are_two_copied(attrs: &ViewAttrs) -> bool {
    match attrs.copy() {
        Ok(copied) => match copied.entries() {
            [_, (key, _)] => key.as_str() == "id",
            _ => false,
        },
        Err(_) => false,
    }
}
