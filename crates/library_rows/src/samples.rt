//! The values that rows begin with. Each is none where memory ran out.
use ck_base::attributes::Attrs;
use ck_base::name::Name;
use ck_base::path::Path;
use ck_base::text::{TextVal, ViewText};
use ck_base::value::Value;
use std::alloc::Global;

/// The name that a text is.
pub fn name(alloc: Global, text: &str) -> Option<Name> {
    Name::read(alloc, text).ok()
}

/// The path of these numbers.
pub fn path(alloc: Global, numbers: &[u32]) -> Option<Path> {
    Path::from_slice(alloc, numbers)
}

/// A text of an attribute.
pub fn text_value(alloc: Global, text: &str) -> Option<TextVal> {
    TextVal::read(alloc, text).ok()
}

/// A text of a view.
pub fn view_text(alloc: Global, text: &str) -> Option<ViewText> {
    ViewText::read(alloc, text).ok()
}

/// Attributes in which this key is true.
pub fn marked(alloc: Global, key: &str) -> Option<Attrs> {
    let mut attrs = Attrs::new(alloc);
    if sets(&mut attrs, name(alloc, key), Value::Truth(true)) {
        Some(attrs)
    } else {
        None
    }
}

/// Sets a key, and answers whether that was done.
fn sets(attrs: &mut Attrs, key: Option<Name>, value: Value) -> bool {
    match key {
        Some(key) => attrs.set(key, value).is_ok(),
        None => false,
    }
}
