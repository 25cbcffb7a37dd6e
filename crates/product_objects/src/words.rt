//! Names and texts that the product's converters write.
ghost use Rattle.std.specs.Prelude.{◌≡◌, ◌++◌, true, IfOk, option_copied};
ghost use Rattle.std.specs.Str.{chars};
ghost use Rattle.ck_base.specs.Name.{is_name};
ghost use Rattle.ck_base.specs.Entries.{value_of};
ghost use Rattle.product_objects.specs.Converters.{text_in};

use ck_base::NoMemory;
use ck_base::attributes::Attrs;
use ck_base::name::{Name, NameFault};
use ck_base::text::{TextVal, ViewText};
use ck_base::value::Value;
use std::alloc::{AllocError, Global};

/// The name that a text is. It answers `NoMemory` alone beside Ok.
pub fn name_of(alloc: Global, text: &str) -> Result<Name, NoMemory>
    requires { is_name text.now ≡ true }
    ensures { IfOk result (λ name. name ≡ text.now) }
{
    match Name::read(alloc, text) {
        Ok(name) => Ok(name),
        Err(NameFault::NotAName) => unreachable!(),
        Err(NameFault::NoMemory) => Err(AllocError),
    }
}

/// The text that is the value of an attribute.
pub(crate) fn text_of<'a>(attributes: &'a Attrs, key: &Name) -> Option<&'a TextVal>
    ensures { option_copied result ≡ text_in (value_of key.now attributes.now) }
{
    match attributes.get(key) {
        Some(Value::Text(text)) => Some(text),
        _ => None,
    }
}

/// A text of ASCII characters.
pub(crate) fn word(alloc: Global, text: &str) -> Result<ViewText, NoMemory>
    requires { chars text.now ≡ text.now }
    ensures { IfOk result (λ read. read ≡ text.now) }
{
    ViewText::read(alloc, text)
}

/// A text of ASCII characters, and then this one.
pub(crate) fn joined(alloc: Global, first: &str, rest: &TextVal) -> Result<ViewText, NoMemory>
    requires { chars first.now ≡ first.now }
    ensures { IfOk result (λ text. text ≡ first.now ++ rest.now) }
{
    let front = word(alloc, first)?;
    let mut scalars = Vec::new(alloc);
    scalars.extend_from_slice(front.scalars())?;
    scalars.extend_from_slice(rest.scalars())?;
    ViewText::from_scalars(scalars)
}
