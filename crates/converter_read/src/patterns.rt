//! Readers of patterns and of view attributes. Each answers what the definition of its name reads, `BadField` with the first place that breaks
//! the form, or `NoMemory`; a path leads to the value that is read.
ghost use Rattle.std.specs.Prelude.{◌≡◌, [], IfOk};
ghost use Rattle.serde_json.specs.View.{view, members_view};
ghost use Rattle.json_forms.specs.Form.{Reads};
ghost use Rattle.converter_forms.specs.PatternForm.{from_pattern, index_pattern, object_pattern, pattern_at, key_pattern_at, patterns_from};
ghost use Rattle.converter_forms.specs.PatternForm.{patterns_field, key_text_at, texts_from, texts_field};

use ck_base::attributes::ViewAttrs;
use ck_base::faults::FieldPath;
use ck_base::name::{Name, NameFault};
use ck_base::text::ViewText;
use converter_definitions::pattern::{Pattern, Patterns};
use json_forms::fault::FormFault;
use json_forms::forms::{bad_field, object_at, only_fields};
use json_names::names::name_field;
use json_names::values::count_field;
use serde_json::{Map, Value};
use std::alloc::Global;

/// The largest number that a pattern adds to an index.
const MAX_BASE: u64 = 1000000;

/// A pattern that takes the value of an attribute.
#[tactic(auto, unfolding(converter_forms::specs::PatternForm::from_pattern))]
fn from_pattern(alloc: Global, path: &FieldPath, value: &Value) -> Result<Pattern, FormFault>
    ensures { Reads (λ pattern. pattern) result (from_pattern path.now (view value.now)) }
{
    let key = name_field(alloc, path, "from", value)?;
    only_fields(path, &["from"], value)?;
    Ok(Pattern::From(key))
}

/// A pattern that takes an index.
#[tactic(auto, unfolding(converter_forms::specs::PatternForm::index_pattern))]
fn index_pattern(path: &FieldPath, value: &Value) -> Result<Pattern, FormFault>
    ensures { Reads (λ pattern. pattern) result (index_pattern path.now (view value.now)) }
{
    let base = count_field(path, "index", 0, MAX_BASE, value)?;
    only_fields(path, &["index"], value)?;
    Ok(Pattern::Index(base as u32))
}

/// A pattern that is an object.
#[tactic(auto, unfolding(converter_forms::specs::PatternForm::object_pattern))]
fn object_pattern(
    alloc: Global,
    indexes: bool,
    path: &FieldPath,
    value: &Value,
) -> Result<Pattern, FormFault>
    ensures { Reads (λ pattern. pattern) result (object_pattern indexes path.now (view value.now)) }
{
    object_at(path, value)?;
    if indexes && value.get("index").is_some() {
        if value.get("from").is_some() {
            return Err(bad_field(path, "from"));
        }
        return index_pattern(path, value);
    }
    from_pattern(alloc, path, value)
}

/// A pattern; where indexes may be asked for, also one of an index.
#[tactic(auto, unfolding(converter_forms::specs::PatternForm::pattern_at))]
pub(crate) fn pattern_at(
    alloc: Global,
    indexes: bool,
    path: &FieldPath,
    value: &Value,
) -> Result<Pattern, FormFault>
    ensures { Reads (λ pattern. pattern) result (pattern_at indexes path.now (view value.now)) }
{
    match value.as_str() {
        Some(text) => {
            let text = ViewText::read(alloc, text)?;
            Ok(Pattern::Text(text))
        }
        None => object_pattern(alloc, indexes, path, value),
    }
}

/// The pattern of a key, which has to be a name.
#[tactic(auto, unfolding(converter_forms::specs::PatternForm::key_pattern_at))]
fn key_pattern_at(
    alloc: Global,
    indexes: bool,
    path: &FieldPath,
    key: &str,
    value: &Value,
) -> Result<(Name, Pattern), FormFault>
    ensures reads { Reads (λ both. both.1) result (key_pattern_at indexes path.now key.now (view value.now)) }
    ensures key { IfOk result (λ both. both.0 ≡ key.now) }
{
    let name = match Name::read(alloc, key) {
        Ok(name) => name,
        Err(NameFault::NotAName) => return Err(bad_field(path, key)),
        Err(NameFault::NoMemory) => return Err(FormFault::NoMemory),
    };
    let place = path.field(key)?;
    let pattern = pattern_at(alloc, indexes, &place, value)?;
    Ok((name, pattern))
}

/// The patterns of an object.
#[tactic(auto, using(json_names::proofs::Fronts::with_front_more), unfolding(converter_forms::specs::PatternForm::patterns_from))]
fn patterns_of(
    alloc: Global,
    indexes: bool,
    path: &FieldPath,
    members: &Map<String, Value>,
) -> Result<Patterns, FormFault>
    ensures { Reads (λ patterns. patterns) result (patterns_from indexes path.now (members_view members.now.entries)) }
{
    let mut patterns = Patterns::new(alloc);
    for (key, value) in members {
        let (name, pattern) = key_pattern_at(alloc, indexes, path, key.as_str(), value)?;
        patterns.push(name, pattern)?;
    }
    Ok(patterns)
}

/// A field that is an object of names to patterns; where it isn't there, there are none.
#[tactic(auto, unfolding(converter_forms::specs::PatternForm::patterns_field))]
pub(crate) fn patterns_field(
    alloc: Global,
    indexes: bool,
    path: &FieldPath,
    name: &str,
    value: &Value,
) -> Result<Patterns, FormFault>
    ensures { Reads (λ patterns. patterns) result (patterns_field indexes path.now name.now (view value.now)) }
{
    let Some(found) = value.get(name) else {
        return Ok(Patterns::new(alloc));
    };
    let Some(members) = found.as_object() else {
        return Err(bad_field(path, name));
    };
    let place = path.field(name)?;
    patterns_of(alloc, indexes, &place, members)
}

/// The text of a key, which has to be a name.
#[tactic(auto, unfolding(converter_forms::specs::PatternForm::key_text_at))]
fn key_text_at(
    alloc: Global,
    path: &FieldPath,
    key: &str,
    value: &Value,
) -> Result<(Name, ViewText), FormFault>
    ensures reads { Reads (λ both. both.1) result (key_text_at path.now key.now (view value.now)) }
    ensures key { IfOk result (λ both. both.0 ≡ key.now) }
{
    let name = match Name::read(alloc, key) {
        Ok(name) => name,
        Err(NameFault::NotAName) => return Err(bad_field(path, key)),
        Err(NameFault::NoMemory) => return Err(FormFault::NoMemory),
    };
    let Some(text) = value.as_str() else {
        return Err(bad_field(path, key));
    };
    let text = ViewText::read(alloc, text)?;
    Ok((name, text))
}

/// The texts of an object.
#[tactic(auto, unfolding(converter_forms::specs::PatternForm::texts_from))]
fn texts_of(
    alloc: Global,
    path: &FieldPath,
    members: &Map<String, Value>,
) -> Result<ViewAttrs, FormFault>
    ensures { Reads (λ texts. texts) result (texts_from path.now [] (members_view members.now.entries)) }
{
    let mut texts = ViewAttrs::new(alloc);
    for (key, value) in members {
        let (name, text) = key_text_at(alloc, path, key.as_str(), value)?;
        texts.set(name, text)?;
    }
    Ok(texts)
}

/// A field that is an object of names to texts; where it isn't there, there are none.
#[tactic(auto, unfolding(converter_forms::specs::PatternForm::texts_field))]
pub(crate) fn texts_field(
    alloc: Global,
    path: &FieldPath,
    name: &str,
    value: &Value,
) -> Result<ViewAttrs, FormFault>
    ensures { Reads (λ texts. texts) result (texts_field path.now name.now (view value.now)) }
{
    let Some(found) = value.get(name) else {
        return Ok(ViewAttrs::new(alloc));
    };
    let Some(members) = found.as_object() else {
        return Err(bad_field(path, name));
    };
    let place = path.field(name)?;
    texts_of(alloc, &place, members)
}
