//! The attributes of model items and of view elements, as sorted maps.
ghost use Rattle.std.specs.Prelude.{◌≡◌, ℕ, [], ◌↔◌, IsTrue, IfOk, OnOk, OnErr, Some, None, IsSome, Contains, option_copied};
ghost use Rattle.std.specs.Map.{keys_of};
ghost use Rattle.ck_base.specs.Entries.{IsOrdered, ChangesOnly, value_of, with_value, without};

use crate::name::Name;
use crate::text::ViewText;
use crate::value::Value;
use crate::{NoMemory, entries};
use std::alloc::Global;
use std::marker::Model;

/// The attributes of an item: a finite map from keys to values. It is seen as the list of its pairs, in the order of the keys'
/// bytes, each key once. (After the attributes of `Element` and `TextProxy` of CKEditor 5's model.)
#[derive(Debug, Drop)]
pub struct Attrs {
    entries: Vec<(Name, Value)>,
}

impl Model for Attrs {
    ghost use Rattle.std.specs.Prelude.{ℕ, List};
    ghost use Rattle.ck_base.specs.declared.value.Value.{Value as AttributeValue};
    ghost use Rattle.ck_base.specs.Entries.{IsOrdered};

    ghost Value = { List (List ℕ × AttributeValue) };

    ghost view = { λ attrs. attrs.entries.items };

    ghost invariant = { λ attrs. IsOrdered attrs.entries.items };
}

impl Attrs {
    /// No attributes. It takes no memory.
    pub fn new(alloc: Global) -> Attrs
        ensures { result ≡ [] }
    {
        Attrs {
            entries: Vec::new(alloc),
        }
    }

    /// The value of a key: None exactly where the key isn't there.
    pub fn get(&self, key: &Name) -> Option<&Value>
        ensures value { option_copied result ≡ value_of key.now self.now }
        ensures there { IsSome result ↔ Contains (keys_of self.now) key.now }
    {
        entries::find(self.entries.as_slice(), key)
    }

    /// Gives a key this value. It answers `NoMemory` alone beside Ok, and then nothing has changed.
    #[tactic(auto, using(crate::proofs::Ordered::ordered_with_value, crate::proofs::Lookups::written))]
    pub fn set(&mut self, key: Name, value: Value) -> Result<(), NoMemory>
        ensures ok { OnOk result (self.new ≡ with_value key value self.old) }
        ensures changes { OnOk result (ChangesOnly self.old self.new key (Some value)) }
        ensures err { OnErr result (self.new ≡ self.old) }
    {
        entries::put(&mut self.entries, key, value)
    }

    /// Takes a key out, and answers the value that it had: None exactly where the key wasn't there. It takes no memory.
    #[tactic(auto, using(crate::proofs::Ordered::ordered_without, crate::proofs::Lookups::removed))]
    pub fn remove(&mut self, key: &Name) -> Option<Value>
        ensures attributes { self.new ≡ without key.now self.old }
        ensures changes { ChangesOnly self.old self.new key.now None }
        ensures value { result ≡ value_of key.now self.old }
        ensures there { IsSome result ↔ Contains (keys_of self.old) key.now }
    {
        entries::remove(&mut self.entries, key)
    }

    /// The pairs, in the order of the keys' bytes.
    pub fn entries(&self) -> &[(Name, Value)]
        ensures pairs { result.now ≡ self.now }
        ensures ordered { IsOrdered self.now }
    {
        self.entries.as_slice()
    }

    /// The same attributes.
    pub fn copy(&self) -> Result<Attrs, NoMemory>
        ensures { IfOk result (λ attrs. attrs ≡ self.now) }
    {
        let entries = copied_values(&self.entries)?;
        Ok(Attrs { entries })
    }

    /// Whether the two have the same keys with the same values.
    pub fn same(&self, other: &Attrs) -> bool
        ensures { IsTrue result ↔ (self.now ≡ other.now) }
    {
        same_values(self.entries.as_slice(), other.entries.as_slice())
    }
}

/// A copy of each pair.
fn copied_values(entries: &Vec<(Name, Value)>) -> Result<Vec<(Name, Value)>, NoMemory>
    ensures { IfOk result (λ copies. copies.items ≡ entries.now.items) }
{
    let mut copies = Vec::with_capacity(*entries.allocator(), entries.len())?;
    for (key, value) in entries {
        copies.push((key.copy()?, value.copy()?))?;
    }
    Ok(copies)
}

/// Whether two lists have the same pairs.
fn same_values(entries: &[(Name, Value)], others: &[(Name, Value)]) -> bool
    ensures { IsTrue result ↔ (entries.now ≡ others.now) }
{
    match (entries.split_first(), others.split_first()) {
        (None, None) => true,
        (Some((entry, rest)), Some((other, other_rest))) => {
            same_pair(entry, other) && same_values(rest, other_rest)
        }
        _ => false,
    }
}

/// Whether two pairs have the same key and the same value.
fn same_pair(entry: &(Name, Value), other: &(Name, Value)) -> bool
    ensures { IsTrue result ↔ (entry.now ≡ other.now) }
{
    entry.0 == other.0 && entry.1.same(&other.1)
}

/// The attributes of a view element: a finite map from keys to texts, seen as the list of its pairs in the order of the keys'
/// bytes, each key once.
#[derive(Debug, Drop)]
pub struct ViewAttrs {
    entries: Vec<(Name, ViewText)>,
}

impl Model for ViewAttrs {
    ghost use Rattle.std.specs.Prelude.{ℕ, List};
    ghost use Rattle.ck_base.specs.Entries.{IsOrdered};

    ghost Value = { List (List ℕ × List ℕ) };

    ghost view = { λ attrs. attrs.entries.items };

    ghost invariant = { λ attrs. IsOrdered attrs.entries.items };
}

impl ViewAttrs {
    /// No attributes. It takes no memory.
    pub fn new(alloc: Global) -> ViewAttrs
        ensures { result ≡ [] }
    {
        ViewAttrs {
            entries: Vec::new(alloc),
        }
    }

    /// The text of a key: None exactly where the key isn't there.
    pub fn get(&self, key: &Name) -> Option<&ViewText>
        ensures value { option_copied result ≡ value_of key.now self.now }
        ensures there { IsSome result ↔ Contains (keys_of self.now) key.now }
    {
        entries::find(self.entries.as_slice(), key)
    }

    /// Gives a key this text. It answers `NoMemory` alone beside Ok, and then nothing has changed.
    #[tactic(auto, using(crate::proofs::Ordered::ordered_with_value, crate::proofs::Lookups::written))]
    pub fn set(&mut self, key: Name, value: ViewText) -> Result<(), NoMemory>
        ensures ok { OnOk result (self.new ≡ with_value key value self.old) }
        ensures changes { OnOk result (ChangesOnly self.old self.new key (Some value)) }
        ensures err { OnErr result (self.new ≡ self.old) }
    {
        entries::put(&mut self.entries, key, value)
    }

    /// The pairs, in the order of the keys' bytes.
    pub fn entries(&self) -> &[(Name, ViewText)]
        ensures pairs { result.now ≡ self.now }
        ensures ordered { IsOrdered self.now }
    {
        self.entries.as_slice()
    }

    /// The same attributes.
    pub fn copy(&self) -> Result<ViewAttrs, NoMemory>
        ensures { IfOk result (λ attrs. attrs ≡ self.now) }
    {
        let entries = copied_texts(&self.entries)?;
        Ok(ViewAttrs { entries })
    }
}

/// A copy of each pair.
fn copied_texts(entries: &Vec<(Name, ViewText)>) -> Result<Vec<(Name, ViewText)>, NoMemory>
    ensures { IfOk result (λ copies. copies.items ≡ entries.now.items) }
{
    let mut copies = Vec::with_capacity(*entries.allocator(), entries.len())?;
    for (key, text) in entries {
        copies.push((key.copy()?, text.copy()?))?;
    }
    Ok(copies)
}
