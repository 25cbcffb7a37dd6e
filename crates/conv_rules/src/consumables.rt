//! What is left of an element for converters to consume.
ghost use Rattle.std.specs.Prelude.{◌≡◌, ◌++◌, OnOk, IfOk, not, if◌then◌else◌};
ghost use Rattle.std.specs.List.{list_any};
ghost use Rattle.converter_definitions.specs.Facts.{same_key, all_keys, attribute_keys, is_left, are_left, left_without, left_without_all};
ghost use Rattle.converter_definitions.specs.Gives.{insert_keys};

use ck_base::NoMemory;
use ck_base::attributes::Attrs;
use ck_base::name::Name;
use ck_base::value::Value;
use converter_definitions::facts::{Facts, Key};
use std::alloc::Global;
use std::marker::Model;

/// The keys that are left, seen as their list. (After `ModelConsumable` of CKEditor 5.)
#[derive(Debug, Drop)]
pub struct Consumables {
    left: Vec<Key>,
}

impl Model for Consumables {
    ghost use Rattle.std.specs.Prelude.{List};
    ghost use Rattle.converter_definitions.specs.declared.facts.Key.{Key};

    ghost Value = { List Key };

    ghost view = { λ consumables. consumables.left.items };
}

impl Consumables {
    /// All that there is of an element: `insert`, and `attribute:KEY` for each attribute. It answers `NoMemory` alone beside Ok.
    pub fn new(alloc: Global, facts: &Facts) -> Result<Consumables, NoMemory>
        ensures { IfOk result (λ all. all ≡ all_keys facts.now.attributes) }
    {
        let left = insert_keys(alloc, &facts.attributes)?;
        Ok(Consumables { left })
    }

    /// All that there is of a character: `attribute:KEY` for each attribute.
    pub(crate) fn of_character(alloc: Global, attributes: &Attrs) -> Result<Consumables, NoMemory>
        ensures { IfOk result (λ all. all ≡ attribute_keys attributes.now) }
    {
        let mut left = Vec::new(alloc);
        push_keys(&mut left, attributes.entries())?;
        Ok(Consumables { left })
    }

    /// Whether a key is left. It takes no memory.
    pub fn has(&self, key: &Key) -> bool
        ensures { result ≡ is_left self.now key.now }
    {
        contains(self.left.as_slice(), key)
    }

    /// Takes a key away, and answers whether it was left. It takes no memory.
    pub fn take(&mut self, key: &Key) -> bool
        ensures was_left { result ≡ is_left self.old key.now }
        ensures left { self.new ≡ left_without key.now self.old }
    {
        let was_left = self.has(key);
        self.left.retain(|other| !key.same(other));
        was_left
    }

    /// Takes these keys away where each of them is left, and answers whether it was so. It takes no memory.
    pub fn take_all(&mut self, keys: &[Key]) -> bool
        ensures were_left { result ≡ are_left self.old keys.now }
        ensures left { self.new ≡ (if are_left self.old keys.now then left_without_all keys.now self.old else self.old) }
    {
        if !self.has_all(keys) {
            return false;
        }
        self.remove_all(keys);
        true
    }

    /// Whether each of these keys is left.
    fn has_all(&self, keys: &[Key]) -> bool
        ensures { result ≡ are_left self.now keys.now }
    {
        keys.iter().all(|key| self.has(key))
    }

    /// Takes these keys away.
    fn remove_all(&mut self, keys: &[Key])
        ensures { self.new ≡ left_without_all keys.now self.old }
    {
        self.left.retain(|other| !contains(keys, other));
    }
}

/// Whether a key is among these.
fn contains(keys: &[Key], key: &Key) -> bool
    ensures { result ≡ is_left keys.now key.now }
{
    keys.iter().any(|other| key.same(other))
}

/// The keys of an element with these attributes.
pub(crate) fn insert_keys(alloc: Global, attributes: &Attrs) -> Result<Vec<Key>, NoMemory>
    ensures { IfOk result (λ keys. keys.items ≡ insert_keys attributes.now) }
{
    let mut keys = Vec::new(alloc);
    keys.push(Key::Insert)?;
    push_keys(&mut keys, attributes.entries())?;
    Ok(keys)
}

/// A key more for each of these attributes.
fn push_keys(keys: &mut Vec<Key>, entries: &[(Name, Value)]) -> Result<(), NoMemory>
    ensures { OnOk result (keys.new.items ≡ keys.old.items ++ attribute_keys entries.now) }
{
    for (name, _) in entries {
        keys.push(Key::Attribute(name.copy()?))?;
    }
    Ok(())
}
