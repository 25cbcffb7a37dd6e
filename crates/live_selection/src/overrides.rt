//! What overrides the attributes that the text gives a selection.
ghost use Rattle.std.specs.Prelude.{◌≡◌, ◌++◌, [], IfOk, OnOk, OnErr, Some, None, option_copied};
ghost use Rattle.ck_base.specs.Entries.{IsOrdered, with_value};
ghost use Rattle.document_definitions.specs.Selection.{overridden};
ghost use Rattle.operation_definitions.specs.Level.{with_key};

use ck_base::NoMemory;
use ck_base::attributes::Attrs;
use ck_base::name::Name;
use ck_base::value::Value;
use std::alloc::Global;
use std::collections::BTreeMap;
use std::marker::Model;

/// Keys, each with the value that it is overridden with, or without one: a finite map, seen as the list of its pairs in the order of the
/// keys' bytes.
#[derive(Drop)]
pub struct Overrides {
    table: BTreeMap<Name, Option<Value>>,
    alloc: Global,
}

impl Model for Overrides {
    ghost use Rattle.std.specs.Prelude.{ℕ, List, Option};
    ghost use Rattle.ck_base.specs.declared.value.Value.{Value as AttributeValue};
    ghost use Rattle.ck_base.specs.Entries.{IsOrdered};

    ghost Value = { List (List ℕ × Option AttributeValue) };

    ghost view = { λ overrides. overrides.table.entries };

    ghost invariant = { λ overrides. IsOrdered overrides.table.entries };
}

impl Overrides {
    /// No overrides. It takes no memory.
    pub fn new(alloc: Global) -> Overrides
        ensures { result ≡ [] }
    {
        Overrides {
            table: BTreeMap::new(alloc),
            alloc,
        }
    }

    /// Overrides a key with a value, or with none. It answers `NoMemory` alone beside Ok, and then nothing has changed.
    #[tactic(auto, using(crate::proofs::Tables::put, ck_base::proofs::Ordered::ordered_with_value))]
    pub fn set(&mut self, key: Name, value: Option<Value>) -> Result<(), NoMemory>
        ensures ok { OnOk result (self.new ≡ with_value key value self.old) }
        ensures err { OnErr result (self.new ≡ self.old) }
    {
        self.table.insert(key, value)?;
        Ok(())
    }

    /// Takes all of them away. It takes no memory.
    pub fn clear(&mut self)
        ensures { self.new ≡ [] }
    {
        self.table.clear();
    }

    /// Gives attributes each key with the value that overrides it, or takes the key away. It answers `NoMemory` alone beside Ok, and then
    /// the attributes aren't stated.
    pub fn override_in(&self, attrs: &mut Attrs) -> Result<(), NoMemory>
        ensures { OnOk result (attrs.new ≡ overridden self.now attrs.old) }
    {
        for (key, value) in &self.table {
            override_one(attrs, key, value)?;
        }
        Ok(())
    }

    /// The same overrides.
    #[tactic(auto, using(document_definitions::proofs::Copies::next_copied))]
    pub fn copy(&self) -> Result<Overrides, NoMemory>
        ensures { IfOk result (λ overrides. overrides ≡ self.now) }
    {
        let mut copy = Overrides::new(self.alloc);
        for (key, value) in &self.table {
            copy.set(key.copy()?, copied(value)?)?;
        }
        Ok(copy)
    }
}

/// Gives attributes a key with this value, or takes the key away.
fn override_one(attrs: &mut Attrs, key: &Name, value: &Option<Value>) -> Result<(), NoMemory>
    ensures { OnOk result (attrs.new ≡ with_key key.now value.now attrs.old) }
{
    match copied(value)? {
        Some(value) => attrs.set(key.copy()?, value),
        None => {
            attrs.remove(key);
            Ok(())
        }
    }
}

/// The same value, if there is one.
fn copied(value: &Option<Value>) -> Result<Option<Value>, NoMemory>
    ensures { IfOk result (λ copy. copy ≡ value.now) }
{
    match value {
        Some(value) => {
            let value = value.copy()?;
            Ok(Some(value))
        }
        None => Ok(None),
    }
}
