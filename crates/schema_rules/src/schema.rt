ghost use Rattle.std.specs.Prelude.{◌≡◌, ℕ, List, Bool, true, ◌&&◌, None, map, reverse, IfOk};
ghost use Rattle.std.specs.List.{find, flat_map};
ghost use Rattle.schema_definitions.specs.Names.{has, in_order};
ghost use Rattle.schema_definitions.specs.Allowed.{registrations};
ghost use Rattle.schema_definitions.specs.Compiled.{needed_by};
ghost use Rattle.schema_definitions.specs.Rules.{stands_in, may_have, has_flag};
ghost use Rattle.schema_definitions.specs.Allowed.{is_block, is_inline, is_object, is_limit, is_selectable, is_content, is_registered, passes, check_child};
ghost use Rattle.schema_definitions.specs.Allowed.{check_attribute, allowed_above, allowed_parent, registered, inline_objects};
ghost use Rattle.schema_rules.specs.Refused.{is_unknown};
ghost use Rattle.schema_rules.specs.Chosen.{last_passes};

use crate::checks::{attribute_answer, child_answer};
use crate::flags::{FlagMarks, all_flags};
use crate::known::known_names;
use crate::marks::Marks;
use crate::numbering::Numbering;
use crate::tables::{children_table, keys_table};
use ck_base::NoMemory;
use ck_base::name::Name;
use schema_definitions::file::{Check, Entry, Flag, Subject};
use std::alloc::Global;
use std::collections::BTreeSet;
use std::marker::Model;

/// A compiled schema: it answers what may stand where, which attributes an item may have, and what an item is. It is seen as its rules, the
/// entries with the predefined ones and the checks; the answers come from tables that were made from these once.
#[derive(Debug, Drop)]
pub struct Schema {
    entries: Vec<Entry>,
    checks: Vec<Check>,
    /// How many of the names are registered items; these come first.
    registered: usize,
    names: Numbering,
    /// Which names may stand in each name.
    children: Vec<Marks>,
    /// Which names each name may have as an attribute.
    keys: Vec<Marks>,
    flags: FlagMarks,
}

impl Model for Schema {
    ghost use Rattle.schema_definitions.specs.Allowed.{Rules};
    ghost use Rattle.schema_rules.specs.Compiled.{IsCompiled};

    ghost Value = { Rules };

    ghost view = { λ schema. record { entries = schema.entries.items; checks = schema.checks.items } };

    ghost invariant = { λ schema. IsCompiled schema.entries.items schema.registered schema.names schema.children.items schema.keys.items schema.flags };
}

/// What a table says of two names.
fn table_at(names: &Numbering, rows: &Vec<Marks>, first: &Name, second: &Name) -> bool
    ensures { (test : List ℕ → List ℕ → Bool)
        → rows.now.items ≡ map (λ x. map (test x) names.now) names.now
        → ((x y : List ℕ) → test x y ≡ true → (has names.now x && has names.now y) ≡ true)
        → result ≡ test first.now second.now }
{
    let Some(row) = names.place_of(first) else {
        return false;
    };
    let Some(node) = names.place_of(second) else {
        return false;
    };
    match rows.get(row) {
        Some(marks) => marks.has(node),
        None => false,
    }
}

/// What marks say of a name.
fn marked_at(names: &Numbering, marks: &Marks, name: &Name) -> bool
    ensures { (test : List ℕ → Bool)
        → marks.now ≡ map test names.now
        → ((x : List ℕ) → test x ≡ true → has names.now x ≡ true)
        → result ≡ test name.now }
{
    match names.place_of(name) {
        Some(node) => marks.has(node),
        None => false,
    }
}

impl Schema {
    /// The schema of these entries and checks.
    pub(crate) fn of(
        items: Numbering,
        entries: Vec<Entry>,
        checks: Vec<Check>,
    ) -> Result<Schema, NoMemory>
        requires items { items ≡ registrations entries.items }
        requires known { find (is_unknown items) (flat_map needed_by entries.items) ≡ None }
        ensures { IfOk result (λ schema. schema ≡ record { entries = entries.items; checks = checks.items }) }
    {
        let registered = items.len();
        let names = known_names(items, entries.as_slice())?;
        let children = children_table(&names, entries.as_slice())?;
        let keys = keys_table(&names, entries.as_slice())?;
        let flags = all_flags(&names, entries.as_slice())?;
        Ok(Schema {
            entries,
            checks,
            registered,
            names,
            children,
            keys,
            flags,
        })
    }

    /// Whether an item is in a parent, by the entries alone.
    fn stands_in(&self, item: &Name, parent: &Name) -> bool
        ensures { result ≡ stands_in self.now.entries item.now parent.now }
    {
        table_at(&self.names, &self.children, parent, item)
    }

    /// Whether an attribute is on an item, by the entries alone.
    fn may_have(&self, key: &Name, item: &Name) -> bool
        ensures { result ≡ may_have self.now.entries key.now item.now }
    {
        table_at(&self.names, &self.keys, item, key)
    }

    /// Whether a flag is set for an item.
    fn has_flag(&self, flag: Flag, item: &Name) -> bool
        ensures { result ≡ has_flag self.now.entries flag item.now }
    {
        marked_at(&self.names, self.flags.of(flag), item)
    }

    /// Whether an item is a block. It takes no memory, and neither do the calls below but for the last two.
    pub fn is_block(&self, name: &Name) -> bool
        ensures { result ≡ is_block self.now name.now }
    {
        self.has_flag(Flag::Block, name)
    }

    /// Whether an item is inline.
    pub fn is_inline(&self, name: &Name) -> bool
        ensures { result ≡ is_inline self.now name.now }
    {
        self.has_flag(Flag::Inline, name)
    }

    /// Whether an item is an object: its flag is set, or it is a limit, selectable and content.
    pub fn is_object(&self, name: &Name) -> bool
        ensures { result ≡ is_object self.now name.now }
    {
        self.has_flag(Flag::Object, name)
            || (self.has_flag(Flag::Limit, name)
                && self.has_flag(Flag::Selectable, name)
                && self.has_flag(Flag::Content, name))
    }

    /// Whether an item is a limit: its flag is set, or it is an object.
    pub fn is_limit(&self, name: &Name) -> bool
        ensures { result ≡ is_limit self.now name.now }
    {
        self.has_flag(Flag::Limit, name) || self.is_object(name)
    }

    /// Whether an item is selectable: its flag is set, or it is an object.
    pub fn is_selectable(&self, name: &Name) -> bool
        ensures { result ≡ is_selectable self.now name.now }
    {
        self.has_flag(Flag::Selectable, name) || self.is_object(name)
    }

    /// Whether an item is content: its flag is set, or it is an object.
    pub fn is_content(&self, name: &Name) -> bool
        ensures { result ≡ is_content self.now name.now }
    {
        self.has_flag(Flag::Content, name) || self.is_object(name)
    }

    /// Whether an item of this name is registered.
    pub fn is_registered(&self, name: &Name) -> bool
        ensures { result ≡ is_registered self.now name.now }
    {
        match self.names.place_of(name) {
            Some(node) => node < self.registered,
            None => false,
        }
    }

    /// Whether an item may stand behind these ancestors, given from the root on: the first check that is about it decides; else it is in the
    /// last ancestor, which passes itself.
    #[tactic(auto, unfolding(schema_definitions::specs::Allowed::check_child))]
    pub fn check_child(&self, ancestors: &[Name], item: &Name) -> bool
        ensures { result ≡ check_child self.now ancestors.now item.now }
    {
        !ancestors.is_empty() && self.passes(ancestors, item)
    }

    /// Whether an item may stand behind these ancestors; without any, it is the root and may.
    #[tactic(auto, using(crate::proofs::Ends::reverse_last, crate::proofs::Ends::reverse_twice))]
    fn passes(&self, ancestors: &[Name], item: &Name) -> bool
        ensures { result ≡ passes self.now item.now (reverse ancestors.now) }
    {
        let Some((parent, above)) = ancestors.split_last() else {
            return true;
        };
        match child_answer(self.checks.as_slice(), ancestors, item) {
            Some(answer) => answer,
            None => self.stands_in(item, parent) && self.passes(above, parent),
        }
    }

    /// Whether an item may stand behind these ancestors, where it is known whether the last of them passes itself.
    #[tactic(auto, using(crate::proofs::Standing::stands), unfolding(schema_definitions::specs::Allowed::check_child))]
    pub(crate) fn may_stand(&self, ancestors: &[Name], passing: bool, item: &Name) -> bool
        requires { passing ≡ last_passes self.now ancestors.now }
        ensures { result ≡ check_child self.now ancestors.now item.now }
    {
        let Some((parent, _)) = ancestors.split_last() else {
            return false;
        };
        match child_answer(self.checks.as_slice(), ancestors, item) {
            Some(decided) => decided,
            None => passing && self.stands_in(item, parent),
        }
    }

    /// Whether an item behind these ancestors may have an attribute: the first check that is about the attribute there decides; else the
    /// attribute is on the item.
    #[tactic(auto, unfolding(schema_definitions::specs::Allowed::check_attribute))]
    pub fn check_attribute(&self, ancestors: &[Name], item: &Name, key: &Name) -> bool
        ensures { result ≡ check_attribute self.now ancestors.now item.now key.now }
    {
        match attribute_answer(self.checks.as_slice(), ancestors, item, key) {
            Some(answer) => answer,
            None => self.may_have(key, item),
        }
    }

    /// How many of the ancestors remain, counted from the root, with the innermost that allows the item. A limit that doesn't allow it is the
    /// last one tried.
    #[tactic(auto, unfolding(schema_definitions::specs::Allowed::allowed_parent))]
    pub fn allowed_parent(&self, ancestors: &[Name], item: &Name) -> Option<usize>
        ensures { result ≡ allowed_parent self.now ancestors.now item.now }
    {
        self.allowed_above(ancestors, item)
    }

    /// The same, tried from the last of these ancestors upwards.
    #[tactic(auto, using(crate::proofs::Ends::reverse_last, crate::proofs::Ends::reverse_twice))]
    fn allowed_above(&self, ancestors: &[Name], item: &Name) -> Option<usize>
        ensures { result ≡ allowed_above self.now item.now (reverse ancestors.now) }
    {
        let Some((parent, above)) = ancestors.split_last() else {
            return None;
        };
        if self.check_child(ancestors, item) {
            Some(ancestors.len())
        } else if self.is_limit(parent) {
            None
        } else {
            self.allowed_above(above, item)
        }
    }

    /// The registered items, in the order of their bytes. It answers `NoMemory` alone beside Ok.
    #[tactic(auto, unfolding(schema_definitions::specs::Allowed::registered))]
    pub fn registered(&self) -> Result<Vec<Name>, NoMemory>
        ensures { IfOk result (λ names. names.items ≡ registered self.now) }
    {
        let alloc = self.names.allocator();
        let set = sorted_items(alloc, self.entries.as_slice())?;
        let mut names = Vec::with_capacity(alloc, set.len())?;
        for name in set {
            names.push(name)?;
        }
        Ok(names)
    }

    /// The registered items that are inline and an object, in the order of their bytes. It answers `NoMemory` alone beside Ok.
    #[tactic(auto, unfolding(schema_definitions::specs::Allowed::inline_objects))]
    pub fn inline_objects(&self) -> Result<Vec<Name>, NoMemory>
        ensures { IfOk result (λ names. names.items ≡ inline_objects self.now) }
    {
        let registered = self.registered()?;
        let mut objects = Vec::new(self.names.allocator());
        for name in &registered {
            if self.is_inline(name) && self.is_object(name) {
                objects.push(name.copy()?)?;
            }
        }
        Ok(objects)
    }
}

/// The items that entries register, in the order of their bytes.
fn sorted_items(alloc: Global, entries: &[Entry]) -> Result<BTreeSet<Name>, NoMemory>
    ensures { IfOk result (λ set. set.keys ≡ in_order (registrations entries.now)) }
{
    let mut set = BTreeSet::new(alloc);
    for entry in entries {
        if let Subject::Item(name) = &entry.subject {
            let _ = set.insert(name.copy()?)?;
        }
    }
    Ok(set)
}
