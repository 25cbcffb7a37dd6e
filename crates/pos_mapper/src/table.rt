//! The bindings of elements and their view elements.
ghost use Rattle.std.specs.Prelude.{◌≡◌, ◌≢◌, ◌++◌, ◌<◌, ◌==◌, ◌||◌, ℕ, [], ◌∷◌, None, Some, OnOk, OnErr, is_some, if◌then◌else◌, nat_eq, option_copied};
ghost use Rattle.std.specs.List.{find};
ghost use Rattle.indexmap.specs.IndexMap.{get, spare};
ghost use Rattle.slab.specs.Slab.{HasRoomFor};
ghost use Rattle.pos_mapper.specs.Bindings.{Binding as Parts};
ghost use Rattle.pos_mapper.specs.Keys.{binding_at};

use crate::parts::Binding;
use ck_base::NoMemory;
use indexmap::IndexMap;
use model_tree::id::ElementId;
use slab::Slab;
use std::alloc::Global;
use std::marker::Model;
use view_tree::node::ViewNumber;

/// Bindings, found by the ids of elements and by the numbers of view elements. They are seen as their list, in the order in which they
/// came.
#[derive(Drop)]
pub(crate) struct Table {
    bindings: Slab<Binding>,
    by_id: IndexMap<u64, usize>,
    by_number: IndexMap<u64, usize>,
}

impl Model for Table {
    ghost use Rattle.std.specs.Prelude.{List};
    ghost use Rattle.std.specs.Coded.{coded_list};
    ghost use Rattle.pos_mapper.specs.Bindings.{Binding as Parts};
    ghost use Rattle.pos_mapper.specs.Codes.{coded_binding};
    ghost use Rattle.pos_mapper.specs.Keys.{bindings_at, AreKeys};

    ghost Value = { List Parts };

    ghost coded = { coded_list coded_binding };

    ghost view = { λ table. bindings_at table.bindings.slots table.by_id.entries };

    ghost invariant = { λ table. AreKeys table.bindings.slots table.by_id.entries table.by_number.entries };
}

impl Table {
    /// No bindings. It takes no memory.
    pub fn new(alloc: Global) -> Table
        ensures { result ≡ [] }
    {
        Table {
            bindings: Slab::new(alloc),
            by_id: IndexMap::new(alloc),
            by_number: IndexMap::new(alloc),
        }
    }

    /// The binding of the element with an id: None exactly where it is not bound. It takes no memory.
    pub fn of_id(&self, id: u64) -> Option<&Binding>
        ensures { option_copied result ≡ find (λ binding. binding.id == id) self.now }
    {
        match self.by_id.get(&id) {
            Some(key) => self.bindings.get(*key),
            None => None,
        }
    }

    /// The binding of the view element with a number: None exactly where it shows no bound element. It takes no memory.
    pub fn of_number(&self, number: u64) -> Option<&Binding>
        ensures { option_copied result ≡ find (λ binding. binding.number == number) self.now }
    {
        match self.by_number.get(&number) {
            Some(key) => self.bindings.get(*key),
            None => None,
        }
    }

    /// Adds a binding of an element that isn't bound to a view element that shows none. It answers `NoMemory` alone beside Ok, and then
    /// nothing has changed.
    #[tactic(auto, using(crate::proofs::Keyed::no_id, crate::proofs::Keyed::no_number, crate::proofs::Keyed::keys_kept, crate::proofs::Keyed::bound_more))]
    pub fn add(&mut self, binding: Binding) -> Result<(), NoMemory>
        requires id { find (λ other. other.id == binding.id) self.old ≡ None }
        requires number { find (λ other. other.number == binding.number) self.old ≡ None }
        ensures ok { OnOk result (self.new ≡ self.old ++ binding ∷ []) }
        ensures err { OnErr result (self.new ≡ self.old) }
    {
        make_room(&mut self.bindings)?;
        self.by_id.reserve(1)?;
        self.by_number.reserve(1)?;
        let id = binding.id.value();
        let number = binding.number.value();
        let key = place(&mut self.bindings, binding);
        put(&mut self.by_id, id, key);
        put(&mut self.by_number, number, key);
        Ok(())
    }
}

/// Puts a number that a table doesn't have in it, where there is room. It takes no memory.
#[tactic(auto, using(crate::proofs::Keyed::put_last))]
fn put(table: &mut IndexMap<u64, usize>, number: u64, key: usize)
    requires room { 0 < spare table.old }
    requires new { get nat_eq table.old number ≡ None }
    ensures { table.new.entries ≡ table.old.entries ++ (number, key) ∷ [] }
{
    match table.insert(number, key) {
        Ok(_) => {}
        Err(_) => unreachable!(),
    }
}

/// Puts a binding at a key that has none, where there is room. It takes no memory.
fn place(bindings: &mut Slab<Binding>, binding: Binding) -> usize
    requires room { HasRoomFor bindings.old 1 }
    ensures vacant { binding_at bindings.old.slots result ≡ None }
    ensures placed { binding_at bindings.new.slots result ≡ Some binding }
    ensures others { (other : ℕ) → other ≢ result → binding_at bindings.new.slots other ≡ binding_at bindings.old.slots other }
{
    bindings.insert_reserved(binding)
}

/// Makes room for one binding more. It answers `NoMemory` alone beside Ok.
fn make_room(bindings: &mut Slab<Binding>) -> Result<(), NoMemory>
    ensures same { bindings.new.slots ≡ bindings.old.slots }
    ensures room { OnOk result (HasRoomFor bindings.new 1) }
{
    bindings.reserve(1)
}
