//! A table of markers in the order of their names' bytes.
ghost use Rattle.std.specs.Prelude.{◌≡◌, ◌+◌, ◌<◌, slice_get, IfSome, IfNone, All, IfOk, OnOk, OnErr, IsSome, IsTrue, ◌↔◌, false};
ghost use Rattle.ck_base.specs.Entries.{IsOrdered, value_of, with_value, without};
ghost use Rattle.item_definitions.specs.Shift.{IsShift, carry_range};
ghost use Rattle.document_definitions.specs.Markers.{carried};
ghost use Rattle.model_pos.specs.Shifts.{shift_of};
ghost use Rattle.indexmap.specs.IndexMap.{set_value_at};
ghost use Rattle.std.specs.Map.{values_of};
ghost use Rattle.document_definitions.specs.Sound.{IsCarried};

use ck_base::NoMemory;
use ck_base::name::Name;
use indexmap::IndexMap;
use model_pos::{Range, Shift, carry_range};

/// Gives a name this range. A refusal changes nothing.
#[tactic(auto, using(crate::proofs::Sorted::sorted_keys, crate::proofs::Sorted::ordered_from, crate::proofs::Sorted::put))]
pub fn put(table: &mut IndexMap<Name, Range>, name: Name, range: Range) -> Result<(), NoMemory>
    requires { IsOrdered table.old.entries }
    ensures ok { OnOk result (table.new.entries ≡ with_value name range table.old.entries) }
    ensures ordered { IsOrdered table.new.entries }
    ensures err { OnErr result (table.new.entries ≡ table.old.entries) }
{
    table.insert_sorted(name, range)?;
    Ok(())
}

/// Gives a name that is there another range, and answers whether it is there. If it isn't, nothing has changed.
#[tactic(auto, using(crate::proofs::Sorted::looked_up, crate::proofs::Sorted::written, ck_base::proofs::Ordered::ordered_with_value))]
pub fn write(table: &mut IndexMap<Name, Range>, name: &Name, range: Range) -> bool
    requires { IsOrdered table.old.entries }
    ensures there { IsTrue result ↔ IsSome (value_of name.now table.old.entries) }
    ensures written { IsTrue result → table.new.entries ≡ with_value name.now range table.old.entries }
    ensures absent { result ≡ false → table.new.entries ≡ table.old.entries }
    ensures ordered { IsOrdered table.new.entries }
{
    match table.get_mut(name) {
        Some(old) => {
            *old = range;
            true
        }
        None => false,
    }
}

/// Takes a name out, and answers the range that it had. If it isn't there, nothing has changed.
#[tactic(auto, using(crate::proofs::Sorted::looked_up, crate::proofs::Sorted::taken, ck_base::proofs::Ordered::ordered_without))]
pub fn take(table: &mut IndexMap<Name, Range>, name: &Name) -> Option<Range>
    requires { IsOrdered table.old.entries }
    ensures range { result ≡ value_of name.now table.old.entries }
    ensures table { table.new.entries ≡ without name.now table.old.entries }
    ensures absent { IfNone result (table.new.entries ≡ table.old.entries) }
    ensures ordered { IsOrdered table.new.entries }
{
    table.shift_remove(name)
}

/// Takes each range to where it goes when the tree changes.
#[tactic(auto, using(crate::proofs::Carrying::all_carried, crate::proofs::Carrying::still_carried, document_definitions::proofs::Soundness::carried_ordered))]
pub fn carry(table: &mut IndexMap<Name, Range>, shift: &Shift)
    requires ordered { IsOrdered table.old.entries }
    requires shift { IsShift (shift_of shift.now) }
    requires limits { All (λ marker. IsCarried (shift_of shift.now) marker.1) table.old.entries }
    ensures carried { table.new.entries ≡ carried (shift_of shift.now) table.old.entries }
    ensures ordered { IsOrdered table.new.entries }
{
    for index in 0..table.len() {
        carry_at(table, index, shift);
    }
}

/// Takes the range at an index to where it goes.
fn carry_at(table: &mut IndexMap<Name, Range>, index: usize, shift: &Shift)
    requires shift { IsShift (shift_of shift.now) }
    requires limits { IfSome (slice_get (values_of table.old.entries) index) (IsCarried (shift_of shift.now)) }
    ensures { IfSome (slice_get (values_of table.old.entries) index)
        (λ range. table.new.entries ≡ set_value_at table.old.entries index (carry_range (shift_of shift.now) range)) }
{
    if let Some(range) = table.get_index_mut(index) {
        carry_one(range, shift);
    }
}

/// Takes a range to where it goes.
fn carry_one(range: &mut Range, shift: &Shift)
    requires shift { IsShift (shift_of shift.now) }
    requires limits { IsCarried (shift_of shift.now) range.old }
    ensures { range.new ≡ carry_range (shift_of shift.now) range.old }
{
    *range = carry_range(range, shift);
}

/// A copy of a table.
#[tactic(auto, using(document_definitions::proofs::Copies::next_copied))]
pub fn copied(table: &IndexMap<Name, Range>) -> Result<IndexMap<Name, Range>, NoMemory>
    requires { IsOrdered table.now.entries }
    ensures { IfOk result (λ copy. copy.entries ≡ table.now.entries) }
{
    let mut copy = IndexMap::new(*table.allocator());
    for (name, range) in table {
        put(&mut copy, name.copy()?, range.copy())?;
    }
    Ok(copy)
}
