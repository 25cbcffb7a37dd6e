//! Moving a run of items.
ghost use Rattle.std.specs.Prelude.{◌≡◌, [], ◌∷◌, ◌++◌, is_some, IfOk, OnOk};
ghost use Rattle.item_definitions.specs.Shift.{carry_remove, rest_behind};
ghost use Rattle.operation_definitions.specs.After.{room_at};
ghost use Rattle.model_tree.specs.Places.{Gives};
ghost use Rattle.model_tree.specs.Limits.{moved};

use crate::fault::TreeFault;
use crate::items::Items;
use ck_base::NoMemory;
use std::alloc::Global;

/// Whether a path begins with another one.
fn is_below(path: &[u32], parent: &[u32]) -> bool
    ensures { result ≡ is_some (rest_behind parent.now path.now) }
{
    match (parent.split_first(), path.split_first()) {
        (None, _) => true,
        (Some((step, parent)), Some((index, rest))) => { *step == *index && is_below(rest, parent) }
        _ => false,
    }
}

/// Where a position is once `count` items behind an offset in the element at a path are gone.
fn carried(path: &mut Vec<u32>, parent: &[u32], offset: u32, count: u32) -> Result<(), NoMemory>
    ensures { OnOk result (path.new.items ≡ carry_remove (parent.now ++ offset ∷ []) count path.old.items) }
{
    let at = parent.len();
    if !is_below(path.as_slice(), parent) {
        return Ok(());
    }
    if path.len() <= at {
        return Ok(());
    }
    let number = path[at];
    if number as u64 >= offset as u64 + count as u64 {
        path[at] = number - count;
    } else if number >= offset {
        path.truncate(at);
        path.push(offset)?;
    }
    Ok(())
}

impl Items {
    /// Whether a position is there.
    #[tactic(auto, using(crate::proofs::Removed::place_there, crate::proofs::Removed::place_nowhere, crate::proofs::Removed::place_short))]
    fn has_place(&self, parent: &[u32], offset: u32) -> bool
        ensures { result ≡ is_some (room_at self.now (parent.now ++ offset ∷ [])) }
    {
        match self.list_at(parent) {
            Some(level) => level.has_run(offset, 0),
            None => false,
        }
    }

    /// The list with a run moved to a position.
    #[tactic(auto, using(crate::proofs::Moving::no_target))]
    pub fn moved(
        &self,
        parent: &[u32],
        offset: u32,
        count: u32,
        to: &[u32],
        to_offset: u32,
    ) -> Result<Items, TreeFault>
        ensures { Gives (moved (parent.now ++ offset ∷ []) count (to.now ++ to_offset ∷ []) self.now) result }
    {
        if !self.has_place(to, to_offset) {
            return Err(TreeFault::NoPlace);
        }
        let (rest, run) = match self.take_out_at(parent, offset, count) {
            Ok(both) => both,
            Err(fault) => return Err(fault),
        };
        let Ok(target) = target_of(self.allocator(), parent, offset, count, to, to_offset) else {
            return Err(TreeFault::NoMemory);
        };
        let Some((at, path)) = target.as_slice().split_last() else {
            unreachable!();
        };
        rest.put_in_at(path, *at, &run)
    }
}

/// The position of a move's target once the run is gone.
fn target_of(
    alloc: Global,
    parent: &[u32],
    offset: u32,
    count: u32,
    to: &[u32],
    to_offset: u32,
) -> Result<Vec<u32>, NoMemory>
    ensures { IfOk result (λ target. target.items ≡ carry_remove (parent.now ++ offset ∷ []) count (to.now ++ to_offset ∷ [])) }
{
    let mut target = Vec::from_slice(alloc, to)?;
    target.push(to_offset)?;
    carried(&mut target, parent, offset, count)?;
    Ok(target)
}
