//! The document tree.
ghost use Rattle.std.specs.Prelude.{◌≡◌, ◌↔◌, ◌+◌, ◌<◌, ◌≤◌, ℕ, length, IsTrue, ◌-◌, ◌^◌, min, [], ◌∷◌, ◌++◌, None, Some, OnOk, OnErr, IfOk, IfErr, IfSome};
ghost use Rattle.std.specs.Prelude.{IsSome, IsErrOf, option_map, option_copied};
ghost use Rattle.item_definitions.specs.Item.{count_of, depth_of};
ghost use Rattle.item_definitions.specs.Children.{at, child_count, item_at};
ghost use Rattle.operation_definitions.specs.Level.{put_in, take_out, give};
ghost use Rattle.operation_definitions.specs.After.{shell_of};
ghost use Rattle.model_tree.specs.Reading.{shown_in, shown_of};
ghost use Rattle.model_tree.specs.Limits.{IsTree, StaysTree, changed, merged, moved, renamed_at, split_with};

use crate::fault::{NotPlaced, TreeFault};
use crate::items::Items;
use crate::reading::ItemRef;
use ck_base::NoMemory;
use ck_base::name::Name;
use ck_base::path::Path;
use ck_base::value::Value;
use std::alloc::Global;
use std::marker::Model;

/// The items of the root, whose id is 0 and whose name is `$root`. It is seen as the list of these items. It has fewer than 2^32 items, at
/// most 64 levels deep.
#[derive(Debug, Drop)]
pub struct Tree {
    root: Items,
}

impl Model for Tree {
    ghost use Rattle.std.specs.Prelude.{List};
    ghost use Rattle.item_definitions.specs.Item.{Item};
    ghost use Rattle.item_definitions.specs.ItemCode.{coded_items};
    ghost use Rattle.model_tree.specs.Limits.{IsTree};

    ghost Value = { List Item };

    ghost coded = { coded_items };

    ghost view = { λ tree. tree.root };

    ghost invariant = { λ tree. IsTree tree.root };
}

impl Tree {
    /// An empty root.
    pub fn new(alloc: Global) -> Result<Tree, NoMemory>
        ensures { IfOk result (λ tree. tree ≡ []) }
    {
        let root = Items::new(alloc)?;
        Ok(Tree { root })
    }

    /// The same tree.
    pub fn copy(&self) -> Result<Tree, NoMemory>
        ensures { IfOk result (λ tree. tree ≡ self.now) }
    {
        let root = self.root.copy()?;
        Ok(Tree { root })
    }

    /// The tree of these items.
    pub fn from_items(items: Items) -> Tree
        requires { IsTree items }
        ensures { result ≡ items }
    {
        Tree { root: items }
    }

    /// Its items.
    pub fn items(&self) -> &Items
        ensures items { result.now ≡ self.now }
        ensures limits { IsTree self.now }
    {
        &self.root
    }

    /// How many items there are, at all depths.
    pub fn item_count(&self) -> u64
        ensures { result ≡ count_of self.now }
    {
        self.root.count()
    }

    /// The depth of the deepest item: 1 where no element has items in it, and 0 for an empty root.
    pub fn depth(&self) -> u32
        ensures { result ≡ depth_of self.now }
    {
        self.root.depth()
    }

    /// How many items the element at a path has: None exactly where no element stands there. The empty path stands for the root. It takes
    /// no memory.
    #[tactic(auto, using(crate::proofs::Shown::level_few, crate::proofs::Shown::length_count))]
    pub fn child_count(&self, parent: &Path) -> Option<u32>
        ensures { result ≡ child_count self.now parent.now }
    {
        match self.root.list_at(parent.as_slice()) {
            Some(level) => Some(level.len() as u32),
            None => None,
        }
    }

    /// What the item at a path is: None exactly where none stands there, and for the empty path. It takes no memory.
    #[tactic(auto, using(crate::proofs::Shown::level_few, crate::proofs::Shown::item_last, crate::proofs::Shown::item_nowhere))]
    pub fn item_at(&self, path: &Path) -> Option<ItemRef<'_>>
        ensures { option_map shown_in result ≡ option_map shown_of (item_at path.now self.now) }
    {
        let Some((last, parent)) = path.as_slice().split_last() else {
            return None;
        };
        let Some(level) = self.root.list_at(parent) else {
            return None;
        };
        level.item(*last)
    }

    /// Whether there is room for items in the element at a path: whether there are then fewer than 2^32, at most 64 levels deep.
    #[tactic(auto, using(crate::proofs::Room::put_in_stays))]
    pub fn has_room(&self, parent: &Path, items: &Items) -> bool
        ensures room { IsTrue result ↔ (count_of self.now + count_of items.now < 2 ^ 32) × (length parent.now + depth_of items.now ≤ 64) }
        ensures stays { IsTrue result → (offset : ℕ) → StaysTree (changed (at parent.now (put_in offset items.now) self.now)) }
    {
        let levels = parent.len() as u64 + items.depth() as u64;
        self.root.count().saturating_add(items.count()) < 4_294_967_296 && levels <= 64
    }

    /// Puts items in at an offset in the element at a path; the empty path stands for the root. It answers `NoPlace` exactly where no
    /// element stands there, or the offset is above the number of its items, and `NoMemory`. After both the tree is unchanged, and the
    /// items are handed back.
    pub fn splice_in(&mut self, parent: &Path, offset: u32, items: Items) -> Result<(), NotPlaced>
        requires { StaysTree (changed (at parent.now (put_in offset items) self.old)) }
        ensures ok { OnOk result (changed (at parent.now (put_in offset items) self.old) ≡ Some self.new) }
        ensures no_place { IfErr result (λ refused. refused.fault ≡ TreeFault.NoPlace ↔ at parent.now (put_in offset items) self.old ≡ None) }
        ensures handed_back { IfErr result (λ refused. refused.items ≡ items) }
        ensures err { OnErr result (self.new ≡ self.old) }
    {
        match self.root.put_in_at(parent.as_slice(), offset, &items) {
            Ok(root) => {
                self.root = root;
                Ok(())
            }
            Err(fault) => Err(NotPlaced { fault, items }),
        }
    }

    /// Takes `count` items behind an offset out of the element at a path; the empty path stands for the root. It answers `NoPlace` exactly
    /// where no element stands there, or it has no such items, and `NoMemory`. After both the tree is unchanged.
    #[tactic(auto, using(crate::proofs::Limited::take_out_stays))]
    pub fn splice_out(&mut self, parent: &Path, offset: u32, count: u32) -> Result<Items, TreeFault>
        ensures ok { IfOk result (λ run. at parent.now (take_out offset count) self.old ≡ Some (self.new, run)) }
        ensures no_place { IsErrOf result TreeFault.NoPlace ↔ (at parent.now (take_out offset count) self.old ≡ None) }
        ensures err { OnErr result (self.new ≡ self.old) }
    {
        match self.root.take_out_at(parent.as_slice(), offset, count) {
            Ok((root, run)) => {
                self.root = root;
                Ok(run)
            }
            Err(fault) => Err(fault),
        }
    }

    /// Gives each of the `count` items behind an offset in the element at a path this value of a key, or takes the key away; what is in
    /// them stays as it is. The empty path stands for the root. It answers `NoPlace` exactly where no element stands there, or it has no
    /// such items, and `NoMemory`. After both the tree is unchanged.
    #[tactic(auto, using(crate::proofs::Stays::give_stays))]
    pub fn set_attrs(
        &mut self,
        parent: &Path,
        offset: u32,
        count: u32,
        key: &Name,
        value: Option<&Value>,
    ) -> Result<(), TreeFault>
        ensures ok { OnOk result (changed (at parent.now (give offset count key.now (option_copied value.entry)) self.old) ≡ Some self.new) }
        ensures no_place { IsErrOf result TreeFault.NoPlace ↔ (at parent.now (give offset count key.now (option_copied value.entry)) self.old ≡ None) }
        ensures err { OnErr result (self.new ≡ self.old) }
    {
        match self
            .root
            .give_at(parent.as_slice(), offset, count, key, value)
        {
            Ok(root) => {
                self.root = root;
                Ok(())
            }
            Err(fault) => Err(fault),
        }
    }

    /// Gives the element at a path this name. It answers `NoPlace` exactly where no element stands there or the path is empty, and
    /// `NoMemory`. After both the tree is unchanged.
    #[tactic(auto, using(crate::proofs::Stays::rename_stays))]
    pub fn rename(&mut self, path: &Path, name: Name) -> Result<(), TreeFault>
        ensures ok { OnOk result (changed (renamed_at path.now name self.old) ≡ Some self.new) }
        ensures no_place { IsErrOf result TreeFault.NoPlace ↔ (renamed_at path.now name self.old ≡ None) }
        ensures err { OnErr result (self.new ≡ self.old) }
    {
        match self.root.renamed_at(path.as_slice(), &name) {
            Ok(root) => {
                self.root = root;
                Ok(())
            }
            Err(fault) => Err(fault),
        }
    }

    /// Splits the element at a path: what stands behind the offset in it goes into the shell, one element without children, which then
    /// stands directly behind it. It answers `NoPlace` exactly where no element stands at the path, the path is empty, or the offset is
    /// above the number of its items, and `NoMemory`. After both the tree is unchanged, and the shell is handed back.
    #[tactic(auto, using(crate::proofs::Halves::split_stays))]
    pub fn split_element(&mut self, path: &Path, offset: u32, shell: Items) -> Result<(), NotPlaced>
        requires one { IsSome (shell_of shell) }
        requires few { IfSome (changed (split_with path.now offset shell self.old)) (λ made. count_of made < 2 ^ 32) }
        ensures ok { OnOk result (changed (split_with path.now offset shell self.old) ≡ Some self.new) }
        ensures no_place { IfErr result (λ refused. refused.fault ≡ TreeFault.NoPlace ↔ split_with path.now offset shell self.old ≡ None) }
        ensures handed_back { IfErr result (λ refused. refused.items ≡ shell) }
        ensures err { OnErr result (self.new ≡ self.old) }
    {
        match self.root.split_with(path.as_slice(), offset, &shell) {
            Ok(root) => {
                self.root = root;
                Ok(())
            }
            Err(fault) => Err(NotPlaced {
                fault,
                items: shell,
            }),
        }
    }

    /// Puts the children of the element at a path behind those of the element directly before it, and takes the emptied element out. It
    /// answers `NoPlace` exactly where no element stands at the path, or none directly before it, and `NoMemory`. After both the tree is
    /// unchanged.
    #[tactic(auto, using(crate::proofs::Merges::merge_stays))]
    pub fn merge_elements(&mut self, right: &Path) -> Result<Items, TreeFault>
        ensures ok { IfOk result (λ emptied. merged right.now self.old ≡ Some (self.new, emptied)) }
        ensures no_place { IsErrOf result TreeFault.NoPlace ↔ (merged right.now self.old ≡ None) }
        ensures err { OnErr result (self.new ≡ self.old) }
    {
        match self.root.merged_at(right.as_slice()) {
            Ok((root, emptied)) => {
                self.root = root;
                Ok(emptied)
            }
            Err(fault) => Err(fault),
        }
    }

    /// Moves `count` items behind an offset in the element at a path to an offset in the element at another path. Both places are read
    /// before the move; the empty path stands for the root. A target in the run or at its ends leaves all where it is. It answers
    /// `NoPlace` exactly where the run or the target isn't there, and `NoMemory`. After both the tree is unchanged.
    #[tactic(auto, using(crate::proofs::Moving::move_stays))]
    pub fn move_run(
        &mut self,
        parent: &Path,
        offset: u32,
        count: u32,
        to: &Path,
        to_offset: u32,
    ) -> Result<(), TreeFault>
        requires { IfSome (moved (parent.now ++ offset ∷ []) count (to.now ++ to_offset ∷ []) self.old) (λ made. depth_of made ≤ 64) }
        ensures ok { OnOk result (moved (parent.now ++ offset ∷ []) count (to.now ++ to_offset ∷ []) self.old ≡ Some self.new) }
        ensures no_place { IsErrOf result TreeFault.NoPlace ↔ (moved (parent.now ++ offset ∷ []) count (to.now ++ to_offset ∷ []) self.old ≡ None) }
        ensures err { OnErr result (self.new ≡ self.old) }
    {
        match self
            .root
            .moved(parent.as_slice(), offset, count, to.as_slice(), to_offset)
        {
            Ok(root) => {
                self.root = root;
                Ok(())
            }
            Err(fault) => Err(fault),
        }
    }
}
