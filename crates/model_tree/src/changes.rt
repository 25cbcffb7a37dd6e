//! Changes of the items of the element at a path, each as a new list.
ghost use Rattle.std.specs.Prelude.{◌≡◌, ◌<◌, ◌+◌, [], ◌∷◌, option_copied, option_map, IsSome};
ghost use Rattle.operation_definitions.specs.After.{shell_of};
ghost use Rattle.item_definitions.specs.Children.{at};
ghost use Rattle.operation_definitions.specs.Level.{put_in, take_out, give, rename_at, split_at, merge_at};
ghost use Rattle.model_tree.specs.Places.{Gives, element_of};
ghost use Rattle.model_tree.specs.Limits.{changed, merged, renamed_at, split_path, split_with};

use crate::fault::TreeFault;
use crate::items::Items;
use crate::text::Head;
use ck_base::name::Name;
use ck_base::value::Value;

impl Items {
    /// The list with items put in at an offset in the element at a path.
    #[tactic(auto, using(crate::proofs::Puts::put_in_gives))]
    pub fn put_in_at(&self, path: &[u32], offset: u32, new: &Items) -> Result<Items, TreeFault>
        ensures { Gives (changed (at path.now (put_in offset new.now) self.now)) result }
    {
        self.replaced_at(path, offset, 0, new)
    }

    /// The list without the `count` items behind an offset in the element at a path, and these items.
    #[tactic(auto, using(crate::proofs::Puts::out_nowhere, crate::proofs::Puts::out_short, crate::proofs::Puts::out_there, crate::proofs::Puts::out_made, crate::proofs::Puts::out_fault))]
    pub fn take_out_at(
        &self,
        path: &[u32],
        offset: u32,
        count: u32,
    ) -> Result<(Items, Items), TreeFault>
        ensures { Gives (at path.now (take_out offset count) self.now) result }
    {
        let Some(level) = self.list_at(path) else {
            return Err(TreeFault::NoPlace);
        };
        if !level.has_run(offset, count) {
            return Err(TreeFault::NoPlace);
        }
        let Ok(run) = level.range(offset as usize, count as usize) else {
            return Err(TreeFault::NoMemory);
        };
        let Ok(none) = Items::new(self.allocator()) else {
            return Err(TreeFault::NoMemory);
        };
        match self.replaced_at(path, offset, count, &none) {
            Ok(rest) => Ok((rest, run)),
            Err(fault) => Err(fault),
        }
    }

    /// The list with a value of a key, or without one, on each of the `count` items behind an offset in the element at a path.
    #[tactic(auto, using(crate::proofs::Keys::give_nowhere, crate::proofs::Keys::give_short, crate::proofs::Keys::give_there, crate::proofs::Keys::give_gives))]
    pub fn give_at(
        &self,
        path: &[u32],
        offset: u32,
        count: u32,
        key: &Name,
        value: Option<&Value>,
    ) -> Result<Items, TreeFault>
        ensures { Gives (changed (at path.now (give offset count key.now (option_copied value.entry)) self.now)) result }
    {
        let Some(level) = self.list_at(path) else {
            return Err(TreeFault::NoPlace);
        };
        if !level.has_run(offset, count) {
            return Err(TreeFault::NoPlace);
        }
        let Ok(run) = level.range(offset as usize, count as usize) else {
            return Err(TreeFault::NoMemory);
        };
        let Ok(new) = run.given(key, value) else {
            return Err(TreeFault::NoMemory);
        };
        self.replaced_at(path, offset, count, &new)
    }

    /// The list with this name of the element at an offset in the element at a path.
    #[tactic(auto, using(crate::proofs::Names::rename_nowhere, crate::proofs::Names::rename_no_element, crate::proofs::Names::rename_there, crate::proofs::Names::rename_gives))]
    pub(crate) fn rename_at(
        &self,
        path: &[u32],
        offset: u32,
        name: &Name,
    ) -> Result<Items, TreeFault>
        ensures { Gives (changed (at path.now (rename_at offset name.now) self.now)) result }
    {
        let Some(level) = self.list_at(path) else {
            return Err(TreeFault::NoPlace);
        };
        let Some(element) = level.element_at(offset as usize) else {
            return Err(TreeFault::NoPlace);
        };
        let Ok(new) = element.renamed(name) else {
            return Err(TreeFault::NoMemory);
        };
        self.replaced_at(path, offset, 1, &new)
    }

    /// The list with this name of the element at a path. It answers `NoPlace` for the empty path.
    #[tactic(auto, using(crate::proofs::Names::renamed_last))]
    pub fn renamed_at(&self, path: &[u32], name: &Name) -> Result<Items, TreeFault>
        ensures { Gives (changed (renamed_at path.now name.now self.now)) result }
    {
        let Some((offset, parent)) = path.split_last() else {
            return Err(TreeFault::NoPlace);
        };
        self.rename_at(parent, *offset, name)
    }

    /// The list with the element at an offset in the element at a path split, with this head for what is behind.
    #[tactic(auto, using(crate::proofs::Halves::split_nowhere, crate::proofs::Halves::split_no_element, crate::proofs::Halves::split_short, crate::proofs::Halves::split_there, crate::proofs::Halves::split_gives))]
    fn split_at(
        &self,
        path: &[u32],
        index: u32,
        offset: u32,
        shell: &Head,
    ) -> Result<Items, TreeFault>
        ensures { Gives (changed (at path.now (split_at index offset (λ _. element_of shell.now [])) self.now)) result }
    {
        let Some(level) = self.list_at(path) else {
            return Err(TreeFault::NoPlace);
        };
        let Some(element) = level.element_at(index as usize) else {
            return Err(TreeFault::NoPlace);
        };
        let long = element.children.len();
        if long < offset as u64 {
            return Err(TreeFault::NoPlace);
        }
        let Ok(new) = element.split(offset, shell) else {
            return Err(TreeFault::NoMemory);
        };
        self.replaced_at(path, index, 1, &new)
    }

    /// The list with the element at a path split. It answers `NoPlace` for the empty path.
    #[tactic(auto, using(crate::proofs::Halves::split_last))]
    pub(crate) fn split_path(
        &self,
        path: &[u32],
        offset: u32,
        shell: &Head,
    ) -> Result<Items, TreeFault>
        ensures { Gives (changed (split_path path.now offset (element_of shell.now []) self.now)) result }
    {
        let Some((index, parent)) = path.split_last() else {
            return Err(TreeFault::NoPlace);
        };
        self.split_at(parent, *index, offset, shell)
    }

    /// The list with the element at a path split, with the one element that a list is for what is behind.
    #[tactic(auto, using(crate::proofs::Halves::shell_there, crate::proofs::Halves::with_shell))]
    pub fn split_with(&self, path: &[u32], offset: u32, shell: &Items) -> Result<Items, TreeFault>
        requires { IsSome (shell_of shell.now) }
        ensures { Gives (changed (split_with path.now offset shell.now self.now)) result }
    {
        let Some(one) = shell.element_at(0) else {
            unreachable!();
        };
        self.split_path(path, offset, one.head)
    }

    /// The list with the element at an offset behind another one merged into that, and the element without its items.
    #[tactic(auto, using(crate::proofs::Merges::merge_nowhere, crate::proofs::Merges::merge_no_left, crate::proofs::Merges::merge_no_right, crate::proofs::Merges::merge_there, crate::proofs::Merges::merge_made, crate::proofs::Merges::merge_fault))]
    fn merge_at(&self, path: &[u32], index: u32) -> Result<(Items, Items), TreeFault>
        requires { 0 < index }
        ensures { Gives (option_map (λ made. (made.0, made.1.0 ∷ [])) (at path.now (merge_at index) self.now)) result }
    {
        let Some(level) = self.list_at(path) else {
            return Err(TreeFault::NoPlace);
        };
        let Some(left) = level.element_at((index - 1) as usize) else {
            return Err(TreeFault::NoPlace);
        };
        let Some(right) = level.element_at(index as usize) else {
            return Err(TreeFault::NoPlace);
        };
        let Ok(one) = left.joined(right) else {
            return Err(TreeFault::NoMemory);
        };
        let Ok(emptied) = right.emptied() else {
            return Err(TreeFault::NoMemory);
        };
        match self.replaced_at(path, index - 1, 2, &one) {
            Ok(rest) => Ok((rest, emptied)),
            Err(fault) => Err(fault),
        }
    }

    /// The list with the element at a path merged into the one before it, and the element without its items.
    #[tactic(auto, using(crate::proofs::Merges::merged_root, crate::proofs::Merges::merged_first, crate::proofs::Merges::merged_last))]
    pub fn merged_at(&self, path: &[u32]) -> Result<(Items, Items), TreeFault>
        ensures { Gives (merged path.now self.now) result }
    {
        let Some((index, parent)) = path.split_last() else {
            return Err(TreeFault::NoPlace);
        };
        if *index == 0 {
            return Err(TreeFault::NoPlace);
        }
        self.merge_at(parent, *index)
    }
}
