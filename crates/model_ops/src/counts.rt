//! A tree as it tells how many items its elements have.
ghost use Rattle.std.specs.Prelude.{◌≡◌};
ghost use Rattle.item_definitions.specs.Children.{child_count};

use ck_base::path::Path;
use model_pos::Counts;
use model_tree::tree::Tree;

/// A tree as it tells how many items its elements have.
#[derive(Clone, Copy, Debug)]
pub struct TreeCounts<'a>(pub &'a Tree);

impl Counts for TreeCounts<'_> {
    ghost counts = { λ tree path. child_count tree.0.now path };

    fn child_count(&self, parent: &Path) -> Option<u32> {
        self.0.child_count(parent)
    }
}
