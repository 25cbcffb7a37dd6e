//! How large a list of items is.
ghost use Rattle.std.specs.Prelude.{◌≡◌, ◌+◌, ◌-◌, ◌^◌, min, max, []};
ghost use Rattle.model_tree.specs.Sizes.{AreSizes};

/// How many items a list has, how many there are at all depths, and the depth of the deepest. A number that is larger than its type holds
/// is the greatest one of the type.
#[derive(Clone, Copy, Debug)]
pub struct Sizes {
    pub long: u64,
    pub count: u64,
    pub depth: u32,
}

impl Sizes {
    /// The sizes of the empty list.
    pub fn none() -> Sizes
        ensures { AreSizes [] result.long result.count result.depth }
    {
        Sizes {
            long: 0,
            count: 0,
            depth: 0,
        }
    }

    /// The sizes of a list with another one behind it.
    pub fn plus(self, next: Sizes) -> Sizes
        ensures long { result.long ≡ min (self.long + next.long) (2 ^ 64 - 1) }
        ensures count { result.count ≡ min (self.count + next.count) (2 ^ 64 - 1) }
        ensures depth { result.depth ≡ max self.depth next.depth }
    {
        let depth = if self.depth < next.depth {
            next.depth
        } else {
            self.depth
        };
        Sizes {
            long: self.long.saturating_add(next.long),
            count: self.count.saturating_add(next.count),
            depth,
        }
    }
}
