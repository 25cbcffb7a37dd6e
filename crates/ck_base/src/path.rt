ghost use Rattle.std.specs.Prelude.{◌≡◌, ◌↔◌, ◌<◌, ◌≤◌, ℕ, [], ◌∷◌, ◌++◌, length, IsTrue, IfSome, IsNone};

use smallvec::SmallVec;
use std::alloc::Global;
use std::marker::Model;

/// The most numbers that a path may have: 64 levels of items, and an offset.
pub const MOST_STEPS: usize = 65;

/// A list of at most 65 offsets, which leads from the root to an item or a position. It never takes memory.
#[derive(Debug, Drop)]
pub struct Path {
    numbers: SmallVec<u32, 65>,
}

impl Model for Path {
    ghost use Rattle.std.specs.Prelude.{◌≡◌, ◌≤◌, ℕ, List, length};

    ghost Value = { List ℕ };

    ghost view = { λ path. path.numbers.items };

    ghost invariant = { λ path. (length path.numbers.items ≤ 65) × (path.numbers.capacity ≡ 65) };
}

impl Path {
    /// The empty path, which leads to the root.
    pub fn new(alloc: Global) -> Path
        ensures { result ≡ [] }
    {
        Path {
            numbers: SmallVec::new(alloc),
        }
    }

    /// The path of these numbers: None exactly where there are more than 65.
    pub fn from_slice(alloc: Global, numbers: &[u32]) -> Option<Path>
        ensures path { IfSome result (λ path. path ≡ numbers.now) }
        ensures too_long { IsNone result ↔ (65 < length numbers.now) }
    {
        if numbers.len() > MOST_STEPS {
            return None;
        }
        match SmallVec::from_slice(alloc, numbers) {
            Ok(numbers) => Some(Path { numbers }),
            Err(_) => unreachable!(),
        }
    }

    /// The same path.
    pub fn copy(&self) -> Path
        ensures { result ≡ self.now }
    {
        match SmallVec::from_slice(*self.numbers.allocator(), self.numbers.as_slice()) {
            Ok(numbers) => Path { numbers },
            Err(_) => unreachable!(),
        }
    }

    /// Its numbers, in order.
    pub fn as_slice(&self) -> &[u32]
        ensures numbers { result.now ≡ self.now }
        ensures short { length result.now ≤ 65 }
    {
        self.numbers.as_slice()
    }

    /// How many numbers it has.
    pub fn len(&self) -> usize
        ensures numbers { result ≡ length self.now }
        ensures short { result ≤ 65 }
    {
        self.numbers.len()
    }

    /// Whether it has no number, as the root's.
    pub fn is_empty(&self) -> bool
        ensures { IsTrue result ↔ (self.now ≡ []) }
    {
        self.numbers.is_empty()
    }

    /// Puts a number behind the others.
    pub fn push(&mut self, number: u32)
        requires { length self.old < 65 }
        ensures { self.new ≡ self.old ++ number ∷ [] }
    {
        self.numbers.push_reserved(number);
    }
}
