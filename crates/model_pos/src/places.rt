//! Positions and ranges. (After `Position` and `Range` of CKEditor 5's model.)
ghost use Rattle.std.specs.Prelude.{◌≡◌, ◌↔◌, ◌<◌, ◌≤◌, ◌+◌, ℕ, [], ◌∷◌, ◌++◌, length, IsTrue, IfSome, IsNone};
ghost use Rattle.item_definitions.specs.Children.{parent_of, offset_of};
ghost use Rattle.item_definitions.specs.Position.{Range as Ends, between, position_cmp, not_after, IsFlat};

use ck_base::path::Path;
use std::alloc::Global;
use std::cmp::Ordering;
use std::marker::Model;

/// A place between items: a path that isn't empty, whose last number is an offset in the parent that the others lead to. It takes no
/// memory. It is seen as the list of its numbers.
#[derive(Debug, Drop)]
pub struct Position {
    path: Path,
    alloc: Global,
}

impl Model for Position {
    ghost use Rattle.std.specs.Prelude.{ℕ, List, ◌<◌, length};

    ghost Value = { List ℕ };

    ghost view = { λ position. position.path };

    ghost invariant = { λ position. 0 < length position.path };
}

impl Position {
    /// The position of a path: None exactly where the path is empty.
    pub fn new(alloc: Global, path: Path) -> Option<Position>
        ensures position { IfSome result (λ position. position ≡ path) }
        ensures empty { IsNone result ↔ (path ≡ []) }
    {
        if path.is_empty() {
            None
        } else {
            Some(Position { path, alloc })
        }
    }

    /// The same position.
    pub fn copy(&self) -> Position
        ensures { result ≡ self.now }
    {
        Position {
            path: self.path.copy(),
            alloc: self.alloc,
        }
    }

    /// Its path, with the offset as the last number.
    pub fn path(&self) -> &Path
        ensures { result.now ≡ self.now }
    {
        &self.path
    }

    /// Its numbers, with the offset as the last one.
    pub fn as_slice(&self) -> &[u32]
        ensures numbers { result.now ≡ self.now }
        ensures some { 0 < length result.now }
        ensures short { length result.now ≤ 65 }
    {
        self.path.as_slice()
    }

    /// The numbers of its parent's path, and its offset there.
    #[tactic(auto, using(item_definitions::proofs::Paths::paths))]
    pub fn split(&self) -> (&[u32], u32)
        ensures parent { result.0.now ≡ parent_of self.now }
        ensures offset { result.1 ≡ offset_of self.now }
        ensures whole { self.now ≡ result.0.now ++ result.1 ∷ [] }
        ensures short { length result.0.now ≤ 64 }
    {
        match self.as_slice().split_last() {
            Some((offset, parent)) => (parent, *offset),
            None => unreachable!(),
        }
    }

    /// Its offset in its parent.
    pub fn offset(&self) -> u32
        ensures { result ≡ offset_of self.now }
    {
        self.split().1
    }

    /// Its parent's path.
    pub fn parent(&self) -> Path
        ensures parent { result ≡ parent_of self.now }
        ensures short { length result ≤ 64 }
    {
        match Path::from_slice(self.alloc, self.split().0) {
            Some(parent) => parent,
            None => unreachable!(),
        }
    }
}

/// Document order: number by number, a proper prefix first. So the position before an element comes before all positions in it. It
/// takes no memory.
pub fn order(first: &Position, second: &Position) -> Ordering
    ensures { result ≡ position_cmp first.now second.now }
{
    first.as_slice().cmp(second.as_slice())
}

/// From a start to an end that does not come before it. It takes no memory.
#[derive(Debug, Drop)]
pub struct Range {
    start: Position,
    end: Position,
}

impl Model for Range {
    ghost use Rattle.std.specs.Prelude.{IsTrue};
    ghost use Rattle.item_definitions.specs.Position.{Range as Ends, between, not_after};

    ghost Value = { Ends };

    ghost view = { λ range. between range.start range.end };

    ghost invariant = { λ range. IsTrue (not_after range.start range.end) };
}

impl Range {
    /// The range between two positions.
    pub fn new(start: Position, end: Position) -> Range
        requires { IsTrue (not_after start end) }
        ensures { result ≡ between start end }
    {
        Range { start, end }
    }

    /// The range that starts and ends at a position.
    #[tactic(auto, using(item_definitions::proofs::Order::itself))]
    pub fn collapsed(at: Position) -> Range
        ensures { result ≡ between at at }
    {
        let start = at.copy();
        Range { start, end: at }
    }

    /// The same range.
    pub fn copy(&self) -> Range
        ensures { result ≡ self.now }
    {
        Range {
            start: self.start.copy(),
            end: self.end.copy(),
        }
    }

    /// Where it starts.
    pub fn start(&self) -> &Position
        ensures start { result.now ≡ self.now.start }
        ensures ordered { IsTrue (not_after self.now.start self.now.end) }
    {
        &self.start
    }

    /// Where it ends.
    pub fn end(&self) -> &Position
        ensures { result.now ≡ self.now.end }
    {
        &self.end
    }

    /// Whether it starts where it ends.
    pub fn is_collapsed(&self) -> bool
        ensures { IsTrue result ↔ (self.now.start ≡ self.now.end) }
    {
        self.start.as_slice() == self.end.as_slice()
    }
}

/// Whether both ends have one parent. It takes no memory.
pub fn is_flat(range: &Range) -> bool
    ensures { IsTrue result ↔ IsFlat range.now }
{
    range.start().split().0 == range.end().split().0
}

impl Position {
    /// The position of these numbers, one after the other.
    pub(crate) fn with_numbers(&self, parent: &[u32], numbers: &[u32], path: &[u32]) -> Position
        requires some { 0 < length numbers.now }
        requires short { length (parent.now ++ (numbers.now ++ path.now)) ≤ 65 }
        ensures { result ≡ parent.now ++ (numbers.now ++ path.now) }
    {
        let mut joined = Path::new(self.alloc);
        push_all(&mut joined, parent);
        push_all(&mut joined, numbers);
        push_all(&mut joined, path);
        Position {
            path: joined,
            alloc: self.alloc,
        }
    }
}

/// Puts numbers behind those of a path.
fn push_all(path: &mut Path, numbers: &[u32])
    requires { length path.old + length numbers.now ≤ 65 }
    ensures { path.new ≡ path.old ++ numbers.now }
{
    for number in numbers {
        path.push(*number);
    }
}
