//! The minimal flat ranges of a range. (After `Range.getMinimalFlatRanges` of CKEditor 5's model.)
ghost use Rattle.std.specs.Prelude.{◌≡◌, ◌<◌, ◌≤◌, ◌+◌, ℕ, List, [], ◌∷◌, ◌++◌, map, length, Option, OnOk, IfOk};
ghost use Rattle.item_definitions.specs.FlatParts as meant;
ghost use Rattle.item_definitions.specs.FlatParts.{run, next_offset, parts_behind, parts_before, parts_between};
ghost use Rattle.model_pos.specs.Below.{below, counts_below};

use crate::places::{Position, Range};
use ck_base::NoMemory;
use ck_base::path::Path;
use std::alloc::Global;

/// A tree that tells how many items an element has.
pub trait Counts {
    ghost counts: { Self → List ℕ → Option ℕ };

    /// The number of items in the element at a path: None exactly where no element stands there. The empty path is the root's.
    fn child_count(&self, parent: &Path) -> Option<u32>
        ensures { result ≡ counts self.now parent.now };
}

/// The minimal flat ranges of a range that is in the tree, in document order, empty ones left out. They have exactly the items of the
/// range, and no fewer flat ranges have these. It answers `NoMemory` alone beside Ok.
pub fn flat_parts<C: Counts>(alloc: Global, range: &Range, tree: &C) -> Result<Vec<Range>, NoMemory>
    ensures { IfOk result (λ parts. parts.items ≡ meant.flat_parts (C.counts tree.now) range.now) }
{
    let mut parts = Vec::new(alloc);
    let root = Path::new(alloc);
    push_between(
        alloc,
        &mut parts,
        tree,
        &root,
        range.start().as_slice(),
        range.end().as_slice(),
    )?;
    Ok(parts)
}

/// The path of the item at an index in the element at a path.
fn child(above: &Path, index: u32) -> Path
    requires { length above.now < 65 }
    ensures { result ≡ above.now ++ index ∷ [] }
{
    let mut path = above.copy();
    path.push(index);
    path
}

/// The position at an offset in the element at a path.
fn place(alloc: Global, above: &Path, offset: u32) -> Position
    requires { length above.now < 65 }
    ensures { result ≡ above.now ++ offset ∷ [] }
{
    match Position::new(alloc, child(above, offset)) {
        Some(position) => position,
        None => unreachable!(),
    }
}

/// Adds the range from one offset to another in the element at a path, if there is anything between them.
fn push_run(
    alloc: Global,
    parts: &mut Vec<Range>,
    above: &Path,
    from: u32,
    to: u32,
) -> Result<(), NoMemory>
    requires { length above.now < 65 }
    ensures { OnOk result (parts.new.items ≡ parts.old.items ++ map (below above.now) (run from to)) }
{
    if from < to {
        parts.push(Range::new(place(alloc, above, from), place(alloc, above, to)))?;
    }
    Ok(())
}

/// Adds the range from the first offset that is wholly behind a position, which begins with the index and goes on by the path.
fn push_rest(
    alloc: Global,
    parts: &mut Vec<Range>,
    above: &Path,
    index: u32,
    path: &[u32],
    to: u32,
) -> Result<(), NoMemory>
    requires { length above.now < 65 }
    ensures { OnOk result (parts.new.items ≡ parts.old.items ++ map (below above.now) (run (next_offset index path.now) to)) }
{
    if path.is_empty() {
        return push_run(alloc, parts, above, index, to);
    }
    if index < to {
        return push_run(alloc, parts, above, index + 1, to);
    }
    Ok(())
}

/// Adds what stands behind a position in the element at a path, the innermost parent first.
fn push_behind<C: Counts>(
    alloc: Global,
    parts: &mut Vec<Range>,
    tree: &C,
    above: &Path,
    path: &[u32],
) -> Result<(), NoMemory>
    requires { length above.now + length path.now ≤ 65 }
    ensures { OnOk result (parts.new.items ≡ parts.old.items ++ map (below above.now) (parts_behind (counts_below above.now (C.counts tree.now)) path.now)) }
{
    let Some((index, rest)) = path.split_first() else {
        return Ok(());
    };
    push_behind(alloc, parts, tree, &child(above, *index), rest)?;
    let count = tree.child_count(above).unwrap_or(0);
    push_rest(alloc, parts, above, *index, rest, count)
}

/// Adds what stands before a position in the element at a path, the outermost parent first.
fn push_before(
    alloc: Global,
    parts: &mut Vec<Range>,
    above: &Path,
    path: &[u32],
) -> Result<(), NoMemory>
    requires { length above.now + length path.now ≤ 65 }
    ensures { OnOk result (parts.new.items ≡ parts.old.items ++ map (below above.now) (parts_before path.now)) }
{
    let Some((index, rest)) = path.split_first() else {
        return Ok(());
    };
    push_run(alloc, parts, above, 0, *index)?;
    push_before(alloc, parts, &child(above, *index), rest)
}

/// Adds what stands between two positions in the element at a path.
fn push_between<C: Counts>(
    alloc: Global,
    parts: &mut Vec<Range>,
    tree: &C,
    above: &Path,
    start: &[u32],
    end: &[u32],
) -> Result<(), NoMemory>
    requires start { length above.now + length start.now ≤ 65 }
    requires end { length above.now + length end.now ≤ 65 }
    ensures { OnOk result (parts.new.items
        ≡ parts.old.items ++ map (below above.now) (parts_between (counts_below above.now (C.counts tree.now)) start.now end.now)) }
{
    let Some((index, path)) = start.split_first() else {
        return push_before(alloc, parts, above, end);
    };
    let Some((last, rest)) = end.split_first() else {
        return Ok(());
    };
    if *index == *last {
        return push_between(alloc, parts, tree, &child(above, *index), path, rest);
    }
    push_apart(alloc, parts, tree, above, *index, path, *last, rest)
}

/// Adds what stands between two positions in the element at a path that begin with different numbers.
fn push_apart<C: Counts>(
    alloc: Global,
    parts: &mut Vec<Range>,
    tree: &C,
    above: &Path,
    index: u32,
    path: &[u32],
    last: u32,
    rest: &[u32],
) -> Result<(), NoMemory>
    requires start { length above.now + (1 + length path.now) ≤ 65 }
    requires end { length above.now + (1 + length rest.now) ≤ 65 }
    ensures { OnOk result (parts.new.items ≡ parts.old.items
        ++ map (below above.now) (map (meant.under index) (parts_behind (meant.counts_under index (counts_below above.now (C.counts tree.now))) path.now)
        ++ (run (next_offset index path.now) last ++ map (meant.under last) (parts_before rest.now)))) }
{
    push_behind(alloc, parts, tree, &child(above, index), path)?;
    push_rest(alloc, parts, above, index, path, last)?;
    push_before(alloc, parts, &child(above, last), rest)
}
