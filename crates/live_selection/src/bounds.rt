//! The two bounds between which a character is looked for.
ghost use Rattle.std.specs.Prelude.{◌≡◌, ◌<◌, ◌≤◌, ◌+◌, ◌^◌, ℕ, List, [], ◌∷◌, false, true, not, nat_le, nat_lt, option_copied};
ghost use Rattle.item_definitions.specs.Position.{behind, holds, not_after};
ghost use Rattle.live_selection.specs.Within.{any_from, ends_by, is_within, is_within_some, starts_after};

use model_pos::Range;

/// Two positions between which something lies, as an element sees them: the path of that element is left out, and the lower one is empty
/// where all that is in the element lies behind it.
#[derive(Clone, Copy, Debug)]
pub struct Bounds<'a> {
    start: &'a [u32],
    end: Option<&'a [u32]>,
}

/// What the item at an index sees of a lower bound: None exactly where all that is in the item lies before it.
fn start_inside(start: &[u32], index: u32) -> Option<&[u32]>
    ensures { (path : List ℕ) → starts_after (option_copied result) path ≡ not_after start.now (index ∷ path) }
{
    let Some((first, rest)) = start.split_first() else {
        return Some(start);
    };
    if index < *first {
        None
    } else if index == *first {
        Some(rest)
    } else {
        Some(&start[..0])
    }
}

/// What the item at an index sees of an upper bound: None where all that is in the item lies before it, and an empty one where all of it
/// lies behind.
fn end_inside(end: Option<&[u32]>, index: u32) -> Option<&[u32]>
    ensures { (next : ℕ) (rest : List ℕ) → ends_by (option_copied result) (behind (next ∷ rest))
        ≡ ends_by (option_copied end.entry) (index ∷ behind (next ∷ rest)) }
{
    let end = end?;
    let Some((last, rest)) = end.split_first() else {
        return Some(end);
    };
    if index < *last {
        None
    } else if index == *last {
        Some(rest)
    } else {
        Some(&end[..0])
    }
}

/// The first offset that isn't before a lower bound.
fn first_offset(start: &[u32]) -> u64
    ensures { (offset : ℕ) → not_after start.now (offset ∷ []) ≡ nat_le result offset }
{
    match start.split_first() {
        None => 0,
        Some((first, rest)) => match rest.split_first() {
            None => u64::from(*first),
            Some(_) => u64::from(*first) + 1,
        },
    }
}

impl<'a> Bounds<'a> {
    /// The bounds of a range.
    pub fn of(range: &'a Range) -> Bounds<'a>
        ensures { (path : List ℕ) → is_within result path ≡ holds range.now path }
    {
        Bounds {
            start: range.start().as_slice(),
            end: Some(range.end().as_slice()),
        }
    }

    /// What the item at an index sees of them: None where nothing that is in the item lies between them.
    pub fn inside(self, index: u32) -> Option<Bounds<'a>>
        ensures { (next : ℕ) (rest : List ℕ) → is_within_some result (next ∷ rest) ≡ is_within self.entry (index ∷ next ∷ rest) }
    {
        match start_inside(self.start, index) {
            Some(start) => Some(Bounds {
                start,
                end: end_inside(self.end, index),
            }),
            None => None,
        }
    }

    /// Whether the items from an index on, and all that is in them, lie behind them.
    pub fn are_before(self, index: u32) -> bool
        ensures nothing { result ≡ true → (next : ℕ) (rest : List ℕ) → index ≤ next → is_within self.entry (next ∷ rest) ≡ false }
        ensures exact { result ≡ not (ends_by (option_copied self.entry.end) (index ∷ [])) }
    {
        match self.end {
            Some(end) => match end.split_first() {
                Some((last, _)) => *last < index,
                None => true,
            },
            None => false,
        }
    }

    /// Whether the item at an index ends before the upper one.
    fn end_behind(self, index: u64) -> bool
        ensures { result ≡ ends_by (option_copied self.entry.end) ((index + 1) ∷ []) }
    {
        match self.end {
            Some(end) => match end.split_first() {
                Some((last, _)) => index < u64::from(*last),
                None => false,
            },
            None => true,
        }
    }

    /// Whether one of the `count` items from an index on lies between them.
    pub fn have_one(self, index: u32, count: u32) -> bool
        ensures { result ≡ any_from (λ index. is_within self.entry (index ∷ [])) index count }
    {
        let index = u64::from(index);
        let first = first_offset(self.start).max(index);
        first < index + u64::from(count) && self.end_behind(first)
    }
}
