//! Which items of a document are tested.
ghost use Rattle.std.specs.Prelude.{◌≡◌, ◌<◌, ◌≤◌, ◌+◌, ◌^◌, ℕ, List, ◌∷◌, [], ◌++◌, true, false, IfOk, map};
ghost use Rattle.std.specs.List.{list_any};
ghost use Rattle.breach_definitions.specs.Spots.{lists_path};
ghost use Rattle.schema_rules.specs.Chosen.{IsBelow, is_chosen, lists_near, lists_narrowed};

use breach_definitions::spot::Spot;
use ck_base::NoMemory;
use std::alloc::Global;

/// What a spot lists, as it is seen from an element: its path leads from there.
#[derive(Clone, Copy, Debug)]
pub enum Near<'a> {
    /// The items from one offset to another in the element at a path.
    Run {
        parent: &'a [u32],
        start: u32,
        end: u32,
    },
    /// The item at a path and all that is in it; with the empty path, all that is in the element.
    Subtree(&'a [u32]),
}

/// The items in an element that are tested: all, or those that spots list.
#[derive(Debug, Drop)]
pub enum Chosen<'a> {
    All,
    Listed(Vec<Near<'a>>),
}

impl<'a> Near<'a> {
    /// What a spot lists, as it is seen from the root.
    fn of(spot: &'a Spot) -> Near<'a>
        ensures { (path : List ℕ) → lists_near result path ≡ lists_path spot.now path }
    {
        match spot {
            Spot::Run { parent, start, end } => Near::Run {
                parent: parent.as_slice(),
                start: *start,
                end: *end,
            },
            Spot::Subtree(outer) => Near::Subtree(outer.as_slice()),
        }
    }

    /// Whether it lists all that is in the element.
    fn is_whole(self) -> bool
        ensures { result ≡ true → (path : List ℕ) → lists_near self.entry path ≡ true }
    {
        match self {
            Near::Run { .. } => false,
            Near::Subtree(outer) => outer.is_empty(),
        }
    }

    /// What it lists inside the item at an index, as it is seen from there: None only where it lists nothing there.
    fn inside(self, index: u32) -> Option<Near<'a>>
        ensures { (next : ℕ) (rest : List ℕ) → lists_narrowed result (next ∷ rest) ≡ lists_near self.entry (index ∷ next ∷ rest) }
    {
        match self {
            Near::Run { parent, start, end } => {
                let (first, parent) = parent.split_first()?;
                if *first == index {
                    Some(Near::Run { parent, start, end })
                } else {
                    None
                }
            }
            Near::Subtree(outer) => {
                let Some((first, outer)) = outer.split_first() else {
                    return Some(self);
                };
                if *first == index {
                    Some(Near::Subtree(outer))
                } else {
                    None
                }
            }
        }
    }

    /// The first item of the element, by its index, that it lists, from one index to below another; that other one where there is none.
    #[tactic(auto, using(crate::proofs::Nearing::past_run, crate::proofs::Nearing::past_subtree, crate::proofs::Nearing::one_subtree))]
    fn first(self, from: u32, to: u32) -> u32
        requires { from ≤ to }
        ensures within { (from ≤ result) × (result ≤ to) }
        ensures before { (index : ℕ) → from ≤ index → index < result → lists_near self.entry (index ∷ []) ≡ false }
        ensures there { result < to → lists_near self.entry (result ∷ []) ≡ true }
    {
        match self {
            Near::Run { parent, start, end } => {
                if !parent.is_empty() {
                    return to;
                }
                let first = start.max(from);
                if first < end && first < to { first } else { to }
            }
            Near::Subtree(outer) => match outer.split_first() {
                None => from,
                Some((index, rest)) => {
                    if rest.is_empty() && from <= *index && *index < to {
                        *index
                    } else {
                        to
                    }
                }
            },
        }
    }
}

/// The first item of an element, by its index, that one of the spots lists, from one index to below another; that other one where there is
/// none.
fn first_listed(nears: &Vec<Near<'_>>, from: u32, to: u32) -> u32
    requires { from ≤ to }
    ensures within { (from ≤ result) × (result ≤ to) }
    ensures before { (index : ℕ) → from ≤ index → index < result → list_any (λ near. lists_near near (index ∷ [])) nears.now.items ≡ false }
    ensures there { result < to → list_any (λ near. lists_near near (result ∷ [])) nears.now.items ≡ true }
{
    let mut first = to;
    for near in nears {
        first = near.first(from, first);
    }
    first
}

/// What the spots list inside the item at an index.
fn inside<'a>(nears: &Vec<Near<'a>>, index: u32) -> Result<Chosen<'a>, NoMemory>
    ensures { IfOk result (λ below. (next : ℕ) (rest : List ℕ) → is_chosen below (next ∷ rest)
        ≡ list_any (λ near. lists_near near (index ∷ next ∷ rest)) nears.now.items) }
{
    let mut inner = Vec::new(*nears.allocator());
    for near in nears {
        if let Some(near) = near.inside(index) {
            if near.is_whole() {
                return Ok(Chosen::All);
            }
            inner.push(near)?;
        }
    }
    Ok(Chosen::Listed(inner))
}

impl<'a> Chosen<'a> {
    /// The items that spots list.
    pub fn listed(alloc: Global, spots: &'a [Spot]) -> Result<Chosen<'a>, NoMemory>
        ensures { IfOk result (λ chosen. (path : List ℕ) → is_chosen chosen path ≡ list_any (λ spot. lists_path spot path) spots.now) }
    {
        let mut nears = Vec::with_capacity(alloc, spots.len())?;
        for spot in spots {
            nears.push(Near::of(spot))?;
        }
        Ok(Chosen::Listed(nears))
    }

    /// Whether it is known that none is tested.
    pub fn is_none(&self) -> bool
        ensures { result ≡ true → (path : List ℕ) → is_chosen self.now path ≡ false }
    {
        match self {
            Chosen::All => false,
            Chosen::Listed(nears) => nears.is_empty(),
        }
    }

    /// The first item of the element, by its index, that is tested, from one index to below another; that other one where there is none.
    pub fn first(&self, from: u32, to: u32) -> u32
        requires { from ≤ to }
        ensures within { (from ≤ result) × (result ≤ to) }
        ensures before { (index : ℕ) → from ≤ index → index < result → is_chosen self.now (index ∷ []) ≡ false }
        ensures there { result < to → is_chosen self.now (result ∷ []) ≡ true }
    {
        match self {
            Chosen::All => from,
            Chosen::Listed(nears) => first_listed(nears, from, to),
        }
    }

    /// Whether the item of the element at an index is tested.
    pub fn has(&self, index: u32) -> bool
        requires { index + 1 < 2 ^ 32 }
        ensures { result ≡ is_chosen self.now (index ∷ []) }
    {
        self.first(index, index + 1) == index
    }

    /// Which items inside the one at an index are tested.
    pub fn inside(&self, index: u32) -> Result<Chosen<'a>, NoMemory>
        ensures { IfOk result (λ below. IsBelow self.now below index) }
    {
        match self {
            Chosen::All => Ok(Chosen::All),
            Chosen::Listed(nears) => inside(nears, index),
        }
    }
}
