//! The faults of edits, the rules of the schema that a document may break, and the refusals of script lines.
ghost use Rattle.std.specs.Prelude.{◌≡◌, ◌<◌, ◌^◌, ℕ, [], ◌∷◌, ◌++◌, IfOk};
ghost use Rattle.std.specs.Str.{chars};
ghost use Rattle.std.specs.Fmt.{decimal};

use crate::NoMemory;
use crate::name::Name;
use crate::path::Path;
use crate::text::scalars_of;
use std::alloc::{AllocError, AllocFailed, Global};
use std::marker::Model;

/// Where in a JSON value a form is broken: a `/` before each field's name and each index, from the outside in. It is seen as
/// the list of its Unicode scalar values. (After the JSON Pointers of RFC 6901, but that nothing is escaped.)
#[derive(Debug, Drop)]
pub struct FieldPath {
    scalars: Vec<char>,
}

impl Model for FieldPath {
    ghost use Rattle.std.specs.Prelude.{ℕ, List};

    ghost Value = { List ℕ };

    ghost view = { λ path. path.scalars.items };
}

impl FieldPath {
    /// The empty path, of the whole value. It takes no memory.
    pub fn new(alloc: Global) -> FieldPath
        ensures { result ≡ [] }
    {
        FieldPath {
            scalars: Vec::new(alloc),
        }
    }

    /// The same path. It answers `NoMemory` alone beside Ok.
    pub fn copy(&self) -> Result<FieldPath, NoMemory>
        ensures { IfOk result (λ path. path ≡ self.now) }
    {
        let scalars = self.scalars.clone()?;
        Ok(FieldPath { scalars })
    }

    /// The path of the field of this name. It answers `NoMemory` alone beside Ok.
    pub fn field(&self, name: &str) -> Result<FieldPath, NoMemory>
        ensures { IfOk result (λ path. path ≡ self.now ++ 47 ∷ chars name.now) }
    {
        let mut scalars = self.scalars.clone()?;
        scalars.push('/')?;
        scalars.extend_from_slice(scalars_of(*self.scalars.allocator(), name)?.as_slice())?;
        Ok(FieldPath { scalars })
    }

    /// The path of the member at this index of a list. It answers `NoMemory` alone beside Ok.
    #[tactic(auto, using(crate::proofs::Digits::chars_decimal))]
    pub fn index(&self, index: usize) -> Result<FieldPath, NoMemory>
        ensures { IfOk result (λ path. path ≡ self.now ++ 47 ∷ decimal index) }
    {
        let digits = index.to_string(*self.scalars.allocator())?;
        self.field(digits.as_str())
    }

    /// Its Unicode scalar values, in order.
    pub fn scalars(&self) -> &[char]
        ensures { result.now ≡ self.now }
    {
        self.scalars.as_slice()
    }
}

/// A place of the view as a script gives it: numbers of 64 bits, of which the view need not have any.
#[derive(Debug, Drop)]
pub struct PlacePath {
    numbers: Vec<u64>,
}

impl Model for PlacePath {
    ghost use Rattle.std.specs.Prelude.{ℕ, List};

    ghost Value = { List ℕ };

    ghost view = { λ path. path.numbers.items };
}

impl PlacePath {
    /// The place of these numbers. It takes no memory.
    pub fn new(numbers: Vec<u64>) -> PlacePath
        ensures { result ≡ numbers.items }
    {
        PlacePath { numbers }
    }

    /// Its numbers, in order.
    pub fn as_slice(&self) -> &[u64]
        ensures { result.now ≡ self.now }
    {
        self.numbers.as_slice()
    }
}

/// Why an edit can't be made. Edits are numbered from 1 within their change. Where several faults hold, the first in this order
/// is answered.
#[derive(Debug, Drop)]
pub enum EditFault {
    /// The name is no registered item, or begins with `$`.
    NotRegistered { edit: u64, name: Name },
    /// The position isn't in the document.
    BadPosition { edit: u64, path: Path },
    /// An end of the range isn't in the document, the start is behind the end, or the edit can't act on this range.
    BadRange { edit: u64, start: Path, end: Path },
    /// The edit can't act there.
    BadTarget { edit: u64, path: Path },
    /// A marker of this name is there already.
    MarkerExists { edit: u64, name: Name },
    /// No marker has this name.
    MarkerUnknown { edit: u64, name: Name },
    /// No element id is left.
    IdsSpent { edit: u64 },
    /// The document would have this many items, which is over the limit.
    TooLarge { edit: u64, count: u64 },
    /// The document would be this deep, which is over the limit.
    TooDeep { edit: u64, depth: u32 },
    /// Memory ran out.
    NoMemory,
}

/// A rule of the schema that a document breaks.
#[derive(Debug, Drop)]
pub enum Rule {
    /// The item may not stand in this parent.
    Child { item: Name, parent: Name },
    /// The item may not have this attribute.
    Attribute { key: Name, item: Name },
}

/// Why a script line changes nothing. Where several hold, the first in this order is answered, but that `Schema` is tested after
/// the fixers have settled.
#[derive(Debug, Drop)]
pub enum Refusal {
    /// The line is no JSON value.
    NotJson,
    /// The line's form is broken first at this place.
    BadField { path: FieldPath },
    /// The editor has accepted as many changes as it can count.
    ChangesSpent,
    /// The settings have no command of this name.
    UnknownCommand(Name),
    /// The command takes a text and got none, or got one and takes none.
    BadArgument(Name),
    /// The command isn't enabled now.
    Disabled(Name),
    /// No change is left to undo.
    NothingToUndo,
    /// No change is left to redo.
    NothingToRedo,
    /// The place isn't in the content of the view.
    NotInView { path: PlacePath },
    /// The list of view nodes is this deep, which is over the limit.
    ViewTooDeep { depth: u32 },
    /// An edit can't be made. The fault is never `NoMemory`.
    Edit(EditFault),
    /// An edit that this fixer planned can't be made. Fixers count from 1. The fault is never `NoMemory`.
    FixerRefused { fixer: u32, inner: EditFault },
    /// After so many rounds this fixer still plans edits.
    NotSettled { rounds: u32, fixer: u32 },
    /// The document would break this rule of the schema first at this item.
    Schema { rule: Rule, path: Path },
    /// Memory ran out.
    NoMemory,
}

impl From<AllocError> for Refusal {
    ghost use Rattle.std.specs.Prelude.{◌≡◌};
    ghost use Rattle.ck_base.specs.declared.faults.Refusal.TheVariants.{NoMemory as OutOfMemory};

    ghost from_gives = { λ _ refusal. refusal ≡ OutOfMemory };

    fn from(_: AllocError) -> Refusal {
        Refusal::NoMemory
    }
}

impl<T: Drop> From<AllocFailed<T>> for Refusal {
    ghost use Rattle.std.specs.Prelude.{◌≡◌};
    ghost use Rattle.ck_base.specs.declared.faults.Refusal.TheVariants.{NoMemory as OutOfMemory};

    ghost from_gives = { λ _ refusal. refusal ≡ OutOfMemory };

    fn from(_: AllocFailed<T>) -> Refusal {
        Refusal::NoMemory
    }
}
