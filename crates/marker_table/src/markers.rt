//! The markers of a document. (After `MarkerCollection` of CKEditor 5's model.)
ghost use Rattle.std.specs.Prelude.{◌≡◌, ◌≢◌, ◌↔◌, ◌+◌, ◌<◌, ◌&&◌, [], All, IfOk, IfErr, OnOk, OnErr, IsErrOf, IsSome, IsNone, Some, None, option_copied};
ghost use Rattle.ck_base.specs.Entries.{IsOrdered, value_of, with_value, without};
ghost use Rattle.item_definitions.specs.Children.{offset_of};
ghost use Rattle.item_definitions.specs.Position.{not_after, behind};
ghost use Rattle.item_definitions.specs.Shift.{IsShift};
ghost use Rattle.document_definitions.specs.Sound.{IsCarried};
ghost use Rattle.std.specs.Map.{keys_of};
ghost use Rattle.document_definitions.specs.Markers.{covering, carried};
ghost use Rattle.model_pos.specs.Shifts.{shift_of};

use crate::table;
use ck_base::NoMemory;
use ck_base::name::Name;
use ck_base::path::Path;
use indexmap::IndexMap;
use model_pos::{Range, Shift};
use std::alloc::Global;
use std::marker::Model;

/// Why a change of the markers is refused.
#[derive(Debug, PartialEq, Eq, Drop)]
pub enum MarkerFault {
    /// There is a marker of this name.
    Exists,
    /// There is no marker of this name.
    Unknown,
    /// Memory ran out.
    NoMemory,
}

/// The markers of a document: a finite map from names to ranges, kept in the order of the names' bytes. It is seen as the list of its
/// pairs.
#[derive(Drop)]
pub struct Markers {
    table: IndexMap<Name, Range>,
}

impl Model for Markers {
    ghost use Rattle.std.specs.Prelude.{ℕ, List};
    ghost use Rattle.ck_base.specs.Entries.{IsOrdered};
    ghost use Rattle.item_definitions.specs.Position.{Range as Ends};

    ghost Value = { List (List ℕ × Ends) };

    ghost view = { λ markers. markers.table.entries };

    ghost invariant = { λ markers. IsOrdered markers.table.entries };
}

impl Markers {
    /// No markers. It takes no memory.
    pub fn new(alloc: Global) -> Markers
        ensures { result ≡ [] }
    {
        Markers {
            table: IndexMap::new(alloc),
        }
    }

    /// The same markers.
    pub fn copy(&self) -> Result<Markers, NoMemory>
        ensures { IfOk result (λ markers. markers ≡ self.now) }
    {
        let table = table::copied(&self.table)?;
        Ok(Markers { table })
    }

    /// The range of the marker of a name: None exactly where there is none.
    #[tactic(auto, using(crate::proofs::Sorted::looked_up))]
    pub fn get(&self, name: &Name) -> Option<&Range>
        ensures { option_copied result ≡ value_of name.now self.now }
    {
        self.table.get(name)
    }

    /// The markers with their ranges, in the order of the names' bytes. It takes no memory.
    pub fn iter(&self) -> indexmap::map::Iter<'_, Name, Range>
        ensures { result ≡ self.now }
    {
        self.table.iter()
    }

    /// Adds a marker. It answers `Exists` exactly where there is a marker of this name, and `NoMemory`; then nothing has changed.
    pub fn add(&mut self, name: Name, range: Range) -> Result<(), MarkerFault>
        ensures ok { OnOk result (self.new ≡ with_value name range self.old) }
        ensures exists { IsErrOf result MarkerFault.Exists ↔ IsSome (value_of name self.old) }
        ensures known { IfErr result (λ fault. fault ≢ MarkerFault.Unknown) }
        ensures err { OnErr result (self.new ≡ self.old) }
    {
        if self.get(&name).is_some() {
            return Err(MarkerFault::Exists);
        }
        match table::put(&mut self.table, name, range) {
            Ok(()) => Ok(()),
            Err(_) => Err(MarkerFault::NoMemory),
        }
    }

    /// Gives a marker another range. It answers `Unknown` exactly where there is no marker of this name, and then nothing has changed. It
    /// takes no memory.
    pub fn update(&mut self, name: &Name, range: Range) -> Result<(), MarkerFault>
        ensures ok { OnOk result (self.new ≡ with_value name.now range self.old) }
        ensures unknown { IsErrOf result MarkerFault.Unknown ↔ IsNone (value_of name.now self.old) }
        ensures only { IfErr result (λ fault. fault ≡ MarkerFault.Unknown) }
        ensures err { OnErr result (self.new ≡ self.old) }
    {
        if table::write(&mut self.table, name, range) {
            return Ok(());
        }
        Err(MarkerFault::Unknown)
    }

    /// Takes a marker out, and answers the range that it had. It answers `Unknown` exactly where there is no marker of this name, and then
    /// nothing has changed. It takes no memory.
    pub fn remove(&mut self, name: &Name) -> Result<Range, MarkerFault>
        ensures range { IfOk result (λ range. value_of name.now self.old ≡ Some range) }
        ensures markers { self.new ≡ without name.now self.old }
        ensures unknown { IsErrOf result MarkerFault.Unknown ↔ IsNone (value_of name.now self.old) }
        ensures only { IfErr result (λ fault. fault ≡ MarkerFault.Unknown) }
        ensures err { OnErr result (self.new ≡ self.old) }
    {
        match table::take(&mut self.table, name) {
            Some(range) => Ok(range),
            None => Err(MarkerFault::Unknown),
        }
    }

    /// Takes each range to where it goes when the tree changes. It takes no memory. Its conditions are those of
    /// `model_pos::carry_range` for each range.
    pub fn carry_all(&mut self, shift: &Shift)
        requires shift { IsShift (shift_of shift.now) }
        requires limits { All (λ marker. IsCarried (shift_of shift.now) marker.1) self.old }
        ensures { self.new ≡ carried (shift_of shift.now) self.old }
    {
        table::carry(&mut self.table, shift);
    }

    /// The names of the markers that cover the item at a path, in the order of their bytes: those whose range starts not after the
    /// position before the item and ends not before the position behind it. It answers `NoMemory` alone beside Ok.
    ///
    /// Its conditions: the path isn't empty, and its last number is below 4294967295.
    pub fn covering(&self, path: &Path) -> Result<Vec<Name>, NoMemory>
        requires item { path.now ≢ [] }
        requires limit { offset_of path.now < 4294967295 }
        ensures { IfOk result (λ names. names.items ≡ covering path.now self.now) }
    {
        let alloc = *self.table.allocator();
        let behind = behind(alloc, path);
        let mut names = Vec::new(alloc);
        for (name, range) in &self.table {
            if holds(range, path, &behind) {
                names.push(name.copy()?)?;
            }
        }
        Ok(names)
    }

    /// All names, in the order of their bytes. It answers `NoMemory` alone beside Ok.
    pub fn sorted(&self) -> Result<Vec<Name>, NoMemory>
        ensures { IfOk result (λ names. names.items ≡ keys_of self.now) }
    {
        let mut names = Vec::new(*self.table.allocator());
        for (name, _) in &self.table {
            names.push(name.copy()?)?;
        }
        Ok(names)
    }
}

/// The position behind the item at a path.
#[tactic(auto, using(item_definitions::proofs::Paths::paths, crate::proofs::Sorted::behind_last))]
fn behind(alloc: Global, path: &Path) -> Path
    requires item { path.now ≢ [] }
    requires limit { offset_of path.now < 4294967295 }
    ensures { result ≡ behind path.now }
{
    match path.as_slice().split_last() {
        Some((offset, parent)) => match Path::from_slice(alloc, parent) {
            Some(mut path) => {
                path.push(*offset + 1);
                path
            }
            None => unreachable!(),
        },
        None => unreachable!(),
    }
}

/// Whether a range has the item between two positions.
fn holds(range: &Range, before: &Path, behind: &Path) -> bool
    ensures { result ≡ (not_after range.now.start before.now && not_after behind.now range.now.end) }
{
    let (start, end) = (range.start().as_slice(), range.end().as_slice());
    start.cmp(before.as_slice()).is_le() && behind.as_slice().cmp(end).is_le()
}
