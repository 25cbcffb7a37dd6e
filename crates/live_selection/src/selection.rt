//! The selection's range, direction and overrides.
ghost use Rattle.std.specs.Prelude.{◌≡◌, false, IsTrue, IfOk, OnOk, OnErr};
ghost use Rattle.item_definitions.specs.Shift.{IsShift};
ghost use Rattle.document_definitions.specs.Selection.{selected, carried, with_override, is_collapsed, same_range};
ghost use Rattle.model_pos.specs.Shifts.{shift_of};
ghost use Rattle.document_definitions.specs.Sound.{IsCarried};

use crate::overrides::Overrides;
use ck_base::NoMemory;
use ck_base::name::Name;
use ck_base::value::Value;
use model_pos::{Range, Shift, carry_range};
use std::alloc::Global;
use std::marker::Model;

/// A range, whether its focus is at its start, and what overrides the attributes that the text around it gives. A collapsed selection is
/// forward.
#[derive(Drop)]
pub struct Selection {
    range: Range,
    backward: bool,
    overrides: Overrides,
}

impl Model for Selection {
    ghost use Rattle.std.specs.Prelude.{◌≡◌, false, IsTrue};
    ghost use Rattle.document_definitions.specs.Selection.{Selection as Meant, is_collapsed};

    ghost Value = { Meant };

    ghost view = { λ selection. record { range = selection.range; backward = selection.backward; overrides = selection.overrides } };

    ghost invariant = { λ selection. IsTrue (is_collapsed selection.range) → selection.backward ≡ false };
}

impl Selection {
    /// The selection of a range, without overrides. It is forward where the range is collapsed. It takes no memory.
    pub fn new(alloc: Global, range: Range, backward: bool) -> Selection
        ensures { result ≡ selected range backward }
    {
        let backward = backward && !range.is_collapsed();
        Selection {
            range,
            backward,
            overrides: Overrides::new(alloc),
        }
    }

    /// The same selection.
    pub fn copy(&self) -> Result<Selection, NoMemory>
        ensures { IfOk result (λ selection. selection ≡ self.now) }
    {
        let overrides = self.overrides.copy()?;
        Ok(Selection {
            range: self.range.copy(),
            backward: self.backward,
            overrides,
        })
    }

    /// Its range.
    pub fn range(&self) -> &Range
        ensures { result.now ≡ self.now.range }
    {
        &self.range
    }

    /// Whether its focus is at its start. A collapsed selection is forward.
    pub fn is_backward(&self) -> bool
        ensures backward { result ≡ self.now.backward }
        ensures collapsed { IsTrue (is_collapsed self.now.range) → result ≡ false }
    {
        let Selection { backward, .. } = self;
        *backward
    }

    /// What overrides the attributes that the text gives it.
    pub fn overrides(&self) -> &Overrides
        ensures { result.now ≡ self.now.overrides }
    {
        &self.overrides
    }

    /// Selects another range, without overrides. It is forward where the range is collapsed. It takes no memory.
    pub fn set(&mut self, range: Range, backward: bool)
        ensures { self.new ≡ selected range backward }
    {
        self.backward = backward && !range.is_collapsed();
        self.range = range;
        self.overrides.clear();
    }

    /// Takes the range to where it goes when the tree changes. The overrides go exactly where the range changes, and a selection that is
    /// then collapsed is forward. It takes no memory. Its conditions are those of `model_pos::carry_range`.
    pub fn carry(&mut self, shift: &Shift)
        requires shift { IsShift (shift_of shift.now) }
        requires limits { IsCarried (shift_of shift.now) self.old.range }
        ensures { self.new ≡ carried (shift_of shift.now) self.old }
    {
        let range = carry_range(&self.range, shift);
        if !is_same(&range, &self.range) {
            self.set(range, self.backward);
        }
    }

    /// Overrides the value of a key with this one, or with none. It answers `NoMemory` alone beside Ok, and then nothing has changed.
    pub fn override_attribute(&mut self, key: Name, value: Option<Value>) -> Result<(), NoMemory>
        ensures ok { OnOk result (self.new ≡ with_override key value self.old) }
        ensures err { OnErr result (self.new ≡ self.old) }
    {
        self.overrides.set(key, value)
    }
}

/// Whether two ranges start and end at the same positions.
fn is_same(range: &Range, other: &Range) -> bool
    ensures { result ≡ same_range range.now other.now }
{
    let (start, end) = (range.start().as_slice(), range.end().as_slice());
    start == other.start().as_slice() && end == other.end().as_slice()
}
