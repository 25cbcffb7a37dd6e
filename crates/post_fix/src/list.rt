//! The list of fixers.
ghost use Rattle.std.specs.Prelude.{◌≡◌, [], ◌∷◌, ◌++◌, OnOk, OnErr};
ghost use Rattle.post_fix.specs.Listed.{fixer_of, fixers_of};

use crate::fixer::Fixer;
use ck_base::NoMemory;
use fix_definitions::stock::StockFixer;
use std::alloc::Global;

/// A fixer of a list: one of the settings, or one that the product adds.
#[derive(Drop)]
pub enum FixerEntry {
    /// One of the settings.
    Stock(StockFixer),
    /// One of the product.
    Boxed(Box<dyn Fixer>),
}

/// Fixers in their order.
#[derive(Drop)]
pub struct FixerList {
    pub(crate) entries: Vec<FixerEntry>,
}

impl FixerList {
    /// No fixers. It takes no memory.
    pub fn new(alloc: Global) -> FixerList
        ensures { fixers_of (λ object. fixes object) result ≡ [] }
    {
        FixerList {
            entries: Vec::new(alloc),
        }
    }

    /// Puts a fixer last. It answers `NoMemory` alone beside Ok, and then nothing has changed.
    pub fn add(&mut self, entry: FixerEntry) -> Result<(), NoMemory>
        ensures ok { OnOk result (fixers_of (λ object. fixes object) self.new
            ≡ fixers_of (λ object. fixes object) self.old ++ fixer_of (λ object. fixes object) entry ∷ []) }
        ensures err { OnErr result (fixers_of (λ object. fixes object) self.new ≡ fixers_of (λ object. fixes object) self.old) }
    {
        self.entries.push(entry)?;
        Ok(())
    }
}
