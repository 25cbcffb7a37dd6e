//! Files in memory, for tests.
ghost use Rattle.std.specs.Prelude.{◌≡◌, ◌≢◌, ℕ, ◌^◌, ◌<◌, ◌≤◌, ◌↔◌, List, Option, None, Some, length, IfOk, IsErrOf, IsTrue, IsSomeAnd};
ghost use Rattle.std.specs.Option.{option_copied};
ghost use Rattle.ck_io.specs.Rose.{Rose};
ghost use Rattle.ck_io.specs.HeldFiles.{held_as, files_of};

use crate::calls::CallPlan;
use crate::files::{FetchFault, Files};
use std::alloc::Global;
use std::marker::Model;

/// Files in memory, of which chosen fetches fail. They tell what they hold.
#[derive(Drop)]
pub struct MemoryFiles {
    held: Vec<(String, Vec<u8>)>,
    calls: CallPlan,
}

impl Model for MemoryFiles {
    ghost use Rattle.ck_io.specs.HeldFiles.{HeldFiles, files_of};

    ghost Value = { HeldFiles };

    ghost view = { λ files. record { held = files_of files.held.items; calls = files.calls } };
}

/// The bytes of the first file of that name.
fn find_bytes<'a>(held: &'a [(String, Vec<u8>)], name: &str) -> Option<&'a [u8]>
    ensures { option_copied result ≡ held_as (files_of held.now) name.now }
{
    for (key, bytes) in held {
        if name == key.as_str() {
            return Some(bytes.as_slice());
        }
    }
    None
}

impl MemoryFiles {
    /// These files, by name: of two of the same name the first is meant. `failing` are the numbers, from 1, of the
    /// fetches that are to fail.
    pub fn new(held: Vec<(String, Vec<u8>)>, failing: Vec<u64>) -> MemoryFiles
        ensures holds { ⟦<MemoryFiles as Files>⟧.holds result ≡ Some (held_as (files_of held.items)) }
        ensures faults { ⟦<MemoryFiles as Files>⟧.faults result ≡ 0 }
        ensures held { result.held ≡ files_of held.items }
        ensures calls { result.calls ≡ record { failing = failing.items; made = 0; failed = 0 } }
    {
        MemoryFiles {
            held,
            calls: CallPlan::new(failing),
        }
    }
}

impl Files for MemoryFiles {
    ghost use Rattle.ck_io.specs.Fetched.{CountsFailedOnly};
    ghost use Rattle.ck_io.specs.HeldFiles.{held_as};
    ghost use Rattle.ck_io.specs.PlannedCalls.{next_fails, after_call};

    ghost holds = { λ files. Some (held_as files.held) };

    ghost faults = { λ files. files.calls.failed };

    fn fetch(&mut self, alloc: Global, name: &str, most: u64) -> Result<Vec<u8>, FetchFault>
        ensures failed { result ≡ Err FetchFault.Failed → Rose self.old.calls.failed self.new.calls.failed }
        ensures counted { CountsFailedOnly result self.old.calls.failed self.new.calls.failed }
        ensures never_falls { self.old.calls.failed ≤ self.new.calls.failed }
        ensures bounded { self.new.calls.failed < 2 ^ 64 }
        ensures fits { IfOk result (λ bytes. length bytes.items ≤ most) }

        // It is told what is held.
        ensures found { IfOk result (λ bytes. held_as self.old.held name.now ≡ Some bytes.items) }
        ensures too_large { result ≡ Err FetchFault.TooLarge →
            IsSomeAnd (held_as self.old.held name.now) (λ bytes. most < length bytes) }
        ensures missing { result ≡ Err FetchFault.Missing → held_as self.old.held name.now ≡ None }

        // Which calls fail, and what else changes.
        ensures planned { IsErrOf result FetchFault.Failed ↔ IsTrue (next_fails self.old.calls) }
        ensures after { self.new ≡ record self.old { calls = after_call self.old.calls (next_fails self.old.calls) } }
    {
        let fails = self.calls.next_fails();
        self.calls.count(fails);
        if fails {
            return Err(FetchFault::Failed);
        }
        let Some(bytes) = find_bytes(&self.held, name) else {
            return Err(FetchFault::Missing);
        };
        if bytes.len() as u64 > most {
            return Err(FetchFault::TooLarge);
        }
        Vec::from_slice(alloc, bytes).map_err(|_| FetchFault::NoMemory)
    }
}
