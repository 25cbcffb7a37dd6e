//! A sink in memory, for tests.
ghost use Rattle.std.specs.Prelude.{◌≡◌, ◌↔◌, ◌++◌, [], ◌^◌, ◌<◌, ◌≤◌, ◌||◌, List, Option, Some, min, length, take, true, false, not, IfOk, IsErr, IsTrue};
ghost use Rattle.std.specs.Prelude.{OnOk, OnErr};
ghost use Rattle.std.specs.Io.KnownBytes.{append_known};
ghost use Rattle.ck_io.specs.Rose.{Rose};

use crate::calls::CallPlan;
use crate::sink::{Sink, WriteFault};
use std::marker::Model;

/// A sink in memory that takes a bounded number of bytes in a call, and of which chosen writes fail, and no others but for want
/// of memory. It tells what was written.
#[derive(Drop)]
pub struct MemorySink {
    most: u64,
    bytes: Vec<u8>,
    calls: CallPlan,
    ran_out: bool,
}

impl Model for MemorySink {
    ghost use Rattle.std.specs.Prelude.{◌≤◌};
    ghost use Rattle.ck_io.specs.GatheredBytes.{GatheredBytes};

    ghost Value = { GatheredBytes };

    ghost view = { λ sink. record { most = sink.most; bytes = sink.bytes.items; calls = sink.calls; ran_out = sink.ran_out } };

    ghost invariant = { λ sink. 1 ≤ sink.most };
}

impl MemorySink {
    /// A sink that has taken nothing. It takes at most `most` bytes in a call. `failing` are the numbers, from 1, of
    /// the writes that are to fail.
    pub fn new(most: u64, failing: Vec<u64>) -> MemorySink
        requires { 1 ≤ most }
        ensures written { ⟦<MemorySink as Sink>⟧.written result ≡ Some [] }
        ensures faults { ⟦<MemorySink as Sink>⟧.faults result ≡ 0 }
        ensures most { result.most ≡ most }
        ensures calls { result.calls ≡ record { failing = failing.items; made = 0; failed = 0 } }
        ensures ran_out { result.ran_out ≡ false }
    {
        MemorySink {
            most,
            bytes: Vec::new(*failing.allocator()),
            calls: CallPlan::new(failing),
            ran_out: false,
        }
    }

    /// What was written.
    pub fn bytes(&self) -> &[u8]
        ensures { ⟦<MemorySink as Sink>⟧.written self.now ≡ Some result.now }
    {
        &self.bytes
    }
}

impl Sink for MemorySink {
    ghost use Rattle.ck_io.specs.PlannedCalls.{next_fails, after_call};

    ghost written = { λ sink. Some sink.bytes };

    ghost faults = { λ sink. sink.calls.failed };

    /// A sink that finds no memory for the piece fails too.
    fn write(&mut self, bytes: &[u8]) -> Result<usize, WriteFault>
        ensures within { IfOk result (λ taken. taken ≡ min self.old.most (length bytes.now)) }
        ensures moves { IfOk result (λ taken. 0 < length bytes.now → 0 < taken) }
        ensures grows { IfOk result (λ taken. self.new.bytes ≡ self.old.bytes ++ take taken bytes.now) }
        ensures stays { OnErr result (self.new.bytes ≡ self.old.bytes) }
        ensures failed { OnErr result (Rose self.old.calls.failed self.new.calls.failed) }
        ensures never_falls { self.old.calls.failed ≤ self.new.calls.failed }
        ensures bounded { self.new.calls.failed < 2 ^ 64 }

        // Which calls fail, and all that a call changes.
        ensures planned { IsErr result ↔ IsTrue (next_fails self.old.calls || self.new.ran_out) }
        ensures after { IfOk result (λ taken. self.new ≡ record self.old {
          bytes = self.old.bytes ++ take taken bytes.now;
          calls = after_call self.old.calls false;
          ran_out = false;
        }) }
        ensures after_failure { OnErr result (self.new ≡ record self.old {
          calls = after_call self.old.calls true;
          ran_out = not (next_fails self.old.calls);
        }) }
    {
        let piece = &bytes[..bytes.len().min(self.most as usize)];
        let planned = self.calls.next_fails();
        self.ran_out = !planned && self.bytes.extend_from_slice(piece).is_err();
        let fails = planned || self.ran_out;
        self.calls.count(fails);
        if fails {
            return Err(WriteFault::Failed);
        }
        Ok(piece.len())
    }
}
