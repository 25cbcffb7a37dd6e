//! What a program writes to, and writing a whole piece.
ghost use Rattle.std.specs.Prelude.{◌≡◌, ℕ, ◌^◌, ◌<◌, ◌≤◌, List, Option, length, take, IfOk, IfErr, OnOk, OnErr};
ghost use Rattle.std.specs.Io.KnownBytes.{append_known};
ghost use Rattle.ck_io.specs.Rose.{Rose};
ghost use Rattle.ck_io.specs.Sent.{sent_of};

use thiserror::Error;

/// Why a write took nothing.
#[derive(Clone, Copy, Debug, PartialEq, Eq, Error)]
pub enum WriteFault {
    /// The sink could not be written to. The count of failed calls rose.
    #[error("the output could not be written")]
    Failed,
}

/// Why a piece wasn't written whole.
#[derive(Clone, Copy, Debug, PartialEq, Eq, Error)]
pub enum WholeFault {
    /// A write failed after the first `sent` bytes of the piece had been taken.
    #[error("the output could not be written, after {sent} bytes")]
    Failed { sent: u64 },
}

/// What bytes are written to, in the order of the calls.
pub trait Sink {
    /// The bytes that were taken so far, or `None` where it isn't told.
    ghost written: { Self → Option (List ℕ) };

    /// How many calls have failed, at most 2^64 - 1.
    ghost faults: { Self → ℕ };

    /// Takes some first bytes of the piece, at least one of a piece that isn't empty, and answers how many.
    ///
    /// `Failed` where it couldn't write: nothing of the piece was taken, and the count of failed calls rose.
    fn write(&mut self, bytes: &[u8]) -> Result<usize, WriteFault>
        ensures within { IfOk result (λ taken. taken ≤ length bytes.now) }
        ensures moves { IfOk result (λ taken. 0 < length bytes.now → 0 < taken) }
        ensures grows { IfOk result (λ taken. written self.new ≡ append_known (written self.old) (take taken bytes.now)) }
        ensures stays { OnErr result (written self.new ≡ written self.old) }
        ensures failed { OnErr result (Rose (faults self.old) (faults self.new)) }
        ensures counted { OnOk result (faults self.new ≡ faults self.old) }
        ensures never_falls { faults self.old ≤ faults self.new }
        ensures bounded { faults self.new < 2 ^ 64 };
}

/// Writes the whole piece, in as many writes as the sink needs.
///
/// `Failed { sent }` where a write failed: the first `sent` bytes of the piece were taken, fewer than all, and no
/// write followed.
#[tactic(auto, using(crate::proofs::Written::append_known_taken))]
pub fn write_whole<S: Sink>(out: &mut S, bytes: &[u8]) -> Result<(), WholeFault>
    ensures whole { OnOk result (S.written out.new ≡ append_known (S.written out.old) bytes.now) }
    ensures part { IfErr result (λ fault.
        S.written out.new ≡ append_known (S.written out.old) (take (sent_of fault) bytes.now)) }
    ensures less { IfErr result (λ fault. sent_of fault < length bytes.now) }
    ensures failed { OnErr result (Rose (S.faults out.old) (S.faults out.new)) }
    ensures counted { OnOk result (S.faults out.new ≡ S.faults out.old) }
    ensures never_falls { S.faults out.old ≤ S.faults out.new }
{
    let mut sent = 0;
    while sent < bytes.len() {
        match out.write(&bytes[sent..]) {
            Ok(taken) => sent += taken,
            Err(WriteFault::Failed) => return Err(WholeFault::Failed { sent: sent as u64 }),
        }
    }
    Ok(())
}
