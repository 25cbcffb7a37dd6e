//! Files by name.
ghost use Rattle.std.specs.Prelude.{◌≡◌, ◌≢◌, ℕ, ◌^◌, ◌<◌, ◌≤◌, List, Option, None, Some, length, IfOk, IfSome, IfNone, IsSomeAnd};
ghost use Rattle.ck_io.specs.Rose.{Rose};

use std::alloc::Global;
use thiserror::Error;

/// Why a fetch gave no bytes.
#[derive(Clone, Copy, Debug, PartialEq, Eq, Error)]
pub enum FetchFault {
    /// The files could not be read. The count of failed calls rose.
    #[error("the file could not be read")]
    Failed,
    /// The file has more bytes than were asked for.
    #[error("the file is too large")]
    TooLarge,
    /// It is known which files there are, and this is none of them.
    #[error("there is no such file")]
    Missing,
    /// There was no memory for the bytes.
    #[error("out of memory")]
    NoMemory,
}

/// Files that are read by name.
pub trait Files {
    ghost use Rattle.ck_io.specs.Fetched.{CountsFailedOnly};

    /// The bytes of each name, or `None` where it isn't told what is held. No call changes it.
    ghost holds: { Self → Option (List ℕ → Option (List ℕ)) };

    /// How many calls have failed, at most 2^64 - 1.
    ghost faults: { Self → ℕ };

    /// The bytes of the file `name`, at most `most` of them.
    ///
    /// - `Failed` where the files could not be read; only there the count of failed calls changes.
    /// - `TooLarge` where the file has more than `most` bytes.
    /// - `Missing` where there is no such file, if it is told what is held.
    /// - `NoMemory` where there is no memory for the bytes.
    fn fetch(&mut self, alloc: Global, name: &str, most: u64) -> Result<Vec<u8>, FetchFault>
        ensures held { holds self.new ≡ holds self.old }
        ensures failed { result ≡ Err FetchFault.Failed → Rose (faults self.old) (faults self.new) }
        ensures counted { CountsFailedOnly result (faults self.old) (faults self.new) }
        ensures never_falls { faults self.old ≤ faults self.new }
        ensures bounded { faults self.new < 2 ^ 64 }
        ensures fits { IfOk result (λ bytes. length bytes.items ≤ most) }

        // Where it is told what is held.
        ensures found { IfSome (holds self.old) (λ held. IfOk result (λ bytes. held name.now ≡ Some bytes.items)) }
        ensures too_large { IfSome (holds self.old) (λ held.
            result ≡ Err FetchFault.TooLarge → IsSomeAnd (held name.now) (λ bytes. most < length bytes)) }
        ensures missing { IfSome (holds self.old) (λ held.
            result ≡ Err FetchFault.Missing → held name.now ≡ None) }

        // Where it isn't.
        ensures untold { IfNone (holds self.old) (result ≢ Err FetchFault.Missing) };
}
