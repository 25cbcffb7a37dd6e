//! The trusted edge: the file system and standard output of the system that the program runs on. No clause says which
//! bytes the system gives or takes, so these tell neither what is held nor what was written.
ghost use Rattle.std.specs.Prelude.{◌≡◌, ℕ, ◌^◌, ◌<◌, None};

use crate::files::{FetchFault, Files};
use crate::sink::{Sink, WriteFault};
use std::alloc::Global;
use std::fs::File;
use std::io::{ErrorKind, Read};
use std::marker::Model;
use std::{io, rt};

/// The files of the runtime's file system, by path.
///
/// A file that isn't there is `Failed`, as is anything else that the system refuses, but for want of memory.
#[derive(Drop)]
pub struct RealFiles<R: rt::Files> {
    runtime: R,
    faults: u64,
}

impl<R: rt::Files> Model for RealFiles<R> {
    ghost Value = { ℕ };

    ghost view = { λ files. files.faults };

    ghost invariant = { λ files. files.faults < 2 ^ 64 };
}

impl<R: rt::Files> RealFiles<R> {
    /// No fetch has failed yet.
    pub fn new(runtime: R) -> RealFiles<R>
        ensures holds { ⟦<RealFiles<R> as Files>⟧.holds result ≡ None }
        ensures faults { ⟦<RealFiles<R> as Files>⟧.faults result ≡ 0 }
    {
        RealFiles { runtime, faults: 0 }
    }
}

/// The first bytes of the file at a path, at most `limit`.
fn first_bytes<R: rt::Files>(
    runtime: &R,
    alloc: Global,
    path: &str,
    limit: u64,
) -> io::Result<Vec<u8>> {
    let mut bytes = Vec::new(alloc);
    File::open(runtime, path)?
        .take(limit)
        .read_to_end(&mut bytes)?;
    Ok(bytes)
}

impl<R: rt::Files> Files for RealFiles<R> {
    ghost holds = { λ _. None };

    ghost faults = { λ files. files };

    /// Reads at most one byte more than `most`.
    fn fetch(&mut self, alloc: Global, name: &str, most: u64) -> Result<Vec<u8>, FetchFault> {
        match first_bytes(&self.runtime, alloc, name, most.saturating_add(1)) {
            Ok(bytes) if bytes.len() as u64 <= most => Ok(bytes),
            Ok(_) => Err(FetchFault::TooLarge),
            Err(fault) if fault.kind() == ErrorKind::OutOfMemory => Err(FetchFault::NoMemory),
            Err(_) => {
                self.faults = self.faults.saturating_add(1);
                Err(FetchFault::Failed)
            }
        }
    }
}

/// The runtime's standard output. Each write goes to the system at once.
///
/// `Failed` where the system refuses a write, or takes nothing of a piece that isn't empty.
#[derive(Drop)]
pub struct RealSink<R: Print> {
    runtime: R,
    faults: u64,
}

impl<R: Print> Model for RealSink<R> {
    ghost Value = { ℕ };

    ghost view = { λ sink. sink.faults };

    ghost invariant = { λ sink. sink.faults < 2 ^ 64 };
}

impl<R: Print> RealSink<R> {
    /// No write has failed yet.
    pub fn new(runtime: R) -> RealSink<R>
        ensures written { ⟦<RealSink<R> as Sink>⟧.written result ≡ None }
        ensures faults { ⟦<RealSink<R> as Sink>⟧.faults result ≡ 0 }
    {
        RealSink { runtime, faults: 0 }
    }
}

impl<R: Print> Sink for RealSink<R> {
    ghost written = { λ _. None };

    ghost faults = { λ sink. sink };

    fn write(&mut self, bytes: &[u8]) -> Result<usize, WriteFault> {
        match self.runtime.write_some(bytes) {
            Ok(taken) if taken > 0 || bytes.is_empty() => Ok(taken),
            _ => {
                self.faults = self.faults.saturating_add(1);
                Err(WriteFault::Failed)
            }
        }
    }
}
