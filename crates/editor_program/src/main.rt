//! `ckcore run SETTINGS SCRIPT`: reads a settings file and a script, and answers the script's lines. `ckcore check SETTINGS` tells whether
//! settings are accepted.
#![tactic(auto)]

ghost use Rattle.std.specs.Prelude.{◌≡◌, ◌<◌};

use ck_base::steps::{Quiet, Steps};
use ck_io::{RealFiles, RealSink};
use editor_run::run::Status;
use editor_run::run_product;
use std::io::ErrorKind;
use std::marker::Brand;
use std::process::ExitCode;
use std::rt::Env;
use std::sync::ledger;
use std::sync::ledger::Blank;
use std::{env, io};

/// The words of the command line.
fn words_of(runtime: &(impl Env + AllocGlobal)) -> io::Result<Vec<String>> {
    let mut words = Vec::new(runtime.alloc());
    for word in env::args(runtime)? {
        words.push(word)?;
    }
    Ok(words)
}

/// Runs the program over the real file system and standard output, and answers its status.
fn run_words<B: ledger::Ledger>(runtime: HostRuntime, words: Vec<String>, blank: Blank) -> u8
    requires name { blank.name ≡ B.name }
    requires parts { blank.parts ≡ B.parts }
    requires some { 0 < blank.parts }
{
    let mut files = RealFiles::new(&runtime);
    let mut out = RealSink::new(&runtime);
    let mut steps = Steps::new(Quiet::<B>::new(blank));
    run_product(
        runtime.alloc(),
        words.as_slice(),
        &mut files,
        &mut out,
        &mut steps,
    )
    .unwrap_or(Status::NoMemory.code())
}

/// Runs the program on the words of the command line. It ends with the status of `run`, which is that for want of memory also where there was none
/// for the words or the product's converters. Words that aren't UTF-8 count as words of no form.
fn main(runtime: HostRuntime) -> ExitCode {
    let words = match words_of(&runtime) {
        Ok(words) => words,
        Err(fault) if fault.kind() == ErrorKind::OutOfMemory => {
            return ExitCode::from(Status::NoMemory.code());
        }
        // A word that isn't UTF-8 is of no form.
        Err(_) => Vec::new(runtime.alloc()),
    };
    ExitCode::from(run_words::<Brand>(runtime, words, Blank::new(1)))
}
