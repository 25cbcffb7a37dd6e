//! The suite of worked scripts: runs the program on each case of `data/index`, over files and a sink in memory, with the product's converters, and
//! compares what is written and the status with what the case wants.
//!
//! For each case that differs it prints a line, and at the end how many cases there are and how many of them differ. It ends with 0 where none
//! does. What can't be read, breaks its form, or is named twice differs too.
#![tactic(auto)]

mod case;
mod comparing;
mod held;
mod index;
mod suite;
mod tally;

ghost use Rattle.std.specs.Prelude.{◌≡◌, ◌<◌};

use ck_base::steps::{Quiet, Steps};
use ck_io::RealFiles;
use held::CaseFault;
use std::marker::Brand;
use std::process::ExitCode;
use std::sync::ledger;
use std::sync::ledger::Blank;
use suite::run_suite;
use tally::Tally;

/// Runs the suite over the real files, and answers whether no case differs.
fn run_real<B: ledger::Ledger>(runtime: HostRuntime, blank: Blank) -> bool
    requires name { blank.name ≡ B.name }
    requires parts { blank.parts ≡ B.parts }
    requires some { 0 < blank.parts }
{
    let mut files = RealFiles::new(&runtime);
    let mut steps = Steps::new(Quiet::<B>::new(blank));
    let alloc = runtime.alloc();
    match run_suite(alloc, &mut files, &mut steps) {
        Ok(tally) => told(&runtime, &tally) && tally.differing() == 0,
        Err(CaseFault::Told(words)) => {
            let _ = println!(runtime; "{words}");
            false
        }
        Err(CaseFault::NoMemory) => {
            let _ = println!(runtime; "memory ran out");
            false
        }
    }
}

/// Prints how the cases came out, and answers whether that could be done.
fn told(runtime: &HostRuntime, tally: &Tally) -> bool {
    match tally.report(runtime.alloc()) {
        Ok(report) => println!(runtime; "{report}").is_ok(),
        Err(_) => false,
    }
}

fn main(runtime: HostRuntime) -> ExitCode {
    if run_real::<Brand>(runtime, Blank::new(1)) {
        ExitCode::SUCCESS
    } else {
        ExitCode::FAILURE
    }
}
