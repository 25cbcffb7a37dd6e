//! Calls of the libraries that no script reaches: each row makes one with ample memory, and compares what it answers.
//!
//! It prints a line for each row that differs, and at the end how many rows there are and how many failed. It ends with 0 where none did.
#![tactic(auto)]

mod bindings;
mod names;
mod report;
mod samples;
mod schemas;
mod sinks;
mod trees;
mod views;
mod wrapping;

use report::Report;
use std::process::ExitCode;

/// Makes all rows, and answers how they came out.
fn all_rows(runtime: &HostRuntime) -> Report<'_> {
    let alloc = runtime.alloc();
    let mut report = Report::new(runtime);
    names::rows(alloc, &mut report);
    sinks::rows(alloc, &mut report);
    trees::rows(alloc, &mut report);
    views::rows(alloc, &mut report);
    wrapping::rows(alloc, &mut report);
    schemas::rows(alloc, &mut report);
    bindings::rows(alloc, &mut report);
    report
}

fn main(runtime: HostRuntime) -> ExitCode {
    if all_rows(&runtime).is_told() {
        ExitCode::SUCCESS
    } else {
        ExitCode::FAILURE
    }
}
