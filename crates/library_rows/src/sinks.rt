//! The sink in memory.
use crate::report::Report;
use ck_io::{MemorySink, Sink, WriteFault};
use std::alloc::Global;

/// The rows of the sink in memory.
pub fn rows(alloc: Global, report: &mut Report<'_>) {
    report.row("a sink goes on after a failed write", goes_on(alloc));
}

fn goes_on(alloc: Global) -> bool {
    match [2u64].as_slice().to_vec(alloc) {
        Ok(failing) => goes_on_after(failing),
        Err(_) => false,
    }
}

/// Whether a sink takes two bytes of three, none where it fails, none of an empty piece, and then the last one.
fn goes_on_after(failing: Vec<u64>) -> bool {
    let mut sink = MemorySink::new(2, failing);
    let first = sink.write(b"abc");
    let second = sink.write(b"c");
    let third = sink.write(b"");
    let fourth = sink.write(b"c");
    first == Ok(2)
        && second == Err(WriteFault::Failed)
        && third == Ok(0)
        && fourth == Ok(1)
        && sink.bytes() == b"abc".as_slice()
}
