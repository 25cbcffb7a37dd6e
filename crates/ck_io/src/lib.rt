//! The files that a program reads and the sink that it writes to, as traits whose contracts say which bytes go in and
//! out and which calls failed.
#![tactic(auto)]

mod calls;
mod files;
mod memory_files;
mod memory_sink;
mod real;
mod sink;

pub use files::{FetchFault, Files};
pub use memory_files::MemoryFiles;
pub use memory_sink::MemorySink;
pub use real::{RealFiles, RealSink};
pub use sink::{Sink, WholeFault, WriteFault, write_whole};
