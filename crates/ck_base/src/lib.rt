//! The small types that every other crate speaks of: names, texts, values, attributes, paths, priorities, tokens that count
//! calls, and the faults of edits and of script lines.
#![tactic(auto)]

use std::alloc::AllocError;

/// Want of memory. It is an answer of its own of each call that may take memory, and no clause says when it comes.
pub type NoMemory = AllocError;

pub mod attributes;
mod entries;
pub mod faults;
pub mod name;
pub mod path;
pub mod priority;
pub mod steps;
pub mod text;
pub mod value;
