//! The program as a library: the top call `run`, from the words of the command line to the bytes written and the status, and `run_product`, which
//! runs it with the converters of this product.
#![tactic(auto)]

mod answering;
mod lines;
mod opening;
mod printing;
pub mod product;
pub mod run;
mod tasks;

pub use product::run_product;
