//! Reading a settings file.
#![tactic(auto)]

mod file_form;
mod fixer_names;
mod fixers;
mod refusals;
mod registered;
mod schema_file;
pub mod settings;
pub mod texts;
