//! How converters make shapes and layers of what a document holds. (After the downcast conversion of CKEditor 5.)
#![tactic(auto)]

pub mod consumables;
pub mod converter;
mod filling;
mod gift;
pub mod layers;
pub mod list;
mod order;
pub mod shaping;
mod stock;
