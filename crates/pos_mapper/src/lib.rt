//! Where the view shows the positions of a document, and which positions its places mean. (After `Mapper` of CKEditor 5.)
#![tactic(auto)]

mod lengths;
pub mod mapper;
pub mod parts;
mod reading;
mod seeking;
mod table;
