//! What a schema says: the file that it is made from, the relations between items that its rules make, the flags of items, and
//! what may stand where. (After the schema guide of CKEditor 5's framework documentation.) Code stands only where a type is made
//! or copied, and where a worked example is computed.
#![tactic(auto)]

mod examples;
pub mod fault;
pub mod file;
pub mod laws;
pub mod names;
