//! Post-fixers, as definitions in `specs/`: what each of the stock fixers wants of a document, and how a document is brought to rest by the plans
//! of fixers, round by round. (After `Model.document.registerPostFixer()` of CKEditor 5, but that a fixer hands out its edits as a plan, and that
//! the number of rounds is bound.) It has no program code but the types of stock fixers, of their entries in settings and of the faults of
//! settling: each function here is a law or a worked example, which its clauses state.
#![tactic(auto)]

pub mod examples;
pub mod fault;
pub mod laws;
pub mod plan;
pub mod stock;
