//! Bringing a document to rest.
ghost use Rattle.std.specs.Prelude.{◌≡◌, ℕ, ◌≢◌, Ok, Err, IfErr, OnOk};
ghost use Rattle.ck_base.specs.declared.faults.EditFault.{EditFault};
ghost use Rattle.ck_base.specs.declared.faults.EditFault.TheVariants.{NoMemory as NoMemoryForEdit};
ghost use Rattle.edit_definitions.specs.Performed.{all_performed};
ghost use Rattle.model_doc.specs.Held.{present};
ghost use Rattle.record_definitions.specs.Operates.{edits_of_rounds};
ghost use Rattle.record_definitions.specs.Traced.{numbered, Traces};
ghost use Rattle.schema_definitions.specs.Allowed.{is_registered};
ghost use Rattle.fix_definitions.specs.declared.fault.SettleFault.TheVariants.{NoMemory as OutOfMemory};
ghost use Rattle.fix_definitions.specs.Settling.{first_plan, at_end, settle};
ghost use Rattle.post_fix.specs.Listed.{fixings_of};
ghost use Rattle.post_fix.specs.Turns.{Turns, Performs, Settles, TurnTraces};

use crate::list::FixerList;
use crate::performing::perform_all;
use crate::planning::first_plan;
use ck_base::faults::EditFault;
use edit_definitions::edit::Edit;
use fix_definitions::fault::SettleFault;
use model_doc::Document;
use model_writer::Batch;
use schema_rules::schema::Schema;

/// The fault of a plan one of whose edits can't be made.
fn refusal(fixer: u32, fault: EditFault) -> SettleFault
    ensures memory { fault ≡ NoMemoryForEdit → result ≡ OutOfMemory }
    ensures refused { fault ≢ NoMemoryForEdit → result ≡ SettleFault.FixerRefused fixer fault }
{
    match fault {
        EditFault::NoMemory => SettleFault::NoMemory,
        inner => SettleFault::FixerRefused { fixer, inner },
    }
}

/// Makes the edits of a plan, whose fixer has this number.
#[tactic(auto, using(crate::proofs::Turning::refused))]
fn make(
    document: &mut Document,
    schema: &Schema,
    fixer: u32,
    edits: &[Edit],
    batch: &mut Batch,
) -> Result<(), SettleFault>
    ensures performs { Performs fixer (all_performed (is_registered schema.now) 1 edits.now document.old.state) document.new.state result }
    ensures traced { Traces (is_registered schema.now) (numbered 1 edits.now) batch.old.records (present document.old) batch.new.records
        (present document.new) result }
    ensures selection { batch.new.selection ≡ batch.old.selection }
    ensures kept { document.new.kept ≡ document.old.kept }
{
    match perform_all(document, schema, edits, batch) {
        Ok(()) => Ok(()),
        Err(fault) => Err(refusal(fixer, fault)),
    }
}

/// Makes the plan of the first fixer that wants something. It answers whether there was one.
#[tactic(auto, using(crate::proofs::Turning::none_wanted, crate::proofs::Turning::turned, crate::proofs::Turning::not_turned, crate::proofs::Turning::plan_traced))]
fn round(
    document: &mut Document,
    schema: &Schema,
    fixers: &FixerList,
    batch: &mut Batch,
) -> Result<bool, SettleFault>
    ensures turns { Turns (is_registered schema.now) (fixings_of schema.now (λ object. fixes object) fixers.now) document.old.state document.new.state result }
    ensures traced { TurnTraces (is_registered schema.now) (fixings_of schema.now (λ object. fixes object) fixers.now) batch.old.records
        (present document.old) batch.new.records (present document.new) result }
    ensures selection { batch.new.selection ≡ batch.old.selection }
    ensures kept { document.new.kept ≡ document.old.kept }
{
    let mut edits = Vec::new(document.tree().items().allocator());
    let Ok(first) = first_plan(fixers.entries.as_slice(), document, schema, &mut edits) else {
        return Err(SettleFault::NoMemory);
    };
    let Some(fixer) = first else {
        return Ok(false);
    };
    match make(document, schema, fixer, edits.as_slice(), batch) {
        Ok(()) => Ok(true),
        Err(fault) => Err(fault),
    }
}

/// Whether no fixer wants anything, after all rounds.
#[tactic(auto, using(crate::proofs::Turning::none_wanted, crate::proofs::Turning::still_wanted))]
fn at_rest(
    document: &Document,
    schema: &Schema,
    fixers: &FixerList,
    rounds: u32,
) -> Result<(), SettleFault>
    ensures { Settles (at_end rounds document.now.state
        (first_plan 1 (fixings_of schema.now (λ object. fixes object) fixers.now) document.now.state.document)) document.now.state result }
{
    let mut edits = Vec::new(document.tree().items().allocator());
    let Ok(first) = first_plan(fixers.entries.as_slice(), document, schema, &mut edits) else {
        return Err(SettleFault::NoMemory);
    };
    match first {
        Some(fixer) => Err(SettleFault::NotSettled { rounds, fixer }),
        None => Ok(()),
    }
}

/// Brings a document to rest, in at most so many rounds.
#[tactic(auto, using(crate::proofs::Turning::stepped, crate::proofs::Turning::rested, crate::proofs::Turning::ended, record_definitions::proofs::Tracing::begins, record_definitions::proofs::Tracing::stops_behind, record_definitions::proofs::Tracing::stops, record_definitions::proofs::Turning::ends_at_rest, record_definitions::proofs::Turning::ends_with_rounds))]
fn settled(
    document: &mut Document,
    schema: &Schema,
    fixers: &FixerList,
    rounds: u32,
    batch: &mut Batch,
) -> Result<(), SettleFault>
    ensures settles { Settles (settle (is_registered schema.now) (fixings_of schema.now (λ object. fixes object) fixers.now) rounds document.old.state)
        document.new.state result }
    ensures traced { Traces (is_registered schema.now)
        (edits_of_rounds (is_registered schema.now) (fixings_of schema.now (λ object. fixes object) fixers.now) rounds document.old.state)
        batch.old.records (present document.old) batch.new.records (present document.new) result }
    ensures selection { batch.new.selection ≡ batch.old.selection }
    ensures kept { document.new.kept ≡ document.old.kept }
{
    let mut left = rounds;
    while left > 0 {
        match round(document, schema, fixers, batch) {
            Ok(true) => left -= 1,
            Ok(false) => return Ok(()),
            Err(fault) => return Err(fault),
        }
    }
    at_rest(document, schema, fixers, rounds)
}

/// Brings a document to rest: each round makes the plan of the first fixer whose plan isn't empty, and the next begins again with the first fixer.
/// The records of what is made go into the batch, also where it answers a fault. What the document keeps stays kept.
///
/// It answers Ok exactly where all plans are empty after at most so many rounds; `NotSettled` where a plan is still wanted then, with the first such
/// fixer; `FixerRefused` where an edit of a plan can't be made, with the plan's fixer and the edit's fault; and `NoMemory`. What a document is then,
/// and which fault it is, is what `fix_definitions` says.
#[tactic(auto, using(crate::proofs::Turning::made, crate::proofs::Turning::told_rounds, crate::proofs::Turning::told_refusal))]
pub fn settle(
    document: &mut Document,
    schema: &Schema,
    fixers: &FixerList,
    rounds: u32,
    batch: &mut Batch,
) -> Result<(), SettleFault>
    ensures ok { OnOk result (settle (is_registered schema.now) (fixings_of schema.now (λ object. fixes object) fixers.now) rounds document.old.state
        ≡ Ok document.new.state) }
    ensures not_settled { (others fixer : ℕ) → result ≡ Err (SettleFault.NotSettled others fixer)
        → settle (is_registered schema.now) (fixings_of schema.now (λ object. fixes object) fixers.now) rounds document.old.state
        ≡ Err (SettleFault.NotSettled others fixer) }
    ensures fixer_refused { (fixer : ℕ) (inner : EditFault) → result ≡ Err (SettleFault.FixerRefused fixer inner)
        → settle (is_registered schema.now) (fixings_of schema.now (λ object. fixes object) fixers.now) rounds document.old.state
        ≡ Err (SettleFault.FixerRefused fixer inner) }
    ensures traced { Traces (is_registered schema.now)
        (edits_of_rounds (is_registered schema.now) (fixings_of schema.now (λ object. fixes object) fixers.now) rounds document.old.state)
        batch.old.records (present document.old) batch.new.records (present document.new) result }
    ensures selection { batch.new.selection ≡ batch.old.selection }
    ensures kept { document.new.kept ≡ document.old.kept }
{
    settled(document, schema, fixers, rounds, batch)
}
