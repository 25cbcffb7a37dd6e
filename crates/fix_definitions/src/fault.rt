//! Why a document can't be brought to rest.
use ck_base::faults::EditFault;

/// Why a document doesn't settle. Fixers count from 1 in their list, and the edits of a plan from 1 in the plan; a fixer's number that is larger
/// than the type of its field is the greatest number of that type.
#[derive(Debug, Drop)]
pub enum SettleFault {
    /// After so many rounds a plan is still wanted, first by this fixer.
    NotSettled { rounds: u32, fixer: u32 },
    /// An edit that this fixer planned can't be made. The fault is never `NoMemory`.
    FixerRefused { fixer: u32, inner: EditFault },
    /// Memory ran out.
    NoMemory,
}
