use ck_base::name::Name;
use std::alloc::{AllocError, AllocFailed};

/// Why a schema file makes no schema. Where several hold, the first in this order is answered.
#[derive(Debug, Drop)]
pub enum SchemaFault {
    /// The first entry whose item was registered before it, by an earlier entry or from the start, is about this item.
    TwiceRegistered(Name),
    /// The first name, in the order of the file, that has to be an item and is none.
    UnknownItem(Name),
    /// The first check without ancestors, counted from 1; 4294967295 stands for any larger number.
    BadCheck(u32),
    /// Memory ran out.
    NoMemory,
}

impl From<AllocError> for SchemaFault {
    ghost use Rattle.std.specs.Prelude.{◌≡◌};
    ghost use Rattle.schema_definitions.specs.declared.fault.SchemaFault.TheVariants.{NoMemory as OutOfMemory};

    ghost from_gives = { λ _ fault. fault ≡ OutOfMemory };

    fn from(_: AllocError) -> SchemaFault {
        SchemaFault::NoMemory
    }
}

impl<T: Drop> From<AllocFailed<T>> for SchemaFault {
    ghost use Rattle.std.specs.Prelude.{◌≡◌};
    ghost use Rattle.schema_definitions.specs.declared.fault.SchemaFault.TheVariants.{NoMemory as OutOfMemory};

    ghost from_gives = { λ _ fault. fault ≡ OutOfMemory };

    fn from(_: AllocFailed<T>) -> SchemaFault {
        SchemaFault::NoMemory
    }
}
