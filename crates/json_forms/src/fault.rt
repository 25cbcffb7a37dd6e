use ck_base::faults::FieldPath;
use std::alloc::{AllocError, AllocFailed};

/// Why a text has no value of a form.
#[derive(Debug, Drop)]
pub enum FormFault {
    /// The text is no JSON value.
    NotJson,
    /// The form is broken first at this place.
    BadField { path: FieldPath },
    /// Memory ran out.
    NoMemory,
}

impl From<AllocError> for FormFault {
    ghost use Rattle.std.specs.Prelude.{◌≡◌};
    ghost use Rattle.json_forms.specs.declared.fault.FormFault.TheVariants.{NoMemory as OutOfMemory};

    ghost from_gives = { λ _ fault. fault ≡ OutOfMemory };

    fn from(_: AllocError) -> FormFault {
        FormFault::NoMemory
    }
}

impl<T: Drop> From<AllocFailed<T>> for FormFault {
    ghost use Rattle.std.specs.Prelude.{◌≡◌};
    ghost use Rattle.json_forms.specs.declared.fault.FormFault.TheVariants.{NoMemory as OutOfMemory};

    ghost from_gives = { λ _ fault. fault ≡ OutOfMemory };

    fn from(_: AllocFailed<T>) -> FormFault {
        FormFault::NoMemory
    }
}
