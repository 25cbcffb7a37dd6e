use ck_base::faults::FieldPath;
use ck_base::name::Name;
use json_forms::fault::FormFault;
use schema_definitions::fault::SchemaFault;
use std::alloc::{AllocError, AllocFailed};

/// Why a settings file gives no settings. Where several hold, the first in this order is answered.
#[derive(Debug, Drop)]
pub enum SettingsFault {
    /// The file is no JSON value.
    NotJson,
    /// The form is broken first at this place.
    BadField(FieldPath),
    /// The first entry whose item was registered before it is about this item.
    TwiceRegistered(Name),
    /// The first name, in the order of the file, that has to be an item and is none.
    UnknownItem(Name),
    /// The first check without ancestors, counted from 1; 4294967295 stands for any larger number.
    BadCheck(u32),
    /// The first name of a product's converter that wasn't handed in, or that a converter before it has.
    UnknownCustom(Name),
    /// The first registered item, in the order of their bytes, that doesn't begin with `$` and that no converter makes an element of wherever it
    /// stands.
    NoConverter(Name),
    /// Memory ran out.
    NoMemory,
}

impl From<AllocError> for SettingsFault {
    ghost use Rattle.std.specs.Prelude.{◌≡◌};
    ghost use Rattle.settings_definitions.specs.declared.fault.SettingsFault.TheVariants.{NoMemory as OutOfMemory};

    ghost from_gives = { λ _ fault. fault ≡ OutOfMemory };

    fn from(_: AllocError) -> SettingsFault {
        SettingsFault::NoMemory
    }
}

impl<T: Drop> From<AllocFailed<T>> for SettingsFault {
    ghost use Rattle.std.specs.Prelude.{◌≡◌};
    ghost use Rattle.settings_definitions.specs.declared.fault.SettingsFault.TheVariants.{NoMemory as OutOfMemory};

    ghost from_gives = { λ _ fault. fault ≡ OutOfMemory };

    fn from(_: AllocFailed<T>) -> SettingsFault {
        SettingsFault::NoMemory
    }
}

impl From<FormFault> for SettingsFault {
    ghost use Rattle.std.specs.Prelude.{◌≡◌};
    ghost use Rattle.settings_definitions.specs.Faults.{of_form};

    ghost from_gives = { λ form fault. fault ≡ of_form form };

    fn from(fault: FormFault) -> SettingsFault {
        match fault {
            FormFault::NotJson => SettingsFault::NotJson,
            FormFault::BadField { path } => SettingsFault::BadField(path),
            FormFault::NoMemory => SettingsFault::NoMemory,
        }
    }
}

impl From<SchemaFault> for SettingsFault {
    ghost use Rattle.std.specs.Prelude.{◌≡◌};
    ghost use Rattle.settings_definitions.specs.Faults.{of_schema};

    ghost from_gives = { λ schema fault. fault ≡ of_schema schema };

    fn from(fault: SchemaFault) -> SettingsFault {
        match fault {
            SchemaFault::TwiceRegistered(name) => SettingsFault::TwiceRegistered(name),
            SchemaFault::UnknownItem(name) => SettingsFault::UnknownItem(name),
            SchemaFault::BadCheck(number) => SettingsFault::BadCheck(number),
            SchemaFault::NoMemory => SettingsFault::NoMemory,
        }
    }
}
