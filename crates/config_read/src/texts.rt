//! The printed texts of the faults of settings.
ghost use Rattle.std.specs.Prelude.{◌≡◌, ◌≢◌, IfOk, string_bytes};
ghost use Rattle.settings_definitions.specs.Texts.{settings_text};

use ck_base::NoMemory;
use settings_definitions::fault::SettingsFault;
use std::alloc::Global;
use text_escapes::escapes::quoted_text;

/// The text of a fault: its name, and its field behind a blank. It answers `NoMemory` alone beside Ok.
#[tactic(auto, unfolding(settings_definitions::specs::Texts::settings_text))]
pub fn settings_text(alloc: Global, fault: &SettingsFault) -> Result<String, NoMemory>
    requires { fault.now ≢ SettingsFault.NoMemory }
    ensures { IfOk result (λ text. string_bytes text ≡ settings_text fault.now) }
{
    match fault {
        SettingsFault::NotJson => String::from_str(alloc, "NotJson"),
        SettingsFault::BadField(path) => {
            let path = quoted_text(alloc, path.scalars())?;
            format!(in alloc; "BadField {path}")
        }
        SettingsFault::TwiceRegistered(name) => format!(in alloc; "TwiceRegistered {name}"),
        SettingsFault::UnknownItem(name) => format!(in alloc; "UnknownItem {name}"),
        SettingsFault::BadCheck(count) => format!(in alloc; "BadCheck {count}"),
        SettingsFault::UnknownCustom(name) => format!(in alloc; "UnknownCustom {name}"),
        SettingsFault::NoConverter(name) => format!(in alloc; "NoConverter {name}"),
        SettingsFault::NoMemory => unreachable!(),
    }
}
