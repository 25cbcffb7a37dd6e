ghost use Rattle.std.specs.Prelude.{◌≡◌, IfOk};

use ck_base::NoMemory;
use ck_base::name::Name;
use std::marker::Model;

/// A list of names, in the order in which they were written.
#[derive(Debug, Drop)]
pub struct Names {
    names: Vec<Name>,
}

impl Model for Names {
    ghost use Rattle.std.specs.Prelude.{ℕ, List};

    ghost Value = { List (List ℕ) };

    ghost view = { λ names. names.names.items };
}

impl Names {
    /// The list of these names. It takes no memory.
    pub fn new(names: Vec<Name>) -> Names
        ensures { result ≡ names.items }
    {
        Names { names }
    }

    /// The names, in order.
    pub fn as_slice(&self) -> &[Name]
        ensures { result.now ≡ self.now }
    {
        self.names.as_slice()
    }

    /// The same names. It answers `NoMemory` alone beside Ok.
    pub fn copy(&self) -> Result<Names, NoMemory>
        ensures { IfOk result (λ names. names ≡ self.now) }
    {
        let names = copied_names(&self.names)?;
        Ok(Names { names })
    }
}

/// A copy of each name.
fn copied_names(names: &Vec<Name>) -> Result<Vec<Name>, NoMemory>
    ensures { IfOk result (λ copies. copies.items ≡ names.now.items) }
{
    let mut copies = Vec::with_capacity(*names.allocator(), names.len())?;
    for name in names {
        copies.push(name.copy()?)?;
    }
    Ok(copies)
}
