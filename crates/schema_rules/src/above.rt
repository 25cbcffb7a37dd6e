//! Where a walk over a document is.
ghost use Rattle.std.specs.Prelude.{◌≡◌, ◌<◌, [], ◌∷◌, ◌++◌, ℕ, List, length, codes, IfOk, OnOk};
ghost use Rattle.ck_base.specs.Name.{is_name};
ghost use Rattle.schema_rules.specs.Chosen as meant;
ghost use Rattle.schema_rules.specs.Chosen.{Standing, inside};

use crate::predefined::name_of;
use ck_base::NoMemory;
use ck_base::name::Name;
use ck_base::path::Path;
use std::alloc::Global;
use std::marker::Model;

/// The names of the ancestors, from the root on, and the path of the last of them.
#[derive(Debug, Drop)]
pub struct Above {
    names: Vec<Name>,
    path: Vec<u32>,
}

impl Model for Above {
    ghost use Rattle.schema_rules.specs.Chosen as meant;
    ghost use Rattle.schema_rules.specs.Chosen.{Standing};

    ghost Value = { Standing };

    ghost view = { λ above. record { names = above.names.items; path = above.path.items } };
}

impl Above {
    /// The root.
    #[tactic(auto, unfolding(ck_base::specs::Name::is_name))]
    pub fn root(alloc: Global) -> Result<Above, NoMemory>
        ensures { IfOk result (λ above. above ≡ meant.root) }
    {
        let mut names = Vec::new(alloc);
        names.push(name_of(alloc, "$root")?)?;
        Ok(Above {
            names,
            path: Vec::new(alloc),
        })
    }

    /// Goes into the element of this name at an index.
    pub fn enter(&mut self, name: &Name, index: u32) -> Result<(), NoMemory>
        ensures { OnOk result (self.new ≡ inside self.old name.now index) }
    {
        let name = name.copy()?;
        self.names.push(name)?;
        self.path.push(index)?;
        Ok(())
    }

    /// Goes back out of the last element.
    #[tactic(auto, using(crate::proofs::Placing::left))]
    pub fn leave(&mut self)
        ensures { (above : Standing) (name : List ℕ) (index : ℕ) → self.old ≡ inside above name index → self.new ≡ above }
    {
        let _ = self.names.pop();
        let _ = self.path.pop();
    }

    /// The names of the ancestors, from the root on.
    pub fn names(&self) -> &[Name]
        ensures { result.now ≡ self.now.names }
    {
        self.names.as_slice()
    }

    /// The path of the last of them.
    pub fn path(&self) -> &[u32]
        ensures { result.now ≡ self.now.path }
    {
        self.path.as_slice()
    }

    /// The path of the item at an index there.
    pub fn path_to(&self, index: u32) -> Path
        requires { length self.now.path < 65 }
        ensures { result ≡ self.now.path ++ index ∷ [] }
    {
        match Path::from_slice(*self.path.allocator(), self.path.as_slice()) {
            Some(mut path) => {
                path.push(index);
                path
            }
            None => unreachable!(),
        }
    }
}
