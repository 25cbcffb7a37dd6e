ghost use Rattle.std.specs.Prelude.{◌≡◌, ℕ, ◌<◌, [], ◌∷◌, ◌++◌, not, is_some, length, IfOk, IfSome};
ghost use Rattle.std.specs.Str.{bytes_eq};
ghost use Rattle.schema_definitions.specs.Names.{has};
ghost use Rattle.schema_rules.specs.Numbering.{named, is_at, with_name, with_names, AreDistinct};

use ck_base::NoMemory;
use ck_base::name::Name;
use std::alloc::Global;
use std::collections::BTreeMap;
use std::marker::Model;

/// Names, each with its number from 0 on. It is seen as the list of the names, none of which stands there twice.
#[derive(Debug, Drop)]
pub struct Numbering {
    names: Vec<Name>,
    places: BTreeMap<Name, usize>,
}

impl Model for Numbering {
    ghost use Rattle.std.specs.Prelude.{ℕ, List};
    ghost use Rattle.schema_rules.specs.Numbering.{IsNumbered};

    ghost Value = { List (List ℕ) };

    ghost view = { λ numbering. numbering.names.items };

    ghost invariant = { λ numbering. IsNumbered numbering.names.items numbering.places };
}

impl Numbering {
    /// No names. It takes no memory.
    pub fn new(alloc: Global) -> Numbering
        ensures { result ≡ [] }
    {
        Numbering {
            names: Vec::new(alloc),
            places: BTreeMap::new(alloc),
        }
    }

    /// One name more, unless it is there.
    pub fn with(self, name: &Name) -> Result<Numbering, NoMemory>
        ensures { IfOk result (λ numbering. numbering ≡ with_name self name.now) }
    {
        if self.place_of(name).is_some() {
            return Ok(self);
        }
        let Numbering {
            mut names,
            mut places,
        } = self;
        places.insert(name.copy()?, names.len())?;
        names.push(name.copy()?)?;
        Ok(Numbering { names, places })
    }

    /// The number of a name, if it has one.
    pub fn place_of(&self, name: &Name) -> Option<usize>
        ensures there { is_some result ≡ has self.now name.now }
        ensures inside { IfSome result (λ node. node < length self.now) }
        ensures meant { IfSome result (λ node. named self.now node ≡ name.now) }
        ensures exact { (node : ℕ) → node < length self.now → is_at result node ≡ bytes_eq name.now (named self.now node) }
    {
        self.places.get(name).copied()
    }

    /// More names, each unless it is there.
    pub fn with_all(self, more: &[Name]) -> Result<Numbering, NoMemory>
        ensures { IfOk result (λ numbering. numbering ≡ with_names self more.now) }
    {
        let mut names = self;
        for name in more {
            names = names.with(name)?;
        }
        Ok(names)
    }

    /// The names, in the order of their numbers.
    pub fn as_slice(&self) -> &[Name]
        ensures { result.now ≡ self.now }
    {
        self.names.as_slice()
    }

    /// What the names are allocated by.
    pub fn allocator(&self) -> Global {
        *self.names.allocator()
    }

    /// How many names there are.
    pub fn len(&self) -> usize
        ensures count { result ≡ length self.now }
        ensures distinct { AreDistinct self.now }
    {
        self.names.len()
    }
}
