//! Texts of the view that may depend on an element of the model.
ghost use Rattle.std.specs.Prelude.{◌≡◌, OnOk, [], ◌∷◌, ◌++◌};

use ck_base::NoMemory;
use ck_base::name::Name;
use ck_base::text::ViewText;
use std::alloc::Global;
use std::marker::Model;

/// A text of the view.
#[derive(Debug, Drop)]
pub enum Pattern {
    /// This text.
    Text(ViewText),
    /// The value of this attribute of the model element: a whole number in decimal, `true`, `false`, or its text. Where the element hasn't
    /// the attribute, there is no text.
    From(Name),
    /// The element's index plus this number, in decimal.
    Index(u32),
}

/// Attributes of the view, each with a pattern of its text.
#[derive(Debug, Drop)]
pub struct Patterns {
    entries: Vec<(Name, Pattern)>,
}

impl Model for Patterns {
    ghost use Rattle.std.specs.Prelude.{ℕ, List};
    ghost use Rattle.converter_definitions.specs.declared.pattern.Pattern.{Pattern};

    ghost Value = { List (List ℕ × Pattern) };

    ghost view = { λ patterns. patterns.entries.items };
}

impl Patterns {
    /// None.
    pub fn new(alloc: Global) -> Patterns
        ensures { result ≡ [] }
    {
        Patterns {
            entries: Vec::new(alloc),
        }
    }

    /// One more, behind those that are there. It answers `NoMemory` alone beside Ok.
    pub fn push(&mut self, key: Name, pattern: Pattern) -> Result<(), NoMemory>
        ensures { OnOk result (self.new ≡ self.old ++ (key, pattern) ∷ []) }
    {
        self.entries.push((key, pattern))?;
        Ok(())
    }

    /// The attributes in their order.
    pub fn as_slice(&self) -> &[(Name, Pattern)]
        ensures { result.now ≡ self.now }
    {
        &self.entries
    }
}
