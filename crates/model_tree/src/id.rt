//! The ids of elements.
ghost use Rattle.std.specs.Prelude.{◌≡◌, ◌<◌, ◌^◌};

use std::marker::Model;

/// The id of an element: a number below 2^63. The root has the id 0.
#[derive(Clone, Copy, Debug, PartialEq, Eq, PartialOrd, Ord)]
pub struct ElementId {
    number: u64,
}

impl Model for ElementId {
    ghost use Rattle.std.specs.Prelude.{ℕ, ◌<◌, ◌^◌};

    ghost Value = { ℕ };

    ghost view = { λ id. id.number };

    ghost invariant = { λ id. id.number < 2 ^ 63 };

    ghost inverse = { λ number. record { number = number } };
}

impl ElementId {
    /// The id of this number.
    pub fn new(number: u64) -> ElementId
        requires { number < 2 ^ 63 }
        ensures { result ≡ number }
    {
        ElementId { number }
    }

    /// Its number.
    pub fn value(self) -> u64
        ensures number { result ≡ self }
        ensures small { result < 2 ^ 63 }
    {
        self.number
    }
}
