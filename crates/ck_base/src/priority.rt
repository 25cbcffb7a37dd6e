ghost use Rattle.std.specs.Prelude.{◌≡◌, ◌↔◌, ℤ, pos, negsuc, true, false, Option, Some, None, IfSome, IsNone, codes};
ghost use Rattle.ck_base.specs.Priority.{is_priority, priority_word};

use std::marker::Model;

/// How early a converter comes: a whole number from -100000 to 100000, the higher the earlier. (After `priorities` of CKEditor 5.)
#[derive(Clone, Copy, Debug, PartialEq, Eq, PartialOrd, Ord)]
pub struct Priority {
    level: i32,
}

impl Model for Priority {
    ghost use Rattle.std.specs.Prelude.{◌≡◌, ℤ, true};
    ghost use Rattle.ck_base.specs.Priority.{is_priority};

    ghost Value = { ℤ };

    ghost view = { λ priority. priority.level };

    ghost invariant = { λ priority. is_priority priority.level ≡ true };

    ghost inverse = { λ level. record { level = level } };
}

impl Priority {
    /// The priority of a number: None exactly where it isn't from -100000 to 100000.
    pub fn new(level: i64) -> Option<Priority>
        ensures level { IfSome result (λ priority. priority ≡ level) }
        ensures out_of_range { IsNone result ↔ (is_priority level ≡ false) }
    {
        if -100000 <= level && level <= 100000 {
            Some(Priority {
                level: level as i32,
            })
        } else {
            None
        }
    }

    /// The priority of one of the words `highest`, `high`, `normal`, `low` and `lowest`, which mean 100000, 1000, 0, -1000 and
    /// -100000: None for any other text.
    pub fn from_word(word: &str) -> Option<Priority>
        ensures { result ≡ priority_word word.now }
    {
        let level = match word {
            "highest" => 100000,
            "high" => 1000,
            "normal" => 0,
            "low" => -1000,
            "lowest" => -100000,
            _ => return None,
        };
        Some(Priority { level })
    }

    /// Its number.
    pub fn level(self) -> i32
        ensures level { result ≡ self }
        ensures in_range { is_priority self ≡ true }
    {
        self.level
    }
}
