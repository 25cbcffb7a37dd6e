//! The calls of a fake, of which some are to fail.
ghost use Rattle.std.specs.Prelude.{◌≡◌, ◌^◌, ◌<◌, ◌≤◌};

use std::marker::Model;

/// Which calls are to fail, and how many were made and failed.
#[derive(Drop)]
pub(crate) struct CallPlan {
    failing: Vec<u64>,
    made: u64,
    failed: u64,
}

impl Model for CallPlan {
    ghost use Rattle.std.specs.Prelude.{◌^◌, ◌<◌};
    ghost use Rattle.ck_io.specs.PlannedCalls.{PlannedCalls};

    ghost Value = { PlannedCalls };

    ghost view = { λ plan. record { failing = plan.failing.items; made = plan.made; failed = plan.failed } };

    ghost invariant = { λ plan. plan.failed < 2 ^ 64 };
}

impl CallPlan {
    ghost use Rattle.ck_io.specs.PlannedCalls.{next_fails, after_call};

    /// No call was made. `failing` are the numbers, from 1, of the calls that are to fail.
    pub(crate) fn new(failing: Vec<u64>) -> CallPlan
        ensures { result ≡ record { failing = failing.items; made = 0; failed = 0 } }
    {
        CallPlan {
            failing,
            made: 0,
            failed: 0,
        }
    }

    /// Whether the next call is to fail.
    pub(crate) fn next_fails(&self) -> bool
        ensures { result ≡ next_fails self.now }
    {
        self.failing.contains(&self.made.saturating_add(1))
    }

    /// Counts one more call, which failed or not.
    pub(crate) fn count(&mut self, fails: bool)
        ensures counted { self.new ≡ after_call self.old fails }
        ensures never_falls { self.old.failed ≤ self.new.failed }
        ensures bounded { self.new.failed < 2 ^ 64 }
    {
        self.made = self.made.saturating_add(1);
        if fails {
            self.failed = self.failed.saturating_add(1);
        }
    }
}
