//! What holds of every machine and every line: each function is a law, which its clauses state.
ghost use Rattle.std.specs.Prelude.{◌≡◌, ℕ, ◌+◌, ◌⊎◌, List};
ghost use Rattle.step_definitions.specs.Step.{IsAccepted};
ghost use Rattle.program_definitions.specs.Machine.{Machine, answer};

/// A line that is answered leaves the machine as it is, or is one accepted change more, whose document obeys the schema and is settled. What
/// documents are edited under and shown by never changes.
pub fn lines_change_wholly_or_not()
    ensures changes { (machine : Machine) (number : ℕ) (line : List ℕ) → ((answer machine number line).machine ≡ machine)
        ⊎ (((answer machine number line).machine.accepted ≡ machine.accepted + 1)
        × IsAccepted machine.config.terms (answer machine number line).machine.document) }
    ensures config { (machine : Machine) (number : ℕ) (line : List ℕ) → (answer machine number line).machine.config ≡ machine.config }
{}
