//! What holds of converters: each function is a law, which its clauses state.
ghost use Rattle.std.specs.Prelude.{◌≡◌, ◌↔◌, ℕ, ℤ, List, IsTrue};
ghost use Rattle.converter_definitions.specs.Gives.{Converter};
ghost use Rattle.converter_definitions.specs.Priority.{added, AreByPriority, IsAddedTo};
ghost use Rattle.converter_definitions.specs.Layers.{goes_on, IsOfGroup};

/// A converter more stands behind all of equal or higher priority and before all of lower, nothing else changes, and the converters still are
/// in the order of their priorities.
pub fn added_behind_its_equals()
    ensures place { (next : ℤ × Converter) (list : List (ℤ × Converter)) → AreByPriority list → IsAddedTo next list (added next list) }
    ensures order { (next : ℤ × Converter) (list : List (ℤ × Converter)) → AreByPriority list → AreByPriority (added next list) }
{}

/// A marker's group goes on to its own name and to those that begin with it and a colon, and to no others. (After marker groups of CKEditor 5.)
pub fn group_goes_on_behind_a_colon()
    ensures { (group name : List ℕ) → IsTrue (goes_on group name) ↔ IsOfGroup group name }
{}
