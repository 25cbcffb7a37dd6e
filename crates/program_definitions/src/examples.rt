//! The definitions computed at worked examples.
ghost use Rattle.std.specs.Prelude.{◌≡◌, ◌∷◌, [], ◌++◌, Some, None, codes};
ghost use Rattle.machine_definitions.specs.Lines.{lines_of};
ghost use Rattle.program_definitions.specs.Machine.{answers};
ghost use Rattle.program_definitions.specs.Sample.{machine};
ghost use Rattle.program_definitions.specs.Task.{task_of, run, check};

/// The words are of two forms alone.
pub fn words()
    ensures script { task_of (codes "ckcore" ∷ codes "run" ∷ codes "s" ∷ codes "a" ∷ []) ≡ Some (run (codes "s") (codes "a")) }
    ensures settings { task_of (codes "ckcore" ∷ codes "check" ∷ codes "s" ∷ []) ≡ Some (check (codes "s")) }
    ensures option { task_of (codes "ckcore" ∷ codes "run" ∷ codes "s" ∷ codes "-a" ∷ []) ≡ None }
    ensures no_script { task_of (codes "ckcore" ∷ codes "run" ∷ codes "s" ∷ []) ≡ None }
    ensures more { task_of (codes "ckcore" ∷ codes "check" ∷ codes "s" ∷ codes "a" ∷ []) ≡ None }
{}

/// A script that inserts `Hi` into a paragraph and shows it, with its output; then a line of no form.
pub fn hello()
    ensures { answers machine 1 (lines_of
        (codes "{\"do\":\"change\",\"edits\":[{\"edit\":\"insertText\",\"at\":[0,0],\"text\":\"Hi\"}]}\n{\"do\":\"show\",\"selection\":false}\n{\"do\":\"fly\"}"))
        ≡ codes "1 ok\n2 model <paragraph>Hi</paragraph>\n2 view <p>Hi</p>\n3 refused BadField /do\n" }
{}

/// A show with the selection; then a click behind the first character of the view, and one on a place that isn't there.
pub fn clicks()
    ensures shown { answers machine 1 (lines_of (codes "{\"do\":\"show\"}"))
        ≡ codes "1 model <paragraph>[]</paragraph>\n1 view <p>[]</p>\n1 selection forward\n" }
    ensures clicked { answers machine 1
        (lines_of (codes "{\"do\":\"change\",\"edits\":[{\"edit\":\"insertText\",\"at\":[0,0],\"text\":\"Hi\"}]}\n{\"do\":\"selectView\",\"anchor\":[0,0,1],\"focus\":[0,0,1]}\n{\"do\":\"show\"}"))
        ≡ codes "1 ok\n2 ok\n3 model <paragraph>H[]i</paragraph>\n3 view <p>H{}i</p>\n3 selection forward\n" }
    ensures nowhere { answers machine 1 (lines_of (codes "{\"do\":\"selectView\",\"anchor\":[0,1,0],\"focus\":[0,0]}"))
        ≡ codes "1 refused NotInView [0,1,0]\n" }
{}
