//! What the words of the command line ask for.
ghost use Rattle.std.specs.Prelude.{◌≡◌, map, option_map, string_bytes};
ghost use Rattle.program_definitions.specs.Task.{check_task, is_file_name, run_task, settings_name, task_of};
ghost use Rattle.editor_run.specs.Asked.{task_view};

/// What the words ask for, with the names of the files.
#[derive(Clone, Copy, Debug)]
pub enum Task<'a> {
    /// A script is run with settings.
    Run { settings: &'a str, script: &'a str },
    /// Settings are checked.
    Check { settings: &'a str },
}

impl<'a> Task<'a> {
    /// The name of the settings file.
    pub fn settings(self) -> &'a str
        ensures { result.now ≡ settings_name (task_view self.entry) }
    {
        match self {
            Task::Run { settings, .. } | Task::Check { settings } => settings,
        }
    }
}

/// What the words ask for: None where they are neither the program's name, `run` and the names of the settings and the script, nor the
/// program's name, `check` and the settings' name. A name isn't empty and doesn't begin with `-`.
#[tactic(auto, using(crate::proofs::Words::three_words, crate::proofs::Words::four_words, crate::proofs::Words::other_words))]
pub fn task_of(words: &[String]) -> Option<Task<'_>>
    ensures { option_map task_view result ≡ task_of (map string_bytes words.now) }
{
    match words.len() {
        3 => check_task(words[1].as_str(), words[2].as_str()),
        4 => run_task(words[1].as_str(), words[2].as_str(), words[3].as_str()),
        _ => None,
    }
}

/// The check that a verb and a name ask for.
fn check_task<'a>(verb: &'a str, settings: &'a str) -> Option<Task<'a>>
    ensures { option_map task_view result ≡ check_task verb.now settings.now }
{
    if verb == "check" && is_file_name(settings) {
        Some(Task::Check { settings })
    } else {
        None
    }
}

/// The run that a verb and two names ask for.
fn run_task<'a>(verb: &'a str, settings: &'a str, script: &'a str) -> Option<Task<'a>>
    ensures { option_map task_view result ≡ run_task verb.now settings.now script.now }
{
    if verb == "run" && is_file_name(settings) && is_file_name(script) {
        Some(Task::Run { settings, script })
    } else {
        None
    }
}

/// Whether a word can name a file: it isn't empty and doesn't begin with `-`.
fn is_file_name(word: &str) -> bool
    ensures { result ≡ is_file_name word.now }
{
    match word.as_bytes().first() {
        Some(byte) => *byte != b'-',
        None => false,
    }
}
