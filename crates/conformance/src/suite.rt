//! The cases of the index, one after the other.
use crate::case::Case;
use crate::comparing::told_difference;
use crate::held::{CaseFault, fetched, held_files};
use crate::index::{Entry, entry_of};
use crate::tally::Tally;
use ck_base::steps::{Ledger, Steps};
use ck_io::{Files, MemoryFiles, MemorySink};
use editor_run::run_product;
use std::alloc::{AllocError, Global};
use std::collections::BTreeSet;

/// The case of a name. It answers `Told` where its file can't be read, or breaks the form.
fn read_case<F: Files>(alloc: Global, name: &str, files: &mut F) -> Result<Case, CaseFault> {
    let name = format!(in alloc; "cases/{name}.toml")?;
    let bytes = fetched(alloc, files, name.as_str())?;
    match toml::from_slice::<Case>(alloc, bytes.as_slice()) {
        Ok(case) => Ok(case),
        Err(fault) => {
            let words = fault.to_string(alloc)?;
            Err(CaseFault::Told(words.trim_end().replace(alloc, "\n", " ")?))
        }
    }
}

/// The words of the command line of a case that has none of its own.
const USUAL_WORDS: [&str; 4] = ["ckcore", "run", "settings", "script"];

/// Puts a word behind others.
fn push_word(words: &mut Vec<String>, word: String) -> Result<(), AllocError> {
    words.push(word)?;
    Ok(())
}

/// The words of the command line of a case that has none of its own.
fn usual_words(alloc: Global) -> Result<Vec<String>, AllocError> {
    let mut words = Vec::new(alloc);
    for word in &USUAL_WORDS {
        push_word(&mut words, String::from_str(alloc, word)?)?;
    }
    Ok(words)
}

/// What is said of a run that ended with this status and has written this.
fn told_run(
    alloc: Global,
    case: &Case,
    status: u8,
    written: &[u8],
) -> Result<Option<String>, AllocError> {
    match told_difference(alloc, case.output.as_bytes(), written)? {
        Some(words) => Ok(Some(words)),
        None if case.status != status => Ok(Some(format!(in alloc;
            "status wanted {}, got {status}",
            case.status
        )?)),
        None => Ok(None),
    }
}

/// Runs the program on a case, and answers what is said of it: None where it does not differ.
fn run_case<F: Files, L: Ledger>(
    alloc: Global,
    name: &str,
    files: &mut F,
    steps: &mut Steps<L>,
) -> Result<Option<String>, CaseFault> {
    let case = read_case(alloc, name, files)?;
    let mut held = MemoryFiles::new(
        held_files(alloc, &case, files)?,
        case.failing_fetches.clone()?,
    );
    let mut out = MemorySink::new(
        case.takes.unwrap_or(u64::MAX).max(1),
        case.failing_writes.clone()?,
    );
    let words = match &case.words {
        Some(words) => words.clone()?,
        None => usual_words(alloc)?,
    };
    let status = run_product(alloc, words.as_slice(), &mut held, &mut out, steps)?;
    Ok(told_run(alloc, &case, status, out.bytes())?)
}

/// Runs an entry of the index, and answers what is said of it: an empty text where it does not differ.
fn report_of<F: Files, L: Ledger>(
    alloc: Global,
    name: &str,
    files: &mut F,
    steps: &mut Steps<L>,
) -> Result<String, AllocError> {
    match run_case(alloc, name, files, steps) {
        Ok(None) => Ok(String::new(alloc)),
        Ok(Some(words)) => Ok(words),
        Err(CaseFault::Told(words)) => Ok(words),
        Err(CaseFault::NoMemory) => Err(AllocError),
    }
}

/// Runs the cases of an index, in its order.
fn run_index<F: Files, L: Ledger>(
    alloc: Global,
    index: &str,
    files: &mut F,
    steps: &mut Steps<L>,
) -> Result<Tally, AllocError> {
    let mut names = BTreeSet::new(alloc);
    let mut tally = Tally::new(alloc);
    for Entry { name, report } in index.lines().filter_map(entry_of) {
        if names.insert(name)? {
            let told = report_of(alloc, name, files, steps)?;
            tally.count(alloc, name, report, told.as_str())?;
        } else {
            tally.count(alloc, name, report, "named twice")?;
        }
    }
    Ok(tally)
}

/// Runs each case of the file `index`, in its order. It answers `Told` where that can't be read.
pub fn run_suite<F: Files, L: Ledger>(
    alloc: Global,
    files: &mut F,
    steps: &mut Steps<L>,
) -> Result<Tally, CaseFault> {
    let bytes = fetched(alloc, files, "index")?;
    let index = String::from_utf8_lossy(alloc, bytes.as_slice())?;
    Ok(run_index(alloc, index.as_str(), files, steps)?)
}
