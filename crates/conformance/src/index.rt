//! The index of the suite: the name of a case on each line, or a case with the report that is wanted of it.

/// A line of the index.
#[derive(Clone, Copy)]
pub struct Entry<'a> {
    /// The name of the case.
    pub name: &'a str,
    /// What the suite says of the case, which is there to show it. Empty for a case that does not differ.
    pub report: &'a str,
}

/// What a line of the index names: `NAME`, or `! NAME: REPORT`. None where it is empty or begins with `#`.
pub fn entry_of(line: &str) -> Option<Entry<'_>> {
    let line = line.trim();
    if line.is_empty() || line.starts_with('#') {
        return None;
    }
    match line
        .strip_prefix("! ")
        .and_then(|rest| rest.split_once(": "))
    {
        Some((name, report)) => Some(Entry { name, report }),
        None => Some(Entry {
            name: line,
            report: "",
        }),
    }
}
