//! What a run has written, against what is wanted of it.
ghost use Rattle.std.specs.Prelude.{◌≡◌, ◌≢◌, ◌≤◌, take, length, slice_get, IfSome, None};
ghost use Rattle.conformance.specs.Differs.{Differs};

use std::alloc::{AllocError, Global};

/// Where the bytes first differ: how many the two begin with in common. None exactly where they are equal.
pub fn first_difference(wanted: &[u8], got: &[u8]) -> Option<usize>
    ensures equal { result ≡ None → wanted.now ≡ got.now }
    ensures differ { IfSome result (Differs wanted.now got.now) }
{
    let mut index = 0;
    while index < wanted.len() && index < got.len() {
        if wanted[index] != got[index] {
            return Some(index);
        }
        index += 1;
    }
    if wanted.len() == got.len() {
        None
    } else {
        Some(index)
    }
}

/// The number of the line that an offset is in, from 1.
fn line_number(text: &[u8], offset: usize) -> u64 {
    text.iter()
        .take(offset)
        .filter(|byte| **byte == b'\n')
        .fold(1u64, |number, _| number.saturating_add(1))
}

/// The line that an offset is in, without its line feed; where there is none, an empty one.
fn line_at(text: &[u8], offset: usize) -> &[u8] {
    let Some(front) = text.get(..offset) else {
        return &[];
    };
    let start = match front.iter().rposition(|byte| *byte == b'\n') {
        Some(place) => place.saturating_add(1),
        None => 0,
    };
    let line = text.get(start..).unwrap_or(&[]);
    match line.iter().position(|byte| *byte == b'\n') {
        Some(end) => line.get(..end).unwrap_or(line),
        None => line,
    }
}

/// What is said of a text that isn't the one that is wanted: the first line that differs. None where they are equal.
pub fn told_difference(
    alloc: Global,
    wanted: &[u8],
    got: &[u8],
) -> Result<Option<String>, AllocError> {
    let Some(offset) = first_difference(wanted, got) else {
        return Ok(None);
    };
    let number = line_number(wanted, offset);
    let wanted = String::from_utf8_lossy(alloc, line_at(wanted, offset))?;
    let got = String::from_utf8_lossy(alloc, line_at(got, offset))?;
    Ok(Some(format!(in alloc; "line {number}: wanted \"{wanted}\", got \"{got}\"")?))
}
