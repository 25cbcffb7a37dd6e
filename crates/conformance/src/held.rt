//! The files that a case holds.
use crate::case::{Case, Piece};
use ck_io::{FetchFault, Files};
use std::alloc::{AllocError, Global};

/// The most bytes that a file of the suite may have.
pub const MOST_BYTES: u64 = 16_777_216;

/// A file in memory: its name and its bytes.
pub type Held = (String, Vec<u8>);

/// Why a case has no files, or none is run.
#[derive(Drop)]
pub enum CaseFault {
    /// What the suite says of the case.
    Told(String),
    /// Memory ran out.
    NoMemory,
}

impl From<AllocError> for CaseFault {
    fn from(_: AllocError) -> CaseFault {
        CaseFault::NoMemory
    }
}

/// The bytes of a file of the suite. It answers `Told` where it can't be read.
pub fn fetched<F: Files>(alloc: Global, files: &mut F, name: &str) -> Result<Vec<u8>, CaseFault> {
    match files.fetch(alloc, name, MOST_BYTES) {
        Ok(bytes) => Ok(bytes),
        Err(FetchFault::NoMemory) => Err(CaseFault::NoMemory),
        Err(_) => Err(CaseFault::Told(format!(in alloc; "{name} can't be read")?)),
    }
}

/// Puts a piece behind the bytes of a file.
fn push_piece(bytes: &mut Vec<u8>, piece: &Piece) -> Result<(), AllocError> {
    for _ in 0..piece.times.unwrap_or(1) {
        if let Some(text) = &piece.text {
            bytes.extend_from_slice(text.as_bytes())?;
        }
        if let Some(byte) = piece.byte {
            bytes.push(byte)?;
        }
    }
    Ok(())
}

/// The bytes that pieces make.
fn joined(alloc: Global, pieces: &[Piece]) -> Result<Vec<u8>, AllocError> {
    let mut bytes = Vec::new(alloc);
    for piece in pieces {
        push_piece(&mut bytes, piece)?;
    }
    Ok(bytes)
}

/// A file of this name and these bytes.
fn held_as(alloc: Global, name: &str, bytes: Vec<u8>) -> Result<Held, AllocError> {
    Ok((String::from_str(alloc, name)?, bytes))
}

/// Puts a file behind others.
fn push_file(held: &mut Vec<Held>, file: Held) -> Result<(), AllocError> {
    held.push(file)?;
    Ok(())
}

/// The files that a case holds: those that it puts together, the script, and the shared settings that it names.
pub fn held_files<F: Files>(
    alloc: Global,
    case: &Case,
    files: &mut F,
) -> Result<Vec<Held>, CaseFault> {
    let mut held = Vec::new(alloc);
    for file in &case.files {
        let bytes = joined(alloc, file.pieces.as_slice())?;
        push_file(&mut held, held_as(alloc, file.name.as_str(), bytes)?)?;
    }
    if let Some(script) = &case.script {
        let bytes = script.as_bytes().to_vec(alloc)?;
        push_file(&mut held, held_as(alloc, "script", bytes)?)?;
    }
    if let Some(settings) = &case.settings {
        let name = format!(in alloc; "settings/{settings}.json")?;
        let bytes = fetched(alloc, files, name.as_str())?;
        push_file(&mut held, held_as(alloc, "settings", bytes)?)?;
    }
    Ok(held)
}
