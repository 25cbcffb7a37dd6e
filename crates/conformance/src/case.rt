//! A case: the words of the command line and the files that are held, and what the program writes on them, as a TOML file.
use serde::Deserialize;

/// A worked script, or another run of the program.
#[derive(Drop, Deserialize)]
#[serde(deny_unknown_fields)]
pub struct Case {
    /// The rule that the case shows, in words.
    pub shows: String,
    /// The words of the command line. Without them: `ckcore run settings script`.
    pub words: Option<Vec<String>>,
    /// The name of a file of shared settings, which is held as `settings`.
    pub settings: Option<String>,
    /// The script, which is held as `script`.
    pub script: Option<String>,
    /// Further files that are held; of two of one name the first is meant.
    #[serde(default)]
    pub files: Vec<HeldFile>,
    /// The most bytes that the sink takes in a call, at least 1; without it all.
    pub takes: Option<u64>,
    /// The numbers, from 1, of the fetches that fail.
    #[serde(default)]
    pub failing_fetches: Vec<u64>,
    /// The numbers, from 1, of the writes that fail.
    #[serde(default)]
    pub failing_writes: Vec<u64>,
    /// The status that is wanted.
    #[serde(default)]
    pub status: u8,
    /// The text that is wanted.
    pub output: String,
}

/// A file whose contents are put together from pieces.
#[derive(Drop, Deserialize)]
#[serde(deny_unknown_fields)]
pub struct HeldFile {
    pub name: String,
    pub pieces: Vec<Piece>,
}

/// A text or a byte, or both, so many times.
#[derive(Drop, Deserialize)]
#[serde(deny_unknown_fields)]
pub struct Piece {
    pub text: Option<String>,
    pub byte: Option<u8>,
    /// How often; without it once.
    pub times: Option<u32>,
}
