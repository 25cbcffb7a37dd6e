use ck_base::path::Path;

/// Some items of a document.
#[derive(Debug, Drop)]
pub enum Spot {
    /// The items from one offset to another in the element at a path, without what is in them.
    Run { parent: Path, start: u32, end: u32 },
    /// The element at a path and all that is in it.
    Subtree(Path),
}
