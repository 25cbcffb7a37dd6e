ghost use Rattle.std.specs.Prelude.{◌≡◌, ◌↔◌, [], IfOk};

use ck_base::NoMemory;
use std::alloc::Global;
use std::marker::Model;

/// A list of child indices, which leads from the view's own list of nodes to a node. The empty path stands for that list.
#[derive(Debug, Drop)]
pub struct ViewPath {
    indices: Vec<u64>,
}

impl Model for ViewPath {
    ghost use Rattle.std.specs.Prelude.{ℕ, List};

    ghost Value = { List ℕ };

    ghost view = { λ path. path.indices.items };
}

impl ViewPath {
    /// The path of these indices. It takes no memory.
    pub fn new(indices: Vec<u64>) -> ViewPath
        ensures { result ≡ indices.items }
    {
        ViewPath { indices }
    }

    /// The empty path. It takes no memory.
    pub fn root(alloc: Global) -> ViewPath
        ensures { result ≡ [] }
    {
        ViewPath {
            indices: Vec::new(alloc),
        }
    }

    /// Its indices, in order.
    pub fn as_slice(&self) -> &[u64]
        ensures { result.now ≡ self.now }
    {
        self.indices.as_slice()
    }

    /// The same path.
    pub fn copy(&self) -> Result<ViewPath, NoMemory>
        ensures { IfOk result (λ path. path ≡ self.now) }
    {
        let indices = self.indices.clone()?;
        Ok(ViewPath { indices })
    }
}

/// A place in a view: the path of an element and an offset among its children, or the path of a text and an offset among its Unicode
/// scalar values.
#[derive(Debug, Drop)]
pub struct ViewPlace {
    pub path: ViewPath,
    pub offset: u64,
}
