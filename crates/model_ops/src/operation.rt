//! The operations.
ghost use Rattle.std.specs.Prelude.{◌≡◌, IfOk};
ghost use Rattle.operation_definitions.specs.Operation.{attribute, rename, marker};
ghost use Rattle.model_ops.specs.Meant.{operation_of};

use ck_base::NoMemory;
use ck_base::name::Name;
use ck_base::path::Path;
use ck_base::value::Value;
use model_pos::{Position, Range};
use model_tree::id::ElementId;
use model_tree::items::Items;

/// Where items are taken from or go to.
#[derive(Debug, Drop)]
pub enum Place {
    /// A position in the tree.
    Tree(Position),
    /// A cell, by its number.
    Cell(u64),
}

/// Where the second element of a split comes from.
#[derive(Debug, Drop)]
pub enum Source {
    /// It is a new one with this id, and the name and attributes of the element that is split.
    Fresh(ElementId),
    /// It is in a cell.
    Cell(u64),
}

/// An operation.
#[derive(Debug, Drop)]
pub enum Operation {
    /// Items come in at a position.
    Insert {
        at: Position,
        items: Items,
    },
    /// `count` items move from one place to another.
    Move {
        from: Place,
        count: u32,
        to: Place,
    },
    /// The items of a range get another value of a key.
    Attribute {
        range: Range,
        key: Name,
        old: Option<Value>,
        new: Option<Value>,
    },
    /// An element gets another name.
    Rename {
        path: Path,
        old: Name,
        new: Name,
    },
    /// The parent of a position is split there.
    Split {
        at: Position,
        source: Source,
    },
    /// The element at a path is merged into the one before it, whose end is the target, and goes into a cell.
    Merge {
        right: Path,
        target: Position,
        cell: u64,
    },
    /// A marker gets another range.
    Marker {
        name: Name,
        old: Option<Range>,
        new: Option<Range>,
    },
}

impl Place {
    /// The same place.
    pub fn copy(&self) -> Place
        ensures { result ≡ self.now }
    {
        match self {
            Place::Tree(position) => Place::Tree(position.copy()),
            Place::Cell(number) => Place::Cell(*number),
        }
    }
}

impl Source {
    /// The same source.
    pub fn copy(&self) -> Source
        ensures { result ≡ self.now }
    {
        match self {
            Source::Fresh(id) => Source::Fresh(*id),
            Source::Cell(number) => Source::Cell(*number),
        }
    }
}

/// The same value, if there is one.
pub(crate) fn copied_value(value: &Option<Value>) -> Result<Option<Value>, NoMemory>
    ensures { IfOk result (λ copy. copy ≡ value.now) }
{
    match value {
        Some(value) => {
            let value = value.copy()?;
            Ok(Some(value))
        }
        None => Ok(None),
    }
}

/// The same range, if there is one.
pub(crate) fn copied_range(range: &Option<Range>) -> Option<Range>
    ensures { result ≡ range.now }
{
    match range {
        Some(range) => Some(range.copy()),
        None => None,
    }
}

impl Operation {
    /// The same operation. It answers `NoMemory` alone beside Ok.
    pub fn copy(&self) -> Result<Operation, NoMemory>
        ensures { IfOk result (λ copy. operation_of copy ≡ operation_of self.now) }
    {
        match self {
            Operation::Insert { at, items } => {
                let items = items.copy()?;
                Ok(Operation::Insert {
                    at: at.copy(),
                    items,
                })
            }
            Operation::Move { from, count, to } => Ok(Operation::Move {
                from: from.copy(),
                count: *count,
                to: to.copy(),
            }),
            Operation::Attribute {
                range,
                key,
                old,
                new,
            } => attribute(range, key, old, new),
            Operation::Rename { path, old, new } => rename(path, old, new),
            Operation::Split { at, source } => Ok(Operation::Split {
                at: at.copy(),
                source: source.copy(),
            }),
            Operation::Merge {
                right,
                target,
                cell,
            } => Ok(Operation::Merge {
                right: right.copy(),
                target: target.copy(),
                cell: *cell,
            }),
            Operation::Marker { name, old, new } => marker(name, old, new),
        }
    }
}

/// An operation on attributes, of copies of these parts.
pub(crate) fn attribute(
    range: &Range,
    key: &Name,
    old: &Option<Value>,
    new: &Option<Value>,
) -> Result<Operation, NoMemory>
    ensures { IfOk result (λ made. operation_of made ≡ attribute range.now key.now old.now new.now) }
{
    let key = key.copy()?;
    let old = copied_value(old)?;
    let new = copied_value(new)?;
    Ok(Operation::Attribute {
        range: range.copy(),
        key,
        old,
        new,
    })
}

/// A renaming, of copies of these parts.
pub(crate) fn rename(path: &Path, old: &Name, new: &Name) -> Result<Operation, NoMemory>
    ensures { IfOk result (λ made. operation_of made ≡ rename path.now old.now new.now) }
{
    let old = old.copy()?;
    let new = new.copy()?;
    Ok(Operation::Rename {
        path: path.copy(),
        old,
        new,
    })
}

/// An operation on a marker, of copies of these parts.
pub(crate) fn marker(
    name: &Name,
    old: &Option<Range>,
    new: &Option<Range>,
) -> Result<Operation, NoMemory>
    ensures { IfOk result (λ made. operation_of made ≡ marker name.now old.now new.now) }
{
    let name = name.copy()?;
    Ok(Operation::Marker {
        name,
        old: copied_range(old),
        new: copied_range(new),
    })
}
