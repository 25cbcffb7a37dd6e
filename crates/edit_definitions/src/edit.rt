//! The edits that a change is made of.
use ck_base::attributes::Attrs;
use ck_base::name::Name;
use ck_base::path::Path;
use ck_base::text::ViewText;
use ck_base::value::Value;
use model_pos::Position;
use model_tree::items::Items;

/// The items whose attribute an edit changes.
#[derive(Debug, Drop)]
pub enum Target {
    /// The items of a range: in the minimal flat ranges of which it is made, each item, but not what is in it.
    Range { start: Position, end: Position },
    /// The element at a path.
    Element(Path),
}

/// One edit of a change. (After the methods of `Writer` of CKEditor 5's model.)
#[derive(Debug, Drop)]
pub enum Edit {
    /// A text comes in at a position, each of its characters with these attributes.
    InsertText {
        at: Position,
        text: ViewText,
        attributes: Attrs,
    },
    /// An empty element comes in at a position.
    InsertElement {
        at: Position,
        name: Name,
        attributes: Attrs,
    },
    /// The items of a range go.
    Remove {
        start: Position,
        end: Position,
    },
    /// The items of a flat range go to a position.
    Move {
        start: Position,
        end: Position,
        to: Position,
    },
    /// Items get this value of a key.
    SetAttribute {
        target: Target,
        key: Name,
        value: Value,
    },
    /// Items lose the value of a key.
    RemoveAttribute {
        target: Target,
        key: Name,
    },
    /// An element gets another name.
    Rename {
        path: Path,
        name: Name,
    },
    /// The element that a position is in is split there.
    Split {
        at: Position,
    },
    /// The element behind a position is merged into the one before it.
    Merge {
        at: Position,
    },
    /// The items of a flat range go into a new element.
    Wrap {
        start: Position,
        end: Position,
        name: Name,
        attributes: Attrs,
    },
    /// The items of an element take its place.
    Unwrap {
        path: Path,
    },
    /// A new marker.
    AddMarker {
        name: Name,
        start: Position,
        end: Position,
    },
    /// A marker gets another range.
    UpdateMarker {
        name: Name,
        start: Position,
        end: Position,
    },
    /// A marker goes.
    RemoveMarker {
        name: Name,
    },
    /// The selection gets another range and direction, and no overrides.
    Select {
        start: Position,
        end: Position,
        backward: bool,
    },
    /// The selection overrides the value of a key, or overrides it with none.
    SelectionAttribute {
        key: Name,
        value: Option<Value>,
    },
    /// Items come in at a position. The ids in them are placeholders, and are drawn anew in document order.
    InsertItems {
        at: Position,
        items: Items,
    },
}
