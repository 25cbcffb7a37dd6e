//! The converters that a settings file can list.
use crate::pattern::{Pattern, Patterns};
use crate::shape::Shape;
use ck_base::attributes::{Attrs, ViewAttrs};
use ck_base::name::Name;
use ck_base::value::Value;

/// A converter of the settings. (After the helpers of CKEditor 5's `conversion.for( 'downcast' )`, whose names its forms have.)
#[derive(Debug, Drop)]
pub enum StockConverter {
    /// An element of this name, with these attributes and a parent of this name, becomes one element of the view.
    ElementToElement {
        model: Name,
        attributes: Attrs,
        parent: Option<Name>,
        view: ElementView,
    },
    /// Such an element becomes several elements of the view.
    ElementToStructure {
        model: Name,
        attributes: Attrs,
        parent: Option<Name>,
        view: Shape<Patterns>,
    },
    /// An attribute of characters and of objects in the text becomes an attribute element around them.
    AttributeToElement {
        model: Name,
        value: Option<Value>,
        view: LayerView,
    },
    /// An attribute of elements, of those of one name where it is there, becomes an attribute of the view element.
    AttributeToAttribute {
        element: Option<Name>,
        model: Name,
        value: Option<Value>,
        view: AttributeView,
    },
    /// A marker becomes an attribute element around what it covers.
    MarkerToHighlight {
        marker: Name,
        view: HighlightView,
    },
    /// A marker becomes a UI element at each of its ends.
    MarkerToElement {
        marker: Name,
        view: Leaf,
    },
}

/// An element of the view that shows an element of the model: its content is in it, or it is empty.
#[derive(Debug, Drop)]
pub struct ElementView {
    pub name: Name,
    pub is_empty: bool,
    pub attributes: Patterns,
}

/// An attribute element of the view, whose texts may depend on the attributes of what it is around.
#[derive(Debug, Drop)]
pub struct LayerView {
    pub name: Name,
    pub attributes: Patterns,
    pub priority: i32,
    pub id: Option<Name>,
}

/// An attribute of the view; without a pattern its text is the value of the model's attribute.
#[derive(Debug, Drop)]
pub struct AttributeView {
    pub key: Name,
    pub value: Option<Pattern>,
}

/// The attribute element of a marker; without an id of its own it has the marker's name as its id.
#[derive(Debug, Drop)]
pub struct HighlightView {
    pub name: Name,
    pub attributes: ViewAttrs,
    pub priority: i32,
    pub id: Option<Name>,
}

/// The UI element that stands at the ends of a marker.
#[derive(Debug, Drop)]
pub struct Leaf {
    pub name: Name,
    pub attrs: ViewAttrs,
}
