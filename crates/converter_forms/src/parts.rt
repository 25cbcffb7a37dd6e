//! The parts of a converter, as they are read one after the other.
use ck_base::name::Name;
use converter_definitions::kind::ShapeKind;
use converter_definitions::pattern::Patterns;

/// The kinds of converters in the settings. (After the names of CKEditor 5's conversion helpers.)
#[derive(Clone, Copy, Debug)]
pub enum ConverterKind {
    /// `elementToElement`
    Element,
    /// `elementToStructure`
    Structure,
    /// `attributeToElement`
    AttributeElement,
    /// `attributeToAttribute`
    Attribute,
    /// `markerToHighlight`
    Highlight,
    /// `markerToElement`
    Leaf,
    /// A converter of the product.
    Custom,
}

/// How many nodes and slots of a shape come before a node, in document order.
#[derive(Clone, Copy, Debug)]
pub struct Before {
    pub nodes: u32,
    pub slots: u32,
}

/// The fields of an element of a shape, without its children.
#[derive(Debug, Drop)]
pub struct Head {
    pub kind: ShapeKind,
    pub name: Name,
    pub attributes: Patterns,
}
