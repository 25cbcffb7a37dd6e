use crate::shape::Shape;
use ck_base::attributes::ViewAttrs;

/// What a product's converter writes.
#[derive(Debug, Drop)]
pub enum Part {
    /// The shape of the element.
    Shape(Shape<ViewAttrs>),
    /// More attributes for the outermost element of its shape.
    Extra(ViewAttrs),
}
