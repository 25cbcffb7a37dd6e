/// What an element of a shape is.
#[derive(Clone, Copy, Debug)]
pub enum ShapeKind {
    /// It shows an element of the model, or a part of one.
    Container,
    /// It shows an element of the model, or a part of one, and never has children.
    Empty,
    /// It shows no item of the model.
    Ui,
}
