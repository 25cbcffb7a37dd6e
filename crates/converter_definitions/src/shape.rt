//! Shapes.
ghost use Rattle.std.specs.Prelude.{◌≡◌, Some, None, true, if◌then◌else◌};
ghost use Rattle.converter_definitions.specs.Parts.{shape_of, shapes_of};
ghost use Rattle.converter_definitions.specs.Shape.{is_shape};

use crate::fitting::is_shape;
use crate::kind::ShapeKind;
use ck_base::name::Name;
use ck_base::text::ViewText;
use std::marker::Model;

/// A node of a shape: what an element of the model becomes. `A` is what its elements have as attributes: texts, or in the settings patterns
/// of texts. (After the structures of CKEditor 5's `elementToStructure`.)
#[derive(Debug, Drop)]
#[cycle(shapes)]
pub enum ShapeNode<A> {
    /// Where the element's own content goes.
    Slot,
    /// A text of a UI element.
    Text(ViewText),
    /// An element of the view.
    Element {
        kind: ShapeKind,
        name: Name,
        attrs: A,
        children: ShapeNodes<A>,
    },
}

/// The children of an element of a shape.
#[derive(Debug, Drop)]
#[cycle(shapes)]
pub struct ShapeNodes<A> {
    nodes: Vec<ShapeNode<A>>,
}

impl<A> Model for ShapeNodes<A> {
    ghost use Rattle.std.specs.Prelude.{List};
    ghost use Rattle.converter_definitions.specs.Form.{Form, depth_of};
    ghost use Rattle.converter_definitions.specs.FormCode.{coded_forms};

    ghost Value = { List (Form A) };

    ghost coded = { coded_forms A.code };

    ghost use Rattle.converter_definitions.specs.Parts.{shapes_of};

    ghost view = { λ children. shapes_of children.nodes.items };

    ghost size = { depth_of };

    ghost use Rattle.converter_definitions.specs.ShapesFall.{shapes_larger};

    ghost size_decreases = { λ a h. shapes_larger a.nodes.items };
}

impl<A> ShapeNodes<A> {
    /// These nodes as children.
    pub fn new(nodes: Vec<ShapeNode<A>>) -> ShapeNodes<A>
        ensures { result ≡ shapes_of nodes.items }
    {
        ShapeNodes { nodes }
    }

    /// The nodes in their order.
    pub fn as_slice(&self) -> &[ShapeNode<A>]
        ensures { shapes_of result.now ≡ self.now }
    {
        &self.nodes
    }
}

/// A shape: a container or an empty element, of at most 32 nodes on at most 8 levels, with at most one slot, which stands in a container. UI
/// elements hold texts and UI elements alone, and nothing else holds texts.
#[derive(Debug, Drop)]
pub struct Shape<A> {
    outermost: ShapeNode<A>,
}

impl<A> Model for Shape<A> {
    ghost use Rattle.std.specs.Prelude.{◌≡◌, true};
    ghost use Rattle.converter_definitions.specs.Form.{Form};
    ghost use Rattle.converter_definitions.specs.FormCode.{coded_form};
    ghost use Rattle.converter_definitions.specs.Parts.{shape_of};
    ghost use Rattle.converter_definitions.specs.Shape.{is_shape};

    ghost Value = { Form A };

    ghost coded = { coded_form A.code };

    ghost view = { λ shape. shape_of shape.outermost };

    ghost invariant = { λ shape. is_shape (shape_of shape.outermost) ≡ true };
}

impl<A: Drop> Shape<A> {
    /// The shape with this outermost node. `None` exactly where that breaks a rule or the limit on shapes.
    pub fn new(outermost: ShapeNode<A>) -> Option<Shape<A>>
        ensures { result ≡ (if is_shape (shape_of outermost) then Some (shape_of outermost) else None) }
    {
        if is_shape(&outermost) {
            Some(Shape { outermost })
        } else {
            None
        }
    }

    /// Its outermost node.
    pub fn outermost(&self) -> &ShapeNode<A>
        ensures outermost { shape_of result.now ≡ self.now }
        ensures is_shape { is_shape self.now ≡ true }
    {
        &self.outermost
    }

    /// Its outermost node, taken out.
    pub fn into_outermost(self) -> ShapeNode<A>
        ensures outermost { shape_of result ≡ self }
        ensures is_shape { is_shape self ≡ true }
    {
        self.outermost
    }
}
