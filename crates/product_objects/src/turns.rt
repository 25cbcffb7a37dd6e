//! What a converter does in its turn.
ghost use Rattle.std.specs.Prelude.{◌≡◌, true, None};
ghost use Rattle.converter_definitions.specs.declared.part.Part.TheVariants.{Shape as ShapePart, Extra as ExtraPart};
ghost use Rattle.converter_definitions.specs.Facts.{are_left};
ghost use Rattle.converter_definitions.specs.Parts.{shape_of};
ghost use Rattle.converter_definitions.specs.Shape.{is_shape};
ghost use Rattle.conv_rules.specs.Turn.{turn_if};

use ck_base::attributes::ViewAttrs;
use conv_rules::consumables::Consumables;
use conv_rules::converter::ShapeWriter;
use converter_definitions::facts::Key;
use converter_definitions::shape::{Shape, ShapeNode};

/// Writes a shape where these keys are left, and consumes them.
pub(crate) fn write_shape(
    left: &mut Consumables,
    out: &mut ShapeWriter,
    keys: &[Key],
    shape: Shape<ViewAttrs>,
)
    requires { out.old ≡ None }
    ensures { (left.new, out.new) ≡ turn_if (are_left left.old keys.now) keys.now (ShapePart shape) left.old }
{
    if left.take_all(keys) {
        out.shape(shape);
    }
}

/// Writes attributes where these keys are left, and consumes them.
pub(crate) fn write_extra(
    left: &mut Consumables,
    out: &mut ShapeWriter,
    keys: &[Key],
    attrs: ViewAttrs,
)
    requires { out.old ≡ None }
    ensures { (left.new, out.new) ≡ turn_if (are_left left.old keys.now) keys.now (ExtraPart attrs) left.old }
{
    if left.take_all(keys) {
        out.extra(attrs);
    }
}

/// The shape with this outermost node.
pub(crate) fn shape_with(node: ShapeNode<ViewAttrs>) -> Shape<ViewAttrs>
    requires { is_shape (shape_of node) ≡ true }
    ensures { result ≡ shape_of node }
{
    match Shape::new(node) {
        Some(shape) => shape,
        None => unreachable!(),
    }
}
