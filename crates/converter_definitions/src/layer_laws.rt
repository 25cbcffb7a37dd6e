//! What holds of the layers around characters and objects: each function is a law, which its clauses state.
ghost use Rattle.std.specs.Prelude.{◌≡◌, Bool, List};
ghost use Rattle.view_definitions.specs.Layer.{Layer};
ghost use Rattle.view_definitions.specs.Change.{IsInOrder, has_layer};
ghost use Rattle.converter_definitions.specs.Layers.{in_order, made_layers};

/// Layers that are put in order stand in their order, the outermost first and equal ones once, and are the same ones. So the layers around each
/// character and each object in the text are in order, whatever converters gave them.
pub fn layers_are_put_in_order()
    ensures sorted { (layers : List Layer) → IsInOrder (in_order layers) }
    ensures same { (layer : Layer) (layers : List Layer) → has_layer layer (in_order layers) ≡ has_layer layer layers }
    ensures made { (joined : Bool) (raw : List Layer) → IsInOrder (made_layers joined raw) }
{}
