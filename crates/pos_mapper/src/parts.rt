//! What a mapper is told: where an element's content stands in its view element, and where the caret is seen.
ghost use Rattle.std.specs.Prelude.{◌≡◌, option_copied};

use model_pos::Position;
use model_tree::id::ElementId;
use std::marker::Model;
use view_tree::node::ViewNumber;

/// Where an element's content stands in its view element.
#[derive(Debug, Drop)]
pub struct Slot {
    pub(crate) place: Vec<u64>,
    pub(crate) behind: u64,
}

impl Model for Slot {
    ghost use Rattle.pos_mapper.specs.Bindings.{Slot as Parts};
    ghost use Rattle.pos_mapper.specs.Codes.{coded_slot};

    ghost Value = { Parts };

    ghost coded = { coded_slot };

    ghost view = { λ slot. record { place = slot.place.items; behind = slot.behind } };
}

impl Slot {
    /// The slot at the end of these indices of children, the last of which is where the content begins in its list; so many nodes stand
    /// behind the content in this list. It takes no memory.
    pub fn new(place: Vec<u64>, behind: u64) -> Slot
        ensures { result ≡ record { place = place.items; behind = behind } }
    {
        Slot { place, behind }
    }
}

/// The view element of an element of the document, and its slot, if it has one.
#[derive(Debug, Drop)]
pub(crate) struct Binding {
    pub(crate) id: ElementId,
    pub(crate) number: ViewNumber,
    pub(crate) slot: Option<Slot>,
}

impl Model for Binding {
    ghost use Rattle.pos_mapper.specs.Bindings.{Binding as Parts};
    ghost use Rattle.pos_mapper.specs.Codes.{coded_binding};

    ghost Value = { Parts };

    ghost coded = { coded_binding };

    ghost view = { λ binding. record { id = binding.id; number = binding.number; slot = binding.slot } };
}

impl Binding {
    /// The slot, if there is one.
    pub(crate) fn slot(&self) -> Option<&Slot>
        ensures { option_copied result ≡ self.now.slot }
    {
        self.slot.as_ref()
    }
}

/// The caret's position, and where it is seen in the content of the position's parent.
#[derive(Debug, Drop)]
pub struct CaretPlace {
    pub(crate) at: Position,
    pub(crate) place: Vec<u64>,
}

impl Model for CaretPlace {
    ghost use Rattle.pos_mapper.specs.Bindings.{CaretPlace as Parts};
    ghost use Rattle.pos_mapper.specs.Codes.{coded_caret};

    ghost Value = { Parts };

    ghost coded = { coded_caret };

    ghost view = { λ caret. record { at = caret.at; place = caret.place.items } };
}

impl CaretPlace {
    /// The caret at a position, which is seen at this place in the content of its parent. It takes no memory.
    pub fn new(at: Position, place: Vec<u64>) -> CaretPlace
        ensures { result ≡ record { at = at; place = place.items } }
    {
        CaretPlace { at, place }
    }
}
