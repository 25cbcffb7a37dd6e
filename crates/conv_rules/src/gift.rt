//! What a converter gives, and what all that had their turn gave.
ghost use Rattle.std.specs.Prelude.{◌≡◌, OnOk, [], Some, None};
ghost use Rattle.converter_definitions.specs.Gives.{with_gift, with_given};
ghost use Rattle.converter_definitions.specs.Gives.{part as part_given};
ghost use Rattle.conv_rules.specs.Gifts.{given_view, gift_view, gift_viewed, made_view};

use crate::consumables::Consumables;
use ck_base::NoMemory;
use ck_base::attributes::ViewAttrs;
use converter_definitions::facts::Key;
use converter_definitions::part::Part;
use converter_definitions::shape::Shape;
use std::alloc::Global;
use view_tree::kind::Layer;

/// What a converter writes.
#[derive(Drop)]
pub(crate) enum Given {
    /// A shape, or attributes for its outermost element.
    Part(Part),
    /// A layer around the element.
    Around(Layer),
}

/// What a converter gives where all of its keys are left.
#[derive(Drop)]
pub(crate) struct Gift {
    pub(crate) keys: Vec<Key>,
    pub(crate) given: Given,
}

/// What the converters gave so far, and what they left.
#[derive(Drop)]
pub(crate) struct Collected {
    pub(crate) left: Consumables,
    pub(crate) form: Option<Shape<ViewAttrs>>,
    pub(crate) extras: Vec<ViewAttrs>,
    pub(crate) layers: Vec<Layer>,
}

impl Collected {
    /// Before the first converter.
    pub(crate) fn new(alloc: Global, left: Consumables) -> Collected
        ensures { made_view result ≡ record { left = left; form = None; extras = []; layers = [] } }
    {
        Collected {
            left,
            form: None,
            extras: Vec::new(alloc),
            layers: Vec::new(alloc),
        }
    }

    /// Adds what is given.
    fn add(&mut self, given: Given) -> Result<(), NoMemory>
        ensures { OnOk result (made_view self.new ≡ with_given (given_view given) (made_view self.old)) }
    {
        match given {
            Given::Part(part) => self.add_part(part),
            Given::Around(layer) => {
                self.layers.push(layer)?;
                Ok(())
            }
        }
    }

    /// Adds a part.
    pub(crate) fn add_part(&mut self, part: Part) -> Result<(), NoMemory>
        ensures { OnOk result (made_view self.new ≡ with_given (part_given part) (made_view self.old)) }
    {
        match part {
            Part::Shape(shape) => {
                self.form = Some(shape);
                Ok(())
            }
            Part::Extra(attrs) => {
                self.extras.push(attrs)?;
                Ok(())
            }
        }
    }

    /// Takes a gift, if there is one and all of its keys are left.
    pub(crate) fn take(&mut self, gift: Option<Gift>) -> Result<(), NoMemory>
        ensures { OnOk result (made_view self.new ≡ with_gift (made_view self.old) (gift_viewed gift)) }
    {
        let Some(Gift { keys, given }) = gift else {
            return Ok(());
        };
        if self.left.take_all(keys.as_slice()) {
            self.add(given)?;
        }
        Ok(())
    }

    /// The layers alone.
    pub(crate) fn into_layers(self) -> Vec<Layer>
        ensures { result.items ≡ (made_view self).layers }
    {
        self.layers
    }
}
