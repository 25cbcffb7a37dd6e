//! What a product adds to the converters.
ghost use Rattle.std.specs.Prelude.{◌≡◌, OnOk, Some, None, Option, List};
ghost use Rattle.converter_definitions.specs.declared.facts.Facts.{Facts};
ghost use Rattle.converter_definitions.specs.declared.facts.Key.{Key};
ghost use Rattle.converter_definitions.specs.declared.part.Part.{Part};
ghost use Rattle.conv_rules.specs.Turn.{IsLawful, turn};

use crate::consumables::Consumables;
use ck_base::NoMemory;
use ck_base::attributes::ViewAttrs;
use ck_base::steps::StepToken;
use converter_definitions::facts::Facts;
use converter_definitions::part::Part;
use converter_definitions::shape::Shape;
use std::alloc::Global;
use std::marker::Model;

/// Where a converter writes what it makes of an element, seen as what is written, if anything is.
#[derive(Debug, Drop)]
pub struct ShapeWriter {
    part: Option<Part>,
}

impl Model for ShapeWriter {
    ghost use Rattle.std.specs.Prelude.{Option};
    ghost use Rattle.converter_definitions.specs.declared.part.Part.{Part};
    ghost use Rattle.converter_definitions.specs.contracts.part.Part as contract;
    ghost use Rattle.std.specs.Coded.{codes};

    ghost Value = { Option Part };

    ghost coded = { Prim.hlevel (codes, contract.the_row.coded) };

    ghost view = { λ writer. writer.part };
}

impl ShapeWriter {
    /// With nothing written. It takes no memory.
    pub fn new() -> ShapeWriter
        ensures { result ≡ None }
    {
        ShapeWriter { part: None }
    }

    /// Writes a shape. Nothing may be written yet. It takes no memory.
    pub fn shape(&mut self, shape: Shape<ViewAttrs>)
        requires { self.old ≡ None }
        ensures { self.new ≡ Some (Part.Shape shape) }
    {
        self.part = Some(Part::Shape(shape));
    }

    /// Writes attributes for the outermost element of the shape that another converter makes. Nothing may be written yet. It takes no memory.
    pub fn extra(&mut self, attrs: ViewAttrs)
        requires { self.old ≡ None }
        ensures { self.new ≡ Some (Part.Extra attrs) }
    {
        self.part = Some(Part::Extra(attrs));
    }

    /// What is written.
    pub(crate) fn into_part(self) -> Option<Part>
        ensures { result ≡ self }
    {
        self.part
    }
}

/// A converter that a product adds. What it makes of an element depends on the facts alone. (After the callbacks of
/// `dispatcher.on( 'insert' )` and `dispatcher.on( 'attribute' )` of CKEditor 5.)
pub trait Converter: Drop {
    /// what it makes of an element with these facts, if anything, with the keys that it consumes for that
    ghost gives: { Self → Facts → Option (List Key × Part) };

    /// who writes a shape consumes `insert`, and who writes attributes consumes something else
    ghost lawful: { (object : Self) → (facts : Facts) → IsLawful (gives object facts) };

    /// Converts an element. Where all of its keys are left, it consumes them and writes its part; otherwise nothing changes. The writer is
    /// empty. Each call has a token of its own. It answers `NoMemory` alone beside Ok.
    fn convert(
        &self,
        alloc: Global,
        facts: &Facts,
        left: &mut Consumables,
        out: &mut ShapeWriter,
        token: StepToken,
    ) -> Result<(), NoMemory>
        requires { out.old ≡ None }
        ensures { OnOk result ((left.new, out.new) ≡ turn (gives self.now facts.now) left.old) };
}
