//! The record of an operation.
ghost use Rattle.std.specs.Prelude.{◌≡◌, IfOk};
ghost use Rattle.model_ops.specs.Limits.{IsWithin, SplitsElement};
ghost use Rattle.operation_definitions.specs.Back.{back};

use ck_base::NoMemory;
use live_selection::Selection;
use marker_table::Markers;
use model_ops::operation::Operation;
use model_ops::reversal::reverse;
use std::alloc::Global;
use std::marker::Model;

/// An operation that was made, with what is needed to take it back: a cell for what that may have to put away, and the markers, the
/// selection and the next id from before it.
#[derive(Drop)]
pub struct Record {
    pub(crate) operation: Operation,
    pub(crate) cell: u64,
    pub(crate) number: u64,
    pub(crate) markers: Markers,
    pub(crate) selection: Selection,
    pub(crate) next_id: u64,
}

impl Model for Record {
    ghost use Rattle.std.specs.Coded.{codes};
    ghost use Rattle.model_doc.specs.Code.{coded_item};
    ghost use Rattle.model_ops.specs.Meant.{operation_of};
    ghost use Rattle.model_doc.specs.Records.{Done};

    ghost Value = { Done };

    ghost coded = { Prim.hlevel (codes, coded_item) };

    ghost view = { λ made. record {
      operation = operation_of made.operation;
      cell = made.cell;
      number = made.number;
      markers = made.markers;
      selection =
          made.selection;
      next_id = made.next_id;
    } };
}

impl Record {
    /// The operation that takes its operation back. It answers `NoMemory` alone beside Ok.
    pub(crate) fn reversal(&self, alloc: Global) -> Result<Operation, NoMemory>
        requires split { SplitsElement self.now.operation }
        requires limits { IsWithin (back self.now.operation self.now.cell) }
        ensures { IfOk result (λ made. operation_of made ≡ back self.now.operation self.now.cell) }
    {
        reverse(alloc, &self.operation, self.cell)
    }

    /// The operation.
    pub fn operation(&self) -> &Operation
        ensures { operation_of result.now ≡ self.now.operation }
    {
        &self.operation
    }
}

ghost use Rattle.model_ops.specs.Meant.{operation_of};
