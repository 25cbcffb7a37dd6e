//! What a script line asks for.
ghost use Rattle.std.specs.Prelude.{◌≡◌};

use edit_definitions::edit::Edit;
use std::marker::Model;
use view_tree::path::ViewPlace;

/// The edits of a change, in order. It is seen as their list.
#[derive(Debug, Drop)]
pub struct Edits {
    list: Vec<Edit>,
}

impl Model for Edits {
    ghost use Rattle.std.specs.Prelude.{List};
    ghost use Rattle.edit_definitions.specs.declared.edit.Edit.{Edit as MeantEdit};

    ghost Value = { List MeantEdit };

    ghost use Rattle.edit_definitions.specs.contracts.edit.Edit as contract;
    ghost use Rattle.std.specs.Coded.{codes};

    ghost coded = { Prim.hlevel (codes, contract.the_row.coded) };

    ghost view = { λ edits. edits.list.items };
}

impl Edits {
    /// These edits. It takes no memory.
    pub fn new(list: Vec<Edit>) -> Edits
        ensures { result ≡ list.items }
    {
        Edits { list }
    }

    /// The edits, in order.
    pub fn as_slice(&self) -> &[Edit]
        ensures { result.now ≡ self.now }
    {
        self.list.as_slice()
    }
}

/// What a script line asks for.
#[derive(Debug, Drop)]
pub enum Request {
    /// Edits, made one after the other; the change is refused as a whole.
    Change(Edits),
    /// A selection by two places of the view: from the position that the anchor means to the one that the focus means.
    SelectView { anchor: ViewPlace, focus: ViewPlace },
    /// The model and the view, printed with the markers and the selection or without.
    Show { selection: bool },
}
