//! The mapper of a view.
ghost use Rattle.std.specs.Prelude.{◌≡◌, ◌<◌, ◌++◌, [], ◌∷◌, length, None, Some, OnOk, OnErr, IfOk, IfErr, option_map, option_copied};
ghost use Rattle.std.specs.Option.{option_map_or};
ghost use Rattle.pos_mapper.specs.Bindings.{numbers_of, with_binding};
ghost use Rattle.pos_mapper.specs.Mapped.{Shows, Means};

use crate::parts::{Binding, CaretPlace, Slot};
use crate::reading::{Reader, read_nodes};
use crate::seeking::{Sought, push_shown};
use crate::table::Table;
use ck_base::NoMemory;
use ck_base::path::Path;
use model_pos::Position;
use model_tree::id::ElementId;
use std::alloc::Global;
use std::marker::Model;
use view_tree::node::ViewNumber;
use view_tree::path::{ViewPath, ViewPlace};
use view_tree::view::View;

/// Why a place of the view means no position of the document.
#[derive(Clone, Copy, Debug, PartialEq, Eq)]
pub enum MapFault {
    /// The place isn't there, or isn't in the content of the root or of a slot.
    NotInView,
}

/// Which view elements show the elements of a document, where their contents stand in them, and where the caret is seen.
#[derive(Drop)]
pub struct Mapper {
    table: Table,
    caret: Option<CaretPlace>,
}

impl Model for Mapper {
    ghost use Rattle.pos_mapper.specs.Bindings.{Mapper as Parts};
    ghost use Rattle.pos_mapper.specs.Codes.{coded_mapper};

    ghost Value = { Parts };

    ghost coded = { coded_mapper };

    ghost view = { λ mapper. record { bindings = mapper.table; caret = mapper.caret } };
}

impl Mapper {
    /// A mapper with no element bound and no caret. It takes no memory.
    pub fn new(alloc: Global) -> Mapper
        ensures { result ≡ record { bindings = []; caret = None } }
    {
        Mapper {
            table: Table::new(alloc),
            caret: None,
        }
    }

    /// Binds an element of the document to the view element that shows it, with the slot of its content, if it has one. An element that
    /// is bound and a view element that shows one stay as they are. It answers `NoMemory` alone beside Ok, and then nothing has changed.
    pub fn bind(
        &mut self,
        id: ElementId,
        number: ViewNumber,
        slot: Option<Slot>,
    ) -> Result<(), NoMemory>
        ensures ok { OnOk result (self.new ≡ with_binding (record { id = id; number = number; slot = slot }) self.old) }
        ensures err { OnErr result (self.new ≡ self.old) }
    {
        if self.table.of_id(id.value()).is_some() {
            return Ok(());
        }
        if self.table.of_number(number.value()).is_some() {
            return Ok(());
        }
        self.table.add(Binding { id, number, slot })
    }

    /// Says where the caret is seen, if there is one. It takes no memory.
    pub fn set_caret(&mut self, caret: Option<CaretPlace>)
        ensures { self.new ≡ record self.old { caret = caret } }
    {
        self.caret = caret;
    }

    /// The number of the view element of an element: None exactly where the element is not bound. It takes no memory.
    pub fn number(&self, id: ElementId) -> Option<ViewNumber>
        ensures { result ≡ numbers_of self.now id }
    {
        match self.table.of_id(id.value()) {
            Some(binding) => Some(binding.number),
            None => None,
        }
    }

    /// The place where the view shows a position. For a view and a document that this mapper is of, and a position of this document, it is the
    /// caret's place where the caret stands; else behind the character before the position, in its text; else before the character behind it, at
    /// the start of its text; else between the nodes there, in the attribute elements that go on across it. A position in an element without a
    /// slot is seen where the position before the outermost such element is. Offsets in a text count Unicode scalar values. It answers
    /// `NoMemory` alone beside Ok. (After `Mapper.toViewPosition` of CKEditor 5.)
    pub fn to_view(
        &self,
        alloc: Global,
        view: &View,
        position: &Position,
    ) -> Result<ViewPlace, NoMemory>
        ensures { IfOk result (λ place. Shows self.now view.now.nodes position.now (place.path ++ place.offset ∷ [])) }
    {
        let nodes = view.nodes().as_slice();
        let numbers = position.as_slice();
        let sought = Sought {
            table: &self.table,
            caret: self.caret_at(),
            caret_place: self.caret_place(),
        };
        let mut place = Vec::new(alloc);
        push_shown(&sought, nodes, 0, numbers, &mut place)?;
        Ok(as_view_place(place))
    }

    /// The caret's position, if there is a caret.
    fn caret_at(&self) -> Option<&[u32]>
        ensures { option_copied result ≡ option_map (λ caret. caret.at) self.now.caret }
    {
        match &self.caret {
            Some(caret) => Some(caret.at.as_slice()),
            None => None,
        }
    }

    /// Where the caret is seen in the content of its parent; nothing without a caret.
    fn caret_place(&self) -> &[u64]
        ensures { result.now ≡ option_map_or (λ caret. caret.place) self.now.caret [] }
    {
        match &self.caret {
            Some(caret) => caret.place.as_slice(),
            None => &[],
        }
    }

    /// The position of the document that a place of the view means. For a view and a document that this mapper is of it answers
    /// `NotInView` exactly where the place isn't there, or isn't in the content of the root or of a slot: not in a list of nodes of this
    /// content, nor, through attribute elements alone, in one below, nor in a text of such a list. It takes no memory.
    pub fn to_model(
        &self,
        alloc: Global,
        view: &View,
        place: &ViewPlace,
    ) -> Result<Position, MapFault>
        ensures ok { IfOk result (λ position. Means self.now view.now.nodes (place.now.path ++ place.now.offset ∷ []) (Some position)) }
        ensures not_in_view { IfErr result (λ fault. Means self.now view.now.nodes (place.now.path ++ place.now.offset ∷ []) None) }
    {
        let nodes = view.nodes().as_slice();
        let path = place.path.as_slice();
        let reader = Reader {
            table: &self.table,
            last: place.offset,
        };
        match read_nodes(&reader, nodes, 0, path, Path::new(alloc)) {
            Some(position) => match Position::new(alloc, position) {
                Some(position) => Ok(position),
                None => unreachable!(),
            },
            None => Err(MapFault::NotInView),
        }
    }
}

/// The place of the view at the end of these indices.
fn as_view_place(indices: Vec<u64>) -> ViewPlace
    ensures { 0 < length indices.items → result.path ++ result.offset ∷ [] ≡ indices.items }
{
    let mut indices = indices;
    let offset = indices.pop().unwrap_or(0);
    ViewPlace {
        path: ViewPath::new(indices),
        offset,
    }
}
