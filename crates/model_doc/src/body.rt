//! A document's state.
ghost use Rattle.std.specs.Prelude.{◌≡◌, ◌≢◌, List, ◌+◌, ◌≤◌, ◌^◌, [], ◌∷◌, ◌++◌, length, map, false, Ok, Some, IfOk, IfErr, OnOk};
ghost use Rattle.item_definitions.specs.Item.{Item};
ghost use Rattle.operation_definitions.specs.After.{after};
ghost use Rattle.operation_definitions.specs.Back.{back};
ghost use Rattle.model_ops.specs.Limits.{IsWithin, SplitsElement};
ghost use Rattle.operation_definitions.specs.Reversed.{AreOrdered, HasPlaces};
ghost use Rattle.document_definitions.specs.Sound.{IsSound, IsWelcome};
ghost use Rattle.model_ops.specs.Meant.{operation_of};
ghost use Rattle.model_ops.specs.Effects.{refusal};
ghost use Rattle.model_doc.specs.Conditions.{AreWelcome};
ghost use Rattle.item_definitions.specs.Position.{between};
ghost use Rattle.document_definitions.specs.Selection.{selected};
ghost use Rattle.document_definitions.specs.Document.{State, applied, all_applied, changed, empty_state};
ghost use Rattle.model_doc.specs.Held.{Moment, returned};
ghost use Rattle.model_doc.specs.Parts.{state_of};
ghost use Rattle.model_doc.specs.Records.{done_on, records_of, Leads, IsAgain};

use crate::carrying;
use crate::record::Record;
use ck_base::NoMemory;
use ck_base::path::Path;
use live_selection::Selection;
use marker_table::Markers;
use model_ops::apply::apply;
use model_ops::cells::Cells;
use model_ops::fault::OpFault;
use model_ops::operation::Operation;
use model_pos::{Position, Range};
use model_tree::tree::Tree;
use std::alloc::{AllocError, Global};
use std::marker::Model;
use std::mem;

/// A sound document with its cells: ids are distinct, from 1 on and below the next one, and all ranges are in the tree. It is seen as its
/// state and its mark, the number of operations that led to it and were not taken back.
#[derive(Drop)]
pub(crate) struct Body {
    pub(crate) tree: Tree,
    pub(crate) cells: Cells,
    pub(crate) markers: Markers,
    pub(crate) selection: Selection,
    pub(crate) next_id: u64,
    pub(crate) mark: u64,
}

impl Model for Body {
    ghost use Rattle.std.specs.Coded.{codes};
    ghost use Rattle.model_doc.specs.Code.{coded_item};
    ghost use Rattle.document_definitions.specs.Sound.{IsSound};
    ghost use Rattle.model_doc.specs.Held.{Moment, returned};
    ghost use Rattle.model_doc.specs.Parts.{state_of};

    ghost Value = { Moment };

    ghost coded = { Prim.hlevel (codes, coded_item) };

    ghost view = { λ body. record { state = state_of body.tree body.cells body.markers body.selection body.next_id; mark = body.mark } };

    ghost invariant = { λ body. IsSound (state_of body.tree body.cells body.markers body.selection body.next_id) };
}

impl Body {
    /// Nothing, and the id that the first new element gets. It answers `NoMemory` alone beside Ok.
    #[tactic(auto, using(crate::proofs::Empty::empty_sound))]
    pub fn empty(alloc: Global, first_id: u64) -> Result<Body, NoMemory>
        requires least { 1 ≤ first_id }
        requires most { first_id ≤ 2 ^ 63 }
        ensures { IfOk result (λ body. body ≡ record { state = empty_state first_id; mark = 0 }) }
    {
        let tree = Tree::new(alloc)?;
        Ok(Body {
            tree,
            cells: Cells::new(alloc),
            markers: Markers::new(alloc),
            selection: start_of_root(alloc),
            next_id: first_id,
            mark: 0,
        })
    }

    /// The same. It answers `NoMemory` alone beside Ok.
    pub fn copy(&self) -> Result<Body, NoMemory>
        ensures { IfOk result (λ body. body ≡ self.now) }
    {
        let tree = self.tree.copy()?;
        let cells = self.cells.copy()?;
        let markers = self.markers.copy()?;
        let selection = self.selection.copy()?;
        Ok(Body {
            tree,
            cells,
            markers,
            selection,
            next_id: self.next_id,
            mark: self.mark,
        })
    }

    /// What an operation makes of it, or the operation's refusal, or `NoMemory`.
    #[tactic(auto, using(crate::proofs::Carried::refused_whole))]
    pub fn after(&self, operation: &Operation) -> Result<Body, OpFault>
        requires { IsWelcome (operation_of operation.now) self.now.state }
        ensures ok { IfOk result (λ made. applied (operation_of operation.now) self.now.state ≡ Ok made.state) }
        ensures mark { IfOk result (λ made. made.mark ≡ self.now.mark + 1) }
        ensures places { OnOk result (HasPlaces (operation_of operation.now)) }
        ensures sound { IsSound self.now.state }
        ensures ordered { AreOrdered self.now.state.document.items }
        ensures refused { IfErr result (λ fault. fault ≢ OpFault.NoMemory → refusal (applied (operation_of operation.now) self.now.state) ≡ Some fault) }
    {
        let _nodes = self.tree.items().nodes();
        let Ok(mut tree) = self.tree.copy() else {
            return Err(OpFault::NoMemory);
        };
        let Ok(mut cells) = self.cells.copy() else {
            return Err(OpFault::NoMemory);
        };
        match apply(&mut tree, &mut cells, operation) {
            Ok(()) => match self.carried(tree, cells, operation) {
                Ok(made) => Ok(made),
                Err(_) => Err(OpFault::NoMemory),
            },
            Err(fault) => Err(fault),
        }
    }

    /// Puts what an operation made of it in its place, and answers the operation's record. It takes no memory.
    pub fn put(&mut self, made: Body, operation: Operation) -> Record
        ensures body { self.new ≡ made }
        ensures record { result ≡ done_on self.old.state (operation_of operation) made.state made.mark }
    {
        let cell = made.cells.len();
        let number = made.mark;
        let Body {
            markers,
            selection,
            next_id,
            ..
        } = mem::replace(self, made);
        Record {
            operation,
            cell,
            number,
            markers,
            selection,
            next_id,
        }
    }

    /// Makes an operation, and puts its record behind others. After a refusal or `NoMemory` it may be either.
    fn step(&mut self, operation: Operation, records: &mut Vec<Record>) -> Result<(), OpFault>
        requires { IsWelcome (operation_of operation) self.old.state }
        ensures ok { OnOk result (applied (operation_of operation) self.old.state ≡ Ok self.new.state) }
        ensures mark { OnOk result (self.new.mark ≡ self.old.mark + 1) }
        ensures records { OnOk result (records.new.items ≡ records.old.items ++ done_on self.old.state (operation_of operation) self.new.state
            (self.old.mark + 1) ∷ []) }
        ensures refused { IfErr result (λ fault. fault ≢ OpFault.NoMemory → refusal (applied (operation_of operation) self.old.state) ≡ Some fault) }
    {
        match self.after(&operation) {
            Ok(made) => match records.push(self.put(made, operation)) {
                Ok(()) => Ok(()),
                Err(unkept) => Err(refused(OpFault::NoMemory, unkept)),
            },
            Err(fault) => Err(refused(fault, operation)),
        }
    }

    /// What operations make of it, one after the other, with their records in order; or the first refusal, or `NoMemory`.
    pub fn after_all(self, operations: Vec<Operation>) -> Result<(Body, Vec<Record>), OpFault>
        requires { AreWelcome (map operation_of operations.items) self.state }
        ensures ok { IfOk result (λ made. all_applied (map operation_of operations.items) self.state ≡ Ok made.0.state) }
        ensures mark { IfOk result (λ made. made.0.mark ≡ self.mark + length operations.items) }
        ensures records { IfOk result (λ made. made.1.items ≡ records_of (map operation_of operations.items) self.state self.mark) }
        ensures refused { IfErr result (λ fault. fault ≢ OpFault.NoMemory → refusal (all_applied (map operation_of operations.items) self.state) ≡ Some fault) }
    {
        let mut body = self;
        let mut records = Vec::new(*operations.allocator());
        for operation in operations {
            body.step(operation, &mut records)?;
        }
        Ok((body, records))
    }

    /// It before the last operation that was not taken back, of which this is the record. It answers `NoMemory` alone beside Ok.
    pub fn before(&self, done: &Record) -> Result<Body, NoMemory>
        requires { (before : State) × Leads before done.now (returned self.now) }
        ensures again { IfOk result (λ made. (before : State) → Leads before done.now (returned self.now) → IsAgain before made.state) }
        ensures mark { IfOk result (λ made. made.mark + 1 ≡ self.now.mark) }
        ensures cells { IfOk result (λ made. length self.now.state.cells ≤ length made.state.cells) }
    {
        let Ok((tree, mut cells)) = self.taken_back(done) else {
            return Err(AllocError);
        };
        let Ok(()) = cells.empty(done.cell) else {
            return Err(AllocError);
        };
        let Ok(made) = self.restored(tree, cells, done) else {
            return Err(AllocError);
        };
        Ok(made)
    }

    /// The items and cells after the reversal of a record's operation, which isn't refused. It answers `NoMemory` alone beside Ok, and only
    /// where memory ran out.
    #[tactic(auto, using(crate::proofs::GoingBack::memory_alone))]
    fn taken_back(&self, done: &Record) -> Result<(Tree, Cells), NoMemory>
        requires split { SplitsElement done.now.operation }
        requires limits { IsWithin (back done.now.operation done.now.cell) }
        requires fine { (made : List Item × List (List Item))
            × (after self.now.state.document.items self.now.state.cells (back done.now.operation done.now.cell) ≡ Ok made) }
        ensures { IfOk result (λ made. after self.now.state.document.items self.now.state.cells (back done.now.operation done.now.cell) ≡ Ok (made.0, made.1)) }
    {
        let mut tree = self.tree.copy()?;
        let mut cells = self.cells.copy()?;
        let back = done.reversal(self.tree.items().allocator())?;
        let answer = apply(&mut tree, &mut cells, &back);
        discard(back);
        match answer {
            Ok(()) => Ok((tree, cells)),
            Err(fault) => Err(want_of_memory(fault)),
        }
    }

    /// These items and cells, with what a record has from before its operation. It answers `NoMemory` alone beside Ok.
    fn restored(&self, tree: Tree, cells: Cells, done: &Record) -> Result<Body, NoMemory>
        requires sound { IsSound (state_of tree cells done.now.markers done.now.selection done.now.next_id) }
        requires some { 1 ≤ self.now.mark }
        ensures state { IfOk result (λ made. made.state ≡ state_of tree cells done.now.markers done.now.selection done.now.next_id) }
        ensures mark { IfOk result (λ made. made.mark + 1 ≡ self.now.mark) }
    {
        let markers = done.markers.copy()?;
        let selection = done.selection.copy()?;
        Ok(Body {
            tree,
            cells,
            markers,
            selection,
            next_id: done.next_id,
            mark: self.mark - 1,
        })
    }

    /// The rest of it after an operation that made this tree and these cells. It answers `NoMemory` alone beside Ok.
    #[tactic(auto, using(crate::proofs::Carried::few_items, crate::proofs::Carried::is_shift))]
    fn carried(&self, tree: Tree, cells: Cells, operation: &Operation) -> Result<Body, NoMemory>
        requires made { after self.now.state.document.items self.now.state.cells (operation_of operation.now) ≡ Ok (tree, cells) }
        requires welcome { IsWelcome (operation_of operation.now) self.now.state }
        ensures state { IfOk result (λ made. made.state ≡ changed (operation_of operation.now) self.now.state (tree, cells)) }
        ensures mark { IfOk result (λ made. made.mark ≡ self.now.mark + 1) }
        ensures places { OnOk result (HasPlaces (operation_of operation.now)) }
    {
        let Some(mark) = self.mark.checked_add(1) else {
            return Err(AllocError);
        };
        let shift = carrying::shift_of(operation);
        let markers = carrying::markers_after(&self.markers, operation, &shift)?;
        let mut selection = self.selection.copy()?;
        selection.carry(&shift);
        Ok(Body {
            tree,
            cells,
            markers,
            selection,
            next_id: carrying::next_after(operation, self.next_id),
            mark,
        })
    }
}

/// The selection that is collapsed at the start of the root.
fn start_of_root(alloc: Global) -> Selection
    ensures { result ≡ selected (between (0 ∷ []) (0 ∷ [])) false }
{
    let mut path = Path::new(alloc);
    path.push(0);
    match Position::new(alloc, path) {
        Some(start) => Selection::new(alloc, Range::collapsed(start), false),
        None => unreachable!(),
    }
}

/// A fault that is the want of memory.
fn want_of_memory(fault: OpFault) -> NoMemory
    requires { fault ≡ OpFault.NoMemory }
{
    match fault {
        OpFault::NoMemory => AllocError,
        _ => unreachable!(),
    }
}

/// A refusal, once what it leaves unmade is let go.
pub(crate) fn refused<T: Drop>(fault: OpFault, _unmade: T) -> OpFault
    ensures { result ≡ fault }
{
    fault
}

/// Lets a value go in a call of its own.
fn discard<T: Drop>(_value: T) {}
