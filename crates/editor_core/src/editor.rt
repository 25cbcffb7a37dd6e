//! The editor.
ghost use Rattle.std.specs.Prelude.{◌≡◌, ◌≤◌, ◌+◌, [], ◌∷◌, ◌++◌, take, None, Ok, Err, IfOk, IfErr, OnOk, OnErr, ◌≢◌};
ghost use Rattle.document_definitions.specs.Document.{ids_of};
ghost use Rattle.view_definitions.specs.Node.{content, uncounted};
ghost use Rattle.conv_rules.specs.Listed.{conversion_of};
ghost use Rattle.downcast_definitions.specs.Rows.{downcast, numbered_downcast};
ghost use Rattle.downcast_definitions.specs.Seen.{seen};
ghost use Rattle.downcast_definitions.specs.Numbered.{AreNumbered};
ghost use Rattle.step_definitions.specs.Step.{step, opening, empty_document};
ghost use Rattle.program_definitions.specs.Machine as machine;
ghost use Rattle.program_definitions.specs.Selecting.{selecting};
ghost use Rattle.editor_core.specs.AsMachine.{conversion_in, document_in, numbers_in, calls_for_view, IsCurrent, Changes};
ghost use Rattle.editor_core.specs.HandedIn.{meanings, product_of, AreHandedIn};
ghost use Rattle.editor_core.specs.Held.{terms_of};
ghost use Rattle.editor_core.specs.Opened.{Faults, Opens, begun, started};

use crate::changing::changed;
use crate::extensions::Extensions;
use crate::fixing::fixers_of_plans;
use crate::listing::list_of;
use crate::selecting::{position_of, select_from};
use crate::terms::Terms;
use ck_base::NoMemory;
use ck_base::attributes::Attrs;
use ck_base::faults::Refusal;
use ck_base::name::Name;
use ck_base::path::Path;
use ck_base::steps::{Ledger, Steps};
use conv_rules::list::ConverterList;
use converter_definitions::plan::ConverterPlan;
use edit_definitions::edit::Edit;
use fix_definitions::plan::FixerPlan;
use model_doc::Document;
use model_pos::Position;
use model_tree::id::ElementId;
use pos_mapper::mapper::Mapper;
use schema_rules::schema::Schema;
use std::alloc::Global;
use view_tree::node::ViewNumber;
use view_tree::path::ViewPlace;
use view_tree::view::View;

/// What an editor is made of.
#[derive(Debug, Drop)]
pub struct Parts {
    pub schema: Schema,
    /// The version of the settings, 1 or 2: in 2 a layer of the view joins the first kept one that agrees with it.
    pub version: u32,
    /// In how many rounds the fixers have to come to rest.
    pub rounds: u32,
    /// The item of the element that a new document has.
    pub start: Option<Name>,
    /// The fixers, in the order of the settings.
    pub fixers: Vec<FixerPlan>,
    /// The converters, in the order of the settings.
    pub converters: Vec<ConverterPlan>,
    /// The names of the elements that are counted for the converters.
    pub indexed: Vec<Name>,
}

/// Why no editor is opened.
#[derive(Debug, Drop)]
pub enum OpenFault {
    /// The document that the editor would start with is refused. The refusal is never `NoMemory`.
    BadStart(Refusal),
    /// Memory ran out.
    NoMemory,
}

/// How many changes an editor accepts.
const MOST_CHANGES: u32 = 4_294_967_295;

/// An editor: a document that obeys a schema and is settled, and the view that its converters make of it. Its calls are steps of the machine that it is.
#[derive(Drop)]
pub struct Editor {
    pub(crate) list: ConverterList,
    pub(crate) terms: Terms,
    pub(crate) document: Document,
    pub(crate) view: View,
    pub(crate) mapper: Mapper,
    pub(crate) accepted: u32,
}

/// The position of two numbers at most, of which the first is 0, and the other too.
fn start_of(alloc: Global, levels: usize) -> Position
    requires some { 1 ≤ levels }
    requires few { levels ≤ 2 }
    ensures { result ≡ take levels (0 ∷ 0 ∷ []) }
{
    match Path::from_slice(alloc, &[0u32, 0u32][..levels]) {
        Some(path) => match Position::new(alloc, path) {
            Some(position) => position,
            None => unreachable!(),
        },
        None => unreachable!(),
    }
}

/// The edits that open a document: an empty element of a name with the selection in it, or none.
fn opening(alloc: Global, start: Option<Name>) -> Result<Vec<Edit>, NoMemory>
    ensures { IfOk result (λ edits. edits.items ≡ opening start) }
{
    let mut edits = Vec::new(alloc);
    if let Some(name) = start {
        edits.push(Edit::InsertElement {
            at: start_of(alloc, 1),
            name,
            attributes: Attrs::new(alloc),
        })?;
        edits.push(Edit::Select {
            start: start_of(alloc, 2),
            end: start_of(alloc, 2),
            backward: false,
        })?;
    }
    Ok(edits)
}

/// The fault of an opening whose edits are refused.
fn open_fault(refusal: Refusal) -> OpenFault
    ensures { Faults refusal result }
{
    match refusal {
        Refusal::NoMemory => OpenFault::NoMemory,
        refusal => OpenFault::BadStart(refusal),
    }
}

/// An editor of terms and converters, whose document starts with these edits.
fn opened<L: Ledger>(
    alloc: Global,
    terms: Terms,
    list: ConverterList,
    edits: &[Edit],
    steps: &mut Steps<L>,
) -> Result<Editor, OpenFault>
    ensures opens { Opens (meanings (λ object. gives (object.vtable, object.value)) (λ object. fixes (object.vtable, object.value)))
        (begun (record {
          terms = terms_of (λ object. fixes (object.vtable, object.value)) terms;
          conversion = conversion_of (λ object. gives (object.vtable, object.value)) list;
        })
        (step (terms_of (λ object. fixes (object.vtable, object.value)) terms) edits.now empty_document)) result }
    ensures calls { IfOk result (λ editor. steps.new ≤ steps.old + calls_for_view (λ object. gives (object.vtable, object.value)) editor) }
    ensures no_calls { IfErr result (λ fault. fault ≢ OpenFault.NoMemory → steps.new ≡ steps.old) }
{
    let Ok(mut document) = Document::new(alloc, 1) else {
        return Err(OpenFault::NoMemory);
    };
    match changed(alloc, &mut document, &terms, &list, edits, steps) {
        Ok((view, mapper)) => Ok(Editor {
            list,
            terms,
            document,
            view,
            mapper,
            accepted: 0,
        }),
        Err(refusal) => Err(open_fault(refusal)),
    }
}

impl Editor {
    /// Opens an editor by a change of an empty document: it makes one empty element of the start's name, with id 1 and the selection in it, or nothing
    /// where there is no start; then the fixers come to rest, and the schema is tested. Each product's converter and fixer that the settings name is
    /// handed in, and named once. It answers `BadStart` exactly where that change is refused, and `NoMemory`.
    pub fn open<L: Ledger>(
        alloc: Global,
        parts: Parts,
        extensions: Extensions,
        steps: &mut Steps<L>,
    ) -> Result<Editor, OpenFault>
        requires { AreHandedIn parts.converters.items parts.fixers.items
            (product_of (meanings (λ object. gives object) (λ object. fixes object)) extensions) }
        ensures opens { Opens (meanings (λ object. gives object) (λ object. fixes object))
            (started (product_of (meanings (λ object. gives object) (λ object. fixes object)) extensions) parts) result }
        ensures calls { IfOk result (λ editor. steps.new ≤ steps.old + calls_for_view (λ object. gives object) editor) }
        ensures no_calls { IfErr result (λ fault. fault ≢ OpenFault.NoMemory → steps.new ≡ steps.old) }
    {
        let Parts {
            schema,
            version,
            rounds,
            start,
            fixers,
            converters,
            indexed,
        } = parts;
        let Extensions {
            converters: objects,
            fixers: fixing_objects,
        } = extensions;
        let Ok(edits) = opening(alloc, start) else {
            return Err(OpenFault::NoMemory);
        };
        let Ok(list) = list_of(alloc, &schema, version, converters, indexed, objects) else {
            return Err(OpenFault::NoMemory);
        };
        let Ok(fixers) = fixers_of_plans(alloc, fixers, fixing_objects) else {
            return Err(OpenFault::NoMemory);
        };
        let terms = Terms {
            schema,
            fixers,
            rounds,
        };
        opened(alloc, terms, list, edits.as_slice(), steps)
    }

    /// Makes a change: its edits in order, then rounds of fixers until none wants anything, and then the test of the schema. It answers `ChangesSpent`
    /// exactly where 4,294,967,295 changes were accepted; `Edit` with the first edit that can't be made; `FixerRefused` with the fixer whose plan has
    /// an edit that can't be made; `NotSettled` with the first fixer that still wants something after all rounds; `Schema` with the first breach of the
    /// document then; and `NoMemory`. After each of these the editor is as it was: the document with its markers, its selection and its next id, and
    /// the view.
    pub fn change<L: Ledger>(
        &mut self,
        alloc: Global,
        edits: &[Edit],
        steps: &mut Steps<L>,
    ) -> Result<(), Refusal>
        requires { IsCurrent (meanings (λ object. gives (object.vtable, object.value)) (λ object. fixes (object.vtable, object.value))) self.old }
        ensures current { IsCurrent (meanings (λ object. gives (object.vtable, object.value)) (λ object. fixes (object.vtable, object.value))) self.new }
        ensures changes { Changes (meanings (λ object. gives (object.vtable, object.value)) (λ object. fixes (object.vtable, object.value)))
            (machine.change edits.now) self.old self.new result }
        ensures stays { OnErr result (self.new ≡ self.old) }
        ensures calls { OnOk result (steps.new ≤ steps.old + calls_for_view (λ object. gives (object.vtable, object.value)) self.new) }
        ensures no_calls { IfErr result (λ refusal. refusal ≢ Refusal.NoMemory → steps.new ≡ steps.old) }
    {
        if self.accepted == MOST_CHANGES {
            return Err(Refusal::ChangesSpent);
        }
        self.document.begin_keep()?;
        match changed(
            alloc,
            &mut self.document,
            &self.terms,
            &self.list,
            edits,
            steps,
        ) {
            Ok((view, mapper)) => {
                self.document.drop_keep();
                self.view = view;
                self.mapper = mapper;
                self.accepted += 1;
                Ok(())
            }
            Err(refusal) => {
                self.document.restore();
                Err(refusal)
            }
        }
    }

    /// Selects from the position that one place of the view means to the one that another means: backward where the focus's is before the anchor's.
    /// It answers `ChangesSpent` as `change` does; `NotInView` with the anchor, else with the focus, where it isn't there or isn't in the content of
    /// the root or of a slot; then as a change with this one edit. After each of these the editor is as it was. (After `convertSelectionChange`
    /// of CKEditor 5.)
    pub fn select_view<L: Ledger>(
        &mut self,
        alloc: Global,
        anchor: &ViewPlace,
        focus: &ViewPlace,
        steps: &mut Steps<L>,
    ) -> Result<(), Refusal>
        requires { IsCurrent (meanings (λ object. gives (object.vtable, object.value)) (λ object. fixes (object.vtable, object.value))) self.old }
        ensures current { IsCurrent (meanings (λ object. gives (object.vtable, object.value)) (λ object. fixes (object.vtable, object.value))) self.new }
        ensures changes { Changes (meanings (λ object. gives (object.vtable, object.value)) (λ object. fixes (object.vtable, object.value)))
            (machine.select_view (anchor.now.path ++ anchor.now.offset ∷ []) (focus.now.path ++ focus.now.offset ∷ [])) self.old self.new result }
        ensures stays { OnErr result (self.new ≡ self.old) }
        ensures calls { OnOk result (steps.new ≤ steps.old + calls_for_view (λ object. gives (object.vtable, object.value)) self.new) }
        ensures no_calls { IfErr result (λ refusal. refusal ≢ Refusal.NoMemory → steps.new ≡ steps.old) }
    {
        if self.accepted == MOST_CHANGES {
            return Err(Refusal::ChangesSpent);
        }
        let edits = self.view_edits(alloc, anchor, focus)?;
        self.change(alloc, edits.as_slice(), steps)
    }

    /// The edits that select by two places of the view, or the refusal of one.
    fn view_edits(
        &self,
        alloc: Global,
        anchor: &ViewPlace,
        focus: &ViewPlace,
    ) -> Result<Vec<Edit>, Refusal>
        requires { IsCurrent (meanings (λ object. gives (object.vtable, object.value)) (λ object. fixes (object.vtable, object.value))) self.now }
        ensures ok { IfOk result (λ edits. selecting (conversion_in (λ object. gives (object.vtable, object.value)) self.now) (document_in self.now)
            (anchor.now.path ++ anchor.now.offset ∷ []) (focus.now.path ++ focus.now.offset ∷ []) ≡ Ok edits.items) }
        ensures refused { IfErr result (λ refusal. refusal ≢ Refusal.NoMemory
            → selecting (conversion_in (λ object. gives (object.vtable, object.value)) self.now) (document_in self.now)
            (anchor.now.path ++ anchor.now.offset ∷ []) (focus.now.path ++ focus.now.offset ∷ []) ≡ Err refusal) }
    {
        // That the document is sound is a clause of this call.
        let _tree = self.document.tree();
        let start = position_of(alloc, &self.mapper, &self.view, anchor)?;
        let end = position_of(alloc, &self.mapper, &self.view, focus)?;
        let mut edits = Vec::new(alloc);
        edits.push(select_from(start, end))?;
        Ok(edits)
    }

    /// Its document. It takes no memory.
    pub fn document(&self) -> &Document
        ensures { result.now.state.document ≡ document_in self.now }
    {
        &self.document
    }

    /// The view of its document, in which each element of the document has the number that `view_number` answers. It takes no memory.
    pub fn view(&self) -> &View
        requires { IsCurrent (meanings (λ object. gives (object.vtable, object.value)) (λ object. fixes (object.vtable, object.value))) self.now }
        ensures content { content result.now.nodes ≡ downcast (conversion_in (λ object. gives (object.vtable, object.value)) self.now) (document_in self.now) }
        ensures numbered { uncounted result.now.nodes
            ≡ uncounted (numbered_downcast (numbers_in self.now) (conversion_in (λ object. gives (object.vtable, object.value)) self.now)
            (document_in self.now)) }
    {
        &self.view
    }

    /// The number of the view element of an element of its document: None exactly where no element of the document has the id. No two elements have
    /// one number. It takes no memory.
    pub fn view_number(&self, id: ElementId) -> Option<ViewNumber>
        requires { IsCurrent (meanings (λ object. gives (object.vtable, object.value)) (λ object. fixes (object.vtable, object.value))) self.now }
        ensures number { result ≡ numbers_in self.now id }
        ensures numbered { AreNumbered (numbers_in self.now) (ids_of (document_in self.now).items) }
    {
        self.mapper.number(id)
    }

    /// Where the view shows the start and the end of the selection. It answers `NoMemory` alone beside Ok.
    pub fn shown_selection(&self, alloc: Global) -> Result<(ViewPlace, ViewPlace), NoMemory>
        requires { IsCurrent (meanings (λ object. gives (object.vtable, object.value)) (λ object. fixes (object.vtable, object.value))) self.now }
        ensures start { IfOk result (λ both. both.0.path ++ both.0.offset ∷ []
            ≡ seen (conversion_in (λ object. gives (object.vtable, object.value)) self.now) (document_in self.now)
            (document_in self.now).selection.range.start) }
        ensures end { IfOk result (λ both. both.1.path ++ both.1.offset ∷ []
            ≡ seen (conversion_in (λ object. gives (object.vtable, object.value)) self.now) (document_in self.now) (document_in self.now).selection.range.end) }
    {
        // That the document is sound is a clause of this call.
        let _tree = self.document.tree();
        let range = self.document.selection().range();
        let start = self.mapper.to_view(alloc, &self.view, range.start())?;
        let end = self.mapper.to_view(alloc, &self.view, range.end())?;
        Ok((start, end))
    }
}
