//! What holds of every document and all fixers: each function is a law, which its clauses state.
ghost use Rattle.std.specs.Prelude.{◌≡◌, ◌≢◌, ◌↔◌, IsTrue, ℕ, Bool, List, [], Some, Ok, Err, All, AllPairs, Contains};
ghost use Rattle.item_definitions.specs.Item.{Item};
ghost use Rattle.document_definitions.specs.Markers.{Markers};
ghost use Rattle.document_definitions.specs.Selection.{Selection};
ghost use Rattle.schema_definitions.specs.Allowed.{Rules};
ghost use Rattle.fix_definitions.specs.declared.stock.StockFixer.{StockFixer};
ghost use Rattle.fix_definitions.specs.declared.stock.StockFixer.TheVariants.{DropAttributes, Fill, JoinNeighbours, RemoveEmpty, Require, SelectionPlace};
ghost use Rattle.fix_definitions.specs.Places.{Place, places};
ghost use Rattle.fix_definitions.specs.Wanted.{wanted};
ghost use Rattle.fix_definitions.specs.Selecting.{positions, selection_wanted};
ghost use Rattle.fix_definitions.specs.Fixes.{Fixing, fixes};
ghost use Rattle.document_definitions.specs.Document.{Document, State};
ghost use Rattle.fix_definitions.specs.Settling.{Plan, first_plan, settle, IsSettled, document_settled, settled};
ghost use Rattle.fix_definitions.specs.Rounds.{IsFirstPlan, ComesToRest, StaysRestless, IsRefused};
ghost use Rattle.ck_base.specs.declared.faults.EditFault.{EditFault};
ghost use Rattle.fix_definitions.specs.declared.fault.SettleFault.TheVariants.{NotSettled, FixerRefused, NoMemory};
ghost use Rattle.fix_definitions.specs.AtRest.{IsPlaceOf, MayHaveTheirs, AreFilled, AreApart, NoneIsEmpty, HaveChild, IsWellSelected};
ghost use Rattle.item_definitions.specs.Position.{is_before, IsIn};

/// The places of a document are those of the root and of each item that is found at a path, in document order.
pub fn places_are_those_of_the_document()
    ensures members { (items : List Item) (place : Place) → Contains (places items) place ↔ IsPlaceOf items place }
    ensures order { (items : List Item) → AllPairs (λ earlier later. IsTrue (is_before earlier.path later.path)) (places items) }
{}

/// The plan of a stock fixer is empty exactly where no place wants anything of it, and the selection wants nothing.
pub fn plans_are_empty_where_nothing_is_wanted()
    ensures { (rules : Rules) (fixer : StockFixer) (items : List Item) (markers : Markers) (selection : Selection)
        → (fixes rules fixer items markers selection ≡ [])
        ↔ (All (λ place. wanted rules fixer place ≡ []) (places items) × (selection_wanted rules fixer items selection ≡ [])) }
{}

/// A document settles exactly where at most so many rounds lead to one of which no fixer wants anything. A settled one settles to itself, with the
/// cells beside it, in any number of rounds.
pub fn documents_settle_where_they_come_to_rest()
    ensures settles { (registered : List ℕ → Bool) (fixings : List Fixing) (rounds : ℕ) (state made : State)
        → (settle registered fixings rounds state ≡ Ok made) ↔ ComesToRest registered fixings rounds state made }
    ensures stays { (registered : List ℕ → Bool) (fixings : List Fixing) (rounds : ℕ) (state : State) → IsSettled fixings state.document
        → settle registered fixings rounds state ≡ Ok state }
{}

/// The plan of a round is that of the first fixer that wants something.
pub fn rounds_begin_with_the_first_fixer()
    ensures { (fixings : List Fixing) (document : Document) (plan : Plan)
        → (first_plan 1 fixings document ≡ Some plan) ↔ IsFirstPlan fixings document plan }
{}

/// A document doesn't settle exactly where a plan is still wanted after all rounds, or an edit of a plan can't be made; the fault tells the first
/// fixer of which this holds.
pub fn faults_tell_the_fixer()
    ensures not_settled { (registered : List ℕ → Bool) (fixings : List Fixing) (rounds : ℕ) (state : State) (others fixer : ℕ)
        → (settle registered fixings rounds state ≡ Err (NotSettled others fixer)) ↔ ((others ≡ rounds) × StaysRestless registered fixings rounds state fixer) }
    ensures refused { (registered : List ℕ → Bool) (fixings : List Fixing) (rounds : ℕ) (state : State) (fixer : ℕ) (fault : EditFault)
        → (settle registered fixings rounds state ≡ Err (FixerRefused fixer fault)) ↔ IsRefused registered fixings rounds state fixer fault }
    ensures told { (registered : List ℕ → Bool) (fixings : List Fixing) (rounds : ℕ) (state : State) → settle registered fixings rounds state ≢ Err NoMemory }
{}

/// How a document settles doesn't hang on what is in the cells beside it.
pub fn settling_reads_no_cells()
    ensures { (registered : List ℕ → Bool) (fixings : List Fixing) (rounds : ℕ) (state : State)
        → document_settled (settle registered fixings rounds state) ≡ settled registered fixings rounds state.document }
{}

/// The positions among which the selection's place is looked for are those of the document, in document order.
pub fn positions_are_those_of_the_document()
    ensures members { (items : List Item) (position : List ℕ) → Contains (positions items) position ↔ IsIn items position }
    ensures order { (items : List Item) → AllPairs (λ position other. IsTrue (is_before position other)) (positions items) }
{}

/// A stock fixer wants nothing of a document exactly where: the schema allows each item its attributes; each element of the name has children; no
/// two neighbours of the name have equal attributes; no element of the name but the root is empty; each element of the one name has a child of the
/// other; both ends of the selection stand where text may, or it is round one element that can be selected, or text may stand nowhere.
pub fn fixers_want_nothing_of_what_is_as_they_want_it()
    ensures drop_attributes { (rules : Rules) (items : List Item) (markers : Markers) (selection : Selection)
        → (fixes rules DropAttributes items markers selection ≡ []) ↔ MayHaveTheirs rules items }
    ensures fill { (rules : Rules) (items : List Item) (markers : Markers) (selection : Selection) (parent child : List ℕ)
        → (fixes rules (Fill parent child) items markers selection ≡ []) ↔ AreFilled parent items }
    ensures join_neighbours { (rules : Rules) (items : List Item) (markers : Markers) (selection : Selection) (name : List ℕ)
        → (fixes rules (JoinNeighbours name) items markers selection ≡ []) ↔ AreApart name items }
    ensures remove_empty { (rules : Rules) (items : List Item) (markers : Markers) (selection : Selection) (name : List ℕ)
        → (fixes rules (RemoveEmpty name) items markers selection ≡ []) ↔ NoneIsEmpty name items }
    ensures require { (rules : Rules) (items : List Item) (markers : Markers) (selection : Selection) (parent child : List ℕ)
        → (fixes rules (Require parent child) items markers selection ≡ []) ↔ HaveChild parent child items }
    ensures selection_place { (rules : Rules) (items : List Item) (markers : Markers) (selection : Selection)
        → (fixes rules SelectionPlace items markers selection ≡ []) ↔ IsWellSelected rules items selection.range }
{}
