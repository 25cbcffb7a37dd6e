//! A selection by two places of the view.
ghost use Rattle.std.specs.Prelude.{◌≡◌, ◌≢◌, ◌∷◌, [], ◌++◌, Some, None, Ok, Err, IfOk, IfErr, if◌then◌else◌};
ghost use Rattle.item_definitions.specs.Position.{is_before};
ghost use Rattle.pos_mapper.specs.Mapped.{Means};
ghost use Rattle.program_definitions.specs.Selecting.{select_from};

use ck_base::NoMemory;
use ck_base::faults::{PlacePath, Refusal};
use edit_definitions::edit::Edit;
use model_pos::{Position, order};
use pos_mapper::mapper::Mapper;
use std::alloc::Global;
use view_tree::path::ViewPlace;
use view_tree::view::View;

/// The numbers of a place of the view.
fn numbers_of(alloc: Global, place: &ViewPlace) -> Result<PlacePath, NoMemory>
    ensures { IfOk result (λ path. path ≡ place.now.path ++ place.now.offset ∷ []) }
{
    let mut numbers = Vec::new(alloc);
    numbers.extend_from_slice(place.path.as_slice())?;
    numbers.push(place.offset)?;
    Ok(PlacePath::new(numbers))
}

/// The refusal of a place that means no position.
fn not_in_view(alloc: Global, place: &ViewPlace) -> Refusal
    ensures { result ≢ Refusal.NoMemory → result ≡ Refusal.NotInView (place.now.path ++ place.now.offset ∷ []) }
{
    match numbers_of(alloc, place) {
        Ok(path) => Refusal::NotInView { path },
        Err(_) => Refusal::NoMemory,
    }
}

/// The position that a place of the view means, or its refusal.
pub fn position_of(
    alloc: Global,
    mapper: &Mapper,
    view: &View,
    place: &ViewPlace,
) -> Result<Position, Refusal>
    ensures ok { IfOk result (λ position. Means mapper.now view.now.nodes (place.now.path ++ place.now.offset ∷ []) (Some position)) }
    ensures refused { IfErr result (λ refusal. refusal ≢ Refusal.NoMemory
        → (refusal ≡ Refusal.NotInView (place.now.path ++ place.now.offset ∷ []))
        × Means mapper.now view.now.nodes (place.now.path ++ place.now.offset ∷ []) None) }
{
    match mapper.to_model(alloc, view, place) {
        Ok(position) => Ok(position),
        Err(_) => Err(not_in_view(alloc, place)),
    }
}

/// Whether a position is before another.
fn is_before(position: &Position, other: &Position) -> bool
    ensures { result ≡ is_before position.now other.now }
{
    !order(other, position).is_le()
}

/// The edit that selects from an anchor to a focus: backward where the focus is before the anchor.
pub fn select_from(anchor: Position, focus: Position) -> Edit
    ensures { result ≡ select_from anchor focus }
{
    if is_before(&focus, &anchor) {
        Edit::Select {
            start: focus,
            end: anchor,
            backward: true,
        }
    } else {
        Edit::Select {
            start: anchor,
            end: focus,
            backward: false,
        }
    }
}
