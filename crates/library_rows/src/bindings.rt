//! Markers, and elements that are bound to their view elements.
ghost use Rattle.std.specs.Prelude.{◌≡◌, ◌∷◌, []};

use crate::report::Report;
use crate::samples::name;
use crate::views::container;
use ck_base::name::Name;
use ck_base::path::Path;
use marker_table::Markers;
use model_pos::{Position, Range};
use model_tree::id::ElementId;
use pos_mapper::mapper::Mapper;
use pos_mapper::parts::Slot;
use std::alloc::Global;
use view_tree::kind::NodeKind;
use view_tree::node::ViewNumber;
use view_tree::view::View;

/// The rows of markers and bound elements.
pub fn rows(alloc: Global, report: &mut Report<'_>) {
    report.row("markers are copied", copies_markers(alloc));
    report.row("a bound element has its number", binds(alloc));
}

/// The position at an offset in the root.
fn in_root(alloc: Global, offset: u32) -> Position
    ensures { result ≡ offset ∷ [] }
{
    let mut path = Path::new(alloc);
    path.push(offset);
    match Position::new(alloc, path) {
        Some(position) => position,
        None => unreachable!(),
    }
}

fn copies_markers(alloc: Global) -> bool {
    match (name(alloc, "comment"), name(alloc, "comment")) {
        (Some(added), Some(name)) => is_kept_by_a_copy(alloc, added, &name),
        _ => false,
    }
}

/// Whether a copy keeps a marker that goes from the other markers.
fn is_kept_by_a_copy(alloc: Global, added: Name, name: &Name) -> bool {
    let mut markers = Markers::new(alloc);
    let range = Range::new(in_root(alloc, 0), in_root(alloc, 1));
    if markers.add(added, range).is_err() {
        return false;
    }
    match markers.copy() {
        Ok(copied) => {
            markers.remove(name).is_ok()
                && markers.get(name).is_none()
                && copied.get(name).is_some()
        }
        Err(_) => false,
    }
}

/// The number of an element that a view makes.
fn drawn(alloc: Global) -> Option<ViewNumber> {
    let mut view = View::new(alloc);
    let node = view.make(container(alloc, "p")?).ok()?;
    node.number()
}

fn binds(alloc: Global) -> bool {
    match drawn(alloc) {
        Some(number) => is_bound(alloc, number),
        None => false,
    }
}

/// Whether an element that is bound to a number has it, and another one has none.
fn is_bound(alloc: Global, number: ViewNumber) -> bool {
    let mut mapper = Mapper::new(alloc);
    let slot = Some(Slot::new(Vec::new(alloc), 0));
    mapper.bind(ElementId::new(7), number, slot).is_ok()
        && mapper.number(ElementId::new(7)) == Some(number)
        && mapper.number(ElementId::new(8)).is_none()
}
