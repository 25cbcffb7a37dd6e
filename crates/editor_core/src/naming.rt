//! Objects of the product, by their names.
ghost use Rattle.std.specs.Prelude.{◌≡◌, ◌<◌, length, option_map, IfSome};
ghost use Rattle.editor_core.specs.HandedIn.{place_from, first_of, without_first};

use crate::extensions::Named;
use ck_base::name::Name;

/// The place of the first object of a name: None exactly where there is none.
fn place_of<T>(objects: &[Named<T>], name: &Name) -> Option<usize>
    ensures place { result ≡ place_from 0 name.now objects.now }
    ensures inside { IfSome result (λ place. place < length objects.now) }
{
    for (place, named) in objects.iter().enumerate() {
        if named.name.as_str() == name.as_str() {
            return Some(place);
        }
    }
    None
}

/// Takes the first object of a name out: None exactly where there is none, and then nothing has changed.
pub(crate) fn take_named<T: Drop>(objects: &mut Vec<Named<T>>, name: &Name) -> Option<T>
    ensures object { result ≡ option_map (λ named. named.object) (first_of name.now objects.old.items) }
    ensures rest { objects.new.items ≡ without_first name.now objects.old.items }
{
    match place_of(objects.as_slice(), name) {
        Some(place) => Some(objects.remove(place).object),
        None => None,
    }
}
