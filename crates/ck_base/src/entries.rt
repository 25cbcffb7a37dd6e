//! Sorted lists of pairs of a name and a value, as maps. They are short, so a look-up walks them.
ghost use Rattle.std.specs.Prelude.{◌≡◌, ◌≤◌, ◌<◌, length, OnOk, OnErr, IfOk, IfErr, option_copied};
ghost use Rattle.ck_base.specs.Entries.{IsOrdered, value_of, with_value, without, place_from};

use crate::NoMemory;
use crate::name::Name;
use std::cmp::Ordering;

/// The value that a name has.
pub fn find<'a, V>(entries: &'a [(Name, V)], key: &Name) -> Option<&'a V>
    ensures { option_copied result ≡ value_of key.now entries.now }
{
    for (name, value) in entries {
        if key.cmp(name) == Ordering::Equal {
            return Some(value);
        }
    }
    None
}

/// Ok with the index of a name, or Err with the index at which it would go in.
fn place_of<V>(entries: &[(Name, V)], key: &Name) -> Result<usize, usize>
    ensures place { result ≡ place_from key.now 0 entries.now }
    ensures found { IfOk result (λ index. index < length entries.now) }
    ensures absent { IfErr result (λ index. index ≤ length entries.now) }
{
    for (index, entry) in entries.iter().enumerate() {
        match key.cmp(&entry.0) {
            Ordering::Less => return Err(index),
            Ordering::Equal => return Ok(index),
            Ordering::Greater => {}
        }
    }
    Err(entries.len())
}

/// Gives a name this value. A refusal changes nothing.
#[tactic(auto, using(crate::proofs::Places::put_found, crate::proofs::Places::put_absent))]
pub fn put<V: Drop>(entries: &mut Vec<(Name, V)>, key: Name, value: V) -> Result<(), NoMemory>
    ensures ok { OnOk result (entries.new.items ≡ with_value key value entries.old.items) }
    ensures err { OnErr result (entries.new.items ≡ entries.old.items) }
{
    match place_of(entries, &key) {
        Ok(index) => {
            entries[index] = (key, value);
        }
        Err(index) => {
            entries.insert(index, (key, value))?;
        }
    }
    Ok(())
}

/// Takes a name out, and answers the value that it had.
#[tactic(auto, using(crate::proofs::Places::removed_found, crate::proofs::Places::removed_absent, crate::proofs::Ordered::value_absent, crate::proofs::Ordered::value_found))]
pub fn remove<V: Drop>(entries: &mut Vec<(Name, V)>, key: &Name) -> Option<V>
    requires { IsOrdered entries.old.items }
    ensures entries { entries.new.items ≡ without key.now entries.old.items }
    ensures value { result ≡ value_of key.now entries.old.items }
{
    match place_of(entries, key) {
        Ok(index) => {
            let (_, value) = entries.remove(index);
            Some(value)
        }
        Err(_) => None,
    }
}
