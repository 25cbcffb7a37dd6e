//! The rules by which a position is carried.
ghost use Rattle.std.specs.Prelude.{◌≡◌, ◌<◌, ◌≤◌, ◌+◌, ◌∷◌, [], ◌++◌, length, IsTrue, option_map, Some, None, IfSome, IfNone};
ghost use Rattle.item_definitions.specs.Shift as rules;
ghost use Rattle.item_definitions.specs.Shift.{IsWithinLimits, within, rule_insert, rule_remove, rule_split, rule_merge};
ghost use Rattle.model_pos.specs.Shifts.{stick_of};
ghost use Rattle.model_pos.specs.Untouched.{Untouched, IsOutside};

use crate::places::Position;
use crate::shifts::Stick;

/// What is left of a position behind the path of a parent.
fn rest_behind<'a>(parent: &[u32], position: &'a [u32]) -> Option<&'a [u32]>
    ensures { option_map (λ rest. rest.now) result ≡ rules.rest_behind parent.now position.now }
{
    let Some((step, parent)) = parent.split_first() else {
        return Some(position);
    };
    match position.split_first() {
        Some((index, path)) if *step == *index => rest_behind(parent, path),
        _ => None,
    }
}

/// Whether content at an offset comes before a position that begins with a number and goes on by a path.
fn comes_before(at: u32, stick: Stick, number: u32, path: &[u32]) -> bool
    ensures { result ≡ rules.comes_before at (stick_of stick) number path.now }
{
    match path {
        [] => at < number || (at == number && matches!(stick, Stick::ToNext)),
        _ => at <= number,
    }
}

/// The number and the path that are left of a position behind the path of a parent: None where the position is neither in nor below
/// that parent.
pub fn parted<'a>(parent: &[u32], position: &'a Position) -> Option<(u32, &'a [u32])>
    ensures parted { IfSome result (λ parts. rules.rest_behind parent.now position.now ≡ Some (parts.0 ∷ parts.1.now)) }
    ensures apart { IfNone result (Untouched parent.now position.now) }
    ensures outside { IfNone result (IsOutside parent.now position.now) }
    ensures short { IfSome result (λ parts. length parent.now + (1 + length parts.1.now) ≤ 65) }
{
    let Some(rest) = rest_behind(parent, position.as_slice()) else {
        return None;
    };
    match rest.split_first() {
        Some((number, path)) => Some((*number, path)),
        None => None,
    }
}

/// A position after `count` items came in at an offset of a parent.
pub fn by_insert(
    position: &Position,
    parent: &[u32],
    offset: u32,
    count: u32,
    stick: Stick,
) -> Position
    requires { IsWithinLimits (within parent.now (rule_insert offset count (stick_of stick)) position.now) }
    ensures { result ≡ within parent.now (rule_insert offset count (stick_of stick)) position.now }
{
    let Some((number, path)) = parted(parent, position) else {
        return position.copy();
    };
    if !comes_before(offset, stick, number, path) {
        return position.copy();
    }
    position.with_numbers(parent, &[number + count], path)
}

/// A position after `count` items behind an offset of a parent went.
pub fn by_remove(position: &Position, parent: &[u32], offset: u32, count: u32) -> Position
    ensures { result ≡ within parent.now (rule_remove offset count) position.now }
{
    let Some((number, path)) = parted(parent, position) else {
        return position.copy();
    };
    if number < offset {
        return position.copy();
    }
    if number - offset < count {
        return position.with_numbers(parent, &[offset], &[]);
    }
    position.with_numbers(parent, &[number - count], path)
}

/// A position after the element at an index of a parent was split at an offset.
pub fn by_split(
    position: &Position,
    parent: &[u32],
    element: u32,
    at: u32,
    stick: Stick,
) -> Position
    requires { IsWithinLimits (within parent.now (rule_split element at (stick_of stick)) position.now) }
    ensures { result ≡ within parent.now (rule_split element at (stick_of stick)) position.now }
{
    let Some((number, path)) = parted(parent, position) else {
        return position.copy();
    };
    if number < element {
        return position.copy();
    }
    if number > element {
        return position.with_numbers(parent, &[number + 1], path);
    }
    let Some((inner, rest)) = path.split_first() else {
        return position.copy();
    };
    if !comes_before(at, stick, *inner, rest) {
        return position.copy();
    }
    position.with_numbers(parent, &[element + 1, *inner - at], rest)
}

/// A position after the element at an index of a parent was merged into the one before it, which had `count` items.
pub fn by_merge(position: &Position, parent: &[u32], right: u32, count: u32) -> Position
    requires first { 0 < right }
    requires limits { IsWithinLimits (within parent.now (rule_merge right count) position.now) }
    ensures { result ≡ within parent.now (rule_merge right count) position.now }
{
    let Some((number, path)) = parted(parent, position) else {
        return position.copy();
    };
    if number < right {
        return position.copy();
    }
    if number > right {
        return position.with_numbers(parent, &[number - 1], path);
    }
    let Some((inner, rest)) = path.split_first() else {
        return position.with_numbers(parent, &[right - 1, count], &[]);
    };
    position.with_numbers(parent, &[right - 1, count + *inner], rest)
}
