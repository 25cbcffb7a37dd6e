//! The tables of a schema, from its entries.
ghost use Rattle.std.specs.Prelude.{◌≡◌, ℕ, ◌<◌, true, length, IfOk};
ghost use Rattle.schema_definitions.specs.Names.{leads, turned};
ghost use Rattle.schema_definitions.specs.Entries.{pairs, sets, leaves_open};
ghost use Rattle.schema_definitions.specs.Rules.{placements, open_pairs};
ghost use Rattle.schema_rules.specs.Graph.{among, is_marked};
ghost use Rattle.schema_rules.specs.Numbering.{named};
ghost use Rattle.schema_rules.specs.Drawn.{IsDrawn};
ghost use Rattle.schema_rules.specs.Tables.{along, AreKnown, children_rows, key_rows, flag_row};

use crate::graph::Graph;
use crate::marks::{Marks, all_marked, marked};
use crate::numbering::Numbering;
use crate::steps::{Direction, add_entries};
use ck_base::NoMemory;
use schema_definitions::file::{Entry, Flag, Property};

/// The steps that the entries make by a property.
fn steps_of(
    names: &Numbering,
    entries: &[Entry],
    property: Property,
    direction: Direction,
) -> Result<Graph, NoMemory>
    ensures { IfOk result (λ graph. IsDrawn names.now graph (leads (along direction (pairs entries.now property)))) }
{
    let alloc = names.allocator();
    let all = all_marked(alloc, names.len())?;
    let mut graph = Graph::new(alloc, names.len())?;
    add_entries(&mut graph, names, direction, &all, entries, property)?;
    Ok(graph)
}

/// The steps from each parent to the items that its own or the item's entries place in it.
fn placing_steps(names: &Numbering, entries: &[Entry]) -> Result<Graph, NoMemory>
    ensures { IfOk result (λ graph. IsDrawn names.now graph (leads (placements entries.now))) }
{
    let alloc = names.allocator();
    let all = all_marked(alloc, names.len())?;
    let mut graph = Graph::new(alloc, names.len())?;
    add_entries(
        &mut graph,
        names,
        Direction::ToItem,
        &all,
        entries,
        Property::AllowIn,
    )?;
    add_entries(
        &mut graph,
        names,
        Direction::FromItem,
        &all,
        entries,
        Property::AllowChildren,
    )?;
    Ok(graph)
}

/// Which items may stand in each item.
pub fn children_table(names: &Numbering, entries: &[Entry]) -> Result<Vec<Marks>, NoMemory>
    requires { AreKnown names.now entries.now }
    ensures { IfOk result (λ rows. rows.items ≡ children_rows names.now entries.now names.now) }
{
    let content = steps_of(
        names,
        entries,
        Property::AllowContentOf,
        Direction::FromItem,
    )?;
    let placed = placing_steps(names, entries)?;
    let standing = steps_of(names, entries, Property::AllowWhere, Direction::ToItem)?;
    let count = names.len();
    let mut rows = Vec::with_capacity(names.allocator(), count)?;
    for parent in 0..count {
        let parents = content.reached(&[parent])?;
        let there = placed.targets(&parents)?;
        rows.push(standing.reached(there.as_slice())?)?;
    }
    Ok(rows)
}

/// Which attributes each item may have.
pub fn keys_table(names: &Numbering, entries: &[Entry]) -> Result<Vec<Marks>, NoMemory>
    requires { AreKnown names.now entries.now }
    ensures { IfOk result (λ rows. rows.items ≡ key_rows names.now entries.now names.now) }
{
    let sources = steps_of(
        names,
        entries,
        Property::AllowAttributesOf,
        Direction::FromItem,
    )?;
    let allowed = steps_of(
        names,
        entries,
        Property::AllowAttributes,
        Direction::FromItem,
    )?;
    let count = names.len();
    let mut rows = Vec::with_capacity(names.allocator(), count)?;
    for item in 0..count {
        let items = sources.reached(&[item])?;
        let keys = allowed.targets(&items)?;
        rows.push(marked(names.allocator(), count, keys.as_slice())?)?;
    }
    Ok(rows)
}

/// The items that no entry of theirs writes a flag of.
fn open_items(names: &Numbering, entries: &[Entry], flag: Flag) -> Result<Marks, NoMemory>
    ensures size { IfOk result (λ marks. length marks ≡ length names.now) }
    ensures left { IfOk result (λ marks. (node : ℕ) → node < length names.now → is_marked marks node ≡ leaves_open entries.now flag (named names.now node)) }
{
    let mut left = all_marked(names.allocator(), names.len())?;
    for entry in entries {
        if let (Some(_), Some(item)) = (entry.flag(flag), names.place_of(entry.item())) {
            left.clear(item);
        }
    }
    Ok(left)
}

/// The items of which an entry writes a flag true.
fn writers(names: &Numbering, entries: &[Entry], flag: Flag) -> Result<Vec<usize>, NoMemory>
    ensures inside { IfOk result (λ nodes. (node : ℕ) → among nodes.items node ≡ true → node < length names.now) }
    ensures writing { IfOk result (λ nodes. (node : ℕ) → node < length names.now → among nodes.items node ≡ sets entries.now flag (named names.now node)) }
{
    let mut nodes = Vec::new(names.allocator());
    for entry in entries {
        if let (Some(true), Some(item)) = (entry.flag(flag), names.place_of(entry.item())) {
            nodes.push(item)?;
        }
    }
    Ok(nodes)
}

/// The steps to each item that leaves a flag open from those from which it inherits.
fn open_steps(names: &Numbering, entries: &[Entry], flag: Flag) -> Result<Graph, NoMemory>
    ensures { IfOk result (λ graph. IsDrawn names.now graph (leads (turned (open_pairs entries.now flag)))) }
{
    let left = open_items(names, entries, flag)?;
    let mut graph = Graph::new(names.allocator(), names.len())?;
    add_entries(
        &mut graph,
        names,
        Direction::ToItem,
        &left,
        entries,
        Property::InheritTypesFrom,
    )?;
    Ok(graph)
}

/// The items for which a flag is set.
pub fn flag_marks(names: &Numbering, entries: &[Entry], flag: Flag) -> Result<Marks, NoMemory>
    requires { AreKnown names.now entries.now }
    ensures { IfOk result (λ marks. marks ≡ flag_row names.now entries.now flag) }
{
    let steps = open_steps(names, entries, flag)?;
    let start = writers(names, entries, flag)?;
    let marks = steps.reached(start.as_slice())?;
    Ok(marks)
}
