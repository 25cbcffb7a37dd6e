//! The steps that entries make between the numbers of names.
ghost use Rattle.std.specs.Prelude.{◌≡◌, ◌<◌, ◌&&◌, ◌==◌, length, OnOk};
ghost use Rattle.std.specs.Str.{bytes_eq};
ghost use Rattle.schema_definitions.specs.Names.{has};
ghost use Rattle.schema_definitions.specs.Entries.{item_of, listed, lists};
ghost use Rattle.schema_rules.specs.Graph.{is_marked};
ghost use Rattle.schema_rules.specs.Numbering.{named};
ghost use Rattle.schema_rules.specs.Steps.{IsGrown};

use crate::graph::Graph;
use crate::marks::Marks;
use crate::numbering::Numbering;
use ck_base::NoMemory;
use ck_base::name::Name;
use schema_definitions::file::{Entry, Property};

/// Which way the step goes that an entry makes.
#[derive(Clone, Copy, Debug)]
pub enum Direction {
    /// From the entry's item to the name that it lists.
    FromItem,
    /// From the name that the entry lists to its item.
    ToItem,
}

/// Adds the step that an entry of an item makes where it lists a name.
fn add_step(
    graph: &mut Graph,
    names: &Numbering,
    direction: Direction,
    item: usize,
    name: &Name,
) -> Result<(), NoMemory>
    requires size { length graph.old ≡ length names.now }
    requires inside { item < length names.now }
    ensures { OnOk result (IsGrown names.now direction graph.old graph.new
        (λ node other. (item == node) && bytes_eq name.now (named names.now other))) }
{
    let Some(other) = names.place_of(name) else {
        return Ok(());
    };
    match direction {
        Direction::FromItem => {
            graph.add(item, other)?;
            Ok(())
        }
        Direction::ToItem => {
            graph.add(other, item)?;
            Ok(())
        }
    }
}

/// Adds the steps that an entry of an item makes where it lists these names.
fn add_steps(
    graph: &mut Graph,
    names: &Numbering,
    direction: Direction,
    item: usize,
    listed: &[Name],
) -> Result<(), NoMemory>
    requires size { length graph.old ≡ length names.now }
    requires inside { item < length names.now }
    ensures { OnOk result (IsGrown names.now direction graph.old graph.new
        (λ node other. (item == node) && has listed.now (named names.now other))) }
{
    for name in listed {
        add_step(graph, names, direction, item, name)?;
    }
    Ok(())
}

/// Adds the steps that an entry makes by a property, if its item is one of the subjects.
fn add_entry(
    graph: &mut Graph,
    names: &Numbering,
    direction: Direction,
    subjects: &Marks,
    entry: &Entry,
    property: Property,
) -> Result<(), NoMemory>
    requires { length graph.old ≡ length names.now }
    ensures { OnOk result (IsGrown names.now direction graph.old graph.new
        (λ node other. is_marked subjects.now node
        && (bytes_eq (item_of entry.now) (named names.now node) && has (listed property entry.now) (named names.now other)))) }
{
    match names.place_of(entry.item()) {
        Some(item) if subjects.has(item) => {
            let (own, inherited) = entry.listed(property);
            add_steps(graph, names, direction, item, own)?;
            add_steps(graph, names, direction, item, inherited)?;
            Ok(())
        }
        _ => Ok(()),
    }
}

/// Adds the steps that the entries of the subjects make by a property.
pub fn add_entries(
    graph: &mut Graph,
    names: &Numbering,
    direction: Direction,
    subjects: &Marks,
    entries: &[Entry],
    property: Property,
) -> Result<(), NoMemory>
    requires { length graph.old ≡ length names.now }
    ensures { OnOk result (IsGrown names.now direction graph.old graph.new
        (λ node other. is_marked subjects.now node
        && lists entries.now property (named names.now node) (named names.now other))) }
{
    for entry in entries {
        add_entry(graph, names, direction, subjects, entry, property)?;
    }
    Ok(())
}
