//! The names of the elements that are counted for a list of converters.
ghost use Rattle.std.specs.Prelude.{◌≡◌, false, IfOk, OnOk, option_copied};
ghost use Rattle.std.specs.Option.{option_map_or};
ghost use Rattle.converter_definitions.specs.Form.{forms_of};
ghost use Rattle.converter_definitions.specs.Parts.{shape_of, shapes_of};
ghost use Rattle.converter_definitions.specs.Pattern.{is_index};
ghost use Rattle.converter_definitions.specs.Indexed.{has_index, form_has_index, forms_have_index, name_if, counted_by, with_name, indexed_names};

use crate::plan_names::has;
use ck_base::NoMemory;
use ck_base::name::Name;
use converter_definitions::pattern::{Pattern, Patterns};
use converter_definitions::plan::{ConverterPlan, PlanEntry};
use converter_definitions::shape::ShapeNode;
use converter_definitions::stock::StockConverter;
use std::alloc::Global;

/// Whether a text is the index of an element.
fn is_index(pattern: &Pattern) -> bool
    ensures { result ≡ is_index pattern.now }
{
    matches!(pattern, Pattern::Index(_))
}

/// Whether a text, if there is one, is the index of an element.
fn is_some_index(pattern: &Option<Pattern>) -> bool
    ensures { result ≡ option_map_or is_index pattern.now false }
{
    match pattern {
        None => false,
        Some(pattern) => is_index(pattern),
    }
}

/// Whether the text of one of these attributes is an index.
fn has_index(patterns: &Patterns) -> bool
    ensures { result ≡ has_index patterns.now }
{
    patterns.as_slice().iter().any(|entry| is_index(&entry.1))
}

/// Whether the text of an attribute of an element in a shape is an index.
#[cycle(counting)]
fn node_has_index(node: &ShapeNode<Patterns>) -> bool
    ensures { result ≡ form_has_index (shape_of node.now) }
{
    match node {
        ShapeNode::Slot | ShapeNode::Text(_) => false,
        ShapeNode::Element {
            attrs,
            children,
            ..
        } => has_index(attrs) || nodes_have_index(children.as_slice()),
    }
}

/// Whether the text of an attribute of an element in these parts of a shape is an index.
#[cycle(counting)]
fn nodes_have_index(nodes: &[ShapeNode<Patterns>]) -> bool
    ensures { result ≡ forms_have_index (forms_of (shapes_of nodes.now)) }
{
    match nodes.split_first() {
        None => false,
        Some((node, rest)) => node_has_index(node) || nodes_have_index(rest),
    }
}

/// A name, where a test holds.
fn name_if(test: bool, name: &Name) -> Option<&Name>
    ensures { option_copied result ≡ name_if test name.now }
{
    if test { Some(name) } else { None }
}

/// The name of the elements that are counted for a converter.
fn counted_by(entry: &PlanEntry) -> Option<&Name>
    ensures { option_copied result ≡ counted_by entry.now }
{
    match entry {
        PlanEntry::Boxed { index, .. } => index.as_ref(),
        PlanEntry::Stock(converter) => match converter {
            StockConverter::ElementToElement { model, view, .. } => {
                name_if(has_index(&view.attributes), model)
            }
            StockConverter::ElementToStructure { model, view, .. } => {
                name_if(node_has_index(view.outermost()), model)
            }
            StockConverter::AttributeToAttribute { element, view, .. } => {
                if is_some_index(&view.value) {
                    element.as_ref()
                } else {
                    None
                }
            }
            StockConverter::AttributeToElement { .. }
            | StockConverter::MarkerToHighlight { .. }
            | StockConverter::MarkerToElement { .. } => None,
        },
    }
}

/// Adds a name, if there is one that isn't among the names. It answers `NoMemory` alone beside Ok.
fn add_name(names: &mut Vec<Name>, name: Option<&Name>) -> Result<(), NoMemory>
    ensures { OnOk result (names.new.items ≡ with_name names.old.items (option_copied name.entry)) }
{
    match name {
        None => {}
        Some(name) => {
            if !has(names.as_slice(), name) {
                names.push(name.copy()?)?;
            }
        }
    }
    Ok(())
}

/// The names of the elements that are counted for these converters, each once, in the order in which they are read: those of the elements whose
/// index a converter of the settings writes, and those that are the `index` of a product's converter. It answers `NoMemory` alone beside Ok.
pub fn indexed_names(alloc: Global, plans: &[ConverterPlan]) -> Result<Vec<Name>, NoMemory>
    ensures { IfOk result (λ names. names.items ≡ indexed_names plans.now) }
{
    let mut names = Vec::new(alloc);
    for plan in plans {
        add_name(&mut names, counted_by(&plan.entry))?;
    }
    Ok(names)
}
