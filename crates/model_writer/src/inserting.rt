//! Insertions of a text and of an element.
ghost use Rattle.std.specs.Prelude.{◌≡◌, ◌∷◌, [], ◌+◌, ◌^◌, ◌<◌, ℕ, List, Bool, map, nat_le, Ok, IfOk, IfErr, OnOk, string_bytes, ◌++◌, encode_utf8, true};
ghost use Rattle.std.specs.Str.{chars, all_scalars};
ghost use Rattle.ck_base.specs.declared.faults.EditFault.TheVariants.{NoMemory as OutOfMemory};
ghost use Rattle.item_definitions.specs.Item.{character};
ghost use Rattle.operation_definitions.specs.Operation as meant;
ghost use Rattle.model_ops.specs.Meant.{operation_of};
ghost use Rattle.schema_definitions.specs.Allowed.{is_registered};
ghost use Rattle.edit_definitions.specs.declared.edit.Edit.TheVariants.{InsertText, InsertElement};
ghost use Rattle.edit_definitions.specs.Planned.{operations_of, insertion, empty_element};
ghost use Rattle.model_writer.specs.Plans.{Plans, operations_in};

use crate::places::{bad_position, is_known, is_there, not_registered};
use ck_base::NoMemory;
use ck_base::attributes::Attrs;
use ck_base::faults::EditFault;
use ck_base::name::Name;
use ck_base::text::ViewText;
use model_doc::Document;
use model_ops::operation::Operation;
use model_pos::Position;
use model_tree::id::ElementId;
use model_tree::items::Items;
use schema_rules::schema::Schema;
use std::alloc::Global;

/// How many ids there are.
const IDS: u64 = 9_223_372_036_854_775_808;

/// The document's allocator.
pub(crate) fn alloc_of(document: &Document) -> Global {
    document.tree().items().allocator()
}

/// The fault of memory that can't be had, once what found no room is let go.
pub(crate) fn out_of_memory<T: Drop>(_unkept: T) -> EditFault
    ensures { result ≡ OutOfMemory }
{
    EditFault::NoMemory
}

/// One operation alone.
pub(crate) fn one(alloc: Global, operation: Operation) -> Result<Vec<Operation>, EditFault>
    ensures { Plans (Ok (operation_of operation ∷ [])) result }
{
    let mut operations = Vec::new(alloc);
    match operations.push(operation) {
        Ok(()) => Ok(operations),
        Err(unkept) => Err(out_of_memory(unkept)),
    }
}

/// Puts an operation behind others.
pub(crate) fn push(operations: &mut Vec<Operation>, operation: Operation) -> Result<(), EditFault>
    ensures ok { OnOk result (operations_in operations.new ≡ operations_in operations.old ++ operation_of operation ∷ []) }
    ensures fault { IfErr result (λ fault. fault ≡ OutOfMemory) }
{
    match operations.push(operation) {
        Ok(()) => Ok(()),
        Err(unkept) => Err(out_of_memory(unkept)),
    }
}

/// Items come in at a position, if there are any.
#[tactic(auto, using(crate::proofs::Inserted::nothing, crate::proofs::Inserted::something))]
pub(crate) fn insertion(
    alloc: Global,
    at: &Position,
    items: Items,
) -> Result<Vec<Operation>, EditFault>
    ensures { Plans (Ok (insertion at.now items)) result }
{
    if items.len() == 0 {
        return Ok(Vec::new(alloc));
    }
    one(
        alloc,
        Operation::Insert {
            at: at.copy(),
            items,
        },
    )
}

/// Whether so many new ids are left.
pub(crate) fn has_ids(document: &Document, count: u64) -> bool
    ensures { result ≡ nat_le (document.now.state.document.next_id + count) (2 ^ 63) }
{
    document.next_id().saturating_add(count) <= IDS
}

/// Puts a character behind a text.
fn push_scalar(string: &mut String, scalar: char) -> Result<(), NoMemory>
    ensures bytes { OnOk result (string_bytes string.new ≡ string_bytes string.old ++ encode_utf8 scalar) }
    ensures scalar { all_scalars (scalar ∷ []) ≡ true }
{
    string.push(scalar)?;
    Ok(())
}

/// A text of these scalar values.
fn string_of(alloc: Global, scalars: &[char]) -> Result<String, NoMemory>
    ensures { IfOk result (λ string. chars (string_bytes string) ≡ scalars.now) }
{
    let mut string = String::new(alloc);
    for scalar in scalars {
        push_scalar(&mut string, *scalar)?;
    }
    Ok(string)
}

/// The characters of a text, each with these attributes.
fn characters(alloc: Global, text: &ViewText, attributes: &Attrs) -> Result<Items, NoMemory>
    ensures { IfOk result (λ items. items ≡ map (λ scalar. character scalar attributes.now) text.now) }
{
    let string = string_of(alloc, text.scalars())?;
    Items::text(alloc, string.as_str(), attributes)
}

/// The plan of a text that comes in.
pub(crate) fn insert_text(
    document: &Document,
    number: u64,
    at: &Position,
    text: &ViewText,
    attributes: &Attrs,
) -> Result<Vec<Operation>, EditFault>
    ensures { (registered : List ℕ → Bool) → Plans (operations_of registered number (InsertText at.now text.now attributes.now) document.now.state) result }
{
    if !is_there(document.tree(), at) {
        return Err(bad_position(number, at));
    }
    let alloc = alloc_of(document);
    let Ok(items) = characters(alloc, text, attributes) else {
        return Err(EditFault::NoMemory);
    };
    insertion(alloc, at, items)
}

/// An element without children.
pub(crate) fn empty_element(
    alloc: Global,
    id: u64,
    name: &Name,
    attributes: &Attrs,
) -> Result<Items, NoMemory>
    requires { id < 2 ^ 63 }
    ensures { IfOk result (λ items. items ≡ empty_element id name.now attributes.now) }
{
    let name = name.copy()?;
    let attributes = attributes.copy()?;
    let children = Items::new(alloc)?;
    Items::element(alloc, ElementId::new(id), name, attributes, children)
}

/// The plan of an element that comes in.
pub(crate) fn insert_element(
    document: &Document,
    schema: &Schema,
    number: u64,
    at: &Position,
    name: &Name,
    attributes: &Attrs,
) -> Result<Vec<Operation>, EditFault>
    ensures { Plans (operations_of (is_registered schema.now) number (InsertElement at.now name.now attributes.now) document.now.state) result }
{
    if !is_known(schema, name) {
        return Err(not_registered(number, name));
    }
    if !is_there(document.tree(), at) {
        return Err(bad_position(number, at));
    }
    if !has_ids(document, 1) {
        return Err(EditFault::IdsSpent { edit: number });
    }
    let alloc = alloc_of(document);
    let Ok(items) = empty_element(alloc, document.next_id(), name, attributes) else {
        return Err(EditFault::NoMemory);
    };
    insertion(alloc, at, items)
}
