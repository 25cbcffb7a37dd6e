//! The parts of an entry, as they are read one after the other.
use schema_definitions::names::Names;

/// The lists of an entry.
#[derive(Clone, Copy, Debug)]
pub enum EntryList {
    AllowIn,
    AllowChildren,
    AllowAttributes,
    AllowWhere,
    AllowContentOf,
    AllowAttributesOf,
    InheritTypesFrom,
    InheritAllFrom,
}

/// Where the item may stand, what may stand in it, and its attributes.
#[derive(Debug, Drop)]
pub struct Places {
    pub allow_in: Names,
    pub allow_children: Names,
    pub allow_attributes: Names,
}

/// The items from which it has something.
#[derive(Debug, Drop)]
pub struct Sources {
    pub allow_where: Names,
    pub allow_content_of: Names,
    pub allow_attributes_of: Names,
    pub inherit_types_from: Names,
    pub inherit_all_from: Names,
}

/// What is written of its flags.
#[derive(Debug, Drop)]
pub struct Flags {
    pub is_block: Option<bool>,
    pub is_inline: Option<bool>,
    pub is_limit: Option<bool>,
    pub is_object: Option<bool>,
    pub is_selectable: Option<bool>,
    pub is_content: Option<bool>,
}
