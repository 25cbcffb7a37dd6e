//! A schema file: entries that register and extend items, and checks. The order of entries has no meaning; that of checks has.
ghost use Rattle.std.specs.Prelude.{◌≡◌, ◌++◌, IfOk};
ghost use Rattle.schema_definitions.specs.Entries.{subject_name, item_of, listed, written};
ghost use Rattle.schema_definitions.specs.Compiled.{bare};

use crate::names::Names;
use ck_base::NoMemory;
use ck_base::name::Name;
use std::alloc::Global;

/// Entries and checks.
#[derive(Debug, Drop)]
pub struct SchemaFile {
    pub entries: Vec<Entry>,
    pub checks: Vec<Check>,
}

/// The item that an entry is about.
#[derive(Debug, Drop)]
pub enum Subject {
    /// The entry registers this item.
    Item(Name),
    /// The entry says more of this item, which is registered elsewhere.
    Extend(Name),
}

/// What one entry says of its item. A list that isn't written is empty; a flag that isn't written is None.
#[derive(Debug, Drop)]
pub struct Entry {
    pub subject: Subject,
    /// The item may stand in these.
    pub allow_in: Names,
    /// These may stand in the item.
    pub allow_children: Names,
    /// The item may have these attributes.
    pub allow_attributes: Names,
    /// The item may stand where these may.
    pub allow_where: Names,
    /// What may stand in these may stand in the item.
    pub allow_content_of: Names,
    /// The item may have the attributes of these.
    pub allow_attributes_of: Names,
    /// The item has the flags of these, but for those that it writes itself.
    pub inherit_types_from: Names,
    /// All of the four properties above, from these.
    pub inherit_all_from: Names,
    pub is_block: Option<bool>,
    pub is_inline: Option<bool>,
    pub is_limit: Option<bool>,
    pub is_object: Option<bool>,
    pub is_selectable: Option<bool>,
    pub is_content: Option<bool>,
}

/// The properties of an entry that list names.
#[derive(Clone, Copy, Debug)]
pub enum Property {
    AllowIn,
    AllowChildren,
    AllowAttributes,
    AllowWhere,
    AllowContentOf,
    AllowAttributesOf,
    InheritTypesFrom,
}

/// The flags of an entry.
#[derive(Clone, Copy, Debug)]
pub enum Flag {
    Block,
    Inline,
    Limit,
    Object,
    Selectable,
    Content,
}

/// A rule that goes before what the entries say.
#[derive(Debug, Drop)]
pub enum Check {
    /// Whether the item `child` may stand behind ancestors that end with these.
    Child {
        child: Name,
        ends_with: Names,
        answer: bool,
    },
    /// Whether the attribute may be on an item that, behind its ancestors, ends with these.
    Attribute {
        attribute: Name,
        ends_with: Names,
        answer: bool,
    },
}

impl Subject {
    /// The item's name.
    pub fn name(&self) -> &Name
        ensures { result.now ≡ subject_name self.now }
    {
        match self {
            Subject::Item(name) | Subject::Extend(name) => name,
        }
    }

    /// The same subject. It answers `NoMemory` alone beside Ok.
    pub fn copy(&self) -> Result<Subject, NoMemory>
        ensures { IfOk result (λ subject. subject ≡ self.now) }
    {
        match self {
            Subject::Item(name) => {
                let name = name.copy()?;
                Ok(Subject::Item(name))
            }
            Subject::Extend(name) => {
                let name = name.copy()?;
                Ok(Subject::Extend(name))
            }
        }
    }
}

impl Check {
    /// The same check. It answers `NoMemory` alone beside Ok.
    pub fn copy(&self) -> Result<Check, NoMemory>
        ensures { IfOk result (λ check. check ≡ self.now) }
    {
        match self {
            Check::Child {
                child,
                ends_with,
                answer,
            } => {
                let child = child.copy()?;
                let ends_with = ends_with.copy()?;
                Ok(Check::Child {
                    child,
                    ends_with,
                    answer: *answer,
                })
            }
            Check::Attribute {
                attribute,
                ends_with,
                answer,
            } => {
                let attribute = attribute.copy()?;
                let ends_with = ends_with.copy()?;
                Ok(Check::Attribute {
                    attribute,
                    ends_with,
                    answer: *answer,
                })
            }
        }
    }
}

impl Entry {
    /// An entry that says nothing of its item. It takes no memory.
    pub fn new(alloc: Global, subject: Subject) -> Entry
        ensures { result ≡ bare subject }
    {
        Entry {
            subject,
            allow_in: Names::new(Vec::new(alloc)),
            allow_children: Names::new(Vec::new(alloc)),
            allow_attributes: Names::new(Vec::new(alloc)),
            allow_where: Names::new(Vec::new(alloc)),
            allow_content_of: Names::new(Vec::new(alloc)),
            allow_attributes_of: Names::new(Vec::new(alloc)),
            inherit_types_from: Names::new(Vec::new(alloc)),
            inherit_all_from: Names::new(Vec::new(alloc)),
            is_block: None,
            is_inline: None,
            is_limit: None,
            is_object: None,
            is_selectable: None,
            is_content: None,
        }
    }

    /// The name of its item.
    pub fn item(&self) -> &Name
        ensures { result.now ≡ item_of self.now }
    {
        self.subject.name()
    }

    /// What it writes of a flag.
    pub fn flag(&self, flag: Flag) -> Option<bool>
        ensures { result ≡ written flag self.now }
    {
        match flag {
            Flag::Block => self.is_block,
            Flag::Inline => self.is_inline,
            Flag::Limit => self.is_limit,
            Flag::Object => self.is_object,
            Flag::Selectable => self.is_selectable,
            Flag::Content => self.is_content,
        }
    }

    /// The names that it lists under a property: its own, and those from which it inherits all.
    pub fn listed(&self, property: Property) -> (&[Name], &[Name])
        ensures { result.0.now ++ result.1.now ≡ listed property self.now }
    {
        match property {
            Property::AllowIn => (self.allow_in.as_slice(), &[]),
            Property::AllowChildren => (self.allow_children.as_slice(), &[]),
            Property::AllowAttributes => (self.allow_attributes.as_slice(), &[]),
            Property::AllowWhere => (
                self.allow_where.as_slice(),
                self.inherit_all_from.as_slice(),
            ),
            Property::AllowContentOf => {
                (
                    self.allow_content_of.as_slice(),
                    self.inherit_all_from.as_slice(),
                )
            }
            Property::AllowAttributesOf => {
                (
                    self.allow_attributes_of.as_slice(),
                    self.inherit_all_from.as_slice(),
                )
            }
            Property::InheritTypesFrom => {
                (
                    self.inherit_types_from.as_slice(),
                    self.inherit_all_from.as_slice(),
                )
            }
        }
    }

    /// The same entry. It answers `NoMemory` alone beside Ok.
    pub fn copy(&self) -> Result<Entry, NoMemory>
        ensures { IfOk result (λ entry. entry ≡ self.now) }
    {
        Ok(Entry {
            subject: self.subject.copy()?,
            allow_in: self.allow_in.copy()?,
            allow_children: self.allow_children.copy()?,
            allow_attributes: self.allow_attributes.copy()?,
            allow_where: self.allow_where.copy()?,
            allow_content_of: self.allow_content_of.copy()?,
            allow_attributes_of: self.allow_attributes_of.copy()?,
            inherit_types_from: self.inherit_types_from.copy()?,
            inherit_all_from: self.inherit_all_from.copy()?,
            is_block: self.is_block,
            is_inline: self.is_inline,
            is_limit: self.is_limit,
            is_object: self.is_object,
            is_selectable: self.is_selectable,
            is_content: self.is_content,
        })
    }
}
