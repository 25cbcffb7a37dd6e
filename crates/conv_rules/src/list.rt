//! The list of converters.
ghost use Rattle.std.specs.Prelude.{◌≡◌, ◌≤◌, [], length, OnOk, OnErr};
ghost use Rattle.schema_definitions.specs.Names.{has};
ghost use Rattle.converter_definitions.specs.Priority.{added};
ghost use Rattle.conv_rules.specs.Listed.{converter_of, conversion_of, listed, listed_of, place_behind};

use crate::converter::Converter;
use crate::stock::has;
use ck_base::NoMemory;
use ck_base::name::Name;
use ck_base::priority::Priority;
use converter_definitions::stock::StockConverter;
use std::alloc::Global;

/// A converter of a list: one of the settings, or one that the product adds.
#[derive(Drop)]
pub enum Entry {
    /// One of the settings.
    Stock(StockConverter),
    /// One of the product, by its name in the settings.
    Boxed {
        name: Name,
        object: Box<dyn Converter>,
    },
}

/// A converter with its priority.
#[derive(Drop)]
pub(crate) struct Listed {
    pub(crate) priority: Priority,
    pub(crate) entry: Entry,
}

/// Converters in their order: those of a higher priority first, and of one priority in the order in which they were added.
#[derive(Drop)]
pub struct ConverterList {
    pub(crate) entries: Vec<Listed>,
    pub(crate) objects: Vec<Name>,
    pub(crate) joined: bool,
    pub(crate) indexed: Vec<Name>,
}

impl ConverterList {
    /// No converters. `objects` are the names of the elements that are objects in the text, `joined` says whether layers are joined, and
    /// `indexed` are the names whose elements are counted. It takes no memory.
    pub fn new(alloc: Global, objects: Vec<Name>, joined: bool, indexed: Vec<Name>) -> ConverterList
        ensures { conversion_of (λ object. gives object) result
            ≡ record { converters = []; objects = objects.items; joined = joined; indexed = indexed.items } }
    {
        ConverterList {
            entries: Vec::new(alloc),
            objects,
            joined,
            indexed,
        }
    }

    /// Adds a converter behind all of equal or higher priority. It answers `NoMemory` alone beside Ok, and then nothing has changed.
    pub fn add(&mut self, priority: Priority, entry: Entry) -> Result<(), NoMemory>
        ensures ok { OnOk result (listed_of (λ object. gives object) self.new
            ≡ added (priority, converter_of (λ object. gives object) entry) (listed_of (λ object. gives object) self.old)) }
        ensures err { OnErr result (listed_of (λ object. gives object) self.new ≡ listed_of (λ object. gives object) self.old) }
        ensures others { record (conversion_of (λ object. gives object) self.new) { converters = [] }
            ≡ record (conversion_of (λ object. gives object) self.old) { converters = [] } }
    {
        let place = place_behind(self.entries.as_slice(), priority);
        self.entries.insert(place, Listed { priority, entry })?;
        Ok(())
    }

    /// Whether elements of a name are objects in the text. It takes no memory.
    pub fn is_object(&self, name: &Name) -> bool
        ensures { result ≡ has (conversion_of (λ object. gives object) self.now).objects name.now }
    {
        has(self.objects.as_slice(), name)
    }

    /// Whether elements of a name are counted in their parents. It takes no memory.
    pub fn is_indexed(&self, name: &Name) -> bool
        ensures { result ≡ has (conversion_of (λ object. gives object) self.now).indexed name.now }
    {
        has(self.indexed.as_slice(), name)
    }
}

/// The place behind all converters of equal or higher priority, from the front on.
fn place_behind(entries: &[Listed], priority: Priority) -> usize
    ensures place { result ≡ place_behind priority (listed (λ object. gives object) entries.now) }
    ensures inside { result ≤ length entries.now }
{
    for (place, other) in entries.iter().enumerate() {
        if other.priority < priority {
            return place;
        }
    }
    entries.len()
}
