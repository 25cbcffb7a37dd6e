//! What a list of converters says.
use crate::stock::StockConverter;
use ck_base::name::Name;
use ck_base::priority::Priority;

/// A converter of the settings and how early it comes.
#[derive(Debug, Drop)]
pub struct ConverterPlan {
    pub priority: Priority,
    pub entry: PlanEntry,
}

/// A converter of the settings.
#[derive(Debug, Drop)]
pub enum PlanEntry {
    /// One that the settings describe.
    Stock(StockConverter),
    /// One of the product, by its name; where it looks at the index of an element, with the name of these elements.
    Boxed { name: Name, index: Option<Name> },
}
