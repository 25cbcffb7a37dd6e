//! Fixers as settings ask for them.
use crate::stock::StockFixer;
use ck_base::name::Name;

/// A fixer as settings ask for it: one of theirs, or one that a product adds, by the name that it is handed in by.
#[derive(Debug, Drop)]
pub enum FixerPlan {
    /// One of the settings.
    Stock(StockFixer),
    /// One of the product.
    Boxed(Name),
}
