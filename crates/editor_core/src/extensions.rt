//! What a product adds to an editor.
use ck_base::name::Name;
use conv_rules::converter::Converter;
use post_fix::fixer::Fixer;

/// An object of the product, and the name by which settings ask for it.
#[derive(Drop)]
pub struct Named<T> {
    pub name: Name,
    pub object: T,
}

/// What a product adds: its converters and its fixers. Of two of one kind with the same name the first is meant.
#[derive(Drop)]
pub struct Extensions {
    pub converters: Vec<Named<Box<dyn Converter>>>,
    pub fixers: Vec<Named<Box<dyn Fixer>>>,
}
