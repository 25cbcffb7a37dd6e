//! What a converter looks at.
ghost use Rattle.std.specs.Prelude.{◌≡◌};
ghost use Rattle.converter_definitions.specs.Facts.{same_key};

use ck_base::attributes::Attrs;
use ck_base::name::Name;

/// What a converter may look at of an element of the model. (After the data of a `dispatcher.on( 'insert' )` callback of CKEditor 5, but
/// that nothing else of the document is to be had.)
#[derive(Debug, Drop)]
pub struct Facts {
    /// The element's name.
    pub name: Name,
    /// The element's attributes.
    pub attributes: Attrs,
    /// The name of its parent, `$root` for the root.
    pub parent: Name,
    /// How many elements stand before it in its parent, where its name is indexed.
    pub index: Option<u32>,
}

/// What a converter consumes of an element. (After `ModelConsumable` of CKEditor 5.)
#[derive(Debug, Drop)]
pub enum Key {
    /// The element itself, written `insert`.
    Insert,
    /// One of its attributes, written `attribute:KEY`.
    Attribute(Name),
}

impl Key {
    /// Whether the two are one.
    pub fn same(&self, other: &Key) -> bool
        ensures { result ≡ same_key self.now other.now }
    {
        match (self, other) {
            (Key::Insert, Key::Insert) => true,
            (Key::Attribute(name), Key::Attribute(other)) => name == other,
            _ => false,
        }
    }
}
