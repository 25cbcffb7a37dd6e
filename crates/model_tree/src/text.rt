//! Texts and heads of elements, whose copies share what they hold.
ghost use Rattle.std.specs.Prelude.{◌≡◌, ◌↔◌, ◌+◌, ◌≤◌, ◌++◌, length, take, drop, IfOk, IsTrue, option_copied};
ghost use Rattle.operation_definitions.specs.Level.{with_key};
ghost use Rattle.model_tree.specs.Parts.{TextParts, HeadParts};

use crate::id::ElementId;
use ck_base::NoMemory;
use ck_base::attributes::Attrs;
use ck_base::name::Name;
use ck_base::value::Value;
use std::alloc::Global;
use std::marker::Model;
use std::rc::Rc;

/// These attributes with a value of a key, or without one.
fn with_key(
    alloc: Global,
    attrs: &Attrs,
    key: &Name,
    value: Option<&Value>,
) -> Result<Rc<Attrs>, NoMemory>
    ensures { IfOk result (λ made. made.value ≡ with_key key.now (option_copied value.entry) attrs.now) }
{
    let mut made = attrs.copy()?;
    match value {
        Some(value) => {
            let key = key.copy()?;
            let value = value.copy()?;
            made.set(key, value)?;
        }
        None => {
            made.remove(key);
        }
    }
    let made = Rc::new(alloc, made)?;
    Ok(made)
}

/// Characters that stand next to each other and have the same attributes.
#[derive(Debug, Drop)]
pub struct Text {
    scalars: Rc<Vec<char>>,
    attrs: Rc<Attrs>,
}

impl Model for Text {
    ghost use Rattle.model_tree.specs.Parts.{TextParts, coded_text};

    ghost Value = { TextParts };

    ghost coded = { coded_text };

    ghost view = { λ text. record { scalars = text.scalars.value.items; attributes = text.attrs.value } };
}

impl Text {
    /// The text of these scalar values.
    pub fn new(alloc: Global, scalars: Vec<char>, attrs: Rc<Attrs>) -> Result<Text, NoMemory>
        ensures { IfOk result (λ text. text ≡ record { scalars = scalars.items; attributes = attrs.value }) }
    {
        let scalars = Rc::new(alloc, scalars)?;
        Ok(Text { scalars, attrs })
    }

    /// The same text.
    pub fn share(&self) -> Result<Text, NoMemory>
        ensures { IfOk result (λ text. text ≡ self.now) }
    {
        let scalars = self.scalars.clone()?;
        let attrs = self.attrs.clone()?;
        Ok(Text { scalars, attrs })
    }

    /// How many characters it has.
    pub fn len(&self) -> usize
        ensures { result ≡ length self.now.scalars }
    {
        self.scalars.len()
    }

    /// Its scalar values.
    pub fn scalars(&self) -> &[char]
        ensures { result.now ≡ self.now.scalars }
    {
        self.scalars.as_slice()
    }

    /// Its attributes.
    pub fn attrs(&self) -> &Attrs
        ensures { result.now ≡ self.now.attributes }
    {
        &self.attrs
    }

    /// The `count` characters behind an offset.
    pub fn part(&self, offset: usize, count: usize) -> Result<Text, NoMemory>
        requires { offset + count ≤ length self.now.scalars }
        ensures scalars { IfOk result (λ text. text.scalars ≡ take count (drop offset self.now.scalars)) }
        ensures attributes { IfOk result (λ text. text.attributes ≡ self.now.attributes) }
    {
        if count == self.scalars.len() {
            return self.share();
        }
        let alloc = *self.scalars.allocator();
        let scalars = Vec::from_slice(alloc, &self.scalars()[offset..offset + count])?;
        let attrs = self.attrs.clone()?;
        Text::new(alloc, scalars, attrs)
    }

    /// The same characters with a value of a key, or without one.
    pub fn with_key(&self, key: &Name, value: Option<&Value>) -> Result<Text, NoMemory>
        ensures scalars { IfOk result (λ text. text.scalars ≡ self.now.scalars) }
        ensures attributes { IfOk result (λ text. text.attributes ≡ with_key key.now (option_copied value.entry) self.now.attributes) }
    {
        let attrs = with_key(*self.scalars.allocator(), &self.attrs, key, value)?;
        let scalars = self.scalars.clone()?;
        Ok(Text { scalars, attrs })
    }

    /// Whether the two have the same attributes.
    pub fn joins(&self, next: &Text) -> bool
        ensures { IsTrue result ↔ (self.now.attributes ≡ next.now.attributes) }
    {
        self.attrs.same(&next.attrs)
    }

    /// This text with the characters of another one behind it.
    pub fn joined(&self, next: &Text) -> Result<Text, NoMemory>
        ensures scalars { IfOk result (λ text. text.scalars ≡ self.now.scalars ++ next.now.scalars) }
        ensures attributes { IfOk result (λ text. text.attributes ≡ self.now.attributes) }
    {
        let alloc = *self.scalars.allocator();
        let mut scalars = Vec::from_slice(alloc, self.scalars())?;
        scalars.extend_from_slice(next.scalars())?;
        let attrs = self.attrs.clone()?;
        Text::new(alloc, scalars, attrs)
    }
}

/// What an element is, but for its items.
#[derive(Debug, Drop)]
pub struct Head {
    id: ElementId,
    name: Name,
    attrs: Rc<Attrs>,
}

impl Model for Head {
    ghost use Rattle.model_tree.specs.Parts.{HeadParts, coded_head};

    ghost Value = { HeadParts };

    ghost coded = { coded_head };

    ghost view = { λ head. record { id = head.id; name = head.name; attributes = head.attrs.value } };
}

impl Head {
    /// The head of these parts.
    pub fn new(id: ElementId, name: Name, attrs: Rc<Attrs>) -> Head
        ensures { result ≡ record { id = id; name = name; attributes = attrs.value } }
    {
        Head { id, name, attrs }
    }

    /// The same head.
    pub fn share(&self) -> Result<Head, NoMemory>
        ensures { IfOk result (λ head. head ≡ self.now) }
    {
        let name = self.name.copy()?;
        let attrs = self.attrs.clone()?;
        Ok(Head {
            id: self.id,
            name,
            attrs,
        })
    }

    /// The same element with a value of a key, or without one.
    pub fn with_key(
        &self,
        alloc: Global,
        key: &Name,
        value: Option<&Value>,
    ) -> Result<Head, NoMemory>
        ensures id { IfOk result (λ head. head.id ≡ self.now.id) }
        ensures name { IfOk result (λ head. head.name ≡ self.now.name) }
        ensures attributes { IfOk result (λ head. head.attributes ≡ with_key key.now (option_copied value.entry) self.now.attributes) }
    {
        let attrs = with_key(alloc, &self.attrs, key, value)?;
        let name = self.name.copy()?;
        Ok(Head {
            id: self.id,
            name,
            attrs,
        })
    }

    /// The same element with this name.
    pub fn renamed(&self, name: Name) -> Result<Head, NoMemory>
        ensures { IfOk result (λ head. head ≡ record self.now { name = name }) }
    {
        let attrs = self.attrs.clone()?;
        Ok(Head {
            id: self.id,
            name,
            attrs,
        })
    }

    /// The element's id.
    pub fn id(&self) -> ElementId
        ensures { result ≡ self.now.id }
    {
        self.id
    }

    /// The element's name.
    pub fn name(&self) -> &Name
        ensures { result.now ≡ self.now.name }
    {
        &self.name
    }

    /// The element's attributes.
    pub fn attrs(&self) -> &Attrs
        ensures { result.now ≡ self.now.attributes }
    {
        &self.attrs
    }
}
