//! The rules by which a view is read into the model.
ghost use Rattle.std.specs.Prelude.{◌≡◌, ◌≤◌, length, OnOk, OnErr, IfOk, [], ◌∷◌, ◌++◌};
ghost use Rattle.upcast_definitions.specs.declared.rule.UpcastRule.TheVariants.{Element, Key, Attribute};
ghost use Rattle.upcast_definitions.specs.Order.{priority_of, place_behind, added};

use ck_base::NoMemory;
use ck_base::attributes::ViewAttrs;
use ck_base::name::Name;
use ck_base::priority::Priority;
use ck_base::value::Value;
use std::alloc::Global;
use std::marker::Model;

/// Where a value comes from.
#[derive(Debug, Drop)]
pub enum Source {
    /// It is this value.
    Value(Value),
    /// It is the text of this attribute of the view element. A text of more than 4,096 bytes of UTF-8 counts as not there.
    From(Name),
}

/// Attributes of the model, each with where its value comes from.
#[derive(Debug, Drop)]
pub struct Sources {
    entries: Vec<(Name, Source)>,
}

impl Model for Sources {
    ghost use Rattle.std.specs.Prelude.{ℕ, List};
    ghost use Rattle.upcast_definitions.specs.declared.rule.Source.{Source};

    ghost Value = { List (List ℕ × Source) };

    ghost view = { λ sources. sources.entries.items };
}

impl Source {
    /// The same source.
    pub fn copy(&self) -> Result<Source, NoMemory>
        ensures { IfOk result (λ source. source ≡ self.now) }
    {
        match self {
            Source::Value(value) => {
                let value = value.copy()?;
                Ok(Source::Value(value))
            }
            Source::From(key) => {
                let key = key.copy()?;
                Ok(Source::From(key))
            }
        }
    }
}

impl Sources {
    /// None.
    pub fn new(alloc: Global) -> Sources
        ensures { result ≡ [] }
    {
        Sources {
            entries: Vec::new(alloc),
        }
    }

    /// One more, behind those that are there. It answers `NoMemory` alone beside Ok.
    pub fn push(&mut self, key: Name, source: Source) -> Result<(), NoMemory>
        ensures { OnOk result (self.new ≡ self.old ++ (key, source) ∷ []) }
    {
        self.entries.push((key, source))?;
        Ok(())
    }

    /// The attributes in their order.
    pub fn as_slice(&self) -> &[(Name, Source)]
        ensures { result.now ≡ self.now }
    {
        &self.entries
    }

    /// The same attributes with the same sources.
    pub fn copy(&self) -> Result<Sources, NoMemory>
        ensures { IfOk result (λ sources. sources ≡ self.now) }
    {
        let entries = copied_entries(&self.entries)?;
        Ok(Sources { entries })
    }
}

/// A copy of each pair.
fn copied_entries(entries: &Vec<(Name, Source)>) -> Result<Vec<(Name, Source)>, NoMemory>
    ensures { IfOk result (λ copies. copies.items ≡ entries.now.items) }
{
    let mut copies = Vec::with_capacity(*entries.allocator(), entries.len())?;
    for (key, source) in entries {
        copies.push((key.copy()?, source.copy()?))?;
    }
    Ok(copies)
}

/// A rule for elements of the view. (After `elementToElement`, `elementToAttribute` and `attributeToAttribute` of CKEditor 5's `UpcastHelpers`.)
#[derive(Debug, Drop)]
pub enum UpcastRule {
    /// An element of this name with these attributes becomes an element of the model with the attributes that are set.
    Element {
        view: Name,
        with: ViewAttrs,
        element: Name,
        set: Sources,
        priority: Priority,
    },
    /// An element of this name with these attributes sets an attribute of the model on what is in it.
    Key {
        view: Name,
        with: ViewAttrs,
        key: Name,
        value: Source,
        priority: Priority,
    },
    /// An attribute of elements, of those of one name where it is there, sets an attribute of the element that these become.
    Attribute {
        attribute: Name,
        view: Option<Name>,
        key: Name,
        priority: Priority,
    },
}

impl UpcastRule {
    /// How early it is tried: the higher, the earlier.
    pub fn priority(&self) -> Priority
        ensures { result ≡ priority_of self.now }
    {
        match self {
            UpcastRule::Element { priority, .. } => *priority,
            UpcastRule::Key { priority, .. } => *priority,
            UpcastRule::Attribute { priority, .. } => *priority,
        }
    }

    /// The same rule.
    pub fn copy(&self) -> Result<UpcastRule, NoMemory>
        ensures { IfOk result (λ rule. rule ≡ self.now) }
    {
        match self {
            UpcastRule::Element {
                view,
                with,
                element,
                set,
                priority,
            } => copied_element(view, with, element, set, *priority),
            UpcastRule::Key {
                view,
                with,
                key,
                value,
                priority,
            } => copied_key(view, with, key, value, *priority),
            UpcastRule::Attribute {
                attribute,
                view,
                key,
                priority,
            } => copied_attribute(attribute, view, key, *priority),
        }
    }
}

/// The same element rule.
fn copied_element(
    view: &Name,
    with: &ViewAttrs,
    element: &Name,
    set: &Sources,
    priority: Priority,
) -> Result<UpcastRule, NoMemory>
    ensures { IfOk result (λ rule. rule ≡ Element view.now with.now element.now set.now priority) }
{
    let view = view.copy()?;
    let with = with.copy()?;
    let element = element.copy()?;
    let set = set.copy()?;
    Ok(UpcastRule::Element {
        view,
        with,
        element,
        set,
        priority,
    })
}

/// The same key rule.
fn copied_key(
    view: &Name,
    with: &ViewAttrs,
    key: &Name,
    value: &Source,
    priority: Priority,
) -> Result<UpcastRule, NoMemory>
    ensures { IfOk result (λ rule. rule ≡ Key view.now with.now key.now value.now priority) }
{
    let view = view.copy()?;
    let with = with.copy()?;
    let key = key.copy()?;
    let value = value.copy()?;
    Ok(UpcastRule::Key {
        view,
        with,
        key,
        value,
        priority,
    })
}

/// The same name, if there is one.
fn copied_name(name: &Option<Name>) -> Result<Option<Name>, NoMemory>
    ensures { IfOk result (λ copy. copy ≡ name.now) }
{
    match name {
        Some(name) => {
            let name = name.copy()?;
            Ok(Some(name))
        }
        None => Ok(None),
    }
}

/// The same attribute rule.
fn copied_attribute(
    attribute: &Name,
    view: &Option<Name>,
    key: &Name,
    priority: Priority,
) -> Result<UpcastRule, NoMemory>
    ensures { IfOk result (λ rule. rule ≡ Attribute attribute.now view.now key.now priority) }
{
    let attribute = attribute.copy()?;
    let view = copied_name(view)?;
    let key = key.copy()?;
    Ok(UpcastRule::Attribute {
        attribute,
        view,
        key,
        priority,
    })
}

/// Rules in the order in which they are tried: by priority, the higher first, and those of one priority in the order in which they were added.
#[derive(Debug, Drop)]
pub struct UpcastRules {
    rules: Vec<UpcastRule>,
}

impl Model for UpcastRules {
    ghost use Rattle.std.specs.Prelude.{List};
    ghost use Rattle.upcast_definitions.specs.declared.rule.UpcastRule.{UpcastRule};

    ghost Value = { List UpcastRule };

    ghost view = { λ rules. rules.rules.items };
}

impl UpcastRules {
    /// No rules. It takes no memory.
    pub fn new(alloc: Global) -> UpcastRules
        ensures { result ≡ [] }
    {
        UpcastRules {
            rules: Vec::new(alloc),
        }
    }

    /// One more, behind all of equal or higher priority. It answers `NoMemory` alone beside Ok, and then nothing has changed.
    #[tactic(auto, using(crate::proofs::Adding::added_there))]
    pub fn add(&mut self, rule: UpcastRule) -> Result<(), NoMemory>
        ensures ok { OnOk result (self.new ≡ added rule self.old) }
        ensures err { OnErr result (self.new ≡ self.old) }
    {
        let place = place_behind(self.rules.as_slice(), rule.priority());
        self.rules.insert(place, rule)?;
        Ok(())
    }

    /// The rules in the order in which they are tried.
    pub fn as_slice(&self) -> &[UpcastRule]
        ensures { result.now ≡ self.now }
    {
        &self.rules
    }

    /// The same rules.
    pub fn copy(&self) -> Result<UpcastRules, NoMemory>
        ensures { IfOk result (λ rules. rules ≡ self.now) }
    {
        let rules = copied_rules(&self.rules)?;
        Ok(UpcastRules { rules })
    }
}

/// A copy of each rule.
fn copied_rules(rules: &Vec<UpcastRule>) -> Result<Vec<UpcastRule>, NoMemory>
    ensures { IfOk result (λ copies. copies.items ≡ rules.now.items) }
{
    let mut copies = Vec::with_capacity(*rules.allocator(), rules.len())?;
    for rule in rules {
        copies.push(rule.copy()?)?;
    }
    Ok(copies)
}

/// The place behind all rules of equal or higher priority, from the front on.
fn place_behind(rules: &[UpcastRule], priority: Priority) -> usize
    ensures place { result ≡ place_behind priority rules.now }
    ensures inside { result ≤ length rules.now }
{
    for (place, other) in rules.iter().enumerate() {
        if other.priority() < priority {
            return place;
        }
    }
    rules.len()
}
