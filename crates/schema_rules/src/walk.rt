//! The first breach among the items of a document that are tested. Each node is looked at once, and a text is tested once for all its
//! characters.
ghost use Rattle.std.specs.Prelude.{◌≡◌, ◌<◌, ◌≤◌, ◌+◌, ◌^◌, [], ◌∷◌, ◌++◌, Some, None, if◌then◌else◌, option_map, option_copied, length, codes, not, map};
ghost use Rattle.std.specs.Prelude.{IfOk, OnOk};
ghost use Rattle.std.specs.List.{find};
ghost use Rattle.item_definitions.specs.Item.{count_of, depth_of, element, items_of};
ghost use Rattle.model_tree.specs.Nodes.{items_at, items_in, characters};
ghost use Rattle.schema_definitions.specs.Allowed.{check_child, check_attribute};
ghost use Rattle.breach_definitions.specs.Breach.{last_name};
ghost use Rattle.schema_rules.specs.Chosen.{Standing, AreThere, is_chosen, inside, last_passes, broken, breach_from};

use crate::above::Above;
use crate::chosen::Chosen;
use crate::predefined::name_of;
use crate::schema::Schema;
use ck_base::NoMemory;
use ck_base::attributes::Attrs;
use ck_base::faults::Rule;
use ck_base::name::Name;
use ck_base::path::Path;
use ck_base::value::Value;
use model_tree::items::{Items, Node};
use model_tree::text::{Head, Text};
use std::alloc::Global;

/// The first entry whose key an item behind these ancestors may not have.
fn denied_entry<'a>(
    schema: &Schema,
    ancestors: &[Name],
    item: &Name,
    entries: &'a [(Name, Value)],
) -> Option<&'a (Name, Value)>
    ensures { option_copied result ≡ find (λ entry. not (check_attribute schema.now ancestors.now item.now entry.0)) entries.now }
{
    entries
        .iter()
        .find(|entry| !schema.check_attribute(ancestors, item, &entry.0))
}

/// The first key, in order, that an item behind these ancestors may not have.
#[tactic(auto, using(crate::proofs::Placing::find_made))]
fn denied_key<'a>(
    schema: &Schema,
    ancestors: &[Name],
    item: &Name,
    attrs: &'a Attrs,
) -> Option<&'a Name>
    ensures { option_copied result ≡ find (λ key. not (check_attribute schema.now ancestors.now item.now key)) (map (λ entry. entry.0) attrs.now) }
{
    match denied_entry(schema, ancestors, item, attrs.entries()) {
        Some((key, _)) => Some(key),
        None => None,
    }
}

/// The rule that an item behind these ancestors breaks first, where it is known whether it may stand there.
#[tactic(auto, unfolding(breach_definitions::specs::Breach::broken_rule))]
fn broken_rule(
    schema: &Schema,
    ancestors: &[Name],
    allowed: bool,
    item: &Name,
    attrs: &Attrs,
) -> Result<Option<Rule>, NoMemory>
    requires named { 0 < length ancestors.now }
    requires allowed { allowed ≡ check_child schema.now ancestors.now item.now }
    ensures { IfOk result (λ rule. rule ≡ broken schema.now ancestors.now item.now attrs.now) }
{
    if !allowed {
        return refused_child(ancestors, item);
    }
    match denied_key(schema, ancestors, item, attrs) {
        Some(key) => refused_key(key, item),
        None => Ok(None),
    }
}

/// The rule that an item may not stand in the last of some names.
#[tactic(auto, using(crate::proofs::Placing::last_is))]
fn refused_child(ancestors: &[Name], item: &Name) -> Result<Option<Rule>, NoMemory>
    requires { 0 < length ancestors.now }
    ensures { IfOk result (λ rule. rule ≡ Some (Rule.Child item.now (last_name ancestors.now))) }
{
    match ancestors.split_last() {
        Some((parent, _)) => {
            let item = item.copy()?;
            let parent = parent.copy()?;
            Ok(Some(Rule::Child { item, parent }))
        }
        None => unreachable!(),
    }
}

/// The rule that an item may not have an attribute.
fn refused_key(key: &Name, item: &Name) -> Result<Option<Rule>, NoMemory>
    ensures { IfOk result (λ rule. rule ≡ Some (Rule.Attribute key.now item.now)) }
{
    let key = key.copy()?;
    let item = item.copy()?;
    Ok(Some(Rule::Attribute { key, item }))
}

/// An element and its items.
#[derive(Clone, Copy, Debug)]
struct Element<'a> {
    head: &'a Head,
    children: &'a Items,
}

/// A walk over the items of a document.
#[derive(Debug, Drop)]
pub struct Walk<'a> {
    schema: &'a Schema,
    text: Name,
    ghost is_text: { text ≡ codes "$text" },
}

impl<'a> Walk<'a> {
    /// A walk under this schema.
    #[tactic(auto, unfolding(ck_base::specs::Name::is_name))]
    pub fn new(alloc: Global, schema: &'a Schema) -> Result<Walk<'a>, NoMemory>
        ensures { IfOk result (λ walk. walk.schema.now ≡ schema.now) }
    {
        let text = name_of(alloc, "$text")?;
        Ok(Walk { schema, text })
    }

    /// What an item breaks, with its path, where it is known whether it may stand there.
    fn breach_here(
        &self,
        above: &Above,
        index: u32,
        allowed: bool,
        name: &Name,
        attrs: &Attrs,
    ) -> Result<Option<(Rule, Path)>, NoMemory>
        requires named { 0 < length above.now.names }
        requires short { length above.now.path < 65 }
        requires allowed { allowed ≡ check_child self.now.schema.now above.now.names name.now }
        ensures { IfOk result (λ found. found
            ≡ option_map (λ rule. (rule, above.now.path ++ index ∷ [])) (broken self.now.schema.now above.now.names name.now attrs.now)) }
    {
        match broken_rule(self.schema, above.names(), allowed, name, attrs)? {
            Some(rule) => Ok(Some((rule, above.path_to(index)))),
            None => Ok(None),
        }
    }

    /// The first breach among the characters of a text that are tested.
    fn breach_of_text(
        &self,
        chosen: &Chosen<'_>,
        above: &Above,
        passing: bool,
        index: u32,
        text: &Text,
    ) -> Result<Option<(Rule, Path)>, NoMemory>
        requires passing { passing ≡ last_passes self.now.schema.now above.now.names }
        requires there { AreThere above.now index (characters text.now) }
        ensures { IfOk result (λ found. found ≡ breach_from self.now.schema.now chosen.now above.now index (characters text.now)) }
    {
        let end = index + text.len() as u32;
        let first = chosen.first(index, end);
        if first == end {
            return Ok(None);
        }
        let allowed = self.schema.may_stand(above.names(), passing, &self.text);
        self.breach_here(above, first, allowed, &self.text, text.attrs())
    }

    /// What an element breaks, if it is tested.
    fn breach_of_head(
        &self,
        tested: bool,
        above: &Above,
        index: u32,
        allowed: bool,
        head: &Head,
    ) -> Result<Option<(Rule, Path)>, NoMemory>
        requires named { 0 < length above.now.names }
        requires short { length above.now.path < 65 }
        requires allowed { allowed ≡ check_child self.now.schema.now above.now.names head.now.name }
        ensures { IfOk result (λ found. found
            ≡ (if tested then option_map (λ rule. (rule, above.now.path ++ index ∷ []))
            (broken self.now.schema.now above.now.names head.now.name head.now.attributes) else None)) }
    {
        if tested {
            self.breach_here(above, index, allowed, head.name(), head.attrs())
        } else {
            Ok(None)
        }
    }

    /// The first breach among an element and all that is in it.
    #[cycle(breaches)]
    fn breach_of_element(
        &self,
        chosen: &Chosen<'_>,
        above: &mut Above,
        passing: bool,
        index: u32,
        parts: Element<'_>,
    ) -> Result<Option<(Rule, Path)>, NoMemory>
        requires passing { passing ≡ last_passes self.now.schema.now above.old.names }
        requires there { AreThere above.old index (element parts.head.now.id parts.head.now.name parts.head.now.attributes (items_of parts.children.now) ∷ []) }
        ensures found { IfOk result (λ found. found
            ≡ breach_from self.now.schema.now chosen.now above.old index
            (element parts.entry.head.now.id parts.entry.head.now.name parts.entry.head.now.attributes (items_of parts.entry.children.now) ∷ [])) }
        ensures back { OnOk result (above.new ≡ above.old) }
    {
        let tested = chosen.has(index);
        let below = chosen.inside(index)?;
        if !tested && below.is_none() {
            return Ok(None);
        }
        let head = parts.head;
        let allowed = self.schema.may_stand(above.names(), passing, head.name());
        match self.breach_of_head(tested, above, index, allowed, head)? {
            Some(breach) => Ok(Some(breach)),
            None => self.breach_inside(below, above, allowed, index, parts),
        }
    }

    /// The first breach among the items of an element and all that is in them.
    #[cycle(breaches)]
    fn breach_inside(
        &self,
        chosen: Chosen<'_>,
        above: &mut Above,
        passing: bool,
        index: u32,
        parts: Element<'_>,
    ) -> Result<Option<(Rule, Path)>, NoMemory>
        requires passing { passing ≡ last_passes self.now.schema.now (inside above.old parts.head.now.name index).names }
        requires there { AreThere (inside above.old parts.head.now.name index) 0 parts.children.now }
        ensures found { IfOk result (λ found. found ≡ breach_from self.now.schema.now chosen.entry (inside above.old parts.entry.head.now.name index) 0
            parts.entry.children.now) }
        ensures back { OnOk result (above.new ≡ above.old) }
    {
        if chosen.is_none() {
            return Ok(None);
        }
        above.enter(parts.head.name(), index)?;
        let found = self.breach_below(&chosen, above, passing, parts.children)?;
        above.leave();
        Ok(found)
    }

    /// The first breach among the items of the last ancestor and all that is in them.
    #[cycle(breaches)]
    pub fn breach_below(
        &self,
        chosen: &Chosen<'_>,
        above: &mut Above,
        passing: bool,
        items: &Items,
    ) -> Result<Option<(Rule, Path)>, NoMemory>
        requires passing { passing ≡ last_passes self.now.schema.now above.old.names }
        requires there { AreThere above.old 0 items.now }
        ensures found { IfOk result (λ found. found ≡ breach_from self.now.schema.now chosen.now above.old 0 items.now) }
        ensures back { OnOk result (above.new ≡ above.old) }
    {
        let mut index: u32 = 0;
        for node in items.nodes() {
            match self.breach_of_node(chosen, above, passing, index, node)? {
                Some(breach) => return Ok(Some(breach)),
                None => index += node.len() as u32,
            }
        }
        Ok(None)
    }

    /// The first breach among the items of a node and all that is in them.
    #[cycle(breaches)]
    fn breach_of_node(
        &self,
        chosen: &Chosen<'_>,
        above: &mut Above,
        passing: bool,
        index: u32,
        node: &Node,
    ) -> Result<Option<(Rule, Path)>, NoMemory>
        requires passing { passing ≡ last_passes self.now.schema.now above.old.names }
        requires there { AreThere above.old index (items_at node.now) }
        ensures found { IfOk result (λ found. found ≡ breach_from self.now.schema.now chosen.now above.old index (items_at node.now)) }
        ensures back { OnOk result (above.new ≡ above.old) }
    {
        match node {
            Node::Run(text) => self.breach_of_text(chosen, above, passing, index, text),
            Node::Element(head, children) => {
                let parts = Element { head, children };
                self.breach_of_element(chosen, above, passing, index, parts)
            }
        }
    }
}
