//! What the fixer of attributes wants, node by node.
ghost use Rattle.std.specs.Prelude.{◌≡◌, ◌<◌, ◌+◌, ◌++◌, ◌∷◌, [], ◌^◌, length, OnOk, None, codes};
ghost use Rattle.std.specs.List.{flat_map};
ghost use Rattle.edit_definitions.specs.declared.edit.Target.TheVariants.{Element as OfElement};
ghost use Rattle.fix_definitions.specs.Places.{places};
ghost use Rattle.fix_definitions.specs.Wanted.{wanted};
ghost use Rattle.fix_definitions.specs.declared.stock.StockFixer.TheVariants.{DropAttributes};
ghost use Rattle.item_definitions.specs.Item.{items_of};
ghost use Rattle.model_tree.specs.Nodes.{items_at};
ghost use Rattle.post_fix.specs.Dropped.{keys_dropped, dropped_from, run_target, node_dropped};
ghost use Rattle.post_fix.specs.Walked.{AreBelow};

use crate::asking::position_in;
use crate::names::{enter, leave, root_names};
use crate::walk::Walk;
use ck_base::NoMemory;
use ck_base::attributes::Attrs;
use ck_base::name::Name;
use ck_base::path::Path;
use edit_definitions::edit::{Edit, Target};
use model_tree::items::{Items, Node};
use model_tree::text::{Head, Text};
use model_tree::tree::Tree;
use schema_rules::schema::Schema;

/// The same target.
fn same_target(target: &Target) -> Target
    ensures { result ≡ target.now }
{
    match target {
        Target::Range { start, end } => Target::Range {
            start: start.copy(),
            end: end.copy(),
        },
        Target::Element(path) => Target::Element(path.copy()),
    }
}

impl Walk<'_> {
    /// Puts last that items of this name behind these ancestors lose each key that they are denied, in the order of the keys.
    fn drop_keys(
        &self,
        names: &[Name],
        name: &Name,
        attrs: &Attrs,
        target: &Target,
        out: &mut Vec<Edit>,
    ) -> Result<(), NoMemory>
        ensures { OnOk result (out.new.items ≡ out.old.items ++ keys_dropped self.now.schema.now names.now name.now attrs.now target.now) }
    {
        for entry in attrs.entries() {
            if !self.schema.check_attribute(names, name, &entry.0) {
                let key = entry.0.copy()?;
                let target = same_target(target);
                out.push(Edit::RemoveAttribute { target, key })?;
            }
        }
        Ok(())
    }

    /// Puts last what is dropped of a text, which begins at an offset of the element at a path.
    fn drop_from_text(
        &self,
        names: &[Name],
        path: &Path,
        offset: u32,
        text: &Text,
        out: &mut Vec<Edit>,
    ) -> Result<(), NoMemory>
        requires short { length path.now < 65 }
        requires few { offset + length text.now.scalars < 2 ^ 32 }
        ensures { OnOk result (out.new.items
            ≡ out.old.items ++ keys_dropped self.now.schema.now names.now (codes "$text") text.now.attributes (run_target path.now offset text.now)) }
    {
        let alloc = *out.allocator();
        let start = position_in(alloc, path, offset);
        let end = position_in(alloc, path, offset + text.len() as u32);
        let target = Target::Range { start, end };
        self.drop_keys(names, &self.text, text.attrs(), &target, out)
    }

    /// Puts last what is dropped of the element at a path, but for what is in it.
    fn drop_from_head(
        &self,
        names: &[Name],
        here: &Path,
        head: &Head,
        out: &mut Vec<Edit>,
    ) -> Result<(), NoMemory>
        ensures { OnOk result (out.new.items
            ≡ out.old.items ++ keys_dropped self.now.schema.now names.now head.now.name head.now.attributes (OfElement here.now)) }
    {
        let target = Target::Element(here.copy());
        self.drop_keys(names, head.name(), head.attrs(), &target, out)
    }

    /// Puts last what is dropped of the items of the element at a path, and of all that is in them.
    #[cycle(dropping)]
    fn drop_inside(
        &self,
        names: &mut Vec<Name>,
        path: &Path,
        items: &Items,
        out: &mut Vec<Edit>,
    ) -> Result<(), NoMemory>
        requires { AreBelow path.now 0 items.now }
        ensures dropped { OnOk result (out.new.items
            ≡ out.old.items ++ dropped_from self.now.schema.now names.old.items path.now 0 None (items_of items.now)) }
        ensures back { OnOk result (names.new.items ≡ names.old.items) }
    {
        let mut offset: u32 = 0;
        for node in items.nodes() {
            self.drop_node(names, path, offset, node, out)?;
            offset += node.len() as u32;
        }
        Ok(())
    }

    /// Puts last what is dropped of a node, which begins at an offset of the element at a path, and of all that is in it.
    #[cycle(dropping)]
    fn drop_node(
        &self,
        names: &mut Vec<Name>,
        path: &Path,
        offset: u32,
        node: &Node,
        out: &mut Vec<Edit>,
    ) -> Result<(), NoMemory>
        requires { AreBelow path.now offset (items_at node.now) }
        ensures dropped { OnOk result (out.new.items
            ≡ out.old.items ++ node_dropped self.now.schema.now names.old.items path.now offset node.now) }
        ensures back { OnOk result (names.new.items ≡ names.old.items) }
    {
        match node {
            Node::Run(text) => self.drop_from_text(names.as_slice(), path, offset, text, out),
            Node::Element(head, children) => {
                let mut here = path.copy();
                here.push(offset);
                self.drop_from_head(names.as_slice(), &here, head, out)?;
                enter(names, head.name())?;
                self.drop_inside(names, &here, children, out)?;
                leave(names);
                Ok(())
            }
        }
    }

    /// Puts last what is dropped of the items of the root, and of all that is in them.
    fn drop_items(&self, items: &Items, out: &mut Vec<Edit>) -> Result<(), NoMemory>
        requires { AreBelow [] 0 items.now }
        ensures { OnOk result (out.new.items ≡ out.old.items ++ dropped_from self.now.schema.now (codes "$root" ∷ []) [] 0 None (items_of items.now)) }
    {
        let alloc = *out.allocator();
        let mut names = root_names(alloc)?;
        let root = Path::new(alloc);
        self.drop_inside(&mut names, &root, items, out)
    }
}

/// Puts last that the items of a tree lose the attributes that the schema denies them.
#[tactic(auto, using(crate::proofs::Asked::all_below))]
pub(crate) fn drop_all(schema: &Schema, tree: &Tree, out: &mut Vec<Edit>) -> Result<(), NoMemory>
    ensures { OnOk result (out.new.items ≡ out.old.items ++ flat_map (wanted schema.now DropAttributes) (places tree.now)) }
{
    let walk = Walk::new(*out.allocator(), schema)?;
    walk.drop_items(tree.items(), out)?;
    Ok(())
}
