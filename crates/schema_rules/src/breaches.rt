//! The first breach of a document.
ghost use Rattle.std.specs.Prelude.{◌≡◌, IfOk};
ghost use Rattle.breach_definitions.specs.Breach.{breach};
ghost use Rattle.breach_definitions.specs.Spots.{breach_at};
ghost use Rattle.schema_rules.specs.Chosen.{root, breach_from};

use crate::above::Above;
use crate::chosen::Chosen;
use crate::schema::Schema;
use crate::walk::Walk;
use breach_definitions::spot::Spot;
use ck_base::NoMemory;
use ck_base::faults::Rule;
use ck_base::path::Path;
use model_tree::tree::Tree;

impl Schema {
    /// The rule that a document breaks first, and the path of the item that breaks it: None exactly where the document obeys the schema. Items
    /// come in document order; of each the rule comes first that it may stand where it stands, and then its keys in order. Each character is an
    /// item `$text`, so a text is named by the path of its first character. It answers `NoMemory` alone beside Ok. Its time is in proportion to
    /// the nodes of the tree.
    #[tactic(auto, using(crate::proofs::Placing::all_is))]
    pub fn first_breach(&self, tree: &Tree) -> Result<Option<(Rule, Path)>, NoMemory>
        ensures { IfOk result (λ found. found ≡ breach self.now tree.now) }
    {
        self.first_chosen(tree, &Chosen::All)
    }

    /// The same among the items that spots list, each item with the ancestors that it has in the tree. Which other items break a rule doesn't
    /// matter. Only elements in which spots list something are gone into, and there each node is compared with the spots that do.
    pub fn breach_at(&self, tree: &Tree, spots: &[Spot]) -> Result<Option<(Rule, Path)>, NoMemory>
        ensures { IfOk result (λ found. found ≡ breach_at self.now tree.now spots.now) }
    {
        let chosen = Chosen::listed(tree.items().allocator(), spots)?;
        self.first_chosen(tree, &chosen)
    }

    /// The first breach among the items that are tested.
    fn first_chosen(
        &self,
        tree: &Tree,
        chosen: &Chosen<'_>,
    ) -> Result<Option<(Rule, Path)>, NoMemory>
        ensures { IfOk result (λ found. found ≡ breach_from self.now chosen.now root 0 tree.now) }
    {
        let items = tree.items();
        let alloc = items.allocator();
        let walk = Walk::new(alloc, self)?;
        let mut above = Above::root(alloc)?;
        walk.breach_below(chosen, &mut above, true, items)
    }
}
