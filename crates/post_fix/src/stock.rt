//! The plans of the stock fixers.
ghost use Rattle.std.specs.Prelude.{◌≡◌, ◌++◌, OnOk};
ghost use Rattle.fix_definitions.specs.declared.stock.StockFixer.TheVariants.{DropAttributes as DropsAttributes, SelectionPlace as PlacesSelection};
ghost use Rattle.fix_definitions.specs.Fixes.{fixes};
ghost use Rattle.fix_definitions.specs.Settling.{plan_of};
ghost use Rattle.post_fix.specs.Walked.{IsOfElements};

use crate::asking::{ask_all, ask_backwards};
use crate::dropping::drop_all;
use crate::placing::place;
use ck_base::NoMemory;
use edit_definitions::edit::Edit;
use fix_definitions::stock::StockFixer;
use model_doc::Document;
use schema_rules::schema::Schema;

/// Puts the plan of the fixer of attributes last.
fn drop_attributes(
    document: &Document,
    schema: &Schema,
    out: &mut Vec<Edit>,
) -> Result<(), NoMemory>
    ensures { OnOk result (out.new.items ≡ out.old.items ++ plan_of (fixes schema.now DropsAttributes) document.now.state.document) }
{
    drop_all(schema, document.tree(), out)?;
    Ok(())
}

/// Puts the plan of the fixer of the selection last.
#[tactic(auto, using(crate::proofs::Ends::stands))]
fn place_selection(
    document: &Document,
    schema: &Schema,
    out: &mut Vec<Edit>,
) -> Result<(), NoMemory>
    ensures { OnOk result (out.new.items ≡ out.old.items ++ plan_of (fixes schema.now PlacesSelection) document.now.state.document) }
{
    let tree = document.tree();
    place(schema, tree, document.selection().range(), out)
}

/// Puts the plan of a stock fixer last. It answers `NoMemory` alone beside Ok.
pub(crate) fn plan(
    fixer: &StockFixer,
    document: &Document,
    schema: &Schema,
    out: &mut Vec<Edit>,
) -> Result<(), NoMemory>
    ensures { OnOk result (out.new.items ≡ out.old.items ++ plan_of (fixes schema.now fixer.now) document.now.state.document) }
{
    match fixer {
        StockFixer::DropAttributes => drop_attributes(document, schema, out)?,
        StockFixer::Fill { .. } => ask_all(fixer, document.tree(), out)?,
        StockFixer::JoinNeighbours { .. } => ask_backwards(fixer, document.tree(), out)?,
        StockFixer::RemoveEmpty { .. } => ask_backwards(fixer, document.tree(), out)?,
        StockFixer::Require { .. } => ask_all(fixer, document.tree(), out)?,
        StockFixer::SelectionPlace => place_selection(document, schema, out)?,
    }
    Ok(())
}
