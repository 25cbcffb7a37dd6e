//! The nodes of one container of a view, broken, joined, wrapped and unwrapped by the entries of its row: each character of a text is one,
//! and so is each other node that is no attribute element. (After `breakAttributes`, `mergeAttributes`, `wrap` and `unwrap` of the
//! downcast writer of CKEditor 5.)
//!
//! A row that the calls speak of is any that nests to the nodes, without the caret. Each call answers `NoMemory` alone beside Ok, and
//! says nothing of the nodes after it.
#![tactic(auto)]

ghost use Rattle.std.specs.Prelude.{◌≡◌, ◌≤◌, ◌++◌, List, OnOk, IfOk, take, drop};
ghost use Rattle.view_definitions.specs.Row.{Entry, IsPlainRow, nest, join};
ghost use Rattle.view_definitions.specs.Change.{HasBareLeaves, entry_with, entry_without, changed_range};

use ck_base::NoMemory;
use view_tree::kind::Layer;
use view_tree::node::Children;

mod breaks;
mod joins;
mod layers;

/// Keeps what stands before the entry with this index, and answers the rest: text and attribute elements that go on across the place are
/// broken there. Before an index that no entry has stands all.
#[tactic(auto, using(crate::proofs::Ranges::row_front, crate::proofs::Ranges::row_back))]
pub fn break_at(nodes: &mut Children, at: u64) -> Result<Children, NoMemory>
    ensures kept { (row : List Entry) → IsPlainRow row → nodes.old.nodes ≡ nest row → IfOk result (λ _. nodes.new.nodes ≡ nest (take at row)) }
    ensures rest { (row : List Entry) → IsPlainRow row → nodes.old.nodes ≡ nest row → IfOk result (λ back. back.nodes ≡ nest (drop at row)) }
{
    let back = breaks::break_list(nodes, at)?;
    Ok(back)
}

/// Puts these nodes behind the others. Where they meet, two texts become one, and so do attribute elements that are equal in name,
/// attributes, priority and id, on every level; no other node is touched.
#[tactic(auto, using(crate::proofs::Ranges::rows_joined))]
pub fn join_at(left: &mut Children, right: Children) -> Result<(), NoMemory>
    ensures joined { OnOk result (left.new.nodes ≡ join left.old.nodes right.nodes) }
    ensures row { (row other : List Entry) → IsPlainRow row → IsPlainRow other → left.old.nodes ≡ nest row → right.nodes ≡ nest other
        → OnOk result (left.new.nodes ≡ nest (row ++ other)) }
{
    joins::join_lists(left, right)?;
    Ok(())
}

/// Puts a layer around the items from one index on and before another: at its place among the layers of each, where it isn't among them
/// yet. Leaves stay outside of it.
#[tactic(auto, using(crate::proofs::Ranges::range_wrapped))]
pub fn wrap_range(nodes: &mut Children, start: u64, end: u64, layer: &Layer) -> Result<(), NoMemory>
    requires { start ≤ end }
    ensures { (row : List Entry) → IsPlainRow row → HasBareLeaves row → nodes.old.nodes ≡ nest row
        → OnOk result (nodes.new.nodes ≡ nest (changed_range (entry_with layer.now) start end row)) }
{
    let back = breaks::break_list(nodes, end)?;
    let range = breaks::break_list(nodes, start)?;
    let wrapped = layers::wrap_list(range, layer)?;
    joins::join_lists(nodes, wrapped)?;
    joins::join_lists(nodes, back)?;
    Ok(())
}

/// Takes a layer away from the items from one index on and before another.
#[tactic(auto, using(crate::proofs::Ranges::range_unwrapped))]
pub fn unwrap_range(
    nodes: &mut Children,
    start: u64,
    end: u64,
    layer: &Layer,
) -> Result<(), NoMemory>
    requires { start ≤ end }
    ensures { (row : List Entry) → IsPlainRow row → nodes.old.nodes ≡ nest row
        → OnOk result (nodes.new.nodes ≡ nest (changed_range (entry_without layer.now) start end row)) }
{
    let back = breaks::break_list(nodes, end)?;
    let range = breaks::break_list(nodes, start)?;
    let unwrapped = layers::unwrap_list(range, layer)?;
    joins::join_lists(nodes, unwrapped)?;
    joins::join_lists(nodes, back)?;
    Ok(())
}
