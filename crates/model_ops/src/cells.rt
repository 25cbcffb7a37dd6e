//! The cells in which items that were taken out are kept.
ghost use Rattle.std.specs.Prelude.{◌≡◌, ◌<◌, ◌≤◌, [], ◌∷◌, length, set, IfOk, OnOk, OnErr, slice_get, option_copied};
ghost use Rattle.operation_definitions.specs.After.{in_cell_at, is_free, fill, holds_count};

use ck_base::NoMemory;
use model_tree::items::Items;
use std::alloc::Global;
use std::marker::Model;

/// A list of cells, each empty or holding a list of items. It is seen as the lists that they hold.
#[derive(Debug, Drop)]
pub struct Cells {
    cells: Vec<Items>,
}

impl Model for Cells {
    ghost use Rattle.std.specs.Prelude.{List};
    ghost use Rattle.std.specs.Coded.{coded_list};
    ghost use Rattle.item_definitions.specs.Item.{Item};
    ghost use Rattle.item_definitions.specs.ItemCode.{coded_items};

    ghost Value = { List (List Item) };

    ghost coded = { coded_list coded_items };

    ghost view = { λ cells. cells.cells.items };
}

impl Cells {
    /// No cells. It takes no memory.
    pub fn new(alloc: Global) -> Cells
        ensures { result ≡ [] }
    {
        Cells {
            cells: Vec::new(alloc),
        }
    }

    /// How many cells there are, which is the number of the next new one.
    pub fn len(&self) -> u64
        ensures { result ≡ length self.now }
    {
        self.cells.len() as u64
    }

    /// What is in a cell: None exactly where there is no such cell. It takes no memory.
    pub fn get(&self, number: u64) -> Option<&Items>
        ensures { option_copied result ≡ slice_get self.now number }
    {
        self.cells.get(number as usize)
    }

    /// Whether a cell is empty, or is the next new one. It takes no memory.
    #[tactic(auto, using(crate::proofs::InCells::free_there, crate::proofs::InCells::free_none))]
    pub fn is_free(&self, number: u64) -> bool
        ensures { result ≡ is_free self.now number }
    {
        match self.get(number) {
            Some(items) => items.len() == 0,
            None => number == self.len(),
        }
    }

    /// Whether a cell is there and holds so many items. It takes no memory.
    #[tactic(auto, using(crate::proofs::InCells::holds_there, crate::proofs::InCells::holds_none))]
    pub fn holds_count(&self, number: u64, count: u32) -> bool
        ensures { result ≡ holds_count self.now number count }
    {
        match self.get(number) {
            Some(items) => items.len() == count as u64,
            None => false,
        }
    }

    /// Fills a cell, which may be the next new one. It answers `NoMemory` alone beside Ok, and then nothing has changed.
    #[tactic(auto, using(crate::proofs::InCells::fill_there, crate::proofs::InCells::fill_next))]
    pub(crate) fn fill(&mut self, number: u64, items: Items) -> Result<(), NoMemory>
        requires { number ≤ length self.old }
        ensures ok { OnOk result (self.new ≡ fill self.old number items) }
        ensures err { OnErr result (self.new ≡ self.old) }
    {
        let index = number as usize;
        if index < self.cells.len() {
            self.cells[index] = items;
        } else {
            self.cells.push(items)?;
        }
        Ok(())
    }

    /// Empties a cell, if it is there. It answers `NoMemory` alone beside Ok, and then nothing has changed.
    #[tactic(auto, using(crate::proofs::InCells::set_none))]
    pub fn empty(&mut self, number: u64) -> Result<(), NoMemory>
        ensures ok { OnOk result (self.new ≡ set self.old number []) }
        ensures err { OnErr result (self.new ≡ self.old) }
    {
        let index = number as usize;
        if index < self.cells.len() {
            let none = Items::new(*self.cells.allocator())?;
            self.cells[index] = none;
        }
        Ok(())
    }

    /// The same cells. It answers `NoMemory` alone beside Ok.
    pub fn copy(&self) -> Result<Cells, NoMemory>
        ensures { IfOk result (λ cells. cells ≡ self.now) }
    {
        let cells = copied(&self.cells)?;
        Ok(Cells { cells })
    }
}

/// A copy of each list.
fn copied(cells: &Vec<Items>) -> Result<Vec<Items>, NoMemory>
    ensures { IfOk result (λ copies. copies.items ≡ cells.now.items) }
{
    let mut copies = Vec::with_capacity(*cells.allocator(), cells.len())?;
    for items in cells {
        copies.push(items.copy()?)?;
    }
    Ok(copies)
}
