//! How the rows came out.

/// The numbers of rows and of those that failed, and where a failed one is told.
#[derive(Drop)]
pub struct Report<'a> {
    runtime: &'a HostRuntime,
    rows: u64,
    failed: u64,
}

impl<'a> Report<'a> {
    /// No rows yet.
    pub fn new(runtime: &'a HostRuntime) -> Report<'a> {
        Report {
            runtime,
            rows: 0,
            failed: 0,
        }
    }

    /// Counts a row, and prints its name where it failed.
    pub fn row(&mut self, name: &str, holds: bool) {
        self.rows = self.rows.saturating_add(1);
        if !holds {
            self.failed = self.failed.saturating_add(1);
            let _ = println!(self.runtime; "{name}");
        }
    }

    /// Prints the numbers, and answers whether that could be done and no row failed.
    pub fn is_told(&self) -> bool {
        println!(self.runtime; "rows {}, failed {}", self.rows, self.failed).is_ok()
            && self.failed == 0
    }
}
