//! How the cases of the suite came out.
use std::alloc::{AllocError, Global};

/// The lines on cases that differ, and the numbers of cases.
#[derive(Drop)]
pub struct Tally {
    lines: String,
    cases: u64,
    differing: u64,
}

impl Tally {
    /// No cases yet.
    pub fn new(alloc: Global) -> Tally {
        Tally {
            lines: String::new(alloc),
            cases: 0,
            differing: 0,
        }
    }

    /// Counts a case of which this report is wanted, and this given; both are empty for a case that does not differ, as it is wanted of most.
    pub fn count(
        &mut self,
        alloc: Global,
        name: &str,
        wanted: &str,
        report: &str,
    ) -> Result<(), AllocError> {
        self.cases = self.cases.saturating_add(1);
        if wanted != report {
            self.differing = self.differing.saturating_add(1);
            let line = if wanted.is_empty() {
                format!(in alloc; "{name}: {report}\n")?
            } else {
                format!(in alloc; "{name}: wanted the report '{wanted}', got '{report}'\n")?
            };
            self.lines.push_str(line.as_str())?;
        }
        Ok(())
    }

    /// How many cases differ.
    pub fn differing(&self) -> u64 {
        self.differing
    }

    /// A line for each case that differs, and the numbers.
    pub fn report(&self, alloc: Global) -> Result<String, AllocError> {
        format!(in alloc;
            "{}cases {}, differ {}",
            self.lines, self.cases, self.differing
        )
    }
}
