//! A baseline as what leaves reports out.
ghost use Rattle.baseline_file.specs.Leaving.{Leaves};

use check_baseline::{Baseline, without_known};
use check_run::{Checked, Filter, NoMemory};
use std::alloc::Global;

/// What leaves the reports out that a baseline knows, or none where there is no baseline.
#[derive(Drop)]
pub struct BaselineFilter {
    /// The baseline.
    pub baseline: Option<Baseline>,
}

impl Filter for BaselineFilter {
    ghost leaves = { λ filter files left. Leaves filter.baseline files left };

    fn apply(&self, alloc: Global, files: Vec<Checked>) -> Result<Vec<Checked>, NoMemory> {
        match &self.baseline {
            Some(baseline) => without_known(alloc, baseline, files),
            None => Ok(files),
        }
    }
}
