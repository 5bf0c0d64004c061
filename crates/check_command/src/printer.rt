//! What writes the answers of a run.
ghost use Rattle.check_command.specs.Command.{printed_by};

use check_print::{Checked, NoMemory, Style, printed};
use check_setup::written;
use file_answer::Printer;
use std::alloc::Global;

/// What writes answers in a style, or the baseline that knows them.
#[derive(Clone, Copy, Debug)]
pub struct RunPrinter {
    /// The style.
    pub style: Style,
    /// Whether the baseline is written.
    pub writes_baseline: bool,
}

impl Printer for RunPrinter {
    ghost printed = { λ printer files. printed_by printer.writes_baseline printer.style files };

    fn print(&self, alloc: Global, files: &[Checked]) -> Result<Vec<u8>, NoMemory> {
        if self.writes_baseline {
            return written(alloc, files);
        }
        printed(alloc, self.style, files)
    }
}
