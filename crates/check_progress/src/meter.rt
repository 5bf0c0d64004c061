//! What shows how far a run is.
ghost use Rattle.std.specs.Prelude.{◌≡◌};
ghost use Rattle.check_progress.specs.Lines.{is_due};
ghost use Rattle.check_run.specs.devices.Parts.{AppendsPart};

use crate::line::{CLEARED, progress_line};
use check_run::{Progress, Sink, write_all};
use std::alloc::Global;

/// Shows on a sink how far a run over more than a hundred files is: at each tenth file. A write that fails shows nothing.
#[derive(Drop)]
pub struct Meter<E> {
    alloc: Global,
    sink: E,
    is_shown: bool,
    has_line: bool,
}

// Whether the line is written after so many of all files.
fn is_due(done: usize, all: usize) -> bool
    ensures { result ≡ is_due done all }
{
    100 < all && done % 10 == 0
}

// Writes a line, or a part of it where a write fails.
fn write_line<E: Sink>(sink: &mut E, line: &[u8])
    ensures { AppendsPart (E.held sink.old) (E.held sink.new) line.now }
{
    let _ = write_all(sink, line);
}

impl<E: Sink> Meter<E> {
    /// A meter on a sink, which shows nothing where `is_shown` is false. It has no contract: what shows how far a run is changes nothing that a
    /// run answers or writes.
    pub fn new(alloc: Global, sink: E, is_shown: bool) -> Meter<E> {
        Meter {
            alloc,
            sink,
            is_shown,
            has_line: false,
        }
    }

    /// The sink, for tests. It has no contract, as `new`.
    pub fn sink(&self) -> &E {
        &self.sink
    }
}

impl<E: Sink> Progress for Meter<E> {
    fn show(&mut self, done: usize, all: usize) {
        if !self.is_shown || !is_due(done, all) {
            return;
        }
        if let Ok(line) = progress_line(self.alloc, done, all) {
            write_line(&mut self.sink, line.as_slice());
            self.has_line = true;
        }
    }

    fn end(&mut self) {
        if self.has_line {
            write_line(&mut self.sink, CLEARED);
            self.has_line = false;
        }
    }
}
