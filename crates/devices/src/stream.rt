//! What every source of bytes and every sink of bytes keeps.
ghost use Rattle.std.specs.Prelude.{ℕ, ◌<◌, List, length, IfOk, IsSome, ◌↔◌};
ghost use Rattle.std.specs.declared.option.Option.{Option};
ghost use Rattle.std.specs.Io.{ReadsAtMost, WritesAtMost};
ghost use Rattle.std.specs.Io.KnownBytes.{ReadConsumes, WriteAppends};
ghost use Rattle.devices.specs.Faults.{HasCause};

/// A read or a write that failed. The bytes of the source or the sink are as before.
#[derive(Clone, Copy, Debug, PartialEq, Eq)]
pub struct Failed;

/// A source of bytes. `left` is what is still to be read, where that is known, and `faults` counts failed reads: it
/// never falls, and a read fails only where it rises or is at its last value, 2^64 - 1.
pub trait Source {
    ghost left: { Self → Option (List ℕ) };

    ghost faults: { Self → ℕ };

    /// Reads into the front of `buf` and answers how many bytes were read: none into a `buf` that is not empty is the
    /// end of the input.
    fn read(&mut self, buf: &mut [u8]) -> Result<usize, Failed>
        ensures bound { ReadsAtMost result buf.new }
        ensures bytes { ReadConsumes (left self.old) (left self.new) result buf.new }
        ensures tells { IsSome (left self.new) ↔ IsSome (left self.old) }
        ensures cause { HasCause (faults self.old) (faults self.new) result };
}

/// A sink of bytes. `held` is what was written so far, where that is known, and `faults` counts failed writes: it never
/// falls, and a write fails only where it rises or is at its last value, 2^64 - 1.
pub trait Sink {
    ghost held: { Self → Option (List ℕ) };

    ghost faults: { Self → ℕ };

    /// Writes the front of `piece` and answers how many bytes were written: at least one of a piece that is not empty.
    fn write(&mut self, piece: &[u8]) -> Result<usize, Failed>
        ensures bound { WritesAtMost result piece.now }
        ensures some { IfOk result (λ n. 0 < length piece.now → 0 < n) }
        ensures bytes { WriteAppends (held self.old) (held self.new) result piece.now }
        ensures tells { IsSome (held self.new) ↔ IsSome (held self.old) }
        ensures cause { HasCause (faults self.old) (faults self.new) result };
}
