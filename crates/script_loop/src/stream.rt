//! Where a script's bytes come from, and where its output goes.
ghost use Rattle.std.specs.Prelude.{List, ℕ, Option, ◌≡◌, ◌-◌, ◌<◌, ◌≤◌, IsOk, IsOkAnd, OnErr, OnOk, length};
ghost use Rattle.std.specs.Io.{ReadsAtMost};
ghost use Rattle.std.specs.Io.KnownBytes.{ReadConsumes, WriteAppends};
ghost use Rattle.board_model.specs.Lines.{HasCause};
ghost use Rattle.script_loop.specs.Streams.{Writes, one_fault_more};

use thiserror::Error;

/// A source or a sink failed.
#[derive(Clone, Copy, Debug, PartialEq, Eq, Error)]
#[error("failed")]
pub struct Failed;

/// Where bytes come from.
///
/// Contracts see the bytes that are `left` to read, where they are known, and a count of `faults` that never falls.
/// A source may be known to be one that `never_fails` from now on, or one that `never_fails_before_end`: no read fails till one has told the end.
pub trait Source {
    ghost left: { Self → Option (List ℕ) };

    ghost faults: { Self → ℕ };

    ghost never_fails: { Self → Type 0 };

    ghost never_fails_before_end: { Self → Type 0 };

    /// Fills a front of `buf` with the next bytes, and gives how many. 0 for a `buf` that isn't empty means the end.
    ///
    /// # Errors
    /// `Failed` where no byte could be had; the bytes that are left stay.
    fn read(&mut self, buf: &mut [u8]) -> Result<usize, Failed>
        ensures bound { ReadsAtMost result buf.new }

        // The next bytes are given, and lost to the source. None comes only where none is left. A failed read takes none.
        ensures bytes { ReadConsumes (left self.old) (left self.new) result buf.new }

        // It fails only where the count of faults rises, by one, and the count rises only there.
        ensures cause { HasCause (faults self.old) (faults self.new) result }
        ensures once { OnErr result (faults self.new ≡ one_fault_more (faults self.old)) }
        ensures told { OnOk result (faults self.new ≡ faults self.old) }

        ensures unfailing { never_fails self.old → IsOk result }
        ensures never_later { never_fails self.old → never_fails self.new }

        // Where no read fails before the end is told, this one doesn't, and the same holds on while a byte came.
        ensures before_end { never_fails_before_end self.old → IsOkAnd result (λ count. 0 < count → never_fails_before_end self.new) };
}

/// Where bytes go.
///
/// Contracts see the bytes that are `held` and how many can be at `most`, where these are known, and a count of `faults` that never falls.
/// A sink may be known to be one that `never_fails_within` so many more bytes.
pub trait Sink {
    ghost held: { Self → Option (List ℕ) };

    ghost most: { Self → Option ℕ };

    ghost faults: { Self → ℕ };

    ghost never_fails_within: { Self → ℕ → Type 0 };

    /// Takes a front of `bytes`, at least one byte where there is one, and gives how many.
    ///
    /// # Errors
    /// `Failed` where no byte could be taken; what is held stays.
    fn write(&mut self, bytes: &[u8]) -> Result<usize, Failed>
        ensures bound { Writes result bytes.now }

        // The sink holds the bytes that it took. A failed write takes none. What can be held at most stays.
        ensures bytes { WriteAppends (held self.old) (held self.new) result bytes.now }
        ensures most { most self.new ≡ most self.old }

        // It fails only where the count of faults rises, by one, and the count rises only there.
        ensures cause { HasCause (faults self.old) (faults self.new) result }
        ensures once { OnErr result (faults self.new ≡ one_fault_more (faults self.old)) }
        ensures told { OnOk result (faults self.new ≡ faults self.old) }

        // Where no write fails within so many bytes, this one doesn't, and none does within those that are left of them.
        ensures unfailing { (n : ℕ) → never_fails_within self.old n → length bytes.now ≤ n
            → IsOkAnd result (λ count. never_fails_within self.new (n - count)) };
}
