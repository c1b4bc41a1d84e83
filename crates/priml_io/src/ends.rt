ghost use Rattle.std.specs.Prelude.{ℕ, ◌<◌, List, length, IfOk};
ghost use Rattle.std.specs.declared.option.Option.{Option};
ghost use Rattle.std.specs.Io.{ReadsAtMost, WritesAtMost};
ghost use Rattle.std.specs.Io.KnownBytes.{ReadConsumes};
ghost use Rattle.priml_io.specs.Ends.{HasCause, PutGrows};

/// A source could not give bytes, or a sink could not take them. Its count of faults says so.
#[derive(Clone, Copy, Debug, PartialEq, Eq)]
pub struct Failed;

/// Where bytes come from.
pub trait Source {
    /// The bytes still to come, where the source tells them. One that tells them before a call tells them after it.
    ghost left: { Self → Option (List ℕ) };

    /// How many faults there were. The count never falls.
    ghost faults: { Self → ℕ };

    /// Moves bytes to the prefix of `buf` and returns how many. 0 for a buffer that is not empty is the end.
    ///
    /// `Failed` comes only where the count of faults rose in this call, that is where it is greater than before or
    /// stands at the last value of u64. Then no byte was taken.
    fn take(&mut self, buf: &mut [u8]) -> Result<usize, Failed>
        ensures bound { ReadsAtMost result buf.new }
        ensures bytes { ReadConsumes (left self.old) (left self.new) result buf.new }
        ensures cause { HasCause (faults self.old) (faults self.new) result };
}

/// Where bytes go.
pub trait Sink {
    /// The bytes that the sink took, where it tells them. One that tells them after a call told them before it.
    ghost written: { Self → Option (List ℕ) };

    /// How many faults there were. The count never falls.
    ghost faults: { Self → ℕ };

    /// Takes bytes from the prefix of `piece` and returns how many: at least one, if there is one.
    ///
    /// `Failed` comes only where the count of faults rose in this call, that is where it is greater than before or
    /// stands at the last value of u64. Then no byte was taken.
    fn put(&mut self, piece: &[u8]) -> Result<usize, Failed>
        ensures bound { WritesAtMost result piece.now }
        ensures some { IfOk result (λ n. 0 < length piece.now → 0 < n) }
        ensures bytes { PutGrows (written self.old) (written self.new) result piece.now }
        ensures cause { HasCause (faults self.old) (faults self.new) result };
}
