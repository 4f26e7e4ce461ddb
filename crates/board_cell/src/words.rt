//! Words that are read and written one at a time.
ghost use Rattle.std.specs.Prelude.{◌≡◌, ◌<◌, List, ℕ, length, slice_index, slice_set};

/// Words that are read and written one at a time.
pub trait Words {
    ghost list: { Self → List ℕ };

    /// The number of words.
    fn len(&self) -> u64
        ensures { result ≡ length (list self.now) };

    /// The word at this index.
    fn load(&mut self, index: u64) -> u64
        requires { index < length (list self.old) }
        ensures word { result ≡ slice_index (list self.old) index }
        ensures same { list self.new ≡ list self.old };

    /// Sets the word at this index.
    fn store(&mut self, index: u64, value: u64)
        requires { index < length (list self.old) }
        ensures { list self.new ≡ slice_set (list self.old) index value };
}
