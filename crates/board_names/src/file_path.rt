//! The full name of a file.
ghost use Rattle.std.specs.Prelude.{◌≡◌, ℕ, ◌+◌, ◌<◌, ◌≤◌, List, length};

use board_layout::Text;
use std::marker::Model;

/// A full name of at most 1021 bytes: that of a file, as `path_for` spells it, or the text by which a script names an
/// event.
///
/// Clauses see it as the list of its bytes.
#[derive(Clone, Copy, Debug, PartialEq, Eq, PartialOrd, Ord)]
pub struct FilePath {
    text: Text<1021>,
}

impl Model for FilePath {
    ghost use Rattle.std.specs.Prelude.{ℕ, List};

    ghost Value = { List ℕ };

    ghost view = { λ s. s.text };

    ghost inverse = { λ d. record { text = d } };
}

impl FilePath {
    /// The full name with this text.
    pub fn from_text(text: Text<1021>) -> FilePath
        ensures { result ≡ text }
    {
        FilePath { text }
    }

    /// Its bytes.
    pub fn as_bytes(&self) -> &[u8]
        ensures value { result.now ≡ self.now }
        ensures fits { length result.now ≤ 1021 }
    {
        self.text.as_bytes()
    }
}
