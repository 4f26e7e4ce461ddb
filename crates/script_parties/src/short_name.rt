//! A name of a script's line in 17 bytes, as a table of many keeps it.
ghost use Rattle.std.specs.Prelude.{◌≡◌};
ghost use Rattle.std.specs.Str.{bytes_eq};

use board_model::Name;
use std::marker::Model;

/// A `Name`, with zeros behind it, and its length in a byte: seven bytes less.
#[derive(Clone, Copy)]
pub(crate) struct ShortName {
    bytes: [u8; 16],
    len: u8,
}

impl Model for ShortName {
    ghost use Rattle.std.specs.Prelude.{◌≡◌, ℕ, ◌-◌, ◌≤◌, ◌++◌, List, length, take, drop, replicate};
    ghost use Rattle.board_layout.specs.Text.{IsPadded, padded-take, length-padded-take};
    ghost use Rattle.board_layout.specs.Bytes.{padded};

    ghost Value = { List ℕ };

    ghost view = { λ s. take s.len s.bytes };

    ghost invariant = { λ s. IsPadded 16 s.len s.bytes };

    ghost inverse = { λ d. record { bytes = padded 16 d; len = length d } };

    ghost inverse_ok = { λ s h i. record {
      bytes = padded-take 16 s.len s.bytes h i;
      len = length-padded-take 16 s.len s.bytes h i;
    } };
}

impl ShortName {
    /// This name.
    pub(crate) fn of(name: &Name) -> ShortName
        ensures { result ≡ name.now }
    {
        let text = name.as_bytes();
        let mut bytes = [0; 16];
        let len = text.len();
        bytes[..len].copy_from_slice(text);
        ShortName {
            bytes,
            len: len as u8,
        }
    }

    /// Whether it is this name.
    pub(crate) fn is(&self, name: &Name) -> bool
        ensures { result ≡ bytes_eq self.now name.now }
    {
        let len = self.len as usize;
        &self.bytes[..len] == name.as_bytes()
    }
}
