//! Hashes of names.
ghost use Rattle.std.specs.Prelude.{◌≡◌, ℕ, List};
ghost use Rattle.sha1.specs.Sha1.{sha1};
ghost use Rattle.hex.specs.Hex.{encode_lower};

use board_names::Base64Url;
use sha1::Sha1 as Digest;
use std::marker::Model;

/// A hash as text, seen as the list of its bytes.
#[derive(Clone, Copy, Debug, PartialEq, Eq, Hash)]
pub struct HashValue {
    text: Base64Url,
}

impl Model for HashValue {
    ghost use Rattle.std.specs.Prelude.{ℕ, List};

    ghost Value = { List ℕ };

    ghost view = { λ s. s.text };

    ghost inverse = { λ d. record { text = d } };
}

impl HashValue {
    /// The text.
    pub fn as_base64url(&self) -> &Base64Url
        ensures { result.now ≡ self.now }
    {
        &self.text
    }
}

/// A way to hash bytes.
pub trait Hash: Sized {
    ghost hash_of: { List ℕ → List ℕ };

    ghost value_of: { Self → List ℕ };

    /// The hash of these bytes.
    fn new(bytes: &[u8]) -> Self
        ensures { value_of result ≡ hash_of bytes.now };

    /// The hash as text.
    fn value(&self) -> HashValue
        ensures { result ≡ value_of self.now };
}

/// The SHA-1 of bytes (FIPS 180-4), in 40 digits `0` to `9` and `a` to `f`.
#[derive(Clone, Copy, Debug)]
pub struct Sha1 {
    value: HashValue,
}

/// The hash that names are hashed by.
pub type Recommended = Sha1;

impl Hash for Sha1 {
    ghost hash_of = { λ bytes. encode_lower (sha1 bytes) };

    ghost value_of = { λ s. s.value };

    fn new(bytes: &[u8]) -> Sha1 {
        let digest = Digest::digest(bytes);
        let mut digits = [0u8; 40];
        // 20 bytes are 40 digits, so there is room for them.
        let Ok(()) = hex::encode_to_slice(&digest, &mut digits) else {
            unreachable!()
        };
        // Such digits meet the rule (`accepted` of `Base64Url::new`).
        let Ok(text) = Base64Url::new(&digits) else {
            unreachable!()
        };
        Sha1 {
            value: HashValue { text },
        }
    }

    fn value(&self) -> HashValue {
        self.value
    }
}
