//! Bytes as words, and words as bytes, the low byte first.
ghost use Rattle.std.specs.Prelude.{◌≡◌, ◌+◌, ◌*◌, ◌^◌, ◌<◌, ◌≤◌, length};
ghost use Rattle.board_layout.specs.Bytes as layout;
ghost use Rattle.board_layout.specs.Bytes.{byte_of, BeginsWithBytes};
ghost use Rattle.board_layout.specs.Keys as keys;

use crate::zero_copy_send::ZeroCopySend;

// The byte at a place below 8 of a word.
fn byte_at(word: u64, place: u32) -> u8
    requires { place < 8 }
    ensures { result ≡ byte_of word place }
{
    (word >> (8 * place) & 0xFF) as u8
}

// The first bytes of words, with zeros behind them.
pub(crate) fn put_bytes<const CAPACITY: usize>(words: &[u64], size: usize) -> [u8; CAPACITY]
    requires fits { size ≤ CAPACITY }
    requires words { size ≤ 8 * length words.now }
    ensures { BeginsWithBytes result words.now size }
{
    let mut bytes = [0; CAPACITY];
    for i in 0..size {
        bytes[i] = byte_at(words[i / 8], (i % 8) as u32);
    }
    bytes
}

// The number of these bytes.
fn little(bytes: &[u8]) -> u64
    requires { length bytes.now ≤ 8 }
    ensures value { result ≡ layout.little bytes.now }
    ensures bound { result < 2 ^ (8 * length bytes.now) }
{
    match bytes {
        [] => 0,
        [b, rest @ ..] => u64::from(*b) + 256 * little(rest),
    }
}

// The same, with a whole word's bytes read in one go.
fn word_of(bytes: &[u8]) -> u64
    requires { length bytes.now ≤ 8 }
    ensures { result ≡ layout.little bytes.now }
{
    match bytes {
        [a, b, c, d, e, f, g, h] => u64::from_le_bytes([*a, *b, *c, *d, *e, *f, *g, *h]),
        _ => little(bytes),
    }
}

// Fills words from bytes, with zeros behind.
fn take_words(words: &mut [u64], bytes: &[u8])
    ensures { words.new ≡ keys.words_in (length words.old) bytes.now }
{
    let mut rest = bytes;
    for i in 0..words.len() {
        let (front, behind) = rest.split_at(rest.len().min(8));
        words[i] = word_of(front);
        rest = behind;
    }
}

// The value of a type that begins these bytes. Its words pass through `words`.
pub(crate) fn value_in<T: ZeroCopySend>(words: &mut [u64], bytes: &[u8]) -> T
    requires words { T.WORDS ≤ length words.old }
    requires bytes { T.SIZE ≤ length bytes.now }
    ensures value { result ≡ keys.key_value T.value_of T.SIZE T.WORDS bytes.now }
    ensures valid { T.IsValue result }
    ensures len { length words.new ≡ length words.old }
{
    let front = &mut words[..T::WORDS];
    take_words(front, &bytes[..T::SIZE]);
    T::from_words(front)
}
