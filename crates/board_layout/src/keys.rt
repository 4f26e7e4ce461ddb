//! Keys of a board as values.
ghost use Rattle.std.specs.Prelude.{◌≡◌, ◌≤◌};
ghost use Rattle.board_layout.specs.Keys as keys;

use crate::key_memory::KeyMemory;
use crate::key_words::value_in;
use crate::zero_copy_send::{BoardKey, ZeroCopySend};

/// The value of the type that begins a key.
pub fn key_of<K: ZeroCopySend>(key: &KeyMemory<64>) -> K
    requires { K.SIZE ≤ 64 }
    ensures { result ≡ keys.key_value K.value_of K.SIZE K.WORDS key.now.bytes }
{
    let mut words = [0; 8];
    value_in(&mut words, &key.bytes)
}

/// Whether two keys are equal by their type.
pub fn same_keys<K: BoardKey>(a: &KeyMemory<64>, b: &KeyMemory<64>) -> bool
    requires { K.SIZE ≤ 64 }
    ensures { result ≡ keys.same_keys K.eq K.value_of K.SIZE K.WORDS a.now.bytes b.now.bytes }
{
    key_of::<K>(a) == key_of::<K>(b)
}

/// Whether a key is equal to a value.
pub fn is_key<K: BoardKey>(key: &K, bytes: &KeyMemory<64>) -> bool
    requires { K.SIZE ≤ 64 }
    ensures { result ≡ keys.is_key K.eq K.value_of K.SIZE K.WORDS key.now bytes.now.bytes }
{
    key_of::<K>(bytes) == *key
}
