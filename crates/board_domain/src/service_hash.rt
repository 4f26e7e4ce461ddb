//! The hash by which a service is known.
ghost use Rattle.std.specs.Prelude.{◌≡◌};
ghost use Rattle.board_domain.specs.ServiceHash.{service_hash};

use arrayvec::ArrayVec;
use board_concepts::hash::{Hash, HashValue, Sha1};
use board_names::ServiceName;

// What stands before the name where it is hashed, so that a service of another pattern has another hash.
const PATTERN: &[u8; 11] = b"Blackboard/";

/// The hash of a board's name.
pub(crate) fn hash_of(name: &ServiceName) -> HashValue
    ensures { result ≡ service_hash name.now }
{
    // 11 bytes and a name of up to 255 are at most 266.
    let mut bytes: ArrayVec<u8, 266> = ArrayVec::new();
    let Ok(()) = bytes.try_extend_from_slice(PATTERN) else {
        unreachable!()
    };
    let Ok(()) = bytes.try_extend_from_slice(name.as_bytes()) else {
        unreachable!()
    };
    Sha1::new(bytes.as_slice()).value()
}
