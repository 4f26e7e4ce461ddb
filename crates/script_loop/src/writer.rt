//! Whole lines to a sink.
ghost use Rattle.std.specs.Prelude.{◌≡◌, ◌-◌, ◌<◌, ◌≤◌, IsOk, OnOk, OnErr, ℕ, length, take};
ghost use Rattle.std.specs.Io.KnownBytes.{Appends};
ghost use Rattle.board_model.specs.Lines.{HasCause};
ghost use Rattle.script_loop.specs.Streams.{one_fault_more};

use crate::stream::{Failed, Sink};

/// Writes all of the bytes. They are offered in one `write`, and their rest again until all is taken.
///
/// # Errors
/// `Failed` where the sink failed; then a front of the bytes was written, and not all.
pub fn write_whole<K: Sink>(sink: &mut K, bytes: &[u8]) -> Result<(), Failed>
    ensures ok { OnOk result (Appends (K.held sink.old) (K.held sink.new) bytes.now) }

    // Before a fault a front of the bytes was written, and not all of them: after the last byte, and after a fault, no
    // write is tried.
    ensures err { OnErr result ((n : ℕ) × (n < length bytes.now)
        × Appends (K.held sink.old) (K.held sink.new) (take n bytes.now)) }
    ensures most { K.most sink.new ≡ K.most sink.old }
    ensures cause { HasCause (K.faults sink.old) (K.faults sink.new) result }
    ensures once { OnErr result (K.faults sink.new ≡ one_fault_more (K.faults sink.old)) }
    ensures told { OnOk result (K.faults sink.new ≡ K.faults sink.old) }

    // It doesn't fail where the sink is known to take so many bytes, and the sink then takes the others of them.
    ensures unfailing { (n : ℕ) → K.never_fails_within sink.old n → length bytes.now ≤ n
        → IsOk result }
    ensures never_later { (n : ℕ) → K.never_fails_within sink.old n → length bytes.now ≤ n
        → K.never_fails_within sink.new (n - length bytes.now) }
{
    let mut at = 0;
    while at < bytes.len() {
        let Ok(taken) = sink.write(&bytes[at..]) else {
            return Err(Failed);
        };
        at += taken;
    }
    Ok(())
}
