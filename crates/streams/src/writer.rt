//! Writes all bytes of a slice.
ghost use Rattle.std.specs.Prelude.{◌≡◌, true, OnOk, OnErr};
ghost use Rattle.std.specs.Io.KnownBytes.{Appends};
ghost use Rattle.std.specs.Prelude.{◌++◌};
ghost use Rattle.streams.specs.Fronts.{AppendsFront};
ghost use Rattle.streams.specs.Moving.{MovesFront};

use crate::traits::{Failed, Sink};

/// Writes all bytes, or a prefix of them if the sink fails.
pub fn write_all<S: Sink>(sink: &mut S, bytes: &[u8]) -> Result<(), Failed>
    ensures ok { OnOk result (Appends (S.taken sink.old) (S.taken sink.new) bytes.now) }
    ensures front { OnErr result (AppendsFront (S.taken sink.old) (S.taken sink.new) bytes.now) }
    ensures moves { OnOk result (S.put sink.new ≡ S.put sink.old ++ bytes.now) }
    ensures moves_front { OnErr result (MovesFront (S.put sink.old) (S.put sink.new) bytes.now) }
    ensures failed { OnErr result (S.has_failed sink.new ≡ true) }
    ensures stays { S.has_failed sink.old ≡ true → S.has_failed sink.new ≡ true }
    ensures whole { OnOk result (S.has_failed sink.new ≡ true → S.has_failed sink.old ≡ true) }
{
    let mut rest = bytes;
    while !rest.is_empty() {
        let used = sink.write(rest)?;
        let (_, after) = rest.split_at(used);
        rest = after;
    }
    Ok(())
}
