ghost use Rattle.std.specs.Prelude.{◌≡◌, ◌≤◌, ◌<◌, ◌+◌, ℕ, Option, List, length, take, IfOk, OnOk, OnErr};
ghost use Rattle.std.specs.Io.{WritesAtMost};
ghost use Rattle.std.specs.Io.KnownBytes.{Appends, Keeps, WriteAppends};
ghost use Rattle.skk_outside.specs.Faults.{Rose};
ghost use Rattle.skk_outside.specs.Written.{AppendsPrefix};

use crate::outside::{Failed, Outside};

/// Where bytes go.
pub trait Sink: Outside {
    /// Writes a prefix of `from`, and answers how many bytes: at least 1 where there is any. A write
    /// that fails writes none.
    fn write(&mut self, from: &[u8]) -> Result<usize, Failed>
        ensures bound { WritesAtMost result from.now }
        ensures progress { 0 < length from.now → IfOk result (λ n. 1 ≤ n) }
        ensures bytes { WriteAppends (Self.written self.old) (Self.written self.new) result from.now }
        ensures left { Self.left self.new ≡ Self.left self.old }
        ensures failed { OnErr result (Rose (Self.faults self.old) (Self.faults self.new)) }
        ensures counted { Self.faults self.old ≤ Self.faults self.new };

    /// Hands on what the sink still holds back.
    fn flush(&mut self) -> Result<(), Failed>
        ensures bytes { Keeps (Self.written self.old) (Self.written self.new) }
        ensures left { Self.left self.new ≡ Self.left self.old }
        ensures failed { OnErr result (Rose (Self.faults self.old) (Self.faults self.new)) }
        ensures counted { Self.faults self.old ≤ Self.faults self.new };
}

/// Writes all the bytes, in as many writes as the sink takes. Where one fails, a prefix of the
/// bytes is written.
pub fn write_all<S: Sink>(sink: &mut S, bytes: &[u8]) -> Result<(), Failed>
    ensures ok { OnOk result (Appends (S.written sink.old) (S.written sink.new) bytes.now) }
    ensures err { OnErr result (AppendsPrefix (S.written sink.old) (S.written sink.new) bytes.now) }
    ensures left { S.left sink.new ≡ S.left sink.old }
    ensures failed { OnErr result (Rose (S.faults sink.old) (S.faults sink.new)) }
    ensures counted { S.faults sink.old ≤ S.faults sink.new }
{
    let mut done = 0;
    for _ in 0..bytes.len() {
        if done == bytes.len() {
            break;
        }
        done += sink.write(&bytes[done..])?;
    }
    Ok(())
}
