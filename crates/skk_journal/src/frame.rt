ghost use Rattle.std.specs.Prelude.{◌≡◌};
ghost use Rattle.std.specs.Option.{option_map};
ghost use Rattle.skk_journal.specs.Frames.{IsFrame};
ghost use Rattle.skk_journal.specs.Records.{sized_payload};

use crate::journal::PAYLOAD_LIMIT;
use crate::steps::OPEN;
use exact_readers::read_u32;

// What stands at the place of a gate: a good record with its payload, a gate that is closed, or neither.
#[derive(Clone, Copy, Debug)]
pub(crate) enum RecordFrame<'a> {
    Record(&'a [u8]),
    End,
    Bad,
}

// Reads what stands at the place of a gate.
pub(crate) fn read_frame(tail: &[u8]) -> RecordFrame<'_>
    ensures { IsFrame tail.now result }
{
    let Some((gate, behind)) = tail.split_first() else {
        return RecordFrame::Bad;
    };
    if *gate != OPEN {
        return RecordFrame::End;
    }
    match read_payload(behind) {
        Some((payload, _)) => RecordFrame::Record(payload),
        None => RecordFrame::Bad,
    }
}

// The payload behind its size, and what stands behind it; nothing where none stands whole, or none that a record may
// have.
fn read_payload(bytes: &[u8]) -> Option<(&[u8], &[u8])>
    ensures { option_map (λ parts. (parts.0.now, parts.1.now)) result ≡ sized_payload.step bytes.now }
{
    let (size, behind) = read_u32(bytes)?;
    let size = size as usize;
    if size < 1 || size > PAYLOAD_LIMIT || size > behind.len() {
        return None;
    }
    Some(behind.split_at(size))
}
