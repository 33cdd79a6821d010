ghost use Rattle.std.specs.Prelude.{◌≡◌, ◌<◌, ◌+◌, ◌^◌, ⊤, ◌++◌, ◌∷◌, [], length, IfOk, OnOk};
ghost use Rattle.skk_journal.specs.Reading.{StopsAt};

use crate::found::{FoundRecord, Records};
use crate::frame::{RecordFrame, read_frame};
use skk_text::{Bytes, Memory};
use std::alloc::Global;

// Where the good records of a part of a file end, counted from the part's first byte: at a gate that is closed, or
// where no good record stands whole in the part.
#[derive(Clone, Copy, Debug)]
pub(crate) enum Stop {
    End(usize),
    Else(usize),
}

// Reads the whole records in a part of a file that begins with a gate, at a place.
pub(crate) fn read_frames(
    alloc: Global,
    part: &[u8],
    at: u64,
    records: &mut Records,
) -> Result<Stop, Memory>
    requires { at + length part.now < 2 ^ 64 }
    ensures { IfOk result (StopsAt ⊤ part.now at records.old records.new) }
{
    let mut from = 0;
    loop {
        match read_frame(&part[from..]) {
            RecordFrame::End => return Ok(Stop::End(from)),
            RecordFrame::Bad => return Ok(Stop::Else(from)),
            RecordFrame::Record(payload) => {
                add_found(alloc, at + from as u64, payload, records)?;
                from += 5 + payload.len();
            }
        }
    }
}

// Adds a record that was read.
fn add_found(alloc: Global, at: u64, payload: &[u8], records: &mut Records) -> Result<(), Memory>
    ensures { OnOk result (records.new ≡ records.old ++ record { at = at; payload = payload.now } ∷ []) }
{
    let payload = Bytes::of(payload.to_vec(alloc)?);
    records.push(FoundRecord { at, payload })
}
