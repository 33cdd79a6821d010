ghost use Rattle.std.specs.Prelude.{◌≡◌, ◌++◌, [], IfOk, OnOk, OnErr};
ghost use Rattle.skkserv_proto.specs.Feeding.{EndsAt, IsMoved, ReadsTo};
ghost use Rattle.skkserv_proto.specs.Requests.{requests};

use crate::command::Wants;
use crate::front::{Front, front_of, joined};
use crate::place::RequestPlace;
use crate::reading::{READING, ReadingEnding};
use crate::request::Request;
use cut_input::{PieceEnd, piece_end};
use skk_text::Memory;
use std::alloc::Global;

/// Where a place goes with more bytes.
#[derive(Debug, Drop)]
pub enum Next {
    /// It stays where it is.
    Stays,
    /// Its reading goes on with all of the bytes.
    GoesOn,
    /// To another place.
    To(RequestPlace),
}

/// Moves a place on with bytes. Memory is only asked for where its reading goes on.
pub fn move_to(place: &mut RequestPlace, next: Next, bytes: &[u8]) -> Result<(), Memory>
    ensures ok { OnOk result (IsMoved place.old bytes.now next place.new) }
    ensures err { OnErr result (place.new ≡ place.old) }
    ensures only { OnErr result (next ≡ Next.GoesOn) }
{
    match next {
        Next::Stays => Ok(()),
        Next::GoesOn => {
            if let RequestPlace::Reading { wants: _, text } = place {
                text.push_bytes(bytes)?;
            }
            Ok(())
        }
        Next::To(next) => {
            *place = next;
            Ok(())
        }
    }
}

/// Where a place goes with bytes, of which so many are fed before them, and the requests that they end.
pub fn next_place(
    alloc: Global,
    place: &RequestPlace,
    fed: u64,
    bytes: &[u8],
) -> Result<(Next, Vec<Request>), Memory>
    ensures reads { IfOk result (λ r. ReadsTo (record { place = place.now; fed = fed }) bytes.now r.0 r.1.items) }
    ensures none { IfOk result (λ r. r.0 ≡ Next.GoesOn → r.1.items ≡ []) }
{
    match place {
        RequestPlace::Command => next_behind_command(alloc, fed, bytes),
        RequestPlace::Reading { wants, text } => next_in_reading(
            alloc,
            *wants,
            text.as_slice(),
            fed,
            bytes,
        ),
        RequestPlace::Ended => Ok((Next::Stays, Vec::new(alloc))),
        RequestPlace::Bad { at: _ } => Ok((Next::Stays, Vec::new(alloc))),
    }
}

// Where a place before a command goes with bytes.
fn next_behind_command(
    alloc: Global,
    fed: u64,
    bytes: &[u8],
) -> Result<(Next, Vec<Request>), Memory>
    ensures reads { IfOk result (λ r. ReadsTo (record { place = RequestPlace.Command; fed = fed }) bytes.now r.0
        r.1.items) }
    ensures none { IfOk result (λ r. r.0 ≡ Next.GoesOn → r.1.items ≡ []) }
{
    let mut read = Vec::new(alloc);
    let place = read_behind(alloc, fed, bytes, &mut read)?;
    Ok((Next::To(place), read))
}

// Where a place in a reading goes with bytes.
fn next_in_reading(
    alloc: Global,
    wants: Wants,
    text: &[u8],
    fed: u64,
    bytes: &[u8],
) -> Result<(Next, Vec<Request>), Memory>
    ensures reads { IfOk result (λ r. ReadsTo (record { place = RequestPlace.Reading wants text.now; fed = fed })
        bytes.now r.0 r.1.items) }
    ensures none { IfOk result (λ r. r.0 ≡ Next.GoesOn → r.1.items ≡ []) }
{
    match piece_end::<ReadingEnding>(text, bytes) {
        PieceEnd::Here(reading, behind) => {
            let mut read = Vec::new(alloc);
            read.push(wants.request(joined(alloc, text, reading)?))?;
            let before = fed.saturating_add(reading.len() as u64 + 1);
            let place = read_behind(alloc, before, behind, &mut read)?;
            Ok((Next::To(place), read))
        }
        PieceEnd::Open => Ok((Next::GoesOn, Vec::new(alloc))),
        PieceEnd::TooLong => {
            let more = READING.saturating_sub(text.len());
            let at = fed.saturating_add(more as u64);
            Ok((Next::To(RequestPlace::Bad { at }), Vec::new(alloc)))
        }
    }
}

// Reads bytes behind as many others, at whose end a command may stand: adds the requests that they spell, and gives the
// place where they end.
fn read_behind(
    alloc: Global,
    before: u64,
    bytes: &[u8],
    read: &mut Vec<Request>,
) -> Result<RequestPlace, Memory>
    ensures asked { OnOk result (read.new.items ≡ read.old.items ++ requests bytes.now) }
    ensures place { IfOk result (EndsAt 0 before bytes.now) }
{
    let mut rest = bytes;
    loop {
        match front_of(rest) {
            Front::Whole(token, behind) => {
                token.push_to(alloc, read)?;
                rest = behind;
            }
            Front::Cut(last) => {
                let place = last.place(alloc, before, bytes.len(), read)?;
                return Ok(place);
            }
        }
    }
}
