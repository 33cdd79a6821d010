ghost use Rattle.std.specs.Prelude.{◌≡◌, ◌≢◌, ℕ, Err, IsErrOf};

use crate::next::{move_to, next_place};
use crate::place::RequestPlace;
use crate::request::Request;
use skk_text::Memory;
use std::alloc::Global;
use std::marker::Model;
use thiserror::Error;

/// Reads requests from bytes that come in any pieces. It holds the bytes of a reading that has not ended, at most 255.
#[derive(Debug, Drop)]
pub struct Feeder {
    place: RequestPlace,
    fed: u64,
}

impl Model for Feeder {
    ghost use Rattle.skkserv_proto.specs.Feeding.{Feeding};

    ghost Value = { Feeding };

    ghost view = { λ f. record { place = f.place; fed = f.fed } };
}

/// Why a feeder reads no further.
#[derive(Clone, Copy, Debug, PartialEq, Eq, Error)]
pub enum FeedFault {
    /// A byte is no command, or one by which a reading is too long: that of this place, counted from 0 over all bytes.
    #[error("bad byte at {at}")]
    Bad { at: u64 },
    /// Out of memory.
    #[error("out of memory")]
    Memory,
}

impl From<Memory> for FeedFault {
    ghost use Rattle.std.specs.Prelude.{◌≡◌};
    ghost use Rattle.skkserv_proto.specs.declared.feeder.FeedFault.TheVariants as faults;

    ghost from_gives = { λ _ fault. fault ≡ faults.Memory };

    fn from(_memory: Memory) -> FeedFault {
        FeedFault::Memory
    }
}

impl Feeder {
    ghost use Rattle.std.specs.Prelude.{◌≡◌, ◌≢◌, ◌++◌, ℕ, [], Some, None, Ok, Err, List, IsErrOf};
    ghost use Rattle.skkserv_proto.specs.Feeding.{Fed, Feeds};
    ghost use Rattle.skkserv_proto.specs.Requests.{bad_at};

    /// A feeder that was fed nothing. Takes no memory.
    pub fn new() -> Feeder
        ensures { Fed [] result }
    {
        Feeder {
            place: RequestPlace::Command,
            fed: 0,
        }
    }

    /// Feeds bytes, and adds the requests that they end. Whatever it was fed before, it is as though all had come at
    /// once. Behind the end all bytes are ignored, and behind a bad byte each call answers the same. After `Memory` the
    /// feeder and the requests are as before.
    pub fn feed(
        &mut self,
        alloc: Global,
        bytes: &[u8],
        into: &mut Vec<Request>,
    ) -> Result<(), FeedFault>
        ensures reads { result ≢ Err FeedFault.Memory
            → Feeds self.old bytes.now self.new into.old.items into.new.items }
        ensures bad { (at : ℕ) → IsErrOf result (FeedFault.Bad at)
            → (before : List ℕ) → Fed before self.old → bad_at (before ++ bytes.now) ≡ Some at }
        ensures good { result ≡ Ok tt
            → (before : List ℕ) → Fed before self.old → bad_at (before ++ bytes.now) ≡ None }
        ensures memory { result ≡ Err FeedFault.Memory
            → (self.new ≡ self.old) × (into.new.items ≡ into.old.items) }
    {
        let Ok((next, mut read)) = next_place(alloc, &self.place, self.fed, bytes) else {
            return Err(FeedFault::Memory);
        };
        if into.append(&mut read).is_err() || move_to(&mut self.place, next, bytes).is_err() {
            return Err(FeedFault::Memory);
        }
        self.fed = self.fed.saturating_add(bytes.len() as u64);
        told(&self.place)
    }
}

// Whether a place is one of a bad byte.
fn told(place: &RequestPlace) -> Result<(), FeedFault>
    ensures bad { (at : ℕ) → IsErrOf result (FeedFault.Bad at) → place.now ≡ RequestPlace.Bad at }
    ensures good { result ≡ Ok tt → (at : ℕ) → place.now ≢ RequestPlace.Bad at }
    ensures no_memory { result ≢ Err FeedFault.Memory }
{
    match place {
        RequestPlace::Bad { at } => Err(FeedFault::Bad { at: *at }),
        _ => Ok(()),
    }
}
