ghost use Rattle.std.specs.Prelude.{◌≡◌, ◌<◌, ◌≤◌, ◌+◌, ◌++◌, ◌^◌, [], length, take, drop, min, slice_index_or};
ghost use Rattle.skk_outside.specs.Memory.{bytes_of_pieces, first_nonempty_piece};
ghost use Rattle.skk_outside.specs.Pieces.{pieces_left};

use crate::copying::copy_what_fits;
use skk_text::Bytes;
use std::marker::Model;

// Pieces of bytes, which a memory form gives out one after another: contracts see those that are left.
#[derive(Debug, Drop)]
pub(crate) struct Pieces {
    pieces: Vec<Bytes>,
    place: usize,
    taken: usize,
}

impl Model for Pieces {
    ghost use Rattle.std.specs.Prelude.{◌≤◌, ℕ, List, length, slice_index_or, []};
    ghost use Rattle.skk_outside.specs.Pieces.{pieces_left};

    ghost Value = { List (List ℕ) };

    ghost view = { λ p. pieces_left p.place p.taken p.pieces.items };

    ghost invariant = { λ p. p.taken ≤ length (slice_index_or p.pieces.items p.place []) };
}

impl Pieces {
    // All of these. Takes no memory.
    pub(crate) fn new(pieces: Vec<Bytes>) -> Pieces
        ensures { result ≡ pieces.items }
    {
        Pieces {
            pieces,
            place: 0,
            taken: 0,
        }
    }

    // Gives as many bytes as there is room for, of the first piece that has any, and answers how many: an empty piece
    // is passed over.
    pub(crate) fn read(&mut self, into: &mut [u8]) -> usize
        ensures count { result ≡ min (length into.old) (length (first_nonempty_piece self.old)) }
        ensures room { length into.new ≡ length into.old }
        ensures bytes { bytes_of_pieces self.old ≡ take result into.new ++ bytes_of_pieces self.new }
        ensures end { result ≡ 0 → 0 < length into.new → bytes_of_pieces self.new ≡ [] }
    {
        let pieces = self.pieces.as_slice();
        (self.place, self.taken) = place_of_next_byte(pieces, self.place, self.taken);
        if self.place == pieces.len() {
            return 0;
        }
        let n = copy_what_fits(rest_of_piece(pieces, self.place, self.taken), into);
        self.taken += n;
        n
    }
}

// The place of the first piece with a byte left, and how many of its bytes were taken: behind the
// pieces, if none has any.
fn place_of_next_byte(pieces: &[Bytes], place: usize, taken: usize) -> (usize, usize)
    requires { taken ≤ length (slice_index_or pieces.now place []) }
    ensures within { result.0 ≤ length pieces.now }
    ensures byte_left { result.0 < length pieces.now → result.1 < length (slice_index_or pieces.now result.0 []) }
    ensures at_end { result.0 ≡ length pieces.now → result.1 ≡ 0 }
    ensures bytes { bytes_of_pieces (pieces_left result.0 result.1 pieces.now)
        ≡ bytes_of_pieces (pieces_left place taken pieces.now) }
    ensures first { first_nonempty_piece (pieces_left result.0 result.1 pieces.now)
        ≡ first_nonempty_piece (pieces_left place taken pieces.now) }
{
    let mut taken = taken;
    for at in place..pieces.len() {
        if taken < pieces[at].as_slice().len() {
            return (at, taken);
        }
        taken = 0;
    }
    (pieces.len(), 0)
}

// What is left of the piece at a place, of which so many bytes were taken.
fn rest_of_piece(pieces: &[Bytes], place: usize, taken: usize) -> &[u8]
    requires within { place < length pieces.now }
    requires taken { taken ≤ length (slice_index_or pieces.now place []) }
    ensures rest { result.now ≡ drop taken (slice_index_or pieces.now place []) }
    ensures fits { taken + length result.now < 2 ^ 64 }
{
    &pieces[place].as_slice()[taken..]
}
