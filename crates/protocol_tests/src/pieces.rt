use skk_text::Bytes;
use std::alloc::Global;
use std::process::Abort;

// Sizes of pieces: single bytes, sizes that divide nothing, and those about the limit of a line.
pub(crate) const SIZES: &[usize] = &[1, 2, 3, 7, 4_095, 4_096, 4_097];

// Adds bytes in pieces of a size, of which the last may be shorter.
pub(crate) fn push_sized<R: Abort>(
    rt: &R,
    alloc: Global,
    pieces: &mut Vec<Bytes>,
    bytes: &[u8],
    size: usize,
) {
    for piece in bytes.chunks(size.max(1)) {
        push_piece(rt, alloc, pieces, piece);
    }
}

// Adds bytes that are cut at a place.
pub(crate) fn push_cut<R: Abort>(
    rt: &R,
    alloc: Global,
    pieces: &mut Vec<Bytes>,
    bytes: &[u8],
    place: usize,
) {
    let (before, behind) = bytes.split_at(place.min(bytes.len()));
    push_piece(rt, alloc, pieces, before);
    push_piece(rt, alloc, pieces, behind);
}

// Adds a piece.
pub(crate) fn push_piece<R: Abort>(rt: &R, alloc: Global, pieces: &mut Vec<Bytes>, piece: &[u8]) {
    let bytes = piece.to_vec(alloc).expect(rt, "memory");
    pieces.push(Bytes::of(bytes)).expect(rt, "memory");
}

// Adds bytes.
pub(crate) fn push<R: Abort>(rt: &R, bytes: &mut Vec<u8>, more: &[u8]) {
    bytes.extend_from_slice(more).expect(rt, "memory");
}
