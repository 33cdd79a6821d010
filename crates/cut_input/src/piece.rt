ghost use Rattle.std.specs.Prelude.{◌≡◌, ◌<◌, length, position, IfSome};
ghost use Rattle.std.specs.Option.{option_map};
ghost use Rattle.exact_readers.specs.Cuts.{cut};
ghost use Rattle.cut_input.specs.Pieces.{IsPieceEnd};

use crate::ending::Ending;

/// How a piece goes on in bytes.
#[derive(Clone, Copy, Debug)]
pub enum PieceEnd<'t> {
    /// It ends there: these are its bytes, and what stands behind the byte that ends it.
    Here(&'t [u8], &'t [u8]),
    /// It goes on to their end.
    Open,
    /// It becomes too long.
    TooLong,
}

/// How a piece that begins with some bytes goes on in those behind them. Takes no memory, and time in these.
pub fn piece_end<'t, E: Ending>(begun: &[u8], bytes: &'t [u8]) -> PieceEnd<'t>
    ensures { IsPieceEnd E.ends E.limit (length begun.now) bytes.now result }
{
    match cut_piece::<E>(bytes) {
        Some((piece, behind)) => {
            if begun.len() + piece.len() > E::limit() {
                return PieceEnd::TooLong;
            }
            PieceEnd::Here(piece, behind)
        }
        None => {
            if begun.len() + bytes.len() > E::limit() {
                return PieceEnd::TooLong;
            }
            PieceEnd::Open
        }
    }
}

// What stands before the first byte that ends a piece and what stands behind it, where there is one.
fn cut_piece<E: Ending>(bytes: &[u8]) -> Option<(&[u8], &[u8])>
    ensures { option_map (λ parts. (parts.0.now, parts.1.now)) result ≡ cut E.ends bytes.now }
{
    match end_of_piece::<E>(bytes) {
        Some(end) => Some((&bytes[..end], &bytes[end + 1..])),
        None => None,
    }
}

// Where the first byte stands that ends a piece.
fn end_of_piece<E: Ending>(bytes: &[u8]) -> Option<usize>
    ensures value { result ≡ position E.ends bytes.now }
    ensures within { IfSome result (λ end. end < length bytes.now) }
{
    bytes.iter().position(|byte| E::ends(*byte))
}
