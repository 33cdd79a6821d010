ghost use Rattle.std.specs.Prelude.{◌≡◌, ◌≤◌, ◌<◌, [], length, vec_len, IfOk, IfErr, IsErrOf, ◌≢◌};
ghost use Rattle.skk_outside.specs.Faults.{Rose};
ghost use Rattle.exact_readers.specs.Lines.{is_line_feed, without_return};
ghost use Rattle.skkserv_client.specs.Hearing.{GoesOnBy, GoesOnWith, HearsLine, IsBegunLine};
ghost use Rattle.skkserv_client.specs.Replies.{longest_line};

use crate::told::AskFault;
use cut_input::{Begun, Ending, PieceEnd, piece_end};
use skk_outside::Source;
use std::alloc::{AllocError, Global};

// The most bytes of a line, without the LF that ends it.
const LONGEST_LINE: usize = 4_194_303;

// How many bytes are read at once.
const PIECE: usize = 4096;

// The line of a reply, which ends at its LF.
struct ReplyLine;

impl Ending for ReplyLine {
    ghost ends = { is_line_feed };

    ghost limit = { longest_line };

    fn ends(byte: u8) -> bool {
        byte == b'\n'
    }

    fn limit() -> usize {
        LONGEST_LINE
    }
}

/// The line that the bytes of a link begin with, without the LF that ends it. What the link gave with that LF is gone
/// from it.
pub fn hear_line<K: Source>(alloc: Global, link: &mut K) -> Result<Begun, AskFault>
    ensures heard { HearsLine (K.left link.old) [] result }
    ensures written { K.written link.new ≡ K.written link.old }
    ensures failed { IsErrOf result AskFault.LinkFault → Rose (K.faults link.old) (K.faults link.new) }
    ensures counted { K.faults link.old ≤ K.faults link.new }
{
    let mut piece = empty_piece(alloc)?;
    let mut line = Begun::new(alloc);
    for _ in 0..=LONGEST_LINE {
        if hear_more(link, &mut piece, &mut line)? {
            return Ok(line);
        }
    }
    unreachable!()
}

// Room for what is read at once.
fn empty_piece(alloc: Global) -> Result<Vec<u8>, AllocError>
    ensures { IfOk result (λ piece. vec_len piece ≡ PIECE) }
{
    vec![in alloc; 0; PIECE]
}

// Reads the next bytes of a line, and answers whether it ends in them.
fn hear_more<K: Source>(link: &mut K, piece: &mut [u8], line: &mut Begun) -> Result<bool, AskFault>
    requires room { 0 < length piece.old }
    requires begun { IsBegunLine line.old }
    ensures heard { GoesOnBy (K.left link.old) (K.left link.new) line.old line.new result }
    ensures written { K.written link.new ≡ K.written link.old }
    ensures failed { IsErrOf result AskFault.LinkFault → Rose (K.faults link.old) (K.faults link.new) }
    ensures counted { K.faults link.old ≤ K.faults link.new }
{
    let count = link.read(piece)?;
    if count == 0 {
        let read = line.as_slice().len() as u64;
        return Err(AskFault::Ended { read });
    }
    go_on(line, &piece[..count])
}

// Adds bytes to a line, up to the LF that ends it, and answers whether there is one.
fn go_on(line: &mut Begun, bytes: &[u8]) -> Result<bool, AskFault>
    requires { IsBegunLine line.old }
    ensures heard { GoesOnWith line.old bytes.now line.new result }
    ensures fault { IfErr result (λ fault. fault ≢ AskFault.LinkFault) }
{
    match piece_end::<ReplyLine>(line.as_slice(), bytes) {
        PieceEnd::Here(end, _) => {
            line.push_bytes(end)?;
            Ok(true)
        }
        PieceEnd::Open => {
            line.push_bytes(bytes)?;
            Ok(false)
        }
        PieceEnd::TooLong => Err(AskFault::TooLong),
    }
}

/// A line without the CR with which it may end.
#[tactic(auto, using(crate::proofs::Returns::returns_cut))]
pub fn without_return(line: &[u8]) -> &[u8]
    ensures { result.now ≡ without_return line.now }
{
    let Some((last, front)) = line.split_last() else {
        return line;
    };
    if *last == b'\r' { front } else { line }
}
