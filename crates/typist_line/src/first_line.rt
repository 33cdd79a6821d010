ghost use Rattle.std.specs.Prelude.{◌≡◌, IfOk, IfSome, IsNone, OnErr};
ghost use Rattle.typist_line.specs.Conversations.{OpensNone};
ghost use Rattle.typist_line.specs.TypedLines.{Opens};
ghost use Rattle.typist_line.specs.Typings.{OpensTo};

use crate::replies::{send_line, send_refusal};
use crate::typing::Typist;
use key_scripts::typist_and_book;
use session_machine::Session;
use skk_text::Memory;
use std::alloc::Global;

/// Opens a connection by its first line, or refuses it, and sends the reply.
pub fn open_by(alloc: Global, line: &[u8], out: &mut Vec<u8>) -> Result<Typist, Memory>
    ensures ok { IfOk result (OpensTo line.now out.old.items out.new.items) }
    ensures err { OnErr result (out.new.items ≡ out.old.items) }
{
    match opening_of(line) {
        Some((typist, book)) => {
            let session = Session::new(alloc, typist, book);
            send_line(alloc, &session, out)?;
            Ok(Typist::Typing(session))
        }
        None => {
            send_refusal(alloc, out)?;
            Ok(Typist::Over)
        }
    }
}

// The typist and the book that a first line opens a connection for.
fn opening_of(line: &[u8]) -> Option<(u16, u16)>
    ensures some { IfSome result (λ found. Opens line.now (record { typist = found.0; book = found.1 })) }
    ensures none { IsNone result → OpensNone line.now }
{
    let [b'T', behind @ ..] = line else {
        return None;
    };
    typist_and_book(behind, b' ')
}
