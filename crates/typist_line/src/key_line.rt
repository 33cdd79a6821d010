ghost use Rattle.std.specs.Prelude.{◌≡◌, IfOk, OnErr};
ghost use Rattle.typist_line.specs.TypedLines.{keys};
ghost use Rattle.typist_line.specs.Typings.{PressesTo, heard, BreaksPressing, TypesKeys, BreaksKeys};

use crate::replies::{send_fault, send_line};
use crate::typing::Typist;
use romaji_rules::Rules;
use session_machine::Session;
use skk_calls::Caller;
use skk_text::{KeyFault, Keys, Memory, read_keys};
use std::alloc::Global;

/// Types a line of keys in a session, and sends the reply. A line that is no key text changes nothing.
pub fn type_keys<C: Caller>(
    alloc: Global,
    session: Session,
    line: &[u8],
    rules: &Rules,
    caller: &mut C,
    out: &mut Vec<u8>,
) -> Result<Typist, Memory>
    ensures ok { IfOk result (TypesKeys rules.now line.now session
        (heard C.said caller.old out.old.items) (heard C.said caller.new out.new.items)) }
    ensures err { OnErr result (BreaksKeys rules.now line.now session
        (heard C.said caller.old out.old.items) (heard C.said caller.new out.new.items)) }
    ensures number { C.number caller.new ≡ C.number caller.old }
{
    match read_keys(alloc, line) {
        Ok(keys) => press(alloc, session, &keys, rules, caller, out),
        Err(KeyFault::BadName { at }) => {
            send_fault(alloc, at, out)?;
            Ok(Typist::Typing(session))
        }
        Err(KeyFault::NotAscii { at }) => {
            send_fault(alloc, at, out)?;
            Ok(Typist::Typing(session))
        }
        Err(KeyFault::Memory) => Err(Memory),
    }
}

// Presses keys in a session, and sends its line.
fn press<C: Caller>(
    alloc: Global,
    session: Session,
    pressed: &Keys,
    rules: &Rules,
    caller: &mut C,
    out: &mut Vec<u8>,
) -> Result<Typist, Memory>
    ensures ok { IfOk result (PressesTo rules.now (keys pressed.now) session
        (heard C.said caller.old out.old.items) (heard C.said caller.new out.new.items)) }
    ensures err { OnErr result (BreaksPressing rules.now (keys pressed.now) session
        (heard C.said caller.old out.old.items) (heard C.said caller.new out.new.items)) }
    ensures number { C.number caller.new ≡ C.number caller.old }
{
    let next = session.play(alloc, rules, pressed.as_slice(), caller)?;
    send_line(alloc, &next, out)?;
    Ok(Typist::Typing(next))
}
