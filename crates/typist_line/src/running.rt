ghost use Rattle.std.specs.Prelude.{◌≡◌, ◌++◌, [], Some, None, IfOk, IsErr, OnOk, OnErr};
ghost use Rattle.typist_line.specs.Typings.{BreaksLine, Stops, Types, TypesLine, going_of};
ghost use Rattle.typist_line.specs.Typings.{heard};
ghost use Rattle.typist_line.specs.Typings.{IsSilent};

use crate::first_line::open_by;
use crate::key_line::type_keys;
use crate::replies::send_refusal;
use crate::typing::{Going, TypedLine, Typing, Typist};
use cut_input::{Begun, PieceEnd, piece_end};
use romaji_rules::Rules;
use skk_calls::Caller;
use skk_text::Memory;
use std::alloc::Global;

/// Reads bytes of a typist's connection, types the lines that they end, and adds the replies. Whatever it read before,
/// it is as though all had come at once. After `Over` nothing is read, and after `Memory` each call answers that and
/// adds nothing.
pub fn run_typist<C: Caller>(
    lines: &mut Typing,
    alloc: Global,
    bytes: &[u8],
    rules: &Rules,
    caller: &mut C,
    out: &mut Vec<u8>,
) -> Result<Going, Memory>
    ensures types { OnOk result (Types rules.now bytes.now lines.old lines.new
        (heard C.said caller.old out.old.items) (heard C.said caller.new out.new.items)) }
    ensures going { IfOk result (λ going. (typist : Typist) × (lines.new.typist ≡ Some typist)
        × (going ≡ going_of typist)) }
    ensures stops { OnErr result (Stops rules.now bytes.now lines.old
        (heard C.said caller.old out.old.items) (heard C.said caller.new out.new.items)) }
    ensures gone { OnErr result (lines.new.typist ≡ None) }
    ensures stays_gone { lines.old.typist ≡ None → IsErr result
        × IsSilent (heard C.said caller.old out.old.items) (heard C.said caller.new out.new.items) }
    ensures number { C.number caller.new ≡ C.number caller.old }
{
    let Some(typist) = lines.typist.take() else {
        return Err(Memory);
    };
    let typist = type_bytes(alloc, typist, &mut lines.begun, bytes, rules, caller, out)?;
    let going = typist.going();
    lines.typist = Some(typist);
    Ok(going)
}

// Types the lines that bytes end, of which the first has begun so.
fn type_bytes<C: Caller>(
    alloc: Global,
    typist: Typist,
    begun: &mut Begun,
    bytes: &[u8],
    rules: &Rules,
    caller: &mut C,
    out: &mut Vec<u8>,
) -> Result<Typist, Memory>
    ensures types { IfOk result (λ after. Types rules.now bytes.now
        (record { typist = Some typist; begun = begun.old }) (record { typist = Some after; begun = begun.new })
        (heard C.said caller.old out.old.items) (heard C.said caller.new out.new.items)) }
    ensures stops { OnErr result (Stops rules.now bytes.now (record { typist = Some typist; begun = begun.old })
        (heard C.said caller.old out.old.items) (heard C.said caller.new out.new.items)) }
    ensures number { C.number caller.new ≡ C.number caller.old }
{
    let mut typist = typist;
    let mut rest = bytes;
    while !typist.is_over() {
        match piece_end::<TypedLine>(begun.as_slice(), rest) {
            PieceEnd::Here(end, behind) => {
                typist = type_ended(alloc, typist, begun, end, rules, caller, out)?;
                rest = behind;
            }
            PieceEnd::Open => {
                begun.push_bytes(rest)?;
                return Ok(typist);
            }
            PieceEnd::TooLong => {
                send_refusal(alloc, out)?;
                return Ok(Typist::Over);
            }
        }
    }
    Ok(typist)
}

// Types a line that has begun and ends so.
fn type_ended<C: Caller>(
    alloc: Global,
    typist: Typist,
    begun: &mut Begun,
    end: &[u8],
    rules: &Rules,
    caller: &mut C,
    out: &mut Vec<u8>,
) -> Result<Typist, Memory>
    ensures ok { IfOk result (TypesLine rules.now (begun.old ++ end.now) typist
        (heard C.said caller.old out.old.items) (heard C.said caller.new out.new.items)) }
    ensures clear { OnOk result (begun.new ≡ []) }
    ensures err { OnErr result (BreaksLine rules.now (begun.old ++ end.now) typist
        (heard C.said caller.old out.old.items) (heard C.said caller.new out.new.items)) }
    ensures number { C.number caller.new ≡ C.number caller.old }
{
    begun.push_bytes(end)?;
    let after = type_line(alloc, typist, begun.as_slice(), rules, caller, out)?;
    begun.clear();
    Ok(after)
}

// Types a line.
fn type_line<C: Caller>(
    alloc: Global,
    typist: Typist,
    line: &[u8],
    rules: &Rules,
    caller: &mut C,
    out: &mut Vec<u8>,
) -> Result<Typist, Memory>
    ensures ok { IfOk result (TypesLine rules.now line.now typist
        (heard C.said caller.old out.old.items) (heard C.said caller.new out.new.items)) }
    ensures err { OnErr result (BreaksLine rules.now line.now typist
        (heard C.said caller.old out.old.items) (heard C.said caller.new out.new.items)) }
    ensures number { C.number caller.new ≡ C.number caller.old }
{
    match typist {
        Typist::New => open_by(alloc, line, out),
        Typist::Typing(session) => type_keys(alloc, session, line, rules, caller, out),
        Typist::Over => Ok(Typist::Over),
    }
}
