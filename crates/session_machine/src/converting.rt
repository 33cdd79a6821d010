ghost use Rattle.std.specs.Prelude.{◌≡◌, ◌≢◌, [], ℕ, List, true, length, IfOk};
ghost use Rattle.std.specs.List.{list_all, list_any};
ghost use Rattle.numeric_entries.specs.Forms.{asks_lookup};
ghost use Rattle.numeric_entries.specs.Numbers.{are_numbers, numbers_of};
ghost use Rattle.numeric_entries.specs.Numbers as numeric;
ghost use Rattle.skk_calls.specs.Dictionary.{is_plain_reading};
ghost use Rattle.session_machine.specs.Converted.{converted, plain_found, numbered, both_found, filled, pick};
ghost use Rattle.session_machine.specs.Converted.{key_asked, key_found};
ghost use Rattle.session_machine.specs.Said.{Becomes, Says, after, spoken};

use crate::answered::found_by;
use crate::first_words::{FirstWords, look_numbers_up};
use crate::frame::{Conversion, FrameState, Waiting};
use crate::headword::Headword;
use crate::opening::leave_open;
use crate::registering::register;
use crate::session::Session;
use candidate_state::{BothFound, Found, Picking, ShownList, shown_numbers, shown_plain};
use numeric_entries::{NumberKey, asks_lookup, number_key};
use reading_state::Reading;
use skk_calls::{Call, Caller, Cands, FoundCands, Refusal, RowKey};
use skk_text::{Copies, Memory, Texts};
use std::alloc::Global;

// Converts a reading: looks it up, and shows what is found.
#[tactic(auto, using(crate::proofs::Saying::says))]
pub(crate) fn convert<C: Caller>(
    session: &mut Session,
    alloc: Global,
    reading: Reading,
    caller: &mut C,
) -> Result<(), Memory>
    requires { reading.text ≢ [] }
    ensures { Says (converted session.old reading) (after result session.new)
        (spoken C.number C.said caller.old) (spoken C.number C.said caller.new) }
{
    let key = reading.key(alloc)?;
    match look_key_up(alloc, session.typist, &reading, key, caller)? {
        Ok(plain) => convert_plain(session, alloc, reading, plain, caller),
        Err(refusal) => {
            leave_open(session, reading, refusal);
            Ok(())
        }
    }
}

// Looks a key up with a reading's okurigana.
#[tactic(auto, using(crate::proofs::Saying::says))]
fn look_key_up<C: Caller>(
    alloc: Global,
    typist: u16,
    reading: &Reading,
    key: RowKey,
    caller: &mut C,
) -> Result<Result<Found, Option<Refusal>>, Memory>
    ensures { Says (key_asked typist reading.now key) result
        (spoken C.number C.said caller.old) (spoken C.number C.said caller.new) }
{
    let call = Call::Lookup {
        who: typist,
        key: key.copy(alloc)?,
        okuri: reading.okuri(alloc)?,
    };
    let answer = caller.call(alloc, &call);
    drop(call);
    let found = key_found(alloc, key, found_by(answer))?;
    Ok(found)
}

// What was found of a key, or else the refusal.
fn key_found(
    alloc: Global,
    key: RowKey,
    found: Result<FoundCands, Option<Refusal>>,
) -> Result<Result<Found, Option<Refusal>>, Memory>
    ensures { IfOk result (λ end. end ≡ key_found key found) }
{
    match found {
        Ok(cands) => {
            let cands = cands.into_distinct(alloc)?;
            Ok(Ok(Found { key, cands }))
        }
        Err(refusal) => Ok(Err(refusal)),
    }
}

// Goes on with what was found of a reading as it is: looks its number key up where it has numbers, or else shows it.
#[tactic(auto, using(crate::proofs::Saying::says))]
fn convert_plain<C: Caller>(
    session: &mut Session,
    alloc: Global,
    reading: Reading,
    plain: Found,
    caller: &mut C,
) -> Result<(), Memory>
    requires { reading.text ≢ [] }
    ensures { Says (plain_found session.old reading plain) (after result session.new)
        (spoken C.number C.said caller.old) (spoken C.number C.said caller.new) }
{
    match number_key(alloc, reading.text())? {
        Some(number_key) => convert_numbered(session, alloc, reading, number_key, plain, caller),
        None => pick(session, alloc, reading, shown_plain(plain)),
    }
}

// Goes on with what was found as it is of a reading with this number key, which is looked up too.
#[tactic(auto, using(crate::proofs::Saying::says))]
fn convert_numbered<C: Caller>(
    session: &mut Session,
    alloc: Global,
    reading: Reading,
    number_key: NumberKey,
    plain: Found,
    caller: &mut C,
) -> Result<(), Memory>
    requires some { reading.text ≢ [] }
    requires plain { is_plain_reading reading.text ≡ true }
    requires key { number_key.key ≡ numeric.key_of reading.text }
    requires numbers { number_key.numbers ≡ numbers_of reading.text }
    ensures { Says (numbered session.old reading plain) (after result session.new)
        (spoken C.number C.said caller.old) (spoken C.number C.said caller.new) }
{
    let (key, numbers) = number_key.into_parts();
    let key = reading.key_of(key)?;
    match look_key_up(alloc, session.typist, &reading, key, caller)? {
        Ok(numbered) => {
            let found = BothFound { plain, numbered };
            convert_both(session, alloc, reading, numbers, found, caller)
        }
        Err(refusal) => {
            leave_open(session, reading, refusal);
            Ok(())
        }
    }
}

// Goes on with what was found of a reading with numbers: looks each number up where a word asks for it, and shows what
// was found.
#[tactic(auto, using(crate::proofs::Saying::says))]
fn convert_both<C: Caller>(
    session: &mut Session,
    alloc: Global,
    reading: Reading,
    numbers: Texts,
    found: BothFound,
    caller: &mut C,
) -> Result<(), Memory>
    requires some { reading.text ≢ [] }
    requires numbers { numbers ≡ numbers_of reading.text }
    requires digits { are_numbers numbers ≡ true }
    requires plain { list_all is_plain_reading numbers ≡ true }
    ensures { Says (both_found session.old reading found) (after result session.new)
        (spoken C.number C.said caller.old) (spoken C.number C.said caller.new) }
{
    if some_asks_lookup(found.numbered.cands.cands()) {
        let words = look_numbers_up(alloc, session.typist, numbers.as_slice(), caller)?;
        return fill(session, alloc, reading, &numbers, found, words);
    }
    let shown = shown_numbers(alloc, found, &numbers, &numbers)?;
    pick(session, alloc, reading, shown)
}

// Shows what was found of a reading with numbers, filled with the words that were looked up for them; or leaves the
// reading open where they stopped.
fn fill(
    session: &mut Session,
    alloc: Global,
    reading: Reading,
    numbers: &Texts,
    found: BothFound,
    words: FirstWords,
) -> Result<(), Memory>
    requires some { reading.text ≢ [] }
    requires numbers { numbers.now ≡ numbers_of reading.text }
    requires digits { are_numbers numbers.now ≡ true }
    requires count { (all : List (List ℕ)) → words ≡ FirstWords.Words all → length all ≡ length numbers.now }
    ensures { Becomes (filled session.old reading found words) (after result session.new) }
{
    match words {
        FirstWords::Words(words) => pick(
            session,
            alloc,
            reading,
            shown_numbers(alloc, found, numbers, &words)?,
        ),
        FirstWords::Stopped(refusal) => {
            leave_open(session, reading, refusal);
            Ok(())
        }
    }
}

// Whether a word of candidates asks for a look-up of the numbers.
fn some_asks_lookup(cands: &Cands) -> bool
    ensures { result ≡ list_any (λ cand. asks_lookup cand.word) cands.now }
{
    cands.iter().any(|cand| asks_lookup(cand.word()))
}

// Shows the first of the candidates of a reading, or opens a registration where there are none.
fn pick(
    session: &mut Session,
    alloc: Global,
    reading: Reading,
    shown: ShownList,
) -> Result<(), Memory>
    requires { reading.text ≢ [] }
    ensures { Becomes (pick session.old reading shown) (after result session.new) }
{
    let reading = Headword::new(reading);
    if shown.len() == 0 {
        return register(session, alloc, Waiting::Reading(reading));
    }
    let picking = Picking::new(shown);
    session.put_state(FrameState::Picking(Conversion { reading, picking }));
    Ok(())
}
