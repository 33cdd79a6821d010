ghost use Rattle.std.specs.Prelude.{◌≡◌, ◌++◌, ◌∷◌, [], true, ℕ, List, length, IfOk, OnErr};
ghost use Rattle.std.specs.List.{list_all};
ghost use Rattle.skk_calls.specs.Dictionary.{is_plain_reading};
ghost use Rattle.session_machine.specs.Converted.{first_word, first_words, number_look_up};
ghost use Rattle.session_machine.specs.Said.{Says, spoken};

use crate::answered::found_by;
use skk_calls::{Answer, Call, Caller, FoundCands, Part, Refusal, RowKey};
use skk_text::{Copies, Memory, Text, Texts};
use std::alloc::Global;

// What stands for the numbers of a reading that were looked up.
#[derive(Drop)]
pub(crate) enum FirstWords {
    // A word for each number.
    Words(Texts),
    // A look-up found nothing of its kind: it was refused, where there is a refusal.
    Stopped(Option<Refusal>),
}

// Looks up numbers for a typist, one after another.
pub(crate) fn look_numbers_up<C: Caller>(
    alloc: Global,
    typist: u16,
    numbers: &[Text],
    caller: &mut C,
) -> Result<FirstWords, Memory>
    requires { list_all is_plain_reading numbers.now ≡ true }
    ensures asked { Says (first_words typist [] numbers.now) result
        (spoken C.number C.said caller.old) (spoken C.number C.said caller.new) }
    ensures count { IfOk result (λ first. (words : List (List ℕ)) → first ≡ FirstWords.Words words
        → length words ≡ length numbers.now) }
{
    let mut words = Texts::new(alloc);
    for number in numbers {
        let answer = look_number_up(alloc, typist, number, caller)?;
        match found_by(answer) {
            Ok(found) => words.push(first_word(alloc, number, found)?)?,
            Err(refusal) => return Ok(FirstWords::Stopped(refusal)),
        }
    }
    Ok(FirstWords::Words(words))
}

// Looks a number up, as a reading without okurigana.
fn look_number_up<C: Caller>(
    alloc: Global,
    typist: u16,
    number: &Text,
    caller: &mut C,
) -> Result<Answer, Memory>
    requires { is_plain_reading number.now ≡ true }
    ensures number { C.number caller.new ≡ C.number caller.old }
    ensures ok { IfOk result (λ answer. C.said caller.new
        ≡ C.said caller.old ++ (number_look_up typist number.now, answer) ∷ []) }
    ensures err { OnErr result (C.said caller.new ≡ C.said caller.old) }
{
    let call = Call::Lookup {
        who: typist,
        key: RowKey::new(Part::Nasi, number.copy(alloc)?).unwrap(),
        okuri: None,
    };
    let answer = caller.call(alloc, &call);
    drop(call);
    Ok(answer)
}

// What stands for a number that was looked up: the word of the first candidate, or else its digits.
fn first_word(alloc: Global, number: &Text, found: FoundCands) -> Result<Text, Memory>
    ensures { IfOk result (λ word. word ≡ first_word number.now found) }
{
    let found = found.into_distinct(alloc)?;
    let cands = found.cands();
    if cands.is_empty() {
        return number.copy(alloc);
    }
    cands.at(0).word().copy(alloc)
}
