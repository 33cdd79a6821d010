ghost use Rattle.std.specs.Prelude.{◌≡◌, ◌↔◌, ◌++◌, ◌∷◌, true, ℕ, List, length, codes, IfOk, OnOk, IsTrue, MatchOption};
ghost use Rattle.std.specs.Str.{chars};
ghost use Rattle.numeric_entries.specs.Forms.{Holds, asks_lookup, fill, filled_parts, form_text};
ghost use Rattle.numeric_entries.specs.Forms.{parts_of};
ghost use Rattle.numeric_entries.specs.Forms.{stands, stays};
ghost use Rattle.numeric_entries.specs.Numbers.{are_numbers, is_number};

use crate::characters::first_character;
use crate::digits::{digits_of, push_kanji, push_on_board, push_wide, push_with_commas};
use crate::form::{NumberForm, form_named};
use crate::numerals::{EVERYDAY, FORMAL};
use crate::places::push_in_places;
use skk_text::{Memory, Text, Texts};
use std::alloc::Global;

/// Whether a word has a form that stands for a word which is first to be looked up: whether it holds `#4`. Takes no
/// memory, and time in the word's length.
pub fn asks_lookup(word: &Text) -> bool
    ensures form { result ≡ asks_lookup word.now }
    ensures holds { IsTrue result ↔ Holds (codes "#4") word.now }
{
    word.as_str().contains("#4")
}

/// A word in which each form is filled: the first form with the first number, and so on. A form is a `#` with one of
/// `0 1 2 3 4 5 8 9` behind it; any other `#` stays, and so do forms behind the last number.
///
/// | form | what it is filled with | 1995 |
/// |---|---|---|
/// | `#0` | the digits | `1995` |
/// | `#1` | the digits, wide | `１９９５` |
/// | `#2` | the digits in kanji | `一九九五` |
/// | `#3` | the number in kanji with places | `千九百九十五` |
/// | `#4` | the first word that was found for the number: the text of `firsts` at its place | |
/// | `#5` | the number in the kanji of legal documents (大字), with places | `壱阡九百九拾伍` |
/// | `#8` | the digits, with a comma between groups of three from the right | `1,995` |
/// | `#9` | of two digits from 1 to 9 the first wide and the second in kanji, as a square of a shogi board | `1995` |
///
/// These are forms of the numeric conversion (数値変換) that the manual of DDSKK describes. Zeros at the head are
/// dropped by `#3` and `#5` alone, which write zero as `〇` and `零`, and leave a number of more than 16 digits as it
/// is. Takes time in the word and in what it gives.
pub fn fill(alloc: Global, word: &Text, numbers: &Texts, firsts: &Texts) -> Result<Text, Memory>
    requires digits { are_numbers numbers.now ≡ true }
    requires firsts { length firsts.now ≡ length numbers.now }
    ensures { IfOk result (λ text. text ≡ fill word.now numbers.now firsts.now) }
{
    let mut text = Text::new(alloc);
    let mut rest = word.as_str();
    for place in 0..numbers.len() {
        let Some((form, behind)) = push_to_form(&mut text, rest)? else {
            return Ok(text);
        };
        push_form(&mut text, form, numbers.at(place), firsts.at(place))?;
        rest = behind;
    }
    text.push_str(rest)?;
    Ok(text)
}

// Adds what stands before the first form of a word, and gives that form and what stands behind it; where there is no
// form all is added.
fn push_to_form<'t>(text: &mut Text, word: &'t str) -> Result<Option<(NumberForm, &'t str)>, Memory>
    ensures { IfOk result (λ found. MatchOption found
        ((numbers firsts : List (List ℕ)) → text.new ≡ text.old ++ fill (chars word.now) numbers firsts)
        (λ parts. (c : ℕ) × ((numbers firsts : List (List ℕ)) →
        text.new ++ filled_parts (stands c parts.0 ∷ parts_of (chars parts.1.now)) numbers firsts
        ≡ text.old ++ fill (chars word.now) numbers firsts))) }
{
    let mut rest = word;
    while let Some((c, behind)) = first_character(rest) {
        if let Some(found) = first_form(c, behind) {
            return Ok(Some(found));
        }
        text.push(c)?;
        rest = behind;
    }
    Ok(None)
}

// The form that a character begins before a text, and what stands behind the form.
fn first_form(c: char, text: &str) -> Option<(NumberForm, &str)>
    ensures { MatchOption result
        (parts_of (c ∷ chars text.now) ≡ stays c ∷ parts_of (chars text.now))
        (λ found. (next : ℕ) × (parts_of (c ∷ chars text.now) ≡ stands next found.0 ∷ parts_of (chars found.1.now))) }
{
    if c != '#' {
        return None;
    }
    let (next, behind) = first_character(text)?;
    let form = form_named(next)?;
    Some((form, behind))
}

// Adds what a form writes for a number, and for the first word that was found for it.
fn push_form(text: &mut Text, form: NumberForm, number: &Text, first: &Text) -> Result<(), Memory>
    requires { is_number number.now ≡ true }
    ensures { OnOk result (text.new ≡ text.old ++ form_text form number.now first.now) }
{
    let digits = digits_of(number);
    match form {
        NumberForm::Digits => text.push_str(number.as_str()),
        NumberForm::Wide => push_wide(text, digits),
        NumberForm::Kanji => push_kanji(text, &EVERYDAY, digits),
        NumberForm::Places => push_in_places(text, &EVERYDAY, number),
        NumberForm::Lookup => text.push_str(first.as_str()),
        NumberForm::Formal => push_in_places(text, &FORMAL, number),
        NumberForm::Commas => push_with_commas(text, digits),
        NumberForm::Square => push_on_board(text, number),
    }
}
