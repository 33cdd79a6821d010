ghost use Rattle.std.specs.Prelude.{◌≡◌, ◌++◌, IfOk, OnOk};
ghost use Rattle.std.specs.List.{fold};
ghost use Rattle.skk_calls.specs.Found.{without_hidden};
ghost use Rattle.skk_calls.specs.Rows.{words_of};
ghost use Rattle.word_sets.specs.Firsts.{with_new};
ghost use Rattle.dict_expr.specs.Rows.{texts_with, texts_without};

use skk_calls::{Cand, Cands};
use skk_text::{Copies, Memory, Text, Texts, copies_of};
use std::alloc::Global;
use word_sets::WordRefs;

/// Copies of texts, and behind them those of others that they lack.
pub fn texts_with(alloc: Global, texts: &[Text], others: &[Text]) -> Result<Texts, Memory>
    ensures { IfOk result (λ sum. sum ≡ texts_with texts.now others.now) }
{
    let mut sum = copies_of(alloc, texts)?;
    add_texts(alloc, &mut sum, others, texts)?;
    Ok(sum)
}

/// Copies of texts without those of others.
pub fn texts_without(alloc: Global, texts: &[Text], others: &[Text]) -> Result<Texts, Memory>
    ensures { IfOk result (λ left. left ≡ texts_without texts.now others.now) }
{
    let mut left = Texts::new(alloc);
    add_texts(alloc, &mut left, texts, others)?;
    Ok(left)
}

// Adds copies of texts without those of others. Takes time in what both hold.
fn add_texts(
    alloc: Global,
    copies: &mut Texts,
    texts: &[Text],
    others: &[Text],
) -> Result<(), Memory>
    ensures { OnOk result (copies.new ≡ copies.old ++ texts_without texts.now others.now) }
{
    let mut known = WordRefs::new(alloc);
    know_texts(&mut known, others)?;
    add_unknown(alloc, copies, &known, texts)
}

// Adds copies of the texts that are not known.
fn add_unknown(
    alloc: Global,
    copies: &mut Texts,
    known: &WordRefs<'_>,
    texts: &[Text],
) -> Result<(), Memory>
    ensures { OnOk result (copies.new ≡ copies.old ++ texts_without texts.now known.now) }
{
    for text in texts {
        if !known.contains(text) {
            copies.push(text.copy(alloc)?)?;
        }
    }
    Ok(())
}

// Makes texts known.
fn know_texts<'a>(known: &mut WordRefs<'a>, texts: &'a [Text]) -> Result<(), Memory>
    ensures { OnOk result (known.new ≡ fold (with_new (λ text. text)) known.old texts.now) }
{
    for text in texts {
        known.insert(text)?;
    }
    Ok(())
}

/// Adds copies of candidates without those of the words of others. Takes time in what both hold.
pub fn add_cands(
    alloc: Global,
    copies: &mut Cands,
    cands: &[Cand],
    others: &[Cand],
) -> Result<(), Memory>
    ensures { OnOk result (copies.new ≡ copies.old ++ without_hidden (words_of others.now) cands.now) }
{
    let mut known = WordRefs::new(alloc);
    know_cands(&mut known, others)?;
    add_unknown_cands(alloc, copies, &known, cands)
}

// Adds copies of the candidates whose words are not known.
fn add_unknown_cands(
    alloc: Global,
    copies: &mut Cands,
    known: &WordRefs<'_>,
    cands: &[Cand],
) -> Result<(), Memory>
    ensures { OnOk result (copies.new ≡ copies.old ++ without_hidden known.now cands.now) }
{
    for cand in cands {
        if !known.contains(cand.word()) {
            copies.push(cand.copy(alloc)?)?;
        }
    }
    Ok(())
}

// Makes the words of candidates known.
fn know_cands<'a>(known: &mut WordRefs<'a>, cands: &'a [Cand]) -> Result<(), Memory>
    ensures { OnOk result (known.new ≡ fold (with_new (λ text. text)) known.old (words_of cands.now)) }
{
    for cand in cands {
        known.insert(cand.word())?;
    }
    Ok(())
}
