ghost use Rattle.std.specs.Prelude.{◌≡◌, ◌++◌, IfOk, OnOk};
ghost use Rattle.skk_calls.specs.Learning.{without_text, without_word};
ghost use Rattle.skk_calls.specs.Rows.{has_text, same_text};

use skk_calls::{Cand, Cands};
use skk_text::{Copies, Memory, Text, Texts};
use std::alloc::Global;

/// Whether two texts have the same characters.
pub fn is_same(text: &Text, other: &Text) -> bool
    ensures { result ≡ same_text text.now other.now }
{
    text.as_str() == other.as_str()
}

/// Whether a text stands among others.
pub fn has_text(texts: &[Text], text: &Text) -> bool
    ensures { result ≡ has_text texts.now text.now }
{
    texts.iter().any(|other| is_same(text, other))
}

/// Adds copies of texts, but for those that are the same as one.
pub fn add_texts_without(
    alloc: Global,
    copies: &mut Texts,
    texts: &[Text],
    text: &Text,
) -> Result<(), Memory>
    ensures { OnOk result (copies.new ≡ copies.old ++ without_text text.now texts.now) }
{
    for other in texts {
        if !is_same(other, text) {
            copies.push(other.copy(alloc)?)?;
        }
    }
    Ok(())
}

/// Adds copies of candidates, but for those of a word.
pub fn add_cands_without(
    alloc: Global,
    copies: &mut Cands,
    cands: &[Cand],
    word: &Text,
) -> Result<(), Memory>
    ensures { OnOk result (copies.new ≡ copies.old ++ without_word word.now cands.now) }
{
    for cand in cands {
        if !is_same(cand.word(), word) {
            copies.push(cand.copy(alloc)?)?;
        }
    }
    Ok(())
}

/// Copies of texts, but for those that are the same as one.
pub fn texts_without(alloc: Global, texts: &[Text], text: &Text) -> Result<Texts, Memory>
    ensures { IfOk result (λ copies. copies ≡ without_text text.now texts.now) }
{
    let mut copies = Texts::new(alloc);
    add_texts_without(alloc, &mut copies, texts, text)?;
    Ok(copies)
}

/// Copies of candidates, but for those of a word.
pub fn cands_without(alloc: Global, cands: &[Cand], word: &Text) -> Result<Cands, Memory>
    ensures { IfOk result (λ copies. copies ≡ without_word word.now cands.now) }
{
    let mut copies = Cands::new(alloc);
    add_cands_without(alloc, &mut copies, cands, word)?;
    Ok(copies)
}
