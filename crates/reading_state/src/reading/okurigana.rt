ghost use Rattle.std.specs.Prelude.{◌≡◌, ◌≢◌, ◌≤◌, ◌&&◌, not, true, [], None, Some, IsTrue, IfOk, OnErr};
ghost use Rattle.skk_text.specs.Lists.{is_empty};
ghost use Rattle.reading_state.specs.Puts.{may_end, later_notice};
ghost use Rattle.reading_state.specs.Keys.{kana_of};
ghost use Rattle.reading_state.specs.Reading.{put_upper, begin_okuri, flush, is_whole, is_alone, is_doubled};
ghost use Rattle.reading_state.specs.Reading.{is_empty_okuri, is_filled_okuri};

use super::puts::{accepted_by_okuri, both_empty};
use super::{BegunOkuri, Reading};
use romaji_rules::{Kana, Pending, Rules};
use skk_calls::Okuri;
use skk_text::{Copies, Memory, Notice, Text};
use std::alloc::Global;

impl BegunOkuri {
    // The okurigana, where it has a kana.
    pub(super) fn okuri(&self, alloc: Global) -> Result<Option<Okuri>, Memory>
        requires { may_end self.now.text ≡ true }
        ensures { IfOk result (λ okuri. okuri ≡ kana_of (Some self.now)) }
    {
        if self.text.is_empty() {
            return Ok(None);
        }
        Ok(Some(Okuri::new(self.text.copy(alloc)?).unwrap()))
    }
}

impl Reading {
    // Whether an okurigana has a kana, and nothing is pending.
    pub(crate) fn is_whole(&self) -> bool
        ensures value { result ≡ is_whole self.now }
        ensures convertible { IsTrue result → self.now.text ≢ [] }
    {
        self.has_kana() && self.pending.is_empty()
    }

    // Whether an okurigana was begun, and has a kana.
    pub(super) fn has_kana(&self) -> bool
        ensures { result ≡ is_filled_okuri self.now.okuri }
    {
        match &self.okuri {
            Some(begun) => !begun.text.is_empty(),
            None => false,
        }
    }

    // Whether an okurigana was begun, and has no kana yet.
    pub(super) fn lacks_kana(&self) -> bool
        ensures { result ≡ is_empty_okuri self.now.okuri }
    {
        match &self.okuri {
            Some(begun) => begun.text.is_empty(),
            None => false,
        }
    }

    // Puts what the lower-case letter of an upper-case one puts: it goes on with an okurigana, or begins one.
    #[tactic(auto, using(crate::proofs::Texts::doubled_may_end))]
    pub(crate) fn put_upper(
        &mut self,
        alloc: Global,
        rules: &Rules,
        letter: u8,
    ) -> Result<Notice, Memory>
        requires from { 0x61 ≤ letter }
        requires to { letter ≤ 0x7A }
        ensures ok { IfOk result (λ notice. put_upper rules.now self.old self.old.okuri letter
            ≡ record { reading = self.new; notice = notice }) }
        ensures err { OnErr result (self.new ≡ self.old) }
    {
        if self.okuri.is_some() {
            return self.feed(alloc, rules, letter);
        }
        if self.is_doubled_by(letter) {
            let mut text = Text::new(alloc);
            text.push('っ')?;
            self.okuri = Some(BegunOkuri { letter, text });
            return Ok(Notice::Empty);
        }
        self.begin_okuri(alloc, rules, letter)
    }

    // Whether a letter stands alone behind a reading already, and is a consonant that is doubled there.
    fn is_doubled_by(&self, letter: u8) -> bool
        ensures { result ≡ (is_alone letter self.now.pending && is_doubled letter && not (is_empty self.now.text)) }
    {
        let is_consonant = !matches!(letter, b'a' | b'i' | b'u' | b'e' | b'o' | b'n');
        is_consonant && self.pending.as_slice() == [letter].as_slice() && !self.text.is_empty()
    }

    // Begins an okurigana behind what is flushed, and reads its letter;
    // behind an empty reading it reads the letter alone.
    fn begin_okuri(&mut self, alloc: Global, rules: &Rules, letter: u8) -> Result<Notice, Memory>
        requires none { self.old.okuri ≡ None }
        requires from { 0x61 ≤ letter }
        requires to { letter ≤ 0x7A }
        ensures ok { IfOk result (λ notice. begin_okuri rules.now (flush rules.now self.old) letter
            ≡ record { reading = self.new; notice = notice }) }
        ensures err { OnErr result (self.new ≡ self.old) }
    {
        let mut pending = Pending::new();
        let fed = rules
            .feed(&mut pending, letter)
            .text(alloc, Kana::Hiragana)?;
        let flushed = self.accepted_flush(alloc, rules)?;
        if both_empty(&self.text, &flushed.text) {
            let notice = self.put(alloc, fed, pending)?;
            return Ok(later_notice(flushed.notice, notice));
        }
        let kana = accepted_by_okuri(alloc, &Text::new(alloc), fed);
        self.text.push_str(flushed.text.as_str())?;
        self.okuri = Some(BegunOkuri {
            letter,
            text: kana.text,
        });
        self.pending = pending;
        Ok(later_notice(flushed.notice, kana.notice))
    }
}

// The notice that stands where two are given one after another.
fn later_notice(first: Notice, second: Notice) -> Notice
    ensures { result ≡ later_notice first second }
{
    match second {
        Notice::Empty => first,
        _ => second,
    }
}
