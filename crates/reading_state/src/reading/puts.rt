ghost use Rattle.std.specs.Prelude.{◌≡◌, ◌≤◌, ◌+◌, ◌++◌, ◌∷◌, ◌||◌, [], true, false, None, is_some, IfOk, IfSome};
ghost use Rattle.std.specs.Prelude.{IsNone, OnErr};
ghost use Rattle.skk_text.specs.Lists.{is_empty};
ghost use Rattle.skk_text.specs.Text.{byte_len};
ghost use Rattle.skk_calls.specs.Rows.{begins_well, okuri_limit, reading_limit};
ghost use Rattle.skk_calls.specs.declared.part.Part.TheVariants.{Nasi};
ghost use Rattle.romaji_rules.specs.Typed.{flushed, extends_pending};
ghost use Rattle.reading_state.specs.Puts.{may_read, may_end, refusal, unless_refused, put};
ghost use Rattle.reading_state.specs.Reading.{with_pending, flush, feed};

use super::Reading;
use romaji_rules::{Kana, Pending, Rules};
use skk_calls::{OKURI_LIMIT, READING_LIMIT, are_okuri_chars, are_reading_chars, begins_well};
use skk_text::{Memory, Notice, Text};
use std::alloc::Global;

// What of a piece is put at the end of a text: all of it, or nothing and the notice of that.
#[derive(Drop)]
pub(super) struct AcceptedPiece {
    pub(super) text: Text,
    pub(super) notice: Notice,
}

impl AcceptedPiece {
    // All of a piece is put.
    fn all(piece: Text) -> AcceptedPiece
        ensures { result ≡ record { text = piece; notice = Notice.Empty } }
    {
        AcceptedPiece {
            text: piece,
            notice: Notice::Empty,
        }
    }

    // Nothing of a piece is put.
    fn nothing(alloc: Global, notice: Notice) -> AcceptedPiece
        ensures { result ≡ record { text = []; notice = notice } }
    {
        AcceptedPiece {
            text: Text::new(alloc),
            notice,
        }
    }
}

impl Reading {
    // Puts a piece behind the okurigana where one was begun, or else behind the reading,
    // and leaves these letters pending.
    pub(crate) fn put(
        &mut self,
        alloc: Global,
        piece: Text,
        pending: Pending,
    ) -> Result<Notice, Memory>
        ensures ok { IfOk result (λ notice. put (with_pending self.old pending) piece
            ≡ record { reading = self.new; notice = notice }) }
        ensures err { OnErr result (self.new ≡ self.old) }
    {
        let notice = match &mut self.okuri {
            Some(begun) => {
                let accepted = accepted_by_okuri(alloc, &begun.text, piece);
                push_accepted(&mut begun.text, &accepted)?
            }
            None => {
                let accepted = accepted_by_reading(alloc, &self.text, piece);
                push_accepted(&mut self.text, &accepted)?
            }
        };
        self.pending = pending;
        Ok(notice)
    }

    // Puts the hiragana of what is pending.
    pub(crate) fn flush(&mut self, alloc: Global, rules: &Rules) -> Result<Notice, Memory>
        ensures ok { IfOk result (λ notice. flush rules.now self.old ≡ record { reading = self.new; notice = notice }) }
        ensures err { OnErr result (self.new ≡ self.old) }
    {
        let flushed = self.pending_kana(alloc, rules)?;
        self.put(alloc, flushed, Pending::new())
    }

    // The hiragana of what is pending.
    pub(super) fn pending_kana(&self, alloc: Global, rules: &Rules) -> Result<Text, Memory>
        ensures { IfOk result (λ text. text ≡ (flushed rules.now self.now.pending).hira) }
    {
        let mut pending = self.pending.copied();
        rules.flush(&mut pending).text(alloc, Kana::Hiragana)
    }

    // What is put of the hiragana of what is pending, where no okurigana was begun.
    pub(super) fn accepted_flush(
        &self,
        alloc: Global,
        rules: &Rules,
    ) -> Result<AcceptedPiece, Memory>
        requires { self.now.okuri ≡ None }
        ensures flush { IfOk result (λ accepted. flush rules.now self.now ≡ record {
          reading = record {
            text = self.now.text ++ accepted.text;
            is_abbrev = self.now.is_abbrev;
            okuri = None;
            pending = [];
            completions = self.now.completions;
          };
          notice = accepted.notice;
        }) }
        ensures may { IfOk result (λ accepted. may_read (self.now.text ++ accepted.text) ≡ true) }
    {
        let flushed = self.pending_kana(alloc, rules)?;
        Ok(accepted_by_reading(alloc, &self.text, flushed))
    }

    // Puts the hiragana of a character that the rules read.
    pub(crate) fn feed(&mut self, alloc: Global, rules: &Rules, c: u8) -> Result<Notice, Memory>
        ensures ok { IfOk result (λ notice. feed rules.now self.old c
            ≡ record { reading = self.new; notice = notice }) }
        ensures err { OnErr result (self.new ≡ self.old) }
    {
        let mut pending = self.pending.copied();
        let piece = rules.feed(&mut pending, c).text(alloc, Kana::Hiragana)?;
        self.put(alloc, piece, pending)
    }

    // Puts the hiragana of a character that goes on with what is pending; else nothing changes.
    pub(crate) fn extend(
        &mut self,
        alloc: Global,
        rules: &Rules,
        c: u8,
    ) -> Result<Option<Notice>, Memory>
        ensures exact { IfOk result (λ found. is_some found ≡ extends_pending rules.now self.old.pending c) }
        ensures some { IfOk result (λ found. IfSome found (λ notice. feed rules.now self.old c
            ≡ record { reading = self.new; notice = notice })) }
        ensures none { IfOk result (λ found. IsNone found → self.new ≡ self.old) }
        ensures err { OnErr result (self.new ≡ self.old) }
    {
        let mut pending = self.pending.copied();
        match rules.extend(&mut pending, c) {
            Some(out) => {
                let piece = out.text(alloc, Kana::Hiragana)?;
                Ok(Some(self.put(alloc, piece, pending)?))
            }
            None => Ok(None),
        }
    }

    // Puts the hiragana of a character that does not go on with what is pending.
    pub(crate) fn feed_anew(
        &mut self,
        alloc: Global,
        rules: &Rules,
        c: u8,
    ) -> Result<Notice, Memory>
        requires { extends_pending rules.now self.old.pending c ≡ false }
        ensures ok { IfOk result (λ notice. feed rules.now self.old c
            ≡ record { reading = self.new; notice = notice }) }
        ensures err { OnErr result (self.new ≡ self.old) }
    {
        let mut pending = self.pending.copied();
        let piece = rules
            .feed_anew(&mut pending, c)
            .text(alloc, Kana::Hiragana)?;
        self.put(alloc, piece, pending)
    }

    // Puts a character of an abbreviation as itself.
    pub(crate) fn put_itself(&mut self, alloc: Global, c: u8) -> Result<Notice, Memory>
        ensures ok { IfOk result (λ notice. put self.old (c ∷ []) ≡ record { reading = self.new; notice = notice }) }
        ensures err { OnErr result (self.new ≡ self.old) }
    {
        let mut piece = Text::new(alloc);
        piece.push(c as char)?;
        let pending = self.pending.copied();
        self.put(alloc, piece, pending)
    }
}

// Puts what is accepted at the end of a text, and gives the notice of that.
fn push_accepted(text: &mut Text, accepted: &AcceptedPiece) -> Result<Notice, Memory>
    ensures notice { IfOk result (λ notice. notice ≡ accepted.now.notice) }
    ensures text { IfOk result (λ notice. text.new ≡ text.old ++ accepted.now.text) }
    ensures err { OnErr result (text.new ≡ text.old) }
{
    text.push_str(accepted.text.as_str())?;
    Ok(accepted.notice)
}

// What of a piece is put at the end of a reading. Takes time in the piece's length.
#[tactic(auto, using(crate::proofs::Texts::may_reads))]
fn accepted_by_reading(alloc: Global, text: &Text, piece: Text) -> AcceptedPiece
    requires { may_read text.now ≡ true }
    ensures notice { result.notice ≡ refusal (reading_limit Nasi) may_read text.now piece }
    ensures text { text.now ++ result.text ≡ unless_refused result.notice text.now piece }
    ensures may { may_read (text.now ++ result.text) ≡ true }
{
    if piece.byte_len() > READING_LIMIT - text.byte_len() {
        return AcceptedPiece::nothing(alloc, Notice::Limit);
    }
    if !may_read_behind(text, &piece) {
        return AcceptedPiece::nothing(alloc, Notice::Reading);
    }
    AcceptedPiece::all(piece)
}

// What of a piece is put at the end of an okurigana. Takes time in the piece's length.
#[tactic(auto, using(crate::proofs::Texts::may_reads))]
pub(super) fn accepted_by_okuri(alloc: Global, text: &Text, piece: Text) -> AcceptedPiece
    requires { may_end text.now ≡ true }
    ensures notice { result.notice ≡ refusal okuri_limit may_end text.now piece }
    ensures text { text.now ++ result.text ≡ unless_refused result.notice text.now piece }
    ensures may { may_end (text.now ++ result.text) ≡ true }
{
    if piece.byte_len() > OKURI_LIMIT - text.byte_len() {
        return AcceptedPiece::nothing(alloc, Notice::Limit);
    }
    if !may_end_behind(text, &piece) {
        return AcceptedPiece::nothing(alloc, Notice::Reading);
    }
    AcceptedPiece::all(piece)
}

// Whether a text with a piece behind it is empty.
#[tactic(auto, using(crate::proofs::Texts::is_empty_append))]
pub(super) fn both_empty(text: &Text, piece: &Text) -> bool
    ensures { result ≡ is_empty (text.now ++ piece.now) }
{
    text.is_empty() && piece.is_empty()
}

// Whether a reading with a piece behind it may be one, where it is not too long.
#[tactic(auto, using(crate::proofs::Texts::may_reads))]
fn may_read_behind(text: &Text, piece: &Text) -> bool
    requires may { may_read text.now ≡ true }
    requires fits { byte_len text.now + byte_len piece.now ≤ reading_limit Nasi }
    ensures { result ≡ may_read (text.now ++ piece.now) }
{
    are_reading_chars(piece.as_str()) && (!text.is_empty() || may_begin(piece))
}

// Whether an okurigana with a piece behind it may be one, where it is not too long.
#[tactic(auto, using(crate::proofs::Texts::may_reads))]
fn may_end_behind(text: &Text, piece: &Text) -> bool
    requires may { may_end text.now ≡ true }
    requires fits { byte_len text.now + byte_len piece.now ≤ okuri_limit }
    ensures { result ≡ may_end (text.now ++ piece.now) }
{
    are_okuri_chars(piece.as_str())
}

// Whether a text is empty, or begins as a reading does.
fn may_begin(text: &Text) -> bool
    ensures { result ≡ (is_empty text.now || begins_well text.now) }
{
    text.is_empty() || begins_well(text.as_str())
}
