ghost use Rattle.std.specs.Prelude.{◌≡◌, ◌≢◌, ◌++◌, ◌∷◌, [], true, false, IfOk, IfSome, IsSome, IsNone, OnErr};
ghost use Rattle.skk_text.specs.Lists.{is_empty};
ghost use Rattle.skk_calls.specs.Rows.{reading_limit};
ghost use Rattle.skk_calls.specs.declared.part.Part.TheVariants.{Nasi};
ghost use Rattle.reading_state.specs.Puts.{may_read, refusal, unless_refused, later_notice};
ghost use Rattle.reading_state.specs.Reading.{flush, ends_prefix, prefix_step};
ghost use Rattle.reading_state.specs.declared.reading_do.ReadingThen.TheVariants.{Convert};

use super::Reading;
use super::puts::{AcceptedPiece, both_empty};
use romaji_rules::{Pending, Rules};
use skk_calls::READING_LIMIT;
use skk_text::{Memory, Notice, Text};
use std::alloc::Global;

impl Reading {
    // Puts `>` behind what is flushed, and gives the notice of that, where it ends a prefix; else nothing changes.
    pub(crate) fn end_prefix(
        &mut self,
        alloc: Global,
        rules: &Rules,
    ) -> Result<Option<Notice>, Memory>
        ensures some { IfOk result
            (λ found. IfSome found (λ notice. (ends_prefix self.old.okuri (flush rules.now self.old) ≡ true)
            × (prefix_step (flush rules.now self.old)
            ≡ record { reading = self.new; done = record { notice = notice; then = Convert } }))) }
        ensures convertible { IfOk result (λ found. IsSome found → self.new.text ≢ []) }
        ensures none { IfOk result (λ found. IsNone found
            → (ends_prefix self.old.okuri (flush rules.now self.old) ≡ false) × (self.new ≡ self.old)) }
        ensures err { OnErr result (self.new ≡ self.old) }
    {
        if self.okuri.is_some() {
            return Ok(None);
        }
        let flushed = self.accepted_flush(alloc, rules)?;
        if both_empty(&self.text, &flushed.text) {
            return Ok(None);
        }
        let added = with_mark(&self.text, flushed)?;
        self.text.push_str(added.text.as_str())?;
        self.pending = Pending::new();
        Ok(Some(added.notice))
    }
}

// What is put of a piece and of `>` behind it, at the end of a reading that is not empty then.
#[tactic(auto, using(crate::proofs::Texts::marks))]
fn with_mark(text: &Text, piece: AcceptedPiece) -> Result<AcceptedPiece, Memory>
    requires may { may_read (text.now ++ piece.text) ≡ true }
    requires some { is_empty (text.now ++ piece.text) ≡ false }
    ensures notice { IfOk result (λ added. added.notice
        ≡ later_notice piece.notice (refusal (reading_limit Nasi) may_read (text.now ++ piece.text) (0x3E ∷ []))) }
    ensures text { IfOk result (λ added. text.now ++ added.text
        ≡ unless_refused (refusal (reading_limit Nasi) may_read (text.now ++ piece.text) (0x3E ∷ []))
        (text.now ++ piece.text) (0x3E ∷ [])) }
    ensures may { IfOk result (λ added. may_read (text.now ++ added.text) ≡ true) }
{
    let mut added = piece.text;
    if added.byte_len() >= READING_LIMIT - text.byte_len() {
        return Ok(AcceptedPiece {
            text: added,
            notice: Notice::Limit,
        });
    }
    added.push('>')?;
    Ok(AcceptedPiece {
        text: added,
        notice: piece.notice,
    })
}
