ghost use Rattle.std.specs.Prelude.{◌≡◌, ◌≢◌, ◌<◌, suc, [], true, false, Some, length, is_some, slice_get, IfOk};
ghost use Rattle.std.specs.Prelude.{IfSome, OnErr};
ghost use Rattle.std.specs.List.{list_all};
ghost use Rattle.skk_text.specs.Lists.{is_empty};
ghost use Rattle.skk_calls.specs.Dictionary.{is_plain_reading};
ghost use Rattle.reading_state.specs.Puts.{may_read};
ghost use Rattle.reading_state.specs.Reading.{completed, completion_step, next_step, previous_step};
ghost use Rattle.reading_state.specs.Reading.{without_completions};

use super::Reading;
use crate::reading_do::{ReadingDo, ReadingThen};
use skk_text::{Copies, Memory, Notice, Text, Texts};
use std::alloc::Global;
use std::marker::Model;

/// Readings that complete what was typed, each valid without okurigana, and the place of the one that is shown, which
/// is below their number.
#[derive(Drop)]
pub struct Completions {
    readings: Texts,
    place: usize,
}

impl Model for Completions {
    ghost use Rattle.std.specs.Prelude.{◌≡◌, true};
    ghost use Rattle.reading_state.specs.Puts.{Completions, may_complete};

    ghost Value = { Completions };

    ghost view = { λ c. record { readings = c.readings; place = c.place } };

    ghost invariant = { λ c. may_complete (record { readings = c.readings; place = c.place }) ≡ true };
}

impl Completions {
    // The first of these readings is shown.
    fn new(readings: Texts) -> Completions
        requires some { readings ≢ [] }
        requires valid { list_all is_plain_reading readings ≡ true }
        ensures { result ≡ record { readings = readings; place = 0 } }
    {
        Completions { readings, place: 0 }
    }

    // The reading of a place that there is.
    #[tactic(auto, using(crate::proofs::Texts::completions_read))]
    fn reading(&self, alloc: Global, place: usize) -> Result<Text, Memory>
        requires { place < length self.now.readings }
        ensures same { IfOk result (λ text. slice_get self.now.readings place ≡ Some text) }
        ensures may { IfOk result (λ text. may_read text ≡ true) }
        ensures some { IfOk result (λ text. is_empty text ≡ false) }
    {
        self.readings.at(place).copy(alloc)
    }

    // The place behind the one that is shown, which may be that of no reading.
    fn next_place(&self) -> usize
        ensures { result ≡ suc self.now.place }
    {
        let count = self.readings.len();
        if self.place < count {
            self.place + 1
        } else {
            count
        }
    }

    // Shows the reading of a place that there is.
    fn go_to(&mut self, place: usize)
        requires { place < length self.old.readings }
        ensures { self.new ≡ record { readings = self.old.readings; place = place } }
    {
        self.place = place;
    }
}

impl Copies for Completions {
    fn copy(&self, alloc: Global) -> Result<Completions, Memory> {
        Ok(Completions {
            readings: self.readings.copy(alloc)?,
            place: self.place,
        })
    }
}

impl Reading {
    /// Takes the readings that complete this one: the first of them replaces it, and all are kept. Where there are
    /// none, and after `Memory`, the reading is as before. Takes time in the length of the first.
    #[tactic(auto, using(crate::proofs::Steps::refitted))]
    pub fn complete(&mut self, alloc: Global, readings: Texts) -> Result<Notice, Memory>
        requires { list_all is_plain_reading readings ≡ true }
        ensures ok { IfOk result (λ notice. completed self.old readings
            ≡ record { reading = self.new; notice = notice }) }
        ensures err { OnErr result (self.new ≡ self.old) }
    {
        if readings.is_empty() {
            return Ok(Notice::NoCompletion);
        }
        let kept = Completions::new(readings);
        self.text = kept.reading(alloc, 0)?;
        self.completions = Some(kept);
        Ok(Notice::Empty)
    }

    // Whether completions are kept.
    pub(crate) fn keeps_completions(&self) -> bool
        ensures { result ≡ is_some self.now.completions }
    {
        self.completions.is_some()
    }

    // Takes the completions out, where they are kept.
    pub(crate) fn take_completions(&mut self) -> Option<Completions>
        ensures taken { result ≡ self.old.completions }
        ensures without { self.new ≡ without_completions self.old }
    {
        self.completions.take()
    }

    // Keeps completions, or none.
    pub(crate) fn put_completions(&mut self, kept: Option<Completions>)
        ensures { self.new ≡ record self.old { completions = kept } }
    {
        self.completions = kept;
    }

    // Shows the completion after the one that is shown, where completions are kept and there is one.
    pub(crate) fn show_next(&mut self, alloc: Global) -> Result<ReadingDo, Memory>
        ensures ok { IfOk result (λ done. IfSome self.old.completions (λ kept. next_step self.old kept
            ≡ record { reading = self.new; done = done })) }
        ensures err { OnErr result (self.new ≡ self.old) }
        ensures stays { IfOk result (λ done. done.then ≡ ReadingThen.Stay) }
    {
        let place = match &self.completions {
            Some(kept) => kept.next_place(),
            None => return Ok(no_more()),
        };
        self.show(alloc, place)
    }

    // Shows the completion before the one that is shown, where completions are kept and there is one.
    pub(crate) fn show_previous(&mut self, alloc: Global) -> Result<ReadingDo, Memory>
        ensures ok { IfOk result (λ done. IfSome self.old.completions (λ kept. previous_step self.old kept
            ≡ record { reading = self.new; done = done })) }
        ensures err { OnErr result (self.new ≡ self.old) }
        ensures stays { IfOk result (λ done. done.then ≡ ReadingThen.Stay) }
    {
        let place = match &self.completions {
            Some(kept) => kept.place,
            None => return Ok(no_more()),
        };
        if place == 0 {
            return Ok(no_more());
        }
        self.show(alloc, place - 1)
    }

    // Shows the completion of a place, where completions are kept and there is one.
    #[tactic(auto, using(crate::proofs::Steps::refitted))]
    fn show(&mut self, alloc: Global, place: usize) -> Result<ReadingDo, Memory>
        ensures ok { IfOk result (λ done. IfSome self.old.completions (λ kept. completion_step self.old kept place
            ≡ record { reading = self.new; done = done })) }
        ensures err { OnErr result (self.new ≡ self.old) }
        ensures stays { IfOk result (λ done. done.then ≡ ReadingThen.Stay) }
    {
        let Some(kept) = &mut self.completions else {
            return Ok(no_more());
        };
        if kept.readings.len() <= place {
            return Ok(no_more());
        }
        self.text = kept.reading(alloc, place)?;
        kept.go_to(place);
        Ok(ReadingDo::new(Notice::Empty, ReadingThen::Stay))
    }
}

// There is no other completion on that side.
fn no_more() -> ReadingDo
    ensures { result ≡ record { notice = Notice.NoMore; then = ReadingThen.Stay } }
{
    ReadingDo::new(Notice::NoMore, ReadingThen::Stay)
}
