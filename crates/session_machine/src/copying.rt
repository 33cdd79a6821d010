ghost use Rattle.std.specs.Prelude.{◌≡◌, IfOk};
ghost use Rattle.std.specs.Option.{option_copied};

use crate::frame::{Choice, Conversion, Frame, FrameState, OuterFrame, Waiting};
use crate::headword::Headword;
use crate::session::Session;
use skk_calls::{Answer, Call, Learned, Reply};
use skk_text::{Copies, Memory, copies_of, copy_of};
use std::alloc::Global;

impl Copies for Session {
    fn copy(&self, alloc: Global) -> Result<Session, Memory> {
        Ok(Session {
            typist: self.typist,
            book: self.book,
            frame: self.frame.copy(alloc)?,
            outer: copies_of(alloc, &self.outer)?.into_vec(),
            notice: self.notice,
        })
    }
}

impl Copies for Frame {
    fn copy(&self, alloc: Global) -> Result<Frame, Memory> {
        Ok(Frame {
            text: self.text.copy(alloc)?,
            mode: self.mode,
            state: self.state.copy(alloc)?,
            last_choice: copy_of(alloc, self.last_choice.as_ref())?,
        })
    }
}

impl Copies for OuterFrame {
    fn copy(&self, alloc: Global) -> Result<OuterFrame, Memory> {
        Ok(OuterFrame {
            text: self.text.copy(alloc)?,
            mode: self.mode,
            waiting: self.waiting.copy(alloc)?,
            last_choice: copy_of(alloc, self.last_choice.as_ref())?,
        })
    }
}

impl Copies for FrameState {
    fn copy(&self, alloc: Global) -> Result<FrameState, Memory> {
        match self {
            FrameState::Plain(pending) => Ok(FrameState::Plain(pending.copied())),
            FrameState::Reading(reading) => Ok(FrameState::Reading(reading.copy(alloc)?)),
            FrameState::Picking(conversion) => Ok(FrameState::Picking(conversion.copy(alloc)?)),
        }
    }
}

impl Copies for Waiting {
    fn copy(&self, alloc: Global) -> Result<Waiting, Memory> {
        match self {
            Waiting::Reading(reading) => Ok(Waiting::Reading(reading.copy(alloc)?)),
            Waiting::Picking(conversion) => Ok(Waiting::Picking(conversion.copy(alloc)?)),
            Waiting::Note(conversion) => Ok(Waiting::Note(conversion.copy(alloc)?)),
        }
    }
}

impl Copies for Headword {
    fn copy(&self, alloc: Global) -> Result<Headword, Memory> {
        Ok(Headword::new(self.reading().copy(alloc)?))
    }
}

impl Copies for Conversion {
    fn copy(&self, alloc: Global) -> Result<Conversion, Memory> {
        Ok(Conversion {
            reading: self.reading.copy(alloc)?,
            picking: self.picking.copy(alloc)?,
        })
    }
}

impl Copies for Choice {
    fn copy(&self, alloc: Global) -> Result<Choice, Memory> {
        Ok(Choice {
            inserted: self.inserted,
            end: self.end,
            mode: self.mode,
            conversion: self.conversion.copy(alloc)?,
            learned: copy_of_learned(alloc, self.learned.as_ref())?,
        })
    }
}

// A copy of what was learnt, where something was.
fn copy_of_learned(alloc: Global, learned: Option<&Learned>) -> Result<Option<Learned>, Memory>
    ensures { IfOk result (λ copy. copy ≡ option_copied learned.entry) }
{
    match learned {
        Some(learned) => Ok(Some(copy_learned(alloc, learned)?)),
        None => Ok(None),
    }
}

// An equal value of what was learnt.
fn copy_learned(alloc: Global, learned: &Learned) -> Result<Learned, Memory>
    ensures { IfOk result (λ copy. copy ≡ learned.now) }
{
    let key = learned.key().copy(alloc)?;
    let before = copy_of(alloc, learned.before())?;
    Ok(Learned::new(learned.book(), key, learned.stamp(), before))
}

/// An equal call. Takes time in what the call holds.
pub fn copy_call(alloc: Global, call: &Call) -> Result<Call, Memory>
    ensures { IfOk result (λ copy. copy ≡ call.now) }
{
    match call {
        Call::Lookup { who, key, okuri } => Ok(Call::Lookup {
            who: *who,
            key: key.copy(alloc)?,
            okuri: copy_of(alloc, okuri.as_ref())?,
        }),
        Call::Complete { who, prefix } => Ok(Call::Complete {
            who: *who,
            prefix: prefix.copy(alloc)?,
        }),
        Call::Learn {
            book,
            key,
            okuri,
            cand,
        } => Ok(Call::Learn {
            book: *book,
            key: key.copy(alloc)?,
            okuri: copy_of(alloc, okuri.as_ref())?,
            cand: cand.copy(alloc)?,
        }),
        Call::Purge { book, key, word } => Ok(Call::Purge {
            book: *book,
            key: key.copy(alloc)?,
            word: word.copy(alloc)?,
        }),
        Call::Annotate { book, key, cand } => Ok(Call::Annotate {
            book: *book,
            key: key.copy(alloc)?,
            cand: cand.copy(alloc)?,
        }),
        Call::Share { who, books } => Ok(Call::Share {
            who: *who,
            books: books.copied(),
        }),
        Call::Unlearn { learned } => Ok(Call::Unlearn {
            learned: copy_learned(alloc, learned)?,
        }),
    }
}

/// An equal answer. Takes time in what the answer holds.
pub fn copy_answer(alloc: Global, answer: &Answer) -> Result<Answer, Memory>
    ensures { IfOk result (λ copy. copy ≡ answer.now) }
{
    match answer {
        Answer::Done(reply) => Ok(Answer::Done(copy_reply(alloc, reply)?)),
        Answer::Refused(refusal) => Ok(Answer::Refused(*refusal)),
    }
}

// An equal reply.
fn copy_reply(alloc: Global, reply: &Reply) -> Result<Reply, Memory>
    ensures { IfOk result (λ copy. copy ≡ reply.now) }
{
    match reply {
        Reply::Found(found) => Ok(Reply::Found(found.copy(alloc)?)),
        Reply::Readings(readings) => Ok(Reply::Readings(readings.copy(alloc)?)),
        Reply::Learned(learned) => Ok(Reply::Learned(copy_learned(alloc, learned)?)),
        Reply::Purged => Ok(Reply::Purged),
        Reply::Unchanged => Ok(Reply::Unchanged),
        Reply::Restored => Ok(Reply::Restored),
        Reply::Annotated => Ok(Reply::Annotated),
        Reply::Shared => Ok(Reply::Shared),
        Reply::Overtaken(stamp) => Ok(Reply::Overtaken(*stamp)),
        Reply::TooBig(length) => Ok(Reply::TooBig(*length)),
        Reply::StampsEnd => Ok(Reply::StampsEnd),
    }
}
