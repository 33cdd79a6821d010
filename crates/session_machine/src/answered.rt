ghost use Rattle.std.specs.Prelude.{◌≡◌};
ghost use Rattle.session_machine.specs.Answered.{answer_notice, learnt_by, reply_notice, says_annotated};
ghost use Rattle.session_machine.specs.Answered.{says_purged};
ghost use Rattle.session_machine.specs.Converted.{found_by};

use crate::session_notice::SessionNotice;
use skk_calls::{Answer, FoundCands, Learned, Refusal, Reply};
use skk_text::Notice;

// What an answer tells.
pub(crate) fn notice_of(answer: &Answer) -> SessionNotice
    ensures { result ≡ answer_notice answer.now }
{
    match answer {
        Answer::Done(reply) => reply_notice(reply),
        Answer::Refused(refusal) => SessionNotice::Refused(*refusal),
    }
}

// What a reply tells: nothing where something was found or learnt, or a list of books was given.
fn reply_notice(reply: &Reply) -> SessionNotice
    ensures { result ≡ reply_notice reply.now }
{
    match reply {
        Reply::Found(_) | Reply::Readings(_) | Reply::Learned(_) | Reply::Shared => {
            SessionNotice::Step(Notice::Empty)
        }
        Reply::Purged => SessionNotice::Purged,
        Reply::Annotated => SessionNotice::Annotated,
        Reply::Unchanged => SessionNotice::Unchanged,
        Reply::Restored => SessionNotice::Undone,
        Reply::Overtaken(stamp) => SessionNotice::Overtaken(*stamp),
        Reply::TooBig(length) => SessionNotice::TooBig(*length),
        Reply::StampsEnd => SessionNotice::StampsEnd,
    }
}

// What an answer says was learnt.
pub(crate) fn learnt_by(answer: Answer) -> Option<Learned>
    ensures { result ≡ learnt_by answer }
{
    match answer {
        Answer::Done(Reply::Learned(learned)) => Some(learned),
        Answer::Done(_) | Answer::Refused(_) => None,
    }
}

// Whether an answer says that a word is found no more.
pub(crate) fn says_purged(answer: &Answer) -> bool
    ensures { result ≡ says_purged answer.now }
{
    matches!(answer, Answer::Done(Reply::Purged | Reply::Unchanged))
}

// Whether an answer says that a candidate has a note.
pub(crate) fn says_annotated(answer: &Answer) -> bool
    ensures { result ≡ says_annotated answer.now }
{
    matches!(answer, Answer::Done(Reply::Annotated | Reply::Unchanged))
}

// The candidates that an answer found; or else the refusal, where it is one.
pub(crate) fn found_by(answer: Answer) -> Result<FoundCands, Option<Refusal>>
    ensures { result ≡ found_by answer }
{
    match answer {
        Answer::Done(Reply::Found(found)) => Ok(found),
        Answer::Done(_) => Err(None),
        Answer::Refused(refusal) => Err(Some(refusal)),
    }
}
