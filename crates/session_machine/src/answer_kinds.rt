ghost use Rattle.std.specs.Prelude.{◌≡◌};
ghost use Rattle.std.specs.List.{list_all};
ghost use Rattle.skk_calls.specs.Dictionary.{is_plain_reading, may_answer, may_refuse, may_reply};

use skk_calls::{Answer, Call, READING_LIMIT, Refusal, Reply, are_reading_chars, begins_well};
use skk_text::{Text, Texts};

// Whether a call may get an answer.
pub(crate) fn may_answer(call: &Call, answer: &Answer) -> bool
    ensures { result ≡ may_answer call.now answer.now }
{
    match answer {
        Answer::Done(reply) => may_reply(call, reply),
        Answer::Refused(refusal) => may_refuse(call, *refusal),
    }
}

// Whether a call may get a reply.
fn may_reply(call: &Call, reply: &Reply) -> bool
    ensures { result ≡ may_reply call.now reply.now }
{
    match (call, reply) {
        (Call::Lookup { .. }, Reply::Found(_)) => true,
        (Call::Complete { .. }, Reply::Readings(readings)) => are_plain_readings(readings),
        (Call::Learn { .. }, Reply::Learned(_) | Reply::TooBig(_) | Reply::StampsEnd) => true,
        (
            Call::Purge { .. },
            Reply::Purged | Reply::Unchanged | Reply::TooBig(_) | Reply::StampsEnd,
        ) => true,
        (
            Call::Annotate { .. },
            Reply::Annotated | Reply::Unchanged | Reply::TooBig(_) | Reply::StampsEnd,
        ) => true,
        (Call::Share { .. }, Reply::Shared | Reply::Unchanged) => true,
        (Call::Unlearn { .. }, Reply::Restored | Reply::Overtaken(_)) => true,
        _ => false,
    }
}

// Whether a call may be refused so.
fn may_refuse(call: &Call, refusal: Refusal) -> bool
    ensures { result ≡ may_refuse call.now refusal }
{
    match (call, refusal) {
        (_, Refusal::Memory) => true,
        (Call::Lookup { .. } | Call::Complete { .. }, _) => false,
        _ => true,
    }
}

// Whether each text is a reading that is valid without okurigana.
fn are_plain_readings(readings: &Texts) -> bool
    ensures { result ≡ list_all is_plain_reading readings.now }
{
    readings.iter().all(is_plain_reading)
}

// Whether a text is a reading that is valid without okurigana.
fn is_plain_reading(reading: &Text) -> bool
    ensures { result ≡ is_plain_reading reading.now }
{
    let text = reading.as_str();
    begins_well(text) && are_reading_chars(text) && reading.byte_len() <= READING_LIMIT
}
