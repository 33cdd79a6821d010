ghost use Rattle.std.specs.Prelude.{◌≡◌, ◌<◌, ◌^◌, true};
ghost use Rattle.std.specs.List.{flat_map, list_all};
ghost use Rattle.skk_text.specs.Results.{AnswersUnless};
ghost use Rattle.skk_text.specs.Text.{byte_len};
ghost use Rattle.skk_calls.specs.Canonical.{with_slash};
ghost use Rattle.exact_readers.specs.Lacking.{lacks};
ghost use Rattle.dict_format.specs.Views.{texts_seen};
ghost use Rattle.skkserv_client.specs.Replies.{if_texts, nothing_told, texts_of_line, told_by_line, told_by_list};
ghost use Rattle.skkserv_client.specs.Replies.{told_by_texts};

use crate::gathering::{cands_of, readings_of};
use crate::question::Ask;
use crate::told::{AskFault, Told};
use dict_format::{bodies_have_one_list_of_texts, slashed_texts};
use exact_readers::past_char;
use skk_calls::Cands;
use skk_text::Texts;
use std::alloc::Global;
use std::str;

/// What the line of a reply tells, without its end.
#[tactic(auto, unfolding(crate::specs::Replies::told_by_line))]
pub fn told_by_line(alloc: Global, what: &Ask, line: &[u8]) -> Result<Told, AskFault>
    ensures { AnswersUnless AskFault.Memory result (told_by_line what.now line.now) }
{
    match line {
        [b'0', ..] => Err(AskFault::Refused),
        [b'1', ..] => told_by_list(alloc, what, line),
        [b'4', ..] => Ok(nothing_told(alloc, what)),
        _ => Err(AskFault::BadReply { at: 0 }),
    }
}

// That nothing was found.
fn nothing_told(alloc: Global, what: &Ask) -> Told
    ensures { result ≡ nothing_told what.now }
{
    match what {
        Ask::Look(_) => Told::Cands(Cands::new(alloc)),
        Ask::Complete(_) => Told::Readings(Texts::new(alloc)),
    }
}

// What a line tells that begins with `1`.
#[tactic(auto, unfolding(crate::specs::Replies::told_by_list))]
fn told_by_list(alloc: Global, what: &Ask, line: &[u8]) -> Result<Told, AskFault>
    ensures { AnswersUnless AskFault.Memory result (told_by_list what.now line.now) }
{
    match str::from_utf8(line) {
        Ok(line) => told_by_text(alloc, what, line),
        Err(fault) => Err(AskFault::BadReply {
            at: fault.valid_up_to() as u64,
        }),
    }
}

// What a line tells that is UTF-8 and begins with `1`.
#[tactic(auto, unfolding(crate::specs::Replies::texts_of_line))]
fn told_by_text(alloc: Global, what: &Ask, line: &str) -> Result<Told, AskFault>
    ensures { AnswersUnless AskFault.Memory result (if_texts what.now (texts_of_line line.now)) }
{
    bodies_have_one_list_of_texts();
    let Some(body) = past_char(line, '1') else {
        return Err(AskFault::BadReply { at: 1 });
    };
    match slashed_texts(alloc, body)? {
        Some(texts) => told_by_texts(alloc, what, &texts),
        None => Err(AskFault::BadReply { at: 1 }),
    }
}

// What the texts between the slashes of a line tell.
#[tactic(auto, unfolding(crate::specs::Replies::told_by_texts))]
fn told_by_texts(alloc: Global, what: &Ask, texts: &[&str]) -> Result<Told, AskFault>
    requires short { byte_len (flat_map with_slash (texts_seen texts.now)) < 2 ^ 63 }
    requires apart { list_all (lacks 0x2F) (texts_seen texts.now) ≡ true }
    ensures { AnswersUnless AskFault.Memory result (told_by_texts what.now (texts_seen texts.now)) }
{
    match what {
        Ask::Look(_) => Ok(Told::Cands(cands_of(alloc, texts)?)),
        Ask::Complete(_) => Ok(Told::Readings(readings_of(alloc, texts)?)),
    }
}
