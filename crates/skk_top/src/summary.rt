ghost use Rattle.std.specs.Prelude.{◌≡◌, ◌≤◌, ◌*◌, ◌++◌, OnOk, encode_utf8_all};
ghost use Rattle.std.specs.Str.{chars};
ghost use Rattle.skk_outside.specs.Moved.{moved_sink};
ghost use Rattle.skk_top.specs.LoadCommand.{number_line, summary, summed, text_bytes};
ghost use Rattle.run_endings.specs.Page.{LeavesPrinted};

use command_line::LoadOptions;
use run_endings::{RunFault, print_text};
use session_machine::Session;
use skk_calls::Tally;
use skk_outside::Sink;
use skk_text::{Memory, Text};
use std::alloc::Global;
use std::collections::BTreeMap;

/// Prints the summary of lines that were played, by what their calls came to and the sessions behind them.
pub fn print_summary<O: Sink>(
    alloc: Global,
    options: &LoadOptions,
    tally: &Tally,
    sessions: &BTreeMap<u8, Session>,
    out: &mut O,
) -> Result<(), RunFault>
    requires sessions { options.now.sessions ≤ 64 }
    requires lines { options.now.lines ≤ 20000 }
    ensures { LeavesPrinted (encode_utf8_all (summed options.now tally.now sessions.now.entries)) result
        (moved_sink O.Outside out.old out.new) }
{
    let mut page = Text::new(alloc);
    push_summary(&mut page, options, tally, text_bytes(sessions))?;
    print_text(out, &page)
}

// Adds the five lines of a summary.
#[tactic(auto, using(crate::proofs::PrintedTexts::summary_words))]
fn push_summary(
    page: &mut Text,
    options: &LoadOptions,
    tally: &Tally,
    bytes: u64,
) -> Result<(), Memory>
    requires sessions { options.now.sessions ≤ 64 }
    requires lines { options.now.lines ≤ 20000 }
    ensures { OnOk result (page.new ≡ page.old ++ summary (options.now.sessions * options.now.lines)
        tally.now.learned tally.now.restored tally.now.rows bytes) }
{
    let lines = options.sessions * options.lines;
    push_number_line(page, "lines ", lines)?;
    push_number_line(page, "learned ", tally.learned())?;
    push_number_line(page, "restored ", tally.restored())?;
    push_number_line(page, "rows ", tally.rows())?;
    push_number_line(page, "bytes ", bytes)
}

// Adds the line of a word and a number.
fn push_number_line(page: &mut Text, word: &str, number: u64) -> Result<(), Memory>
    ensures { OnOk result (page.new ≡ page.old ++ number_line (chars word.now) number) }
{
    page.push_str(word)?;
    page.push_number(number)?;
    page.push('\n')
}

// The bytes of the texts of sessions, up to 2^64 - 1.
fn text_bytes(sessions: &BTreeMap<u8, Session>) -> u64
    ensures { result ≡ text_bytes sessions.now.entries }
{
    let mut bytes: u64 = 0;
    for (number, session) in sessions {
        bytes = bytes.saturating_add(session.text().byte_len() as u64);
    }
    bytes
}
