ghost use Rattle.std.specs.Prelude.{◌≡◌, ◌≤◌, ◌++◌, [], OnOk, OnErr, IfErr, encode_utf8_all};
ghost use Rattle.std.specs.Str.{chars};
ghost use Rattle.skk_outside.specs.Moved.{moved_sink};
ghost use Rattle.skk_outside.specs.Written.{AppendsPrefix};
ghost use Rattle.skk_top.specs.CheckedFiles.{reason_name, bad_line, bad_lines, count_of, counts_line, checked};
ghost use Rattle.run_endings.specs.Page.{Printed, LeavesPrinted, StopsPrinting};

use dict_format::{BadLine, LineReason, Listed};
use run_endings::{RunFault, print_full, print_through};
use skk_calls::{Part, Row};
use skk_outside::Sink;
use skk_text::{Memory, Text};
use std::alloc::Global;

/// Prints the bad lines of a file, and the counts of what it lists.
pub fn print_listed<O: Sink>(alloc: Global, listed: &Listed, out: &mut O) -> Result<(), RunFault>
    ensures { LeavesPrinted (checked listed.now) result (moved_sink O.Outside out.old out.new) }
{
    let mut page = Text::new(alloc);
    print_bad_lines(alloc, listed.bad.as_slice(), &mut page, out)?;
    push_counts(&mut page, listed)?;
    print_through(out, &page)?;
    Ok(())
}

// Prints bad lines. What is not written yet is left in the page.
fn print_bad_lines<O: Sink>(
    alloc: Global,
    bad: &[BadLine],
    page: &mut Text,
    out: &mut O,
) -> Result<(), RunFault>
    requires empty { page.old ≡ [] }
    ensures ok { OnOk result (Printed (O.written out.old) (O.written out.new) page.new [] (bad_lines bad.now)) }
    ensures err { OnErr result
        (AppendsPrefix (O.written out.old) (O.written out.new) (encode_utf8_all (bad_lines bad.now))) }
    ensures stopped { IfErr result (StopsPrinting (moved_sink O.Outside out.old out.new)) }
    ensures counted { O.faults out.old ≤ O.faults out.new }
{
    for line in bad {
        push_bad_line(page, line)?;
        print_full(alloc, out, page)?;
    }
    Ok(())
}

// Adds the line of a bad line.
fn push_bad_line(page: &mut Text, bad: &BadLine) -> Result<(), Memory>
    ensures { OnOk result (page.new ≡ page.old ++ bad_line bad.now) }
{
    page.push_str("line ")?;
    page.push_number(bad.line as u64)?;
    page.push(' ')?;
    page.push_str(reason_name(bad.reason))?;
    page.push('\n')
}

// The name of a reason.
#[tactic(auto, using(crate::proofs::PrintedTexts::check_words))]
fn reason_name(reason: LineReason) -> &'static str
    ensures { chars result.now ≡ reason_name reason }
{
    match reason {
        LineReason::LongLine => "LongLine",
        LineReason::NoSpace => "NoSpace",
        LineReason::BadReading => "BadReading",
        LineReason::LongReading => "LongReading",
        LineReason::OkuriKey => "OkuriKey",
        LineReason::NoSlash => "NoSlash",
        LineReason::Block => "Block",
        LineReason::LongCandidate => "LongCandidate",
        LineReason::Empty => "Empty",
        LineReason::Twice => "Twice",
    }
}

// Adds the line of the counts.
fn push_counts(page: &mut Text, listed: &Listed) -> Result<(), Memory>
    ensures { OnOk result (page.new ≡ page.old ++ counts_line listed.now) }
{
    let rows = listed.book.rows().as_slice();
    page.push_str("okuri-ari ")?;
    page.push_number(count_of(Part::Ari, rows) as u64)?;
    page.push_str(" okuri-nasi ")?;
    page.push_number(count_of(Part::Nasi, rows) as u64)?;
    page.push_str(" bad ")?;
    page.push_number(listed.bad.len() as u64)?;
    page.push('\n')
}

// How many of the rows are of a part.
fn count_of(part: Part, rows: &[Row]) -> usize
    ensures { result ≡ count_of part rows.now }
{
    rows.iter().filter(|row| row.key().part() == part).count()
}
