ghost use Rattle.std.specs.Prelude.{◌≡◌, ◌≤◌, ◌++◌, [], ℕ, true, IfOk, OnOk, encode_utf8_all};
ghost use Rattle.skk_outside.specs.Moved.{moved_sink};
ghost use Rattle.skk_calls.specs.Canonical.{item};
ghost use Rattle.skk_server.specs.Ends.{moved_link};
ghost use Rattle.skkserv_client.specs.Questions.{are_askable, bytes_asked};
ghost use Rattle.command_line.specs.Command.{question_text};
ghost use Rattle.command_line.specs.Ranges.{LiesFrom};
ghost use Rattle.command_line.specs.Words.{is_askable};
ghost use Rattle.run_endings.specs.Page.{LeavesPrinted};
ghost use Rattle.skk_top.specs.AskCommand.{AsksOver, LeavesAsked, as_line, asked_of, told_lines};
ghost use Rattle.skk_top.specs.Disks.{StandsSince, moved_disk};
ghost use Rattle.skk_top.specs.ServeCommand.{moved_listener};

use command_line::{AskOptions, Question};
use dict_format::push_item;
use exact_readers::{Printer, print_each};
use run_endings::{Run, RunFault, print_text, write_through};
use skk_calls::Cand;
use skk_disk::Disk;
use skk_outside::{Link, Listener, Sink};
use skk_text::{Memory, Text};
use skkserv_client::{Ask, Told, ask};
use std::alloc::Global;

// The byte by which a client ends its connection.
const FAREWELL: &[u8] = b"0";

/// The command `ask`: asks a server on loopback, and prints what it tells. The disk is not touched.
pub fn run_ask<D: Disk, O: Sink, P: Listener>(
    alloc: Global,
    options: &AskOptions,
    disk: D,
    out: &mut O,
    net: &mut P,
) -> Run<D>
    requires port { LiesFrom 1 65535 options.now.port }
    requires question { is_askable (question_text options.now.question) ≡ true }
    ensures leaves { LeavesAsked options.now result.ended (moved_sink O.Outside out.old out.new)
        (moved_listener P.Listener P.Link.Outside net.old net.new) }
    ensures uncalled { result.chronicle ≡ [] }
    ensures disk { result.disk ≡ disk }
    ensures stands { StandsSince result.chronicle (moved_disk D.Disk disk result.disk) }
    ensures out_counted { O.faults out.old ≤ O.faults out.new }
    ensures net_counted { P.faults net.old ≤ P.faults net.new }
{
    Run::without_calls(ask_port(alloc, options, out, net), disk)
}

// Asks the server of a port over a link that is closed and given back, however the asking ends.
fn ask_port<O: Sink, P: Listener>(
    alloc: Global,
    options: &AskOptions,
    out: &mut O,
    net: &mut P,
) -> Result<(), RunFault>
    requires port { LiesFrom 1 65535 options.now.port }
    requires question { is_askable (question_text options.now.question) ≡ true }
    ensures leaves { LeavesAsked options.now result (moved_sink O.Outside out.old out.new)
        (moved_listener P.Listener P.Link.Outside net.old net.new) }
    ensures out_counted { O.faults out.old ≤ O.faults out.new }
    ensures net_counted { P.faults net.old ≤ P.faults net.new }
{
    let what = asked_of(alloc, &options.question)?;
    let mut link = net.dial(options.port as u16)?;
    let ended = ask_over(alloc, &what, &mut link, out);
    link.close();
    net.done(link);
    ended
}

// What the server is asked for, as a text of its own.
fn asked_of(alloc: Global, question: &Question) -> Result<Ask, Memory>
    ensures { IfOk result (λ what. what ≡ asked_of question.now) }
{
    match question {
        Question::Look(reading) => Ok(Ask::Look(reading.to_text(alloc)?)),
        Question::Complete(prefix) => Ok(Ask::Complete(prefix.to_text(alloc)?)),
    }
}

// Asks a server over a link, prints what it tells, and ends the connection.
fn ask_over<K: Link, O: Sink>(
    alloc: Global,
    what: &Ask,
    link: &mut K,
    out: &mut O,
) -> Result<(), RunFault>
    requires { are_askable (bytes_asked what.now) ≡ true }
    ensures asks { AsksOver what.now result (moved_link K.Outside link.old link.new)
        (moved_sink O.Outside out.old out.new) }
    ensures counted { O.faults out.old ≤ O.faults out.new }
{
    let told = ask(alloc, link, what)?;
    print_told(alloc, &told, out)?;
    write_through(link, FAREWELL)?;
    Ok(())
}

// Prints what a server tells, a line for each candidate or reading.
fn print_told<O: Sink>(alloc: Global, told: &Told, out: &mut O) -> Result<(), RunFault>
    ensures { LeavesPrinted (encode_utf8_all (told_lines told.now)) result (moved_sink O.Outside out.old out.new) }
{
    let mut page = Text::new(alloc);
    push_told(&mut page, told)?;
    print_text(out, &page)
}

// Adds the lines of what a server tells.
fn push_told(page: &mut Text, told: &Told) -> Result<(), Memory>
    ensures { OnOk result (page.new ≡ page.old ++ told_lines told.now) }
{
    match told {
        Told::Cands(cands) => print_each::<CandLine>(page, cands.as_slice()),
        Told::Readings(readings) => print_each::<ReadingLine>(page, readings.as_slice()),
    }
}

// A candidate as an item, on a line of its own.
struct CandLine;

impl Printer for CandLine {
    type Page = Text;

    type Value = Cand;

    ghost Token = { ℕ };

    ghost shown = { λ page. page };

    ghost printed = { λ cand. as_line (item cand) };

    fn print(page: &mut Text, cand: &Cand) -> Result<(), Memory> {
        push_item(page, cand)?;
        page.push('\n')
    }
}

// A reading on a line of its own.
struct ReadingLine;

impl Printer for ReadingLine {
    type Page = Text;

    type Value = Text;

    ghost Token = { ℕ };

    ghost shown = { λ page. page };

    ghost printed = { λ reading. as_line reading };

    fn print(page: &mut Text, reading: &Text) -> Result<(), Memory> {
        page.push_str(reading.as_str())?;
        page.push('\n')
    }
}
