ghost use Rattle.std.specs.Prelude.{◌≡◌, ◌≤◌, Some, IfOk, IfErr, OnOk};
ghost use Rattle.command_line.specs.Command.{command_of};
ghost use Rattle.command_line.specs.Ranges.{HasNumbersInRange};
ghost use Rattle.skk_outside.specs.Moved.{moved_sink};
ghost use Rattle.skk_top.specs.Words.{EndsUnread};

use command_line::{Command, Word, read_command};
use run_endings::{RunFault, tell_end};
use skk_outside::Sink;
use skk_text::Memory;
use std::alloc::Global;

/// The command that the words behind the program's name are, with each number in its range; or the status to exit with,
/// after a line on `err` that tells why. Costs time linear in the words.
pub fn command_or_end<'a, E: Sink>(
    alloc: Global,
    words: &'a [Word<'a>],
    err: &mut E,
) -> Result<Command<'a>, u8>
    ensures read { IfOk result (λ command. command_of words.entry.now ≡ Some command) }
    ensures ranges { IfOk result HasNumbersInRange }
    ensures quiet { OnOk result (err.new ≡ err.old) }
    ensures ended { IfErr result (λ status. EndsUnread (command_of words.entry.now) status
        (moved_sink E.Outside err.old err.new)) }
    ensures counted { E.faults err.old ≤ E.faults err.new }
{
    match read_command(alloc, words) {
        Ok(Some(command)) => Ok(command),
        Ok(None) => Err(tell_end(Err(RunFault::Words), err)),
        Err(Memory) => Err(tell_end(Err(RunFault::Memory), err)),
    }
}
