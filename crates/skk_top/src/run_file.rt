ghost use Rattle.std.specs.Prelude.{◌≡◌, ◌≤◌, ◌<◌, ◌^◌, IfOk, IfErr, IfSome};
ghost use Rattle.skk_top.specs.RunFiles.{RefusesFile, IsLonger};

use command_line::Word;
use run_endings::{RunFault, RunFile};
use skk_outside::{Shelf, read_named_file};
use skk_text::Bytes;
use std::alloc::Global;

/// Reads the bytes of a file of a run, that of this name, where they are no more than `limit`.
pub fn read_run_file<H: Shelf>(
    alloc: Global,
    shelf: &mut H,
    name: &Word,
    file: RunFile,
    limit: usize,
) -> Result<Bytes, RunFault>
    requires { limit < 2 ^ 62 }
    ensures whole { IfOk result (λ bytes. IfSome (H.file shelf.old name.now) (λ told. bytes ≡ told)) }
    ensures refused { IfErr result (RefusesFile file (IsLonger limit) (H.file shelf.old name.now)
        (H.faults shelf.old) (H.faults shelf.new)) }
    ensures counted { H.faults shelf.old ≤ H.faults shelf.new }
    ensures kept { H.file shelf.new ≡ H.file shelf.old }
{
    let name = name.to_text(alloc)?;
    match read_named_file(alloc, shelf, &name, limit) {
        Ok(bytes) => Ok(bytes),
        Err(fault) => Err(file.fault_of_read(fault)),
    }
}
