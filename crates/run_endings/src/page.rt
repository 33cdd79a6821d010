ghost use Rattle.std.specs.Prelude.{◌≡◌, ◌≤◌, ◌++◌, ◌∷◌, [], ℕ, List, OnOk, OnErr, encode_utf8_all};
ghost use Rattle.std.specs.Fmt.{decimal};
ghost use Rattle.skk_outside.specs.Faults.{Rose};
ghost use Rattle.skk_outside.specs.Moved.{moved_sink};
ghost use Rattle.skk_outside.specs.Written.{AppendsPrefix};
ghost use Rattle.skk_text.specs.Lines.{line_feed};
ghost use Rattle.run_endings.specs.Page.{LeavesPrinted, Printed, Writes};

use crate::fault::{RunFault, write_numbered};
use skk_outside::{Failed, Sink, write_all};
use skk_text::Text;
use std::alloc::Global;

/// How many bytes a page has before it is written.
const PAGE: usize = 65536;

/// Writes bytes.
pub fn write<O: Sink>(out: &mut O, bytes: &[u8]) -> Result<(), Failed>
    ensures { Writes bytes.now result (moved_sink O.Outside out.old out.new) }
{
    write_all(out, bytes)
}

/// Writes a page.
pub fn print<O: Sink>(out: &mut O, page: &Text) -> Result<(), Failed>
    ensures { Writes (encode_utf8_all page.now) result (moved_sink O.Outside out.old out.new) }
{
    write(out, page.as_str().as_bytes())
}

/// Writes bytes, and all that waits to be written.
pub fn write_through<O: Sink>(out: &mut O, bytes: &[u8]) -> Result<(), Failed>
    ensures { Writes bytes.now result (moved_sink O.Outside out.old out.new) }
{
    write(out, bytes)?;
    out.flush()
}

/// Writes a page, and all that waits to be written.
pub fn print_through<O: Sink>(out: &mut O, page: &Text) -> Result<(), Failed>
    ensures { Writes (encode_utf8_all page.now) result (moved_sink O.Outside out.old out.new) }
{
    write_through(out, page.as_str().as_bytes())
}

/// Prints a text: writes it, and all that waits to be written.
pub fn print_text<O: Sink>(out: &mut O, text: &Text) -> Result<(), RunFault>
    ensures { LeavesPrinted (encode_utf8_all text.now) result (moved_sink O.Outside out.old out.new) }
{
    print_through(out, text)?;
    Ok(())
}

/// Prints a line of bytes and a number in decimal behind them: writes it, and all that waits to be written. Takes no
/// memory.
pub fn print_numbered<O: Sink>(out: &mut O, before: &[u8], number: u64) -> Result<(), RunFault>
    ensures { LeavesPrinted ((before.now ++ decimal number) ++ line_feed ∷ []) result
        (moved_sink O.Outside out.old out.new) }
{
    write_numbered_line(out, before, number)?;
    Ok(())
}

// Writes a line of bytes and a number behind them, and all that waits to be written.
fn write_numbered_line<O: Sink>(out: &mut O, before: &[u8], number: u64) -> Result<(), Failed>
    ensures { Writes ((before.now ++ decimal number) ++ line_feed ∷ []) result
        (moved_sink O.Outside out.old out.new) }
{
    write_numbered(out, before, number)?;
    write_through(out, b"\n")
}

/// Writes a page that is full, and begins a new one.
pub fn print_full<O: Sink>(alloc: Global, out: &mut O, page: &mut Text) -> Result<(), Failed>
    ensures ok { OnOk result (Printed (O.written out.old) (O.written out.new) page.new [] page.old) }
    ensures err { OnErr result (AppendsPrefix (O.written out.old) (O.written out.new) (encode_utf8_all page.old)) }
    ensures failed { OnErr result (Rose (O.faults out.old) (O.faults out.new)) }
    ensures counted { O.faults out.old ≤ O.faults out.new }
{
    if page.byte_len() < PAGE {
        return Ok(());
    }
    print(out, page)?;
    *page = Text::new(alloc);
    Ok(())
}
