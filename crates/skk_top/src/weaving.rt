ghost use Rattle.std.specs.Prelude.{◌≡◌, []};
ghost use Rattle.skk_outside.specs.Moved.{moved_sink};
ghost use Rattle.script_typing.specs.Pages.{text_of_pages, woven_pages};
ghost use Rattle.skk_top.specs.Typing.{PrintsPage};
ghost use Rattle.skk_top.specs.WeaveCommand.{LeavesPages};

use crate::typing::close_sessions;
use run_endings::{RunFault, print, print_full, print_through};
use script_typing::Typed;
use skk_outside::Sink;
use skk_text::Text;
use std::alloc::Global;

/// Prints what was typed by workers: the output lines in the order of the script, up to the first that is wanting, and
/// behind all of them the closing lines. Where a worker was out of memory it ends so, and what it left is written.
pub fn print_woven<O: Sink>(
    alloc: Global,
    order: &[u8],
    typed: Typed,
    out: &mut O,
) -> Result<(), RunFault>
    ensures { LeavesPages order.now typed result (moved_sink O.Outside out.old out.new) }
{
    let mut typed = typed;
    let mut page = Text::new(alloc);
    print_pages(alloc, order, &mut typed, &mut page, out)?;
    if !typed.whole {
        print(out, &page)?;
        return Err(RunFault::Memory);
    }
    close_sessions(alloc, &typed.sessions, &mut page, out)?;
    print_through(out, &page)?;
    Ok(())
}

// Prints the output lines, up to the first that is wanting. What is not written yet is left in the page.
fn print_pages<O: Sink>(
    alloc: Global,
    order: &[u8],
    typed: &mut Typed,
    page: &mut Text,
    out: &mut O,
) -> Result<(), RunFault>
    requires { page.old ≡ [] }
    ensures prints { PrintsPage (text_of_pages (woven_pages order.now typed.old.pages.entries)) page.new result
        (moved_sink O.Outside out.old out.new) }
    ensures sessions { typed.new.sessions.entries ≡ typed.old.sessions.entries }
    ensures whole { typed.new.whole ≡ typed.old.whole }
{
    for number in order {
        let Some(line) = typed.next_page(*number) else {
            return Ok(());
        };
        page.push_str(line.as_str())?;
        print_full(alloc, out, page)?;
    }
    Ok(())
}
