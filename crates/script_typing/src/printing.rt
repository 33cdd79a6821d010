ghost use Rattle.std.specs.Prelude.{◌≡◌, ◌++◌, OnOk};
ghost use Rattle.script_typing.specs.Printing.{output_line, closing_line};

use session_machine::Session;
use skk_text::{Memory, Text};
use std::alloc::Global;

/// Adds the output line of a session behind a page. Takes time in what is shown, not in the length of the text.
pub fn push_output_line(
    alloc: Global,
    page: &mut Text,
    number: u8,
    session: &Session,
) -> Result<(), Memory>
    ensures { OnOk result (page.new ≡ page.old ++ output_line number session.now) }
{
    page.push_number(u64::from(number))?;
    page.push('\t')?;
    session.push_line(alloc, page)
}

/// Adds the closing line of a session, with its whole text, behind a page.
pub fn push_closing_line(page: &mut Text, number: u8, session: &Session) -> Result<(), Memory>
    ensures { OnOk result (page.new ≡ page.old ++ closing_line number session.now) }
{
    page.push_number(u64::from(number))?;
    page.push('=')?;
    session.push_text(page)?;
    page.push('\n')
}
