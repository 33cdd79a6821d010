ghost use Rattle.std.specs.Prelude.{◌≡◌, ◌++◌, OnOk, OnErr, encode_utf8_all};
ghost use Rattle.session_machine.specs.Display.{line};
ghost use Rattle.typist_line.specs.Conversations.{fault_reply, refusal};

use session_machine::Session;
use skk_text::{Memory, Text};
use std::alloc::Global;

/// Sends the line of a session. Takes time in what is shown.
pub fn send_line(alloc: Global, session: &Session, out: &mut Vec<u8>) -> Result<(), Memory>
    ensures ok { OnOk result (out.new.items ≡ out.old.items ++ encode_utf8_all (line session.now)) }
    ensures err { OnErr result (out.new.items ≡ out.old.items) }
{
    let mut page = Text::new(alloc);
    session.push_line(alloc, &mut page)?;
    send(&page, out)
}

/// Sends that a line is no key text, by the place of its fault.
pub fn send_fault(alloc: Global, at: usize, out: &mut Vec<u8>) -> Result<(), Memory>
    ensures ok { OnOk result (out.new.items ≡ out.old.items ++ encode_utf8_all (fault_reply at)) }
    ensures err { OnErr result (out.new.items ≡ out.old.items) }
{
    let mut page = Text::new(alloc);
    page.push('?')?;
    page.push_number(at as u64)?;
    page.push('\n')?;
    send(&page, out)
}

/// Sends that a connection is refused.
pub fn send_refusal(alloc: Global, out: &mut Vec<u8>) -> Result<(), Memory>
    ensures ok { OnOk result (out.new.items ≡ out.old.items ++ encode_utf8_all refusal) }
    ensures err { OnErr result (out.new.items ≡ out.old.items) }
{
    let mut page = Text::new(alloc);
    page.push('0')?;
    page.push('\n')?;
    send(&page, out)
}

// Sends a page.
fn send(page: &Text, out: &mut Vec<u8>) -> Result<(), Memory>
    ensures ok { OnOk result (out.new.items ≡ out.old.items ++ encode_utf8_all page.now) }
    ensures err { OnErr result (out.new.items ≡ out.old.items) }
{
    out.extend_from_slice(page.as_str().as_bytes())?;
    Ok(())
}
