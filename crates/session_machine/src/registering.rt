ghost use Rattle.std.specs.Prelude.{◌≡◌, OnOk};
ghost use Rattle.session_machine.specs.Registrations.{cancelled, registering};

use crate::frame::{Frame, Waiting};
use crate::session::Session;
use crate::session_notice::SessionNotice;
use skk_text::Memory;
use std::alloc::Global;
use std::mem;

/// The most registrations and note lines that are open at once, each inside the one before it.
const DEPTH_LIMIT: usize = 8;

// Opens a registration or a note line for what waits, unless there are as many as there may be: then that stays.
pub(crate) fn register(session: &mut Session, alloc: Global, waiting: Waiting) -> Result<(), Memory>
    ensures { OnOk result (session.new ≡ registering session.old waiting) }
{
    if session.outer.len() == DEPTH_LIMIT {
        session.put_state(waiting.into_state());
        session.notice = SessionNotice::Depth;
        return Ok(());
    }
    let frame = mem::replace(&mut session.frame, Frame::new(alloc));
    session.outer.push(frame.outside(waiting))?;
    Ok(())
}

// Cancels the innermost registration or note line, where there is one: what is inside goes, and what waited stands
// there again.
pub(crate) fn cancel(session: &mut Session)
    ensures { session.new ≡ cancelled session.old }
{
    if let Some(frame) = session.outer.pop() {
        session.put_frame(frame.as_before());
    }
}
