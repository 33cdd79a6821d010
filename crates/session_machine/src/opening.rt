ghost use Rattle.std.specs.Prelude.{◌≡◌};
ghost use Rattle.session_machine.specs.Converted.{left_open};

use crate::frame::FrameState;
use crate::session::Session;
use crate::session_notice::SessionNotice;
use reading_state::Reading;
use skk_calls::Refusal;

// Leaves a reading open, and tells the refusal of what it asked, where it was refused.
pub(crate) fn leave_open(session: &mut Session, reading: Reading, refusal: Option<Refusal>)
    ensures { session.new ≡ left_open session.old reading refusal }
{
    if let Some(refusal) = refusal {
        session.notice = SessionNotice::Refused(refusal);
    }
    session.put_state(FrameState::Reading(reading));
}
