ghost use Rattle.std.specs.Prelude.{◌≡◌, true};
ghost use Rattle.std.specs.List.{list_all};
ghost use Rattle.key_scripts.specs.Script.{opens_well};

use crate::pages::Pages;
use key_scripts::Line;
use session_machine::Session;
use skk_text::{Memory, Sequence};

/// A session of a script in the hands of a worker, with the caller that it asks.
#[derive(Drop)]
pub struct Worker<C> {
    /// The number of the session.
    pub number: u8,
    /// The session's own lines.
    pub lines: Sequence<Line>,
    /// Who answers it.
    pub caller: C,
    /// The session, as far as it was typed.
    pub session: Session,
    /// The output lines that it printed, each a page of its own.
    pub pages: Pages,
    /// Whether all its lines were typed.
    pub ended: Result<(), Memory>,
    pub ghost opens: { list_all opens_well lines ≡ true },
}
