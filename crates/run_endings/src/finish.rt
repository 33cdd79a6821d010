ghost use Rattle.std.specs.Prelude.{◌≡◌, []};
ghost use Rattle.run_endings.specs.Status.{ended_by, with_want};

use crate::fault::RunFault;
use skk_calls::{Chronicle, Tally};

/// How a run ended, before it is told, what it called, and the disk that it gives back.
#[derive(Drop)]
pub struct Run<D> {
    pub ended: Result<(), RunFault>,
    pub chronicle: Chronicle,
    pub disk: D,
}

impl<D> Run<D> {
    /// A run that made no call. Takes no memory.
    pub fn without_calls(ended: Result<(), RunFault>, disk: D) -> Run<D>
        ensures { result ≡ record { ended = ended; chronicle = []; disk = disk } }
    {
        Run {
            ended,
            chronicle: Chronicle::none(),
            disk,
        }
    }
}

/// How the program finishes.
#[derive(Drop)]
pub struct Finish<D> {
    /// The status to exit with.
    pub status: u8,
    /// How the run ended.
    pub ended: Result<(), RunFault>,
    /// What the run called, for contracts alone.
    pub chronicle: Chronicle,
    /// The disk of the learned file, as the run left it.
    pub disk: D,
}

/// How a run ends by how its typing ended and what its calls came to.
pub fn end_by(ended: Result<(), RunFault>, tally: &Tally) -> Result<(), RunFault>
    ensures { result ≡ ended_by ended tally.now }
{
    end_wanting(ended, tally, false)
}

/// How a run ends by how its typing or serving ended, what its calls came to, and whether memory was out elsewhere.
pub fn end_wanting(ended: Result<(), RunFault>, tally: &Tally, wanted: bool) -> Result<(), RunFault>
    ensures { result ≡ ended_by ended (with_want wanted tally.now) }
{
    match ended {
        Ok(()) if tally.disk() => Err(RunFault::Outside),
        Ok(()) if wanted || tally.memory() => Err(RunFault::Memory),
        Ok(()) if tally.full() => Err(RunFault::JournalFull),
        ended => ended,
    }
}
