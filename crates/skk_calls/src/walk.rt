use skk_text::{Memory, Text};
use std::alloc::Global;

/// The system files, as a completion goes over them.
pub trait Walk {
    ghost use Rattle.std.specs.Prelude.{◌≡◌, ◌<◌, ℕ, List, length, get_or, [], true, IfOk};
    ghost use Rattle.skk_calls.specs.Walks.{next_above, all_ascend};

    /// The readings without okurigana of each file, of rows that have a candidate.
    ghost files: { Self → List (List (List ℕ)) };

    /// How many files there are. Takes no memory.
    fn files(&self) -> usize
        ensures { result ≡ length (files self.now) };

    /// The least reading of a file, counted from 0, that is greater than another by its bytes.
    fn above(&self, alloc: Global, file: usize, low: &Text) -> Result<Option<Text>, Memory>
        requires { file < length (files self.now) }
        ensures { IfOk result (λ next. next ≡ next_above (get_or (files self.now) file []) low.now) };

    /// Each file's readings ascend by their bytes.
    ghost ascending: { (walk : Self) → all_ascend (files walk) ≡ true };
}
