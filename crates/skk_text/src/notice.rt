/// What a step of a session tells the typist beside the line.
#[derive(Clone, Copy, Debug, PartialEq, Eq)]
pub enum Notice {
    /// Nothing.
    Empty,
    /// What the key would have put does not fit.
    Limit,
    /// What the key would have put is not allowed there.
    Reading,
    /// There is no further one.
    NoMore,
    /// No reading begins so.
    NoCompletion,
    /// There is nothing to take back.
    NoUndo,
    /// The page has no such candidate.
    NoCandidate,
}
