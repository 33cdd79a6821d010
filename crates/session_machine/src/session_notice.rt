use skk_calls::Refusal;
use skk_text::Notice;

/// What the last key tells the typist beside the line.
#[derive(Clone, Copy, Debug, PartialEq, Eq)]
pub enum SessionNotice {
    /// What a step of a state told.
    Step(Notice),
    /// A call was refused.
    Refused(Refusal),
    /// The word was purged.
    Purged,
    /// The candidate was annotated.
    Annotated,
    /// The purge or the annotation would have changed nothing.
    Unchanged,
    /// What was chosen last was taken back.
    Undone,
    /// What was chosen last was taken out of the text, but its row, which has this stamp by now or 0 where it is gone,
    /// was left as others changed it.
    Overtaken(u64),
    /// The row's line would have so many bytes, which are too many: nothing was changed.
    TooBig(u64),
    /// The book's count has no further number: nothing was changed.
    StampsEnd,
    /// As many registrations and note lines are open as there may be: none was opened.
    Depth,
    /// The text holds a character that no note has, a `/`, CR or LF.
    BadNote,
}
