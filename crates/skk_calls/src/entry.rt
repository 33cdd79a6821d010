use crate::answer::Answer;
use crate::call::Call;

/// What a history holds: a caller's number, a call, and its answer.
#[derive(Debug, Drop)]
pub struct Entry {
    pub number: u32,
    pub call: Call,
    pub answer: Answer,
}
