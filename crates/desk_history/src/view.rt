use skk_calls::{Answer, Call, Entry};
use std::collections::LinkedList;

/// The account of a caller: its number, the history as far as it has seen it, and its own calls with their answers. It
/// is for contracts alone: no value of it is made.
pub struct Account {
    pub number: u32,
    pub seen: LinkedList<Entry>,
    pub mine: LinkedList<(Call, Answer)>,
}

// What a seat knows: the history, which the pen alone does, the accounts that stand with it, and how many numbers were
// drawn, where the roll stands with it. No value of it is made.
pub(crate) struct View {
    pub(crate) seen: LinkedList<Entry>,
    pub(crate) accounts: LinkedList<Account>,
    pub(crate) roll: Option<u32>,
}
