use crate::calling::{answer_to, learning, stamp_of};
use skk_calls::Caller;
use std::alloc::Global;
use std::process::Abort;

// A word that was learnt, by its number, and the stamp that its row got.
#[derive(Clone, Copy)]
struct MadeChange {
    word: u64,
    stamp: u64,
}

// What a caller learns in a book: words of a letter and two digits. Those that it learnt, in order, and how often the
// disk failed instead.
#[derive(Drop)]
pub(crate) struct Changes {
    pub(crate) book: u16,
    letter: &'static str,
    made: Vec<MadeChange>,
    refused: u64,
}

impl Changes {
    // None yet.
    pub(crate) fn new(alloc: Global, book: u16, letter: &'static str) -> Changes {
        Changes {
            book,
            letter,
            made: Vec::new(alloc),
            refused: 0,
        }
    }

    // How many words were learnt.
    pub(crate) fn count(&self) -> usize {
        self.made.len()
    }

    // How often the disk failed.
    pub(crate) fn refused(&self) -> u64 {
        self.refused
    }

    // Has a caller learn the word of a number.
    pub(crate) fn learn<R: Abort, C: Caller>(
        &mut self,
        rt: &R,
        alloc: Global,
        caller: &mut C,
        word: u64,
    ) {
        let text = self.word(rt, alloc, word);
        self.learn_text(rt, alloc, caller, word, text.as_str());
    }

    // Has a caller learn a text as the word of a number.
    pub(crate) fn learn_text<R: Abort, C: Caller>(
        &mut self,
        rt: &R,
        alloc: Global,
        caller: &mut C,
        word: u64,
        text: &str,
    ) {
        let call = learning(rt, alloc, self.book, text);
        let answer = answer_to(alloc, caller, call);
        self.note(rt, word, stamp_of(rt, &answer));
    }

    // Notes what the learning of a word was answered.
    fn note<R: Abort>(&mut self, rt: &R, word: u64, stamp: Option<u64>) {
        match stamp {
            Some(stamp) => self
                .made
                .push(MadeChange { word, stamp })
                .expect(rt, "memory"),
            None => self.refused = self.refused.saturating_add(1),
        }
    }

    // The word of a number.
    fn word<R: Abort>(&self, rt: &R, alloc: Global, word: u64) -> String {
        format!(in alloc; "{}{word:02}", self.letter).expect(rt, "memory")
    }

    // The word that was learnt last, as a candidate without a note is told; nothing where there is none.
    pub(crate) fn last<R: Abort>(&self, rt: &R, alloc: Global) -> String {
        match self.made.last() {
            Some(change) => format!(in alloc; "{}{:02}; ", self.letter, change.word).expect(
                rt, "memory",
            ),
            None => String::new(alloc),
        }
    }

    // Tells that each word that was learnt stands between slashes in a text.
    pub(crate) fn expect_in<R: Abort>(&self, rt: &R, alloc: Global, text: &str) {
        for change in self.made.as_slice() {
            let word = format!(in alloc; "/{}{:02}/", self.letter, change.word).expect(
                rt, "memory",
            );
            assert!(rt; text.contains(word.as_str()), "{word} in {text}");
        }
    }

    // Adds the stamps that were told, in order.
    pub(crate) fn push_stamps<R: Abort>(&self, rt: &R, stamps: &mut Vec<u64>) {
        for change in self.made.as_slice() {
            stamps.push(change.stamp).expect(rt, "memory");
        }
    }

    // The words that were learnt, the last one first, each with a slash behind it.
    pub(crate) fn words<R: Abort>(&self, rt: &R, alloc: Global) -> String {
        let mut words = String::new(alloc);
        for change in self.made.iter().rev() {
            write!(words, "{}{:02}/", self.letter, change.word).expect(rt, "memory");
        }
        words
    }
}
