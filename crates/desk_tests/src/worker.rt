use crate::calling::{answer_to, finding, words_of};
use crate::changes::Changes;
use skk_calls::Caller;
use std::alloc::Global;
use std::process::Abort;

// A caller that learns in a book of its own, which is its typist's, and in the shared one.
#[derive(Drop)]
pub(crate) struct DeskWorker<C> {
    pub(crate) caller: C,
    pub(crate) notes: Notes,
}

// What a worker was told: its caller's number, what it learnt, and what it found last.
#[derive(Drop)]
pub(crate) struct Notes {
    pub(crate) number: u32,
    pub(crate) own: Changes,
    pub(crate) shared: Changes,
    pub(crate) found: String,
}

impl<C: Caller> DeskWorker<C> {
    // A worker that has done nothing, with the number of its own book and the letters of the words that it is to learn
    // there and in the shared one.
    pub(crate) fn new(
        alloc: Global,
        caller: C,
        book: u16,
        letter: &'static str,
        shared: &'static str,
    ) -> DeskWorker<C> {
        let number = caller.number();
        DeskWorker {
            caller,
            notes: Notes {
                number,
                own: Changes::new(alloc, book, letter),
                shared: Changes::new(alloc, 0, shared),
                found: String::new(alloc),
            },
        }
    }

    // The worker after so many cycles, in each of which it learns so many words.
    pub(crate) fn after_cycles<R: Abort>(
        mut self,
        rt: &R,
        alloc: Global,
        cycles: u64,
        words: u64,
    ) -> DeskWorker<C> {
        for _ in 0..cycles {
            self.cycle(rt, alloc, words);
        }
        self
    }

    // Learns each word.
    fn cycle<R: Abort>(&mut self, rt: &R, alloc: Global, words: u64) {
        for word in 0..words {
            self.round(rt, alloc, word);
        }
    }

    // Learns a word in its own book and one in the shared book, and finds them behind each.
    fn round<R: Abort>(&mut self, rt: &R, alloc: Global, word: u64) {
        let DeskWorker { caller, notes } = self;
        notes.own.learn(rt, alloc, caller, word);
        self.find(rt, alloc);
        self.notes.expect_found(rt, alloc);
        let DeskWorker { caller, notes } = self;
        notes.shared.learn(rt, alloc, caller, word);
        self.find(rt, alloc);
        self.notes.expect_found(rt, alloc);
    }

    // Learns a text in the shared book.
    pub(crate) fn learn_text<R: Abort>(&mut self, rt: &R, alloc: Global, text: &str) {
        let DeskWorker { caller, notes } = self;
        notes.shared.learn_text(rt, alloc, caller, 0, text);
    }

    // Finds the words.
    pub(crate) fn find<R: Abort>(&mut self, rt: &R, alloc: Global) {
        let call = finding(rt, alloc, self.notes.own.book);
        let answer = answer_to(alloc, &mut self.caller, call);
        self.notes.found = words_of(rt, alloc, &answer);
    }
}

impl Notes {
    // How many words were learnt.
    pub(crate) fn made(&self) -> usize {
        self.own.count().saturating_add(self.shared.count())
    }

    // How often the disk failed.
    pub(crate) fn refused(&self) -> u64 {
        self.own.refused().saturating_add(self.shared.refused())
    }

    // Tells that the word that was learnt last in the own book was found first, that the one that was learnt last in
    // the shared book was found, and those of the system's file behind all.
    fn expect_found<R: Abort>(&self, rt: &R, alloc: Global) {
        let found = self.found.as_str();
        let own = self.own.last(rt, alloc);
        assert!(rt; found.starts_with(own.as_str()), "{found}");
        let shared = self.shared.last(rt, alloc);
        assert!(rt; found.contains(shared.as_str()), "{found}");
        assert!(rt; found.ends_with("漢字; 幹事;宴会の 感じ; "), "{found}");
    }
}
