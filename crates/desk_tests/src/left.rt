use crate::calling::{learning, stamp_of};
use crate::sharing::{SharedDesk, opened};
use crate::worker::Notes;
use expectations::same;
use learned_store::{Closed, Store};
use skk_calls::Tally;
use skk_disk::{Disk, MemDisk};
use std::alloc::Global;
use std::process::Abort;

// The bytes of the part lines of a dictionary file, and of a line of the reading with no word.
const EMPTY_ROW: usize = 57;

// What is left of a desk that two workers shared: what they were told, and its learned file, opened again.
#[derive(Drop)]
pub(crate) struct Left<D> {
    pub(crate) one: Notes,
    pub(crate) two: Notes,
    store: Store<D>,
}

// Tells what the calls came to, and how many calls of the disk are recorded, and opens the learned file again, which
// has as many rows.
pub(crate) fn reopened<R: Abort>(
    rt: &R,
    alloc: Global,
    shared: SharedDesk<MemDisk>,
    tally: Tally,
    calls: usize,
) -> Left<MemDisk> {
    let SharedDesk { closed, one, two } = shared;
    same(closed.tally, tally).expect(rt, "as wanted");
    same(closed.disk.made().len(), calls).expect(rt, "as wanted");
    let store = opened_again(rt, alloc, closed, tally.rows());
    Left { one, two, store }
}

// The learned file of a disk that is left, opened again, which has so many rows.
fn opened_again<R: Abort, D: Disk + Drop>(
    rt: &R,
    alloc: Global,
    closed: Closed<D>,
    rows: u64,
) -> Store<D> {
    let Closed { disk, .. } = closed;
    let store = opened(rt, alloc, disk);
    same(store.rows(), rows).expect(rt, "as wanted");
    store
}

impl<D: Disk> Left<D> {
    // How many words were learnt.
    pub(crate) fn made(&self) -> usize {
        self.one.made().saturating_add(self.two.made())
    }

    // How often the disk failed.
    pub(crate) fn refused(&self) -> u64 {
        self.one.refused().saturating_add(self.two.refused())
    }

    // How many words were learnt in the shared book.
    pub(crate) fn shared_count(&self) -> usize {
        self.one
            .shared
            .count()
            .saturating_add(self.two.shared.count())
    }

    // Tells that a book has these words and no others, each with a slash behind it.
    pub(crate) fn expect_words<R: Abort>(&self, rt: &R, alloc: Global, book: u16, words: &str) {
        let dump = self.store.dump(alloc, book).expect(rt, "memory");
        let wanted = format!(in alloc;
            ";; okuri-ari entries.\n;; okuri-nasi entries.\nかんじ /{words}\n"
        ).expect(rt, "memory");
        same(dump.as_str(), wanted.as_str()).expect(rt, "as wanted");
    }

    // Tells that the shared book has so many words, each of five bytes, and among them each that was learnt there.
    pub(crate) fn expect_shared<R: Abort>(&self, rt: &R, alloc: Global, count: usize) {
        let dump = self.store.dump(alloc, 0).expect(rt, "memory");
        let bytes = count.saturating_mul(6).saturating_add(EMPTY_ROW);
        same(dump.byte_len(), bytes).expect(rt, "as wanted");
        self.one.shared.expect_in(rt, alloc, dump.as_str());
        self.two.shared.expect_in(rt, alloc, dump.as_str());
    }

    // Tells that the stamps in each book are the numbers from 1 on, each once, and that the next one follows. In a book
    // of their own they came in order.
    pub(crate) fn expect_stamps<R: Abort>(&mut self, rt: &R, alloc: Global) {
        let mut stamps = Vec::new(alloc);
        self.one.own.push_stamps(rt, &mut stamps);
        self.expect_counted(rt, alloc, 1, stamps.as_slice());
        stamps.clear();
        self.two.own.push_stamps(rt, &mut stamps);
        self.expect_counted(rt, alloc, 2, stamps.as_slice());
        stamps.clear();
        self.one.shared.push_stamps(rt, &mut stamps);
        self.two.shared.push_stamps(rt, &mut stamps);
        stamps.sort_unstable();
        self.expect_counted(rt, alloc, 0, stamps.as_slice());
    }

    // Tells that these are the numbers from 1 on, and that a word that is learnt in a book now gets the next one.
    fn expect_counted<R: Abort>(&mut self, rt: &R, alloc: Global, book: u16, stamps: &[u64]) {
        let mut next: u64 = 1;
        for stamp in stamps {
            same(*stamp, next).expect(rt, "as wanted");
            next = next.saturating_add(1);
        }
        same(stamp_in(rt, alloc, &mut self.store, book), Some(next)).expect(rt, "as wanted");
    }
}

// The stamp that a word gets that is learnt in a book of a store.
fn stamp_in<R: Abort, D: Disk>(
    rt: &R,
    alloc: Global,
    store: &mut Store<D>,
    book: u16,
) -> Option<u64> {
    let call = learning(rt, alloc, book, "新");
    let answer = store.serve(alloc, &call);
    stamp_of(rt, &answer)
}
