use crate::shown::ShownList;
use skk_calls::Cand;
use skk_text::{Copies, Memory};
use std::alloc::Global;
use std::marker::Model;

/// Candidates of which one is picked: the one that is shown singly, or the first of the page that is shown.
#[derive(Drop)]
pub struct Picking {
    shown: ShownList,
    place: usize,
    question: bool,
}

impl Model for Picking {
    ghost use Rattle.std.specs.Prelude.{◌≡◌, true};
    ghost use Rattle.candidate_state.specs.Picking.{Picking, is_picking};

    ghost Value = { Picking };

    ghost view = { λ p. record { shown = p.shown; place = p.place; question = p.question } };

    ghost invariant = { λ p. is_picking (record { shown = p.shown; place = p.place; question = p.question }) ≡ true };
}

impl Picking {
    ghost use Rattle.std.specs.Prelude.{◌≡◌, ◌<◌, true, false, length};
    ghost use Rattle.candidate_state.specs.Picking.{annotated, begins_view, is_picking, is_single, new_picking};

    /// The first candidate is picked.
    pub fn new(shown: ShownList) -> Picking
        requires { 0 < length shown }
        ensures { result ≡ new_picking shown }
    {
        Picking {
            shown,
            place: 0,
            question: false,
        }
    }

    /// The candidates.
    pub fn shown_list(&self) -> &ShownList
        ensures value { result.now ≡ self.now.shown }
        ensures valid { is_picking self.now ≡ true }
    {
        &self.shown
    }

    /// The place of the candidate that is shown singly, or of the first one of the page, counted from 0.
    pub fn place(&self) -> usize
        ensures value { result ≡ self.now.place }
        ensures valid { is_picking self.now ≡ true }
    {
        self.place
    }

    /// Whether it is asked if the candidate is to be purged.
    pub fn is_asked(&self) -> bool
        ensures value { result ≡ self.now.question }
        ensures valid { is_picking self.now ≡ true }
    {
        self.question
    }

    /// Whether a candidate is shown singly, and no page.
    pub fn is_single(&self) -> bool
        ensures { result ≡ is_single self.now.place }
    {
        self.place < SINGLES
    }

    /// Gives the candidate that is picked a new note: another of its word stands in its place, with its key and the
    /// text that is shown for it. One of another word changes nothing. Takes no memory, and time in the word.
    #[tactic(auto, using(crate::proofs::Puts::counts))]
    pub fn annotate(&mut self, alloc: Global, cand: Cand)
        ensures { self.new ≡ annotated self.old cand }
    {
        self.shown.put(alloc, self.place, cand);
    }

    // Goes to another place.
    pub(crate) fn go_to(&mut self, place: usize)
        requires among { place < length self.old.shown }
        requires view { begins_view place ≡ true }
        requires unasked { self.old.question ≡ false }
        ensures { self.new ≡ record self.old { place = place } }
    {
        self.place = place;
    }

    // Asks whether the candidate is to be purged.
    pub(crate) fn ask(&mut self)
        requires { is_single self.old.place ≡ true }
        ensures { self.new ≡ record self.old { question = true } }
    {
        self.question = true;
    }

    // Ends the question.
    pub(crate) fn end_question(&mut self)
        ensures { self.new ≡ record self.old { question = false } }
    {
        self.question = false;
    }
}

impl Copies for Picking {
    fn copy(&self, alloc: Global) -> Result<Picking, Memory> {
        Ok(Picking {
            shown: self.shown.copy(alloc)?,
            place: self.place,
            question: self.question,
        })
    }
}

// How many candidates are shown singly, before the pages.
pub(crate) const SINGLES: usize = 4;

// How many candidates a page shows.
pub(crate) const PAGE_SIZE: usize = 7;
