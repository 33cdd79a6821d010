ghost use Rattle.std.specs.Prelude.{◌≡◌, ◌⊎◌, [], true, map, IfOk, IfSome, IsSomeAnd, OnOk, Some};
ghost use Rattle.std.specs.List.{All};
ghost use Rattle.skk_calls.specs.Dictionary.{is_fit, may_answer};
ghost use Rattle.session_machine.specs.NextAsked.{may_answer_all};
ghost use Rattle.session_machine.specs.Pressed.{pressed};
ghost use Rattle.session_world.specs.Keeping.{HasBook, IsSeat};
ghost use Rattle.session_world.specs.Seats.{answered, asked_in, may_be_answered, new_seat, renewed, with_answers};

use romaji_rules::Rules;
use session_machine::Session;
use skk_calls::{Answer, Answers, Call};
use skk_text::{Key, Keys, Memory};
use std::alloc::Global;
use std::mem;

// A session, the keys that ended since it was new, and the key under way, where there is one.
pub(crate) struct Seat {
    pub(crate) typist: u16,
    pub(crate) book: u16,
    pub(crate) keys: Keys,
    pub(crate) session: Session,
    pub(crate) under_way: Option<UnderWay>,
}

impl Drop for Seat {
    fn drop(self) {
        let Seat {
            typist: _,
            book: _,
            keys: _,
            session,
            under_way,
        } = self;
        drop(session);
        drop(under_way);
    }
}

// A key that has not ended, and the answers that its calls got.
#[derive(Drop)]
pub(crate) struct UnderWay {
    pub(crate) key: Key,
    pub(crate) answers: Answers,
}

impl Seat {
    // A seat with a new session. Takes no memory.
    pub(crate) fn new(alloc: Global, typist: u16, book: u16) -> Seat
        requires { (book ≡ 0) ⊎ (book ≡ typist) }
        ensures { result ≡ new_seat typist book }
    {
        Seat {
            typist,
            book,
            keys: Keys::new(alloc),
            session: Session::new(alloc, typist, book),
            under_way: None,
        }
    }

    // The call that the key under way asks.
    pub(crate) fn asked(&self, alloc: Global, rules: &Rules) -> Result<Option<Call>, Memory>
        requires { may_be_answered rules.now self.now ≡ true }
        ensures asked { IfOk result (λ call. call ≡ asked_in rules.now self.now) }
        ensures fit { IfOk result (λ call. IfSome call (λ c. is_fit c ≡ true)) }
    {
        match &self.under_way {
            Some(UnderWay { key, answers }) => {
                self.session.next_call(alloc, rules, *key, answers)
            }
            None => Ok(None),
        }
    }

    // Starts a key.
    pub(crate) fn start(&mut self, alloc: Global, rules: &Rules, key: Key) -> Result<(), Memory>
        requires { IsSeat rules.now self.old }
        ensures seat { IsSeat rules.now self.new }
        ensures started { OnOk result (self.new ≡ with_answers rules.now self.old key []) }
    {
        self.settle(alloc, rules, key, Answers::new(alloc))
    }

    // Takes an answer to the call that the key under way asks.
    pub(crate) fn take(
        &mut self,
        alloc: Global,
        rules: &Rules,
        answer: Answer,
    ) -> Result<(), Memory>
        requires seat { IsSeat rules.now self.old }
        requires asked { IsSomeAnd (asked_in rules.now self.old) (λ call. may_answer call answer ≡ true) }
        ensures seat { IsSeat rules.now self.new }
        ensures answered { OnOk result (self.new ≡ answered rules.now self.old answer) }
    {
        let Some(UnderWay { key, answers }) = self.under_way.take() else {
            return Ok(());
        };
        let mut answers = answers;
        answers.push(answer)?;
        self.settle(alloc, rules, key, answers)
    }

    // Goes on with a key whose calls got these answers: it ends where it asks no more, and is under way else.
    fn settle(
        &mut self,
        alloc: Global,
        rules: &Rules,
        key: Key,
        answers: Answers,
    ) -> Result<(), Memory>
        requires seat { IsSeat rules.now self.old }
        requires may { may_answer_all (pressed rules.now self.old.session key) answers ≡ true }
        ensures seat { IsSeat rules.now self.new }
        ensures settled { OnOk result (self.new ≡ with_answers rules.now self.old key answers) }
    {
        match self.session.end_by(alloc, rules, key, &answers)? {
            Some(session) => {
                self.keys.push(key)?;
                drop(mem::replace(&mut self.session, session));
                drop(mem::replace(&mut self.under_way, None));
            }
            None => drop(mem::replace(&mut self.under_way, Some(UnderWay { key, answers }))),
        }
        Ok(())
    }
}

// Seats with new sessions, each of a typist and a book.
pub(crate) fn new_seats(alloc: Global, sessions: &[(u16, u16)]) -> Result<Vec<Seat>, Memory>
    requires { All (λ session. (session.1 ≡ 0) ⊎ (session.1 ≡ session.0)) sessions.now }
    ensures { IfOk result (λ seats. seats.items ≡ map (λ session. new_seat session.0 session.1) sessions.now) }
{
    let mut seats = Vec::new(alloc);
    for (typist, book) in sessions {
        seats.push(Seat::new(alloc, *typist, *book))?;
    }
    Ok(seats)
}

// The seats with new sessions of the same typists and books.
pub(crate) fn renewed_seats(alloc: Global, seats: &[Seat]) -> Result<Vec<Seat>, Memory>
    requires { All HasBook seats.now }
    ensures { IfOk result (λ new. new.items ≡ map renewed seats.now) }
{
    let mut new = Vec::new(alloc);
    for seat in seats {
        new.push(Seat::new(alloc, seat.typist, seat.book))?;
    }
    Ok(new)
}
