ghost use Rattle.std.specs.Prelude.{◌≡◌, ◌⊎◌, ◌≤◌, ◌+◌, ℕ, if◌then◌else◌, min, true, false, Option, IfOk, IfSome};
ghost use Rattle.skk_text.specs.Counts.{last_count};
ghost use Rattle.skk_outside.specs.Faults.{Rose};
ghost use Rattle.skk_disk.specs.Runs.{Advances};
ghost use Rattle.skk_calls.specs.Dictionary.{answer, is_fit, is_share, may_answer, may_reply, moves, speaks_of};
ghost use Rattle.skk_calls.specs.Histories.{after_answer, need, tells_change, tight, IsLegalAnswer, LacksRoom};
ghost use Rattle.skk_calls.specs.Rows.{RowKey as key_value, same_key};
ghost use Rattle.skk_calls.specs.States.{State, rows_of};
ghost use Rattle.skk_calls.specs.Tallies.{count_rows};
ghost use Rattle.dict_format.specs.PrintedFiles.{printed_file};
ghost use Rattle.learn_index.specs.FileRows.{AreFileRows};
ghost use Rattle.learn_index.specs.Plans.{is_question};
ghost use Rattle.skk_journal.specs.Journal.{is_in_doubt};
ghost use Rattle.skk_journal.specs.Images.{Each};
ghost use Rattle.learned_store.specs.KeptLookUps.{is_look_up};
ghost use Rattle.learned_store.specs.Served.{Serves, end_added, version_added};
ghost use Rattle.learned_store.specs.Stores.{opening_now, Keeps, RecoversOneOf, states_within, DoubtAfter};

use crate::changing::change;
use crate::kept_answers::KeptAnswers;
use crate::parts::Parts;
use dict_format::print_file;
use dict_laws::changes_leave_what_is_found_of_other_keys;
use dict_layers::System;
use learn_index::{FileRows, Index, file_rows};
use skk_calls::{Answer, Call, Refusal, Reply, RowKey};
use skk_disk::Disk;
use skk_journal::Journal;
use skk_text::{Memory, Text};
use std::alloc::Global;
use std::marker::Model;

/// A learned dictionary over system files, each of whose changes stands in the live file of a disk.
#[derive(Drop)]
pub struct Store<D> {
    pub(crate) journal: Journal<D>,
    pub(crate) index: Index,
    pub(crate) system: System,
    pub(crate) limit: u64,
    pub(crate) kept: KeptAnswers,
}

impl<D> Model for Store<D> {
    ghost use Rattle.std.specs.Prelude.{◌≤◌};
    ghost use Rattle.skk_calls.specs.Histories.{tight};
    ghost use Rattle.learned_store.specs.KeptLookUps.{AreAnswers};
    ghost use Rattle.learned_store.specs.Stores.{OpenStore};

    ghost Value = { OpenStore D };

    ghost view = { λ s. record { journal = s.journal; state = s.index.state; files = s.system; limit = s.limit } };

    // The live file holds at least what the state needs, and what is kept of look-ups is what they find.
    ghost invariant = { λ s. (tight s.index.state ≤ s.journal.end) × AreAnswers s.system s.index.state s.kept };
}

impl<D> Store<D> {
    /// The system files. Takes no memory.
    pub fn system(&self) -> &System
        ensures { result.now ≡ self.now.files }
    {
        &self.system
    }

    /// How many rows there are in all books, up to 2^64 - 1. Takes constant time and no memory.
    pub fn rows(&self) -> u64
        ensures { result ≡ min (count_rows self.now.state) last_count }
    {
        self.index.rows()
    }

    /// The text of a dictionary file with the rows of a book, which has none where it was never changed. Takes time
    /// in the length of that text, and with one logarithm in the number of rows.
    pub fn dump(&self, alloc: Global, number: u16) -> Result<Text, Memory>
        ensures { IfOk result (λ text. text ≡ printed_file (rows_of self.now.state number)) }
    {
        let book = self.index.book(alloc, number)?;
        print_file(alloc, &book)
    }

    /// Whether a call is a look-up whose answer is kept, so that `serve` need not find it again. Takes no memory.
    pub fn kept(&self, call: &Call) -> bool
        ensures { is_look_up call.now ≡ false → result ≡ false }
    {
        self.kept.has(call)
    }

    /// The version of the live file. Takes no memory.
    pub fn version(&self) -> u8
        ensures { result ≡ self.now.journal.live.version }
    {
        self.journal.version()
    }

    /// Gives the disk back as it is. Takes no memory.
    pub fn close(self) -> D
        ensures { result ≡ self.journal.disk }
    {
        self.journal.close()
    }

    /// Takes the store apart, where nothing is in doubt; what is kept of look-ups goes. The live file of the journal
    /// holds at least what the state of the index needs. Takes no memory.
    pub fn into_parts(self) -> Parts<D>
        requires calm { is_in_doubt self.journal.doubt ≡ false }
        ensures index { result.index.state ≡ self.state }
        ensures system { result.system ≡ self.files }
        ensures journal { result.journal ≡ self.journal }
        ensures limit { result.limit ≡ self.limit }
        ensures tight { tight result.index.state ≤ result.journal.end }
    {
        let Store {
            journal,
            index,
            system,
            limit,
            ..
        } = self;
        Parts {
            index,
            system,
            journal,
            limit,
        }
    }
}

impl<D: Disk> Store<D> {
    /// Answers a call. For a change all memory is taken first, and then its record is added to the live file, after a
    /// gate in doubt was closed; a change is made only where its record was added. Where the live file has no room for
    /// it, or is of a version that does not have it, the rows and lists of the state are written into the other file
    /// first, which is live then and of the newest version; it is refused only where it has no room there either. Where
    /// the call changes nothing, and after `Refused(Memory)`, the disk was not touched. Costs what the call costs the
    /// index, and a change two writes and two syncs, or three where a gate was in doubt; where the other file is
    /// written, at most eleven calls more, and time and memory in what the rows and lists hold.
    pub fn serve(&mut self, alloc: Global, call: &Call) -> Answer
        requires { is_fit call.now ≡ true }

        // The answer is that of a dictionary of one thread, or a refusal with its cause.
        ensures legal { IsLegalAnswer LacksRoom (opening_now D.Disk self.old) self.old.state call.now result }
        ensures may { may_answer call.now result ≡ true }
        ensures fits { tells_change result ≡ true →
            tight self.old.state + need self.old.state call.now ≤ self.old.limit }
        ensures room { result ≡ Answer.Refused Refusal.Disk → (is_in_doubt self.old.journal.doubt ≡ true)
            ⊎ (tight self.old.state + need self.old.state call.now ≤ self.old.limit) }
        ensures failed { result ≡ Answer.Refused Refusal.Disk →
            Rose (D.faults self.old.journal.disk) (D.faults self.new.journal.disk) }

        // What stands after it.
        ensures state { self.new.state ≡ after_answer self.old.state call.now result }
        ensures end { tells_change result ≡ true → self.new.journal.end ≡ end_added self.old call.now }
        ensures version { tells_change result ≡ true →
            self.new.journal.live.version ≡ version_added self.old call.now }
        ensures files { self.new.files ≡ self.old.files }
        ensures limit { self.new.limit ≡ self.old.limit }
        ensures still { moves self.old.state call.now ≡ false → self.new.journal ≡ self.old.journal }
        ensures memory { result ≡ Answer.Refused Refusal.Memory → self.new.journal ≡ self.old.journal }

        // What each image is opened as at each moment, and what is kept and in doubt afterwards.
        ensures images { (doubt : Option State) →
            Keeps D.Disk self.old.journal self.old.state doubt →
            Each (D.left_since self.new.journal.disk (D.time self.old.journal.disk))
            (RecoversOneOf (states_within self.old.state doubt call.now result)) }
        ensures after { (doubt : Option State) →
            Keeps D.Disk self.old.journal self.old.state doubt →
            (now : Option State) × DoubtAfter self.old.state doubt call.now result now
            × Keeps D.Disk self.new.journal self.new.state now }

        ensures advances { Advances D.Disk self.old.journal.disk self.new.journal.disk }
    {
        self.serve_over(alloc, None, call)
    }

    /// Answers a call as `serve` does, also where the files' rows for it were found before.
    pub fn serve_over(&mut self, alloc: Global, found: Option<FileRows>, call: &Call) -> Answer
        requires fit { is_fit call.now ≡ true }
        requires found { IfSome found (AreFileRows self.old.files call.now) }
        ensures { Serves D.Disk self.old self.new call.now result }
    {
        match call {
            Call::Lookup { .. } | Call::Complete { .. } => self.answer(alloc, found, call),
            Call::Learn { key, .. } => self.change(alloc, key, call),
            Call::Purge { key, .. } => self.change(alloc, key, call),
            Call::Annotate { key, .. } => self.change(alloc, key, call),
            Call::Share { .. } => self.share(alloc, call),
            Call::Unlearn { learned } => self.change(alloc, learned.key(), call),
        }
    }

    // Answers a change of a typist's list of books. It may change what is found of any reading, so all that is kept
    // goes first.
    fn share(&mut self, alloc: Global, call: &Call) -> Answer
        requires change { is_question call.now ≡ false }
        requires fit { is_fit call.now ≡ true }
        ensures { Serves D.Disk self.old self.new call.now result }
    {
        self.kept.clear();
        change(alloc, &mut self.journal, &mut self.index, self.limit, call)
    }

    // Answers a change, which speaks of the row of a key: what is kept of its reading goes first.
    fn change(&mut self, alloc: Global, key: &RowKey, call: &Call) -> Answer
        requires change { is_question call.now ≡ false }
        requires fit { is_fit call.now ≡ true }
        requires row { is_share call.now ≡ false }
        requires key { (book : ℕ) (other : key_value) → speaks_of call.now book other ≡ true
            → same_key key.now other ≡ true }
        ensures { Serves D.Disk self.old self.new call.now result }
    {
        changes_leave_what_is_found_of_other_keys();
        self.kept.forget(key);
        change(alloc, &mut self.journal, &mut self.index, self.limit, call)
    }

    // Answers a look-up or a completion.
    fn answer(&mut self, alloc: Global, found: Option<FileRows>, call: &Call) -> Answer
        requires question { is_question call.now ≡ true }
        requires found { IfSome found (AreFileRows self.old.files call.now) }
        ensures { Serves D.Disk self.old self.new call.now result }
    {
        match self.reply(alloc, found, call) {
            Ok(reply) => Answer::Done(reply),
            Err(Memory) => Answer::Refused(Refusal::Memory),
        }
    }

    // The reply to a look-up or a completion: what is kept of it, unless the files' rows for it were found already, or
    // else what is found, which is kept then.
    fn reply(
        &mut self,
        alloc: Global,
        found: Option<FileRows>,
        call: &Call,
    ) -> Result<Reply, Memory>
        requires question { is_question call.now ≡ true }
        requires found { IfSome found (AreFileRows self.old.files call.now) }
        ensures value { IfOk result (λ reply. reply ≡ answer self.old.files self.old.state call.now) }
        ensures may { IfOk result (λ reply. may_reply call.now reply ≡ true) }
        ensures same { self.new ≡ self.old }
    {
        let found = match found {
            Some(found) => found,
            None => match self.kept.answer(alloc, call)? {
                Some(cands) => return Ok(Reply::Found(cands)),
                None => file_rows(alloc, &self.system, call),
            },
        };
        let reply = self.index.answer_over(alloc, &self.system, found, call)?;
        if let Reply::Found(cands) = &reply {
            self.kept.keep(alloc, call, cands);
        }
        Ok(reply)
    }
}
