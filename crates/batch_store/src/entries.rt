ghost use Rattle.std.specs.Prelude.{◌≡◌, ◌++◌, ◌∷◌, [], ◌==◌, ℕ, length, map, IfOk};
ghost use Rattle.skk_calls.specs.declared.answer.Answer.TheVariants.{Done, Refused};
ghost use Rattle.skk_calls.specs.Histories.{FullFile};
ghost use Rattle.skk_calls.specs.Tallies.{empty_tally, tally_with};
ghost use Rattle.learned_store.specs.Stands.{opening_note};
ghost use Rattle.learned_store.specs.Stores.{opening_now};
ghost use Rattle.batch_store.specs.Entries.{answer_planned, entered, entered_at, store_of, tally_behind};

use learn_index::Plan;
use learned_store::Parts;
use skk_calls::{Answer, Call, Chronicle, Noted, Refusal, Reply, Tally};
use skk_disk::Disk;
use skk_text::Memory;
use skk_trace::{Shows, Trace};
use std::alloc::Global;
use std::marker::Model;

// The history of a dictionary whose caller is 0, and what its calls came to.
#[derive(Drop)]
pub(crate) struct Entries {
    pub(crate) trace: Trace<Noted>,
    pub(crate) tally: Tally,
}

impl Entries {
    // Begins the history of a dictionary of these parts. Takes constant memory.
    pub(crate) fn new<D: Disk>(alloc: Global, parts: &Parts<D>) -> Result<Entries, Memory>
        ensures notes { IfOk result (λ entries.
            entries.trace ≡ opening_note (opening_now D.Disk (store_of parts.now)) ∷ []) }
        ensures tally { IfOk result (λ entries. entries.tally ≡ empty_tally) }
    {
        Ok(Entries {
            trace: Trace::new(alloc, &OpeningNote { parts })?,
            tally: Tally::none(),
        })
    }

    // Enters that calls were served with these replies. Takes no memory.
    pub(crate) fn enter_replies<D: Disk>(
        &mut self,
        parts: &Parts<D>,
        calls: &[Call],
        replies: &[Reply],
    )
        requires { length replies.now ≡ length calls.now }
        ensures notes { self.new.trace ≡ self.old.trace
            ++ entered_at D.Disk parts.now calls.now (map (λ reply. Done reply) replies.now) }
        ensures tally { self.new.tally ≡ tally_behind self.old.tally (map (λ reply. Done reply) replies.now) }
    {
        for (call, reply) in calls.iter().zip(replies) {
            self.enter_reply(parts, call, reply);
        }
    }

    // Enters that the disk failed calls that were planned so: those that would change something were refused, and the
    // others served. Takes no memory.
    pub(crate) fn enter_failure<D: Disk>(
        &mut self,
        parts: &Parts<D>,
        calls: &[Call],
        plans: &[Plan],
    )
        requires { length plans.now ≡ length calls.now }
        ensures notes { self.new.trace ≡ self.old.trace
            ++ entered_at D.Disk parts.now calls.now (map answer_planned plans.now) }
        ensures tally { self.new.tally ≡ tally_behind self.old.tally (map answer_planned plans.now) }
    {
        for (call, plan) in calls.iter().zip(plans) {
            self.enter_planned(parts, call, plan);
        }
    }

    // Enters that a call was refused. Takes no memory.
    pub(crate) fn enter_refusal<D: Disk>(
        &mut self,
        parts: &Parts<D>,
        call: &Call,
        refusal: &Refusal,
    )
        ensures notes { self.new.trace ≡ self.old.trace
            ++ entered_at D.Disk parts.now (call.now ∷ []) (Refused refusal.now ∷ []) }
        ensures tally { self.new.tally ≡ tally_with self.old.tally (Refused refusal.now) }
    {
        self.tally.count(&Answer::Refused(*refusal));
        self.trace.note(&RefusalNote {
            parts,
            call,
            refusal,
        });
    }

    // Enters what a call was answered that the disk failed, or its group.
    fn enter_planned<D: Disk>(&mut self, parts: &Parts<D>, call: &Call, plan: &Plan)
        ensures notes { self.new.trace ≡ self.old.trace
            ++ entered_at D.Disk parts.now (call.now ∷ []) (answer_planned plan.now ∷ []) }
        ensures tally { self.new.tally ≡ tally_with self.old.tally (answer_planned plan.now) }
    {
        match plan {
            Plan::Still(reply) => self.enter_reply(parts, call, reply),
            Plan::Move { .. } | Plan::Lists { .. } => {
                self.enter_refusal(parts, call, &Refusal::Disk)
            }
        }
    }

    // Enters that a call was served with this reply.
    fn enter_reply<D: Disk>(&mut self, parts: &Parts<D>, call: &Call, reply: &Reply)
        ensures notes { self.new.trace ≡ self.old.trace
            ++ entered_at D.Disk parts.now (call.now ∷ []) (Done reply.now ∷ []) }
        ensures tally { self.new.tally ≡ tally_with self.old.tally (Done reply.now) }
    {
        count_reply(&mut self.tally, reply);
        self.trace.note(&ReplyNote { parts, call, reply });
    }
}

// Counts one more reply.
fn count_reply(tally: &mut Tally, reply: &Reply)
    ensures { tally.new ≡ tally_with tally.old (Done reply.now) }
{
    let (learned, restored) = match reply {
        Reply::Learned(_) => (tally.learned().saturating_add(1), tally.restored()),
        Reply::Restored => (tally.learned(), tally.restored().saturating_add(1)),
        _ => (tally.learned(), tally.restored()),
    };
    *tally = Tally::new(
        learned,
        restored,
        tally.rows(),
        tally.memory(),
        tally.disk(),
        tally.full(),
    );
}

// What a dictionary was opened with.
#[derive(Drop)]
struct OpeningNote<'a, D> {
    parts: &'a Parts<D>,
}

impl<D: Disk> Shows<Noted> for OpeningNote<'_, D> {
    ghost use Rattle.learned_store.specs.Stands.{opening_note};
    ghost use Rattle.learned_store.specs.Stores.{opening_now};
    ghost use Rattle.batch_store.specs.Entries.{store_of};

    ghost shows = { λ opening. opening_note (opening_now D.Disk (store_of opening.parts.now)) };
}

// That a dictionary, which is as it is since, served a call.
#[derive(Drop)]
struct ReplyNote<'a, D> {
    parts: &'a Parts<D>,
    call: &'a Call,
    reply: &'a Reply,
}

impl<D: Disk> Shows<Noted> for ReplyNote<'_, D> {
    ghost use Rattle.skk_calls.specs.declared.answer.Answer.TheVariants.{Done};
    ghost use Rattle.skk_calls.specs.declared.chronicle.Noted.TheVariants.{Entered};

    ghost shows = { λ served. Entered 0 served.call.now (Done served.reply.now)
        (D.time served.parts.now.journal.disk) (D.faults served.parts.now.journal.disk) };
}

// That it refused one.
#[derive(Drop)]
struct RefusalNote<'a, D> {
    parts: &'a Parts<D>,
    call: &'a Call,
    refusal: &'a Refusal,
}

impl<D: Disk> Shows<Noted> for RefusalNote<'_, D> {
    ghost use Rattle.skk_calls.specs.declared.answer.Answer.TheVariants.{Refused};
    ghost use Rattle.skk_calls.specs.declared.chronicle.Noted.TheVariants.{Entered};

    ghost shows = { λ refused. Entered 0 refused.call.now (Refused refused.refusal.now)
        (D.time refused.parts.now.journal.disk) (D.faults refused.parts.now.journal.disk) };
}
