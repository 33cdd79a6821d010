ghost use Rattle.std.specs.Prelude.{◌≡◌, ◌≤◌, true, not, List, length, vec_len, vec_capacity, IfOk, OnOk};
ghost use Rattle.std.specs.List.{list_all};
ghost use Rattle.skk_text.specs.Pairs.{all_pairs};
ghost use Rattle.skk_calls.specs.declared.call.Call.{Call};
ghost use Rattle.skk_calls.specs.Dictionary.{is_call};
ghost use Rattle.skk_calls.specs.Histories.{after_calls};
ghost use Rattle.skk_calls.specs.Rows.{Row};
ghost use Rattle.skk_calls.specs.States.{State, count_of, is_valid};
ghost use Rattle.learn_index.specs.Groups.{AreMade, ArePlanned, HaveRoom, IsGroup, IsLikeFor, book_of_group};
ghost use Rattle.learn_index.specs.Groups.{count_left, learn_apart, learns_in, replies_to};
ghost use Rattle.learn_index.specs.Index.{spare_of};
ghost use Rattle.learn_index.specs.Plans.{is_question, IsPlanned};

use crate::book::RowOrders;
use crate::index::Index;
use crate::plan::{Plan, Plans};
use crate::planning::{BookCount, learning_is_call, plan_learn_at};
use skk_calls::{Call, Calls, Reply};
use skk_text::{Memory, Sequence};
use std::alloc::Global;

/// Replies in order.
pub type Replies = Sequence<Reply>;

/// What the calls of a group will do, in their order, with all memory that they need.
#[derive(Debug, Drop)]
pub struct Group {
    pub plans: Plans,
    // No reply yet, and room for one to each call.
    replies: Vec<Reply>,
    ghost none: { vec_len replies ≡ 0 },
    ghost room: { length plans ≤ vec_capacity replies },
}

impl Group {
    // A group of these plans.
    fn new(alloc: Global, plans: Plans) -> Result<Group, Memory>
        ensures { IfOk result (λ group. group.plans ≡ plans) }
    {
        let replies = Vec::with_capacity(alloc, plans.len())?;
        Ok(Group { plans, replies })
    }
}

impl Index {
    /// Plans a group of learnings, each at the state after those before it, and takes all memory that they need: the
    /// book has room for as many changes as there are calls. The state stays as it was. Takes what `plan` takes for
    /// each call, but that the room grows once.
    pub fn plan_group(&mut self, alloc: Global, calls: &Calls) -> Result<Group, Memory>
        requires { IsGroup self.old.state calls.now }
        ensures state { self.new.state ≡ self.old.state }
        ensures planned { IfOk result (λ group. ArePlanned self.old.state calls.now group.plans) }
        ensures valid { IfOk result (λ _. list_all is_call calls.now ≡ true) }
        ensures made { IfOk result (λ group. AreMade self.new.state group.plans) }
        ensures spare { OnOk result (length calls.now ≤ spare_of self.new (book_of_group calls.now)) }
        ensures room { IfOk result (λ group. HaveRoom self.new group.plans) }
    {
        let calls = calls.as_slice();
        let book = book_of_group(calls);
        self.make_room(alloc, book, calls.len(), RowOrders::ByKeyAndStamp)?;
        let plans = plan_learnings(self, alloc, book, calls)?;
        Group::new(alloc, plans)
    }

    /// Does what was planned of a group, on the state that it was planned on. Takes no memory, and what `apply` takes
    /// for each plan.
    pub fn apply_group(&mut self, group: Group) -> Replies
        requires made { AreMade self.old.state group.plans }
        requires room { HaveRoom self.old group.plans }
        ensures replies { (files : List (List Row)) (calls : List Call)
            → list_all (λ call. not (is_question call)) calls ≡ true
            → ArePlanned self.old.state calls group.plans → result ≡ replies_to files self.old.state calls }
        ensures state { (calls : List Call) → list_all is_call calls ≡ true
            → ArePlanned self.old.state calls group.plans → self.new.state ≡ after_calls self.old.state calls }
    {
        let Group { plans, mut replies } = group;
        for plan in plans.into_vec() {
            replies.push_reserved(self.apply(plan));
        }
        Replies::of(replies)
    }
}

// The book in which the first of some calls learns.
fn book_of_group(calls: &[Call]) -> u16
    ensures { result ≡ book_of_group calls.now }
{
    match calls.first() {
        Some(Call::Learn { book, .. }) => *book,
        _ => 0,
    }
}

// Plans learnings in a book, no two of which are under one key, each at the state after those before it: its row is not
// changed by them, so that it is planned here but for its stamp.
fn plan_learnings(index: &Index, alloc: Global, book: u16, calls: &[Call]) -> Result<Plans, Memory>
    requires learn { list_all (learns_in book) calls.now ≡ true }
    requires apart { all_pairs learn_apart calls.now ≡ true }
    ensures planned { IfOk result (λ plans. ArePlanned index.now.state calls.now plans) }
    ensures valid { IfOk result (λ _. list_all is_call calls.now ≡ true) }
{
    let mut plans = Plans::new(alloc);
    let mut count = index.count(book);
    for call in calls {
        let plan = plan_learning(index, alloc, BookCount { book, count }, call)?;
        count = count_left(&plan, count);
        plans.push(plan)?;
    }
    Ok(plans)
}

// Plans a learning in a book once that has this count, and while the key has the row that it has now.
fn plan_learning(index: &Index, alloc: Global, at: BookCount, call: &Call) -> Result<Plan, Memory>
    requires valid { is_valid index.now.state ≡ true }
    requires learn { learns_in at.book call.now ≡ true }
    requires later { count_of index.now.state at.book ≤ at.count }
    ensures planned { IfOk result (λ plan. (later : State) → IsLikeFor call.now at.count later index.now.state
        → IsPlanned later call.now plan) }
    ensures valid { IfOk result (λ _. is_call call.now ≡ true) }
{
    let Call::Learn {
        key,
        okuri,
        cand,
        ..
    } = call
    else {
        unreachable!()
    };
    let okuri = okuri.as_ref();
    learning_is_call(key, okuri, cand);
    plan_learn_at(index, alloc, at, key, okuri, cand)
}

// The count that a plan leaves a book that has this one.
fn count_left(plan: &Plan, before: u64) -> u64
    ensures { result ≡ count_left before plan.now }
{
    match plan {
        Plan::Move { count, .. } => *count,
        Plan::Still(_) | Plan::Lists { .. } => before,
    }
}
