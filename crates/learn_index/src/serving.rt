ghost use Rattle.std.specs.Prelude.{◌≡◌, true, false, IfOk, List, OnErr, OnOk};
ghost use Rattle.skk_calls.specs.Dictionary.{after, answer, is_fit, may_reply};
ghost use Rattle.skk_calls.specs.Rows.{Row};
ghost use Rattle.learn_index.specs.Plans.{is_question};

use crate::index::Index;
use dict_layers::System;
use skk_calls::{Call, Reply};
use skk_text::Memory;
use std::alloc::Global;

impl Index {
    /// What a call is answered over these system files. A change is made, and after `Memory` the state is as it was.
    /// Costs what `answer` costs, or what `plan` and `apply` cost together.
    pub fn serve(&mut self, alloc: Global, system: &System, call: &Call) -> Result<Reply, Memory>
        requires { is_fit call.now ≡ true }
        ensures reply { IfOk result (λ reply. reply ≡ answer system.now self.old.state call.now) }
        ensures may { IfOk result (λ reply. may_reply call.now reply ≡ true) }
        ensures ok { OnOk result (self.new.state ≡ after self.old.state call.now) }
        ensures err { OnErr result (self.new.state ≡ self.old.state) }
    {
        match call {
            Call::Lookup { .. } | Call::Complete { .. } => self.answer(alloc, system, call),
            Call::Learn { .. }
            | Call::Purge { .. }
            | Call::Annotate { .. }
            | Call::Share { .. }
            | Call::Unlearn { .. } => self.change(alloc, call),
        }
    }

    // Makes a change.
    fn change(&mut self, alloc: Global, call: &Call) -> Result<Reply, Memory>
        requires change { is_question call.now ≡ false }
        requires fit { is_fit call.now ≡ true }
        ensures reply { (files : List (List Row))
            → IfOk result (λ reply. reply ≡ answer files self.old.state call.now) }
        ensures may { IfOk result (λ reply. may_reply call.now reply ≡ true) }
        ensures ok { OnOk result (self.new.state ≡ after self.old.state call.now) }
        ensures err { OnErr result (self.new.state ≡ self.old.state) }
    {
        let plan = self.plan(alloc, call)?;
        Ok(self.apply(plan))
    }
}
