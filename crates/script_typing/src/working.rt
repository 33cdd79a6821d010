ghost use Rattle.std.specs.Prelude.{◌≡◌, true};
ghost use Rattle.std.specs.List.{list_all};
ghost use Rattle.key_scripts.specs.Script.{opens_well};
ghost use Rattle.script_typing.specs.Workers.{IsNew, HasRun, StaysOwn, LeavesOwnLines, TypesOwnLine};

use crate::pages::Pages;
use crate::playing::{new_session, play_in_session};
use crate::printing::push_output_line;
use crate::worker::Worker;
use key_scripts::Line;
use romaji_rules::Rules;
use skk_calls::Caller;
use skk_outside::Gate;
use skk_text::{Memory, Sequence, Text};
use std::alloc::Global;
use std::mem;

impl<C: Caller> Worker<C> {
    /// A worker that has typed nothing. Takes no memory.
    pub fn new(alloc: Global, number: u8, lines: Sequence<Line>, caller: C) -> Worker<C>
        requires { list_all opens_well lines ≡ true }
        ensures new { IsNew number lines result }
        ensures caller { result.caller ≡ caller }
    {
        Worker {
            number,
            lines,
            caller,
            session: new_session(alloc, number),
            pages: Pages::new(alloc),
            ended: Ok(()),
        }
    }

    /// Types its lines, one after another, and comes to the gate in front of each line of keys. Where memory is out it
    /// stops there.
    pub fn run<G: Gate>(&mut self, alloc: Global, rules: &Rules, gate: &G)
        ensures { HasRun C.Caller rules.now self.old self.new }
    {
        let lines = mem::replace(&mut self.lines, Sequence::new(alloc));
        self.ended = self.type_lines(alloc, rules, gate, lines.as_slice());
    }

    // Types lines, one after another.
    fn type_lines<G: Gate>(
        &mut self,
        alloc: Global,
        rules: &Rules,
        gate: &G,
        lines: &[Line],
    ) -> Result<(), Memory>
        requires opens { list_all opens_well lines.now ≡ true }
        ensures stays { StaysOwn C.Caller self.old self.new }
        ensures leaves { LeavesOwnLines C.Caller rules.now lines.now result self.old self.new }
    {
        for line in lines {
            self.type_line(alloc, rules, gate, line)?;
        }
        Ok(())
    }

    // Types a line: plays it in the session, and prints the output line of keys on a page.
    fn type_line<G: Gate>(
        &mut self,
        alloc: Global,
        rules: &Rules,
        gate: &G,
        line: &Line,
    ) -> Result<(), Memory>
        requires opens { opens_well line.now ≡ true }
        ensures { TypesOwnLine C.Caller rules.now line.now result self.old self.new }
    {
        match line {
            Line::Keys { .. } => {
                gate.at(self.caller.number(), self.pages.len() as u64);
                play_in_session(alloc, rules, line, &mut self.session, &mut self.caller)?;
                let mut page = Text::new(alloc);
                push_output_line(alloc, &mut page, self.number, &self.session)?;
                self.pages.push(page)?;
                Ok(())
            }
            Line::Opening { .. } => {
                play_in_session(alloc, rules, line, &mut self.session, &mut self.caller)
            }
        }
    }
}
