ghost use Rattle.std.specs.Prelude.{◌≡◌, ◌≤◌, ◌++◌, true, All, IfOk, OnOk, length};
ghost use Rattle.std.specs.List.{list_all};
ghost use Rattle.std.specs.Map.{values_of};
ghost use Rattle.std.specs.Option.{option_to_list};
ghost use Rattle.key_scripts.specs.Script.{opens_well};
ghost use Rattle.script_typing.specs.MapLaws.{AreBelow, Ascend};
ghost use Rattle.script_typing.specs.Woven.{tasks_of, with_line, number_printed, numbers_printed};

use key_scripts::{Line, Script};
use skk_text::{Memory, Sequence};
use std::alloc::Global;
use std::collections::BTreeMap;

/// A script that was cut among its sessions.
#[derive(Drop)]
pub struct Cut {
    /// The lines of each session.
    pub tasks: BTreeMap<u8, Sequence<Line>>,
    /// The numbers of the sessions that print a line, in the order of the script.
    pub order: Vec<u8>,
}

/// Cuts a script among its sessions. Takes time in the number of lines, not in their keys, which it moves.
pub fn cut_script(alloc: Global, script: Script) -> Result<Cut, Memory>
    ensures tasks { IfOk result (λ cut. cut.tasks.entries ≡ tasks_of script) }
    ensures order { IfOk result (λ cut. cut.order.items ≡ numbers_printed script) }
    ensures ascend { IfOk result (λ cut. Ascend cut.tasks.entries) }
    ensures few { IfOk result (λ cut. length cut.tasks.entries ≤ 256) }
    ensures opens { IfOk result (λ cut. All (λ lines. list_all opens_well lines ≡ true)
        (values_of cut.tasks.entries)) }
{
    cut_lines(alloc, script.into_lines())
}

/// Cuts lines among their sessions. Takes time in the number of lines, not in their keys, which it moves.
pub fn cut_lines(alloc: Global, lines: Vec<Line>) -> Result<Cut, Memory>
    requires { list_all opens_well lines.items ≡ true }
    ensures tasks { IfOk result (λ cut. cut.tasks.entries ≡ tasks_of lines.items) }
    ensures order { IfOk result (λ cut. cut.order.items ≡ numbers_printed lines.items) }
    ensures ascend { IfOk result (λ cut. Ascend cut.tasks.entries) }
    ensures few { IfOk result (λ cut. length cut.tasks.entries ≤ 256) }
    ensures opens { IfOk result (λ cut. All (λ own. list_all opens_well own ≡ true) (values_of cut.tasks.entries)) }
{
    let mut tasks = BTreeMap::new(alloc);
    let mut order = Vec::new(alloc);
    for line in lines {
        push_number(&line, &mut order)?;
        push_line(alloc, line, &mut tasks)?;
    }
    Ok(Cut { tasks, order })
}

// Adds the number of a line's session, where it prints a line.
fn push_number(line: &Line, order: &mut Vec<u8>) -> Result<(), Memory>
    ensures { OnOk result (order.new.items ≡ order.old.items ++ option_to_list (number_printed line.now)) }
{
    match line {
        Line::Keys { session, keys: _ } => {
            order.push(*session)?;
        }
        Line::Opening {
            session: _,
            typist: _,
            book: _,
        } => {}
    }
    Ok(())
}

// Adds a line behind those of its session.
#[tactic(auto, using(crate::specs::MapLaws::put_again))]
fn push_line(
    alloc: Global,
    line: Line,
    tasks: &mut BTreeMap<u8, Sequence<Line>>,
) -> Result<(), Memory>
    ensures put { OnOk result (tasks.new.entries ≡ with_line tasks.old.entries line) }
    ensures below { AreBelow 256 tasks.old.entries → OnOk result (AreBelow 256 tasks.new.entries) }
{
    let number = line.session();
    let mut lines = tasks
        .insert(number, Sequence::new(alloc))?
        .unwrap_or(Sequence::new(alloc));
    lines.push(line)?;
    tasks.insert(number, lines)?;
    Ok(())
}
