ghost use Rattle.std.specs.Prelude.{◌≡◌, ◌++◌, ◌∷◌, [], OnOk, IfSome, true};
ghost use Rattle.std.specs.List.{list_all};
ghost use Rattle.skk_outside.specs.Moved.{moved_sink};
ghost use Rattle.key_scripts.specs.Script.{opens_well, session_of};
ghost use Rattle.script_typing.specs.Lines.{line_printed};
ghost use Rattle.script_typing.specs.Sessions.{session_at};
ghost use Rattle.script_typing.specs.Typed.{closing_lines};
ghost use Rattle.skk_top.specs.Typing.{stand, PrintsPage, TypesThrough, TypesOut};

use key_scripts::Line;
use romaji_rules::Rules;
use run_endings::{RunFault, print_full, print_through};
use script_typing::{play_line, push_closing_line, push_output_line};
use session_machine::Session;
use skk_calls::Caller;
use skk_outside::Sink;
use skk_text::{Memory, Text};
use std::alloc::Global;
use std::collections::BTreeMap;

// How far typing has come: the sessions, and a page that is not written yet.
#[derive(Drop)]
struct Progress {
    sessions: BTreeMap<u8, Session>,
    page: Text,
}

/// Types the lines of a script by the rules, asks the caller what their keys ask, and prints an output line for
/// each key line and the closing lines.
pub fn type_script<C: Caller, O: Sink>(
    alloc: Global,
    rules: &Rules,
    lines: &[Line],
    caller: &mut C,
    out: &mut O,
) -> Result<(), RunFault>
    requires { list_all opens_well lines.now ≡ true }
    ensures { TypesOut rules.now lines.now result (C.said caller.old) (C.said caller.new)
        (moved_sink O.Outside out.old out.new) }
{
    let mut progress = Progress {
        sessions: BTreeMap::new(alloc),
        page: Text::new(alloc),
    };
    type_lines(alloc, rules, lines, &mut progress, caller, out)?;
    let Progress { sessions, mut page } = progress;
    close_sessions(alloc, &sessions, &mut page, out)?;
    print_through(out, &page)?;
    Ok(())
}

// Types the lines. What is not written yet is left in the page.
fn type_lines<C: Caller, O: Sink>(
    alloc: Global,
    rules: &Rules,
    lines: &[Line],
    progress: &mut Progress,
    caller: &mut C,
    out: &mut O,
) -> Result<(), RunFault>
    requires { list_all opens_well lines.now ≡ true }
    ensures { TypesThrough rules.now lines.now result
        (stand progress.old.sessions.entries progress.old.page (C.said caller.old))
        (stand progress.new.sessions.entries progress.new.page (C.said caller.new))
        (moved_sink O.Outside out.old out.new) }
{
    for line in lines {
        type_line(alloc, rules, line, progress, caller, out)?;
    }
    Ok(())
}

// Types a line: plays it, and adds its output line to the page.
fn type_line<C: Caller, O: Sink>(
    alloc: Global,
    rules: &Rules,
    line: &Line,
    progress: &mut Progress,
    caller: &mut C,
    out: &mut O,
) -> Result<(), RunFault>
    requires { opens_well line.now ≡ true }
    ensures { TypesThrough rules.now (line.now ∷ []) result
        (stand progress.old.sessions.entries progress.old.page (C.said caller.old))
        (stand progress.new.sessions.entries progress.new.page (C.said caller.new))
        (moved_sink O.Outside out.old out.new) }
{
    play_line(alloc, rules, line, &mut progress.sessions, caller)?;
    push_printed(alloc, line, &progress.sessions, &mut progress.page)?;
    print_full(alloc, out, &mut progress.page)?;
    Ok(())
}

// Adds the output line of a line of keys, whose session is there, to the page.
fn push_printed(
    alloc: Global,
    line: &Line,
    sessions: &BTreeMap<u8, Session>,
    page: &mut Text,
) -> Result<(), Memory>
    ensures { IfSome (session_at sessions.now.entries (session_of line.now)) (λ session.
        OnOk result (page.new ≡ page.old ++ line_printed line.now session)) }
{
    let Line::Keys {
        session: number,
        ..
    } = line
    else {
        return Ok(());
    };
    let Some(session) = sessions.get(number) else {
        return Ok(());
    };
    push_output_line(alloc, page, *number, session)
}

/// Adds the closing lines of all sessions to the page.
pub fn close_sessions<O: Sink>(
    alloc: Global,
    sessions: &BTreeMap<u8, Session>,
    page: &mut Text,
    out: &mut O,
) -> Result<(), RunFault>
    ensures { PrintsPage (page.old ++ closing_lines sessions.now.entries) page.new result
        (moved_sink O.Outside out.old out.new) }
{
    for (number, session) in sessions {
        push_closing_line(page, *number, session)?;
        print_full(alloc, out, page)?;
    }
    Ok(())
}
