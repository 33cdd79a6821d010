ghost use Rattle.std.specs.Prelude.{◌≡◌, true};
ghost use Rattle.std.specs.List.{list_all};
ghost use Rattle.key_scripts.specs.Script.{opens_well};
ghost use Rattle.session_machine.specs.Said.{Says, after, spoken};
ghost use Rattle.session_machine.specs.Session.{new_session};
ghost use Rattle.script_typing.specs.Lines.{line_played, PlaysLine, PlaysLines};

use key_scripts::Line;
use romaji_rules::Rules;
use session_machine::Session;
use skk_calls::Caller;
use skk_text::Memory;
use std::alloc::Global;
use std::collections::BTreeMap;

/// Plays lines one after another, each in the session that it names: asks the caller what their keys ask, and prints
/// nothing.
pub fn play_lines<C: Caller>(
    alloc: Global,
    rules: &Rules,
    lines: &[Line],
    sessions: &mut BTreeMap<u8, Session>,
    caller: &mut C,
) -> Result<(), Memory>
    requires { list_all opens_well lines.now ≡ true }
    ensures { PlaysLines rules.now lines.now result sessions.old.entries sessions.new.entries (C.said caller.old)
        (C.said caller.new) }
{
    for line in lines {
        play_line(alloc, rules, line, sessions, caller)?;
    }
    Ok(())
}

/// Plays a line in the session that it names, which is a new one where it is not there.
pub fn play_line<C: Caller>(
    alloc: Global,
    rules: &Rules,
    line: &Line,
    sessions: &mut BTreeMap<u8, Session>,
    caller: &mut C,
) -> Result<(), Memory>
    requires { opens_well line.now ≡ true }
    ensures { PlaysLine rules.now line.now result sessions.old.entries sessions.new.entries
        (spoken C.number C.said caller.old) (spoken C.number C.said caller.new) }
{
    let number = line.session();
    let session = sessions
        .entry(number)?
        .or_insert(new_session(alloc, number));
    play_in_session(alloc, rules, line, session, caller)
}

/// Plays a line in its session: presses its keys there, or opens the session anew.
pub fn play_in_session<C: Caller>(
    alloc: Global,
    rules: &Rules,
    line: &Line,
    session: &mut Session,
    caller: &mut C,
) -> Result<(), Memory>
    requires { opens_well line.now ≡ true }
    ensures { Says (line_played rules.now session.old line.now) (after result session.new)
        (spoken C.number C.said caller.old) (spoken C.number C.said caller.new) }
{
    match line {
        Line::Keys { session: _, keys } => {
            session.press_keys(alloc, rules, keys.as_slice(), caller)
        }
        Line::Opening {
            session: _,
            typist,
            book,
        } => {
            *session = Session::new(alloc, *typist, *book);
            Ok(())
        }
    }
}

/// A new session of a number, which is its typist and its book.
pub fn new_session(alloc: Global, number: u8) -> Session
    ensures { result ≡ new_session number number }
{
    Session::new(alloc, u16::from(number), u16::from(number))
}
