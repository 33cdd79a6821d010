ghost use Rattle.std.specs.Prelude.{◌≡◌, ◌<◌, ◌++◌, IfOk, OnOk};
ghost use Rattle.load_input.specs.Lines.{typed, begun, capital, keys_of, behind_line, line_drawn, round, behind_round};
ghost use Rattle.load_input.specs.Lines.{lines_drawn};

use crate::draws::Draws;
use crate::kind::Kind;
use crate::syllable::{SYLLABLES, syllable};
use key_scripts::Line;
use skk_text::{Key, Keys, Memory, Sequence};
use std::alloc::Global;

/// How many kinds of lines there are.
const KINDS: u64 = 4;

/// So many lines of each session, drawn from a seed. Costs constant time a line.
pub fn draw_lines(
    alloc: Global,
    seed: u64,
    sessions: u8,
    lines: u64,
) -> Result<Sequence<Line>, Memory>
    ensures { IfOk result (λ drawn. drawn ≡ lines_drawn seed sessions lines) }
{
    let mut draws = Draws { state: seed };
    let mut drawn = Sequence::new(alloc);
    for _ in 0..lines {
        draw_round(alloc, &mut draws, sessions, &mut drawn)?;
    }
    Ok(drawn)
}

// Draws a line of each session.
fn draw_round(
    alloc: Global,
    draws: &mut Draws,
    sessions: u8,
    lines: &mut Sequence<Line>,
) -> Result<(), Memory>
    ensures lines { OnOk result (lines.new ≡ lines.old ++ round draws.old.state 1 sessions) }
    ensures state { OnOk result (draws.new.state ≡ behind_round draws.old.state sessions) }
{
    for before in 0..sessions {
        let line = draw_line(alloc, draws, before + 1)?;
        lines.push(line)?;
    }
    Ok(())
}

// Draws a line of a session.
fn draw_line(alloc: Global, draws: &mut Draws, session: u8) -> Result<Line, Memory>
    ensures line { IfOk result (λ line. line ≡ line_drawn draws.old.state session) }
    ensures state { OnOk result (draws.new.state ≡ behind_line draws.old.state) }
{
    let first = draws.below(SYLLABLES);
    let second = draws.below(SYLLABLES);
    let kind = Kind::of(draws.below(KINDS));
    let keys = keys_of(alloc, kind, first, second)?;
    Ok(Line::Keys { session, keys })
}

// The keys of a line of a kind, with the word of two syllables.
fn keys_of(alloc: Global, kind: Kind, first: u64, second: u64) -> Result<Keys, Memory>
    requires first { first < 16 }
    requires second { second < 16 }
    ensures { IfOk result (λ keys. keys ≡ keys_of kind first second) }
{
    let mut keys = Keys::new(alloc);
    push_first(&mut keys, kind, syllable(first))?;
    push_letters(&mut keys, syllable(second).as_bytes())?;
    for key in kind.keys_behind() {
        keys.push(*key)?;
    }
    Ok(keys)
}

// Adds the first syllable of a word: where the word is converted, its first letter is in upper case.
fn push_first(keys: &mut Keys, kind: Kind, letters: &str) -> Result<(), Memory>
    ensures { OnOk result (keys.new ≡ keys.old ++ typed (begun kind letters.now)) }
{
    match kind {
        Kind::Typed => push_letters(keys, letters.as_bytes()),
        Kind::First | Kind::Second | Kind::TakenBack => push_capital(keys, letters.as_bytes()),
    }
}

// Adds letters, the first of them in upper case.
fn push_capital(keys: &mut Keys, letters: &[u8]) -> Result<(), Memory>
    ensures { OnOk result (keys.new ≡ keys.old ++ typed (capital letters.now)) }
{
    let Some((first, rest)) = letters.split_first() else {
        return Ok(());
    };
    keys.push(Key::Char(first.to_ascii_uppercase()))?;
    push_letters(keys, rest)
}

// Adds letters.
fn push_letters(keys: &mut Keys, letters: &[u8]) -> Result<(), Memory>
    ensures { OnOk result (keys.new ≡ keys.old ++ typed letters.now) }
{
    for letter in letters {
        keys.push(Key::Char(*letter))?;
    }
    Ok(())
}
