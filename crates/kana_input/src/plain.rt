ghost use Rattle.std.specs.Prelude.{◌≡◌, ◌<◌};
ghost use Rattle.kana_input.specs.Plain.{no_insertion, insertion, kana_in, char_in_mode, plain_step};

use crate::insertion::Insertion;
use romaji_rules::{Kana, OutRef, Pending, Rules};
use skk_text::{Key, Mode, to_wide};

/// What a key of the plain state does to the frame besides the text that it inserts.
#[derive(Clone, Copy, Debug, PartialEq, Eq)]
pub enum PlainThen {
    /// Nothing.
    Stay,
    /// The text loses its last character.
    DeleteLast,
    /// A newline is inserted, or a registration ends.
    Newline,
    /// A reading opens, and reads this letter.
    OpenReading(Option<u8>),
    /// A reading of abbreviations opens.
    OpenAbbrev,
    /// A registration is cancelled.
    Cancel,
    /// The last confirmation is to be taken back.
    AskUndo,
}

/// What a key of the plain state does to its frame: first the text is inserted, then the rest is done.
#[derive(Drop)]
pub struct PlainDo<'r> {
    pub insert: Insertion<'r>,
    pub then: PlainThen,
}

/// The plain state of a frame: its mode, and the letters that wait for more.
#[derive(Drop)]
pub struct Plain {
    pub mode: Mode,
    pub pending: Pending,
}

/// Reads a key in the plain state. Takes no memory: what is inserted stands in the rules until it is pushed.
pub fn press_plain<'r>(plain: &mut Plain, rules: &'r Rules, key: Key) -> PlainDo<'r>
    ensures { plain_step rules.now plain.old key ≡ record { plain = plain.new; done = result } }
{
    match plain.mode {
        Mode::Hira | Mode::Kata => plain.press_kana(rules, key),
        Mode::Ascii | Mode::Wide => plain.press_ascii(rules, key),
    }
}

impl Plain {
    ghost use Rattle.std.specs.Prelude.{◌≡◌, ℕ, List, ◌∷◌, [], None, Some, false};
    ghost use Rattle.std.specs.Option.{option_to_list};
    ghost use Rattle.kana_input.specs.Plain.{new_plain, kana_step, kana_char_step, ascii_step, flush_step, feed_step};
    ghost use Rattle.romaji_rules.specs.Typed.{extends_pending};

    /// Hiragana mode, with nothing pending. Takes no memory.
    pub fn new() -> Plain
        ensures { result ≡ new_plain }
    {
        Plain {
            mode: Mode::Hira,
            pending: Pending::new(),
        }
    }

    // Reads a key in a kana mode.
    fn press_kana<'r>(&mut self, rules: &'r Rules, key: Key) -> PlainDo<'r>
        ensures { kana_step rules.now self.old key ≡ record { plain = self.new; done = result } }
    {
        match key {
            Key::Char(c) => self.press_kana_char(rules, c),
            Key::Cj => self.flush(rules, self.mode, None, PlainThen::Stay),
            Key::Cg => {
                if self.pending.is_empty() {
                    return no_insertion(PlainThen::Cancel);
                }
                self.pending = Pending::new();
                no_insertion(PlainThen::Stay)
            }
            Key::Bs => {
                if self.pending.is_empty() {
                    return no_insertion(PlainThen::DeleteLast);
                }
                self.pending.delete_last();
                no_insertion(PlainThen::Stay)
            }
            Key::Ret => self.flush(rules, self.mode, None, PlainThen::Newline),
            Key::Tab => no_insertion(PlainThen::Stay),
            Key::Undo => no_insertion(PlainThen::AskUndo),
        }
    }

    // Reads a character in a kana mode. A character that goes on with what is pending does nothing else.
    fn press_kana_char<'r>(&mut self, rules: &'r Rules, c: u8) -> PlainDo<'r>
        ensures { kana_char_step rules.now self.old c ≡ record { plain = self.new; done = result } }
    {
        match rules.extend(&mut self.pending, c) {
            Some(out) => insertion(self.mode, out),
            None => self.press_anew(rules, c),
        }
    }

    // Reads a character in a kana mode that does not go on with what is pending.
    fn press_anew<'r>(&mut self, rules: &'r Rules, c: u8) -> PlainDo<'r>
        requires { extends_pending rules.now self.old.pending c ≡ false }
        ensures { kana_char_step rules.now self.old c ≡ record { plain = self.new; done = result } }
    {
        let mode = self.mode;
        match c {
            b' ' => self.flush(rules, mode, Some(' '), PlainThen::Stay),
            b'q' => self.flush(rules, mode.other_kana(), None, PlainThen::Stay),
            b'l' => self.flush(rules, Mode::Ascii, None, PlainThen::Stay),
            b'L' => self.flush(rules, Mode::Wide, None, PlainThen::Stay),
            b'Q' => self.flush(rules, mode, None, PlainThen::OpenReading(None)),
            b'/' => self.flush(rules, mode, None, PlainThen::OpenAbbrev),
            b'A'..=b'Z' => {
                let letter = c.to_ascii_lowercase();
                self.flush(rules, mode, None, PlainThen::OpenReading(Some(letter)))
            }
            _ => insertion(mode, rules.feed_anew(&mut self.pending, c)),
        }
    }

    // Gives out what is pending, with a character behind it or none, and goes to a mode.
    fn flush<'r>(
        &mut self,
        rules: &'r Rules,
        mode: Mode,
        behind: Option<char>,
        then: PlainThen,
    ) -> PlainDo<'r>
        ensures { flush_step rules.now self.old mode (option_to_list behind) (then)
            ≡ record { plain = self.new; done = result } }
    {
        let insert = Insertion {
            out: rules.flush(&mut self.pending),
            kana: kana_in(self.mode),
            behind,
        };
        self.mode = mode;
        PlainDo { insert, then }
    }

    // Reads a key in one of the two ASCII modes.
    fn press_ascii<'r>(&mut self, rules: &'r Rules, key: Key) -> PlainDo<'r>
        ensures { ascii_step rules.now self.old key ≡ record { plain = self.new; done = result } }
    {
        match key {
            Key::Char(c) => PlainDo {
                insert: Insertion {
                    out: OutRef::nothing(),
                    kana: Kana::Hiragana,
                    behind: Some(char_in_mode(self.mode, c)),
                },
                then: PlainThen::Stay,
            },
            Key::Cj => {
                self.mode = Mode::Hira;
                no_insertion(PlainThen::Stay)
            }
            Key::Bs => no_insertion(PlainThen::DeleteLast),
            Key::Ret => self.flush(rules, self.mode, None, PlainThen::Newline),
            Key::Cg | Key::Tab => no_insertion(PlainThen::Stay),
            Key::Undo => no_insertion(PlainThen::AskUndo),
        }
    }
}

// An output is inserted.
fn insertion(mode: Mode, out: OutRef<'_>) -> PlainDo<'_>
    ensures { result ≡ insertion mode out.entry }
{
    PlainDo {
        insert: Insertion {
            out,
            kana: kana_in(mode),
            behind: None,
        },
        then: PlainThen::Stay,
    }
}

// Nothing is inserted.
fn no_insertion<'r>(then: PlainThen) -> PlainDo<'r>
    ensures { result ≡ no_insertion (then) }
{
    PlainDo {
        insert: Insertion {
            out: OutRef::nothing(),
            kana: Kana::Hiragana,
            behind: None,
        },
        then,
    }
}

// The kana of an output in katakana mode, and in every other.
fn kana_in(mode: Mode) -> Kana
    ensures { result ≡ kana_in mode }
{
    match mode {
        Mode::Kata => Kana::Katakana,
        Mode::Hira | Mode::Ascii | Mode::Wide => Kana::Hiragana,
    }
}

// A character in the form that a mode inserts without the rules.
fn char_in_mode(mode: Mode, c: u8) -> char
    ensures { result ≡ char_in_mode mode c }
{
    match mode {
        Mode::Wide => to_wide(c),
        Mode::Hira | Mode::Kata | Mode::Ascii => c as char,
    }
}
