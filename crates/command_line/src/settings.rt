ghost use Rattle.std.specs.Prelude.{◌≡◌, ◌≤◌, ◌<◌, ◌++◌, ◌∷◌, [], Some, None, length, IsSome, IsNone, MatchOption};
ghost use Rattle.std.specs.Prelude.{option_copied};
ghost use Rattle.command_line.specs.Settings.{times, texts_of, value_given, text_given, text_of, number_given};
ghost use Rattle.command_line.specs.Settings.{number_or, books_given, books_of, is_given, fits};

use crate::argument::Argument;
use crate::setting::{Setting, Value};
use crate::word::Word;
use arrayvec::ArrayVec;
use skk_calls::BookList;
use std::marker::Model;

/// The most settings that are kept, which is more than any command takes.
const SETTINGS: usize = 32;

/// The most dictionaries of a command.
pub const DICTIONARIES: usize = 16;

/// The settings that words give, in their order.
#[derive(Drop)]
pub struct Settings<'a> {
    list: ArrayVec<Setting<'a>, SETTINGS>,
}

impl<'a> Model for Settings<'a> {
    ghost use Rattle.std.specs.Prelude.{List};
    ghost use Rattle.command_line.specs.declared.setting.Setting.{Setting as Given};

    ghost Value = { List Given };

    ghost view = { λ s. s.list.items };
}

impl<'a> Settings<'a> {
    /// No setting.
    pub fn new() -> Settings<'a>
        ensures { result ≡ [] }
    {
        Settings {
            list: ArrayVec::new(),
        }
    }

    /// Adds a setting, where there is room for it.
    pub fn push(&mut self, setting: Setting<'a>) -> Option<()>
        ensures some { IsSome result → self.new ≡ self.old ++ setting.entry ∷ [] }
        ensures none { IsNone result → length self.old ≡ 32 }
    {
        self.list.try_push(setting).ok()
    }

    /// How often an argument is given.
    pub fn times(&self, argument: Argument) -> usize
        ensures value { result ≡ times argument self.now }
        ensures few { result ≤ 32 }
    {
        self.list
            .iter()
            .filter(|setting| setting.is_of(argument))
            .count()
    }

    /// Whether an argument is given.
    pub fn is_given(&self, argument: Argument) -> bool
        ensures { result ≡ is_given argument self.now }
    {
        self.times(argument) >= 1
    }

    /// The text of an argument, where it is given.
    pub fn text_given(&self, argument: Argument) -> Option<Word<'a>>
        ensures { result ≡ text_given argument self.now }
    {
        match self.value_given(argument)? {
            Value::Text(word) => Some(word.again()),
            Value::Nothing | Value::Number(_) | Value::Books(_) => None,
        }
    }

    /// The text of an argument that is given.
    pub fn text(&self, argument: Argument) -> Word<'a>
        ensures { result ≡ text_of argument self.now }
    {
        self.text_given(argument).unwrap_or(Word::empty())
    }

    /// The number of an argument, where it is given.
    pub fn number_given(&self, argument: Argument) -> Option<u64>
        ensures { result ≡ number_given argument self.now }
    {
        match self.value_given(argument)? {
            Value::Number(number) => Some(*number),
            Value::Nothing | Value::Text(_) | Value::Books(_) => None,
        }
    }

    /// The number of an argument, or another where it is not given.
    pub fn number_or(&self, absent: u64, argument: Argument) -> u64
        ensures { result ≡ number_or absent argument self.now }
    {
        self.number_given(argument).unwrap_or(absent)
    }

    /// The books of an argument that is given.
    pub fn books(&self, argument: Argument) -> BookList
        ensures { result ≡ books_of argument self.now }
    {
        self.books_given(argument).unwrap_or(BookList::of_shared())
    }

    /// The texts of an argument in their order, where they are not too many for a command.
    pub fn texts(&self, argument: Argument) -> Option<ArrayVec<Word<'a>, DICTIONARIES>>
        ensures { MatchOption result (16 < times argument self.now)
            (λ texts. texts.items ≡ texts_of argument self.now) }
    {
        let mut texts = ArrayVec::new();
        for setting in self.list.as_slice() {
            if let Some(word) = setting.text_for(argument) {
                push_text(&mut texts, word)?;
            }
        }
        Some(texts)
    }

    /// Whether these are the settings that rows take: each has an argument, with the least and the most times that it
    /// is given.
    pub fn fits(&self, rows: &[(Argument, usize, usize)]) -> bool
        requires { length rows.now ≤ 16 }
        ensures { result ≡ fits rows.now self.now }
    {
        let mut counted = 0;
        for (argument, least, most) in rows {
            let times = self.times(*argument);
            if times < *least || *most < times {
                return false;
            }
            counted += times;
        }
        counted == self.list.len()
    }

    // The books of an argument, where it is given.
    fn books_given(&self, argument: Argument) -> Option<BookList>
        ensures { result ≡ books_given argument self.now }
    {
        match self.value_given(argument)? {
            Value::Books(books) => Some(books.copied()),
            Value::Nothing | Value::Text(_) | Value::Number(_) => None,
        }
    }

    // The value of an argument, where it is given.
    fn value_given(&self, argument: Argument) -> Option<&Value<'a>>
        ensures { option_copied result ≡ value_given argument self.now }
    {
        for setting in self.list.as_slice() {
            if setting.is_of(argument) {
                return Some(&setting.value);
            }
        }
        None
    }
}

// Adds a text, where there is room for it.
fn push_text<'a>(texts: &mut ArrayVec<Word<'a>, DICTIONARIES>, word: Word<'a>) -> Option<()>
    ensures some { IsSome result → texts.new.items ≡ texts.old.items ++ word.entry ∷ [] }
    ensures none { IsNone result → length texts.old.items ≡ 16 }
{
    texts.try_push(word).ok()
}
