ghost use Rattle.std.specs.Prelude.{◌≡◌};
ghost use Rattle.command_line.specs.Settings.{is_of, text_for};

use crate::argument::Argument;
use crate::word::Word;
use skk_calls::BookList;

/// The value of an argument.
#[derive(Drop)]
pub enum Value<'a> {
    /// It has none.
    Nothing,
    /// A name.
    Text(Word<'a>),
    /// A number.
    Number(u64),
    /// Books, by their numbers.
    Books(BookList),
}

/// An argument with its value.
#[derive(Drop)]
pub struct Setting<'a> {
    pub argument: Argument,
    pub value: Value<'a>,
}

impl<'a> Default for Setting<'a> {
    fn default() -> Setting<'a> {
        Setting {
            argument: Argument::File,
            value: Value::Nothing,
        }
    }
}

impl<'a> Setting<'a> {
    /// Whether the setting is of an argument.
    pub fn is_of(&self, argument: Argument) -> bool
        ensures { result ≡ is_of argument self.now }
    {
        self.argument == argument
    }

    /// The text of an argument, where the setting gives it one.
    pub fn text_for(&self, argument: Argument) -> Option<Word<'a>>
        ensures { result ≡ text_for argument self.now }
    {
        if !self.is_of(argument) {
            return None;
        }
        match &self.value {
            Value::Text(word) => Some(word.again()),
            Value::Nothing | Value::Number(_) | Value::Books(_) => None,
        }
    }
}
