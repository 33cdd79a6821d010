ghost use Rattle.std.specs.Prelude.{◌≡◌, Some};
ghost use Rattle.command_line.specs.Arguments.{option_named, value_of, place, name_at, takes_at};
ghost use Rattle.command_line.specs.Settings.{takes_value, option_with, setting};
ghost use Rattle.command_line.specs.declared.setting.Value.TheVariants as values;

use crate::setting::{Setting, Value};
use crate::word::Word;

/// What a command can be given.
#[derive(Clone, Copy, Debug, PartialEq, Eq)]
pub enum Argument {
    /// A file, by its bare name.
    File,
    /// The files of dictionaries.
    Dictionary,
    /// The file of romaji rules.
    Rules,
    /// The learned file.
    Learned,
    /// The most bytes of each file of the learned dictionary.
    Limit,
    /// The port that is served, or asked.
    Port,
    /// How many connections are served.
    Connections,
    /// The number of a book.
    Book,
    /// The number of a typist.
    Typist,
    /// The books that a typist reads.
    Books,
    /// Where a load begins its drawing.
    Seed,
    /// How many sessions a load has.
    Sessions,
    /// How many lines each session of a load has.
    Lines,
    /// That sessions have threads of their own.
    Threads,
    /// A reading of which a server is asked for the candidates.
    Look,
    /// A prefix of which a server is asked for the readings.
    Complete,
}

/// What an option takes.
#[derive(Clone, Copy, Debug, PartialEq, Eq)]
pub enum Takes {
    /// No value.
    Nothing,
    /// The name of a file, or what a server is asked for.
    Name,
    /// A number, from the first to the second.
    Number(u64, u64),
    /// The numbers of books, between commas.
    Books,
}

/// An option: the argument that it gives, and what it takes.
#[derive(Clone, Copy, Debug, PartialEq, Eq)]
pub struct OptionRow {
    pub argument: Argument,
    pub takes: Takes,
}

/// The option that a word spells: the table of all options.
pub fn option_named(word: &Word) -> Option<OptionRow>
    ensures { result ≡ option_named word.now }
{
    let (argument, takes) = match word.as_str() {
        "--dict" => (Argument::Dictionary, Takes::Name),
        "--rules" => (Argument::Rules, Takes::Name),
        "--learned" => (Argument::Learned, Takes::Name),
        "--limit" => (Argument::Limit, Takes::Number(64, 268_435_456)),
        "--port" => (Argument::Port, Takes::Number(1, 65_535)),
        "--connections" => (Argument::Connections, Takes::Number(1, 1_000_000)),
        "--book" => (Argument::Book, Takes::Number(0, 65_535)),
        "--typist" => (Argument::Typist, Takes::Number(0, 65_535)),
        "--books" => (Argument::Books, Takes::Books),
        "--seed" => (Argument::Seed, Takes::Number(0, u64::MAX)),
        "--sessions" => (Argument::Sessions, Takes::Number(1, 64)),
        "--lines" => (Argument::Lines, Takes::Number(1, 20_000)),
        "--threads" => (Argument::Threads, Takes::Nothing),
        "--look" => (Argument::Look, Takes::Name),
        "--complete" => (Argument::Complete, Takes::Name),
        _ => return None,
    };
    Some(OptionRow { argument, takes })
}

impl Argument {
    /// How the option is spelled behind its two hyphens; nothing where no option gives the argument.
    pub fn name<'a>(self) -> &'a str
        ensures { result.now ≡ name_at (place self) }
    {
        match self {
            Argument::File => "",
            Argument::Dictionary => "dict",
            Argument::Rules => "rules",
            Argument::Learned => "learned",
            Argument::Limit => "limit",
            Argument::Port => "port",
            Argument::Connections => "connections",
            Argument::Book => "book",
            Argument::Typist => "typist",
            Argument::Books => "books",
            Argument::Seed => "seed",
            Argument::Sessions => "sessions",
            Argument::Lines => "lines",
            Argument::Threads => "threads",
            Argument::Look => "look",
            Argument::Complete => "complete",
        }
    }

    /// Whether it is given with a value.
    pub fn takes_value(self) -> bool
        ensures { result ≡ takes_value (takes_at (place self)) }
    {
        self != Argument::Threads
    }
}

impl Takes {
    // Whether a value is taken.
    fn takes_value(self) -> bool
        ensures { result ≡ takes_value self }
    {
        match self {
            Takes::Nothing => false,
            Takes::Name | Takes::Number(_, _) | Takes::Books => true,
        }
    }

    // The value that a word is, where it is one.
    fn value<'a>(self, word: &Word<'a>) -> Option<Value<'a>>
        ensures { result ≡ value_of self word.now }
    {
        match self {
            Takes::Nothing => None,
            Takes::Name => {
                if !word.is_name() {
                    return None;
                }
                Some(Value::Text(word.again()))
            }
            Takes::Number(least, most) => match word.number_within(least, most) {
                Some(number) => Some(Value::Number(number)),
                None => None,
            },
            Takes::Books => match word.books() {
                Some(books) => Some(Value::Books(books)),
                None => None,
            },
        }
    }
}

impl OptionRow {
    /// Whether the option takes a value.
    pub fn takes_value(self) -> bool
        ensures { result ≡ takes_value self.takes }
    {
        self.takes.takes_value()
    }

    /// The option without a value.
    pub fn alone<'a>(self) -> Setting<'a>
        ensures { result ≡ setting self.argument values.Nothing }
    {
        Setting {
            argument: self.argument,
            value: Value::Nothing,
        }
    }

    /// The option with a word that is its value, where it is one.
    pub fn with<'a>(self, word: &Word<'a>) -> Option<Setting<'a>>
        ensures { result ≡ option_with self word.now }
    {
        let argument = self.argument;
        match self.takes.value(word) {
            Some(value) => Some(Setting { argument, value }),
            None => None,
        }
    }
}
