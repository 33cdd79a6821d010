//! The words of the command line: the commands that words are, by the grammar of the manual, with their options.
//!
//! It stands on the plain types, on `skk_calls` for lists of books, and on `clap`. `read_command` reads the command
//! that the words are, and its contract says which, exactly, and that each number of it lies in its range; where they
//! are not a command, it returns `None`. A command waits for nobody, or it may wait: these are two types. The table of
//! the options, the values that each takes, and how often each command takes it are definitions. Of `dump` and of
//! `load`, `clap` takes the texts of the options out of the words: what it finds is what the grammar reads there, which
//! is proved once for every command that takes nothing but options, each once at most. So want of memory is the one
//! fault, and of these two commands alone.
#![tactic(auto)]

mod argument;
mod book_numbers;
mod command;
mod command_name;
mod command_words;
mod expr_words;
mod number;
mod option_words;
mod setting;
mod setting_words;
mod settings;
mod word;

pub use command::{
    AloneCommand, AskOptions, Command, DumpOptions, ImportOptions, LIMIT, LoadOptions, Question,
    ServeOptions, ShareOptions, TypeOptions, WaitingCommand,
};
pub use command_words::read_command;
pub use expr_words::{ExprOptions, Sign, TERMS, Term};
pub use option_words::words_of;
pub use settings::DICTIONARIES;
pub use word::Word;
