ghost use Rattle.std.specs.Prelude.{◌≡◌, ◌≤◌, length};
ghost use Rattle.command_line.specs.Command.{command_named, takes, title};

use crate::argument::Argument;
use crate::settings::DICTIONARIES;
use crate::word::Word;

/// A command by its name.
#[derive(Clone, Copy, Debug, PartialEq, Eq)]
pub enum CommandName {
    TypeScript,
    Serve,
    Check,
    Dump,
    Share,
    Load,
    Ask,
    Import,
}

// What each command takes: the arguments, with the least and the most times that each is given.
static TYPE_TAKES: [(Argument, usize, usize); 5] = [
    (Argument::Dictionary, 0, DICTIONARIES),
    (Argument::Rules, 0, 1),
    (Argument::Learned, 0, 1),
    (Argument::Limit, 0, 1),
    (Argument::Threads, 0, 1),
];

static SERVE_TAKES: [(Argument, usize, usize); 6] = [
    (Argument::Learned, 1, 1),
    (Argument::Dictionary, 0, DICTIONARIES),
    (Argument::Rules, 0, 1),
    (Argument::Limit, 0, 1),
    (Argument::Port, 0, 1),
    (Argument::Connections, 0, 1),
];

static CHECK_TAKES: [(Argument, usize, usize); 1] = [(Argument::File, 1, 1)];

static DUMP_TAKES: [(Argument, usize, usize); 2] = [
    (Argument::Learned, 1, 1),
    (Argument::Book, 0, 1),
];

static SHARE_TAKES: [(Argument, usize, usize); 4] = [
    (Argument::Learned, 1, 1),
    (Argument::Typist, 1, 1),
    (Argument::Books, 1, 1),
    (Argument::Limit, 0, 1),
];

static LOAD_TAKES: [(Argument, usize, usize); 4] = [
    (Argument::Seed, 1, 1),
    (Argument::Sessions, 1, 1),
    (Argument::Lines, 1, 1),
    (Argument::Threads, 0, 1),
];

static ASK_TAKES: [(Argument, usize, usize); 3] = [
    (Argument::Port, 1, 1),
    (Argument::Look, 0, 1),
    (Argument::Complete, 0, 1),
];

static IMPORT_TAKES: [(Argument, usize, usize); 4] = [
    (Argument::Learned, 1, 1),
    (Argument::File, 1, 1),
    (Argument::Book, 0, 1),
    (Argument::Limit, 0, 1),
];

/// The command that a word names.
pub fn command_named(word: &Word) -> Option<CommandName>
    ensures { result ≡ command_named word.now }
{
    match word.as_str() {
        "type" => Some(CommandName::TypeScript),
        "serve" => Some(CommandName::Serve),
        "check" => Some(CommandName::Check),
        "dump" => Some(CommandName::Dump),
        "share" => Some(CommandName::Share),
        "load" => Some(CommandName::Load),
        "ask" => Some(CommandName::Ask),
        "import" => Some(CommandName::Import),
        _ => None,
    }
}

impl CommandName {
    /// The word that names the command.
    pub fn title<'a>(self) -> &'a str
        ensures { result.now ≡ title self }
    {
        match self {
            CommandName::TypeScript => "type",
            CommandName::Serve => "serve",
            CommandName::Check => "check",
            CommandName::Dump => "dump",
            CommandName::Share => "share",
            CommandName::Load => "load",
            CommandName::Ask => "ask",
            CommandName::Import => "import",
        }
    }

    /// What the command takes: the arguments, with the least and the most times that each is given.
    pub fn takes(self) -> &'static [(Argument, usize, usize)]
        ensures value { result.now ≡ takes self }
        ensures few { length result.now ≤ 16 }
    {
        match self {
            CommandName::TypeScript => &TYPE_TAKES,
            CommandName::Serve => &SERVE_TAKES,
            CommandName::Check => &CHECK_TAKES,
            CommandName::Dump => &DUMP_TAKES,
            CommandName::Share => &SHARE_TAKES,
            CommandName::Load => &LOAD_TAKES,
            CommandName::Ask => &ASK_TAKES,
            CommandName::Import => &IMPORT_TAKES,
        }
    }
}
