ghost use Rattle.std.specs.Prelude.{◌≡◌, ◌<◌, MatchOption};
ghost use Rattle.command_line.specs.Command.{type_options, serve_options, share_options, learned_of, limit_of};
ghost use Rattle.command_line.specs.Command.{ask_options, asks_once, import_options, question_of, question_text};
ghost use Rattle.command_line.specs.Settings.{times};
ghost use Rattle.command_line.specs.declared.argument.Argument.TheVariants.{Dictionary};

use crate::argument::Argument;
use crate::expr_words::ExprOptions;
use crate::settings::{DICTIONARIES, Settings};
use crate::word::Word;
use arrayvec::ArrayVec;
use skk_calls::BookList;

/// The port that is served where none is given.
const PORT: u64 = 1178;

/// The most bytes of each file of the learned dictionary where no number is given, which is the greatest limit.
pub const LIMIT: u64 = 268_435_456;

/// How many connections are served where no number is given.
const CONNECTIONS: u64 = 1_000_000;

/// What the words ask for. It owns nothing: its names are parts of the words.
#[derive(Drop)]
pub enum Command<'a> {
    /// What runs in one thread, and waits for nobody.
    Alone(AloneCommand<'a>),
    /// What may wait: it serves connections, or gives each session a thread.
    Waiting(WaitingCommand<'a>),
}

/// A command that runs in one thread, and waits for nobody.
#[derive(Drop)]
pub enum AloneCommand<'a> {
    /// To read a script and type it.
    TypeScript(TypeOptions<'a>),
    /// To check the dictionary in the file of this name.
    Check(Word<'a>),
    /// To print a book of a learned file.
    Dump(DumpOptions<'a>),
    /// To give a typist a list of books.
    Share(ShareOptions<'a>),
    /// To type what is drawn.
    Load(LoadOptions),
    /// To print what dictionaries come to, added and taken away.
    Expr(ExprOptions<'a>),
    /// To learn the candidates of a dictionary.
    Import(ImportOptions<'a>),
}

/// A command that may wait.
#[derive(Drop)]
pub enum WaitingCommand<'a> {
    /// To read a script and type it, with a thread for each session.
    TypeScript(TypeOptions<'a>),
    /// To serve connections.
    Serve(ServeOptions<'a>),
    /// To type what is drawn, with a thread for each session.
    Load(LoadOptions),
    /// To ask a server.
    Ask(AskOptions<'a>),
}

impl<'a> Command<'a> {
    /// The name of its learned file, where one is given.
    pub fn learned(&self) -> Option<Word<'a>>
        ensures { result ≡ learned_of self.now }
    {
        match self {
            Command::Alone(AloneCommand::TypeScript(options))
            | Command::Waiting(WaitingCommand::TypeScript(options)) => options.learned(),
            Command::Alone(AloneCommand::Dump(options)) => Some(options.learned.again()),
            Command::Alone(AloneCommand::Share(options)) => Some(options.learned.again()),
            Command::Alone(AloneCommand::Import(options)) => Some(options.learned.again()),
            Command::Waiting(WaitingCommand::Serve(options)) => Some(options.learned.again()),
            Command::Alone(AloneCommand::Check(_))
            | Command::Alone(AloneCommand::Load(_))
            | Command::Alone(AloneCommand::Expr(_))
            | Command::Waiting(WaitingCommand::Load(_))
            | Command::Waiting(WaitingCommand::Ask(_)) => None,
        }
    }
}

/// The options of `type`.
#[derive(Drop)]
pub struct TypeOptions<'a> {
    /// The files of the dictionaries, in the order in which they are asked.
    pub dictionaries: ArrayVec<Word<'a>, DICTIONARIES>,
    /// The file of the rules; the standard table where there is none.
    pub rules: Option<Word<'a>>,
    /// The learned file; where there is none, what is learnt goes with the run.
    pub learned: Option<Word<'a>>,
    /// The most bytes of each file of the learned dictionary, from 64 to 268,435,456; the latter where it is not given.
    pub limit: Option<u64>,
}

impl<'a> TypeOptions<'a> {
    /// The options that settings give, where there are not too many dictionaries.
    pub fn of(settings: &Settings<'a>) -> Option<TypeOptions<'a>>
        ensures { MatchOption result (16 < times Dictionary settings.now)
            (λ options. options ≡ type_options settings.now) }
    {
        Some(TypeOptions {
            dictionaries: settings.texts(Argument::Dictionary)?,
            rules: settings.text_given(Argument::Rules),
            learned: settings.text_given(Argument::Learned),
            limit: settings.number_given(Argument::Limit),
        })
    }

    // The name of the learned file, where one is given.
    fn learned(&self) -> Option<Word<'a>>
        ensures { result ≡ self.now.learned }
    {
        let name = self.learned.as_ref()?;
        Some(name.again())
    }

    /// The most bytes of each file of the learned dictionary.
    pub fn limit(&self) -> u64
        ensures { result ≡ limit_of self.now.limit }
    {
        self.limit.unwrap_or(LIMIT)
    }
}

/// The options of `serve`.
#[derive(Drop)]
pub struct ServeOptions<'a> {
    /// The learned file.
    pub learned: Word<'a>,
    /// The files of the dictionaries, in the order in which they are asked.
    pub dictionaries: ArrayVec<Word<'a>, DICTIONARIES>,
    /// The file of the rules; the standard table where there is none.
    pub rules: Option<Word<'a>>,
    /// The most bytes of each file of the learned dictionary, from 64 to 268,435,456; the latter where it is not given.
    pub limit: Option<u64>,
    /// The port, from 1 to 65,535.
    pub port: u64,
    /// How many connections are served, from 1 to 1,000,000.
    pub connections: u64,
}

impl<'a> ServeOptions<'a> {
    /// The options that settings give, where there are not too many dictionaries.
    pub fn of(settings: &Settings<'a>) -> Option<ServeOptions<'a>>
        ensures { MatchOption result (16 < times Dictionary settings.now)
            (λ options. options ≡ serve_options settings.now) }
    {
        Some(ServeOptions {
            learned: settings.text(Argument::Learned),
            dictionaries: settings.texts(Argument::Dictionary)?,
            rules: settings.text_given(Argument::Rules),
            limit: settings.number_given(Argument::Limit),
            port: settings.number_or(PORT, Argument::Port),
            connections: settings.number_or(CONNECTIONS, Argument::Connections),
        })
    }

    /// The most bytes of each file of the learned dictionary.
    pub fn limit(&self) -> u64
        ensures { result ≡ limit_of self.now.limit }
    {
        self.limit.unwrap_or(LIMIT)
    }
}

/// The options of `dump`.
#[derive(Drop)]
pub struct DumpOptions<'a> {
    /// The learned file.
    pub learned: Word<'a>,
    /// The number of the book, from 0 to 65,535.
    pub book: u64,
}

/// The options of `share`.
#[derive(Drop)]
pub struct ShareOptions<'a> {
    /// The learned file.
    pub learned: Word<'a>,
    /// The number of the typist, from 0 to 65,535.
    pub typist: u64,
    /// The books that the typist reads from now on behind the typist's own, in order.
    pub books: BookList,
    /// The most bytes of each file of the learned dictionary, from 64 to 268,435,456; the latter where it is not given.
    pub limit: Option<u64>,
}

impl<'a> ShareOptions<'a> {
    /// The options that settings give.
    pub fn of(settings: &Settings<'a>) -> ShareOptions<'a>
        ensures { result ≡ share_options settings.now }
    {
        ShareOptions {
            learned: settings.text(Argument::Learned),
            typist: settings.number_or(0, Argument::Typist),
            books: settings.books(Argument::Books),
            limit: settings.number_given(Argument::Limit),
        }
    }

    /// The most bytes of each file of the learned dictionary.
    pub fn limit(&self) -> u64
        ensures { result ≡ limit_of self.now.limit }
    {
        self.limit.unwrap_or(LIMIT)
    }
}

/// The options of `load`.
#[derive(Clone, Copy, Debug, PartialEq, Eq)]
pub struct LoadOptions {
    /// Where the drawing begins.
    pub seed: u64,
    /// How many sessions there are, from 1 to 64.
    pub sessions: u64,
    /// How many lines each session has, from 1 to 20,000.
    pub lines: u64,
}

/// The options of `import`.
#[derive(Drop)]
pub struct ImportOptions<'a> {
    /// The learned file.
    pub learned: Word<'a>,
    /// The file of the dictionary whose candidates are learnt.
    pub file: Word<'a>,
    /// The number of the book into which they are learnt, from 0 to 65,535.
    pub book: u64,
    /// The most bytes of each file of the learned dictionary, from 64 to 268,435,456; the latter where it is not given.
    pub limit: Option<u64>,
}

impl<'a> ImportOptions<'a> {
    /// The options that settings give.
    pub fn of(settings: &Settings<'a>) -> ImportOptions<'a>
        ensures { result ≡ import_options settings.now }
    {
        ImportOptions {
            learned: settings.text(Argument::Learned),
            file: settings.text(Argument::File),
            book: settings.number_or(0, Argument::Book),
            limit: settings.number_given(Argument::Limit),
        }
    }

    /// The most bytes of each file of the learned dictionary.
    pub fn limit(&self) -> u64
        ensures { result ≡ limit_of self.now.limit }
    {
        self.limit.unwrap_or(LIMIT)
    }
}

/// What a server is asked for.
#[derive(Drop)]
pub enum Question<'a> {
    /// The candidates of a reading.
    Look(Word<'a>),
    /// The readings that go on from a prefix.
    Complete(Word<'a>),
}

impl<'a> Question<'a> {
    // What settings ask for: candidates where a reading is given, and else readings.
    fn of(settings: &Settings<'a>) -> Question<'a>
        ensures { result ≡ question_of settings.now }
    {
        if settings.is_given(Argument::Look) {
            Question::Look(settings.text(Argument::Look))
        } else {
            Question::Complete(settings.text(Argument::Complete))
        }
    }

    /// The reading or the prefix.
    pub fn text(&self) -> &Word<'a>
        ensures { result.now ≡ question_text self.now }
    {
        match self {
            Question::Look(reading) => reading,
            Question::Complete(prefix) => prefix,
        }
    }
}

/// The options of `ask`.
#[derive(Drop)]
pub struct AskOptions<'a> {
    /// The port, from 1 to 65,535.
    pub port: u64,
    /// What the server is asked for: 1 to 255 bytes, none of which is a space, CR or LF.
    pub question: Question<'a>,
}

impl<'a> AskOptions<'a> {
    /// The options that settings give.
    pub fn of(settings: &Settings<'a>) -> AskOptions<'a>
        ensures { result ≡ ask_options settings.now }
    {
        AskOptions {
            port: settings.number_or(0, Argument::Port),
            question: Question::of(settings),
        }
    }
}

/// Whether settings ask a server for one thing, and for one that it can be asked for.
pub fn asks_once(settings: &Settings) -> bool
    ensures { result ≡ asks_once settings.now }
{
    settings.times(Argument::Look) + settings.times(Argument::Complete) == 1
        && Question::of(settings).text().is_askable()
}
