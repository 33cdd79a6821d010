ghost use Rattle.std.specs.Prelude.{◌≡◌, true, Some, None, IfOk, IfSome, IsSome, MatchOption, OnErr};
ghost use Rattle.command_line.specs.Command.{are_enough, command, command_of, expr_command, load_options};
ghost use Rattle.command_line.specs.Command.{settings_command, takes};
ghost use Rattle.command_line.specs.OptionWords.{settings_asked};
ghost use Rattle.command_line.specs.Ranges.{HasNumbersInRange};
ghost use Rattle.command_line.specs.Settings.{fits};

use crate::argument::Argument;
use crate::command::{
    AloneCommand, AskOptions, Command, ImportOptions, LoadOptions, ServeOptions, ShareOptions,
    TypeOptions, WaitingCommand, asks_once,
};
use crate::command_name::{CommandName, command_named};
use crate::expr_words::read_expr;
use crate::option_words::{dump_options, load_options};
use crate::setting_words::read_settings;
use crate::settings::Settings;
use crate::word::Word;
use skk_text::Memory;
use std::alloc::Global;

/// The command that the words behind the program's name are, with each number in its range; `None` where they are no
/// command. Only the options of `dump` and of `load` take memory, since `clap` reads them. Costs time linear in the
/// words.
pub fn read_command<'a>(alloc: Global, words: &'a [Word<'a>]) -> Result<Option<Command<'a>>, Memory>
    ensures read { IfOk result (λ command. command ≡ command_of words.entry.now) }
    ensures ranges { IfOk result (λ command. IfSome command HasNumbersInRange) }
    ensures memory { OnErr result (IsSome (command_of words.entry.now)) }
{
    let Some((name, settings)) = name_and_settings(words) else {
        return Ok(expr_command(words));
    };
    match name {
        CommandName::TypeScript => Ok(type_command(&settings)),
        CommandName::Serve => Ok(serve_command(&settings)),
        CommandName::Check => Ok(Some(Command::Alone(AloneCommand::Check(settings.text(
            Argument::File,
        ))))),
        CommandName::Dump => Ok(Some(Command::Alone(AloneCommand::Dump(dump_options(
            alloc, words,
        )?)))),
        CommandName::Share => Ok(Some(Command::Alone(AloneCommand::Share(ShareOptions::of(
            &settings,
        ))))),
        CommandName::Load => Ok(Some(load_command(&settings, load_options(alloc, words)?))),
        CommandName::Ask => Ok(Some(Command::Waiting(WaitingCommand::Ask(AskOptions::of(
            &settings,
        ))))),
        CommandName::Import => Ok(Some(Command::Alone(AloneCommand::Import(ImportOptions::of(
            &settings,
        ))))),
    }
}

// The name of the command that the words are, and the settings that it takes of them. Takes no memory.
fn name_and_settings<'a>(words: &'a [Word<'a>]) -> Option<(CommandName, Settings<'a>)>
    ensures { MatchOption result (settings_command words.now ≡ None) (λ read.
        (settings_command words.now ≡ Some (command read.0 read.1)) × (settings_asked read.0 words.now ≡ Some read.1)
        × (fits (takes read.0) read.1 ≡ true)) }
{
    let (first, rest) = words.split_first()?;
    let name = command_named(first)?;
    let settings = read_settings(rest)?;
    if settings.fits(name.takes()) && are_enough(name, &settings) {
        Some((name, settings))
    } else {
        None
    }
}

// The command `expr` that the words are. Takes no memory.
fn expr_command<'a>(words: &'a [Word<'a>]) -> Option<Command<'a>>
    ensures value { result ≡ expr_command words.entry.now }
    ensures ranges { IfSome result HasNumbersInRange }
{
    let (first, rest) = words.split_first()?;
    if first.as_str() != "expr" {
        return None;
    }
    let options = read_expr(rest)?;
    Some(Command::Alone(AloneCommand::Expr(options)))
}

// Whether settings that a command takes are enough for it.
fn are_enough(name: CommandName, settings: &Settings) -> bool
    ensures { result ≡ are_enough name settings.now }
{
    name != CommandName::Ask || asks_once(settings)
}

// The command `type` with its settings.
fn type_command<'a>(settings: &Settings<'a>) -> Option<Command<'a>>
    requires { fits (takes CommandName.TypeScript) settings.now ≡ true }
    ensures { result ≡ Some (command CommandName.TypeScript settings.now) }
{
    let options = TypeOptions::of(settings)?;
    if settings.is_given(Argument::Threads) {
        Some(Command::Waiting(WaitingCommand::TypeScript(options)))
    } else {
        Some(Command::Alone(AloneCommand::TypeScript(options)))
    }
}

// The command `serve` with its settings.
fn serve_command<'a>(settings: &Settings<'a>) -> Option<Command<'a>>
    requires { fits (takes CommandName.Serve) settings.now ≡ true }
    ensures { result ≡ Some (command CommandName.Serve settings.now) }
{
    let options = ServeOptions::of(settings)?;
    Some(Command::Waiting(WaitingCommand::Serve(options)))
}

// The command `load` with its options.
fn load_command<'a>(settings: &Settings, options: LoadOptions) -> Command<'a>
    requires { options ≡ load_options settings.now }
    ensures { result ≡ command CommandName.Load settings.now }
{
    if settings.is_given(Argument::Threads) {
        Command::Waiting(WaitingCommand::Load(options))
    } else {
        Command::Alone(AloneCommand::Load(options))
    }
}
