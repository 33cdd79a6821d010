ghost use Rattle.std.specs.Prelude.{◌≡◌, [], false, Some, IfOk, IfErr, IfSome, IsSome, unwrap_or, option_and_then};
ghost use Rattle.std.specs.Prelude.{option_map, encode_utf8_all};
ghost use Rattle.std.specs.Str.{chars};
ghost use Rattle.clap.specs.Words.{app_of, first_value, found_of, kind_of, rule_of};
ghost use Rattle.command_line.specs.Arguments.{name_at, place};
ghost use Rattle.command_line.specs.Command.{dump_options, load_options};
ghost use Rattle.command_line.specs.OptionWords.{option_app, option_rule, settings_asked, GivesOptions, TakesOptions};
ghost use Rattle.command_line.specs.Words.{number_within};

use crate::argument::Argument;
use crate::command::{DumpOptions, LoadOptions};
use crate::command_name::CommandName;
use crate::number::number_within;
use crate::word::Word;
use clap::error::ErrorKind;
use clap::{Arg, ArgAction, ArgMatches, Command, Error};
use skk_text::{Memory, Text};
use std::alloc::{AllocError, Global};

/// The words, each as it was handed in.
pub fn words_of<'a>(alloc: Global, words: &'a [Text]) -> Result<Vec<Word<'a>>, Memory>
    ensures { IfOk result (λ list. list.items ≡ words.entry.now) }
{
    Ok(words.iter().map(Word::of).collect(alloc)?)
}

/// The options of `dump`, of which `clap` takes the texts out of the words. Which words are `dump`, and what they mean,
/// the grammar has decided before.
pub fn dump_options<'a>(alloc: Global, words: &'a [Word<'a>]) -> Result<DumpOptions<'a>, Memory>
    requires { IsSome (settings_asked CommandName.Dump words.now) }
    ensures { IfOk result (λ options. option_map dump_options (settings_asked CommandName.Dump words.entry.now)
        ≡ Some options) }
{
    let Ok(matches) = matches_in(alloc, CommandName::Dump, words) else {
        return Err(Memory);
    };
    Ok(DumpOptions {
        learned: text_of(&matches, Argument::Learned),
        book: number_of(&matches, Argument::Book),
    })
}

/// The options of `load`, of which `clap` takes the texts out of the words. Which words are `load`, and what they mean,
/// the grammar has decided before.
pub fn load_options<'a>(alloc: Global, words: &'a [Word<'a>]) -> Result<LoadOptions, Memory>
    requires { IsSome (settings_asked CommandName.Load words.now) }
    ensures { IfOk result (λ options. option_map load_options (settings_asked CommandName.Load words.entry.now)
        ≡ Some options) }
{
    let Ok(matches) = matches_in(alloc, CommandName::Load, words) else {
        return Err(Memory);
    };
    Ok(LoadOptions {
        seed: number_of(&matches, Argument::Seed),
        sessions: number_of(&matches, Argument::Sessions),
        lines: number_of(&matches, Argument::Lines),
    })
}

// The text of an option, and the empty one where there is none.
fn text_of<'a>(matches: &ArgMatches<'a>, argument: Argument) -> Word<'a>
    ensures { encode_utf8_all result ≡ unwrap_or (first_value (found_of matches.now) (name_at (place argument))) [] }
{
    Word::of_str(matches.get_str(argument.name()).unwrap_or(""))
}

// The number that the text of an option writes, and 0 where there is none.
fn number_of(matches: &ArgMatches, argument: Argument) -> u64
    ensures { result ≡ unwrap_or (option_and_then (λ text. number_within 0 18446744073709551615 (chars text))
        (first_value (found_of matches.now) (name_at (place argument)))) 0 }
{
    match matches.get_str(argument.name()) {
        Some(text) => number_within(text, 0, u64::MAX).unwrap_or(0),
        None => 0,
    }
}

// What `clap` finds in the words of a command that takes nothing but options: it refuses none of them.
fn matches_in<'a>(
    alloc: Global,
    name: CommandName,
    words: &'a [Word<'a>],
) -> Result<ArgMatches<'a>, Error>
    requires asked { IsSome (settings_asked name words.now) }
    requires options { TakesOptions name }
    ensures ok { IfOk result (λ matches. IfSome (settings_asked name words.entry.now)
        (λ settings. GivesOptions name settings matches)) }
    ensures err { IfErr result (λ error. kind_of error ≡ ErrorKind.OutOfMemory) }
{
    let command = command_of(alloc, name)?;
    command.try_get_matches_from(words)
}

// A command with its options, for `clap`.
fn command_of<'a>(alloc: Global, name: CommandName) -> Result<Command<'a>, AllocError>
    ensures { IfOk result (λ command. app_of command ≡ option_app name) }
{
    let mut command = Command::new(alloc, name.title());
    for (argument, least, _) in name.takes() {
        command = command.arg(option_of(alloc, *argument, *least >= 1))?;
    }
    Ok(command)
}

// An option, for `clap`.
fn option_of<'a>(alloc: Global, argument: Argument, required: bool) -> Arg<'a>
    ensures rule { rule_of result ≡ option_rule argument required }
    ensures own { result.global ≡ false }
{
    let option = Arg::new(alloc, argument.name())
        .long(argument.name())
        .required(required);
    if argument.takes_value() {
        option
    } else {
        option.action(ArgAction::SetTrue)
    }
}
