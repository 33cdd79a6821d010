ghost use Rattle.std.specs.Prelude.{◌≡◌, ◌<◌, ◌+◌, ◌∷◌, Some, None, length, MatchOption};
ghost use Rattle.command_line.specs.Settings.{settings_of, with_setting, joined, name_or_cut, AreNoneOrMany};

use crate::argument::{Argument, option_named};
use crate::setting::{Setting, Value};
use crate::settings::Settings;
use crate::word::Word;

/// The settings that words give. Nothing where a word is part of none, or there are more than any command takes.
pub fn read_settings<'a>(words: &'a [Word<'a>]) -> Option<Settings<'a>>
    ensures { MatchOption result (AreNoneOrMany (settings_of words.now)) (λ settings. settings_of words.now
        ≡ Some settings) }
{
    read_behind(Settings::new(), words)
}

// Settings, and behind them those that words give.
fn read_behind<'a>(settings: Settings<'a>, words: &'a [Word<'a>]) -> Option<Settings<'a>>
    ensures { MatchOption result (AreNoneOrMany (joined settings.entry (settings_of words.now)))
        (λ all. joined settings.entry (settings_of words.now) ≡ Some all) }
{
    let Some((first, rest)) = words.split_first() else {
        return Some(settings);
    };
    let (setting, behind) = next_setting(first, rest)?;
    let mut settings = settings;
    settings.push(setting)?;
    read_behind(settings, behind)
}

// The setting that words begin with, and those behind it.
fn next_setting<'a>(
    first: &'a Word<'a>,
    rest: &'a [Word<'a>],
) -> Option<(Setting<'a>, &'a [Word<'a>])>
    ensures { MatchOption result (settings_of (first.now ∷ rest.now) ≡ None)
        (λ next. (settings_of (first.now ∷ rest.now) ≡ with_setting (Some next.0) (settings_of next.1.now))
        × (length next.1.now < length rest.now + 1)) }
{
    let Some(row) = option_named(first) else {
        return Some((name_or_cut(first)?, rest));
    };
    if !row.takes_value() {
        return Some((row.alone(), rest));
    }
    let (second, behind) = rest.split_first()?;
    Some((row.with(second)?, behind))
}

// What a word gives that spells no option.
fn name_or_cut<'a>(word: &Word<'a>) -> Option<Setting<'a>>
    ensures { result ≡ name_or_cut word.now }
{
    if word.is_name() {
        return Some(Setting {
            argument: Argument::File,
            value: Value::Text(word.again()),
        });
    }
    let (spelling, value) = word.cut()?;
    option_named(&spelling)?.with(&value)
}
