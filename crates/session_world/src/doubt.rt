ghost use Rattle.std.specs.Prelude.{◌≡◌, [], true, IfSome};
ghost use Rattle.std.specs.Option.{option_copied};
ghost use Rattle.std.specs.List.{All};
ghost use Rattle.skk_calls.specs.Dictionary.{is_fit};
ghost use Rattle.skk_calls.specs.Histories.{in_doubt};
ghost use Rattle.session_world.specs.Doubts.{doubt_after};
ghost use Rattle.session_world.specs.Worlds.{last_of};

use skk_calls::{Answer, Call, Entry, Refusal};

// The change of a history that was last refused for the disk, with no change accepted behind it.
pub(crate) fn last_in_doubt(history: &[Entry]) -> Option<&Call>
    requires { All (λ entry. is_fit entry.call ≡ true) history.now }
    ensures fit { IfSome (option_copied result) (λ call. is_fit call ≡ true) }
    ensures last { option_copied result ≡ last_of (in_doubt [] history.now) }
{
    let mut doubt = None;
    for entry in history {
        doubt = doubt_after(doubt, entry);
    }
    doubt
}

// The change that is in doubt behind an entry, where this one was before it.
fn doubt_after<'a>(doubt: Option<&'a Call>, entry: &'a Entry) -> Option<&'a Call>
    ensures { option_copied result ≡ doubt_after (option_copied doubt.entry) entry.now }
{
    match &entry.answer {
        Answer::Done(reply) if reply.is_change() => None,
        Answer::Refused(Refusal::Disk) => Some(&entry.call),
        Answer::Done(_) | Answer::Refused(_) => doubt,
    }
}
