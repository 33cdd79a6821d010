ghost use Rattle.std.specs.Prelude.{◌≡◌, ◌≢◌, [], true, IfOk};
ghost use Rattle.numeric_entries.specs.Numbers.{are_numbers, numbers_of};
ghost use Rattle.skk_calls.specs.Dictionary.{is_plain_reading};
ghost use Rattle.session_machine.specs.ReadingParts.{registered_key, registered_text};

use numeric_entries::number_key;
use reading_state::Reading;
use skk_calls::RowKey;
use skk_text::{Copies, Memory, Text, Texts};
use std::alloc::Global;

// The numbers of a reading.
pub(crate) fn numbers_of(alloc: Global, reading: &Reading) -> Result<Texts, Memory>
    ensures value { IfOk result (λ numbers. numbers ≡ numbers_of reading.now.text) }
    ensures digits { IfOk result (λ numbers. are_numbers numbers ≡ true) }
{
    match number_key(alloc, reading.text())? {
        Some(key) => Ok(key.into_parts().1),
        None => Ok(Texts::new(alloc)),
    }
}

// A reading as its word is learnt under it: with a `#` in the place of each number.
pub(crate) fn registered_text(alloc: Global, reading: &Reading) -> Result<Text, Memory>
    ensures value { IfOk result (λ text. text ≡ registered_text reading.now) }
    ensures plain { IfOk result (λ text. reading.now.text ≢ [] → is_plain_reading text ≡ true) }
{
    match number_key(alloc, reading.text())? {
        Some(key) => Ok(key.into_parts().0),
        None => reading.text().copy(alloc),
    }
}

// The key that a word is learnt under which is typed for a reading.
pub(crate) fn registered_key(alloc: Global, reading: &Reading) -> Result<RowKey, Memory>
    requires { reading.now.text ≢ [] }
    ensures { IfOk result (λ key. key ≡ registered_key reading.now) }
{
    reading.key_of(registered_text(alloc, reading)?)
}
