ghost use Rattle.std.specs.Prelude.{◌≡◌, ◌++◌, IfOk};
ghost use Rattle.skk_text.specs.Modes.{in_kana_of};
ghost use Rattle.session_machine.specs.ReadingParts.{kana_begun};

use reading_state::Reading;
use skk_text::{Copies, Memory, Mode, Text, to_katakana};
use std::alloc::Global;

// A text in the kana of a mode.
pub(crate) fn in_kana_of(alloc: Global, mode: Mode, text: Text) -> Result<Text, Memory>
    ensures { IfOk result (λ t. t ≡ in_kana_of mode text) }
{
    match mode {
        Mode::Kata => to_katakana(alloc, &text),
        Mode::Hira | Mode::Ascii | Mode::Wide => Ok(text),
    }
}

// A reading with its okurigana behind it.
pub(crate) fn whole_reading(alloc: Global, reading: &Reading) -> Result<Text, Memory>
    ensures { IfOk result (λ text. text ≡ reading.now.text ++ kana_begun reading.now.okuri) }
{
    let mut text = reading.text().copy(alloc)?;
    if let Some(okuri) = reading.begun_text() {
        text.push_str(okuri.as_str())?;
    }
    Ok(text)
}
