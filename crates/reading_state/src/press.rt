ghost use Rattle.std.specs.Prelude.{◌≡◌, ◌≢◌, ◌==◌, ◌&&◌, not, [], false, if◌then◌else◌, IfOk, OnErr};
ghost use Rattle.romaji_rules.specs.Typed.{extends_pending};
ghost use Rattle.reading_state.specs.Reading.{reading_step, key_step, is_next, is_previous, without_completions};
ghost use Rattle.reading_state.specs.Reading.{char_step, typed_step, space_step, confirm_step, tab_step, ends_prefix};
ghost use Rattle.reading_state.specs.Reading.{prefix_step, flush, feed};

use crate::reading::Reading;
use crate::reading_do::{AfterConfirm, ReadingDo, ReadingThen};
use romaji_rules::Rules;
use skk_text::{Key, Memory, Notice};
use std::alloc::Global;

/// Reads a key in the reading state. After `Memory` the reading is as before. Takes time in what the key does: in the
/// step of the rules, and in the text that it puts.
pub fn press_reading(
    alloc: Global,
    reading: &mut Reading,
    rules: &Rules,
    key: Key,
) -> Result<ReadingDo, Memory>
    ensures ok { IfOk result (λ done. reading_step rules.now reading.old key
        ≡ record { reading = reading.new; done = done }) }
    ensures err { OnErr result (reading.new ≡ reading.old) }
    ensures convertible { IfOk result (λ done. done.then ≡ ReadingThen.Convert → reading.new.text ≢ []) }
{
    if !reading.keeps_completions() {
        return press_key(alloc, reading, rules, key);
    }
    if is_next(key) {
        return reading.show_next(alloc);
    }
    if is_previous(key) {
        return reading.show_previous(alloc);
    }
    press_other(alloc, reading, rules, key)
}

// Whether a key goes to the next of the completions that are kept.
fn is_next(key: Key) -> bool
    ensures { result ≡ is_next key }
{
    matches!(key, Key::Tab | Key::Char(b'.'))
}

// Whether a key goes to the one before among the completions that are kept.
fn is_previous(key: Key) -> bool
    ensures { result ≡ is_previous key }
{
    key == Key::Char(b',')
}

// Reads a key that goes to no other completion: those that are kept are given up.
fn press_other(
    alloc: Global,
    reading: &mut Reading,
    rules: &Rules,
    key: Key,
) -> Result<ReadingDo, Memory>
    ensures ok { IfOk result (λ done. key_step rules.now (without_completions reading.old) key
        ≡ record { reading = reading.new; done = done }) }
    ensures err { OnErr result (reading.new ≡ reading.old) }
    ensures convertible { IfOk result (λ done. done.then ≡ ReadingThen.Convert → reading.new.text ≢ []) }
{
    let kept = reading.take_completions();
    let pressed = press_key(alloc, reading, rules, key);
    if pressed.is_err() {
        reading.put_completions(kept);
    }
    pressed
}

// Reads a key where no completions are kept.
fn press_key(
    alloc: Global,
    reading: &mut Reading,
    rules: &Rules,
    key: Key,
) -> Result<ReadingDo, Memory>
    ensures ok { IfOk result (λ done. key_step rules.now reading.old key
        ≡ record { reading = reading.new; done = done }) }
    ensures err { OnErr result (reading.new ≡ reading.old) }
    ensures convertible { IfOk result (λ done. done.then ≡ ReadingThen.Convert → reading.new.text ≢ []) }
{
    match key {
        Key::Char(c) => press_char(alloc, reading, rules, c),
        Key::Cj => confirm(alloc, reading, rules, false, AfterConfirm::Nothing),
        Key::Cg => Ok(ReadingDo::new(Notice::Empty, ReadingThen::Drop)),
        Key::Bs => Ok(reading.delete_last()),
        Key::Ret => confirm(alloc, reading, rules, false, AfterConfirm::Newline),
        Key::Tab => ask_completions(alloc, reading, rules),
        Key::Undo => Ok(ReadingDo::new(Notice::NoUndo, ReadingThen::Stay)),
    }
}

// Reads a character.
fn press_char(
    alloc: Global,
    reading: &mut Reading,
    rules: &Rules,
    c: u8,
) -> Result<ReadingDo, Memory>
    ensures ok { IfOk result (λ done. char_step rules.now reading.old c
        ≡ record { reading = reading.new; done = done }) }
    ensures err { OnErr result (reading.new ≡ reading.old) }
    ensures convertible { IfOk result (λ done. done.then ≡ ReadingThen.Convert → reading.new.text ≢ []) }
{
    if reading.is_abbrev() && c != b' ' {
        let notice = reading.put_itself(alloc, c)?;
        return Ok(put_effect(reading, notice));
    }
    match reading.extend(alloc, rules, c)? {
        Some(notice) => Ok(put_effect(reading, notice)),
        None => press_anew(alloc, reading, rules, c),
    }
}

// Reads a character that does not go on with what is pending.
fn press_anew(
    alloc: Global,
    reading: &mut Reading,
    rules: &Rules,
    c: u8,
) -> Result<ReadingDo, Memory>
    requires read { (reading.old.is_abbrev && not (c == 0x20)) ≡ false }
    requires anew { extends_pending rules.now reading.old.pending c ≡ false }
    ensures ok { IfOk result (λ done. char_step rules.now reading.old c
        ≡ record { reading = reading.new; done = done }) }
    ensures err { OnErr result (reading.new ≡ reading.old) }
    ensures convertible { IfOk result (λ done. done.then ≡ ReadingThen.Convert → reading.new.text ≢ []) }
{
    match c {
        b' ' => press_space(alloc, reading, rules),
        b'q' => confirm(alloc, reading, rules, true, AfterConfirm::Nothing),
        b'l' => confirm(alloc, reading, rules, false, AfterConfirm::ToAscii),
        b'L' => confirm(alloc, reading, rules, false, AfterConfirm::ToWide),
        b'Q' => confirm(alloc, reading, rules, false, AfterConfirm::OpenReading),
        b'>' => press_greater(alloc, reading, rules),
        b'A'..=b'Z' => {
            let notice = reading.put_upper(alloc, rules, c.to_ascii_lowercase())?;
            Ok(put_effect(reading, notice))
        }
        _ => {
            let notice = reading.feed_anew(alloc, rules, c)?;
            Ok(put_effect(reading, notice))
        }
    }
}

// Reads the space: behind the flush it closes an empty reading, gives up an okurigana that has no kana, or converts.
fn press_space(alloc: Global, reading: &mut Reading, rules: &Rules) -> Result<ReadingDo, Memory>
    ensures ok { IfOk result (λ done. space_step (flush rules.now reading.old)
        ≡ record { reading = reading.new; done = done }) }
    ensures err { OnErr result (reading.new ≡ reading.old) }
    ensures convertible { IfOk result (λ done. done.then ≡ ReadingThen.Convert → reading.new.text ≢ []) }
{
    let notice = reading.flush(alloc, rules)?;
    Ok(reading.close_or_convert(notice))
}

// Reads `>`: it ends a prefix, which is converted then, or is read by the rules.
fn press_greater(alloc: Global, reading: &mut Reading, rules: &Rules) -> Result<ReadingDo, Memory>
    requires { extends_pending rules.now reading.old.pending 0x3E ≡ false }
    ensures ok { IfOk result (λ done. (if ends_prefix reading.old.okuri (flush rules.now reading.old)
        then prefix_step (flush rules.now reading.old)
        else typed_step (feed rules.now reading.old 0x3E)) ≡ record { reading = reading.new; done = done }) }
    ensures err { OnErr result (reading.new ≡ reading.old) }
    ensures convertible { IfOk result (λ done. done.then ≡ ReadingThen.Convert → reading.new.text ≢ []) }
{
    if let Some(notice) = reading.end_prefix(alloc, rules)? {
        return Ok(ReadingDo::new(notice, ReadingThen::Convert));
    }
    let notice = reading.feed_anew(alloc, rules, b'>')?;
    Ok(put_effect(reading, notice))
}

// Flushes and confirms the reading, in the other kana or in the frame's.
fn confirm(
    alloc: Global,
    reading: &mut Reading,
    rules: &Rules,
    other: bool,
    after: AfterConfirm,
) -> Result<ReadingDo, Memory>
    ensures ok { IfOk result (λ done. confirm_step rules.now reading.old other after
        ≡ record { reading = reading.new; done = done }) }
    ensures err { OnErr result (reading.new ≡ reading.old) }
{
    let notice = reading.flush(alloc, rules)?;
    Ok(ReadingDo::new(notice, ReadingThen::Confirm { other, then: after }))
}

// Flushes and asks for completions, where no okurigana was begun.
fn ask_completions(alloc: Global, reading: &mut Reading, rules: &Rules) -> Result<ReadingDo, Memory>
    ensures ok { IfOk result (λ done. tab_step rules.now reading.old reading.old.okuri
        ≡ record { reading = reading.new; done = done }) }
    ensures err { OnErr result (reading.new ≡ reading.old) }
{
    if reading.begun_text().is_some() {
        return Ok(ReadingDo::new(Notice::NoCompletion, ReadingThen::Stay));
    }
    let notice = reading.flush(alloc, rules)?;
    Ok(ReadingDo::new(notice, ReadingThen::AskCompletions))
}

// What is done behind a character that was put: where an okurigana is whole, the conversion starts.
fn put_effect(reading: &Reading, notice: Notice) -> ReadingDo
    ensures step { typed_step (record { reading = reading.now; notice = notice })
        ≡ record { reading = reading.now; done = result } }
    ensures convertible { result.then ≡ ReadingThen.Convert → reading.now.text ≢ [] }
{
    if reading.is_whole() {
        return ReadingDo::new(notice, ReadingThen::Convert);
    }
    ReadingDo::new(notice, ReadingThen::Stay)
}
