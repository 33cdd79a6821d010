use crate::making::text;
use expectations::same;
use skk_text::{
    Bytes, Copies, Key, KeyFault, Keys, Text, Texts, print_keys, read_keys, to_hiragana,
    to_katakana, to_wide,
};
use std::alloc::Global;
use std::process::Abort;

#[test]
fn lists_keep_their_items_in_order(rt: HostRuntime) {
    let mut keys = Keys::new(rt.alloc());
    keys.push(Key::Cj).expect(&rt, "memory");
    keys.push(Key::Ret).expect(&rt, "memory");
    same(keys.len(), 2).expect(&rt, "as wanted");
    same(*keys.at(1), Key::Ret).expect(&rt, "as wanted");
}

#[test]
fn lists_are_made_of_vectors(rt: HostRuntime) {
    same(Texts::of(Vec::new(rt.alloc())).len(), 0).expect(&rt, "as wanted");
    let bytes = Bytes::of(vec![in rt.alloc(); 1, 2].expect(&rt, "memory"));
    same(bytes.as_slice(), &[1, 2].as_slice()).expect(&rt, "as wanted");
}

#[test]
fn texts_count_bytes_and_show_characters(rt: HostRuntime) {
    let mut line = Text::new(rt.alloc());
    line.push('か').expect(&rt, "memory");
    line.push_str("なa𠮷").expect(&rt, "memory");
    same(line.byte_len(), 11).expect(&rt, "as wanted");
    same(line.last(2), "a𠮷").expect(&rt, "as wanted");
    line.delete_last();
    expect_copies(&rt, rt.alloc(), line, "かなa")
}

// Tells the text that a line has in a list, and in a copy of that.
fn expect_copies(rt: &impl Abort, alloc: Global, line: Text, wanted: &str) {
    let mut lines = Texts::new(alloc);
    lines.push(line).expect(rt, "memory");
    let copies = lines.copy(alloc).expect(rt, "memory");
    expect_each(rt, alloc, lines, wanted);
    expect_each(rt, alloc, copies, wanted);
}

fn expect_each(rt: &impl Abort, alloc: Global, texts: Texts, wanted: &str) {
    for text in texts.into_vec() {
        same(text.as_str(), wanted).expect(rt, "as wanted");
        same(text.to_string(alloc).expect(rt, "memory").as_str(), wanted).expect(rt, "as wanted");
    }
}

#[test]
fn kana_are_converted(rt: HostRuntime) {
    expect_kana(&rt, rt.alloc(), "ゔかーア", "ヴカーア", "ゔかーあ");
    same(to_wide(b'a'), 'ａ').expect(&rt, "as wanted");
}

// Tells what a text is in katakana, and what that is in hiragana.
fn expect_kana(rt: &impl Abort, alloc: Global, kana: &str, katakana: &str, hiragana: &str) {
    let made = to_katakana(alloc, &text(rt, alloc, kana)).expect(rt, "memory");
    same(made.as_str(), katakana).expect(rt, "as wanted");
    let back = to_hiragana(alloc, &made).expect(rt, "memory");
    same(back.as_str(), hiragana).expect(rt, "as wanted");
}

static KEY_TEXT: &str = "a <ret><lt>>~<undo><tab><bs><cg><cj>";

#[test]
fn keys_are_printed_as_they_are_read(rt: HostRuntime) {
    let keys = read_keys(rt.alloc(), KEY_TEXT.as_bytes()).expect(&rt, "keys");
    same(keys.len(), 11).expect(&rt, "as wanted");
    let printed = print_keys(rt.alloc(), &keys).expect(&rt, "memory");
    same(printed.as_str(), KEY_TEXT).expect(&rt, "as wanted");
}

static FAULTS: &[(&[u8], KeyFault)] = &[
    (b"ab<x>\t", KeyFault::BadName { at: 2 }),
    (b"<lt", KeyFault::BadName { at: 0 }),
    (b"<LT>", KeyFault::BadName { at: 0 }),
    (b"<lt>\t<", KeyFault::NotAscii { at: 4 }),
    (b"a\x7F", KeyFault::NotAscii { at: 1 }),
    (b"a\x80", KeyFault::NotAscii { at: 1 }),
];

#[test]
fn key_text_is_read_up_to_its_first_fault(rt: HostRuntime) {
    for (bytes, fault) in FAULTS {
        same(read_keys(rt.alloc(), bytes).err(), Some(*fault)).expect(&rt, "as wanted");
    }
}
