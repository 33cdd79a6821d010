use std::alloc::Global;
use std::process::Abort;

// What stands behind the head of a file in which 漢字 was learnt for かんじ once, and twice: its records, and a gate that
// is closed.
pub(crate) const ONCE: &[u8] = b"\x01\x26\0\0\0\x01\x01\0\x01\0\0\0\0\0\0\0\x01\0\0\0\0\0\0\0\0\
    \xe3\x81\x8b\xe3\x82\x93\xe3\x81\x98 /\xe6\xbc\xa2\xe5\xad\x97/\0";

pub(crate) const TWICE: &[u8] = b"\x01\x26\0\0\0\x01\x01\0\x01\0\0\0\0\0\0\0\x01\0\0\0\0\0\0\0\0\
    \xe3\x81\x8b\xe3\x82\x93\xe3\x81\x98 /\xe6\xbc\xa2\xe5\xad\x97/\
    \x01\x26\0\0\0\x01\x01\0\x02\0\0\0\0\0\0\0\x02\0\0\0\0\0\0\0\0\
    \xe3\x81\x8b\xe3\x82\x93\xe3\x81\x98 /\xe6\xbc\xa2\xe5\xad\x97/\0";

// The same where 傘 was learnt for かさ once.
pub(crate) const KASA: &[u8] = b"\x01\x20\0\0\0\x01\x01\0\x01\0\0\0\0\0\0\0\x01\0\0\0\0\0\0\0\0\
    \xe3\x81\x8b\xe3\x81\x95 /\xe5\x82\x98/\0";

// The same row with the count 2 and its stamp, and then with the next ones.
pub(crate) const TWO_AND_THREE: &[u8] =
    b"\x01\x26\0\0\0\x01\x01\0\x02\0\0\0\0\0\0\0\x02\0\0\0\0\0\0\0\0\
    \xe3\x81\x8b\xe3\x82\x93\xe3\x81\x98 /\xe6\xbc\xa2\xe5\xad\x97/\
    \x01\x26\0\0\0\x01\x01\0\x03\0\0\0\0\0\0\0\x03\0\0\0\0\0\0\0\0\
    \xe3\x81\x8b\xe3\x82\x93\xe3\x81\x98 /\xe6\xbc\xa2\xe5\xad\x97/\0";

// The same one time later.
pub(crate) const THREE_AND_FOUR: &[u8] =
    b"\x01\x26\0\0\0\x01\x01\0\x03\0\0\0\0\0\0\0\x03\0\0\0\0\0\0\0\0\
    \xe3\x81\x8b\xe3\x82\x93\xe3\x81\x98 /\xe6\xbc\xa2\xe5\xad\x97/\
    \x01\x26\0\0\0\x01\x01\0\x04\0\0\0\0\0\0\0\x04\0\0\0\0\0\0\0\0\
    \xe3\x81\x8b\xe3\x82\x93\xe3\x81\x98 /\xe6\xbc\xa2\xe5\xad\x97/\0";

// 傘 was learnt for かさ, and taken back.
pub(crate) const TAKEN_BACK: &[u8] =
    b"\x01\x20\0\0\0\x01\x01\0\x01\0\0\0\0\0\0\0\x01\0\0\0\0\0\0\0\0\
    \xe3\x81\x8b\xe3\x81\x95 /\xe5\x82\x98/\
    \x01\x12\0\0\0\x02\x01\0\x01\0\0\0\0\0\0\0\0\xe3\x81\x8b\xe3\x81\x95\0";

// A book without rows has the count 1, and then 木 was learnt for き.
pub(crate) const COUNTED: &[u8] = b"\x01\x0b\0\0\0\x03\x01\0\x01\0\0\0\0\0\0\0\
    \x01\x1d\0\0\0\x01\x01\0\x02\0\0\0\0\0\0\0\x02\0\0\0\0\0\0\0\0\
    \xe3\x81\x8d /\xe6\x9c\xa8/\0";

// 木 was learnt for き, and 傘 twice for かさ.
pub(crate) const TWO_WORDS: &[u8] =
    b"\x01\x1d\0\0\0\x01\x01\0\x01\0\0\0\0\0\0\0\x01\0\0\0\0\0\0\0\0\
    \xe3\x81\x8d /\xe6\x9c\xa8/\
    \x01\x20\0\0\0\x01\x01\0\x02\0\0\0\0\0\0\0\x02\0\0\0\0\0\0\0\0\
    \xe3\x81\x8b\xe3\x81\x95 /\xe5\x82\x98/\
    \x01\x20\0\0\0\x01\x01\0\x03\0\0\0\0\0\0\0\x03\0\0\0\0\0\0\0\0\
    \xe3\x81\x8b\xe3\x81\x95 /\xe5\x82\x98/\0";

// The rows that these leave, and then 木 was learnt again.
pub(crate) const IN_ORDER: &[u8] = b"\x01\x20\0\0\0\x01\x01\0\x03\0\0\0\0\0\0\0\x03\0\0\0\0\0\0\0\0\
    \xe3\x81\x8b\xe3\x81\x95 /\xe5\x82\x98/\
    \x01\x1d\0\0\0\x01\x01\0\x03\0\0\0\0\0\0\0\x01\0\0\0\0\0\0\0\0\
    \xe3\x81\x8d /\xe6\x9c\xa8/\
    \x01\x1d\0\0\0\x01\x01\0\x04\0\0\0\0\0\0\0\x04\0\0\0\0\0\0\0\0\
    \xe3\x81\x8d /\xe6\x9c\xa8/\0";

// What a file has: these bytes; or a first byte, the mark of version 3, a generation, and what stands behind them.
#[derive(Clone, Copy, Debug)]
pub(crate) enum FileContent<'a> {
    Bytes(&'a [u8]),
    Headed(u8, u64, &'a [u8]),
}

// The bytes of a file.
pub(crate) fn bytes_of<R: Abort>(rt: &R, alloc: Global, content: FileContent) -> Vec<u8> {
    match content {
        FileContent::Bytes(bytes) => bytes.to_vec(alloc).expect(rt, "memory"),
        FileContent::Headed(first, generation, tail) => {
            let mut bytes = vec![in alloc; first].expect(rt, "memory");
            bytes.extend_from_slice(b"SKKDESK\x03").expect(rt, "memory");
            bytes
                .extend_from_slice(&generation.to_le_bytes())
                .expect(rt, "memory");
            bytes.extend_from_slice(tail).expect(rt, "memory");
            bytes
        }
    }
}
