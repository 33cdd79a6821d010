/// What is wrong with the reply of a server.
#[derive(Clone, Copy, Debug, PartialEq, Eq)]
pub enum ReplyFlaw {
    /// Its line is too long.
    TooLong,
    /// It ended before its line did, behind so many bytes.
    Ended { read: u64 },
    /// It refuses the request.
    Refused,
    /// It has none of the forms of a reply. It is at fault at this byte of its line, counted from 0.
    Bad { at: u64 },
}
