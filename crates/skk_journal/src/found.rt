use skk_text::{Bytes, Sequence};

/// A record that was read: the place of its gate, in bytes, and its payload.
#[derive(Debug, Drop)]
pub struct FoundRecord {
    pub at: u64,
    pub payload: Bytes,
}

/// The records of a learned file, in order.
pub type Records = Sequence<FoundRecord>;
