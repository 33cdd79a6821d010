use skk_text::Bytes;

/// What a client asks.
#[derive(Debug, Drop)]
pub enum Request {
    /// The end of the connection.
    End,
    /// The candidates of a reading, which is these bytes.
    Look(Bytes),
    /// The version of the server.
    Version,
    /// The host of the server.
    Host,
    /// The readings that go on from a prefix, which is these bytes.
    Complete(Bytes),
}
