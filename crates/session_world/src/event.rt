use skk_calls::Refusal;
use skk_text::Key;

/// What happens to a world.
#[derive(Clone, Copy, Debug)]
pub enum Event {
    /// A key is started in the session of a place, counted from 0.
    Key(usize, Key),
    /// The call that the key under way of a place asks is served.
    Serve(usize),
    /// The call that the key under way of a place asks is refused.
    Refuse(usize, Refusal),
    /// All stops, and is opened anew with the changes that were accepted, and where this is true with the change too
    /// that was last refused for the disk.
    Crash(bool),
}
