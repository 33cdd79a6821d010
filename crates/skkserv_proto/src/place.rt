use crate::command::Wants;
use cut_input::Begun;

/// Where bytes end that are read as requests.
#[derive(Debug, Drop)]
pub enum RequestPlace {
    /// Before a command.
    Command,
    /// In a reading, of which these bytes stand there.
    Reading { wants: Wants, text: Begun },
    /// Behind the end of the connection.
    Ended,
    /// Behind a bad byte, which stands at this place.
    Bad { at: u64 },
}
