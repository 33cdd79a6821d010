use crate::ended::Ended;
use crate::service::ConnectionContext;

/// What serves the connections of a listener: the threads, what their turns are handed, the office that admits their
/// callers, where their workers tell that they end, and how many are served.
#[derive(Drop)]
pub(crate) struct Server<'s, R, W, G> {
    pub(crate) rt: &'s R,
    pub(crate) service: &'s ConnectionContext<'s, G>,
    pub(crate) office: &'s W,
    pub(crate) ended: &'s Ended,
    pub(crate) connections: u32,
}
