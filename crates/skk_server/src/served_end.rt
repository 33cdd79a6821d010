/// How the serving of a listener's connections ended.
#[derive(Clone, Copy, Debug, PartialEq, Eq)]
pub enum ServedEnd {
    /// As many connections were served as were asked for, or no more can come.
    Done,
    /// The listener could not accept a link.
    Fault,
    /// Out of memory.
    Memory,
}
