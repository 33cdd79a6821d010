/// A place that work comes to before each of its steps, for tests that hold it there. It may wait.
pub trait Gate {
    /// Comes to the gate before a caller's next step: a reply of a connection that is to be written, or a line of keys
    /// of a worker. `turn` counts the steps of that caller before this one.
    fn at(&self, caller: u32, turn: u64);
}

/// The gate that holds nothing.
#[derive(Clone, Copy, Debug)]
pub struct Open;

impl Gate for Open {
    fn at(&self, _caller: u32, _turn: u64) {}
}
