use std::alloc::Global;

/// What work that starts threads is handed of its host.
#[derive(Drop)]
pub struct Host<'a, R, G> {
    /// The runtime.
    pub rt: R,
    /// The allocator.
    pub alloc: Global,
    /// The gate that its workers come to.
    pub gate: &'a G,
}
