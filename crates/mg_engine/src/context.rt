use mg_scan::Workers;
use std::alloc::Global;

/// What a command needs from its caller, besides its body: the runtime, the allocator, the workers and the gate.
#[derive(Drop)]
pub(crate) struct Context<'a, R, G> {
    pub(crate) rt: &'a R,
    pub(crate) alloc: Global,
    pub(crate) workers: Workers,
    /// The gate that a query passes at the beginning and at the end of each shard.
    pub(crate) gate: &'a G,
}
