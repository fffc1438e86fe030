/// What a caller wants to see of a run on threads.
pub trait Hook: Sync {
    /// Called with the number of each core, once, before the core's first turn and on the thread that makes that turn.
    fn at_start(&self, core: u32);
}
