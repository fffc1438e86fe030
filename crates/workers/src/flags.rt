use std::sync::atomic::{AtomicBool, AtomicU64, Ordering};

/// What the threads of a run tell each other beside parcels. No contract rests on it.
#[derive(Drop)]
pub(crate) struct Flags {
    /// A core found no memory: nobody goes on.
    stop: AtomicBool,
    /// The cores whose threads can't be had, a bit each: they are to be given back.
    back: AtomicU64,
}

impl Flags {
    /// No flag is raised.
    pub(crate) fn new() -> Flags {
        Flags {
            stop: AtomicBool::new(false),
            back: AtomicU64::new(0),
        }
    }

    pub(crate) fn stop(&self) {
        self.stop.store(true, Ordering::SeqCst);
    }

    pub(crate) fn is_stopped(&self) -> bool {
        self.stop.load(Ordering::SeqCst)
    }

    pub(crate) fn give_back(&self, core: u32) {
        self.back.fetch_or(bit(core), Ordering::SeqCst);
    }

    pub(crate) fn is_given_back(&self, core: u32) -> bool {
        self.back.load(Ordering::SeqCst) & bit(core) != 0
    }
}

/// The bit of a core, of which there are 16 at most.
fn bit(core: u32) -> u64 {
    1 << (core % u64::BITS)
}
