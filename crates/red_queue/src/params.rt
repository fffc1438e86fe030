use mn_base::PipeParams;

/// The parameters of one pipe whose queue drops early.
#[derive(Clone, Copy, Debug, PartialEq, Eq)]
pub struct RedParams {
    /// Those of the pipe.
    pub base: PipeParams,
    /// The average moves by 1 / 2^shift of the difference.
    pub shift: u32,
    /// Early drops begin where this many packets wait on average.
    pub min: u32,
    /// Where this many wait on average, every packet is dropped.
    pub max: u32,
    /// The part of the packets that is dropped just below `max`, in ppm (parts in a million).
    pub early: u32,
}
