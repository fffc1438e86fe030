//! Facts that follow from the definitions of distilled topologies alone. These functions compute nothing.
ghost use Rattle.distill.specs.Latency.{LatencyStays};
ghost use Rattle.distill.specs.Laws.{OneDistilled, OnePipeCount, PipesAreCounted, NarrowestIsFirst};

/// In every mode, between every two edge nodes, the least latency over walks of the distilled topology equals that of the topology,
/// and one has a walk if and only if the other has one.
pub fn latency_stays()
    ensures { LatencyStays }
{}

/// A topology has one distilled topology in a mode, with its pipes in one order.
pub fn one_distilled()
    ensures { OneDistilled }
{}

/// A topology has one number of pipes in a mode, and it is the number of pipes of the distilled topology.
pub fn one_pipe_count()
    ensures one { OnePipeCount }
    ensures length { PipesAreCounted }
{}

/// The link whose bandwidth and queue limit a pipe has is the first of least bandwidth: all before it have more, and none after it
/// has less.
pub fn narrowest_is_first()
    ensures { NarrowestIsFirst }
{}
