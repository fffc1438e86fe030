ghost use Rattle.std.specs.Prelude.{◌≡◌, List, ℕ, IfOk};
ghost use Rattle.std.specs.String.{string_bytes};

use distill::Mode;
use journal::LossBy;
use mn_base::NoMemory;
use std::alloc::Global;
use std::marker::Model;

/// The name of a file, which contracts see as its bytes.
#[derive(Drop)]
pub struct FileName {
    text: String,
}

impl Model for FileName {
    ghost Value = { List ℕ };

    ghost view = { λ n. string_bytes n.text };
}

impl FileName {
    /// The same text, owned.
    pub fn copy(alloc: Global, from: &str) -> Result<FileName, NoMemory>
        ensures copied { IfOk result (λ name. name ≡ from.now) }
    {
        let text = String::from_str(alloc, from)?;
        Ok(FileName { text })
    }

    /// Lends the text.
    pub fn as_str(&self) -> &str
        ensures lent { result.now ≡ self.now }
    {
        self.text.as_str()
    }
}

/// One pipe of a chain, as its word `BPS:LATENCY_US:QUEUE:PPM` gives it.
#[derive(Clone, Copy, Debug, PartialEq, Eq)]
pub struct PipeSpec {
    /// Bandwidth, in bit/s, from 1,000 to 10^12.
    pub bps: u64,
    /// Latency, in microseconds, at most 10,000,000.
    pub latency_us: u32,
    /// Queue limit, in packets, from 1 to 1,000.
    pub queue: u32,
    /// Loss, in ppm (parts in a million), at most 1,000,000.
    pub ppm: u32,
}

/// One pipe that drops early, as its word `BPS:LATENCY_US:QUEUE:PPM:SHIFT:MIN:MAX:EARLY` gives it.
#[derive(Clone, Copy, Debug, PartialEq, Eq)]
pub struct RedSpec {
    /// The pipe without early drops.
    pub base: PipeSpec,
    /// The weight of the average number of waiting packets, at most 16: a visit moves it by 1 / 2^shift of the difference.
    pub shift: u32,
    /// The average, in packets, from which packets may be dropped early, at most 999.
    pub min: u32,
    /// The average, in packets, from which every packet is dropped early, above `min` and at most 1,000.
    pub max: u32,
    /// How often packets are dropped early just below `max`, in ppm, at most 1,000,000.
    pub early: u32,
}

/// One move of a pipe to a core, as its word `A:Q:C` gives it.
#[derive(Clone, Copy, Debug, PartialEq, Eq)]
pub struct MoveSpec {
    /// The window before which the pipe moves, from 0.
    pub window: u64,
    /// The pipe, below 262,144.
    pub pipe: u32,
    /// The core that it goes to, below the number of cores.
    pub core: u32,
}

/// The options on which a plan depends, beside its files.
#[derive(Clone, Copy, Debug, PartialEq, Eq)]
pub struct PlanOptions {
    /// How much of the topology is kept.
    pub mode: Mode,
    /// How many cores the pipes are dealt to.
    pub cores: u32,
    /// The seed of the loss words.
    pub seed: u64,
    /// The tick length, in ns.
    pub tick_ns: u64,
    /// How loss words are numbered.
    pub loss: LossBy,
}

/// What `chain` is asked for.
#[derive(Drop)]
pub struct ChainOrder {
    /// The trace that is read.
    pub trace: FileName,
    /// The trace that is written.
    pub out: FileName,
    /// The report that is written.
    pub report: FileName,
    /// The tick length, in ns.
    pub tick_ns: u64,
    /// The seed of the loss words.
    pub seed: u64,
    /// The pipes, in the order in which a packet visits them.
    pub pipes: Vec<PipeSpec>,
    /// How loss words are numbered.
    pub loss: LossBy,
}

impl Model for ChainOrder {
    ghost use Rattle.mn_words.specs.Order.{ChainView};

    ghost Value = { ChainView };

    ghost view = { λ o. record {
      trace = o.trace;
      out = o.out;
      report = o.report;
      tick_ns = o.tick_ns;
      seed = o.seed;
      pipes = o.pipes.items;
      loss = o.loss;
    } };
}

/// What `distill` is asked for.
#[derive(Drop)]
pub struct DistillOrder {
    /// The topology that is read.
    pub topology: FileName,
    /// How much of it is kept.
    pub mode: Mode,
    /// The tick length, in ns.
    pub tick_ns: u64,
}

impl Model for DistillOrder {
    ghost use Rattle.mn_words.specs.Order.{DistillView};

    ghost Value = { DistillView };

    ghost view = { λ o. record {
      topology = o.topology;
      mode = o.mode;
      tick_ns = o.tick_ns;
    } };
}

/// What `assign` is asked for.
#[derive(Drop)]
pub struct AssignOrder {
    /// The topology that is read.
    pub topology: FileName,
    /// How much of it is kept.
    pub mode: Mode,
    /// How many cores the pipes are dealt to.
    pub cores: u32,
}

impl Model for AssignOrder {
    ghost use Rattle.mn_words.specs.Order.{AssignView};

    ghost Value = { AssignView };

    ghost view = { λ o. record {
      topology = o.topology;
      mode = o.mode;
      cores = o.cores;
    } };
}

/// What `rehearse` or `emulate` is asked for.
#[derive(Drop)]
pub struct RunOrder {
    /// The topology that is read.
    pub topology: FileName,
    /// The trace that is read.
    pub trace: FileName,
    /// The trace that is written.
    pub out: FileName,
    /// The report that is written.
    pub report: FileName,
    /// How much of the topology is kept.
    pub mode: Mode,
    /// How many cores run.
    pub cores: u32,
    /// The seed of the loss words.
    pub seed: u64,
    /// The tick length, in ns.
    pub tick_ns: u64,
    /// The directory that is read, which says which core owns each pipe.
    pub directory: Option<FileName>,
    /// Whether the cluster report is written.
    pub cluster_report: bool,
    /// The number of the order in which the cores take their first turns; 0 for `emulate`.
    pub order: u64,
    /// How many turns are taken in that order; none for `emulate`.
    pub turns: u32,
    /// How loss words are numbered.
    pub loss: LossBy,
}

impl Model for RunOrder {
    ghost use Rattle.mn_words.specs.Order.{RunView};

    ghost Value = { RunView };

    ghost view = { λ o. record {
      topology = o.topology;
      trace = o.trace;
      out = o.out;
      report = o.report;
      mode = o.mode;
      cores = o.cores;
      seed = o.seed;
      tick_ns = o.tick_ns;
      directory = o.directory;
      cluster_report = o.cluster_report;
      order = o.order;
      turns = o.turns;
      loss = o.loss;
    } };
}

/// What `workload` is asked for.
#[derive(Clone, Copy, Debug, PartialEq, Eq)]
pub struct WorkloadOrder {
    /// The number that topology and trace are generated from, and the seed of the loss words.
    pub number: u64,
    /// How many packets the trace has, from 1 to 200,000.
    pub packets: u32,
    /// How many cores run.
    pub cores: u32,
}

/// What `journal` is asked for.
#[derive(Drop)]
pub struct JournalOrder {
    /// The topology that is read.
    pub topology: FileName,
    /// The trace that is read.
    pub trace: FileName,
    /// The journal that is written.
    pub out: FileName,
    /// How much of the topology is kept.
    pub mode: Mode,
    /// How many cores the pipes are dealt to.
    pub cores: u32,
    /// The seed of the loss words.
    pub seed: u64,
    /// The tick length, in ns.
    pub tick_ns: u64,
    /// The directory that is read, which says which core owns each pipe.
    pub directory: Option<FileName>,
    /// How loss words are numbered.
    pub loss: LossBy,
}

impl Model for JournalOrder {
    ghost use Rattle.mn_words.specs.Order.{JournalView};

    ghost Value = { JournalView };

    ghost view = { λ o. record {
      topology = o.topology;
      trace = o.trace;
      out = o.out;
      mode = o.mode;
      cores = o.cores;
      seed = o.seed;
      tick_ns = o.tick_ns;
      directory = o.directory;
      loss = o.loss;
    } };
}

/// What `check` is asked for.
#[derive(Drop)]
pub struct CheckOrder {
    /// The topology that is read.
    pub topology: FileName,
    /// The trace that is read.
    pub trace: FileName,
    /// The journal that is read.
    pub journal: FileName,
    /// How much of the topology is kept.
    pub mode: Mode,
    /// How many cores the pipes are dealt to.
    pub cores: u32,
    /// The seed of the loss words.
    pub seed: u64,
    /// The tick length, in ns.
    pub tick_ns: u64,
    /// The directory that is read, which says which core owns each pipe.
    pub directory: Option<FileName>,
    /// How loss words are numbered.
    pub loss: LossBy,
}

impl Model for CheckOrder {
    ghost use Rattle.mn_words.specs.Order.{CheckView};

    ghost Value = { CheckView };

    ghost view = { λ o. record {
      topology = o.topology;
      trace = o.trace;
      journal = o.journal;
      mode = o.mode;
      cores = o.cores;
      seed = o.seed;
      tick_ns = o.tick_ns;
      directory = o.directory;
      loss = o.loss;
    } };
}

/// What `red` is asked for.
#[derive(Drop)]
pub struct RedOrder {
    /// The trace that is read.
    pub trace: FileName,
    /// The trace that is written.
    pub out: FileName,
    /// The report that is written.
    pub report: FileName,
    /// The tick length, in ns.
    pub tick_ns: u64,
    /// The seed of the loss words and of the early words.
    pub seed: u64,
    /// The pipes, in the order in which a packet visits them.
    pub pipes: Vec<RedSpec>,
}

impl Model for RedOrder {
    ghost use Rattle.mn_words.specs.Order.{RedView};

    ghost Value = { RedView };

    ghost view = { λ o. record {
      trace = o.trace;
      out = o.out;
      report = o.report;
      tick_ns = o.tick_ns;
      seed = o.seed;
      pipes = o.pipes.items;
    } };
}

/// What `migrate` is asked for.
#[derive(Drop)]
pub struct MigrateOrder {
    /// The topology that is read.
    pub topology: FileName,
    /// The trace that is read.
    pub trace: FileName,
    /// The trace that is written.
    pub out: FileName,
    /// The report that is written.
    pub report: FileName,
    /// How much of the topology is kept.
    pub mode: Mode,
    /// How many cores there are.
    pub cores: u32,
    /// The seed of the loss words.
    pub seed: u64,
    /// The tick length, in ns.
    pub tick_ns: u64,
    /// The directory that is read, which says which core owns each pipe at first.
    pub directory: Option<FileName>,
    /// How loss words are numbered.
    pub loss: LossBy,
    /// The moves, whose windows don't fall.
    pub moves: Vec<MoveSpec>,
}

impl Model for MigrateOrder {
    ghost use Rattle.mn_words.specs.Order.{MigrateView};

    ghost Value = { MigrateView };

    ghost view = { λ o. record {
      topology = o.topology;
      trace = o.trace;
      out = o.out;
      report = o.report;
      mode = o.mode;
      cores = o.cores;
      seed = o.seed;
      tick_ns = o.tick_ns;
      directory = o.directory;
      loss = o.loss;
      moves = o.moves.items;
    } };
}

/// What a command line asks for.
#[derive(Drop)]
pub enum Order {
    /// Replays a trace through a chain of pipes.
    Chain(ChainOrder),
    /// Prints the pipes of a distilled topology.
    Distill(DistillOrder),
    /// Prints which core owns each pipe of a distilled topology.
    Assign(AssignOrder),
    /// Replays a trace over a distilled topology, all cores on one thread.
    Rehearse(RunOrder),
    /// The same, each core on a thread of its own.
    Emulate(RunOrder),
    /// Replays a generated trace over a generated topology, and prints a summary.
    Workload(WorkloadOrder),
    /// Writes the list of all visits of a trace over a distilled topology.
    Journal(JournalOrder),
    /// Says whether a list is that list.
    Check(CheckOrder),
    /// Replays a trace through a chain of pipes that drop early.
    Red(RedOrder),
    /// Replays a trace over a distilled topology, window by window, whose pipes move between cores.
    Migrate(MigrateOrder),
}
