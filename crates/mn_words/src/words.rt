ghost use Rattle.std.specs.Prelude.{◌≡◌, ◌≤◌, length, Some, Ok, Err, IfOk, IfErr, true};
ghost use Rattle.mn_base.specs.Refused.{IfFault};
ghost use Rattle.mn_words.specs.Form.{bare_words, has_form};
ghost use Rattle.mn_words.specs.Items.{items_of};
ghost use Rattle.mn_words.specs.Options.{order_in, turns_in};
ghost use Rattle.mn_words.specs.Order.{IsAssignOrder, IsChainOrder, IsCheckOrder, IsDistillOrder, IsJournalOrder, IsMigrateOrder, IsRedOrder, IsRunOrder, IsWorkloadOrder};
ghost use Rattle.mn_words.specs.TheCommands.{form_of, order_of, chain_of, distill_of, assign_of, run_of, workload_of, journal_of, check_of, red_of, migrate_of};
ghost use Rattle.mn_words.specs.Words.{ordered, texts, IsInRange};

use crate::bare::bare_in;
use crate::command::{Command, command_of, form_of};
use crate::moves::moves_in;
use crate::opt::{Opt, WordsFault};
use crate::options::{
    WORKLOAD_CORES_DEFAULT, cluster_report_in, cores_in, file_if_named, file_in, loss_in, mode_in,
    order_in, packets_in, plan_options_in, seed_in, tick_in, turns_in, workload_number_in,
};
use crate::order::{
    AssignOrder, ChainOrder, CheckOrder, DistillOrder, JournalOrder, MigrateOrder, Order, RedOrder,
    RunOrder, WorkloadOrder,
};
use crate::rest::Rest;
use mn_base::Refusal;
use mn_base::limits::CHAIN_PIPES_MAX;
use std::alloc::Global;

/// What a command line asks for.
///
/// - `chain --trace F --out F --report F --tick-ns N (100000) --seed N (0) --loss L (packet) PIPE..` replays a trace through 1 to
///   16 pipes.
/// - `distill --topology F --mode M (hop) --tick-ns N (100000)` prints the pipes of a distilled topology.
/// - `assign --topology F --mode M (hop) --cores N (1)` prints which core owns each of these pipes.
/// - `rehearse --topology F --trace F --out F --report F --mode M (hop) --cores N (1) --seed N (0) --tick-ns N (100000)
///   --directory F --cluster-report B (no) --loss L (packet) --order N (0) --turns N (0)` replays a trace over a distilled
///   topology.
/// - `emulate` does the same on a thread for each core; it has the options of `rehearse` but for `--order` and `--turns`.
/// - `workload --number N --packets N (20000) --cores N (4)` replays a trace over a topology, both generated from a number.
/// - `journal --topology F --trace F --out F --mode M (hop) --cores N (1) --seed N (0) --tick-ns N (100000) --directory F
///   --loss L (packet)` writes the list of all visits of a trace over a distilled topology.
/// - `check` says whether a list is that list; it has the options of `journal`, with `--journal F` in place of `--out`.
/// - `red --trace F --out F --report F --tick-ns N (100000) --seed N (0) PIPE..` replays a trace through 1 to 16 pipes that drop
///   early.
/// - `migrate` replays a trace over a distilled topology whose pipes move between cores; it has the options of `emulate` but for
///   `--cluster-report`, and 1 to 64 words MOVE.
///
/// What stands in brackets holds where the option is left out; the others are required, but for `--directory`. Options and PIPEs
/// or MOVEs may be mixed. An option is `--name value`, whatever the value's word is, or `--name=value`, parted at the first `=`. A PIPE is
/// `BPS:LATENCY_US:QUEUE:PPM`, M is `hop`, `end`, `walk:W` or `walk:W:O` with numbers from 1 to 4,096, L is `packet` or `arrival`,
/// B is `yes` or `no`. There are 1 to 16 cores, at most 1,000,000 turns, and 1 to 200,000 packets. The PIPE of `red` has four
/// numbers more, `SHIFT:MIN:MAX:EARLY`. A MOVE is `A:Q:C`, with any window A that isn't below that of the word before it, a pipe Q
/// below 262,144 and a core C below the number of cores.
///
/// # Errors
///
/// `Command` where there is no word or the first isn't a command. `Form` where it is, and the words after it have an option that
/// the command hasn't, or one twice, or one without a value at the end, or lack a required one, or have a PIPE or MOVE where the
/// command has none, or none where it has. `Value` where they are of the form, of the first option in the order of `Opt` whose value is
/// out of its range.
#[tactic(auto, unfolding(crate::specs::Words::ordered))]
pub fn read_words(alloc: Global, words: &[&str]) -> Result<Order, Refusal<WordsFault>>
    ensures order { IfOk result (λ order. ordered (texts words.now) ≡ Ok order) }
    ensures ranges { IfOk result IsInRange }
    ensures fault { IfErr result (λ e. IfFault e (λ fault. ordered (texts words.now) ≡ Err fault)) }
{
    let mut rest = Rest::of(words);
    let Some(first) = rest.next() else {
        return Err(Refusal::Fault(WordsFault::Command));
    };
    let Some(command) = command_of(first) else {
        return Err(Refusal::Fault(WordsFault::Command));
    };
    if !form_of(command).has_form(rest.again()) {
        return Err(Refusal::Fault(WordsFault::Form));
    }
    order_of(alloc, command, rest)
}

/// What the words of a command's form ask for.
#[tactic(auto, unfolding(crate::specs::TheCommands::order_of))]
fn order_of(alloc: Global, command: Command, words: Rest) -> Result<Order, Refusal<WordsFault>>
    requires { has_form (form_of command) words ≡ true }
    ensures order { IfOk result (λ order. order_of command (items_of words.entry) ≡ Ok order) }
    ensures ranges { IfOk result IsInRange }
    ensures fault { IfErr result (λ e. IfFault e (λ fault. order_of command (items_of words.entry) ≡ Err fault)) }
{
    match command {
        Command::Chain => Ok(Order::Chain(chain_of(alloc, words)?)),
        Command::Distill => Ok(Order::Distill(distill_of(alloc, words)?)),
        Command::Assign => Ok(Order::Assign(assign_of(alloc, words)?)),
        Command::Rehearse => Ok(Order::Rehearse(run_of(alloc, words)?)),
        Command::Emulate => Ok(Order::Emulate(run_of(alloc, words)?)),
        Command::Workload => Ok(Order::Workload(workload_of(words)?)),
        Command::Journal => Ok(Order::Journal(journal_of(alloc, words)?)),
        Command::Check => Ok(Order::Check(check_of(alloc, words)?)),
        Command::Red => Ok(Order::Red(red_of(alloc, words)?)),
        Command::Migrate => Ok(Order::Migrate(migrate_of(alloc, words)?)),
    }
}

#[tactic(auto, unfolding(crate::specs::TheCommands::chain_of))]
fn chain_of(alloc: Global, words: Rest) -> Result<ChainOrder, Refusal<WordsFault>>
    requires { 1 ≤ length (bare_words (items_of words)) }
    ensures order { IfOk result (λ order. chain_of (items_of words.entry) ≡ Ok order) }
    ensures ranges { IfOk result IsChainOrder }
    ensures fault { IfErr result (λ e. IfFault e (λ fault. chain_of (items_of words.entry) ≡ Err fault)) }
{
    let seed = seed_in(words.again())?;
    let tick_ns = tick_in(words.again())?;
    let pipes = bare_in(alloc, words.again(), CHAIN_PIPES_MAX, Opt::Pipe)?;
    let loss = loss_in(words.again())?;
    let trace = file_in(alloc, words.again(), "--trace")?;
    let out = file_in(alloc, words.again(), "--out")?;
    let report = file_in(alloc, words, "--report")?;
    Ok(ChainOrder {
        trace,
        out,
        report,
        tick_ns,
        seed,
        pipes,
        loss,
    })
}

#[tactic(auto, unfolding(crate::specs::TheCommands::distill_of))]
fn distill_of(alloc: Global, words: Rest) -> Result<DistillOrder, Refusal<WordsFault>>
    ensures order { IfOk result (λ order. distill_of (items_of words.entry) ≡ Ok order) }
    ensures ranges { IfOk result IsDistillOrder }
    ensures fault { IfErr result (λ e. IfFault e (λ fault. distill_of (items_of words.entry) ≡ Err fault)) }
{
    let mode = mode_in(words.again())?;
    let tick_ns = tick_in(words.again())?;
    let topology = file_in(alloc, words, "--topology")?;
    Ok(DistillOrder {
        topology,
        mode,
        tick_ns,
    })
}

#[tactic(auto, unfolding(crate::specs::TheCommands::assign_of))]
fn assign_of(alloc: Global, words: Rest) -> Result<AssignOrder, Refusal<WordsFault>>
    ensures order { IfOk result (λ order. assign_of (items_of words.entry) ≡ Ok order) }
    ensures ranges { IfOk result IsAssignOrder }
    ensures fault { IfErr result (λ e. IfFault e (λ fault. assign_of (items_of words.entry) ≡ Err fault)) }
{
    let mode = mode_in(words.again())?;
    let cores = cores_in(words.again(), 1)?;
    let topology = file_in(alloc, words, "--topology")?;
    Ok(AssignOrder {
        topology,
        mode,
        cores,
    })
}

#[tactic(auto, unfolding(crate::specs::TheCommands::run_of))]
fn run_of(alloc: Global, words: Rest) -> Result<RunOrder, Refusal<WordsFault>>
    ensures order { IfOk result (λ order. run_of (items_of words.entry) ≡ Ok order) }
    ensures ranges { IfOk result IsRunOrder }
    ensures number { IfOk result (λ order. order_in (items_of words.entry) ≡ Ok order.order) }
    ensures turns { IfOk result (λ order. turns_in (items_of words.entry) ≡ Ok order.turns) }
    ensures fault { IfErr result (λ e. IfFault e (λ fault. run_of (items_of words.entry) ≡ Err fault)) }
{
    let mode = mode_in(words.again())?;
    let cores = cores_in(words.again(), 1)?;
    let seed = seed_in(words.again())?;
    let tick_ns = tick_in(words.again())?;
    let cluster_report = cluster_report_in(words.again())?;
    let order = order_in(words.again())?;
    let turns = turns_in(words.again())?;
    let loss = loss_in(words.again())?;
    let topology = file_in(alloc, words.again(), "--topology")?;
    let trace = file_in(alloc, words.again(), "--trace")?;
    let out = file_in(alloc, words.again(), "--out")?;
    let report = file_in(alloc, words.again(), "--report")?;
    let directory = file_if_named(alloc, words, "--directory")?;
    Ok(RunOrder {
        topology,
        trace,
        out,
        report,
        mode,
        cores,
        seed,
        tick_ns,
        directory,
        cluster_report,
        order,
        turns,
        loss,
    })
}

#[tactic(auto, unfolding(crate::specs::TheCommands::workload_of))]
fn workload_of(words: Rest) -> Result<WorkloadOrder, WordsFault>
    ensures order { result ≡ workload_of (items_of words.entry) }
    ensures ranges { IfOk result IsWorkloadOrder }
{
    let cores = cores_in(words.again(), WORKLOAD_CORES_DEFAULT)?;
    let number = workload_number_in(words.again())?;
    let packets = packets_in(words)?;
    Ok(WorkloadOrder {
        number,
        packets,
        cores,
    })
}

#[tactic(auto, unfolding(crate::specs::TheCommands::journal_of))]
fn journal_of(alloc: Global, words: Rest) -> Result<JournalOrder, Refusal<WordsFault>>
    ensures order { IfOk result (λ order. journal_of (items_of words.entry) ≡ Ok order) }
    ensures ranges { IfOk result IsJournalOrder }
    ensures fault { IfErr result (λ e. IfFault e (λ fault. journal_of (items_of words.entry) ≡ Err fault)) }
{
    let options = plan_options_in(words.again())?;
    let topology = file_in(alloc, words.again(), "--topology")?;
    let trace = file_in(alloc, words.again(), "--trace")?;
    let out = file_in(alloc, words.again(), "--out")?;
    let directory = file_if_named(alloc, words, "--directory")?;
    Ok(JournalOrder {
        topology,
        trace,
        out,
        mode: options.mode,
        cores: options.cores,
        seed: options.seed,
        tick_ns: options.tick_ns,
        directory,
        loss: options.loss,
    })
}

#[tactic(auto, unfolding(crate::specs::TheCommands::check_of))]
fn check_of(alloc: Global, words: Rest) -> Result<CheckOrder, Refusal<WordsFault>>
    ensures order { IfOk result (λ order. check_of (items_of words.entry) ≡ Ok order) }
    ensures ranges { IfOk result IsCheckOrder }
    ensures fault { IfErr result (λ e. IfFault e (λ fault. check_of (items_of words.entry) ≡ Err fault)) }
{
    let options = plan_options_in(words.again())?;
    let topology = file_in(alloc, words.again(), "--topology")?;
    let trace = file_in(alloc, words.again(), "--trace")?;
    let journal = file_in(alloc, words.again(), "--journal")?;
    let directory = file_if_named(alloc, words, "--directory")?;
    Ok(CheckOrder {
        topology,
        trace,
        journal,
        mode: options.mode,
        cores: options.cores,
        seed: options.seed,
        tick_ns: options.tick_ns,
        directory,
        loss: options.loss,
    })
}

#[tactic(auto, unfolding(crate::specs::TheCommands::red_of))]
fn red_of(alloc: Global, words: Rest) -> Result<RedOrder, Refusal<WordsFault>>
    requires { 1 ≤ length (bare_words (items_of words)) }
    ensures order { IfOk result (λ order. red_of (items_of words.entry) ≡ Ok order) }
    ensures ranges { IfOk result IsRedOrder }
    ensures fault { IfErr result (λ e. IfFault e (λ fault. red_of (items_of words.entry) ≡ Err fault)) }
{
    let seed = seed_in(words.again())?;
    let tick_ns = tick_in(words.again())?;
    let pipes = bare_in(alloc, words.again(), CHAIN_PIPES_MAX, Opt::Pipe)?;
    let trace = file_in(alloc, words.again(), "--trace")?;
    let out = file_in(alloc, words.again(), "--out")?;
    let report = file_in(alloc, words, "--report")?;
    Ok(RedOrder {
        trace,
        out,
        report,
        tick_ns,
        seed,
        pipes,
    })
}

#[tactic(auto, unfolding(crate::specs::TheCommands::migrate_of))]
fn migrate_of(alloc: Global, words: Rest) -> Result<MigrateOrder, Refusal<WordsFault>>
    requires { 1 ≤ length (bare_words (items_of words)) }
    ensures order { IfOk result (λ order. migrate_of (items_of words.entry) ≡ Ok order) }
    ensures ranges { IfOk result IsMigrateOrder }
    ensures fault { IfErr result (λ e. IfFault e (λ fault. migrate_of (items_of words.entry) ≡ Err fault)) }
{
    let options = plan_options_in(words.again())?;
    let moves = moves_in(alloc, words.again(), options.cores)?;
    let topology = file_in(alloc, words.again(), "--topology")?;
    let trace = file_in(alloc, words.again(), "--trace")?;
    let out = file_in(alloc, words.again(), "--out")?;
    let report = file_in(alloc, words.again(), "--report")?;
    let directory = file_if_named(alloc, words, "--directory")?;
    Ok(MigrateOrder {
        topology,
        trace,
        out,
        report,
        mode: options.mode,
        cores: options.cores,
        seed: options.seed,
        tick_ns: options.tick_ns,
        directory,
        loss: options.loss,
        moves,
    })
}
