ghost use Rattle.std.specs.Prelude.{◌≡◌, IfOk};
ghost use Rattle.std.specs.Prelude.{◌≤◌};
ghost use Rattle.mn_base.specs.Ranges.{IsTickLength};
ghost use Rattle.distill.specs.Modes.{IsMode};
ghost use Rattle.mn_words.specs.Form.{value_of};
ghost use Rattle.mn_words.specs.Items.{items_of};
ghost use Rattle.mn_words.specs.Options.{mode_in, cores_in, seed_in, tick_in, cluster_report_in, order_in, turns_in, workload_number_in, packets_in, loss_in, text_in};
ghost use Rattle.mn_words.specs.Order.{ArePlanOptions, IsCoreCount};
ghost use Rattle.mn_words.specs.TheCommands.{plan_options_in};

use crate::form::value_of;
use crate::opt::{Opt, WordsFault};
use crate::order::{FileName, PlanOptions};
use crate::rest::Rest;
use crate::values::{cores_of, loss_of, mode_of, packets_of, tick_of, turns_of, yes_or_no};
use distill::Mode;
use journal::LossBy;
use mn_base::limits::{TICK_NS_DEFAULT, TURNS_MAX, WORKLOAD_PACKETS_MAX};
use mn_base::{NoMemory, read_u64};
use std::alloc::Global;

/// The cores of a workload where no number of cores is asked for.
pub const WORKLOAD_CORES_DEFAULT: u32 = 4;

/// The packets of a workload where no number of packets is asked for.
const WORKLOAD_PACKETS_DEFAULT: u32 = 20_000;

/// `--mode`: how much is kept of a topology, and every link without it.
pub fn mode_in(words: Rest) -> Result<Mode, WordsFault>
    ensures value { result ≡ mode_in (items_of words.entry) }
    ensures range { IfOk result IsMode }
{
    match value_of(words, "--mode") {
        None => Ok(Mode::Hop),
        Some(text) => mode_of(text).ok_or(WordsFault::Value(Opt::Mode)),
    }
}

/// `--cores`: how many cores there are, and as many as are usual without it.
pub fn cores_in(words: Rest, usual: u32) -> Result<u32, WordsFault>
    requires { IsCoreCount usual }
    ensures value { result ≡ cores_in usual (items_of words.entry) }
    ensures range { IfOk result IsCoreCount }
{
    match value_of(words, "--cores") {
        None => Ok(usual),
        Some(text) => cores_of(text).ok_or(WordsFault::Value(Opt::Cores)),
    }
}

/// `--seed`: the seed of the loss words, and 0 without it.
pub fn seed_in(words: Rest) -> Result<u64, WordsFault>
    ensures { result ≡ seed_in (items_of words.entry) }
{
    match value_of(words, "--seed") {
        None => Ok(0),
        Some(text) => read_u64(text.as_bytes()).ok_or(WordsFault::Value(Opt::Seed)),
    }
}

/// `--tick-ns`: the tick length, in ns, and the usual one without it.
pub fn tick_in(words: Rest) -> Result<u64, WordsFault>
    ensures value { result ≡ tick_in (items_of words.entry) }
    ensures range { IfOk result IsTickLength }
{
    match value_of(words, "--tick-ns") {
        None => Ok(TICK_NS_DEFAULT),
        Some(text) => tick_of(text).ok_or(WordsFault::Value(Opt::TickNs)),
    }
}

/// `--cluster-report`: whether the cluster report is written, and not without it.
pub fn cluster_report_in(words: Rest) -> Result<bool, WordsFault>
    ensures { result ≡ cluster_report_in (items_of words.entry) }
{
    match value_of(words, "--cluster-report") {
        None => Ok(false),
        Some(text) => yes_or_no(text).ok_or(WordsFault::Value(Opt::ClusterReport)),
    }
}

/// `--order`: the number of an order of turns, and 0 without it.
pub fn order_in(words: Rest) -> Result<u64, WordsFault>
    ensures { result ≡ order_in (items_of words.entry) }
{
    match value_of(words, "--order") {
        None => Ok(0),
        Some(text) => read_u64(text.as_bytes()).ok_or(WordsFault::Value(Opt::Order)),
    }
}

/// `--turns`: how many turns are taken in that order, and none without it.
pub fn turns_in(words: Rest) -> Result<u32, WordsFault>
    ensures value { result ≡ turns_in (items_of words.entry) }
    ensures range { IfOk result (λ turns. turns ≤ TURNS_MAX) }
{
    match value_of(words, "--turns") {
        None => Ok(0),
        Some(text) => turns_of(text).ok_or(WordsFault::Value(Opt::Turns)),
    }
}

/// `--number`: the number of a workload, which stands.
pub fn workload_number_in(words: Rest) -> Result<u64, WordsFault>
    ensures { result ≡ workload_number_in (items_of words.entry) }
{
    let text = value_of(words, "--number").unwrap_or("");
    read_u64(text.as_bytes()).ok_or(WordsFault::Value(Opt::Number))
}

/// `--packets`: how many packets a workload has, and the usual number without it.
pub fn packets_in(words: Rest) -> Result<u32, WordsFault>
    ensures value { result ≡ packets_in (items_of words.entry) }
    ensures least { IfOk result (λ packets. 1 ≤ packets) }
    ensures most { IfOk result (λ packets. packets ≤ WORKLOAD_PACKETS_MAX) }
{
    match value_of(words, "--packets") {
        None => Ok(WORKLOAD_PACKETS_DEFAULT),
        Some(text) => packets_of(text).ok_or(WordsFault::Value(Opt::Packets)),
    }
}

/// `--loss`: how loss words are numbered, and by the packet without it.
pub fn loss_in(words: Rest) -> Result<LossBy, WordsFault>
    ensures { result ≡ loss_in (items_of words.entry) }
{
    match value_of(words, "--loss") {
        None => Ok(LossBy::Packet),
        Some(text) => loss_of(text).ok_or(WordsFault::Value(Opt::Loss)),
    }
}

/// The options on which a plan depends, beside its files.
#[tactic(auto, unfolding(crate::specs::TheCommands::plan_options_in))]
pub fn plan_options_in(words: Rest) -> Result<PlanOptions, WordsFault>
    ensures value { result ≡ plan_options_in (items_of words.entry) }
    ensures ranges { IfOk result ArePlanOptions }
{
    let mode = mode_in(words.again())?;
    let cores = cores_in(words.again(), 1)?;
    let seed = seed_in(words.again())?;
    let tick_ns = tick_in(words.again())?;
    let loss = loss_in(words)?;
    Ok(PlanOptions {
        mode,
        cores,
        seed,
        tick_ns,
        loss,
    })
}

/// The file that an option names, which stands.
pub fn file_in(alloc: Global, words: Rest, name: &str) -> Result<FileName, NoMemory>
    ensures { IfOk result (λ file. file ≡ text_in name.now (items_of words.entry)) }
{
    match value_of(words, name) {
        Some(text) => FileName::copy(alloc, text),
        None => FileName::copy(alloc, ""),
    }
}

/// The file that an option names, where it stands.
pub fn file_if_named(alloc: Global, words: Rest, name: &str) -> Result<Option<FileName>, NoMemory>
    ensures { IfOk result (λ file. file ≡ value_of name.now (items_of words.entry)) }
{
    match value_of(words, name) {
        Some(text) => Ok(Some(FileName::copy(alloc, text)?)),
        None => Ok(None),
    }
}
