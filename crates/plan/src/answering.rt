ghost use Rattle.std.specs.Prelude.{◌≡◌, ◌≤◌, IfOk, All, length, map, filter_map};
ghost use Rattle.std.specs.List.{enumerate_from, zip};
ghost use Rattle.std.specs.Result.{result_ok};
ghost use Rattle.mn_base.specs.declared.limits.TheConstants.{PACKETS_MAX};
ghost use Rattle.plan.specs.Router.{bindings_of};
ghost use Rattle.plan.specs.Answers.{AreAnswered, bytes_if_answered, cause_of_answer};

use crate::binder::Binder;
use crate::router::Router;
use crate::uses::Use;
use journal::PacketPlan;
use mn_base::{Bytes, NoMemory, Unbound};
use pcap_io::Packet;
use std::alloc::Global;

/// What becomes of the packets of a trace.
#[derive(Drop)]
pub(crate) struct Answered {
    /// The routes in order of first use.
    pub uses: Vec<Use>,
    /// Each packet as it enters, or why it isn't bound.
    pub packets: Vec<Result<PacketPlan, Unbound>>,
}

/// What becomes of the packets of a trace, in order.
pub(crate) fn answer_all(
    alloc: Global,
    by: &Binder,
    packets: &[Packet],
) -> Result<Answered, NoMemory>
    requires few { length packets.now ≤ PACKETS_MAX }
    requires times { All (λ packet. by.now.base_ns ≤ packet.time_ns) packets.now }
    ensures answered { IfOk result (λ made. AreAnswered by.now packets.now (bindings_of made.uses.items) made.packets.items) }
    ensures count { IfOk result (λ made. length made.packets.items ≡ length packets.now) }
{
    let mut router = Router::new(alloc, by.graph, by.topology.nodes().len())?;
    let mut answers = Vec::with_capacity(alloc, packets.len())?;
    for (number, packet) in packets.iter().enumerate() {
        let answer = by.bind(alloc, &mut router, number as u32, packet)?;
        answers.push(answer)?;
    }
    Ok(Answered {
        uses: router.uses,
        packets: answers,
    })
}

/// The routes, moved, in order of first use.
pub(crate) fn used_routes(alloc: Global, uses: Vec<Use>) -> Result<Vec<Vec<u32>>, NoMemory>
    ensures { IfOk result (λ routes. routes.items ≡ map (λ u. u.route) uses.items) }
{
    let routes = uses.into_iter().map(|first| first.route).collect(alloc)?;
    Ok(routes)
}

/// The packets that are bound.
pub(crate) fn bound(
    alloc: Global,
    answers: &[Result<PacketPlan, Unbound>],
) -> Result<Vec<PacketPlan>, NoMemory>
    ensures { IfOk result (λ packets. packets.items ≡ filter_map result_ok answers.now) }
{
    let packets = answers
        .iter()
        .filter_map(|answer| answer.ok())
        .collect(alloc)?;
    Ok(packets)
}

/// The bytes of the packets that are bound, moved.
pub(crate) fn bound_bytes(
    alloc: Global,
    packets: Vec<Packet>,
    answers: &[Result<PacketPlan, Unbound>],
) -> Result<Vec<Bytes>, NoMemory>
    ensures { IfOk result (λ bytes. bytes.items ≡ filter_map (λ p. bytes_if_answered p.0 p.1) (zip packets.items answers.now)) }
{
    let bytes = packets
        .into_iter()
        .zip(answers)
        .filter_map(|(packet, answer)| bytes_if_answered(packet, answer))
        .collect(alloc)?;
    Ok(bytes)
}

fn bytes_if_answered(packet: Packet, answer: &Result<PacketPlan, Unbound>) -> Option<Bytes>
    ensures { result ≡ bytes_if_answered packet answer.now }
{
    match answer {
        Ok(_) => Some(packet.bytes),
        Err(_) => None,
    }
}

/// The packets that aren't bound, by number, each with its cause.
pub(crate) fn unbound(
    alloc: Global,
    answers: &[Result<PacketPlan, Unbound>],
) -> Result<Vec<(u32, Unbound)>, NoMemory>
    requires { length answers.now ≤ PACKETS_MAX }
    ensures { IfOk result (λ unbounds. unbounds.items ≡ filter_map cause_of_answer (enumerate_from 0 answers.now)) }
{
    let mut unbounds = Vec::new(alloc);
    for (number, answer) in answers.iter().enumerate() {
        match answer {
            Ok(_) => {}
            Err(cause) => unbounds.push((number as u32, *cause))?,
        }
    }
    Ok(unbounds)
}
