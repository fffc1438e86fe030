ghost use Rattle.std.specs.Prelude.{◌≡◌, ◌<◌, ◌≤◌, [], length, All, IfOk, IfErr};
ghost use Rattle.mn_base.specs.Refused.{IfFault};
ghost use Rattle.pcapng_in.specs.Reading.{ReadsTo, Pcapng, HasBlockFault, NgFirst};
ghost use Rattle.pcapng_in.specs.declared.packets.TheConstants.{CAPTURE_NS_END};
ghost use Rattle.pcapng_in.specs.Answers.{seen};

use crate::blocks::read_shape;
use crate::fault::NgFault;
use crate::state::State;
use mn_base::Refusal;
use mn_base::limits::TRACE_BYTES_MAX;
use pcap_io::Trace;
use std::alloc::Global;

fn read_blocks(alloc: Global, text: &[u8]) -> Result<State, Refusal<NgFault>>
    requires { length text.now ≤ TRACE_BYTES_MAX }
    ensures found { IfOk result (λ state. ReadsTo text.now (seen state) []) }
    ensures fault { IfErr result (λ refusal. IfFault refusal (λ fault. HasBlockFault fault text.now)) }
{
    let mut state = State::new(alloc);
    let mut rest = text;
    'steps: while !rest.is_empty() {
        let shape = match read_shape(state.place, state.order, rest) {
            Ok(shape) => shape,
            Err(fault) => return Err(Refusal::Fault(fault)),
        };
        state.read_block(alloc, shape, rest)?;
        state.place += shape.len;
        rest = rest.split_at(shape.len as usize).1;
    }
    Ok(state)
}

/// Reads a pcapng file.
pub fn read_pcapng(alloc: Global, text: &[u8]) -> Result<Trace, Refusal<NgFault>>
    requires { length text.now ≤ TRACE_BYTES_MAX }
    ensures found { IfOk result (λ trace. Pcapng text.now trace) }
    ensures fault { IfErr result (λ refusal. IfFault refusal (NgFirst text.now)) }
    ensures times { IfOk result (λ trace. All (λ packet. packet.time_ns < CAPTURE_NS_END) trace.packets) }
{
    let State {
        link_type,
        packets,
        ..
    } = read_blocks(alloc, text)?;
    match link_type {
        None => Err(Refusal::Fault(NgFault::NoInterface)),
        Some(link_type) => Ok(Trace::new(link_type, packets)),
    }
}
