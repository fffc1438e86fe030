//! What makers, cores and checkers do for one visit: which visit is due first, which one follows, at which pipe, and how long
//! the packet is. The pipe itself is a [`SetupPipe`].

ghost use Rattle.std.specs.Prelude.{◌≡◌, ◌<◌, ◌≤◌, Some, length, slice_index, All};
ghost use Rattle.journal.specs.SetupView.{packet_of, route_of, len_of};
ghost use Rattle.journal.specs.Hops.{entry, hop_after};

use crate::setup::{PacketPlan, Setup};
pub use crate::setup_pipe::{SetupPipe, idle_pipe, idle_pipes};
use mn_base::Due;
use mn_base::limits::{PACKET_BYTES_MAX, ROUTE_PIPES_MAX};
use pipe::Step;

/// The length of a packet, in bytes.
pub fn packet_len(setup: &Setup, plan: PacketPlan) -> u32
    requires { packet_of setup.now plan.number ≡ Some plan }
    ensures len { result ≡ len_of setup.now plan.number }
    ensures short { result ≤ PACKET_BYTES_MAX }
{
    let _parts = setup.parts();
    plan.len
}

/// The pipes on the way of a packet, in order.
pub fn route(setup: &Setup, plan: PacketPlan) -> &[u32]
    requires { packet_of setup.now plan.number ≡ Some plan }
    ensures route { result.now ≡ route_of setup.now plan.number }
    ensures short { length result.now ≤ ROUTE_PIPES_MAX }
    ensures named { All (λ pipe. pipe < length setup.now.pipes) result.now }
{
    &setup.parts().routes[plan.route as usize]
}

/// The first visit of a packet; none where its route is empty.
pub fn first_due(setup: &Setup, plan: PacketPlan) -> Option<Due>
    requires { packet_of setup.now plan.number ≡ Some plan }
    ensures { result ≡ entry setup.now plan }
{
    if route(setup, plan).is_empty() {
        return None;
    }
    Some(Due {
        tick: plan.entry_tick,
        packet: plan.number,
        hop: 0,
    })
}

/// The pipe at a hop of a packet's route.
pub fn pipe_at(setup: &Setup, plan: PacketPlan, hop: u32) -> u32
    requires known { packet_of setup.now plan.number ≡ Some plan }
    requires within { hop < length (route_of setup.now plan.number) }
    ensures pipe { result ≡ slice_index (route_of setup.now plan.number) hop }
    ensures named { result < length setup.now.pipes }
{
    route(setup, plan)[hop as usize]
}

/// The visit that follows one to this hop on the packet's way; none where the way ends.
pub fn next_due(setup: &Setup, plan: PacketPlan, hop: u32, step: Step) -> Option<Due>
    requires known { packet_of setup.now plan.number ≡ Some plan }
    requires within { hop < length (route_of setup.now plan.number) }
    ensures { result ≡ hop_after setup.now plan.number hop step }
{
    let Step::Pass { exit } = step else {
        return None;
    };
    if hop as usize + 1 >= route(setup, plan).len() {
        return None;
    }
    Some(Due {
        tick: exit,
        packet: plan.number,
        hop: hop + 1,
    })
}
